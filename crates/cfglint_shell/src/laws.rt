//! What `clone` of options and of their parts copies. The impls are derived, so each law names the impl, as in
//! `⟦<Format as Clone>⟧`, and is true of every value.

ghost use Rattle.std.specs.Prelude.{◌≡◌};
ghost use Rattle.cfglint_shell.specs.declared.file_kind.FileKind.{FileKind};
ghost use Rattle.cfglint_shell.specs.declared.file_kind.KindRequest.{KindRequest};
ghost use Rattle.cfglint_shell.specs.declared.format.Format.{Format};
ghost use Rattle.cfglint_shell.specs.declared.linter.LintOptions.{LintOptions};

use crate::file_kind::{FileKind, KindRequest};
use crate::format::Format;
use crate::linter::LintOptions;
pub use finding_kinds::laws::{finding_kinds_are_distinct, levels_are_by_kind, words_name_kinds};

/// A clone of options, of a kind, of a request for one or of a format equals its source, and allocates nothing.
pub fn options_are_copied()
    ensures clone_kind { (a b : FileKind) → ⟦<FileKind as Clone>⟧.is_clone a b → b ≡ a }
    ensures cloned_kind { (a : FileKind) → ⟦<FileKind as Clone>⟧.is_infallible a }
    ensures clone_request { (a b : KindRequest) → ⟦<KindRequest as Clone>⟧.is_clone a b → b ≡ a }
    ensures cloned_request { (a : KindRequest) → ⟦<KindRequest as Clone>⟧.is_infallible a }
    ensures clone_format { (a b : Format) → ⟦<Format as Clone>⟧.is_clone a b → b ≡ a }
    ensures cloned_format { (a : Format) → ⟦<Format as Clone>⟧.is_infallible a }
    ensures clone_options { (a b : LintOptions) → ⟦<LintOptions as Clone>⟧.is_clone a b → b ≡ a }
    ensures cloned_options { (a : LintOptions) → ⟦<LintOptions as Clone>⟧.is_infallible a }
{}
