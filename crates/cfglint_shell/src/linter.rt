//! What lints a text, and what it returns.

ghost use Rattle.std.specs.Prelude.{IfOk};

use crate::file_kind::{FileKind, KindRequest};
use crate::format::Format;
use cfgrammar::ColumnUnit;
use finding_kinds::Levels;
use std::alloc::{AllocError, Global};
use std::marker::Model;

/// How texts are linted.
#[derive(Clone, Copy, Debug)]
pub struct LintOptions {
    /// What they are read as; without it, each is read as the kind that it names itself.
    pub kind: Option<KindRequest>,
    /// Without that, what a text is read as that names no kind. If it isn't given, the linter decides.
    pub default_kind: Option<FileKind>,
    /// What becomes of findings.
    pub levels: Levels,
    /// How what is reported is written.
    pub format: Format,
    /// What the columns of the format `text` count.
    pub columns: ColumnUnit,
    /// Whether severities are coloured. Only the format `text` has colours.
    pub colors: bool,
    /// Whether the states of the parser are shown after the findings. Only the format `text` has them.
    pub shows_states: bool,
}

/// What is reported about a text.
#[derive(Debug, Drop)]
pub struct Report {
    /// Its errors, or the findings about its grammar, in the format that the options name.
    pub lines: String,
    /// What the text was read as, if it was read.
    pub kind: Option<FileKind>,
    /// How many errors are reported.
    pub errors: usize,
    /// How many warnings are reported.
    pub warnings: usize,
}

impl Model for Report {
    ghost use Rattle.std.specs.Prelude.{string_bytes};
    ghost use Rattle.cfglint_shell.specs.Tally.{Printed};

    ghost Value = { Printed };

    ghost view = { λ x. record {
      lines = string_bytes x.lines;
      kind = x.kind;
      errors = x.errors;
      warnings = x.warnings;
    } };
}

/// What lints texts.
pub trait Linter {
    ghost use Rattle.std.specs.Prelude.{ℕ, List};
    ghost use Rattle.cfglint_shell.specs.declared.linter.LintOptions.{LintOptions};
    ghost use Rattle.cfglint_shell.specs.Tally.{Printed};

    // What may be reported about a text in a file of this name, with these options.
    ghost reports: { LintOptions → List ℕ → List ℕ → Printed → Type 0 };

    /// Lints a text in a file of this name, with these options.
    ///
    /// # Errors
    ///
    /// Running out of memory.
    fn lint(
        &self,
        alloc: Global,
        options: &LintOptions,
        name: &str,
        text: &str,
    ) -> Result<Report, AllocError>
        ensures { IfOk result (reports options.now name.now text.now) };
}
