//! A law of the constructors of a grammar, which is true of every text.

ghost use Rattle.std.specs.Prelude.{◌↔◌, ℕ, List, Result, Ok, Err, map};
ghost use Rattle.cfgbase.specs.declared.span.Span.{Span};
ghost use Rattle.cfgkinds.specs.declared.kind.YaccKind.{YaccKind};
ghost use Rattle.cfgerrors.specs.HeaderErrors.{ShownError};
ghost use Rattle.cfgerrors.specs.Errors.{header_error};
ghost use Rattle.cfgerrors.specs.declared.error.YaccFault.{YaccFault};
ghost use Rattle.cfgsection.specs.Named.{Names};
ghost use Rattle.cfgnumbers.specs.Numbered.{Numbered};
ghost use Rattle.cfgyacc.specs.Answer.{IsAnswer, Unnamed};
ghost use Rattle.cfgyacc.specs.GrammarOf.{IsGrammarOf, IsGrammarOfItself};

/// For a text that names a kind, [`from_str`](crate::YaccGrammar::from_str) returns just what
/// [`new_with_storaget`](crate::YaccGrammar::new_with_storaget) returns for the text and that kind. For a text that
/// names none, it returns the errors that keep the text from naming one.
pub fn texts_are_read_as_the_kind_they_name()
    ensures named { (text : List ℕ) (kind : YaccKind) → Names text (Ok kind)
        → (max : ℕ) (result : Result Numbered YaccFault)
        → IsGrammarOfItself text max result ↔ IsGrammarOf kind text max result }
    ensures unnamed { (text : List ℕ) (errors : List (ShownError Span)) → Names text (Err errors)
        → (max : ℕ) (result : Result Numbered YaccFault)
        → IsGrammarOfItself text max result ↔ IsAnswer max (Unnamed (map header_error errors)) result }
{}
