//! Errors as the program reports them, whatever the files that they are in.

ghost use Rattle.std.specs.Prelude.{◌≡◌, [], ◌∷◌, ◌++◌, IfOk, OnOk, string_bytes};
ghost use Rattle.std.specs.Option.{option_map};
ghost use Rattle.cfglint.specs.BisonNotes.{bison_noted_as, has_symbols_of};
ghost use Rattle.cfglint.specs.ReportedErrors.{error_lines, note_index, note_offset, noted_as};

use crate::error_words::{error_word, has_symbols};
use crate::messages::Message;
use cfgjson::{Diagnosed, Diagnostic};
use cfgrammar::bison::{Error, ErrorKind};
use cfgrammar::yacc::{YaccGrammarError, YaccGrammarErrorKind};
use cfgrammar::{ColumnUnit, Source, Span, Spanned, SpansKind};
use std::alloc::{AllocError, Global};
use std::fmt;
use std::marker::Model;

/// An error, as it is reported: what it says, the word of its kind, where it is, the note on it, if there is one, the
/// index of the span where that is, and whether its spans are names of symbols.
#[derive(Debug, Drop)]
pub(crate) struct ReportedError {
    text: String,
    word: &'static str,
    spans: Vec<Span>,
    spanskind: SpansKind,
    hint: Option<String>,
    note_index: usize,
    has_symbols: bool,
}

impl Model for ReportedError {
    ghost use Rattle.std.specs.Option.{option_map};
    ghost use Rattle.std.specs.Prelude.{string_bytes};
    ghost use Rattle.cfglint.specs.ReportedErrors.{NotedError};

    ghost Value = { NotedError };

    ghost view = { λ x. record {
      text = string_bytes x.text;
      word = x.word.now;
      spans = x.spans.items;
      spanskind = x.spanskind;
      hint = option_map (λ words. string_bytes words) x.hint;
      note_index = x.note_index;
      has_symbols = x.has_symbols;
    } };
}

impl ReportedError {
    /// An error of a file of one of the library's kinds, with this note.
    ///
    /// # Errors
    ///
    /// Running out of memory.
    pub(crate) fn of_yacc(
        alloc: Global,
        error: &YaccGrammarError,
        hint: Option<String>,
    ) -> Result<Self, AllocError>
        ensures { IfOk result (λ reported.
            reported ≡ noted_as error.now (option_map (λ words. string_bytes words) hint)) }
    {
        Ok(ReportedError {
            text: error.to_string(alloc)?,
            word: error_word(error.kind()),
            spans: error.spans().to_vec(alloc)?,
            spanskind: error.spanskind(),
            hint,
            note_index: note_index(error),
            has_symbols: has_symbols(error.kind()),
        })
    }

    /// An error of a Bison file, with this note.
    ///
    /// # Errors
    ///
    /// Running out of memory.
    pub(crate) fn of_bison(
        alloc: Global,
        error: &Error,
        hint: Option<String>,
    ) -> Result<Self, AllocError>
        ensures { IfOk result (λ reported.
            reported ≡ bison_noted_as error.now (option_map (λ words. string_bytes words) hint)) }
    {
        Ok(ReportedError {
            text: error.to_string(alloc)?,
            word: error.kind.word(),
            spans: error.spans(alloc)?,
            spanskind: error.spanskind(),
            hint,
            note_index: 0,
            has_symbols: is_about_symbol(error.kind),
        })
    }

    /// The note on it.
    fn hint(&self) -> Option<&str>
        ensures { option_map (λ words. words.now) result ≡ self.now.hint }
    {
        match &self.hint {
            Some(hint) => Some(hint.as_str()),
            None => None,
        }
    }

    /// The offset of the note on it, in bytes.
    fn note_offset(&self) -> usize
        ensures { result ≡ note_offset self.now }
    {
        match self.spans.get(self.note_index) {
            Some(span) => span.start(),
            None => 0,
        }
    }
}

impl fmt::Display for ReportedError {
    ghost use Rattle.std.specs.Prelude.{Some};
    ghost use Rattle.cfglint.specs.ReportedErrors.{error_message};

    ghost output = { λ x. Some (error_message x) };

    fn fmt<W: fmt::Write>(&self, f: &mut fmt::Formatter<W>) -> fmt::Result {
        match &self.hint {
            Some(hint) => write!(f, "{}: {hint} [{}]", self.text, self.word),
            None => write!(f, "{} [{}]", self.text, self.word),
        }
    }
}

impl Diagnosed for ReportedError {
    ghost use Rattle.cfglint.specs.ReportedErrors.{shown_error};

    ghost shown = { shown_error };

    fn message(&self, alloc: Global) -> Result<String, AllocError> {
        String::from_str(alloc, &self.text)
    }

    fn diagnostic<'b>(&'b self, text: &'b str) -> Diagnostic<'b> {
        Diagnostic {
            is_error: true,
            kind: self.word,
            text,
            hint: self.hint(),
            spans: self.spans.as_slice(),
            has_symbols: self.has_symbols,
        }
    }
}

/// The index of the span where the note on an error is: of a rule that the end of the text cuts the last one, its name,
/// if that is known.
fn note_index(error: &YaccGrammarError) -> usize
    ensures { result ≡ note_index error.now }
{
    match error.kind() {
        YaccGrammarErrorKind::IncompleteRule => error.spans().len().saturating_sub(1),
        _ => 0,
    }
}

/// Whether the span of an error of this kind in a Bison file is the name of a symbol that the file doesn't have.
fn is_about_symbol(kind: ErrorKind) -> bool
    ensures { result ≡ has_symbols_of kind }
{
    matches!(kind, ErrorKind::UnknownSymbol | ErrorKind::InvalidStart)
}

/// The errors as people read them, each with its note after it.
pub(crate) fn error_lines(
    alloc: Global,
    unit: ColumnUnit,
    colors: bool,
    name: &str,
    text: &str,
    errors: &[ReportedError],
) -> Result<String, AllocError>
    ensures { IfOk result (λ lines. string_bytes lines ≡ error_lines unit colors name.now text.now errors.now) }
{
    let source = Source::with_columns(alloc, name, text, unit)?;
    let mut lines = String::new(alloc);
    for error in errors {
        push_error(alloc, &mut lines, &source, colors, error)?;
    }
    Ok(lines)
}

/// Writes an error, and its note after it.
fn push_error(
    alloc: Global,
    lines: &mut String,
    source: &Source<'_>,
    colors: bool,
    error: &ReportedError,
) -> Result<(), AllocError>
    ensures { OnOk result (string_bytes lines.new ≡ string_bytes lines.old
        ++ error_lines source.now.unit colors source.now.name.now source.now.text (error.now ∷ [])) }
{
    let text = error.to_string(alloc)?;
    let message = Message {
        is_error: true,
        text: &text,
        spans: error.spans.as_slice(),
        spanskind: error.spanskind,
    };
    message.push(alloc, lines, source, colors)?;
    match error.hint() {
        Some(hint) => source.push_note(lines, hint, error.note_offset()),
        None => Ok(()),
    }
}
