//! The note on an error of a Bison file.

ghost use Rattle.std.specs.Prelude.{◌≡◌, [], ◌∷◌, ◌++◌, IfOk, codes, option_map, slice_range, string_bytes};
ghost use Rattle.cfgrammar.specs.TextSpans.{IsPiece};
ghost use Rattle.cfglint.specs.BisonNotes.{begins_as_name, begins_with, begins_with_mark, begins_with_quote};
ghost use Rattle.cfglint.specs.BisonNotes.{bison_note, character_advice, characters_note, closing};
ghost use Rattle.cfglint.specs.BisonNotes.{fault_advice, fault_note};
ghost use Rattle.cfglint.specs.BisonNotes.{found_note, long_word, symbol_note, unexpected_note, word_note};

use crate::suggestion::{Names, question_of};
use cfgrammar::Span;
use cfgrammar::bison::{Error, ErrorKind, Expected, WordFaultKind};
use std::alloc::{AllocError, Global};

/// The note on an error, if it has one.
///
/// # Errors
///
/// Running out of memory.
pub(crate) fn note_on(
    alloc: Global,
    text: &str,
    names: &Names<'_>,
    error: &Error,
) -> Result<Option<String>, AllocError>
    requires { IsPiece text.now error.now.span }
    ensures { IfOk result (λ hint. option_map (λ words. string_bytes words) hint
        ≡ bison_note text.now names.now error.now) }
{
    let word = covered(text, error.span);
    match error.kind {
        ErrorKind::Unexpected(expected) => Ok(Some(unexpected_note(alloc, expected, word)?)),
        ErrorKind::Word(fault) => fault_note(alloc, fault, word),
        ErrorKind::UnknownSymbol => Ok(Some(symbol_note(alloc, names, word)?)),
        ErrorKind::InvalidStart => question_of(alloc, &names.symbols, word),
        _ => Ok(None),
    }
}

/// The note on a fault in a word, if it has one.
fn fault_note(alloc: Global, fault: WordFaultKind, word: &str) -> Result<Option<String>, AllocError>
    ensures { IfOk result (λ hint. option_map (λ words. string_bytes words) hint ≡ fault_note fault word.now) }
{
    match closing(fault) {
        Some(end) => Ok(Some(format!(in alloc; "no {end} closes it")?)),
        None => word_note(alloc, fault, word),
    }
}

/// What would end a word that has no end.
fn closing(fault: WordFaultKind) -> Option<&'static str>
    ensures { option_map (λ end. end.now) result ≡ closing fault }
{
    match fault {
        WordFaultKind::IncompleteComment => Some("'*/'"),
        WordFaultKind::IncompleteLiteral | WordFaultKind::IncompleteString => Some("quote"),
        WordFaultKind::IncompleteTag => Some("'>'"),
        WordFaultKind::IncompleteName => Some("']'"),
        WordFaultKind::IncompleteCode => Some("'}'"),
        WordFaultKind::IncompletePrologue => Some("'%}'"),
        _ => None,
    }
}

/// The note on a fault in a word that has an end, if it has one.
fn word_note(alloc: Global, fault: WordFaultKind, word: &str) -> Result<Option<String>, AllocError>
    ensures { IfOk result (λ hint. option_map (λ words. string_bytes words) hint ≡ word_note fault word.now) }
{
    match fault {
        WordFaultKind::UnknownDirective => question_of(alloc, &DIRECTIVES, word),
        WordFaultKind::IllegalCharacters => Ok(Some(characters_note(alloc, word)?)),
        WordFaultKind::EmptyLiteral => Ok(Some(String::from_str(alloc, EMPTY_LITERAL)?)),
        WordFaultKind::LongLiteral => Ok(Some(String::from_str(alloc, LONG_LITERAL)?)),
        WordFaultKind::IllegalName => Ok(Some(String::from_str(alloc, ILLEGAL_NAME)?)),
        _ => advice_note(alloc, word, fault_advice(fault)),
    }
}

/// The note that says what was found, and this advice, if there is one.
fn advice_note(
    alloc: Global,
    word: &str,
    advice: Option<&str>,
) -> Result<Option<String>, AllocError>
    ensures { IfOk result (λ hint. option_map (λ words. string_bytes words) hint
        ≡ option_map (λ advice. codes "found '" ++ (word.now ++ (codes "'" ++ advice.now))) advice.entry) }
{
    match advice {
        Some(advice) => Ok(Some(format!(in alloc; "found '{word}'{advice}")?)),
        None => Ok(None),
    }
}

/// What to say of a fault after the word with it.
fn fault_advice(fault: WordFaultKind) -> Option<&'static str>
    ensures { option_map (λ advice. advice.now) result ≡ fault_advice fault }
{
    match fault {
        WordFaultKind::IllegalEscape => Some(": escapes are those of C, and '\\\\' is a backslash"),
        WordFaultKind::IllegalIdentifier => {
            Some(": a name begins with no digit, and a string is in double quotes")
        }
        WordFaultKind::IllegalInteger => Some(": the greatest number is 2147483647"),
        _ => None,
    }
}

/// The note on characters that begin no word.
fn characters_note(alloc: Global, word: &str) -> Result<String, AllocError>
    ensures { IfOk result (λ note. string_bytes note ≡ characters_note word.now) }
{
    if begins_with_mark(word) {
        return String::from_str(alloc, "a byte order mark: save the file without one");
    }
    let advice = character_advice(word);
    format!(in alloc; "found '{word}'{advice}")
}

/// What to say of such characters.
#[tactic(auto, unfolding(crate::specs::BisonNotes::character_advice))]
fn character_advice(word: &str) -> &'static str
    ensures { result.now ≡ character_advice word.now }
{
    if begins_with(word, "#") {
        ": comments begin with '//' or '/*'"
    } else if begins_with(word, ":") {
        ": one ':' is between a rule's name and its productions"
    } else if begins_with_quote(word) {
        ": quotes are ' and \""
    } else {
        ": a token is in quotes, and productions have no operators"
    }
}

/// The text at a span.
fn covered(text: &str, span: Span) -> &str
    requires { IsPiece text.now span }
    ensures { result.now ≡ slice_range text.now span.start span.end }
{
    &text[span.start()..span.end()]
}

/// The note that says what was found.
fn found_note(alloc: Global, word: &str) -> Result<String, AllocError>
    ensures { IfOk result (λ note. string_bytes note ≡ found_note word.now) }
{
    match long_word(word) {
        Some(name) => Ok(format!(in alloc; "found {name}")?),
        None => Ok(format!(in alloc; "found '{word}'")?),
    }
}

/// What the end of a text is called, and words that may be long.
fn long_word(word: &str) -> Option<&'static str>
    ensures { option_map (λ name. name.now) result ≡ long_word word.now }
{
    if word.is_empty() {
        Some("the end of the file")
    } else if begins_with(word, "{") {
        Some("code in braces")
    } else if begins_with(word, "%{") {
        Some("a prologue")
    } else if begins_with(word, "%?") {
        Some("a predicate")
    } else {
        None
    }
}

/// Whether a word begins with a byte order mark.
fn begins_with_mark(word: &str) -> bool
    ensures { result ≡ begins_with_mark word.now }
{
    begins_with(word, "\u{feff}")
}

/// The note on a word that can't be here: what was found, and of a name where a rule has to be that no colon follows.
fn unexpected_note(alloc: Global, expected: Expected, word: &str) -> Result<String, AllocError>
    ensures { IfOk result (λ note. string_bytes note ≡ unexpected_note expected word.now) }
{
    match expected {
        Expected::Rule if begins_as_name(word) => {
            Ok(format!(in alloc; "found '{word}', and no ':' after it: '%%' comes before code")?)
        }
        _ => found_note(alloc, word),
    }
}

/// Whether a word begins as names do.
fn begins_as_name(word: &str) -> bool
    ensures { result ≡ begins_as_name word.now }
{
    match word.as_bytes() {
        [b, ..] => b.is_ascii_alphabetic() || *b == b'_' || *b == b'.',
        [] => false,
    }
}

/// Whether a word begins with a typographic quote.
fn begins_with_quote(word: &str) -> bool
    ensures { result ≡ begins_with_quote word.now }
{
    match word.as_bytes() {
        [first, second, third, ..] => {
            *first == 226 && *second == 128 && *third >= 152 && *third <= 159
        }
        _ => false,
    }
}

/// Whether a word begins so.
fn begins_with(word: &str, start: &str) -> bool
    ensures { result ≡ begins_with start.now word.now }
{
    word.as_bytes().starts_with(start.as_bytes())
}

/// The note on a symbol that is neither a token nor a rule.
fn symbol_note(alloc: Global, names: &Names<'_>, name: &str) -> Result<String, AllocError>
    ensures { IfOk result (λ note. string_bytes note ≡ symbol_note names.now name.now) }
{
    match question_of(alloc, &names.symbols, name)? {
        Some(question) => Ok(question),
        None => Ok(format!(in alloc; "if it is a token, declare it by %token")?),
    }
}

/// The notes on literals of no character and of more than one, and on names in brackets.
const EMPTY_LITERAL: &str =
    "one character is between the quotes, and %empty is for a production without symbols";

const LONG_LITERAL: &str = "several characters are in double quotes";

const ILLEGAL_NAME: &str = "brackets have one name";

/// The directives that may be meant.
const DIRECTIVES: [&str; 42] = [
    "%token",
    "%nterm",
    "%type",
    "%left",
    "%right",
    "%nonassoc",
    "%precedence",
    "%start",
    "%union",
    "%code",
    "%destructor",
    "%printer",
    "%expect",
    "%expect-rr",
    "%define",
    "%require",
    "%prec",
    "%empty",
    "%dprec",
    "%merge",
    "%param",
    "%parse-param",
    "%lex-param",
    "%initial-action",
    "%locations",
    "%debug",
    "%verbose",
    "%skeleton",
    "%language",
    "%output",
    "%header",
    "%defines",
    "%name-prefix",
    "%file-prefix",
    "%no-lines",
    "%token-table",
    "%default-prec",
    "%no-default-prec",
    "%glr-parser",
    "%pure-parser",
    "%error-verbose",
    "%yacc",
];
