//! The note on an error.

ghost use Rattle.std.specs.Prelude.{◌≡◌, ◌++◌};
ghost use Rattle.std.specs.List.{find};
ghost use Rattle.std.specs.Option.{option_map};
ghost use Rattle.cfgerrors.specs.Errors.{kind_view};
ghost use Rattle.cfgerrors.specs.HeaderErrors.{error_kind_view};
ghost use Rattle.cfghints.specs.Hints.{after, begins_keyword, begins_name, begins_with, first_byte, found};
ghost use Rattle.cfghints.specs.Hints.{found_note, has_parameter, hint_text, note};
ghost use Rattle.cfghints.specs.Hints.{arrow_advice, byte_advice, character_advice, colon_advice};
ghost use Rattle.cfghints.specs.Hints.{declaration_advice, declaration_note, ending_note, key_advice, line_note};
ghost use Rattle.cfghints.specs.Hints.{begins_with_quote, is_operator, is_past_end, name_advice, plain_note};
ghost use Rattle.cfghints.specs.Hints.{reach_note, symbol_advice, token_advice};
ghost use Rattle.cfghints.specs.Hints.{ends_piece, is_nearly_empty, is_nearly_prec, is_quote, kind_note, quote_follows};
ghost use Rattle.cfghints.specs.Hints.{after_name, begins_rule, kind_advice, production_advice, section_note};

use crate::found::Found;
use cfgbase::{Span, Spanned};
use cfgerrors::{HeaderErrorKind, YaccGrammarError, YaccGrammarErrorKind};
use cfgwords::bytes::ByteClass;
use cfgwords::run::{run, starts};
use constructs::{after_word, split_at_first};
use std::fmt;
use std::marker::Model;

/// Where a section has to be.
const SECTION_PLACE: &str =
    "a section %grmtools{..} is at the start of the file, before any comment";

/// A note on an error: what was found where the error is, and what may be there.
#[derive(Debug, Drop)]
pub struct Hint<'a> {
    start: &'static str,
    found: Found<'a>,
    end: &'static str,
}

impl<'a> Model for Hint<'a> {
    ghost use Rattle.std.specs.Prelude.{◌++◌, List, ℕ};

    ghost Value = { List ℕ };

    ghost view = { λ x. x.start.now ++ (x.found.quote.now ++ (x.found.words.now ++ (x.found.quote.now ++ x.end.now))) };
}

impl<'a> Hint<'a> {
    /// What the text begins with, between these two texts.
    fn new(start: &'static str, text: &'a str, end: &'static str) -> Hint<'a>
        ensures { result ≡ start.entry.now ++ (found text.entry.now ++ end.entry.now) }
    {
        let found = Found::at_start(text);
        Hint { start, found, end }
    }

    /// That this was found, and what that means.
    fn found(text: &'a str, end: &'static str) -> Hint<'a>
        ensures { result ≡ found_note text.entry.now end.entry.now }
    {
        Hint::new("found ", text, end)
    }

    /// A text by itself.
    fn plain(start: &'static str) -> Hint<'a>
        ensures { result ≡ start.entry.now }
    {
        let found = Found {
            quote: "",
            words: "",
        };
        Hint {
            start,
            found,
            end: "",
        }
    }
}

impl fmt::Display for Hint<'_> {
    ghost use Rattle.std.specs.Prelude.{Some};

    ghost output = { λ x. Some x };

    fn fmt<W: fmt::Write>(&self, f: &mut fmt::Formatter<W>) -> fmt::Result {
        let Hint { start, found, end } = self;
        let Found { quote, words } = found;
        write!(f, "{start}{quote}{words}{quote}{end}")
    }
}

/// The note on an error in this text, if there is one: there is none on an error without a span, or whose first span
/// doesn't start at a character boundary of the text, nor on errors of most kinds. It allocates nothing.
pub fn hint_for<'a>(text: &'a str, error: &YaccGrammarError) -> Option<Hint<'a>>
    ensures { result ≡ hint_text text.entry.now error.now }
{
    let span = error.spans().first()?;
    if !text.is_char_boundary(span.start()) {
        return None;
    }
    let (before, rest) = text.split_at(span.start());
    note(error.kind(), before, rest, after(text, *span))
}

/// The text after a span that ends at a character boundary.
fn after(text: &str, span: Span) -> Option<&str>
    ensures { option_map (λ rest. rest.now) result ≡ after text.entry.now span }
{
    if text.is_char_boundary(span.end()) {
        Some(text.split_at(span.end()).1)
    } else {
        None
    }
}

/// The note on an error of this kind between these texts, and with this text after its span.
fn note<'a>(
    kind: &YaccGrammarErrorKind,
    before: &str,
    text: &'a str,
    after: Option<&'a str>,
) -> Option<Hint<'a>>
    ensures { result ≡ note (kind_view kind.now) before.now text.entry.now
        (option_map (λ rest. rest.now) after.entry) }
{
    let advice = match kind {
        YaccGrammarErrorKind::UnknownDeclaration => return Some(declaration_note(before, text)),
        YaccGrammarErrorKind::IllegalString => symbol_advice(before, text),
        YaccGrammarErrorKind::ProductionNotTerminated => production_advice(text),
        YaccGrammarErrorKind::MissingColon => colon_advice(text),
        YaccGrammarErrorKind::MissingRightArrow => arrow_advice(text),
        YaccGrammarErrorKind::IllegalName => name_advice(text),
        YaccGrammarErrorKind::IllegalInteger => ", expected a number up to 18446744073709551615",
        YaccGrammarErrorKind::UnknownSymbol => ", expected a name or a quoted text",
        YaccGrammarErrorKind::PrematureEnd => return Some(ending_note(before)),
        YaccGrammarErrorKind::ReachedEOL => return Some(reach_note(before, text)),
        YaccGrammarErrorKind::Header(section, _) => {
            return section_note(section, before, text, after);
        }
        other => return plain_note(other),
    };
    Some(Hint::found(text, advice))
}

/// The note on an error of this kind in a section, between these texts. After the whole span there is what was found in
/// place of a character.
fn section_note<'a>(
    kind: &HeaderErrorKind,
    before: &str,
    text: &'a str,
    after: Option<&'a str>,
) -> Option<Hint<'a>>
    ensures { result ≡ section_note (error_kind_view kind.now) before.now text.entry.now
        (option_map (λ rest. rest.now) after.entry) }
{
    match kind {
        HeaderErrorKind::InvalidEntry("yacckind") => Some(kind_note(before, text)),
        HeaderErrorKind::MissingGrmtoolsSection => Some(Hint::plain(SECTION_PLACE)),
        HeaderErrorKind::IllegalName => Some(Hint::found(text, key_advice(text))),
        HeaderErrorKind::ExpectedToken(character) => {
            Some(Hint::found(after?, character_advice(*character)))
        }
        _ => None,
    }
}

/// The note on the value of a section's key `yacckind`, or on the section if it has no such key.
#[tactic(auto, unfolding(crate::specs::Hints::kind_note))]
fn kind_note<'a>(before: &str, text: &'a str) -> Hint<'a>
    ensures { result ≡ kind_note before.now text.entry.now }
{
    if before.is_empty() {
        Hint::plain("the section has no key yacckind, and so names no kind")
    } else {
        Hint::found(text, kind_advice(first_byte(text)))
    }
}

/// Which kind may be meant where a value that begins with this byte names none.
#[tactic(auto, unfolding(crate::specs::Hints::kind_advice))]
fn kind_advice(first: u8) -> &'static str
    ensures { result.now ≡ kind_advice first }
{
    match first {
        b'G' | b'g' => {
            ", expected a kind, without quotes: did you mean Grmtools? The others are Eco, Original(NoAction), \
             Original(UserAction) and Original(GenericParseTree)"
        }
        b'E' | b'e' => {
            ", expected a kind, without quotes: did you mean Eco? The others are Grmtools, Original(NoAction), \
             Original(UserAction) and Original(GenericParseTree)"
        }
        _ => {
            ", expected a kind, without quotes: Grmtools, Eco, Original(NoAction), Original(UserAction) or \
             Original(GenericParseTree)"
        }
    }
}

/// The note on an error of this kind, if it doesn't depend on the text.
fn plain_note<'a>(kind: &YaccGrammarErrorKind) -> Option<Hint<'a>>
    ensures { result ≡ plain_note (kind_view kind.now) }
{
    let words = match kind {
        YaccGrammarErrorKind::IncompleteAction => {
            "no '}' closes it: each '{' in it needs one, also in a string or a comment"
        }
        YaccGrammarErrorKind::IncompleteComment => "no '*/' closes it",
        YaccGrammarErrorKind::IncompleteRule => "a ';' ends a rule",
        YaccGrammarErrorKind::NoStartRule => "the file has no rules",
        YaccGrammarErrorKind::InvalidString => {
            "a quoted text ends on its line, and has a '\\' only before a quote"
        }
        _ => return None,
    };
    Some(Hint::plain(words))
}

/// The note where neither a declaration nor `%%` was found, between these texts.
#[tactic(auto, unfolding(crate::specs::Hints::declaration_note))]
fn declaration_note<'a>(before: &str, text: &'a str) -> Hint<'a>
    ensures { result ≡ declaration_note before.now text.entry.now }
{
    if before.is_empty() && begins_with(text, "\u{feff}") {
        Hint::plain("the file begins with a byte order mark: save it without one")
    } else if begins_with(text, "%{") {
        Hint::plain("code between %{ and %} isn't read: leave it out of the grammar")
    } else if begins_with(text, "%grmtools") {
        Hint::plain(SECTION_PLACE)
    } else if begins_keyword(text) {
        Hint::new(
            "",
            text,
            " isn't read here: the declarations are %token, %start, %left, %right, %nonassoc, %epp, \
             %expect, %expect-rr, %expect-unused, %avoid_insert, %parse-param and %parse-generics; \
             %actiontype in the original kinds and %implicit_tokens in Eco",
        )
    } else {
        Hint::found(text, declaration_advice(before, text))
    }
}

/// What to say where neither a declaration nor `%%` was found, between these texts.
#[tactic(auto, unfolding(crate::specs::Hints::declaration_advice))]
fn declaration_advice(before: &str, text: &str) -> &'static str
    ensures { result.now ≡ declaration_advice before.now text.now }
{
    if first_byte(text) == b'#' {
        ", expected a declaration or '%%': comments begin with '//'"
    } else if has_parameter(before) {
        ", expected a declaration or '%%': a %parse-param without ':' goes on to the next ':'"
    } else {
        ", expected a declaration or '%%'"
    }
}

/// The note where the file ends before `%%`, after this text.
#[tactic(auto, unfolding(crate::specs::Hints::ending_note))]
fn ending_note<'a>(before: &str) -> Hint<'a>
    ensures { result ≡ ending_note before.now }
{
    if has_parameter(before) {
        Hint::plain(
            "'%%' comes before the rules: a %parse-param without ':' goes on to the next ':'",
        )
    } else {
        Hint::plain("'%%' comes before the rules")
    }
}

/// Whether a text has a `%parse-param`.
fn has_parameter(text: &str) -> bool
    ensures { result ≡ has_parameter text.now }
{
    split_at_first(text, "%parse-param").is_some()
}

/// The note where a line or the file ends too soon, between these texts.
fn reach_note<'a>(before: &str, text: &'a str) -> Hint<'a>
    ensures { result ≡ reach_note before.now text.entry.now }
{
    match text.as_bytes() {
        [] => Hint::found(
            text,
            ", expected ':' after the type of a rule or the name of a %parse-param",
        ),
        _ => line_note(before),
    }
}

/// The note where a line ends too soon after this text.
#[tactic(auto, unfolding(crate::specs::Hints::line_note))]
fn line_note<'a>(before: &str) -> Hint<'a>
    ensures { result ≡ line_note before.now }
{
    if has_parameter(before) {
        Hint::plain(
            "what a declaration needs is in one line with its keyword: a %parse-param without ':' goes on to \
             the next ':'",
        )
    } else {
        Hint::plain("what a declaration needs is in one line with its keyword")
    }
}

/// What to say where no colon was found.
#[tactic(auto, unfolding(crate::specs::Hints::colon_advice))]
fn colon_advice(text: &str) -> &'static str
    ensures { result.now ≡ colon_advice text.now }
{
    if begins_with(text, "->") {
        ": rules have types only in files of the kind Grmtools, as %grmtools{yacckind: Grmtools} says"
    } else if begins_name(text) {
        ", expected ':', or '%%' before code"
    } else {
        ", expected ':'"
    }
}

/// What to say where a production goes on after its action.
#[tactic(auto, unfolding(crate::specs::Hints::production_advice))]
fn production_advice(text: &str) -> &'static str
    ensures { result.now ≡ production_advice text.now }
{
    if begins_rule(text) {
        ": a ';' may be missing before this rule"
    } else if begins_with(text, "%%") {
        ": a ';' may be missing before it"
    } else {
        ", expected '|' or ';': an action may only be at the end of a production, and a '}' ends it also in \
         a string or a comment"
    }
}

/// Whether the text begins with the head of a rule: a name, and `:` or `->` after it.
fn begins_rule(text: &str) -> bool
    ensures { result ≡ begins_rule text.now }
{
    let after = after_name(text);
    begins_name(text) && (begins_with(after, ":") || begins_with(after, "->"))
}

/// What follows a name and the blanks after it.
fn after_name(text: &str) -> &str
    ensures { result.now ≡ after_name text.now }
{
    let (_, after) = run(text, ByteClass::NameByte);
    run(after, ByteClass::Blank).1
}

/// What to say where the type of a rule is missing.
#[tactic(auto, unfolding(crate::specs::Hints::arrow_advice))]
fn arrow_advice(text: &str) -> &'static str
    ensures { result.now ≡ arrow_advice text.now }
{
    if first_byte(text) == b':' {
        ", expected '->' and the type of the rule's value: only files of the kind Grmtools have types"
    } else if begins_name(text) {
        ", expected '->' and the type of the rule's value, or '%%' before code"
    } else {
        ", expected '->' and the type of the rule's value"
    }
}

/// What to say where no name of a rule is.
#[tactic(auto, unfolding(crate::specs::Hints::name_advice))]
fn name_advice(text: &str) -> &'static str
    ensures { result.now ≡ name_advice text.now }
{
    if first_byte(text) == b'#' {
        ", expected the name of a rule: comments begin with '//', and '%%' comes before code"
    } else {
        ", expected the name of a rule"
    }
}

/// What to say where no name is in a section.
#[tactic(auto, unfolding(crate::specs::Hints::key_advice))]
fn key_advice(text: &str) -> &'static str
    ensures { result.now ≡ key_advice text.now }
{
    match first_byte(text) {
        b'%' => ", expected a name: a '}' may be missing before it",
        b'"' => ", which no quote closes",
        _ => ", expected a name",
    }
}

/// What to say where this character is missing in a section.
#[tactic(auto, unfolding(crate::specs::Hints::character_advice))]
fn character_advice(character: char) -> &'static str
    ensures { result.now ≡ character_advice character }
{
    if character == '}' {
        ", expected '}', or ',' and another key"
    } else {
        ""
    }
}

/// Whether the text begins as names do.
fn begins_name(text: &str) -> bool
    ensures { result ≡ begins_name text.now }
{
    starts(text, ByteClass::NameStart)
}

/// What to say where no token was found, between these texts.
#[tactic(auto, unfolding(crate::specs::Hints::symbol_advice))]
fn symbol_advice(before: &str, text: &str) -> &'static str
    ensures { result.now ≡ symbol_advice before.now text.now }
{
    if is_past_end(before) {
        ", expected a name or a quoted text: the type of a rule goes on to the next ':', and may have a '%%'"
    } else {
        token_advice(text)
    }
}

/// Whether a text has `%%`, then `->`, and then `%%` again: if the rules go on after it, that is in the type of a rule.
fn is_past_end(before: &str) -> bool
    ensures { result ≡ is_past_end before.now }
{
    let Some((_, rules)) = split_at_first(before, "%%") else {
        return false;
    };
    let Some((_, rest)) = split_at_first(rules, "->") else {
        return false;
    };
    split_at_first(rest, "%%").is_some()
}

/// What to say where no token was found.
#[tactic(auto, unfolding(crate::specs::Hints::token_advice))]
fn token_advice(text: &str) -> &'static str
    ensures { result.now ≡ token_advice text.now }
{
    if begins_with(text, ":=") {
        ": only one ':' is between a rule's name and its productions"
    } else if begins_with(text, "->") {
        ": a ';' may be missing before this rule"
    } else if quote_follows(text) {
        ", expected a name or a quoted text: a quote may be missing before it, or be one too many, as in ''"
    } else if begins_with_quote(text) {
        ", expected a name or a quoted text: quotes are ' and \""
    } else if is_nearly_prec(text) {
        ", expected a name or a quoted text: did you mean '%prec'?"
    } else if is_nearly_empty(text) {
        ", expected a name or a quoted text: did you mean '%empty'?"
    } else {
        byte_advice(first_byte(text))
    }
}

/// What to say where no token was found, by the first byte there.
#[tactic(auto, unfolding(crate::specs::Hints::byte_advice))]
fn byte_advice(first: u8) -> &'static str
    ensures { result.now ≡ byte_advice first }
{
    if first == b'#' {
        ", expected a name or a quoted text: comments begin with '//'"
    } else if first == b'=' {
        ", expected a name or a quoted text: a rule's name has ':' after it, and an action is in braces"
    } else if is_operator(first) {
        ", expected a name or a quoted text: a token is in quotes, and productions have no operators"
    } else if first == b'<' {
        ": tags such as <value> aren't read"
    } else if ByteClass::Digit.holds(first) {
        ", expected a name or a quoted text: numbers of tokens aren't read"
    } else if first == b':' {
        ": a ';' may be missing before this rule, or '%%' before the first one"
    } else if ByteClass::Quote.holds(first) {
        ", which no quote closes on this line: one may be missing, or one too many, since a quoted text isn't empty \
         and has no escapes"
    } else if first == b'%' {
        ", expected a name or a quoted text: a ';' or the end of a line may be missing before it, and in a rule \
         only %prec and %empty are read"
    } else if first == b'.' {
        ", expected a name without dots or a quoted text"
    } else {
        ", expected a name or a quoted text"
    }
}

/// Whether the text begins with bytes that are no quotes, and a quote follows them directly.
fn quote_follows(text: &str) -> bool
    ensures { result ≡ quote_follows text.now }
{
    match text.as_bytes() {
        [] => false,
        [first, rest @ ..] => !ends_piece(*first) && is_quote(first_end(rest)),
    }
}

/// The first byte that ends a piece, if there is one.
fn first_end(bytes: &[u8]) -> Option<u8>
    ensures { result ≡ find ends_piece bytes.now }
{
    bytes.iter().copied().find(|byte| ends_piece(*byte))
}

/// Whether this is a quote.
fn is_quote(byte: Option<u8>) -> bool
    ensures { result ≡ is_quote byte }
{
    match byte {
        Some(byte) => ByteClass::Quote.holds(byte),
        None => false,
    }
}

/// Whether a byte belongs to no piece of a production without quotes: a blank, a quote, `|`, `;` or `:`.
fn ends_piece(byte: u8) -> bool
    ensures { result ≡ ends_piece byte }
{
    ByteClass::Blank.holds(byte)
        || ByteClass::Quote.holds(byte)
        || byte == b'|'
        || byte == b';'
        || byte == b':'
}

/// Whether a byte is `?`, `*`, `+`, or a parenthesis.
fn is_operator(byte: u8) -> bool
    ensures { result ≡ is_operator byte }
{
    byte == b'?' || byte == b'*' || byte == b'+' || byte == b'(' || byte == b')'
}

/// Whether the text begins with a typographic quote.
fn begins_with_quote(text: &str) -> bool
    ensures { result ≡ begins_with_quote text.now }
{
    match text.as_bytes() {
        [first, second, third, ..] => {
            *first == 226 && *second == 128 && *third >= 152 && *third <= 159
        }
        _ => false,
    }
}

/// Whether the text begins nearly as `%prec`.
fn is_nearly_prec(text: &str) -> bool
    ensures { result ≡ is_nearly_prec text.now }
{
    !begins_with(text, "%prec") && (begins_with(text, "%pr") || begins_with(text, "%pe"))
}

/// Whether the text begins nearly as `%empty`.
fn is_nearly_empty(text: &str) -> bool
    ensures { result ≡ is_nearly_empty text.now }
{
    !begins_with(text, "%empty") && begins_with(text, "%em")
}

/// Whether the text begins with the word.
fn begins_with(text: &str, word: &str) -> bool
    ensures { result ≡ begins_with word.now text.now }
{
    after_word(text, word).is_some()
}

/// Whether the text begins with a `%` and a letter.
fn begins_keyword(text: &str) -> bool
    ensures { result ≡ begins_keyword text.now }
{
    match after_word(text, "%") {
        Some(rest) => starts(rest, ByteClass::Letter),
        None => false,
    }
}

/// The first byte of the text, or 0 if it has none.
fn first_byte(text: &str) -> u8
    ensures { result ≡ first_byte text.now }
{
    match text.as_bytes() {
        [first, ..] => *first,
        [] => 0,
    }
}
