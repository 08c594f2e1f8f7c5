//! References of actions to symbols that don't come before them.

ghost use Rattle.std.specs.Prelude.{◌≡◌, ◌++◌, ◌∷◌, ◌+◌, ◌<◌, [], length, map, option_map, IfOk, OnOk, codes};
ghost use Rattle.std.specs.Prelude.{◌≤◌, Some, string_bytes};
ghost use Rattle.std.specs.List.{prefix_len};
ghost use Rattle.cfgrammar.specs.TreeView.{syntax};
ghost use Rattle.cfgrammar.specs.SyntaxView.{production_view, symbol_view};
ghost use Rattle.text_findings.specs.References.{IsFirstBeyond, ReportsAt, ReportsIn, ReportsUnknownReference};
ghost use Rattle.text_findings.specs.References.{after, after_blanks};
ghost use Rattle.text_findings.specs.References.{count_before, holds, is_code, is_rule_named, is_sign};
ghost use Rattle.text_findings.specs.References.{last_text, number_of, place_at, place_of, reference_at, sign_of};
ghost use Rattle.text_findings.specs.References.{symbols_before, unknown_reference, with_digit, without_tag};
ghost use Rattle.text_findings.specs.Reports.{ReportsBelow};

use crate::empty::{is_action_name, rule_name_at};
use crate::finding::{Finding, FindingKind};
use crate::reporter::{Reporter, push_reported};
use cfgrammar::Span;
use cfgrammar::yacc::ast::{GrammarAST, Production, Symbol};
use std::alloc::{AllocError, Global};

/// Adds a finding for each action with a reference to a symbol that doesn't come before it: the first such reference.
pub(crate) fn push_unknown_references(
    alloc: Global,
    all: &mut Vec<Finding>,
    text: &str,
    ast: &GrammarAST,
) -> Result<(), AllocError>
    ensures { OnOk result ((reported : _) × ReportsBelow (ReportsUnknownReference text.now (syntax ast.now))
        (length (syntax ast.now).productions) reported × (all.new.items ≡ all.old.items ++ reported)) }
{
    push_reported(
        alloc,
        all,
        &UnknownReferences { text, ast },
        ast.prods().len(),
    )
}

/// Reports actions with references to symbols that don't come before them.
#[derive(Drop)]
struct UnknownReferences<'a> {
    text: &'a str,
    ast: &'a GrammarAST,
}

impl Reporter for UnknownReferences<'_> {
    ghost use Rattle.std.specs.Prelude.{length};
    ghost use Rattle.cfgrammar.specs.TreeView.{syntax};
    ghost use Rattle.text_findings.specs.References.{ReportsUnknownReference};

    ghost count = { λ x. length (syntax x.ast.now).productions };

    ghost reports = { λ x. ReportsUnknownReference x.text.now (syntax x.ast.now) };

    fn report(&self, alloc: Global, number: usize) -> Result<Option<Finding>, AllocError> {
        match self.ast.prods().get(number) {
            Some(production) => self.report_at(alloc, number, production),
            None => Ok(None),
        }
    }
}

impl UnknownReferences<'_> {
    /// The finding about the action of the production with this number.
    fn report_at(
        &self,
        alloc: Global,
        number: usize,
        production: &Production,
    ) -> Result<Option<Finding>, AllocError>
        ensures { IfOk result (ReportsAt self.now.text.now (syntax self.now.ast.now) number
            (Some (production_view production.now))) }
    {
        let limit = symbols_before(self.ast, number, production);
        match &production.action {
            Some((code, span)) => unknown_reference_in(alloc, self.text, limit, code, *span),
            None => Ok(None),
        }
    }
}

/// How many symbols precede the action of the production with this number.
fn symbols_before(ast: &GrammarAST, number: usize, production: &Production) -> usize
    ensures { result ≡ symbols_before (syntax ast.now) number (production_view production.now) }
{
    match rule_name_at(ast, number) {
        Some(name) if is_action_name(name) => {
            let (_, later) = ast.prods().split_at(ast.prods().len().min(number));
            count_before(name, later)
        }
        _ => production.symbols.len(),
    }
}

/// How many symbols precede the rule with this name in the first of the productions that has it.
#[tactic(auto, unfolding(crate::specs::References::count_before))]
pub(crate) fn count_before(name: &str, productions: &[Production]) -> usize
    ensures { result ≡ count_before name.now (map production_view productions.now) }
{
    for production in productions {
        let place = place_of(name, &production.symbols);
        if place < production.symbols.len() {
            return place;
        }
    }
    0
}

/// Where the rule with this name is among symbols, or their number.
#[tactic(auto, using(crate::proofs::ReferenceSteps::place_more))]
pub(crate) fn place_of(name: &str, symbols: &[Symbol]) -> usize
    ensures { result ≡ place_of name.now (map symbol_view symbols.now) }
{
    for (index, symbol) in symbols.iter().enumerate() {
        if is_rule_named(name, symbol) {
            return index;
        }
    }
    symbols.len()
}

/// Whether the symbol is the rule with this name.
fn is_rule_named(name: &str, symbol: &Symbol) -> bool
    ensures { result ≡ is_rule_named name.now (symbol_view symbol.now) }
{
    match symbol {
        Symbol::Rule(other, _) => other.as_str() == name,
        Symbol::Token(..) => false,
    }
}

/// The finding about an action, if it has a reference beyond the symbol with the number `limit`.
fn unknown_reference_in(
    alloc: Global,
    text: &str,
    limit: usize,
    code: &str,
    span: Span,
) -> Result<Option<Finding>, AllocError>
    ensures { IfOk result (ReportsIn text.now limit (Some (code.now, span))) }
{
    match first_beyond(code.as_bytes(), limit) {
        Some(reference) => {
            let start = after_blanks(text, span.start()) + reference.offset;
            Ok(Some(unknown_reference(alloc, start, limit, reference)?))
        }
        None => Ok(None),
    }
}

/// A reference in code.
#[derive(Clone, Copy)]
pub(crate) struct Reference {
    /// Where it begins.
    pub(crate) offset: usize,
    /// Whether it is one to a location, and not to a value.
    pub(crate) is_location: bool,
    /// The number of the symbol.
    pub(crate) number: usize,
}

/// The first reference beyond the symbol with the number `limit`.
fn first_beyond(code: &[u8], limit: usize) -> Option<Reference>
    ensures { IsFirstBeyond code.now limit result }
{
    let mut place = Place::Code;
    for (offset, byte) in code.iter().enumerate() {
        if let Some(number) = reference_at(code, place, offset) {
            if limit < number {
                return Some(Reference {
                    offset,
                    is_location: *byte == b'@',
                    number,
                });
            }
        }
        place = place.after(*byte);
    }
    None
}

/// Where a byte of code is.
#[derive(Clone, Copy, PartialEq, Eq)]
pub(crate) enum Place {
    /// Outside of comments and quotes.
    Code,
    /// There too, right after a `/`.
    Slash,
    /// In a comment to the line's end.
    Line,
    /// In a comment that `*/` ends.
    Comment,
    /// There too, right after a `*`.
    Star,
    /// Between quotes of this kind.
    Quotes(u8),
    /// There too, right after a backslash.
    Escape(u8),
}

impl Place {
    /// Where code goes on after a byte.
    pub(crate) fn after(self, byte: u8) -> Place
        ensures { result ≡ after self byte }
    {
        match (self, byte) {
            (Place::Code | Place::Slash, b'"' | b'\'') => Place::Quotes(byte),
            (Place::Code, b'/') => Place::Slash,
            (Place::Slash, b'/') => Place::Line,
            (Place::Slash, b'*') => Place::Comment,
            (Place::Code | Place::Slash, _) => Place::Code,
            (Place::Line, b'\n') => Place::Code,
            (Place::Line, _) => Place::Line,
            (Place::Comment | Place::Star, b'*') => Place::Star,
            (Place::Star, b'/') => Place::Code,
            (Place::Comment | Place::Star, _) => Place::Comment,
            (Place::Quotes(quote), _) if byte == quote => Place::Code,
            (Place::Quotes(quote), b'\\') => Place::Escape(quote),
            (Place::Quotes(quote) | Place::Escape(quote), _) => Place::Quotes(quote),
        }
    }

    /// Whether it is outside of comments and quotes.
    pub(crate) fn is_code(self) -> bool
        ensures { result ≡ is_code self }
    {
        matches!(self, Place::Code | Place::Slash)
    }
}

/// The number of the reference at this offset of code, which is at this place, if one begins there.
fn reference_at(code: &[u8], place: Place, offset: usize) -> Option<usize>
    requires offset { offset < length code.now }
    requires place { place ≡ place_at code.now offset }
    ensures { result ≡ reference_at code.now offset }
{
    if !place.is_code() || !is_sign(code[offset]) {
        return None;
    }
    number_of(without_tag(&code[offset + 1..]))
}

/// Whether a reference to a value or to a location begins with this byte.
fn is_sign(byte: u8) -> bool
    ensures { result ≡ is_sign byte }
{
    byte == b'$' || byte == b'@'
}

/// The code after a tag, if it begins with one.
pub(crate) fn without_tag(code: &[u8]) -> &[u8]
    ensures { result.now ≡ without_tag code.now }
{
    match code {
        [b'<', rest @ ..] => {
            let end = rest.len().min(run_len(Run::Tag, rest) + 1);
            &rest[end..]
        }
        _ => code,
    }
}

/// The number that code begins with; the greatest `usize` if it doesn't fit. None if it begins with no digit.
pub(crate) fn number_of(code: &[u8]) -> Option<usize>
    ensures { result ≡ number_of code.now }
{
    let count = run_len(Run::Digits, code);
    if count == 0 {
        return None;
    }
    Some(
        code[..count]
            .iter()
            .fold(0, |number, byte| with_digit(number, *byte)),
    )
}

/// A number with one more digit; the greatest `usize` if it doesn't fit.
fn with_digit(number: usize, byte: u8) -> usize
    ensures { result ≡ with_digit number byte }
{
    number
        .saturating_mul(10)
        .saturating_add(usize::from(byte.saturating_sub(b'0')))
}

/// A run of bytes of one class.
#[derive(Clone, Copy)]
pub(crate) enum Run {
    /// Digits.
    Digits,
    /// Spaces, and bytes from a tab to a CR.
    Blanks,
    /// What precedes the `>` of a tag.
    Tag,
}

impl Run {
    /// Whether it has the byte.
    fn holds(self, byte: u8) -> bool
        ensures { result ≡ holds self byte }
    {
        match self {
            Run::Digits => b'0' <= byte && byte <= b'9',
            Run::Blanks => byte == b' ' || (b'\t' <= byte && byte <= b'\r'),
            Run::Tag => byte != b'>',
        }
    }
}

/// How many bytes the run has with which code begins.
fn run_len(run: Run, code: &[u8]) -> usize
    ensures value { result ≡ prefix_len (holds run) code.now }
    ensures within { result ≤ length code.now }
{
    for (index, byte) in code.iter().enumerate() {
        if !run.holds(*byte) {
            return index;
        }
    }
    code.len()
}

/// Where a text goes on from an offset after white space. An action's code begins there, whose span begins right after
/// the brace.
pub fn after_blanks(text: &str, offset: usize) -> usize
    ensures value { result ≡ after_blanks text.now offset }
    ensures within { result ≤ length text.now }
{
    let start = text.len().min(offset);
    start + run_len(Run::Blanks, &text.as_bytes()[start..])
}

/// The finding that the reference, which begins at this offset of the text, is beyond the symbol with the number
/// `limit`.
fn unknown_reference(
    alloc: Global,
    start: usize,
    limit: usize,
    reference: Reference,
) -> Result<Finding, AllocError>
    requires { start < 18446744073709551615 }
    ensures { IfOk result (λ finding. finding ≡ unknown_reference start limit reference) }
{
    let sign = sign_of(reference);
    let last = last_text(alloc, sign, limit)?;
    let number = reference.number;
    let text = format!(in alloc; "Unknown reference '{sign}{number}': {last}")?;
    Finding::at(
        alloc,
        FindingKind::UnknownReference,
        Span::new(start, start + 1),
        text,
    )
}

/// With what a reference begins.
fn sign_of(reference: Reference) -> &'static str
    ensures { result.now ≡ sign_of reference }
{
    if reference.is_location { "@" } else { "$" }
}

/// What refers to the last of so many symbols.
fn last_text(alloc: Global, sign: &str, limit: usize) -> Result<String, AllocError>
    ensures { IfOk result (λ text. string_bytes text ≡ last_text sign.now limit) }
{
    if limit == 0 {
        String::from_str(alloc, "no symbol is before it")
    } else {
        format!(in alloc; "the last symbol before it is '{sign}{limit}'")
    }
}
