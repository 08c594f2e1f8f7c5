//! Values of actions inside of productions that no later action reads.

ghost use Rattle.std.specs.Prelude.{◌≡◌, ◌++◌, length, map, IfOk, OnOk};
ghost use Rattle.std.specs.List.{list_any};
ghost use Rattle.cfgrammar.specs.TreeView.{syntax};
ghost use Rattle.cfgrammar.specs.SyntaxView.{production_view};
ghost use Rattle.text_findings.specs.Reports.{ReportsBelow};
ghost use Rattle.text_findings.specs.Values.{ReportsUnreadValue, action_refers, begins_name, is_of, is_read, is_unread};
ghost use Rattle.text_findings.specs.Values.{begins_with, inherits, is_number, refers, symbol_number};
ghost use Rattle.text_findings.specs.Values.{unread_of, unread_value};
ghost use Rattle.text_findings.specs.declared.references.Place.TheVariants.{Code};

use crate::empty::{is_action_name, rule_name_at};
use crate::finding::{Finding, FindingKind};
use crate::references::{Place, count_before, number_of, place_of, without_tag};
use crate::reporter::{Reporter, push_reported};
use cfgrammar::Span;
use cfgrammar::yacc::ast::{GrammarAST, Production};
use std::alloc::{AllocError, Global};

/// Adds a finding for each action inside of a production that sets its value, which no later action there reads. There
/// is none if an action refers to a value from before its production: which one that is can't be seen.
pub(crate) fn push_unread_values(
    alloc: Global,
    all: &mut Vec<Finding>,
    ast: &GrammarAST,
) -> Result<(), AllocError>
    ensures { OnOk result ((reported : _) × ReportsBelow (ReportsUnreadValue (syntax ast.now))
        (length (syntax ast.now).productions) reported × (all.new.items ≡ all.old.items ++ reported)) }
{
    if is_inheriting(ast.prods()) {
        Ok(())
    } else {
        push_reported(alloc, all, &UnreadValues { ast }, ast.prods().len())
    }
}

/// Reports actions whose values aren't read.
#[derive(Drop)]
struct UnreadValues<'a> {
    ast: &'a GrammarAST,
}

impl Reporter for UnreadValues<'_> {
    ghost use Rattle.std.specs.Prelude.{◌≡◌, length};
    ghost use Rattle.cfgrammar.specs.TreeView.{syntax};
    ghost use Rattle.text_findings.specs.Values.{unread_at};

    ghost count = { λ x. length (syntax x.ast.now).productions };

    ghost reports = { λ x n found. found ≡ unread_at (syntax x.ast.now) n };

    fn report(&self, alloc: Global, number: usize) -> Result<Option<Finding>, AllocError> {
        match self.ast.prods().get(number) {
            Some(production) => unread_of(alloc, self.ast, number, production),
            None => Ok(None),
        }
    }
}

/// Whether an action refers to a value from before its production.
fn is_inheriting(productions: &[Production]) -> bool
    ensures { result ≡ list_any inherits (map production_view productions.now) }
{
    for production in productions {
        if action_refers(Value::Inherited, production) {
            return true;
        }
    }
    false
}

/// The finding about the production with this number.
fn unread_of(
    alloc: Global,
    ast: &GrammarAST,
    number: usize,
    production: &Production,
) -> Result<Option<Finding>, AllocError>
    ensures { IfOk result (λ found. found ≡ unread_of (syntax ast.now) number (production_view production.now)) }
{
    let Some(name) = rule_name_at(ast, number) else {
        return Ok(None);
    };
    if !is_unread(ast, number, name, production) {
        return Ok(None);
    }
    let symbol = symbol_number(ast, number, name);
    Ok(Some(unread_value(alloc, symbol, production.prod_span)?))
}

/// Whether the production with this number has an action that is inside of another production and sets its value, and
/// no later action there reads that.
fn is_unread(ast: &GrammarAST, number: usize, name: &str, production: &Production) -> bool
    ensures { result ≡ is_unread (syntax ast.now) number name.now (production_view production.now) }
{
    if !is_action_name(name) || !action_refers(Value::Own, production) {
        return false;
    }
    let (_, rest) = ast
        .prods()
        .split_at(ast.prods().len().min(number.saturating_add(1)));
    !is_read(name, Value::Symbol(symbol_number(ast, number, name)), rest)
}

/// Which symbol the rule of the production with this number is, from 1, in the production that has it.
fn symbol_number(ast: &GrammarAST, number: usize, name: &str) -> usize
    ensures { result ≡ symbol_number (syntax ast.now) number name.now }
{
    let (_, rest) = ast.prods().split_at(ast.prods().len().min(number));
    count_before(name, rest).saturating_add(1)
}

/// Whether the productions up to the first one that has the rule with this name have an action that refers to the
/// value.
fn is_read(name: &str, value: Value, productions: &[Production]) -> bool
    ensures { result ≡ is_read name.now value (map production_view productions.now) }
{
    for production in productions {
        if action_refers(value, production) {
            return true;
        }
        if place_of(name, &production.symbols) < production.symbols.len() {
            return false;
        }
    }
    false
}

/// Whether a production's action refers to the value.
fn action_refers(value: Value, production: &Production) -> bool
    ensures { result ≡ action_refers value (production_view production.now).action }
{
    match &production.action {
        Some((code, _)) => refers(value, code.as_bytes()),
        None => false,
    }
}

/// A value that actions refer to.
#[derive(Clone, Copy)]
pub(crate) enum Value {
    /// The action's own one.
    Own,
    /// One from before the production.
    Inherited,
    /// That of the symbol with this number.
    Symbol(usize),
}

impl Value {
    /// Whether what follows a `$` refers to it. A name may refer to any symbol.
    fn is_of(self, code: &[u8]) -> bool
        ensures { result ≡ is_of self code.now }
    {
        match self {
            Value::Own => begins_with(b'$', code),
            Value::Inherited => begins_with(b'-', code) || is_number(0, code),
            Value::Symbol(number) => begins_name(code) || is_number(number, code),
        }
    }
}

/// Whether code begins with this byte.
fn begins_with(byte: u8, code: &[u8]) -> bool
    ensures { result ≡ begins_with byte code.now }
{
    match code {
        [first, ..] => *first == byte,
        [] => false,
    }
}

/// Whether code begins with this number.
fn is_number(number: usize, code: &[u8]) -> bool
    ensures { result ≡ is_number number code.now }
{
    match number_of(code) {
        Some(other) => other == number,
        None => false,
    }
}

/// Whether code begins with a name, maybe in brackets.
fn begins_name(code: &[u8]) -> bool
    ensures { result ≡ begins_name code.now }
{
    match code {
        [byte, ..] => {
            (b'A' <= *byte && *byte <= b'Z')
                || (b'a' <= *byte && *byte <= b'z')
                || *byte == b'_'
                || *byte == b'['
        }
        [] => false,
    }
}

/// Whether code refers to a value outside of comments and quotes.
fn refers(value: Value, code: &[u8]) -> bool
    ensures { result ≡ refers value Code code.now }
{
    let mut place = Place::Code;
    for (offset, byte) in code.iter().enumerate() {
        if place.is_code() && *byte == b'$' && value.is_of(without_tag(&code[offset + 1..])) {
            return true;
        }
        place = place.after(*byte);
    }
    false
}

/// The finding that the value of an action, which is the symbol with this number, isn't read.
fn unread_value(alloc: Global, number: usize, span: Span) -> Result<Finding, AllocError>
    ensures { IfOk result (λ finding. finding ≡ unread_value number span) }
{
    let hint = String::from_str(alloc, "a '|' may be missing after this action")?;
    let text = format!(in alloc; "Unread value '$$': no later action has '${number}'")?;
    let finding = Finding::at(alloc, FindingKind::UnreadValue, span, text)?;
    Ok(finding.with_hint(Some(hint)))
}
