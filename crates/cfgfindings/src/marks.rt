//! Which entries of a tree's tables its productions name.

ghost use Rattle.std.specs.Prelude.{◌≡◌, [], ◌∷◌, length, map, option_map, position, IfOk};
ghost use Rattle.std.specs.List.{IsDistinct, flat_map};
ghost use Rattle.std.specs.Option.{option_to_list};
ghost use Rattle.std.specs.Str.{bytes_eq};
ghost use Rattle.cfgrammar.specs.SyntaxView.{production_view, symbol_view};
ghost use Rattle.cfgrammar.specs.TreeView.{syntax};
ghost use Rattle.cfgfindings.specs.Findings.{IsContained, IsRequested};
ghost use Rattle.cfgfindings.specs.Inner.Marks.{AreMarked, Marks, names_by, requested_names, rule_keys, symbol_names};
ghost use Rattle.cfgfindings.specs.Inner.Marks.{table_keys};

use crate::names::token_index;
use cfgrammar::Vob;
use cfgrammar::yacc::ast::{GrammarAST, Production, Symbol};
use std::alloc::{AllocError, Global};

/// A table of a tree, whose entries have names.
#[derive(Clone, Copy)]
pub(crate) enum Table {
    Rules,
    Tokens,
    /// The tokens that are given a precedence.
    Precedences,
}

/// For each rule, whether a production contains it.
pub(crate) fn contained_rules(alloc: Global, ast: &GrammarAST) -> Result<Vob, AllocError>
    ensures { IfOk result (AreMarked (rule_keys (syntax ast.now)) (IsContained (syntax ast.now))) }
{
    let mut contained = Vob::from_elem(alloc, false, ast.rules().len())?;
    mark_productions(ast, Table::Rules, &mut contained);
    Ok(contained)
}

/// For each token, whether a production's `%prec` names it.
pub(crate) fn requested_tokens(alloc: Global, ast: &GrammarAST) -> Result<Vob, AllocError>
    ensures { IfOk result (AreMarked (syntax ast.now).tokens (IsRequested (syntax ast.now))) }
{
    let mut requested = Vob::from_elem(alloc, false, ast.tokens().len())?;
    mark_productions(ast, Table::Tokens, &mut requested);
    Ok(requested)
}

/// Marks the rules that productions contain, the tokens that their `%prec`s name, or the tokens of either kind that are
/// given a precedence.
pub(crate) fn mark_productions(ast: &GrammarAST, table: Table, marks: &mut Vob)
    requires { length marks.old ≡ length (table_keys table (syntax ast.now)) }
    ensures { Marks (table_keys table (syntax ast.now)) (flat_map (names_by table) (syntax ast.now).productions)
        marks.old marks.new }
{
    for production in ast.prods() {
        mark_production(ast, table, marks, production);
    }
}

/// Marks what a production names.
fn mark_production(ast: &GrammarAST, table: Table, marks: &mut Vob, production: &Production)
    requires { length marks.old ≡ length (table_keys table (syntax ast.now)) }
    ensures { Marks (table_keys table (syntax ast.now)) (names_by table (production_view production.now))
        marks.old marks.new }
{
    match table {
        Table::Rules => mark_symbols(ast, table, marks, &production.symbols, true),
        Table::Tokens => mark_requested(ast, table, marks, production),
        Table::Precedences => {
            mark_symbols(ast, table, marks, &production.symbols, false);
            mark_requested(ast, table, marks, production);
        }
    }
}

/// Marks the rules among symbols, or the tokens.
fn mark_symbols(ast: &GrammarAST, table: Table, marks: &mut Vob, symbols: &[Symbol], rules: bool)
    requires { length marks.old ≡ length (table_keys table (syntax ast.now)) }
    ensures { Marks (table_keys table (syntax ast.now)) (flat_map (symbol_names rules) (map symbol_view symbols.now))
        marks.old marks.new }
{
    for symbol in symbols {
        if let Some(name) = symbol_name(symbol, rules) {
            mark(ast, table, marks, name);
        }
    }
}

/// The name of a rule, or of a token, if the symbol is one.
fn symbol_name(symbol: &Symbol, rules: bool) -> Option<&str>
    ensures { option_to_list (option_map (λ name. name.now) result) ≡ symbol_names rules (symbol_view symbol.now) }
{
    match symbol {
        Symbol::Rule(name, _) => { if rules { Some(name.as_str()) } else { None } }
        Symbol::Token(name, _) => { if rules { None } else { Some(name.as_str()) } }
    }
}

/// Marks what the `%prec` of a production names.
fn mark_requested(ast: &GrammarAST, table: Table, marks: &mut Vob, production: &Production)
    requires { length marks.old ≡ length (table_keys table (syntax ast.now)) }
    ensures { Marks (table_keys table (syntax ast.now)) (requested_names (production_view production.now))
        marks.old marks.new }
{
    if let Some(name) = &production.precedence {
        mark(ast, table, marks, name);
    }
}

/// Marks the entry with this name, if there is one.
pub(crate) fn mark(ast: &GrammarAST, table: Table, marks: &mut Vob, name: &str)
    requires { length marks.old ≡ length (table_keys table (syntax ast.now)) }
    ensures { Marks (table_keys table (syntax ast.now)) (name.now ∷ []) marks.old marks.new }
{
    if let Some(index) = index_of(ast, table, name) {
        marks.set(index, true);
    }
}

/// The index of the entry with this name. No two entries of a table share a name.
fn index_of(ast: &GrammarAST, table: Table, name: &str) -> Option<usize>
    ensures distinct { IsDistinct bytes_eq (table_keys table (syntax ast.now)) }
    ensures index { result ≡ position (bytes_eq name.now) (table_keys table (syntax ast.now)) }
{
    match table {
        Table::Rules => ast.rules().get_index_of(name),
        Table::Tokens => token_index(ast, name),
        Table::Precedences => ast.precs().get_index_of(name),
    }
}
