//! Symbols that `%expect-unused` names although they are used.

ghost use Rattle.std.specs.Prelude.{◌≡◌, ◌↔◌, ◌+◌, ◌++◌, ◌<◌, length, option_map, position, IfOk, IfSome, IsTrue, OnOk};
ghost use Rattle.cfgrammar.specs.Accessors.{IsSymbolWithin, has_token_name};
ghost use Rattle.cfgrammar.specs.NumberedSymbols.{sym_of};
ghost use Rattle.cfgrammar.specs.SyntaxView.{symbol_view};
ghost use Rattle.cfgrammar.specs.TreeView.{syntax};
ghost use Rattle.cfgfindings.specs.Findings.{ReportsBelow, ReportsNeedless};
ghost use Rattle.cfgfindings.specs.Needless.{IsUsedSymbol, needless, symbol_named};

use crate::sentences::Unproductive;
use crate::useless::{node_of, searched};
use cfgrammar::yacc::YaccGrammar;
use cfgrammar::yacc::ast::{GrammarAST, Symbol as AstSymbol};
use cfgrammar::{Symbol, TIdx};
use search::Search;
use std::alloc::{AllocError, Global};
use std::marker::Model;
use text_findings::{Finding, FindingKind, Reporter, push_reported};

/// Adds the symbols of `%expect-unused` lists that the start rule reaches to the findings.
pub(crate) fn push_needless(
    alloc: Global,
    all: &mut Vec<Finding>,
    ast: &GrammarAST,
    unproductive: &Unproductive<'_>,
) -> Result<(), AllocError>
    ensures { OnOk result ((reported : _) × ReportsBelow (ReportsNeedless (syntax ast.now) unproductive.now)
        (length (syntax ast.now).expect_unused) reported × (all.new.items ≡ all.old.items ++ reported)) }
{
    let symbols = ast.expect_unused();
    if symbols.is_empty() {
        return Ok(());
    }
    let used = Used::new(alloc, unproductive)?;
    push_reported(
        alloc,
        all,
        &NeedlessSymbols {
            symbols,
            used: &used,
        },
        symbols.len(),
    )
}

/// A grammar, and what its start rule reaches.
#[derive(Drop)]
struct Used<'a> {
    grammar: &'a YaccGrammar<u32>,
    reached: Search,
}

impl<'a> Model for Used<'a> {
    ghost use Rattle.std.specs.Prelude.{false};
    ghost use Rattle.cfgrammar.specs.Numbered.{Numbered};
    ghost use Rattle.cfgfindings.specs.Inner.Reached.{Knows};

    ghost Value = { Numbered };

    ghost view = { λ x. x.grammar.now };

    ghost invariant = { λ x. Knows x.grammar.now false x.reached };
}

impl<'a> Used<'a> {
    /// Searches from the start rule.
    fn new(alloc: Global, unproductive: &Unproductive<'a>) -> Result<Self, AllocError>
        ensures { IfOk result (λ x. x ≡ unproductive.now) }
    {
        let reached = searched(alloc, unproductive, false)?;
        Ok(Used {
            grammar: unproductive.grammar(),
            reached,
        })
    }

    /// Whether the grammar has this symbol, and the start rule reaches it.
    fn contains(&self, symbol: &AstSymbol) -> bool
        ensures { IsTrue result ↔ IsUsedSymbol self.now (symbol_view symbol.now) }
    {
        match named(self.grammar, symbol) {
            Some(symbol) => self.reached.is_reachable(node_of(self.grammar, symbol)),
            None => false,
        }
    }
}

/// The symbol of the grammar with this name.
fn named(grammar: &YaccGrammar<u32>, symbol: &AstSymbol) -> Option<Symbol<u32>>
    ensures value { option_map (sym_of (λ s. s)) result ≡ symbol_named grammar.now (symbol_view symbol.now) }
    ensures within { IfSome result (IsSymbolWithin (λ s. s) grammar.now) }
{
    match symbol {
        AstSymbol::Rule(name, _) => match grammar.rule_idx(name) {
            Some(rule) => Some(Symbol::Rule(rule)),
            None => None,
        },
        AstSymbol::Token(name, _) => match named_token(grammar, name) {
            Some(token) => Some(Symbol::Token(token)),
            None => None,
        },
    }
}

/// The token of the grammar with this name, which isn't the end token.
fn named_token(grammar: &YaccGrammar<u32>, name: &str) -> Option<TIdx<u32>>
    ensures value { option_map (λ token. token.0) result ≡ position (has_token_name name.now) grammar.now.tokens }
    ensures within { IfSome result (λ token. token.0 + 1 < length grammar.now.tokens) }
{
    match grammar.token_idx(name) {
        Some(token) => {
            // A token with a name isn't the end token.
            let _name = grammar.token_name(token);
            Some(token)
        }
        None => None,
    }
}

/// Reports symbols that are used.
#[derive(Drop)]
struct NeedlessSymbols<'a> {
    symbols: &'a [AstSymbol],
    used: &'a Used<'a>,
}

impl Reporter for NeedlessSymbols<'_> {
    ghost use Rattle.std.specs.Prelude.{length, map};
    ghost use Rattle.cfgrammar.specs.SyntaxView.{symbol_view};
    ghost use Rattle.cfgfindings.specs.Needless.{ReportsUsedSymbol};

    ghost count = { λ x. length x.symbols.now };

    ghost reports = { λ x. ReportsUsedSymbol (map symbol_view x.symbols.now) x.used.now };

    fn report(&self, alloc: Global, number: usize) -> Result<Option<Finding>, AllocError> {
        match self.symbols.get(number) {
            Some(symbol) if self.used.contains(symbol) => Ok(Some(needless(alloc, symbol)?)),
            _ => Ok(None),
        }
    }
}

/// The finding that the symbol, which is expected to be unused, is used.
fn needless(alloc: Global, symbol: &AstSymbol) -> Result<Finding, AllocError>
    ensures { IfOk result (λ x. x ≡ needless (symbol_view symbol.now)) }
{
    let kind = FindingKind::NeedlessExpectUnused;
    match symbol {
        AstSymbol::Rule(name, span) => {
            let text = format!(in alloc; "Needless %expect-unused: rule '{name}' is used")?;
            Finding::at(alloc, kind, *span, text)
        }
        AstSymbol::Token(name, span) => {
            let text = format!(in alloc; "Needless %expect-unused: token '{name}' is used")?;
            Finding::at(alloc, kind, *span, text)
        }
    }
}
