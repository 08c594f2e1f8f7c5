//! Rules and tokens that are reached only through productions that can't be used.

ghost use Rattle.std.specs.Prelude.{◌≡◌, ◌↔◌, ◌++◌, ◌<◌, false, IsTrue, List, All, length, map, IfOk, MatchBool, OnOk};
ghost use Rattle.search.specs.Reachable.{FoundBy, Reaches};
ghost use Rattle.cfgrammar.specs.Accessors.{IsSymbolWithin};
ghost use Rattle.cfgrammar.specs.Grammar.{Sym};
ghost use Rattle.cfgrammar.specs.Numbered.{core};
ghost use Rattle.cfgrammar.specs.NumberedSymbols.{sym_of};
ghost use Rattle.cfgfindings.specs.Findings.{ReportsBelow, ReportsUselessRule, ReportsUselessToken};
ghost use Rattle.cfgfindings.specs.Inner.Reached.{RefersAt, IsFollowedAt, IsNodeOf, Knows, node_of, nodes};
ghost use Rattle.cfgfindings.specs.Inner.Unproductive.{UnproductiveOrNot};
ghost use Rattle.cfgfindings.specs.Shown.{ShownFinding};
ghost use Rattle.cfgfindings.specs.Useless.{IsUseless};

use crate::added::rules_added;
use crate::sentences::Unproductive;
use cfgrammar::laws::usable_productions_hold_sentences;
use cfgrammar::storage::to_storage;
use cfgrammar::yacc::YaccGrammar;
use cfgrammar::{PIdx, RIdx, Span, Symbol, TIdx};
use search::{Bits, Edges, Search};
use std::alloc::{AllocError, Global};
use std::marker::Model;
use text_findings::{Finding, FindingKind, Reporter, push_reported};

/// Adds the rules of the file that are reached only through unusable productions to the findings, and then such tokens.
/// There are none if all rules are productive, or the start rule isn't.
pub(crate) fn push_useless(
    alloc: Global,
    all: &mut Vec<Finding>,
    unproductive: &Unproductive<'_>,
) -> Result<(), AllocError>
    ensures { OnOk result ((rules tokens : List ShownFinding)
        × ReportsBelow (ReportsUselessRule unproductive.now) (length unproductive.now.rules) rules
        × ReportsBelow (ReportsUselessToken unproductive.now) (length unproductive.now.tokens) tokens
        × (all.new.items ≡ all.old.items ++ (rules ++ tokens))) }
{
    let grammar = unproductive.grammar();
    if has_no_useless(unproductive) {
        return Ok(());
    }
    let reached = Reached::new(alloc, unproductive)?;
    push_reported(
        alloc,
        all,
        &UselessRules(&reached),
        usize::from(grammar.rules_len()),
    )?;
    push_reported(
        alloc,
        all,
        &UselessTokens(&reached),
        usize::from(grammar.tokens_len()),
    )
}

/// Whether no symbol can be useless, since all rules are productive or the start rule isn't. Otherwise the start rule
/// is productive.
fn has_no_useless(unproductive: &Unproductive<'_>) -> bool
    ensures { MatchBool result ((symbol : Sym) → IsUseless (core unproductive.now) symbol → ⊥)
        (UnproductiveOrNot unproductive.now 0 false) }
{
    let grammar = unproductive.grammar();
    usable_productions_hold_sentences();
    grammar.invariant_holds();
    unproductive.is_empty() || unproductive.contains(grammar.start_rule_idx())
}

/// A grammar whose start rule is productive, and what it reaches: by all productions, and by usable ones.
#[derive(Drop)]
struct Reached<'a> {
    unproductive: &'a Unproductive<'a>,
    by_any: Search,
    by_usable: Search,
}

impl<'a> Model for Reached<'a> {
    ghost use Rattle.cfgrammar.specs.Numbered.{Numbered};
    ghost use Rattle.cfgfindings.specs.Inner.Reached.{AreReached};

    ghost Value = { Numbered };

    ghost view = { λ x. x.unproductive.now };

    ghost invariant = { λ x. AreReached x.unproductive.now x.by_any x.by_usable };
}

impl<'a> Reached<'a> {
    /// Searches from the start rule.
    fn new(alloc: Global, unproductive: &'a Unproductive<'a>) -> Result<Self, AllocError>
        requires { UnproductiveOrNot unproductive.now 0 false }
        ensures { IfOk result (λ x. x ≡ unproductive.now) }
    {
        let by_any = searched(alloc, unproductive, false)?;
        let by_usable = searched(alloc, unproductive, true)?;
        Ok(Reached {
            unproductive,
            by_any,
            by_usable,
        })
    }

    /// Whether the symbol is reached only through unusable productions.
    fn is_useless(&self, symbol: Symbol<u32>) -> bool
        requires { IsSymbolWithin (λ s. s) self.now symbol }
        ensures { IsTrue result ↔ IsUseless (core self.now) (sym_of (λ s. s) symbol) }
    {
        let node = node_of(self.unproductive.grammar(), symbol);
        self.by_any.is_reachable(node) && !self.by_usable.is_reachable(node)
    }
}

/// Reports the productive rules of the file that are useless.
#[derive(Drop)]
struct UselessRules<'a>(&'a Reached<'a>);

impl<'a> Reporter for UselessRules<'a> {
    ghost use Rattle.std.specs.Prelude.{length};
    ghost use Rattle.cfgfindings.specs.Findings.{ReportsUselessRule};

    ghost count = { λ x. length x.0.now.rules };

    ghost reports = { λ x. ReportsUselessRule x.0.now };

    fn report(&self, alloc: Global, number: usize) -> Result<Option<Finding>, AllocError> {
        let reached = self.0;
        let grammar = reached.unproductive.grammar();
        grammar.invariant_holds();
        let rule = RIdx(to_storage(number));
        if number < rules_added(grammar) || reached.unproductive.contains(rule) {
            return Ok(None);
        }
        if !reached.is_useless(Symbol::Rule(rule)) {
            return Ok(None);
        }
        let name = grammar.rule_name_str(rule);
        let text = format!(in alloc; "Rule '{name}' is reached only through unusable productions")?;
        let span = grammar.rule_name_span(rule);
        Ok(Some(Finding::at(alloc, FindingKind::UselessSymbol, span, text)?))
    }
}

/// Reports the useless tokens of a grammar. The end token never is.
#[derive(Drop)]
struct UselessTokens<'a>(&'a Reached<'a>);

impl<'a> Reporter for UselessTokens<'a> {
    ghost use Rattle.std.specs.Prelude.{length};
    ghost use Rattle.cfgfindings.specs.Findings.{ReportsUselessToken};

    ghost count = { λ x. length x.0.now.tokens };

    ghost reports = { λ x. ReportsUselessToken x.0.now };

    fn report(&self, alloc: Global, number: usize) -> Result<Option<Finding>, AllocError> {
        let reached = self.0;
        let grammar = reached.unproductive.grammar();
        grammar.invariant_holds();
        let token = TIdx(to_storage(number));
        let Some(name) = grammar.token_name(token) else {
            return Ok(None);
        };
        if !reached.is_useless(Symbol::Token(token)) {
            return Ok(None);
        }
        let text = format!(in alloc;
            "Token '{name}' is reached only through unusable productions"
        )?;
        let span = grammar.token_span(token).unwrap_or(Span::new(0, 0));
        Ok(Some(Finding::at(alloc, FindingKind::UselessSymbol, span, text)?))
    }
}

/// A search that has reached what the start rule leads to: by all productions, or only by usable ones.
pub(crate) fn searched(
    alloc: Global,
    unproductive: &Unproductive<'_>,
    only_usable: bool,
) -> Result<Search, AllocError>
    ensures { IfOk result (Knows unproductive.now only_usable) }
{
    let grammar = unproductive.grammar();
    grammar.invariant_holds();
    let followed = Followed {
        unproductive,
        only_usable,
    };
    let nodes = usize::from(grammar.rules_len()) + usize::from(grammar.tokens_len());
    let start = usize::from(grammar.start_rule_idx());
    Search::from_root(alloc, &followed, nodes, Some(start))
}

/// The productions of a grammar that a search follows: all of them, or only those that are usable.
#[derive(Drop)]
struct Followed<'a> {
    unproductive: &'a Unproductive<'a>,
    only_usable: bool,
}

impl<'a> Followed<'a> {
    /// Whether the search follows the production.
    fn contains(&self, production: PIdx<u32>) -> bool
        requires { production.0 < length self.now.unproductive.now.productions }
        ensures { IsTrue result ↔ IsFollowedAt self.now.unproductive.now self.now.only_usable production.0 }
    {
        !self.only_usable || self.unproductive.is_usable(production)
    }

    /// Reaches the symbols of the production, if the search follows it.
    fn reach_referred(&self, search: &mut Search, production: PIdx<u32>) -> Result<(), AllocError>
        requires within { production.0 < length self.now.unproductive.now.productions }
        requires nodes { length search.old.reachable ≡ nodes self.now.unproductive.now }
        ensures { OnOk result (Reaches (RefersAt self.now.unproductive.now self.now.only_usable production.0)
            search.old search.new) }
    {
        if !self.contains(production) {
            return Ok(());
        }
        let grammar = self.unproductive.grammar();
        reach_symbols(grammar, search, grammar.prod(production))
    }
}

// A rule leads to the symbols of its productions, and a token to nothing.
impl<'a> Edges<Bits> for Followed<'a> {
    ghost use Rattle.cfgfindings.specs.Inner.Reached.{IsFollowedEdge, nodes};

    ghost nodes = { λ x. nodes x.unproductive.now };

    ghost leads = { λ x. IsFollowedEdge x.unproductive.now x.only_usable };

    fn reach_from(&self, node: usize, search: &mut Search) -> Result<(), AllocError> {
        let grammar = self.unproductive.grammar();
        grammar.invariant_holds();
        if node >= usize::from(grammar.rules_len()) {
            return Ok(());
        }
        for production in grammar.rule_to_prods(RIdx(to_storage(node))) {
            self.reach_referred(search, *production)?;
        }
        Ok(())
    }
}

/// Reaches the symbols.
fn reach_symbols(
    grammar: &YaccGrammar<u32>,
    search: &mut Search,
    symbols: &[Symbol<u32>],
) -> Result<(), AllocError>
    requires within { All (IsSymbolWithin (λ s. s) grammar.now) symbols.now }
    requires nodes { length search.old.reachable ≡ nodes grammar.now }
    ensures { OnOk result (Reaches (FoundBy (IsNodeOf grammar.now) (map (sym_of (λ s. s)) symbols.now))
        search.old search.new) }
{
    for symbol in symbols {
        search.reach(node_of(grammar, *symbol))?;
    }
    Ok(())
}

/// The node of a symbol: the rules have the first ones.
pub(crate) fn node_of(grammar: &YaccGrammar<u32>, symbol: Symbol<u32>) -> usize
    requires { IsSymbolWithin (λ s. s) grammar.now symbol }
    ensures value { result ≡ node_of grammar.now (sym_of (λ s. s) symbol) }
    ensures within { result < nodes grammar.now }
{
    match symbol {
        Symbol::Rule(rule) => usize::from(rule),
        Symbol::Token(token) => usize::from(grammar.rules_len()) + usize::from(token),
    }
}
