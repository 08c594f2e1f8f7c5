//! Unreachable rules and tokens.

ghost use Rattle.std.specs.Prelude.{◌≡◌, ◌<◌, ◌+◌, ◌↔◌, ℕ, Some, length, map, option_map, slice_get};
ghost use Rattle.std.specs.Prelude.{IfOk, IfSome, OnOk};
ghost use Rattle.std.specs.List.{IsDistinct};
ghost use Rattle.std.specs.Str.{bytes_eq};
ghost use Rattle.cfgerrors.specs.Warnings.{warning_at};
ghost use Rattle.search.specs.Reachable.{FoundBy, Reaches};
ghost use Rattle.cfgast.specs.Inner.Nodes.{nodes, RefersAt, IsNodeOf, Knows};
ghost use Rattle.cfgast.specs.Unused.{RuleName, TokenName, name_of, entry_token, Expected, IsStart, AreWarnings};
ghost use Rattle.cfgast.specs.Unused.{AreUnused, Name, possible_warnings};
ghost use Rattle.cfgitems.specs.SyntaxView.{symbol_view, span_entry};
ghost use Rattle.cfgast.specs.TreeView.{syntax};

use crate::ast::GrammarAST;
use cfgbase::Span;
use cfgerrors::{YaccGrammarWarning, YaccGrammarWarningKind, warning_at};
use cfgitems::Symbol;
use indexmap::IndexMap;
use search::{Bits, Edges, Search};
use std::alloc::{AllocError, Global};

#[tactic(auto, unfolding(crate::specs::TreeView::syntax, cfgitems::specs::SyntaxView::syntax_view))]
impl GrammarAST {
    /// The rules, then the tokens, that no sequence of productions reaches from the start rule and that aren't expected
    /// to be unused: each as a warning, in order, with the span of its name. Without a start rule nothing is reachable.
    /// Implicit tokens are expected to be unused; a token that only `%prec` names isn't reachable.
    ///
    /// # Errors
    ///
    /// Running out of memory.
    pub fn warnings(&self, alloc: Global) -> Result<Vec<YaccGrammarWarning>, AllocError>
        ensures { IfOk result (λ warnings. AreWarnings (syntax self.now) warnings.items) }
    {
        let known = self.known(alloc)?;
        let mut warnings = Vec::new(alloc);
        for node in 0..self.node_count() {
            if !known.is_reachable(node) {
                if let Some((kind, span)) = self.kind_and_span(node) {
                    warnings.push(warning_at(alloc, kind, span)?)?;
                }
            }
        }
        Ok(warnings)
    }

    /// For each rule, and then for each token, whether it is unused, in order: whether [`warnings`](Self::warnings) has
    /// a warning about it.
    ///
    /// # Errors
    ///
    /// Running out of memory.
    pub fn unused(&self, alloc: Global) -> Result<Vec<bool>, AllocError>
        ensures { IfOk result (λ unused. AreUnused (syntax self.now) unused.items) }
    {
        let known = self.known(alloc)?;
        let mut unused = Vec::new(alloc);
        for node in 0..self.node_count() {
            unused.push(!known.is_reachable(node))?;
        }
        Ok(unused)
    }

    // How many nodes there are. No two rules or tokens share a name.
    fn node_count(&self) -> usize
        ensures count { result ≡ nodes (syntax self.now) }
        ensures rules { IsDistinct bytes_eq (map (λ rule. rule.0) (syntax self.now).rules) }
        ensures tokens { IsDistinct bytes_eq (syntax self.now).tokens }
    {
        self.syntax.rules.len() + self.syntax.tokens.len()
    }

    // The warning that this node would have: the rules are nodes, and after them the tokens.
    fn kind_and_span(&self, node: usize) -> Option<(YaccGrammarWarningKind, Span)>
        requires { node < nodes (syntax self.now) }
        ensures { option_map (λ found. warning_at found.0 found.1) result
            ≡ option_map (λ named. named.1) (slice_get (possible_warnings (syntax self.now)) node) }
    {
        if let Some((_, rule)) = self.syntax.rules.get_index(node) {
            return Some((YaccGrammarWarningKind::UnusedRule, rule.name.1));
        }
        let span = self.syntax.spans.get(node - self.syntax.rules.len())?;
        Some((YaccGrammarWarningKind::UnusedToken, *span))
    }

    // A search that has reached what is reachable from the start rule, and what is expected to be unused.
    fn known(&self, alloc: Global) -> Result<Search, AllocError>
        ensures { IfOk result (Knows (syntax self.now)) }
    {
        let mut search = Search::from_root(alloc, self, self.node_count(), self.start_node())?;
        self.reach_expected(&mut search)?;
        Ok(search)
    }

    // Reaches what is expected to be unused.
    fn reach_expected(&self, search: &mut Search) -> Result<(), AllocError>
        requires { length search.old.reachable ≡ nodes (syntax self.now) }
        ensures { OnOk result (Reaches
            (λ node. (name : Name) × Expected (syntax self.now) name × IsNodeOf (syntax self.now) name node)
            search.old search.new) }
    {
        self.reach_symbols(search, &self.syntax.expect_unused)?;
        match &self.syntax.tables.implicit_tokens {
            Some(table) => self.reach_tokens(search, table),
            None => Ok(()),
        }
    }

    // Reaches the tokens of the table.
    fn reach_tokens(
        &self,
        search: &mut Search,
        table: &IndexMap<String, Span>,
    ) -> Result<(), AllocError>
        requires { length search.old.reachable ≡ nodes (syntax self.now) }
        ensures { OnOk result (Reaches (FoundBy (IsNodeOf (syntax self.now))
            (map entry_token (map span_entry table.now.entries))) search.old search.new) }
    {
        for index in 0..table.len() {
            if let Some((name, _)) = table.get_index(index) {
                search.reach_found(self.token_node(name))?;
            }
        }
        Ok(())
    }

    // Reaches what the productions hold.
    fn reach_referred(&self, search: &mut Search, productions: &[usize]) -> Result<(), AllocError>
        requires { length search.old.reachable ≡ nodes (syntax self.now) }
        ensures { OnOk result (Reaches (FoundBy (RefersAt (syntax self.now)) productions.now) search.old search.new) }
    {
        for index in productions {
            if let Some(production) = self.syntax.prods.get(*index) {
                self.reach_symbols(search, &production.symbols)?;
            }
        }
        Ok(())
    }

    // Reaches the symbols.
    fn reach_symbols(&self, search: &mut Search, symbols: &[Symbol]) -> Result<(), AllocError>
        requires { length search.old.reachable ≡ nodes (syntax self.now) }
        ensures { OnOk result (Reaches (FoundBy (IsNodeOf (syntax self.now))
            (map name_of (map symbol_view symbols.now))) search.old search.new) }
    {
        for symbol in symbols {
            search.reach_found(self.symbol_node(symbol))?;
        }
        Ok(())
    }

    // The node of the start rule, if there is one.
    fn start_node(&self) -> Option<usize>
        ensures within { IfSome result (λ node. node < nodes (syntax self.now)) }
        ensures node { (node : ℕ) → (result ≡ Some node)
            ↔ ((name : Name) × IsStart (syntax self.now) name × IsNodeOf (syntax self.now) name node) }
    {
        let (name, _) = self.syntax.start.as_ref()?;
        self.rule_node(name)
    }

    // The node of the symbol, if the tree has its name.
    fn symbol_node(&self, symbol: &Symbol) -> Option<usize>
        ensures within { IfSome result (λ node. node < nodes (syntax self.now)) }
        ensures node { (node : ℕ) → (result ≡ Some node)
            ↔ IsNodeOf (syntax self.now) (name_of (symbol_view symbol.now)) node }
    {
        match symbol {
            Symbol::Rule(name, _) => self.rule_node(name),
            Symbol::Token(name, _) => self.token_node(name),
        }
    }

    // The node of the rule of this name, if there is one.
    fn rule_node(&self, name: &str) -> Option<usize>
        ensures within { IfSome result (λ node. node < nodes (syntax self.now)) }
        ensures node { (node : ℕ) → (result ≡ Some node) ↔ IsNodeOf (syntax self.now) (RuleName name.now) node }
    {
        self.syntax.rules.get_index_of(name)
    }

    // The node of the token of this name, if there is one.
    fn token_node(&self, name: &str) -> Option<usize>
        ensures within { IfSome result (λ node. node < nodes (syntax self.now)) }
        ensures node { (node : ℕ) → (result ≡ Some node) ↔ IsNodeOf (syntax self.now) (TokenName name.now) node }
    {
        let _tokens = self.syntax.tokens.len();
        let index = self.syntax.tokens.get_index_of(name)?;
        Some(self.syntax.rules.len() + index)
    }
}

// Rules lead to what their productions hold, and tokens to nothing.
impl Edges<Bits> for GrammarAST {
    ghost use Rattle.search.specs.Nodes.{IsEdge};
    ghost use Rattle.cfgast.specs.Inner.Nodes.{nodes, IsNodeOf};
    ghost use Rattle.cfgast.specs.Unused.{Leads};
    ghost use Rattle.cfgast.specs.TreeView.{syntax};

    ghost nodes = { λ tree. nodes (syntax tree) };

    ghost leads = { λ tree. IsEdge (IsNodeOf (syntax tree)) (Leads (syntax tree)) };

    fn reach_from(&self, node: usize, search: &mut Search) -> Result<(), AllocError> {
        match self.syntax.rules.get_index(node) {
            Some((_, rule)) => self.reach_referred(search, &rule.pidxs),
            None => Ok(()),
        }
    }
}
