//! A search for ways that a parser could take to an item.

ghost use Rattle.std.specs.Prelude.{◌≡◌, ◌↔◌, ◌++◌, ◌+◌, ◌∷◌, ◌<◌, ◌≤◌, [], None, Some, true};
ghost use Rattle.std.specs.Prelude.{All, IfOk, IsTrue, OnOk, drop, length, map, slice_get};
ghost use Rattle.cfgrammar.specs.Accessors.{IsSymbolWithin};
ghost use Rattle.cfgrammar.specs.Grammar.{Rule};
ghost use Rattle.cfgrammar.specs.NumberedSymbols.{sym_of};
ghost use Rattle.cfgrammar.specs.Openings.{nth_production};
ghost use Rattle.lr_states.specs.Viable.{HasNext};
ghost use Rattle.lr_conflicts.specs.Inner.Searches.{IsReady, grammar_of, setting};
ghost use Rattle.lr_conflicts.specs.Inner.Ways.{AreSteps, Begins, ByNext, ByShown, EachMade, EachShown, Enters, Finds};
ghost use Rattle.lr_conflicts.specs.Inner.Ways.{HasNode, IsFound, IsNext, IsNullable, IsOpen, IsSearched, IsShown};
ghost use Rattle.lr_conflicts.specs.Inner.Ways.{IsSideWith, Leads, Opens, Reads, Shown, Unfolds, UnfoldsWith};
ghost use Rattle.lr_conflicts.specs.Inner.Ways.{parent_of};
ghost use Rattle.lr_conflicts.specs.declared.examples.nodes.Node.TheVariants as nodes;

use crate::examples::Side;
use crate::examples::nodes::{Found, ItemAt, Node, OpenedAt, Step};
use crate::examples::roads::Road;
use cfgrammar::yacc::YaccGrammar;
use cfgrammar::yacc::firsts::YaccFirsts;
use cfgrammar::{Symbol, Vob};
use indexmap::IndexMap;
use lr_states::Item;
use lr_states::tables::{next_symbol, productions_of, symbols_of};
use std::alloc::{AllocError, Global};

/// What a search for ways goes by. The token is the one that is to come where an item's production ends.
#[derive(Drop)]
pub(crate) struct Ways<'a> {
    pub(crate) alloc: Global,
    pub(crate) grammar: &'a YaccGrammar<u32>,
    pub(crate) firsts: &'a YaccFirsts<u32>,
    pub(crate) used: &'a Vob,
    pub(crate) road: Road<'a>,
    pub(crate) token: usize,
}

impl<'a> Ways<'a> {
    /// What a way to this item shows, with what isn't read of its production, if there is one.
    ///
    /// # Errors
    ///
    /// Out of memory.
    pub(crate) fn whole_side(&self, at: ItemAt) -> Result<Option<Side>, AllocError>
        requires ready { IsReady self.now }
        ensures { IfOk result (IsFound (setting self.now) at) }
    {
        let node = Node::Item(at);
        let found = self.searched(node)?;
        if !found.contains_key(&node) {
            return Ok(None);
        }
        Ok(Some(self.side(&found, node, self.unread(at.item))?))
    }

    /// The symbols of an item that aren't read.
    fn unread(&self, item: Item) -> &'a [Symbol<u32>]
        requires within { item.production < length self.now.grammar.now.productions }
        requires read { item.read ≤ length (nth_production (grammar_of self.now) item.production).symbols }
        ensures { map (sym_of (λ s. s)) result.now
            ≡ drop item.read (nth_production (grammar_of self.now) item.production).symbols }
    {
        &symbols_of(self.grammar, item.production)[item.read..]
    }

    /// The side that the steps to a found node make, with these symbols before its rest.
    fn side(
        &self,
        found: &Found<'a>,
        node: Node,
        unread: &[Symbol<u32>],
    ) -> Result<Side, AllocError>
        requires known { AreSteps (setting self.now) found.now.entries }
        requires there { HasNode found.now.entries node }
        ensures { IfOk result (IsSideWith (setting self.now) node (map (sym_of (λ s. s)) unread.now)) }
    {
        let mut prefix = Vec::new(self.alloc);
        let mut rest = Vec::new(self.alloc);
        rest.extend_from_slice(unread)?;
        let mut last = node;
        while let Some(step) = found.get(&last) {
            match *step {
                Step::First => break,
                Step::Read(parent, symbol) => {
                    prefix.push(symbol)?;
                    last = parent;
                }
                Step::Open(parent, front) => {
                    rest.extend_from_slice(front)?;
                    last = parent;
                }
            }
        }
        prefix.reverse();
        Ok(Side { prefix, rest })
    }

    /// Nodes that ways lead to, with this one if it is among them.
    fn searched(&self, node: Node) -> Result<Found<'a>, AllocError>
        requires ready { IsReady self.now }
        ensures { IfOk result (λ found. IsSearched (setting self.now) node found.entries) }
    {
        let mut found = IndexMap::new(self.alloc);
        self.begin(&mut found)?;
        for number in 0..usize::MAX {
            if found.contains_key(&node) {
                break;
            }
            let Some((next, _step)) = found.get_index(number) else {
                break;
            };
            let next = *next;
            self.go_on(&mut found, next)?;
        }
        let _count = found.len();
        Ok(found)
    }

    /// Finds the productions of the start rule.
    fn begin(&self, found: &mut Found<'a>) -> Result<(), AllocError>
        requires ready { IsReady self.now }
        ensures { OnOk result (Finds (setting self.now) None (Begins (setting self.now))
            found.old.entries found.new.entries) }
    {
        self.enter(found, 0, 0, false, Step::First)?;
        if usize::from(self.grammar.eof_token_idx()) == self.token {
            self.enter(found, 0, 0, true, Step::First)?;
        }
        Ok(())
    }

    /// Finds what a node leads to.
    fn go_on(&self, found: &mut Found<'a>, node: Node) -> Result<(), AllocError>
        requires ready { IsReady self.now }
        requires shown { IsShown (setting self.now) node }
        ensures { OnOk result (Finds (setting self.now) (Some node) (Leads (setting self.now) node)
            found.old.entries found.new.entries) }
    {
        match node {
            Node::Item(at) => self.go_on_item(found, at),
            Node::Opened(at) => self.unfold(found, at),
        }
    }

    /// Finds what an item leads to.
    fn go_on_item(&self, found: &mut Found<'a>, at: ItemAt) -> Result<(), AllocError>
        requires ready { IsReady self.now }
        requires shown { IsShown (setting self.now) (nodes.Item at) }
        ensures { OnOk result (Finds (setting self.now) (Some (nodes.Item at))
            (Leads (setting self.now) (nodes.Item at)) found.old.entries found.new.entries) }
    {
        let Some(symbol) = next_symbol(self.grammar, at.item) else {
            return Ok(());
        };
        self.read(found, at, symbol)?;
        match symbol {
            Symbol::Rule(rule) => self.open(found, at, usize::from(rule)),
            Symbol::Token(_) => Ok(()),
        }
    }

    /// Finds the item after its next symbol.
    fn read(&self, found: &mut Found<'a>, at: ItemAt, symbol: Symbol<u32>) -> Result<(), AllocError>
        requires ready { IsReady self.now }
        requires shown { IsShown (setting self.now) (nodes.Item at) }
        requires next { HasNext (grammar_of self.now) at.item (sym_of (λ s. s) symbol) }
        ensures { OnOk result (Finds (setting self.now) (Some (nodes.Item at))
            (Reads (setting self.now) at.place at.item at.followed (sym_of (λ s. s) symbol))
            found.old.entries found.new.entries) }
    {
        self.grammar.invariant_holds();
        let Some(place) = self.road.step(at.place, symbol) else {
            return Ok(());
        };
        let item = Item {
            production: at.item.production,
            read: at.item.read + 1,
        };
        let node = Node::Item(ItemAt {
            place,
            item,
            followed: at.followed,
        });
        self.add(found, node, Step::Read(Node::Item(at), symbol))
    }

    /// Finds what an item leads to by the rule that is next in it.
    fn open(&self, found: &mut Found<'a>, at: ItemAt, rule: usize) -> Result<(), AllocError>
        requires ready { IsReady self.now }
        requires shown { IsShown (setting self.now) (nodes.Item at) }
        requires next { HasNext (grammar_of self.now) at.item (Rule rule) }
        ensures { OnOk result (Finds (setting self.now) (Some (nodes.Item at))
            (Opens (setting self.now) at.place at.item at.followed rule) found.old.entries found.new.entries) }
    {
        let node = Node::Item(at);
        let back = self.back(at.item);
        self.enter(found, at.place, rule, false, Step::Open(node, back))?;
        let nullable = self.show(found, node, at.place, rule, back)?;
        self.enter_last(found, at, rule, nullable)
    }

    /// The symbols of an item after the next one.
    fn back(&self, item: Item) -> &'a [Symbol<u32>]
        requires within { item.production < length self.now.grammar.now.productions }
        requires next { item.read < length (nth_production (grammar_of self.now) item.production).symbols }
        ensures symbols { map (sym_of (λ s. s)) result.now
            ≡ drop (item.read + 1) (nth_production (grammar_of self.now) item.production).symbols }
        ensures within { All (IsSymbolWithin (λ s. s) self.now.grammar.now) result.now }
    {
        &symbols_of(self.grammar, item.production)[item.read + 1..]
    }

    /// Finds the used productions of the rule that is next in an item, after which the token comes that comes after the
    /// item's production, if the symbols between them are nullable.
    fn enter_last(
        &self,
        found: &mut Found<'a>,
        at: ItemAt,
        rule: usize,
        nullable: bool,
    ) -> Result<(), AllocError>
        requires ready { IsReady self.now }
        requires within { rule < length self.now.grammar.now.rules }
        requires opened { IsTrue nullable → EachShown (setting self.now) (nodes.Item at)
            (IsOpen (setting self.now) at.place rule) }
        ensures { OnOk result (Finds (setting self.now) (Some (nodes.Item at))
            (λ n. IsTrue at.followed × IsTrue nullable × Enters (setting self.now) at.place rule true n)
            found.old.entries found.new.entries) }
    {
        if at.followed && nullable {
            self.enter(found, at.place, rule, true, Step::Open(Node::Item(at), &[]))
        } else {
            Ok(())
        }
    }

    /// Finds what a rule leads to by the productions of the rule that comes first after it.
    fn unfold(&self, found: &mut Found<'a>, at: OpenedAt) -> Result<(), AllocError>
        requires ready { IsReady self.now }
        requires shown { IsShown (setting self.now) (nodes.Opened at) }
        ensures { OnOk result (Finds (setting self.now) (Some (nodes.Opened at))
            (Unfolds (setting self.now) at.place at.rule at.first) found.old.entries found.new.entries) }
    {
        for production in productions_of(self.grammar, at.first) {
            self.unfold_by(found, at, usize::from(*production))?;
        }
        Ok(())
    }

    /// Finds what a rule leads to by this production of the rule that comes first after it, if the production is used.
    fn unfold_by(
        &self,
        found: &mut Found<'a>,
        at: OpenedAt,
        production: usize,
    ) -> Result<(), AllocError>
        requires ready { IsReady self.now }
        requires rule { at.rule < length self.now.grammar.now.rules }
        requires within { production < length self.now.grammar.now.productions }
        requires owner { (nth_production (grammar_of self.now) production).rule ≡ at.first }
        ensures { OnOk result (Finds (setting self.now) (Some (nodes.Opened at))
            (UnfoldsWith (setting self.now) at.place at.rule production) found.old.entries found.new.entries) }
    {
        if self.used.get(production).unwrap_or(false) {
            let symbols = symbols_of(self.grammar, production);
            self.show(found, Node::Opened(at), at.place, at.rule, symbols)?;
        }
        Ok(())
    }

    /// Finds what a rule leads to by the symbols after it, up to the first one that isn't a nullable rule. Returns
    /// whether there is none such.
    fn show(
        &self,
        found: &mut Found<'a>,
        from: Node,
        place: usize,
        rule: usize,
        symbols: &'a [Symbol<u32>],
    ) -> Result<bool, AllocError>
        requires ready { IsReady self.now }
        requires rule { rule < length self.now.grammar.now.rules }
        requires opened { EachShown (setting self.now) from (λ prefix after. IsOpen (setting self.now) place rule prefix
            (map (sym_of (λ s. s)) symbols.now ++ after)) }
        requires within { All (IsSymbolWithin (λ s. s) self.now.grammar.now) symbols.now }
        ensures found { OnOk result (Finds (setting self.now) (Some from) (ByShown (setting self.now) place rule
            (map (sym_of (λ s. s)) symbols.now)) found.old.entries found.new.entries) }
        ensures nullable { IfOk result (λ nullable. IsTrue nullable
            ↔ IsNullable (setting self.now) (map (sym_of (λ s. s)) symbols.now)) }
    {
        for index in 0..symbols.len() {
            self.show_first(found, from, place, rule, symbols, index)?;
            if !self.is_nullable(symbols[index]) {
                return Ok(false);
            }
        }
        Ok(true)
    }

    /// Finds what a rule leads to by one of the symbols after it, where those before that are dropped.
    fn show_first(
        &self,
        found: &mut Found<'a>,
        from: Node,
        place: usize,
        rule: usize,
        symbols: &'a [Symbol<u32>],
        index: usize,
    ) -> Result<(), AllocError>
        requires ready { IsReady self.now }
        requires rule { rule < length self.now.grammar.now.rules }
        requires index { index < length symbols.now }
        requires opened { EachShown (setting self.now) from (λ prefix after. IsOpen (setting self.now) place rule prefix
            (drop index (map (sym_of (λ s. s)) symbols.now) ++ after)) }
        requires within { All (IsSymbolWithin (λ s. s) self.now.grammar.now) symbols.now }
        ensures { OnOk result (Finds (setting self.now) (Some from)
            (ByNext (setting self.now) place rule (slice_get (map (sym_of (λ s. s)) symbols.now) index))
            found.old.entries found.new.entries) }
    {
        match symbols[index] {
            Symbol::Rule(first) => {
                let node = Node::Opened(OpenedAt {
                    place,
                    rule,
                    first: usize::from(first),
                });
                self.add(found, node, Step::Open(from, &symbols[index + 1..]))
            }
            Symbol::Token(token) if usize::from(token) == self.token => {
                self.enter(
                    found,
                    place,
                    rule,
                    true,
                    Step::Open(from, &symbols[index..]),
                )
            }
            Symbol::Token(_) => Ok(()),
        }
    }

    /// Finds the used productions of a rule that is next.
    fn enter(
        &self,
        found: &mut Found<'a>,
        place: usize,
        rule: usize,
        followed: bool,
        step: Step<'a>,
    ) -> Result<(), AllocError>
        requires ready { IsReady self.now }
        requires within { rule < length self.now.grammar.now.rules }
        requires next { EachMade (setting self.now) step (IsNext (setting self.now) place rule followed) }
        ensures { OnOk result (Finds (setting self.now) (parent_of step.entry)
            (Enters (setting self.now) place rule followed) found.old.entries found.new.entries) }
    {
        for production in productions_of(self.grammar, rule) {
            let item = Item {
                production: usize::from(*production),
                read: 0,
            };
            let at = ItemAt {
                place,
                item,
                followed,
            };
            self.add_used(found, at, step)?;
        }
        Ok(())
    }

    /// Adds an item if its production is used.
    fn add_used(&self, found: &mut Found<'a>, at: ItemAt, step: Step<'a>) -> Result<(), AllocError>
        requires ready { IsReady self.now }
        requires shown { (setting self.now).Used at.item.production
            → EachMade (setting self.now) step (Shown (setting self.now) (nodes.Item at)) }
        ensures { OnOk result (Finds (setting self.now) (parent_of step.entry)
            (λ n. (setting self.now).Used at.item.production × (n ≡ nodes.Item at))
            found.old.entries found.new.entries) }
    {
        if self.used.get(at.item.production).unwrap_or(false) {
            self.add(found, Node::Item(at), step)?;
        }
        Ok(())
    }

    /// Whether the symbol is a nullable rule.
    fn is_nullable(&self, symbol: Symbol<u32>) -> bool
        requires ready { IsReady self.now }
        ensures { IsTrue result ↔ IsNullable (setting self.now) (sym_of (λ s. s) symbol ∷ []) }
    {
        match symbol {
            Symbol::Rule(rule) => self.firsts.is_epsilon_set(rule),
            Symbol::Token(_) => false,
        }
    }

    /// Adds a node with the step that leads to it, unless it was found before.
    fn add(&self, found: &mut Found<'a>, node: Node, step: Step<'a>) -> Result<(), AllocError>
        requires shown { EachMade (setting self.now) step (Shown (setting self.now) node) }
        ensures { OnOk result (Finds (setting self.now) (parent_of step.entry) (λ n. n ≡ node)
            found.old.entries found.new.entries) }
    {
        if !found.contains_key(&node) {
            found.insert(node, step)?;
        }
        Ok(())
    }
}
