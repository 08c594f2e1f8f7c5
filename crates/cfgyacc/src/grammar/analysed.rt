//! A grammar as analyses see it, and their results.

ghost use Rattle.std.specs.Prelude.{◌≡◌, ◌↔◌, ℕ, ◌<◌, All, length, replicate, IfOk, IsTrue};
ghost use Rattle.derivation.specs.Grammar.{HasProduction};
ghost use Rattle.derivation.specs.Path.{Path};
ghost use Rattle.cfganalysis.specs.Firsts.{AreFirsts};
ghost use Rattle.cfganalysis.specs.Follows.{AreFollows};
ghost use Rattle.cfganalysis.specs.ProductiveRules.{AreProductiveRules};
ghost use Rattle.cfgleast.specs.Generator.{token_cost};
ghost use Rattle.cfgindex.specs.declared.idxnewtype.TIdx.{TIdx};
ghost use Rattle.cfgnumbers.specs.Numbered.{core};

use super::SentenceGenerator;
use super::tables::YaccGrammar;
use cfganalysis::{CountedTables, Tables, YaccFirsts, YaccFollows, has_path, productive_rules};
use cfgindex::{PIdx, RIdx, Storage, Symbol, TIdx, Vob};
use std::alloc::{AllocError, Global};

impl<S: Storage> Tables<S> for YaccGrammar<S> {
    ghost use Rattle.std.specs.Prelude.{◌≡◌, ◌<◌, length, map};
    ghost use Rattle.cfgtables.specs.Openings.{nth_production};
    ghost use Rattle.cfgtables.specs.Openings.{ArePositionsOf};
    ghost use Rattle.cfgtables.specs.NumberedSymbols.{sym_of};

    ghost grammar = { core };

    fn rules_len(&self) -> RIdx<S> {
        self.invariant_holds();
        self.rules_len()
    }

    fn tokens_len(&self) -> TIdx<S> {
        self.tokens_len()
    }

    fn prods_len(&self) -> PIdx<S> {
        self.prods_len()
    }

    fn prod_to_rule(&self, pidx: PIdx<S>) -> RIdx<S>
        requires { S.number pidx.0 < length (core self.now).productions }
        ensures { S.number result.0 ≡ (nth_production (core self.now) (S.number pidx.0)).rule }
    {
        self.prod_to_rule(pidx)
    }

    fn rule_to_prods(&self, ridx: RIdx<S>) -> &[PIdx<S>]
        requires { S.number ridx.0 < length self.now.rules }
        ensures { ArePositionsOf (core self.now) (S.number ridx.0) (map (λ p. S.number p.0) result.now) }
    {
        self.invariant_holds();
        self.rule_to_prods(ridx)
    }

    fn prod(&self, pidx: PIdx<S>) -> &[Symbol<S>]
        requires { S.number pidx.0 < length (core self.now).productions }
        ensures { map (sym_of S.number) result.now ≡ (nth_production (core self.now) (S.number pidx.0)).symbols }
    {
        self.prod(pidx)
    }
}

impl<S: Storage> YaccGrammar<S> {
    /// The FIRST sets of the grammar: for each rule, the tokens that begin a list of symbols that it derives, and
    /// whether it derives the empty list (Aho, Lam, Sethi and Ullman, 4.4.2).
    ///
    /// # Errors
    ///
    /// Out of memory.
    pub fn firsts(&self, alloc: Global) -> Result<YaccFirsts<S>, AllocError>
        ensures { IfOk result (AreFirsts (core self.now)) }
    {
        YaccFirsts::new(alloc, self)
    }

    /// The FOLLOW sets of the grammar: for each rule, the tokens that come right after it in any list that some rule
    /// derives; and the end token, if the start rule derives a list that ends in the rule (Aho, Lam, Sethi and Ullman,
    /// 4.4.2).
    ///
    /// # Errors
    ///
    /// Out of memory.
    pub fn follows(&self, alloc: Global) -> Result<YaccFollows<S>, AllocError>
        ensures { IfOk result (AreFollows (core self.now)) }
    {
        YaccFollows::new(alloc, self)
    }

    /// The productive rules of the grammar, as a bit for each rule: those that derive a list of tokens, which may be
    /// empty.
    ///
    /// # Errors
    ///
    /// Out of memory.
    pub fn productive_rules(&self, alloc: Global) -> Result<Vob, AllocError>
        ensures { IfOk result (AreProductiveRules (core self.now)) }
    {
        productive_rules(alloc, self)
    }

    /// Whether one rule leads to another in one or more references: one of its productions contains the other rule, or
    /// contains a rule that leads to it.
    ///
    /// # Errors
    ///
    /// Out of memory.
    pub fn has_path(&self, alloc: Global, from: RIdx<S>, to: RIdx<S>) -> Result<bool, AllocError>
        requires { S.number from.0 < length self.now.rules }
        ensures { IfOk result (λ b. IsTrue b
            ↔ Path (HasProduction (core self.now)) (S.number from.0) (S.number to.0)) }
    {
        has_path(alloc, self, from, to)
    }

    /// The costs of the sentences of the grammar's rules, where a token costs what `cost` returns for it, but at least
    /// 1. It is called once for each token, in order, and also for the end token.
    ///
    /// # Errors
    ///
    /// Out of memory.
    pub fn sentence_generator<F: Fn(TIdx<S>) -> u8>(
        &self,
        alloc: Global,
        cost: F,
    ) -> Result<SentenceGenerator<'_, S>, AllocError>
        requires callable { (t : TIdx S) → S.number t.0 < length self.now.tokens → F.pre cost t }
        requires positive { (t : TIdx S) (c : ℕ) → S.number t.0 < length self.now.tokens
            → F.post cost t c → 0 < c }
        ensures grammar { IfOk result (λ x. x.grammar ≡ core self.now) }
        ensures tokens { IfOk result (λ x. length x.costs ≡ length self.now.tokens) }
        ensures positive { IfOk result (λ x. All (λ c. 0 < c) x.costs) }
        ensures costs { IfOk result (λ x. (t : TIdx S) → S.number t.0 < length self.now.tokens
            → F.post cost t (token_cost x (S.number t.0))) }
    {
        SentenceGenerator::new(alloc, self, cost)
    }

    /// The grammar's productions, which are opened one at a time and counted.
    ///
    /// # Errors
    ///
    /// Out of memory.
    pub fn productions(
        &self,
        alloc: Global,
    ) -> Result<CountedTables<'_, S, YaccGrammar<S>>, AllocError>
        ensures { IfOk result (λ x. x ≡ record {
          grammar = core self.now;
          opened = replicate (length self.now.productions) 0;
          opened_all = 0;
        }) }
    {
        CountedTables::new(alloc, self)
    }
}
