//! FOLLOW: the tokens that come right after rules (Aho, Lam, Sethi and Ullman, 4.4.2).

ghost use Rattle.std.specs.Prelude.{◌≡◌, ◌<◌, ◌↔◌, ℕ, length, IfOk, IsTrue};
ghost use Rattle.cfgtables.specs.Openings.{AreOpenedAtMost, most_openings};
ghost use Rattle.cfgsets.specs.GrowingFollows.{CoverFollowsOf, HasNoMoreFollows, IsOwner, count_follows};
ghost use Rattle.cfgsets.specs.Growth.{CanNote, CanAddProduction, AddsProduction, shown};
ghost use Rattle.cfgsets.specs.Table.{HasBit, row_of};
ghost use Rattle.cfgsets.specs.Waiting.{Waits};
ghost use Rattle.cfgsets.specs.Work.{Notes};
ghost use Rattle.cfganalysis.specs.Firsts.{AreFirsts};
ghost use Rattle.cfganalysis.specs.Follows.{AreFollows};
ghost use Rattle.cfganalysis.specs.Inner.FollowsSoFar.{AreFollowsSoFar, so_far_bounded};

use crate::bits::BitTable;
use crate::firsts::YaccFirsts;
use crate::visits::visit_all;
use cfgindex::{RIdx, Storage, Symbol, TIdx, Vob};
use cfgsets::{Analysis, Dependents, Follows, Waiting, WordTable};
use cfgtables::{CountedTables, Productions, Tables};
use std::alloc::{AllocError, Global};
use std::marker::{Model, PhantomData};

/// For each rule, the tokens that come right after it in a list that some rule derives; and the end token, if the start
/// rule derives a list that ends in the rule.
#[derive(Debug, Drop)]
pub struct YaccFollows<S: Storage> {
    follows: BitTable,
    storage: PhantomData<S>,
}

impl<S: Storage> Model for YaccFollows<S> {
    ghost use Rattle.cfgsets.specs.Table.{Table};

    ghost Value = { Table };

    ghost view = { λ x. x.follows };
}

impl<S: Storage> YaccFollows<S> {
    /// The FOLLOW sets of a grammar.
    ///
    /// # Errors
    ///
    /// Out of memory.
    pub fn new<T: Tables<S>>(alloc: Global, tables: &T) -> Result<Self, AllocError>
        ensures { IfOk result (AreFollows (T.grammar tables.now)) }
    {
        let firsts = YaccFirsts::new(alloc, tables)?;
        let mut productions = CountedTables::new(alloc, tables)?;
        follows_over(alloc, &mut productions, &firsts)
    }

    /// The tokens that follow the rule, as a bit for each token.
    pub fn follows(&self, rule: RIdx<S>) -> &Vob
        requires { S.number rule.0 < length self.now.rows }
        ensures { result.now ≡ row_of self.now (S.number rule.0) }
    {
        self.follows.row(usize::from(rule))
    }

    /// Whether the token follows the rule.
    pub fn is_set(&self, rule: RIdx<S>, token: TIdx<S>) -> bool
        ensures { IsTrue result ↔ HasBit self.now (S.number rule.0) (S.number token.0) }
    {
        self.follows.is_set(usize::from(rule), usize::from(token))
    }
}

/// FOLLOW sets while they are computed from exact FIRST sets.
#[derive(Drop)]
struct FollowAnalysis<'a, S: Storage> {
    sets: Follows<'a, S>,
}

impl<'a, S: Storage> Model for FollowAnalysis<'a, S> {
    ghost use Rattle.cfgsets.specs.GrowingFollows.{FollowSets};

    ghost Value = { FollowSets };

    ghost view = { λ x. x.sets };
}

impl<'a, S: Storage> Analysis<S> for FollowAnalysis<'a, S> {
    ghost holds = { AreFollowsSoFar };

    ghost covers = { CoverFollowsOf };

    ghost bits = { count_follows };

    ghost depends_on = { IsOwner };

    ghost no_more = { HasNoMoreFollows };

    ghost bounded = { so_far_bounded };

    fn note(
        &self,
        production: usize,
        rule: RIdx<S>,
        _symbols: &[Symbol<S>],
        dependents: &mut Dependents,
    ) -> Result<(), AllocError>
        requires { CanNote dependents.old (shown S.number rule _symbols.now) }
        ensures { IfOk result (λ _. Notes production (IsOwner (shown S.number rule _symbols.now))
            dependents.old dependents.new) }
    {
        dependents.note(usize::from(rule), production)
    }

    fn visit(&mut self, rule: RIdx<S>, symbols: &[Symbol<S>], grown: &mut Waiting)
        requires { CanAddProduction AreFollowsSoFar self.old grown.old (shown S.number rule symbols.now) }
        ensures takes { AddsProduction AreFollowsSoFar CoverFollowsOf count_follows IsOwner HasNoMoreFollows
            (shown S.number rule symbols.now) self.old self.new (Waits grown.new) }
        ensures rules { length grown.new ≡ length grown.old }
    {
        self.sets.add_production(rule, symbols, grown);
    }
}

/// Grows the FOLLOW sets until no production has anything to add.
///
/// # Errors
///
/// Out of memory.
fn grow_all<S: Storage, P: Productions<S>>(
    alloc: Global,
    productions: &mut P,
    firsts: &YaccFirsts<S>,
) -> Result<WordTable, AllocError>
    requires firsts { AreFirsts (P.content productions.old) firsts.now }
    requires fresh { (q : ℕ) → q < length (P.content productions.old).productions
        → P.opened productions.old q ≡ 0 }
    requires all_fresh { P.opened_all productions.old ≡ 0 }
    ensures follows { IfOk result (AreFollows (P.content productions.old)) }
    ensures content { P.content productions.new ≡ P.content productions.old }
    ensures few { AreOpenedAtMost (most_openings (P.content productions.old)) (P.content productions.old)
        (P.opened productions.new) (P.opened_all productions.new) }
{
    let rules = productions.rules_len().0.to_usize();
    let tokens = productions.tokens_len().0.to_usize();
    let sets = Follows::new(alloc, firsts.rows(), rules, tokens)?;
    let mut analysis = FollowAnalysis { sets };
    visit_all(alloc, productions, &mut analysis)?;
    Ok(analysis.sets.into_table())
}

/// The FOLLOW sets of the productions, given their FIRST sets.
///
/// # Errors
///
/// Out of memory.
pub fn follows_over<S: Storage, P: Productions<S>>(
    alloc: Global,
    productions: &mut P,
    firsts: &YaccFirsts<S>,
) -> Result<YaccFollows<S>, AllocError>
    requires firsts { AreFirsts (P.content productions.old) firsts.now }
    requires fresh { (q : ℕ) → q < length (P.content productions.old).productions
        → P.opened productions.old q ≡ 0 }
    requires all_fresh { P.opened_all productions.old ≡ 0 }
    ensures follows { IfOk result (AreFollows (P.content productions.old)) }
    ensures content { P.content productions.new ≡ P.content productions.old }
    ensures few { AreOpenedAtMost (most_openings (P.content productions.old)) (P.content productions.old)
        (P.opened productions.new) (P.opened_all productions.new) }
{
    let follows = grow_all(alloc, productions, firsts)?;
    Ok(YaccFollows {
        follows: BitTable::from_words(alloc, &follows)?,
        storage: PhantomData,
    })
}
