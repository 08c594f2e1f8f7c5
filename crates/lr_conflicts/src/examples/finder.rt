//! What finds the sides of an example.

ghost use Rattle.std.specs.Prelude.{IfOk};
ghost use Rattle.lr_conflicts.specs.Clashes.{IsIn};
ghost use Rattle.lr_conflicts.specs.Inner.Finders.{FindsAt, FindsEither, FindsOnPrefix, FindsOnStates};
ghost use Rattle.lr_conflicts.specs.Inner.Finders.{FindsOther, IsFinderReady};
ghost use Rattle.lr_conflicts.specs.Inner.Clashing.{IsKnown, ShowsClash};
ghost use Rattle.lr_conflicts.specs.Inner.Tables.{step_of};

use crate::examples::nodes::ItemAt;
use crate::examples::roads::Road;
use crate::examples::ways::Ways;
use crate::examples::{Example, Side};
use crate::tables::read_item;
use crate::{Clash, Conflict};
use cfgrammar::yacc::YaccGrammar;
use cfgrammar::yacc::firsts::YaccFirsts;
use cfgrammar::{Symbol, Vob};
use lr_states::{Item, States};
use std::alloc::{AllocError, Global};

/// What finds the sides of an example in a conflict.
#[derive(Drop)]
pub(crate) struct Finder<'a> {
    pub(crate) alloc: Global,
    pub(crate) grammar: &'a YaccGrammar<u32>,
    pub(crate) firsts: &'a YaccFirsts<u32>,
    pub(crate) used: &'a Vob,
    pub(crate) states: &'a States,
    pub(crate) conflict: &'a Conflict,
}

impl<'a> Finder<'a> {
    /// An example of a clash that the conflict has.
    ///
    /// # Errors
    ///
    /// Out of memory.
    pub(crate) fn example(&self, clash: Clash) -> Result<Option<Example>, AllocError>
        requires ready { IsFinderReady self.now }
        ensures { IfOk result (λ found. IsKnown self.now.grammar.now self.now.states.now self.now.conflict.now
            → IsIn self.now.grammar.now self.now.states.now self.now.conflict.now clash
            → ShowsClash self.now.grammar.now self.now.states.now self.now.conflict.now clash found) }
    {
        self.grammar.invariant_holds();
        let item = read_item(self.grammar, clash.production);
        let Some(reduced) = self.reduced(item)? else {
            return Ok(None);
        };
        match self.other(clash, &reduced.prefix)? {
            Some(other) => Ok(Some(Example { reduced, other })),
            None => Ok(None),
        }
    }

    /// The other side of a clash, if possible with this prefix.
    fn other(&self, clash: Clash, prefix: &[Symbol<u32>]) -> Result<Option<Side>, AllocError>
        requires ready { IsFinderReady self.now }
        ensures { IfOk result (FindsOther self.now clash prefix.now) }
    {
        if clash.shifts {
            self.on_prefix(prefix, clash.other, false)
        } else {
            self.other_reduced(prefix, clash.other)
        }
    }

    /// A side of an item after which the token comes, if possible with this prefix.
    fn other_reduced(&self, prefix: &[Symbol<u32>], item: Item) -> Result<Option<Side>, AllocError>
        requires ready { IsFinderReady self.now }
        ensures { IfOk result (FindsEither self.now prefix.now item) }
    {
        match self.on_prefix(prefix, item, true)? {
            Some(side) => Ok(Some(side)),
            None => self.reduced(item),
        }
    }

    /// A side of an item after which the token comes, whose prefix leads to the conflict's state.
    fn reduced(&self, item: Item) -> Result<Option<Side>, AllocError>
        requires ready { IsFinderReady self.now }
        ensures { IfOk result (FindsOnStates self.now item) }
    {
        let at = ItemAt {
            place: self.conflict.state,
            item,
            followed: true,
        };
        self.on(Road::States(self.states), at)
    }

    /// A side of an item with this prefix.
    fn on_prefix(
        &self,
        prefix: &[Symbol<u32>],
        item: Item,
        followed: bool,
    ) -> Result<Option<Side>, AllocError>
        requires ready { IsFinderReady self.now }
        ensures { IfOk result (FindsOnPrefix self.now prefix.now item followed) }
    {
        let at = ItemAt {
            place: prefix.len(),
            item,
            followed,
        };
        self.on(Road::Prefix(prefix), at)
    }

    /// A side of an item that is reached along a road.
    fn on(&self, road: Road<'_>, at: ItemAt) -> Result<Option<Side>, AllocError>
        requires ready { IsFinderReady self.now }
        ensures { IfOk result (FindsAt self.now (step_of road.entry) at) }
    {
        let ways = Ways {
            alloc: self.alloc,
            grammar: self.grammar,
            firsts: self.firsts,
            used: self.used,
            road,
            token: self.conflict.token,
        };
        ways.whole_side(at)
    }
}
