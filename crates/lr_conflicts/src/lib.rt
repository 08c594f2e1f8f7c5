//! Where a grammar isn't LALR(1): states and tokens at which a parser could go on in two ways, after precedence has
//! settled what it can; and examples of that.
#![tactic(auto)]

mod clashes;
mod entered;
pub mod examples;
mod listed;
mod parser;
mod precedences;
pub mod tables;

ghost use Rattle.std.specs.Prelude.{◌≡◌, ◌-◌, ◌^◌, IfOk, count_by, length, map, min, sum};
ghost use Rattle.cfgrammar.specs.Numbered.{core};
ghost use Rattle.lr_conflicts.specs.Clashes.{AreClashes};
ghost use Rattle.lr_conflicts.specs.Conflicts.{AreConflicts};
ghost use Rattle.lr_conflicts.specs.declared.Conflict.{Conflict};
ghost use Rattle.lr_conflicts.specs.Inner.Choices.{AreTables};
ghost use Rattle.lr_states.specs.Lookaheads.{AreLookaheads};
ghost use Rattle.lr_states.specs.Automaton.{AreGotos, HaveTargets};
ghost use Rattle.lr_states.specs.Viable.{AreStates, IsUsed};

use crate::parser::Parser;
use cfgrammar::bison::Associativity;
use cfgrammar::yacc::YaccGrammar;
pub use clashes::Clash;
use lr_states::lookaheads::Lookaheads;
pub use precedences::Settled;
use std::alloc::{AllocError, Global};
use std::marker::Model;

/// A state and a token at which a parser could go on in two ways or more.
#[derive(Drop)]
pub struct Conflict {
    /// The number of the state.
    pub state: usize,
    /// The number of the token.
    pub token: usize,
    /// Whether it could shift the token, or accept at the end token.
    pub shifts: bool,
    /// The productions by which it could reduce, in ascending order.
    pub productions: Vec<usize>,
}

/// The conflicts of a grammar, in order of their states and tokens.
#[derive(Drop)]
pub struct Conflicts {
    lookaheads: Lookaheads,
    conflicts: Vec<Conflict>,
}

impl Model for Conflicts {
    ghost use Rattle.lr_conflicts.specs.Conflicts.{ConflictTables};

    ghost Value = { ConflictTables };

    ghost view = { λ x. record {
      lookaheads = x.lookaheads;
      conflicts = x.conflicts.items;
    } };
}

impl Conflicts {
    /// The conflicts of a grammar. `levels` says how the operators of each level of precedences associate, as
    /// `BisonFile::levels` does. Of a level that isn't in the list the tokens' own precedences say it.
    ///
    /// # Errors
    ///
    /// Out of memory.
    pub fn of(
        alloc: Global,
        grammar: &YaccGrammar<u32>,
        levels: &[Associativity],
    ) -> Result<Self, AllocError>
        ensures states { IfOk result (λ x. AreStates (core grammar.now) (IsUsed (core grammar.now))
            x.lookaheads.automaton.states) }
        ensures gotos { IfOk result (λ x. AreGotos (core grammar.now) (IsUsed (core grammar.now))
            x.lookaheads.automaton) }
        ensures targets { IfOk result (λ x. HaveTargets (core grammar.now) x.lookaheads.automaton) }
        ensures lookaheads { IfOk result (λ x. AreLookaheads (core grammar.now) (IsUsed (core grammar.now))
            x.lookaheads) }
        ensures conflicts { IfOk result (λ x. AreConflicts grammar.now levels.now x.lookaheads.automaton x.conflicts) }
    {
        let lookaheads = Lookaheads::of(alloc, grammar)?;
        let conflicts = conflicts_of(alloc, grammar, levels, &lookaheads)?;
        Ok(Conflicts {
            lookaheads,
            conflicts,
        })
    }

    /// The states of the grammar, and the lookaheads of their items.
    pub fn lookaheads(&self) -> &Lookaheads
        ensures { result.now ≡ self.now.lookaheads }
    {
        &self.lookaheads
    }

    /// The conflicts.
    pub fn as_slice(&self) -> &[Conflict]
        ensures { result.now ≡ self.now.conflicts }
    {
        &self.conflicts
    }

    /// How many shift/reduce conflicts there are, as Bison counts them: states and tokens at which there is one.
    pub fn shift_reduce(&self) -> usize
        ensures { result ≡ count_by (λ (c : Conflict). c.shifts) self.now.conflicts }
    {
        let mut count = 0;
        for conflict in &self.conflicts {
            if conflict.shifts {
                count += 1;
            }
        }
        count
    }

    /// How many reduce/reduce conflicts there are, as Bison counts them: at each state and token one less than there
    /// are productions. `usize::MAX` if there are more than that.
    pub fn reduce_reduce(&self) -> usize
        ensures { result ≡ min (sum (map (λ (c : Conflict). length c.productions.items - 1) self.now.conflicts))
            (2 ^ 64 - 1) }
    {
        let mut count = 0_usize;
        for conflict in &self.conflicts {
            count = count.saturating_add(conflict.productions.len().saturating_sub(1));
        }
        count
    }

    /// What clashes in the conflicts of this grammar, each once and in order.
    ///
    /// # Errors
    ///
    /// Out of memory.
    pub fn clashes(
        &self,
        alloc: Global,
        grammar: &YaccGrammar<u32>,
    ) -> Result<Vec<Clash>, AllocError>
        ensures { IfOk result (λ list. AreClashes grammar.now self.now.lookaheads.automaton self.now.conflicts
            list.items) }
    {
        clashes::clashes(alloc, grammar, self.lookaheads.states(), &self.conflicts)
    }
}

/// The conflicts of a grammar with these lookaheads.
fn conflicts_of(
    alloc: Global,
    grammar: &YaccGrammar<u32>,
    levels: &[Associativity],
    lookaheads: &Lookaheads,
) -> Result<Vec<Conflict>, AllocError>
    requires { AreTables grammar.now lookaheads.now }
    ensures { IfOk result (λ list. AreConflicts grammar.now levels.now lookaheads.now.automaton list.items) }
{
    let parser = Parser {
        alloc,
        grammar,
        levels,
        lookaheads,
    };
    parser.conflicts()
}
