//! Repetition, turn by turn.

ghost use Rattle.std.specs.Prelude.{List};
ghost use Rattle.constructs.specs.Construct.{goes_on, repeat};
ghost use Rattle.bison_reader.specs.Here.{Turn};
ghost use Rattle.bison_reader.specs.declared.sort.Sort.{Sort};

use crate::reader::{Reader, Stop};

/// What is repeated.
pub(crate) trait Turns {
    ghost use Rattle.bison_reader.specs.Inner.Builds.{Builds};

    // What a turn is, if the words are of these sorts.
    ghost construct: { Self → List Sort → Turn (Unit {0}) };

    /// Passes a turn, if there is one here, and returns whether another may follow.
    fn turn(&self, reader: &mut Reader<'_>) -> Result<bool, Stop>
        ensures { Builds goes_on reader.old reader.new result (construct self.now reader.old.sorts.now) };
}

impl Reader<'_> {
    ghost use Rattle.bison_reader.specs.Inner.Builds.{Builds};

    /// Passes turns, as many as follow each other.
    pub(super) fn repeated<T: Turns>(&mut self, turns: &T) -> Result<(), Stop>
        ensures { Builds (λ x. x) self.old self.new result (repeat (T.construct turns.now self.old.sorts.now)) }
    {
        while turns.turn(self)? {}
        Ok(())
    }
}
