//! What `==` and `clone` of commands compare and copy. They are derived, so each law names the impl, as in
//! `⟦<Command as PartialEq>⟧`, and holds for every value.

ghost use Rattle.std.specs.Prelude.{◌≡◌, ◌↔◌, IsTrue};
ghost use Rattle.cfgtool.specs.declared.arguments.Command.{Command};

use crate::arguments::Command;
pub use cfgprogram::laws::kinds_are_distinct;
pub use cfgsink::laws::outcomes_are_distinct;

/// Two commands are equal exactly if they are the same. A clone equals its source and allocates nothing.
pub fn commands_are_distinct()
    ensures equal_commands { (a b : Command) → IsTrue (⟦<Command as PartialEq>⟧.eq a b) ↔ (a ≡ b) }
    ensures clone_command { (a b : Command) → ⟦<Command as Clone>⟧.is_clone a b → b ≡ a }
    ensures cloned_command { (a : Command) → ⟦<Command as Clone>⟧.is_infallible a }
{}
