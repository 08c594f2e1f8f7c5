//! The arguments that name a command.

ghost use Rattle.std.specs.Prelude.{◌≡◌};
ghost use Rattle.cfgtool.specs.Arguments.{asks_lexer, command_named};

/// What is reported about a grammar.
#[derive(Clone, Copy, Debug, PartialEq, Eq)]
pub enum Command {
    /// Its productions.
    Grammar,
    /// Its FIRST sets.
    Firsts,
    /// Its FOLLOW sets.
    Follows,
    /// What its rules' sentences cost, and those of least cost.
    Sentences,
    /// Its warnings: unreachable rules and tokens.
    Warnings,
}

/// The command that an argument names, byte for byte.
#[tactic(auto, unfolding(crate::specs::Arguments::command_named))]
pub fn command_of(argument: &str) -> Option<Command>
    ensures { result ≡ command_named argument.now }
{
    match argument {
        "grammar" => Some(Command::Grammar),
        "firsts" => Some(Command::Firsts),
        "follows" => Some(Command::Follows),
        "sentences" => Some(Command::Sentences),
        "warnings" => Some(Command::Warnings),
        _ => None,
    }
}

/// Whether a command with two files is requested correctly: it is `lex`, and at most one of the files is standard
/// input.
pub(crate) fn asks_lexer(command: &str, file: &str, names: &str) -> bool
    ensures { result ≡ asks_lexer command.now file.now names.now }
{
    command == "lex" && !(file == "-" && names == "-")
}
