//! The program over a runtime.

ghost use Rattle.std.specs.Prelude.{◌≤◌};

use crate::linter::Lints;
use cfgprogram::ending::{Ended, ended_with};
use std::rt::{Clock, Env, Files};

/// Runs the program `cfglint` over a runtime: [`lint`](crate::lint) on the command-line arguments, over the
/// runtime's files, its standard input under the name `-`, its standard output and its standard error. Arguments
/// that aren't UTF-8 are wrong usage. The status is 0 if nothing was found that counts; 1 if something was; 2 if the
/// arguments were wrong, a file couldn't be read or the output couldn't be written; 3 if memory ran out. Outputs that
/// take no bytes for the moment are waited for, and a closed one changes no status. If the output is a terminal,
/// severities are coloured unless an argument, or the environment's variable `NO_COLOR`, says otherwise.
pub fn run_over<R: Env + Files + Input + Print + Eprint + Clock + AllocGlobal>(
    rt: &R,
    is_terminal: bool,
) -> Ended
    ensures { result.status ≤ 3 }
{
    ended_with(cfglint_shell::run_over(rt, &Lints, is_terminal))
}
