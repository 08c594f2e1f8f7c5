//! The program over a runtime: its arguments, its files and its streams.

ghost use Rattle.std.specs.Prelude.{◌≡◌, IfOk};
ghost use Rattle.cfgtool.specs.Endings.{Ending, status_of};

use crate::faults::refuse_arguments;
use crate::program::run_requested;
use cfgprogram::arguments::{ArgumentsFault, arguments};
use cfgprogram::ending::{Ended, ended_with};
use cfgprogram::runtime::{ErrorStream, OutputStream, SystemFiles};
use cfgsink::sink::Counted;
use std::rt::{Clock, Env, Files};

/// Runs the program `cfgtool` over a runtime: [`run`](crate::run) on the command-line arguments, over the
/// runtime's files, its standard input under the name `-`, its standard output and its standard error. Arguments
/// that aren't UTF-8 are wrong usage. The status is 0 if a grammar is printed; 1 if its text has errors; 2 if it
/// couldn't be read or printed; 3 if memory ran out. Outputs that take no bytes for the moment are waited for.
pub fn run_over<R: Env + Files + Input + Print + Eprint + Clock + AllocGlobal>(rt: &R) -> Ended
    ensures { (ending : Ending) × (result.status ≡ status_of ending) }
{
    ended_with(match run_on_arguments(rt) {
        Ok(status) => status,
        Err(fault) => refuse_arguments(fault, &mut Counted::new(ErrorStream { rt })),
    })
}

/// Runs the program on its arguments, after which the process ends.
///
/// # Errors
///
/// Why there are no arguments; nothing is then read or written.
fn run_on_arguments<R: Env + Files + Input + Print + Eprint + Clock + AllocGlobal>(
    rt: &R,
) -> Result<u8, ArgumentsFault>
    ensures { IfOk result (λ status. (ending : Ending) × (status ≡ status_of ending)) }
{
    let arguments = arguments(rt)?;
    let args: Vec<&str> = arguments
        .iter()
        .map(|argument| argument.as_str())
        .collect(rt.alloc())?;
    Ok(run_requested(
        rt.alloc(),
        true,
        &args,
        &mut SystemFiles::new(rt),
        &mut Counted::new(OutputStream { rt }),
        &mut Counted::new(ErrorStream { rt }),
    ))
}
