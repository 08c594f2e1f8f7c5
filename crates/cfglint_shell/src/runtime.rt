//! The program over a runtime.

ghost use Rattle.std.specs.Prelude.{◌≡◌, ◌-◌, ◌^◌, ◌<◌, ◌≤◌, IfOk, OnOk, map};
ghost use Rattle.cfgsink.specs.Sinks.{AppendsOrFaults};
ghost use Rattle.cfglint_shell.specs.Run.{ending_errors, ending_status, ending_without, is_unset_or_empty};
ghost use Rattle.cfglint_shell.specs.Run.{with_colors};

use crate::linter::Linter;
use crate::program::lint;
use crate::usage::NOT_UTF8;
use cfgprogram::arguments::{ArgumentsFault, arguments};
use cfgprogram::runtime::{ErrorStream, OutputStream, SystemFiles};
use cfgsink::sink::{Counted, Sink, write_whole};
use std::alloc::AllocError;
use std::env::FillError;
use std::rt::{Clock, Env, Files};

/// Runs the program over a runtime, and returns its status: [`lint`](crate::lint) on the command-line arguments, over
/// the runtime's files, its standard input under the name `-`, its standard output and its standard error. Arguments
/// that are not UTF-8 are wrong. If the output is a terminal, severities are coloured unless an argument, or the
/// environment's variable `NO_COLOR`, says otherwise.
pub fn run_over<R: Env + Files + Input + Print + Eprint + Clock + AllocGlobal, L: Linter>(
    rt: &R,
    linter: &L,
    is_terminal: bool,
) -> u8
    ensures { result ≤ 3 }
{
    let colors = is_terminal && allows_colors(rt);
    match run_on_arguments(rt, linter, colors) {
        Ok(status) => status,
        Err(fault) => refuse_arguments(fault, &mut Counted::new(ErrorStream { rt })),
    }
}

/// Runs the program on its arguments, with colours by default or not.
///
/// # Errors
///
/// Why there are no arguments; nothing is then read or written.
fn run_on_arguments<R: Env + Files + Input + Print + Eprint + Clock + AllocGlobal, L: Linter>(
    rt: &R,
    linter: &L,
    colors: bool,
) -> Result<u8, ArgumentsFault>
    ensures { IfOk result (λ status. status ≤ 3) }
{
    let arguments = arguments(rt)?;
    let mut args: Vec<&str> = arguments
        .iter()
        .map(|argument| argument.as_str())
        .collect(rt.alloc())?;
    set_colors(&mut args, colors)?;
    Ok(lint(
        rt.alloc(),
        linter,
        &args,
        &mut SystemFiles::new(rt),
        &mut Counted::new(OutputStream { rt }),
        &mut Counted::new(ErrorStream { rt }),
    ))
}

/// Puts the argument that requests colours before the others, if they are the default.
fn set_colors(args: &mut Vec<&str>, colors: bool) -> Result<(), AllocError>
    ensures { OnOk result (map (λ argument. argument.now) args.new.items
        ≡ with_colors colors (map (λ argument. argument.now) args.old.items)) }
{
    if colors {
        args.insert(0, "--color=always")?;
    }
    Ok(())
}

/// Whether the environment allows colours: the variable `NO_COLOR` is unset or empty.
fn allows_colors<R: Env>(rt: &R) -> bool {
    is_unset_or_empty(rt.var("NO_COLOR", &mut [0; 1]))
}

/// Whether a variable is unset or empty of which so many bytes were copied. One that could not be copied is neither.
fn is_unset_or_empty(copied: Result<usize, FillError>) -> bool
    ensures { result ≡ is_unset_or_empty copied }
{
    matches!(copied, Ok(0) | Err(FillError::NotPresent))
}

/// Ends a run that has no arguments, and returns its status. A line that says why is written to `err`, as far as `err`
/// accepts it.
fn refuse_arguments<E: Sink>(fault: ArgumentsFault, err: &mut E) -> u8
    requires { E.faults_counted err.old < 2 ^ 64 - 1 }
    ensures small { result ≤ 3 }
    ensures status { result ≡ ending_status (ending_without fault) }
    ensures line { AppendsOrFaults (E.written err.old) (E.written err.new)
        (E.faults_counted err.old) (E.faults_counted err.new) (ending_errors (ending_without fault)) }
{
    match fault {
        ArgumentsFault::NotUtf8 => {
            let _ = write_whole(err, NOT_UTF8.as_bytes());
            2
        }
        ArgumentsFault::OutOfMemory => {
            let _ = write_whole(err, b"cfglint: out of memory\n");
            3
        }
    }
}
