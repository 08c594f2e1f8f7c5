//! The result of a run, and how it is printed.

ghost use Rattle.std.specs.Prelude.{◌≡◌, ◌-◌, ◌^◌, ◌<◌, ◌≤◌, ◌++◌, IfOk};
ghost use Rattle.cfgsink.specs.Runs.{EndsWith};
ghost use Rattle.cfgsink.specs.Sinks.{AppendsOrFaults};
ghost use Rattle.cfglint_shell.specs.Inner.{IsEnding, options_view, usage_error_view};
ghost use Rattle.cfglint_shell.specs.Requests.{usage_error_text};
ghost use Rattle.cfglint_shell.specs.Run.{answer_of, ending_errors, ending_faults, ending_status, refused, written};
ghost use Rattle.cfglint_shell.specs.Run.{unwritten_line, unwritten_status};

use crate::arguments::Options;
use crate::sarif_log::document;
use crate::summary::push_summary;
use crate::tally::Tally;
use crate::usage::UsageError;
use cfgsink::sink::{Sink, SinkFault, SinkWithReasons, WriteError, write_whole};
use std::alloc::{AllocError, Global};
use std::marker::Model;

/// What a run has to write to its output and to its errors, and the status that it then ends with.
#[derive(Drop)]
pub(crate) struct Answer {
    output: String,
    errors: String,
    status: u8,
}

impl Model for Answer {
    ghost use Rattle.std.specs.Prelude.{◌≤◌, string_bytes};
    ghost use Rattle.cfglint_shell.specs.Run as run;

    ghost Value = { run.Answer };

    ghost view = { λ x. record {
      output = string_bytes x.output;
      errors = string_bytes x.errors;
      status = x.status;
    } };

    ghost invariant = { λ x. x.status ≤ 2 };
}

impl Answer {
    /// The result whose output is this text.
    pub(crate) fn written(alloc: Global, text: &str) -> Result<Self, AllocError>
        ensures { IfOk result (λ answer. answer ≡ written text.now) }
    {
        Ok(Answer {
            output: String::from_str(alloc, text)?,
            errors: String::new(alloc),
            status: 0,
        })
    }

    /// The result of arguments that are wrong, for this reason.
    pub(crate) fn refused(alloc: Global, error: &UsageError<'_>) -> Result<Self, AllocError>
        ensures { IfOk result (λ answer. answer ≡ refused (usage_error_text (usage_error_view error.now))) }
    {
        Ok(Answer {
            output: String::new(alloc),
            errors: error.text(alloc)?,
            status: 2,
        })
    }

    /// The result for what was reported about files.
    pub(crate) fn of_files(
        alloc: Global,
        tally: Tally,
        options: &Options<'_>,
    ) -> Result<Self, AllocError>
        ensures { IfOk result (λ answer. answer ≡ answer_of (options_view options.now) tally) }
    {
        let status = tally.status(options.denies);
        let mut last = String::new(alloc);
        push_summary(&mut last, &tally, options)?;
        let Tally {
            lines: mut output,
            faults: errors,
            ..
        } = tally;
        output.push_str(&last)?;
        Ok(Answer {
            output: document(alloc, options.lint.format, output)?,
            errors,
            status,
        })
    }
}

/// Writes the result, and returns the status that the run ends with.
pub(crate) fn print<O: SinkWithReasons, E: Sink>(answer: &Answer, out: &mut O, err: &mut E) -> u8
    requires out_counts { O.faults_counted out.old < 2 ^ 64 - 1 }
    requires err_counts { E.faults_counted err.old < 2 ^ 64 - 1 }
    ensures small { result ≤ 3 }
    ensures ends { EndsWith ending_status ending_faults ending_errors (IsEnding answer.now (O.reason out.new))
        O.written O.faults_counted out.old out.new E.written E.faults_counted err.old err.new result }
{
    match write_whole(out, answer.output.as_bytes()) {
        Ok(()) => {
            let _ = write_whole(err, answer.errors.as_bytes());
            answer.status
        }
        Err(SinkFault) => {
            let reason = out.reason();
            let line = unwritten_line(reason);
            let _ = write_both(err, answer.errors.as_bytes(), line.as_bytes());
            unwritten_status(reason, answer.status)
        }
    }
}

/// The line about an output that didn't accept all, for this reason. About a closed pipe there is none.
fn unwritten_line(reason: WriteError) -> &'static str
    ensures { result.now ≡ unwritten_line reason }
{
    match reason {
        WriteError::Closed => "",
        WriteError::NoSpace => "cfglint: cannot write: no space is left\n",
        WriteError::FileTooLarge => "cfglint: cannot write: the file would get too large\n",
        WriteError::Other => "cfglint: cannot write\n",
    }
}

/// The status of a run whose output didn't accept all of a result with this status.
fn unwritten_status(reason: WriteError, status: u8) -> u8
    ensures { result ≡ unwritten_status reason status }
{
    match reason {
        WriteError::Closed => status,
        WriteError::NoSpace | WriteError::FileTooLarge | WriteError::Other => 2,
    }
}

/// Writes the first bytes, and then the others.
fn write_both<E: Sink>(err: &mut E, first: &[u8], more: &[u8]) -> Result<(), SinkFault>
    requires { E.faults_counted err.old < 2 ^ 64 - 1 }
    ensures { AppendsOrFaults (E.written err.old) (E.written err.new)
        (E.faults_counted err.old) (E.faults_counted err.new) (first.now ++ more.now) }
{
    write_whole(err, first)?;
    write_whole(err, more)
}
