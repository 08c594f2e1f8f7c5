//! A run of the program.

ghost use Rattle.std.specs.Prelude.{◌-◌, ◌^◌, ◌<◌, ◌≤◌, IfOk, OnErr, map};
ghost use Rattle.cfgsink.specs.Runs.{EndsWith};
ghost use Rattle.cfglint_shell.specs.Files.{AsksFirst};
ghost use Rattle.cfglint_shell.specs.Inner.{options_view};
ghost use Rattle.cfglint_shell.specs.Run.{Answers, Handles, ending_errors, ending_faults, ending_status};
ghost use Rattle.cfglint_shell.specs.Requests.{requested, files_requested};
ghost use Rattle.cfglint_shell.specs.Requests as requests;

use crate::answer::{Answer, print};
use crate::arguments::{Options, Requested, Stop, requested_by};
use crate::files::lint_files;
use crate::linter::Linter;
use crate::usage::{HELP, VERSION};
use cfgprogram::source::SourceWithReasons;
use cfgsink::sink::{Sink, SinkWithReasons, write_whole};
use std::alloc::{AllocError, Global};

/// Runs the program on its command-line arguments, and returns its status. What it reports about the files that they
/// name, and a summary, is written to `out`; a line for each file without text, or about what else went wrong, is
/// written to `err`, as far as `err` accepts it. Nothing is written before all files are read. If `out` is closed, the
/// rest is dropped, which changes no status. Wrong arguments leave `source` as it was.
pub fn lint<L: Linter, S: SourceWithReasons, O: SinkWithReasons, E: Sink>(
    alloc: Global,
    linter: &L,
    args: &[&str],
    source: &mut S,
    out: &mut O,
    err: &mut E,
) -> u8
    requires out_counts { O.faults_counted out.old < 2 ^ 64 - 1 }
    requires err_counts { E.faults_counted err.old < 2 ^ 64 - 1 }
    ensures small { result ≤ 3 }
    ensures ends { EndsWith ending_status ending_faults ending_errors
        (Handles L.reports S.fetches S.reason source.old source.new (map (λ argument. argument.now) args.now)
        (O.reason out.new))
        O.written O.faults_counted out.old out.new E.written E.faults_counted err.old err.new result }
{
    match answered(alloc, linter, args, source) {
        Ok(answer) => print(&answer, out, err),
        Err(AllocError) => {
            let _ = write_whole(err, b"cfglint: out of memory\n");
            3
        }
    }
}

/// The result of the arguments.
///
/// # Errors
///
/// Running out of memory.
fn answered<L: Linter, S: SourceWithReasons>(
    alloc: Global,
    linter: &L,
    args: &[&str],
    source: &mut S,
) -> Result<Answer, AllocError>
    ensures ok { IfOk result (λ answer. Answers L.reports S.fetches S.reason source.old source.new
        (requested (map (λ argument. argument.now) args.now)) answer) }
    ensures err { OnErr result (AsksFirst S.fetches source.old source.new
        (files_requested (requested (map (λ argument. argument.now) args.now)))) }
{
    match requested_by(alloc, args)? {
        Requested::Stops(Stop::Help) => Answer::written(alloc, HELP),
        Requested::Stops(Stop::Version) => Answer::written(alloc, VERSION),
        Requested::Stops(Stop::Wrong(error)) => Answer::refused(alloc, &error),
        Requested::Lint(options) => linted(alloc, linter, &options, source),
    }
}

/// The result of arguments that ask for files.
///
/// # Errors
///
/// Running out of memory; only a prefix of the files was then requested of `source`.
fn linted<L: Linter, S: SourceWithReasons>(
    alloc: Global,
    linter: &L,
    options: &Options<'_>,
    source: &mut S,
) -> Result<Answer, AllocError>
    ensures ok { IfOk result (λ answer. Answers L.reports S.fetches S.reason source.old source.new
        (requests.Lint (options_view options.now)) answer) }
    ensures err { OnErr result (AsksFirst S.fetches source.old source.new (options_view options.now).files) }
{
    let tally = lint_files(alloc, linter, options, &options.files, source)?;
    Answer::of_files(alloc, tally, options)
}
