//! A run of the program.

ghost use Rattle.std.specs.Prelude.{◌-◌, ◌^◌, ◌<◌, ◌≤◌, map};
ghost use Rattle.cfgsink.specs.Runs.{EndsWith};
ghost use Rattle.cfglint_shell.specs.Run.{Handles, ending_errors, ending_faults, ending_status};
ghost use Rattle.cfglint.specs.Reported.{ReportsText};

use crate::linter::Lints;
use cfgprogram::source::SourceWithReasons;
use cfgsink::sink::{Sink, SinkWithReasons};
use std::alloc::Global;

/// Runs the program on its command-line arguments, and returns its status. Its reports on the files among the
/// arguments, and a summary, are written to `out`. A line for each file without a text, or on whatever else failed, is
/// written to `err`, as far as `err` accepts it. Nothing is written before all files are read. If `out` is closed, the
/// rest is dropped, which changes no status. If the arguments are wrong, `source` is left as it was.
pub fn lint<S: SourceWithReasons, O: SinkWithReasons, E: Sink>(
    alloc: Global,
    args: &[&str],
    source: &mut S,
    out: &mut O,
    err: &mut E,
) -> u8
    requires out_counts { O.faults_counted out.old < 2 ^ 64 - 1 }
    requires err_counts { E.faults_counted err.old < 2 ^ 64 - 1 }
    ensures small { result ≤ 3 }
    ensures ends { EndsWith ending_status ending_faults ending_errors
        (Handles ReportsText S.fetches S.reason source.old source.new (map (λ word. word.now) args.now)
        (O.reason out.new))
        O.written O.faults_counted out.old out.new E.written E.faults_counted err.old err.new result }
{
    cfglint_shell::lint(alloc, &Lints, args, source, out, err)
}
