//! The program, and what is checked of a lexer's names.

ghost use Rattle.std.specs.Prelude.{◌-◌, ◌^◌, ◌<◌};

use cfgrammar::yacc::YaccKind;
use cfgrammar::{Storage, TIdx};
use cfgtool::{Command, KindArg, Outcome, ReportFault, Sink, SinkFault, Source, run_over};
use lexcheck::LexReport;
use std::rt::{Clock, Env, Files};

/// Where a lexer's names and those of a grammar's tokens differ.
pub fn differences<S: Storage>(report: &LexReport<S>) -> (&Vec<usize>, &Vec<TIdx<S>>) {
    (&report.unknown, &report.missing)
}

/// The commands of the program, and the kinds that its arguments name.
pub fn requests(kind: YaccKind) -> ([Command; 5], [KindArg; 2]) {
    (
        [
            Command::Grammar,
            Command::Firsts,
            Command::Follows,
            Command::Sentences,
            Command::Warnings,
        ],
        [KindArg::Named(kind), KindArg::Section],
    )
}

/// How a report ended.
pub fn is_done(ended: &Result<Outcome, ReportFault>) -> Option<bool> {
    match ended {
        Ok(Outcome::Done) => Some(true),
        Ok(Outcome::Refused) | Err(ReportFault::Write) => Some(false),
        Err(ReportFault::OutOfMemory) => None,
    }
}

/// The status of the whole program.
pub fn whole<R: Env + Files + Input + Print + Eprint + Clock + AllocGlobal>(rt: &R) -> u8 {
    run_over(rt).status()
}

/// What a source has under a name.
pub fn fetched<S: Source>(source: &mut S, name: &str) -> cfgtool::Input {
    source.fetch(name)
}

/// What a sink does with bytes, and how many faults it has counted before.
pub fn written<W: Sink>(out: &mut W, bytes: &[u8]) -> (u64, Result<usize, SinkFault>)
    requires { W.faults_counted out.old < 2 ^ 64 - 1 }
{
    (out.faults(), out.write(bytes))
}
