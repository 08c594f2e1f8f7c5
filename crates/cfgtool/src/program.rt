//! A run of the program.

ghost use Rattle.std.specs.Prelude.{◌≡◌, ◌+◌, ◌-◌, ◌^◌, ◌<◌, ◌≤◌, map, true, IfOk, IfErr};
ghost use Rattle.std.specs.Str.{IsUtf8};
ghost use Rattle.cfgprogram.specs.Kinds.{kind_named};
ghost use Rattle.cfgprogram.specs.declared.source.Input.{Input};
ghost use Rattle.cfgsink.specs.Runs.{EndsWith};
ghost use Rattle.cfgtool.specs.Arguments.{command_named};
ghost use Rattle.cfgtool.specs.Endings.{NotUtf8, IsFetched, ending_in, ending_with, faults_at};
ghost use Rattle.cfgtool.specs.Endings.{line_of, status_of};
ghost use Rattle.cfgtool.specs.Run.{HandlesLexer, HandlesNames, HandlesArguments};

use crate::arguments::{asks_lexer, command_of};
use crate::engine::{Request, write_requested};
use crate::faults::{RunFault, print};
use cfgprogram::kinds::kind_of;
use cfgprogram::source::{Input, Source};
use cfgsink::{Outcome, Sink};
use std::alloc::Global;

/// Runs the program on its command-line arguments, and returns its status. Its report is written to `out`, and a line
/// on what went wrong to `err`, as far as `err` accepts it. If the arguments are wrong, `source` is left as it was.
pub fn run<S: Source, O: Sink, E: Sink>(
    alloc: Global,
    args: &[&str],
    source: &mut S,
    out: &mut O,
    err: &mut E,
) -> u8
    requires out_counts { O.faults_counted out.old < 2 ^ 64 - 1 }
    requires err_counts { E.faults_counted err.old < 2 ^ 64 - 1 }
    ensures small { result ≤ 3 }
    ensures ends { EndsWith status_of faults_at line_of
        (HandlesArguments (map (λ word. word.now) args.now) S.fetches source.old source.new)
        O.written O.faults_counted out.old out.new E.written E.faults_counted err.old err.new result }
{
    run_requested(alloc, false, args, source, out, err)
}

/// Runs the program as [`run`] does. If the process ends after that, nothing of the grammar is dropped.
pub(crate) fn run_requested<S: Source, O: Sink, E: Sink>(
    alloc: Global,
    is_last: bool,
    args: &[&str],
    source: &mut S,
    out: &mut O,
    err: &mut E,
) -> u8
    requires out_counts { O.faults_counted out.old < 2 ^ 64 - 1 }
    requires err_counts { E.faults_counted err.old < 2 ^ 64 - 1 }
    ensures small { result ≤ 3 }
    ensures ends { EndsWith status_of faults_at line_of
        (HandlesArguments (map (λ word. word.now) args.now) S.fetches source.old source.new)
        O.written O.faults_counted out.old out.new E.written E.faults_counted err.old err.new result }
{
    match outcome(alloc, is_last, args, source, out) {
        Ok(Outcome::Done) => 0,
        Ok(Outcome::Refused) => 1,
        Err(fault) => {
            let _ = print(&fault, err);
            fault.status()
        }
    }
}

/// How the report that the arguments ask for ended.
fn outcome<'a, S: Source, O: Sink>(
    alloc: Global,
    is_last: bool,
    args: &[&'a str],
    source: &mut S,
    out: &mut O,
) -> Result<Outcome, RunFault<'a>>
    requires { O.faults_counted out.old < 2 ^ 64 - 1 }
    ensures ends { HandlesArguments (map (λ word. word.now) args.now) S.fetches source.old source.new
        (O.written out.old) (O.written out.new) (ending_in result) }
    ensures faults { O.faults_counted out.new ≡ O.faults_counted out.old + faults_at (ending_in result) }
{
    match *args {
        [kind, command, file] => command_outcome(alloc, is_last, kind, command, file, source, out),
        [kind, command, file, names] => {
            if asks_lexer(command, file, names) {
                lexer_outcome(alloc, is_last, kind, file, names, source, out)
            } else {
                Err(RunFault::Usage)
            }
        }
        _ => Err(RunFault::Usage),
    }
}

/// How the report of a command on a file ended.
fn command_outcome<'a, S: Source, O: Sink>(
    alloc: Global,
    is_last: bool,
    kind: &str,
    command: &str,
    file: &'a str,
    source: &mut S,
    out: &mut O,
) -> Result<Outcome, RunFault<'a>>
    requires { O.faults_counted out.old < 2 ^ 64 - 1 }
    ensures ends { HandlesNames (kind_named kind.now) (command_named command.now) file.now
        S.fetches source.old source.new (O.written out.old) (O.written out.new) (ending_in result) }
    ensures faults { O.faults_counted out.new ≡ O.faults_counted out.old + faults_at (ending_in result) }
{
    let (Some(kind), Some(command)) = (kind_of(kind), command_of(command)) else {
        return Err(RunFault::Usage);
    };
    let bytes = fetch(source, file)?;
    let text = text_of(&bytes, file)?;
    Ok(write_requested(alloc, kind, Request::Command(command), is_last, text, out)?)
}

/// How the report on a lexer's names and a file ended.
fn lexer_outcome<'a, S: Source, O: Sink>(
    alloc: Global,
    is_last: bool,
    kind: &str,
    file: &'a str,
    names: &'a str,
    source: &mut S,
    out: &mut O,
) -> Result<Outcome, RunFault<'a>>
    requires { O.faults_counted out.old < 2 ^ 64 - 1 }
    ensures ends { HandlesLexer (kind_named kind.now) true file.now names.now
        S.fetches source.old source.new (O.written out.old) (O.written out.new) (ending_in result) }
    ensures faults { O.faults_counted out.new ≡ O.faults_counted out.old + faults_at (ending_in result) }
{
    let Some(kind) = kind_of(kind) else {
        return Err(RunFault::Usage);
    };
    let bytes = fetch(source, file)?;
    let list = fetch(source, names)?;
    let text = text_of(&bytes, file)?;
    let list = text_of(&list, names)?;
    Ok(write_requested(alloc, kind, Request::Names(list), is_last, text, out)?)
}

/// The bytes of the file with this name.
fn fetch<'a, S: Source>(source: &mut S, file: &'a str) -> Result<Vec<u8>, RunFault<'a>>
    ensures { (answer : Input) × S.fetches source.old file.now answer source.new × IsFetched file.now answer result }
{
    match source.fetch(file) {
        Input::Bytes(bytes) => Ok(bytes),
        Input::Unreadable => Err(RunFault::Unreadable(file)),
        Input::OutOfMemory => Err(RunFault::OutOfMemory),
    }
}

/// The bytes of the file with this name, as text.
fn text_of<'a, 'b>(bytes: &'b [u8], file: &'a str) -> Result<&'b str, RunFault<'a>>
    ensures ok { IfOk result (λ text. (text.now ≡ bytes.now) × IsUtf8 bytes.now) }
    ensures err { IfErr result (λ fault. (ending_with fault ≡ NotUtf8 file.now) × (IsUtf8 bytes.now → ⊥)) }
{
    match std::str::from_utf8(bytes) {
        Ok(text) => Ok(text),
        Err(_) => Err(RunFault::NotUtf8(file)),
    }
}
