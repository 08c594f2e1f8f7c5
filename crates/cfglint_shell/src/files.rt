//! Linting of files, one by one.

ghost use Rattle.std.specs.Prelude.{◌≡◌, ◌-◌, ◌^◌, ◌<◌, IfOk, OnErr, OnOk, map};
ghost use Rattle.cfgprogram.specs.declared.source.Input.{Input};
ghost use Rattle.cfglint_shell.specs.Files.{AsksFirst, IsFileOutcome, IsPrinted, Lints};
ghost use Rattle.cfglint_shell.specs.Inner.{options_view};
ghost use Rattle.cfglint_shell.specs.Requests.{name_of};
ghost use Rattle.cfglint_shell.specs.Tally.{FileOutcome, no_files, with_file};

use crate::arguments::Options;
use crate::linter::Linter;
use crate::read_fault::ReadFault;
use crate::tally::Tally;
use cfgprogram::source::{Input, SourceWithReasons};
use std::alloc::{AllocError, Global};

/// What is reported about files, one by one, with these options.
///
/// # Errors
///
/// Running out of memory; only a prefix of the files was then requested of `source`.
pub(crate) fn lint_files<'a, L: Linter, S: SourceWithReasons>(
    alloc: Global,
    linter: &L,
    options: &Options<'a>,
    files: &[&'a str],
    source: &mut S,
) -> Result<Tally, AllocError>
    ensures ok { IfOk result (λ tally. Lints L.reports (options_view options.now) S.fetches S.reason source.old no_files
        (map (λ file. file.now) files.now) source.new tally) }
    ensures err { OnErr result (AsksFirst S.fetches source.old source.new (map (λ file. file.now) files.now)) }
{
    let mut tally = Tally::new(alloc);
    for file in files {
        lint_file(alloc, linter, options, file, source, &mut tally)?;
    }
    Ok(tally)
}

/// Adds what is reported about a file.
fn lint_file<'a, L: Linter, S: SourceWithReasons>(
    alloc: Global,
    linter: &L,
    options: &Options<'a>,
    file: &'a str,
    source: &mut S,
    tally: &mut Tally,
) -> Result<(), AllocError>
    requires { tally.old.texts < 2 ^ 64 - 1 }
    ensures ok { OnOk result ((answer : Input) × (outcome : FileOutcome)
        × S.fetches source.old file.now answer source.new
        × IsFileOutcome L.reports (options_view options.now)
        (name_of (options_view options.now) file.now) answer (S.reason source.new) outcome
        × (tally.new ≡ with_file options.now.lint (name_of (options_view options.now) file.now) outcome tally.old)) }
    ensures err { OnErr result ((answer : Input) × S.fetches source.old file.now answer source.new) }
{
    let name = options.name_of(file);
    match source.fetch(file) {
        Input::Bytes(bytes) => lint_bytes(alloc, linter, options, name, &bytes, tally),
        Input::Unreadable => {
            let fault = ReadFault::unreadable(alloc, source.reason())?;
            tally.add_fault(alloc, &options.lint, name, &fault)
        }
        Input::OutOfMemory => Err(AllocError),
    }
}

/// Adds what is reported about the bytes of a file of this name.
fn lint_bytes<L: Linter>(
    alloc: Global,
    linter: &L,
    options: &Options<'_>,
    name: &str,
    bytes: &[u8],
    tally: &mut Tally,
) -> Result<(), AllocError>
    requires { tally.old.texts < 2 ^ 64 - 1 }
    ensures { OnOk result ((outcome : FileOutcome)
        × IsPrinted L.reports (options_view options.now) name.now bytes.now outcome
        × (tally.new ≡ with_file options.now.lint name.now outcome tally.old)) }
{
    match std::str::from_utf8(bytes) {
        Ok(text) => tally.add_report(&linter.lint(alloc, &options.lint, name, text)?),
        Err(error) => {
            let fault = ReadFault::invalid(alloc, bytes, error.valid_up_to())?;
            tally.add_fault(alloc, &options.lint, name, &fault)
        }
    }
}
