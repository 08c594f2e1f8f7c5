//! What is reported about files, one by one.

ghost use Rattle.std.specs.Prelude.{◌≡◌, ◌-◌, ◌^◌, ◌<◌, ℕ, List, OnOk};
ghost use Rattle.cfglint_shell.specs.declared.linter.LintOptions as declared;
ghost use Rattle.cfglint_shell.specs.Tally.{Linted, fails, no_files, status_of, with_fault, with_file};

use crate::kind_counts::KindCounts;
use crate::linter::{LintOptions, Report};
use crate::read_fault::ReadFault;
use std::alloc::{AllocError, Global};
use std::marker::Model;

/// What was reported about files.
#[derive(Drop)]
pub(crate) struct Tally {
    pub(crate) lines: String,
    pub(crate) faults: String,
    pub(crate) texts: u64,
    pub(crate) kinds_read: KindCounts,
    /// A sum of list lengths, one per text.
    pub(crate) errors: u128,
    pub(crate) warnings: u128,
    pub(crate) is_short: bool,
}

impl Model for Tally {
    ghost use Rattle.std.specs.Prelude.{◌*◌, ◌^◌, ◌≤◌, string_bytes};
    ghost use Rattle.cfglint_shell.specs.KindCounts.{all_counted};
    ghost use Rattle.cfglint_shell.specs.Tally as printed;

    ghost Value = { printed.Tally };

    ghost view = { λ x. record {
      lines = string_bytes x.lines;
      faults = string_bytes x.faults;
      texts = x.texts;
      kinds_read = x.kinds_read;
      errors = x.errors;
      warnings = x.warnings;
      is_short = x.is_short;
    } };

    ghost invariant = { λ x. (all_counted x.kinds_read ≤ x.texts)
        × (x.errors ≤ x.texts * 2 ^ 64) × (x.warnings ≤ x.texts * 2 ^ 64) };
}

impl Tally {
    /// Before the first file.
    pub(crate) fn new(alloc: Global) -> Self
        ensures { result ≡ no_files }
    {
        Tally {
            lines: String::new(alloc),
            faults: String::new(alloc),
            texts: 0,
            kinds_read: KindCounts::new(),
            errors: 0,
            warnings: 0,
            is_short: false,
        }
    }

    /// Adds a file with what is reported about its text.
    pub(crate) fn add_report(&mut self, report: &Report) -> Result<(), AllocError>
        requires { self.old.texts < 2 ^ 64 - 1 }
        ensures { OnOk result ((options : declared.LintOptions) (name : List ℕ)
            → self.new ≡ with_file options name (Linted report.now) self.old) }
    {
        self.lines.push_str(&report.lines)?;
        self.texts += 1;
        self.kinds_read.add(report.kind);
        self.errors += report.errors as u128;
        self.warnings += report.warnings as u128;
        Ok(())
    }

    /// Adds a file of this name that can't be read as text.
    pub(crate) fn add_fault(
        &mut self,
        alloc: Global,
        options: &LintOptions,
        name: &str,
        fault: &ReadFault<'_>,
    ) -> Result<(), AllocError>
        ensures { OnOk result (self.new ≡ with_fault options.now name.now fault.now self.old) }
    {
        let positions = fault.positions(alloc)?;
        fault.push_reported(alloc, &mut self.lines, options.format, name, &positions)?;
        fault.push_line(&mut self.faults, options.columns, name, &positions)?;
        self.is_short = true;
        Ok(())
    }

    /// The status that the program ends with, with warnings denied or not.
    pub(crate) fn status(&self, denies: bool) -> u8
        ensures { result ≡ status_of denies self.now }
    {
        if self.is_short {
            2
        } else {
            u8::from(self.fails(denies))
        }
    }

    /// Whether there are errors, or warnings that are denied.
    fn fails(&self, denies: bool) -> bool
        ensures { result ≡ fails denies self.now }
    {
        self.errors > 0 || (denies && self.warnings > 0)
    }
}
