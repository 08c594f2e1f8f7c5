//! Findings about numbered things: rules, productions, precedences.

ghost use Rattle.std.specs.Prelude.{◌≡◌, ◌++◌, ◌≤◌, OnOk};
ghost use Rattle.text_findings.specs.Reports.{ReportsBelow};

use crate::finding::Finding;
use std::alloc::{AllocError, Global};

/// Reports on numbered things.
pub trait Reporter {
    ghost use Rattle.std.specs.Prelude.{◌<◌, ℕ, Option, IfOk};
    ghost use Rattle.text_findings.specs.Finding.{ShownFinding};

    // How many things there are.
    ghost count: { Self → ℕ };

    // What may be reported for one of them.
    ghost reports: { Self → ℕ → Option ShownFinding → Type 0 };

    /// The finding for this one, if any.
    ///
    /// # Errors
    ///
    /// Out of memory.
    fn report(&self, alloc: Global, number: usize) -> Result<Option<Finding>, AllocError>
        requires { number < count self.now }
        ensures { IfOk result (reports self.now number) };
}

/// Adds the findings for the first `count` things to `all`, in order.
pub fn push_reported<T: Reporter>(
    alloc: Global,
    all: &mut Vec<Finding>,
    reporter: &T,
    count: usize,
) -> Result<(), AllocError>
    requires { count ≤ T.count reporter.now }
    ensures { OnOk result ((reported : _) × ReportsBelow (T.reports reporter.now) count reported
        × (all.new.items ≡ all.old.items ++ reported)) }
{
    for number in 0..count {
        if let Some(finding) = reporter.report(alloc, number)? {
            all.push(finding)?;
        }
    }
    Ok(())
}
