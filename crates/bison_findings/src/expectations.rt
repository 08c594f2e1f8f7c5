//! Expectations of conflicts.

ghost use Rattle.std.specs.Prelude.{◌≡◌, ◌||◌, ◌++◌, IfOk, OnOk, if◌then◌else◌, is_some, not};
ghost use Rattle.cfgrammar.specs.TreeView.{syntax};
ghost use Rattle.bison_findings.specs.Conflicts.{all_unmet, is_listed};
ghost use Rattle.bison_findings.specs.Shown.{unmet};
ghost use Rattle.lr_conflicts.specs.declared.clashes.Clash.{Clash};

use cfgrammar::Span;
use cfgrammar::yacc::ast::GrammarAST;
use lr_conflicts::{Clash, Conflicts};
use std::alloc::{AllocError, Global};
use text_findings::{Finding, FindingKind};

/// Which conflicts are listed.
#[derive(Clone, Copy)]
pub(crate) struct Listing {
    /// Whether those of shifts are.
    pub(crate) shift_reduce: bool,
    /// Whether those of two productions are.
    pub(crate) reduce_reduce: bool,
}

impl Listing {
    /// Whether this one is listed.
    pub(crate) fn has(self, clash: Clash) -> bool
        ensures { result ≡ (if clash.shifts then self.shift_reduce else self.reduce_reduce) }
    {
        if clash.shifts {
            self.shift_reduce
        } else {
            self.reduce_reduce
        }
    }
}

/// Adds the expectations of the file that aren't met, and says which conflicts are listed.
pub(crate) fn push_unmet(
    alloc: Global,
    all: &mut Vec<Finding>,
    ast: &GrammarAST,
    conflicts: &Conflicts,
) -> Result<Listing, AllocError>
    ensures unmet { OnOk result (all.new.items
        ≡ all.old.items ++ all_unmet (syntax ast.now).settings conflicts.now.conflicts) }
    ensures listing { IfOk result (λ listing. (clash : Clash) → (if clash.shifts then listing.shift_reduce
        else listing.reduce_reduce)
        ≡ is_listed (syntax ast.now).settings (all_unmet (syntax ast.now).settings conflicts.now.conflicts) clash) }
{
    let before = all.len();
    let expect = ast.expect();
    let expectrr = ast.expectrr();
    push_number(
        alloc,
        all,
        "Shift/reduce conflicts: ",
        conflicts.shift_reduce(),
        *expect,
    )?;
    push_number(
        alloc,
        all,
        "Reduce/reduce conflicts: ",
        conflicts.reduce_reduce(),
        *expectrr,
    )?;
    let unmet = before < all.len();
    Ok(Listing {
        shift_reduce: is_listed(unmet, expect),
        reduce_reduce: is_listed(unmet, expectrr),
    })
}

/// Whether conflicts are listed of which so many are expected: they are if any expectation isn't met.
fn is_listed(unmet: bool, expected: &Option<(usize, Span)>) -> bool
    ensures { result ≡ unmet || not (is_some expected.now) }
{
    unmet || expected.is_none()
}

/// Adds that there are so many conflicts, if another number is expected.
fn push_number(
    alloc: Global,
    all: &mut Vec<Finding>,
    title: &str,
    found: usize,
    expected: Option<(usize, Span)>,
) -> Result<(), AllocError>
    ensures { OnOk result (all.new.items ≡ all.old.items ++ unmet title.now found expected) }
{
    let Some((number, span)) = expected else {
        return Ok(());
    };
    if number == found {
        return Ok(());
    }
    let text = format!(in alloc; "{title}{found} found, {number} expected")?;
    all.push(Finding::at(alloc, FindingKind::UnmetExpect, span, text)?)?;
    Ok(())
}
