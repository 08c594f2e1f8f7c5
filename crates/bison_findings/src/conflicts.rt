//! Findings about conflicts: where a grammar isn't LALR(1), and expectations of conflicts that aren't met.

ghost use Rattle.std.specs.Prelude.{◌≡◌, ◌++◌, OnOk};
ghost use Rattle.cfgrammar.specs.TreeView.{syntax};
ghost use Rattle.bison_findings.specs.Conflicts.{AreConflictFindings};

use crate::expectations::{Listing, push_unmet};
use crate::grouped::push_grouped;
use cfgrammar::bison::Associativity;
use cfgrammar::yacc::YaccGrammar;
use cfgrammar::yacc::ast::GrammarAST;
use lr_conflicts::Conflicts;
use std::alloc::{AllocError, Global};
use text_findings::Finding;

/// Adds the findings about conflicts: first the expectations of the file that aren't met, and then a finding for each
/// two productions that are in conflict, with all tokens at which they are. The first 20 of these have an example as
/// their note. `ast` is the tree of the file, and `grammar` its numbers. `associativities` says how the operators of
/// each level of precedences associate, as a `BisonFile` does; of a level that isn't in the list, the tokens
/// themselves say it.
///
/// # Errors
///
/// Out of memory.
pub fn push_conflicts(
    alloc: Global,
    all: &mut Vec<Finding>,
    ast: &GrammarAST,
    grammar: &YaccGrammar<u32>,
    associativities: &[Associativity],
) -> Result<(), AllocError>
    ensures { OnOk result ((reported : _)
        × AreConflictFindings grammar.now associativities.now (syntax ast.now).settings reported
        × (all.new.items ≡ all.old.items ++ reported)) }
{
    let conflicts = Conflicts::of(alloc, grammar, associativities)?;
    let listing = push_unmet(alloc, all, ast, &conflicts)?;
    push_grouped(alloc, all, grammar, &conflicts, listing)
}
