//! All findings about a grammar.

ghost use Rattle.std.specs.Prelude.{◌≡◌, ◌++◌, IfOk, OnOk};
ghost use Rattle.cfgrammar.specs.TreeView.{syntax};
ghost use Rattle.cfgfindings.specs.Findings.{AreFindings, AreReportedInTurn};

use crate::cyclic_rules::push_cycles;
use crate::declarations::push_declarations;
use crate::needless::push_needless;
use crate::precedences::push_precedences;
use crate::repeats::push_repeats;
use crate::sentences::{Unproductive, push_unusable};
use crate::unproductive_rules::push_unproductive;
use crate::unused::push_unused;
use crate::useless::push_useless;
use bison_findings::{push_bison_findings, push_conflicts};
use cfgrammar::bison::Associativity;
use cfgrammar::yacc::YaccGrammar;
use cfgrammar::yacc::ast::GrammarAST;
use std::alloc::{AllocError, Global};
use text_findings::{Finding, push_escaped, push_file_findings, push_glued, push_implicitly_empty};

/// The findings about a grammar without errors, by offset; those at the same offset are in the order of
/// [`FindingKind`](crate::FindingKind). `ast` is the tree of the text, and `grammar` its numbers. Where the two say
/// nothing, as of the words of the file, the text decides, read as a file of its kind or, for what only Bison files
/// have, as one of those. `associativities` says how the operators of each level of
/// precedences associate, as a `BisonFile` does; of a level that isn't in the list, the tokens themselves say it.
///
/// # Errors
///
/// Out of memory.
pub fn findings(
    alloc: Global,
    text: &str,
    ast: &GrammarAST,
    grammar: &YaccGrammar<u32>,
    associativities: &[Associativity],
) -> Result<Vec<Finding>, AllocError>
    ensures { IfOk result (λ all. AreFindings text.now (syntax ast.now) grammar.now
        associativities.now all.items) }
{
    let mut all = Vec::new(alloc);
    push_findings(alloc, &mut all, text, ast, grammar, associativities)?;
    all.sort_by_key(|finding| finding.offset())?;
    Ok(all)
}

/// Adds the findings in the order of their kinds.
fn push_findings(
    alloc: Global,
    all: &mut Vec<Finding>,
    text: &str,
    ast: &GrammarAST,
    grammar: &YaccGrammar<u32>,
    associativities: &[Associativity],
) -> Result<(), AllocError>
    ensures { OnOk result ((reported : _)
        × AreReportedInTurn text.now (syntax ast.now) grammar.now associativities.now reported
        × (all.new.items ≡ all.old.items ++ reported)) }
{
    let unproductive = Unproductive::new(alloc, grammar)?;
    push_unused(alloc, all, ast)?;
    push_unproductive(alloc, all, ast, &unproductive)?;
    push_unusable(alloc, all, &unproductive)?;
    push_useless(alloc, all, &unproductive)?;
    push_cycles(alloc, all, grammar)?;
    push_repeats(alloc, all, grammar)?;
    push_precedences(alloc, all, ast)?;
    push_declarations(alloc, all, ast)?;
    push_glued(alloc, all, text, ast)?;
    push_needless(alloc, all, ast, &unproductive)?;
    push_escaped(alloc, all, ast)?;
    push_implicitly_empty(alloc, all, text, ast)?;
    push_conflicts(alloc, all, ast, grammar, associativities)?;
    push_file_findings(alloc, all, text, ast)?;
    push_bison_findings(alloc, all, text)?;
    Ok(())
}
