//! Precedences of tokens that aren't used.

ghost use Rattle.std.specs.Prelude.{◌≡◌, ◌++◌, length, map, IfOk, OnOk};
ghost use Rattle.cfgrammar.specs.Syntax.{entry_name};
ghost use Rattle.cfgrammar.specs.SyntaxView.{span_entry};
ghost use Rattle.cfgrammar.specs.TreeView.{syntax};
ghost use Rattle.cfgfindings.specs.Findings.{IsUsed, ReportsBelow, ReportsUnusedPrecedence};
ghost use Rattle.cfgfindings.specs.Inner.Marks.{AreMarked, Marks, precedence_keys};

use crate::marks::{Table, mark, mark_productions};
use cfgrammar::yacc::ast::GrammarAST;
use cfgrammar::{Span, Vob};
use indexmap::IndexMap;
use std::alloc::{AllocError, Global};
use text_findings::{Finding, FindingKind, Reporter, push_reported};

/// Adds the tokens that are given a precedence but aren't used to the findings.
///
/// # Errors
///
/// Out of memory.
pub(crate) fn push_precedences(
    alloc: Global,
    all: &mut Vec<Finding>,
    ast: &GrammarAST,
) -> Result<(), AllocError>
    ensures { OnOk result ((reported : _) × ReportsBelow (ReportsUnusedPrecedence (syntax ast.now))
        (length (syntax ast.now).tables.precedences) reported × (all.new.items ≡ all.old.items ++ reported)) }
{
    let used = used_tokens(alloc, ast)?;
    let unused = UnusedPrecedences { ast, used };
    push_reported(alloc, all, &unused, ast.precs().len())
}

/// Reports tokens that are given a precedence but aren't used.
#[derive(Drop)]
struct UnusedPrecedences<'a> {
    ast: &'a GrammarAST,
    /// Whether the token is used, in the order of the precedences.
    used: Vob,
}

impl Reporter for UnusedPrecedences<'_> {
    ghost use Rattle.std.specs.Prelude.{length};
    ghost use Rattle.cfgrammar.specs.TreeView.{syntax};
    ghost use Rattle.cfgfindings.specs.Findings.{IsUsed, ReportsUnusedPrecedence};
    ghost use Rattle.cfgfindings.specs.Inner.Marks.{AreMarked, precedence_keys};

    ghost count = { λ x. length (syntax x.ast.now).tables.precedences };

    ghost reports = { λ x n reported.
        AreMarked (precedence_keys (syntax x.ast.now)) (IsUsed (syntax x.ast.now)) x.used
        → ReportsUnusedPrecedence (syntax x.ast.now) n reported };

    fn report(&self, alloc: Global, number: usize) -> Result<Option<Finding>, AllocError> {
        let is_used = self.used.get(number).unwrap_or(false);
        if is_used {
            return Ok(None);
        }
        let Some((name, (_, span))) = self.ast.precs().get_index(number) else {
            return Ok(None);
        };
        let text = format!(in alloc;
            "Unused precedence: token '{name}' is not a symbol of any production, and none takes its precedence from it"
        )?;
        Ok(Some(Finding::at(alloc, FindingKind::UnusedPrecedence, *span, text)?))
    }
}

/// For each token that is given a precedence, in order, whether it is used.
fn used_tokens(alloc: Global, ast: &GrammarAST) -> Result<Vob, AllocError>
    ensures { IfOk result (AreMarked (precedence_keys (syntax ast.now)) (IsUsed (syntax ast.now))) }
{
    let mut used = Vob::from_elem(alloc, false, ast.precs().len())?;
    mark_productions(ast, Table::Precedences, &mut used);
    if let Some(table) = ast.implicit_tokens() {
        mark_table(ast, &mut used, table);
    }
    Ok(used)
}

/// Marks the tokens of a table.
fn mark_table(ast: &GrammarAST, used: &mut Vob, table: &IndexMap<String, Span>)
    requires { length used.old ≡ length (precedence_keys (syntax ast.now)) }
    ensures { Marks (precedence_keys (syntax ast.now)) (map entry_name (map span_entry table.now.entries))
        used.old used.new }
{
    for index in 0..table.len() {
        if let Some((name, _)) = table.get_index(index) {
            mark(ast, Table::Precedences, used, name);
        }
    }
}
