//! Findings about what a file seems to lack.

ghost use Rattle.std.specs.Prelude.{◌≡◌, ◌++◌, OnOk};
ghost use Rattle.cfgrammar.specs.TreeView.{syntax};
ghost use Rattle.text_findings.specs.File.{AreFileFindings};

use crate::empty::push_missing_empty;
use crate::finding::Finding;
use crate::keys::push_unknown_keys;
use crate::precedences::push_undefined_precedences;
use crate::references::push_unknown_references;
use crate::swallowed::push_swallowed;
use crate::values::push_unread_values;
use cfgrammar::yacc::ast::GrammarAST;
use std::alloc::{AllocError, Global};

/// Adds what a file seems to lack to the findings: precedences of tokens that a `%prec` names, `%empty`, the `:` after
/// a rule's type, what makes a key of its section known, symbols before an action that refers to them, and
/// actions after one that read its value.
///
/// # Errors
///
/// Out of memory.
pub fn push_file_findings(
    alloc: Global,
    all: &mut Vec<Finding>,
    text: &str,
    ast: &GrammarAST,
) -> Result<(), AllocError>
    ensures { OnOk result ((found : _) × AreFileFindings text.now (syntax ast.now) found
        × (all.new.items ≡ all.old.items ++ found)) }
{
    push_undefined_precedences(alloc, all, ast)?;
    push_missing_empty(alloc, all, text, ast)?;
    push_swallowed(alloc, all, ast)?;
    push_unknown_keys(alloc, all, text)?;
    push_unknown_references(alloc, all, text, ast)?;
    push_unread_values(alloc, all, ast)
}
