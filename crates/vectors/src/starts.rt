//! Row `another-start`: a tree with another start, and a tree that is changed.

use crate::made::{Shown, show};
use crate::page::Page;
use crate::rows::Word;
use crate::trees::{write_spans, write_warnings};
use cfgrammar::Span;
use cfgrammar::yacc::ast::{ASTWithValidityInfo, GrammarAST, Rule, StartFault};
use cfgrammar::yacc::{YaccFault, YaccGrammar};
use std::alloc::{AllocError, Global};

/// Writes what was read, what it is with the start B and with C, which is no rule, and what it is then; and a clone of
/// its tree in which B is added again.
pub(crate) fn write_starts(page: &mut Page, parsed: &ASTWithValidityInfo) {
    write_start(page, parsed);
    for (name, span) in [("B", Span::new(22, 23)), ("C", Span::new(0, 1))] {
        let changed = restarted(page.alloc, parsed, name, span);
        show_restarted(page, changed);
    }
    write_start(page, parsed);
    let cloned = parsed.ast().clone().map_err(YaccFault::from);
    let word = Word {
        word: "added",
        text: "",
    };
    show(page, &word, cloned);
}

/// What was read, with a rule of this name and span as its start.
fn restarted(
    alloc: Global,
    parsed: &ASTWithValidityInfo,
    name: &str,
    span: Span,
) -> Result<ASTWithValidityInfo, StartFault> {
    let name = String::from_str(alloc, name)?;
    let rule = Rule {
        name: (name, span),
        pidxs: Vec::new(alloc),
        actiont: None,
    };
    parsed.clone_and_change_start_rule(alloc, rule)
}

/// Writes a tree with another start and its productions, or why it can't have that start.
fn show_restarted(page: &mut Page, changed: Result<ASTWithValidityInfo, StartFault>) {
    match changed {
        Ok(changed) => {
            write_start(page, &changed);
            let grammar = YaccGrammar::<u32>::new_from_ast_with_validity_info(page.alloc, &changed);
            let word = Word {
                word: "print_productions",
                text: "",
            };
            show(page, &word, grammar);
        }
        Err(StartFault::Modification(error)) => writeln!(page, "{error}"),
        Err(StartFault::OutOfMemory) => page.tear(),
    }
}

/// Writes the start of what was read, and its warnings.
fn write_start(page: &mut Page, parsed: &ASTWithValidityInfo) {
    if let Some((name, span)) = parsed.ast().start() {
        write!(page, "start {name}");
        write_spans(page, &[*span]);
    }
    write_warnings(page, parsed.ast());
}

impl Shown<GrammarAST> for Word<'_> {
    fn show(&self, page: &mut Page, ast: &mut GrammarAST) {
        if add_rule(page.alloc, ast).is_err() {
            return page.tear();
        }
        for (name, rule) in ast.rules() {
            writeln!(page, "rule {name}: {:?}", rule.pidxs);
        }
        write_warnings(page, ast);
    }
}

/// Adds the rule B again, and an empty production to it.
fn add_rule(alloc: Global, ast: &mut GrammarAST) -> Result<(), AllocError> {
    let nowhere = Span::new(0, 0);
    let name = String::from_str(alloc, "B")?;
    ast.add_rule((name.clone()?, nowhere), None)?;
    ast.add_prod(name, Vec::new(alloc), None, None, nowhere)
}
