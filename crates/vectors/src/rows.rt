//! The rows that are a text, a kind, and words for what is shown of it.

use crate::analyses::{write_names, write_openings, write_paths, write_set};
use crate::costs::write_sentences;
use crate::made::{Shown, show};
use crate::page::Page;
use crate::runs::{write_beginning, write_run};
use crate::sections::write_section;
use crate::tables::write_tables;
use crate::uses::bison::print_bison;
use crate::uses::errors::show_errors;
use crate::uses::keys::print_indent;
use crate::uses::nullable::print_nullable;
use crate::uses::productions::print_productions;
use crate::uses::repairs::print_repairs;
use crate::uses::tables::print_table;
use cfgrammar::bison::{self, BisonFile};
use cfgrammar::yacc::ast::ASTWithValidityInfo;
use cfgrammar::yacc::{YaccFault, YaccGrammar, YaccKind};
use cfgtool::KindArg;
use cfgtool::kinds::kind_of;
use std::alloc::{AllocError, Global};

/// A word for what is shown of a text.
#[derive(Drop)]
pub(crate) struct Word<'a> {
    pub(crate) word: &'a str,
    pub(crate) text: &'a str,
}

/// Writes each of these rows, which begin with a line that has the row's name, its kind and its words.
pub(crate) fn write_rows(page: &mut Page, rows: &str) {
    for row in rows.split("\n== ").skip(1) {
        write_row(page, row);
    }
}

/// Writes a row: its name, its text, and what each word shows.
fn write_row(page: &mut Page, row: &str) {
    let (head, text) = row.split_once('\n').unwrap_or((row, ""));
    let (name, shown) = head.split_once(' ').unwrap_or((head, ""));
    let (kind, words) = shown.split_once(' ').unwrap_or((shown, ""));
    writeln!(page, "\n== {name}\n{text}");
    for word in words.split(' ') {
        writeln!(page, "-- {kind} {word}");
        write_word(page, kind, Word { word, text });
    }
}

/// Writes what a word shows of a text that is read as this kind.
pub(crate) fn write_word(page: &mut Page, kind: &str, shown: Word<'_>) {
    let Word { word, text } = shown;
    match word {
        "errors" | "symbols" | "starts" | "show_findings" => {
            let parsed = parsed(page.alloc, kind, text);
            show(page, &shown, parsed);
        }
        "grammar" | "firsts" | "follows" | "sentences" | "warnings" => {
            write_run(page, &[kind, word, "-"], text, None)
        }
        "beginning" => write_beginning(page, kind, text),
        "cuts" => write_cuts(page, kind, text),
        "section" => write_section(page, text, true),
        "show_errors" | "print_indent" | "print_bison" => write_guide(page, &shown),
        _ => {
            let grammar = numbered(page.alloc, kind, text);
            show(page, &shown, grammar);
        }
    }
}

/// The kind that a word names, if it isn't the one that a text names.
pub(crate) fn kind_named(kind: &str) -> Option<YaccKind> {
    match kind_of(kind) {
        Some(KindArg::Named(kind)) => Some(kind),
        _ => None,
    }
}

/// What is read of a text.
fn parsed(alloc: Global, kind: &str, text: &str) -> Result<ASTWithValidityInfo, YaccFault> {
    match kind_named(kind) {
        Some(kind) => Ok(ASTWithValidityInfo::new(alloc, kind, text)?),
        None => ASTWithValidityInfo::from_str(alloc, text),
    }
}

/// The grammar of a text.
fn numbered(alloc: Global, kind: &str, text: &str) -> Result<YaccGrammar<u32>, YaccFault> {
    match kind_named(kind) {
        Some(kind) => YaccGrammar::<u32>::new(alloc, kind, text),
        None => YaccGrammar::from_str(alloc, text),
    }
}

/// Writes what is read of each beginning of a text.
fn write_cuts(page: &mut Page, kind: &str, text: &str) {
    for len in 0..=text.len() {
        if let Some(cut) = text.get(..len) {
            writeln!(page, "cut to {len}");
            let parsed = parsed(page.alloc, kind, cut);
            show(
                page,
                &Word {
                    word: "errors",
                    text: cut,
                },
                parsed,
            );
        }
    }
}

/// Writes what a function of the guide returns for a text.
fn write_guide(page: &mut Page, shown: &Word<'_>) {
    let (alloc, text) = (page.alloc, shown.text);
    match shown.word {
        "show_errors" => page.write_made(show_errors(alloc, "list.y", text)),
        "print_indent" => page.write_made(print_indent(alloc, text).map_err(|_| AllocError)),
        _ => show(
            page,
            shown,
            bison::read(alloc, text).map_err(YaccFault::from),
        ),
    }
}

impl Shown<BisonFile> for Word<'_> {
    fn show(&self, page: &mut Page, file: &mut BisonFile) {
        page.write_made(print_bison(page.alloc, file));
    }
}

impl Shown<YaccGrammar<u32>> for Word<'_> {
    fn show(&self, page: &mut Page, grammar: &mut YaccGrammar<u32>) {
        match self.word {
            "tables" => write_tables(page, grammar),
            "paths" => write_paths(page, grammar),
            "set" => write_set(page, grammar),
            "openings" => write_openings(page, grammar),
            "names" => write_names(page, grammar),
            "print_nullable" => page.write_made(print_nullable(page.alloc, grammar)),
            "print_productions" => page.write_made(print_productions(page.alloc, grammar)),
            "print_repairs" => page.write_made(print_repairs(page.alloc, grammar)),
            "print_table" => write_table(page, grammar),
            word => write_sentences(page, word, grammar),
        }
    }
}

/// Writes the table of an LL(1) parser.
fn write_table(page: &mut Page, grammar: &YaccGrammar<u32>) {
    match (grammar.firsts(page.alloc), grammar.follows(page.alloc)) {
        (Ok(firsts), Ok(follows)) => {
            page.write_made(print_table(page.alloc, grammar, (&firsts, &follows)))
        }
        _ => page.tear(),
    }
}
