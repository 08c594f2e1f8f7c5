//! The worked rows: each by its name, with all that the public calls return for it; and outputs that fail. People
//! compare what the program writes with docs/BEHAVIOUR.md; the merge gate compares it with what is stored.
#![tactic(auto)]

mod analyses;
mod bits;
mod costs;
mod limits;
mod lines;
mod made;
mod marks;
mod narrow;
mod page;
mod rows;
mod runs;
mod sections;
pub mod signatures;
mod starts;
mod tables;
mod texts;
mod trees;
mod uses;

use crate::page::Page;
use std::io;

fn main(rt: HostRuntime) -> io::Result<()> {
    let mut page = Page::new(rt.alloc());
    rows::write_rows(&mut page, texts::TEXTS);
    runs::write_lexer_lines(&mut page);
    limits::write_limits(&mut page);
    limits::write_chain(&mut page);
    sections::write_nesting(&mut page);
    lines::write_lines(&mut page);
    bits::write_bits(&mut page);
    marks::write_marks(&mut page);
    runs::write_failing(&mut page);
    print!(rt; "{}", page.text()?)
}
