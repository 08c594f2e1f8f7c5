//! A caller's own key in the section of a file.

use cfgrammar::Span;
use cfgrammar::header::{GrmtoolsSectionParser, Header, HeaderFault, HeaderValue, Setting, Value};
use cfgrammar::markmap::Entry;
use std::alloc::{AllocError, Global};

/// What the section of a file gives the key `indent`, and the keys that it should not have.
///
/// # Errors
///
/// The errors of the section, or out of memory.
pub fn print_indent(alloc: Global, text: &str) -> Result<String, HeaderFault> {
    let (mut header, _) = GrmtoolsSectionParser::new(text, false).parse(alloc)?;
    Ok(indent_of(alloc, &mut header)?)
}

fn indent_of(alloc: Global, header: &mut Header<Span>) -> Result<String, AllocError> {
    let mut lines = String::new(alloc);
    for key in ["yacckind", "indent"] {
        if let Entry::Occupied(mut entry) = header.entry(String::from_str(alloc, key)?) {
            entry.mark_used();
            if let HeaderValue(_, Value::Setting(Setting::Num(number, _))) = entry.get() {
                writeln!(lines, "{key} {number}")?;
            }
        }
    }
    for key in &header.unused(alloc)? {
        writeln!(lines, "unknown key {key}")?;
    }
    Ok(lines)
}
