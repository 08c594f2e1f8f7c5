//! The section of a text by itself.

use crate::page::Page;
use crate::trees::write_spans;
use cfgrammar::header::{GrmtoolsSectionParser, Header, HeaderFault};
use cfgrammar::{Span, Spanned};

/// Writes where the section of a text ends and, if that is shown, what each key holds; or its errors.
pub(crate) fn write_section(page: &mut Page, text: &str, is_shown: bool) {
    match GrmtoolsSectionParser::new(text, true).parse(page.alloc) {
        Ok((header, end)) => {
            writeln!(page, "ends at {end}");
            if is_shown {
                write_header(page, &header);
            }
        }
        Err(HeaderFault::Errors(errors)) => {
            for error in &errors {
                write!(page, "{:?}", error.kind);
                write_spans(page, error.spans());
            }
        }
        Err(HeaderFault::OutOfMemory) => page.tear(),
    }
}

/// Writes what each key of a section holds.
fn write_header(page: &mut Page, header: &Header<Span>) {
    for (key, value) in header {
        writeln!(page, "{key}: {:?}", value.1);
    }
}

/// Row `hostile`: sections with 127 and 128 open brackets.
pub(crate) fn write_nesting(page: &mut Page) {
    for count in [127, 128] {
        let mut text = Page::new(page.alloc);
        write!(text, "{}", "%grmtools {a: ");
        text.write_times("[", count);
        text.write_times("]", 127);
        write!(text, "{}", "}");
        writeln!(
            page,
            "\n== hostile-nesting\n%grmtools {{a: [..]}}\n-- {count} and 127 brackets"
        );
        match text.text() {
            Ok(text) => write_section(page, text, false),
            Err(_) => page.tear(),
        }
    }
}
