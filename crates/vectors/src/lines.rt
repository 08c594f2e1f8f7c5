//! Rows `crlf-lines` and `lines-and-columns`.

use crate::page::Page;
use cfgrammar::{NewlineCache, Span};

/// Texts, where each is cut, and the two ends of a span.
const FED: [(&str, usize, usize, usize); 14] = [
    ("a\r\nb", 2, 0, 4),
    ("a\nb\nc", 0, 2, 4),
    ("a\nb\nc\nd\ne", 0, 2, 6),
    ("/*é*/%% A: C;", 0, 12, 13),
    ("\r\n\n", 1, 0, 3),
    ("♠♥\n♦♣", 0, 0, 3),
    ("♠♥\n♦♣", 3, 0, 3),
    ("♠♥\n♦♣", 6, 0, 3),
    ("♠♥\n♦♣", 7, 0, 3),
    ("♠♥\n♦♣", 10, 0, 3),
    ("ab\n", 0, 2, 3),
    ("ab\ncd", 0, 2, 3),
    ("a b c\n", 0, 5, 5),
    ("a b c\n", 0, 6, 6),
];

/// Writes the rows.
pub(crate) fn write_lines(page: &mut Page) {
    writeln!(page, "\n== crlf-lines and lines-and-columns");
    for (text, cut, start, end) in &FED {
        write_fed(page, *text, *cut, (*start, *end));
    }
}

/// Writes where each byte is in a text that is fed in two pieces, and the bytes of the lines that a span touches.
fn write_fed(page: &mut Page, text: &str, cut: usize, (start, end): (usize, usize)) {
    let Some((first, rest)) = text.split_at_checked(cut) else {
        return page.tear();
    };
    let mut cache: NewlineCache = NewlineCache::new(page.alloc);
    let (Ok(()), Ok(())) = (cache.feed(first), cache.feed(rest)) else {
        return page.tear();
    };
    writeln!(page, "-- {first:?} and {rest:?}");
    for byte in 0..text.len() {
        let (line, begin) = (cache.byte_to_line_num(byte), cache.byte_to_line_byte(byte));
        let column = cache.byte_to_line_num_and_col_num(text, byte);
        writeln!(
            page,
            "byte {byte}: line {line:?} from {begin:?}, at {column:?}"
        );
    }
    if start <= end {
        let range = cache.span_line_bytes(Span::new(start, end));
        writeln!(page, "lines of ({start},{end}): {range:?}");
    }
}
