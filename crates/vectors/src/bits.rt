//! Row `bit-words`: lists of bits.

use crate::page::Page;
use cfgrammar::Vob;

/// Writes what the calls on lists of 65 bits return.
pub(crate) fn write_bits(page: &mut Page) {
    let Ok(mut bits) = Vob::from_elem(page.alloc, false, 65) else {
        return page.tear();
    };
    let Ok(mut equal) = Vob::from_elem(page.alloc, false, 65) else {
        return page.tear();
    };
    let Ok(ones) = Vob::from_elem(page.alloc, true, 65) else {
        return page.tear();
    };
    let bits: &mut Vob = &mut bits;
    let (is_changed, again) = (bits.set(64, true), bits.set(64, true));
    equal.set(64, true);
    writeln!(
        page,
        "\n== bit-words\nset: {is_changed}, again: {again}, get: {:?}",
        bits.get(65)
    );
    let (of_equal, of_ones) = (bits.or(&equal), bits.or(&ones));
    let is_equal = *bits == ones;
    writeln!(
        page,
        "or: {of_equal}, with ones: {of_ones}, then {} bits, equal: {is_equal}",
        bits.len()
    );
}
