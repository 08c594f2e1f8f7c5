//! What only Bison's files have.

ghost use Rattle.std.specs.Prelude.{◌↔◌, IsTrue, map};
ghost use Rattle.cfglint.specs.Signs.{HasBisonSign, HasOneOf};

/// What the library's kinds of Yacc don't have: most of Bison's declarations, and tags in the others.
const BISON_SIGNS: [&str; 33] = [
    "%{",
    "%union",
    "%type",
    "%define",
    "%code",
    "%nterm",
    "%precedence",
    "%destructor",
    "%printer",
    "%locations",
    "%debug",
    "%pure-parser",
    "%pure_parser",
    "%lex-param",
    "%name-prefix",
    "%require",
    "%skeleton",
    "%language",
    "%defines",
    "%token-table",
    "%error-verbose",
    "%initial-action",
    "%glr-parser",
    "%binary",
    "%term",
    "%token <",
    "%token<",
    "%left <",
    "%left<",
    "%right <",
    "%right<",
    "%nonassoc <",
    "%nonassoc<",
];

/// Whether a text has something that only Bison's files have.
pub(crate) fn has_bison_sign(text: &str) -> bool
    ensures { IsTrue result ↔ HasBisonSign text.now }
{
    has_one_of(text, &BISON_SIGNS)
}

/// Whether a text has one of these words.
fn has_one_of(text: &str, words: &[&str]) -> bool
    ensures { IsTrue result ↔ HasOneOf text.now (map (λ word. word.now) words.now) }
{
    for word in words {
        if text.contains(*word) {
            return true;
        }
    }
    false
}
