//! Classes of bytes.

ghost use Rattle.std.specs.Prelude.{◌≡◌};
ghost use Rattle.bison_words.specs.Bytes.{is_odd, is_escape};

/// A class of bytes, decided by ASCII bytes.
#[derive(Clone, Copy)]
pub enum Class {
    /// Any byte.
    Any,
    /// A byte of a blank that isn't an LF: a space, a tab, a VT, an FF, a CR or a comma.
    Blank,
    /// A space, a tab, a VT, an FF, a CR or an LF.
    Space,
    /// A space, a tab, a VT or an FF.
    Gap,
    /// Any byte but an LF.
    Line,
    /// What an identifier begins with: a letter, `_` or `.`.
    Letter,
    /// What an identifier continues with: the same, a digit or `-`.
    NameByte,
    /// A decimal digit.
    Digit,
    /// A hexadecimal digit.
    Hexadecimal,
    /// An octal digit.
    Octal,
    /// No letter (`.` is none here), digit or blank, and none of ``[%<>{}"'*;|=/``.
    Odd,
    /// `;`, `|` or `=`.
    Mark,
    /// `"` or `'`.
    Quote,
    /// Between quotes: any byte but a quote, a backslash, an LF and a NUL.
    Quoted,
    /// What follows the backslash of an escape that is one character.
    Escape,
    /// In a comment of code: any byte but `*`.
    Comment,
    /// In a line comment of code: any byte but a backslash and an LF.
    CommentLine,
    /// Between quotes of code: any byte but a quote, a backslash and an LF.
    CodeQuoted,
    /// In code: any byte but a quote, a brace, `/`, `<` and `%`.
    CodeByte,
    /// In a tag: any byte but `<`, `>` and `-`.
    TagByte,
}

impl Class {
    ghost use Rattle.bison_words.specs.Bytes.{holds};

    /// Whether the byte is in this class.
    pub fn holds(self, b: u8) -> bool
        ensures { result ≡ holds self b }
    {
        match self {
            Class::Any => true,
            Class::Blank => matches!(b, b' ' | b'\t' | 11 | 12 | b'\r' | b','),
            Class::Space => matches!(b, b' ' | b'\t' | 11 | 12 | b'\r' | b'\n'),
            Class::Gap => matches!(b, b' ' | b'\t' | 11 | 12),
            Class::Line => b != b'\n',
            Class::Letter => b.is_ascii_alphabetic() || b == b'_' || b == b'.',
            Class::NameByte => b.is_ascii_alphanumeric() || b == b'_' || b == b'.' || b == b'-',
            Class::Digit => b.is_ascii_digit(),
            Class::Hexadecimal => b.is_ascii_hexdigit(),
            Class::Octal => matches!(b, b'0'..=b'7'),
            Class::Odd => is_odd(b),
            Class::Mark => matches!(b, b';' | b'|' | b'='),
            Class::Quote => matches!(b, b'"' | b'\''),
            Class::Quoted => !matches!(b, b'"' | b'\'' | b'\\' | b'\n' | 0),
            Class::Escape => is_escape(b),
            Class::Comment => b != b'*',
            Class::CommentLine => !matches!(b, b'\\' | b'\n'),
            Class::CodeQuoted => !matches!(b, b'"' | b'\'' | b'\\' | b'\n'),
            Class::CodeByte => !matches!(b, b'"' | b'\'' | b'{' | b'}' | b'/' | b'<' | b'%'),
            Class::TagByte => !matches!(b, b'<' | b'>' | b'-'),
        }
    }
}

/// Whether the byte is odd: not one of a word's first characters, and not a blank's.
fn is_odd(b: u8) -> bool
    ensures { result ≡ is_odd b }
{
    if b.is_ascii_alphanumeric() || b == b'_' {
        return false;
    }
    !matches!(
        b,
        b' ' | b'\t'
            | 11
            | 12
            | b'\r'
            | b'\n'
            | b','
            | b';'
            | b'['
            | b'%'
            | b'<'
            | b'>'
            | b'{'
            | b'}'
            | b'"'
            | b'\''
            | b'*'
            | b'|'
            | b'='
            | b'/'
    )
}

/// Whether the byte is an escape of one character after a backslash.
fn is_escape(b: u8) -> bool
    ensures { result ≡ is_escape b }
{
    matches!(
        b,
        b'a' | b'b' | b'f' | b'n' | b'r' | b't' | b'v' | b'"' | b'\'' | b'?' | b'\\'
    )
}
