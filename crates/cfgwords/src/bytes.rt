ghost use Rattle.std.specs.Prelude.{◌≡◌};

/// A class of bytes, decided by ASCII bytes.
#[derive(Clone, Copy, Debug, PartialEq, Eq)]
pub enum ByteClass {
    /// A space, a tab, a CR or an LF.
    Blank,
    /// A CR or an LF.
    LineEnd,
    /// Any byte but a CR or an LF.
    Line,
    /// A double or a single quote.
    Quote,
    /// A letter.
    Letter,
    /// What a name begins with: a letter, `_` or `.`.
    NameStart,
    /// What a name continues with: the same, or a digit.
    NameByte,
    /// What an identifier begins with: a letter or `_`.
    IdentifierStart,
    /// What an identifier continues with: the same, or a digit.
    IdentifierByte,
    /// A decimal digit.
    Digit,
}

impl ByteClass {
    ghost use Rattle.cfgwords.specs.Bytes.{holds};

    /// Whether the byte is in this class.
    pub fn holds(self, b: u8) -> bool
        ensures { result ≡ holds self b }
    {
        match self {
            ByteClass::Blank => matches!(b, b' ' | b'\t' | b'\n' | b'\r'),
            ByteClass::LineEnd => matches!(b, b'\n' | b'\r'),
            ByteClass::Line => !matches!(b, b'\n' | b'\r'),
            ByteClass::Quote => matches!(b, b'"' | b'\''),
            ByteClass::Letter => b.is_ascii_alphabetic(),
            ByteClass::NameStart => b.is_ascii_alphabetic() || b == b'_' || b == b'.',
            ByteClass::NameByte => b.is_ascii_alphanumeric() || b == b'_' || b == b'.',
            ByteClass::IdentifierStart => b.is_ascii_alphabetic() || b == b'_',
            ByteClass::IdentifierByte => b.is_ascii_alphanumeric() || b == b'_',
            ByteClass::Digit => b.is_ascii_digit(),
        }
    }
}
