//! How tokens bind, as precedence declarations say (Aho, Johnson and Ullman, "Deterministic parsing of ambiguous
//! grammars"; POSIX, yacc).

/// How operators of one level group when one follows another.
#[derive(Clone, Copy, Debug, PartialEq, Eq)]
pub enum AssocKind {
    /// `%left`: `a - b - c` is `(a - b) - c`.
    Left,
    /// `%right`: `a = b = c` is `a = (b = c)`.
    Right,
    /// `%nonassoc`: `a < b < c` is not a sentence.
    Nonassoc,
}

/// How strongly a token binds.
#[derive(Clone, Copy, Debug, PartialEq, Eq)]
pub struct Precedence {
    /// How many precedence declarations precede the token's own: the greater the number, the stronger it binds.
    pub level: u64,
    /// How it groups with tokens of the same level.
    pub kind: AssocKind,
}
