//! What a Yacc or Bison file says, item by item. A symbol, a number or code is given by the word that it is: its index
//! among all words.

/// How operators of one level associate.
#[derive(Clone, Copy, Debug)]
pub enum Associativity {
    /// `%left`: `a + b + c` is `(a + b) + c`.
    Left,
    /// `%right`: it is `a + (b + c)`.
    Right,
    /// `%nonassoc`: it is an error.
    Nonassoc,
    /// `%precedence`: only the level counts.
    OnlyPrecedence,
}

/// An item.
#[derive(Drop)]
pub enum Item {
    /// A declaration says that this symbol is a token.
    Token(usize),
    /// The string that is another name of the token.
    Alias { token: usize, string: usize },
    /// `%nterm` says that this symbol is a rule.
    Rule(usize),
    /// What `%nterm` can't have: a literal, a number or a string.
    NotForRules(usize),
    /// A symbol in a list that says of none whether it is a token.
    Symbol(usize),
    /// A token of a level of precedences.
    Precedence(Associativity, usize),
    /// The end of such a level.
    LevelEnd(Associativity),
    /// A symbol that `%start` names.
    Start(usize),
    /// The number of shift/reduce conflicts.
    Expect(usize),
    /// The number of reduce/reduce conflicts.
    ExpectReduceReduce(usize),
    /// Whether a production without `%prec` has the precedence of its last token.
    DefaultPrecedence(bool),
    /// The name of a rule, which its colon follows.
    Head(usize),
    Production(Production),
    /// A word that can't be here, and what may be.
    Unexpected(usize, Expected),
}

/// A production without faults: its rule's name, the word at which it begins, and its parts.
#[derive(Drop)]
pub struct Production {
    pub rule: usize,
    pub start: usize,
    pub parts: Vec<Part>,
}

/// A part of a production: its main word, and its last one.
#[derive(Clone, Copy)]
pub struct Part {
    pub kind: PartKind,
    pub word: usize,
    pub last: usize,
}

#[derive(Clone, Copy)]
pub enum PartKind {
    Symbol,
    /// Code; its main word is the code.
    Action,
    Predicate,
    /// `%prec`; its last word is the symbol.
    Precedence,
    Empty,
    /// `%dprec`; its last word is the number.
    DynamicPrecedence,
    /// `%merge`, `%expect` or `%expect-rr`.
    Other,
}

/// What may be where a word can't be.
#[derive(Clone, Copy, Debug)]
pub enum Expected {
    /// A declaration, or `%%`.
    Declaration,
    /// A rule, or a declaration that may be among rules.
    Rule,
    /// A part of a production, or what ends one.
    Part,
    /// The name of a token: an identifier or a literal.
    TokenName,
    /// A symbol.
    Symbol,
    /// A symbol or a tag.
    SymbolOrTag,
    /// An identifier.
    Identifier,
    /// A number.
    Number,
    /// A string.
    String,
    /// Code in braces.
    Code,
    /// A tag.
    Tag,
    /// A colon.
    Colon,
    /// A semicolon.
    Semicolon,
}
