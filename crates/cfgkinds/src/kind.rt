//! The kinds of Yacc.

/// What the actions of a grammar in Johnson's original notation represent.
#[derive(Clone, Copy, Debug, PartialEq, Eq)]
pub enum YaccOriginalActionKind {
    /// The user's own code.
    UserAction,
    /// Nodes of a parse tree that is the same for every grammar.
    GenericParseTree,
    /// Nothing: the grammar is only analysed.
    NoAction,
}

/// The dialect of Yacc that a grammar is written in.
#[derive(Clone, Copy, Debug, PartialEq, Eq)]
pub enum YaccKind {
    /// Johnson's original notation, that of POSIX `yacc`.
    Original(YaccOriginalActionKind),
    /// Grmtools's notation: rules give the type that their actions return.
    Grmtools,
    /// The notation of Eco, the editor: white space and comments may be implicit tokens.
    Eco,
}
