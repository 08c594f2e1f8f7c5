//! The kinds of findings, and the words that name them.

ghost use Rattle.std.specs.Prelude.{◌≡◌};
ghost use Rattle.finding_kinds.specs.FindingKinds.{finding_named, number, word_of};

/// The kind of a finding about a grammar without errors.
#[derive(Clone, Copy, Debug, PartialEq, Eq)]
pub enum FindingKind {
    /// The rule isn't reachable from the start rule.
    UnusedRule,
    /// The token isn't reachable from the start rule, and no production's `%prec` names it.
    UnusedToken,
    /// No production contains the rule, since its name there is that of a token.
    ShadowedRule,
    /// The start rule derives no list of tokens.
    StartWithoutSentence,
    /// The rule derives no list of tokens, and no other rule is the reason: each unproductive rule that it leads to
    /// leads back to it. None of them is the start rule.
    NoSentence,
    /// The rule, which isn't the start rule, derives no list of tokens since others don't.
    UnusableRule,
    /// No sentence of the production's rule uses it, since it contains an unproductive rule.
    UnusableProduction,
    /// No sentence of the start rule uses the symbol, although productions connect it to the start rule.
    UselessSymbol,
    /// The rule is cyclic, so each of its sentences has infinitely many parse trees.
    CyclicRule,
    /// The rule has an earlier production with the same symbols, so each sentence by one of the two has two parse
    /// trees.
    RepeatedProduction,
    /// The token is given a precedence, but is in no production, and no production takes its precedence from it.
    UnusedPrecedence,
    /// A `%token` list has the token, and such a list has it before.
    RepeatedToken,
    /// A later `%prec` of its production counts, and not this one.
    OverriddenPrecedence,
    /// No blank is between a declaration's keyword and its first name, so the two look like another keyword.
    GluedKeyword,
    /// An `%expect-unused` list has the symbol, which is reachable from the start rule.
    NeedlessExpectUnused,
    /// The token's name begins with a backslash: a quoted text has no escapes.
    EscapedToken,
    /// The production has no symbols, and no `%empty` says so.
    ImplicitEmpty,
    /// Where the production is read, it may be reduced, and the next token may also be shifted.
    ShiftReduce,
    /// Where the production is read, an earlier one is too, and the next token may come after both.
    ReduceReduce,
    /// An `%expect` or `%expect-rr` has another number than there are conflicts.
    UnmetExpect,
    /// The production's `%prec` names a token that is given no precedence. In files of most kinds that is an error.
    UndefinedPrecedence,
    /// The production has no symbols, and no `%empty` says so, as it does in another production.
    MissingEmpty,
    /// The text of the rule's type goes on to the next rule's: a `;` is in it, and a `->` after that.
    SwallowedRule,
    /// The section of a file has the key, which nothing that reads grammars looks for.
    UnknownKey,
    /// The action refers to a symbol that doesn't come before it, as `$6` where there are three.
    UnknownReference,
    /// The action inside of a production of a Bison file sets its value, which no later action reads.
    UnreadValue,
    /// A `%define` of a Bison file has a variable or a value that is unknown, but near to a known one.
    MisspelledDefine,
    /// A `%token` list of a Bison file gives the token an alias that a token has already.
    RepeatedAlias,
    /// A comma stands between words of a Bison file, where it is a blank.
    StrayComma,
}

/// The kinds, in order.
pub(crate) const KINDS: [FindingKind; 29] = [
    FindingKind::UnusedRule,
    FindingKind::UnusedToken,
    FindingKind::ShadowedRule,
    FindingKind::StartWithoutSentence,
    FindingKind::NoSentence,
    FindingKind::UnusableRule,
    FindingKind::UnusableProduction,
    FindingKind::UselessSymbol,
    FindingKind::CyclicRule,
    FindingKind::RepeatedProduction,
    FindingKind::UnusedPrecedence,
    FindingKind::RepeatedToken,
    FindingKind::OverriddenPrecedence,
    FindingKind::GluedKeyword,
    FindingKind::NeedlessExpectUnused,
    FindingKind::EscapedToken,
    FindingKind::ImplicitEmpty,
    FindingKind::ShiftReduce,
    FindingKind::ReduceReduce,
    FindingKind::UnmetExpect,
    FindingKind::UndefinedPrecedence,
    FindingKind::MissingEmpty,
    FindingKind::SwallowedRule,
    FindingKind::UnknownKey,
    FindingKind::UnknownReference,
    FindingKind::UnreadValue,
    FindingKind::MisspelledDefine,
    FindingKind::RepeatedAlias,
    FindingKind::StrayComma,
];

impl FindingKind {
    /// The number of the kind.
    pub(crate) fn number(self) -> usize
        ensures { result ≡ number self }
    {
        self as usize
    }

    /// The word that names the kind in arguments and in reports, as `unused-rule`.
    pub fn word(self) -> &'static str
        ensures { result.now ≡ word_of self }
    {
        match self {
            FindingKind::UnusedRule => "unused-rule",
            FindingKind::UnusedToken => "unused-token",
            FindingKind::ShadowedRule => "shadowed-rule",
            FindingKind::StartWithoutSentence => "start-without-sentence",
            FindingKind::NoSentence => "no-sentence",
            FindingKind::UnusableRule => "unusable-rule",
            FindingKind::UnusableProduction => "unusable-production",
            FindingKind::UselessSymbol => "useless-symbol",
            FindingKind::CyclicRule => "cyclic-rule",
            FindingKind::RepeatedProduction => "repeated-production",
            FindingKind::UnusedPrecedence => "unused-precedence",
            FindingKind::RepeatedToken => "repeated-token",
            FindingKind::OverriddenPrecedence => "overridden-precedence",
            FindingKind::GluedKeyword => "glued-keyword",
            FindingKind::NeedlessExpectUnused => "needless-expect-unused",
            FindingKind::EscapedToken => "escaped-token",
            FindingKind::ImplicitEmpty => "implicit-empty",
            FindingKind::ShiftReduce => "shift-reduce",
            FindingKind::ReduceReduce => "reduce-reduce",
            FindingKind::UnmetExpect => "unmet-expect",
            FindingKind::UndefinedPrecedence => "undefined-precedence",
            FindingKind::MissingEmpty => "missing-empty",
            FindingKind::SwallowedRule => "swallowed-rule",
            FindingKind::UnknownKey => "unknown-key",
            FindingKind::UnknownReference => "unknown-reference",
            FindingKind::UnreadValue => "unread-value",
            FindingKind::MisspelledDefine => "misspelled-define",
            FindingKind::RepeatedAlias => "repeated-alias",
            FindingKind::StrayComma => "stray-comma",
        }
    }

    /// The kind that a word names, byte for byte.
    pub fn of_word(word: &str) -> Option<FindingKind>
        ensures { result ≡ finding_named word.now }
    {
        KINDS.iter().copied().find(|kind| kind.word() == word)
    }
}
