//! Groups of sorts, by what may be at some place.

ghost use Rattle.std.specs.Prelude.{◌≡◌};
ghost use Rattle.bison_reader.specs.Groups.{belongs, ends_production, is_among_rules, is_modifier, is_rule_declaration};
ghost use Rattle.bison_reader.specs.Groups.{is_symbol};

use crate::sort::{Declaration, Sort};

/// What may be at some place.
#[derive(Clone, Copy)]
pub enum Group {
    /// An identifier that isn't the name of a rule before its colon.
    Identifier,
    /// Such an identifier, or a literal.
    TokenName,
    /// Such an identifier, a literal, or a string.
    Symbol,
    /// What `%destructor` and `%printer` list.
    SymbolOrTag,
    String,
    /// A string, or one as `_("..")`.
    AnyString,
    Number,
    Code,
    Predicate,
    Tag,
    Name,
    Colon,
    Semicolon,
    Bar,
    Mark,
    /// The name of a rule before its colon.
    Head,
    /// The value of a `%define`.
    Value,
    /// A directive that declares something.
    Declaration,
    /// One that may also be among the rules.
    RuleDeclaration,
    /// A directive of a production, `%expect` and `%expect-rr` included.
    Modifier,
    /// What declares nothing: `;` or a prologue.
    Ignored,
    /// What isn't a word, of which a fault was found already.
    Fault,
    End,
    /// What is passed after a fault in a declaration: all up to a declaration, a prologue, `%%` or the end.
    InDeclaration,
    /// What is passed after a fault among the rules: all up to a `;`, `%%` or the end.
    InRule,
    /// What ends a production.
    ProductionEnd,
    /// What ends the rules.
    RulesEnd,
    /// Any word.
    Any,
}

/// Whether it may also be among the rules.
pub(crate) fn is_among_rules(declaration: Declaration) -> bool
    ensures { result ≡ is_among_rules declaration }
{
    match declaration {
        Declaration::Tokens
        | Declaration::Rules
        | Declaration::Symbols
        | Declaration::Level(_)
        | Declaration::Start
        | Declaration::NamedCode
        | Declaration::SymbolsCode
        | Declaration::DefaultPrecedence(_) => true,
        Declaration::OnlyCode
        | Declaration::Codes
        | Declaration::Variable
        | Declaration::Expect
        | Declaration::ExpectReduceReduce
        | Declaration::Text
        | Declaration::OptionalText
        | Declaration::Flag => false,
    }
}

impl Group {
    /// Whether words of the sort are of the group. `colon` says whether a colon follows, or a name in brackets and a
    /// colon.
    pub(crate) fn has(self, sort: Sort, colon: bool) -> bool
        ensures { result ≡ belongs self sort colon }
    {
        match self {
            Group::Identifier => matches!(sort, Sort::Identifier) && !colon,
            Group::TokenName => matches!(sort, Sort::Literal)
                || matches!(sort, Sort::Identifier) && !colon,
            Group::Symbol => is_symbol(sort, colon),
            Group::SymbolOrTag => is_symbol(sort, colon)
                || matches!(sort, Sort::Tag | Sort::OtherTag),
            Group::String => matches!(sort, Sort::String),
            Group::AnyString => matches!(sort, Sort::String | Sort::Translatable),
            Group::Number => matches!(sort, Sort::Number),
            Group::Code => matches!(sort, Sort::Code),
            Group::Predicate => matches!(sort, Sort::Predicate),
            Group::Tag => matches!(sort, Sort::Tag),
            Group::Name => matches!(sort, Sort::Name),
            Group::Colon => matches!(sort, Sort::Colon),
            Group::Semicolon => matches!(sort, Sort::Semicolon),
            Group::Bar => matches!(sort, Sort::Bar),
            Group::Mark => matches!(sort, Sort::Mark),
            Group::Head => matches!(sort, Sort::Identifier) && colon,
            Group::Value => matches!(sort, Sort::String | Sort::Code)
                || matches!(sort, Sort::Identifier) && !colon,
            Group::Declaration => matches!(sort, Sort::Declaration(_)),
            Group::RuleDeclaration => is_rule_declaration(sort),
            Group::Modifier => is_modifier(sort),
            Group::Ignored => matches!(sort, Sort::Semicolon | Sort::Prologue),
            Group::Fault => matches!(sort, Sort::Fault),
            Group::End => matches!(sort, Sort::End),
            Group::InDeclaration => !matches!(
                sort,
                Sort::Mark | Sort::Prologue | Sort::Declaration(_) | Sort::End
            ),
            Group::InRule => !matches!(sort, Sort::Semicolon | Sort::Mark | Sort::End),
            Group::ProductionEnd => ends_production(sort, colon),
            Group::RulesEnd => matches!(sort, Sort::Mark | Sort::End),
            Group::Any => true,
        }
    }
}

fn is_symbol(sort: Sort, colon: bool) -> bool
    ensures { result ≡ is_symbol sort colon }
{
    match sort {
        Sort::Identifier => !colon,
        Sort::Literal | Sort::String => true,
        _ => false,
    }
}

fn is_rule_declaration(sort: Sort) -> bool
    ensures { result ≡ is_rule_declaration sort }
{
    match sort {
        Sort::Declaration(declaration) => is_among_rules(declaration),
        _ => false,
    }
}

fn is_modifier(sort: Sort) -> bool
    ensures { result ≡ is_modifier sort }
{
    matches!(
        sort,
        Sort::Modifier(_)
            | Sort::Declaration(Declaration::Expect)
            | Sort::Declaration(Declaration::ExpectReduceReduce)
    )
}

fn ends_production(sort: Sort, colon: bool) -> bool
    ensures { result ≡ ends_production sort colon }
{
    match sort {
        Sort::Identifier => colon,
        Sort::Bar | Sort::Semicolon | Sort::Mark | Sort::End => true,
        Sort::Declaration(declaration) => is_among_rules(declaration),
        _ => false,
    }
}
