//! What a grammar file says, as the builder keeps it.

ghost use Rattle.std.specs.Prelude.{◌≡◌, [], Err, IfErr, IfOk, Ok};

use crate::occurrence::Occurrence;
use crate::production::Production;
use crate::rule::Rule;
use crate::settings::Settings;
use crate::symbol::Symbol;
use crate::tables::Tables;
use cfgbase::Span;
use indexmap::{IndexMap, IndexSet};
use std::alloc::Global;

/// What a grammar file says: its rules, productions and tokens, by their names.
#[derive(Debug, Drop)]
pub struct Syntax {
    /// The start rule's name, and its span where it is given.
    pub start: Option<(String, Span)>,
    /// The rules, by their names, in the order of their first occurrences.
    pub rules: IndexMap<String, Rule>,
    /// The productions of all rules, in their order in the file.
    pub prods: Vec<Production>,
    /// The rule of each production, by its index in the order of `rules`.
    pub prods_rules: Vec<usize>,
    /// The indices of the tokens that a `%token` declares.
    pub token_directives: IndexSet<usize>,
    /// The tokens' names, in the order of their first occurrences.
    pub tokens: IndexSet<String>,
    /// The span of the first occurrence of each token's name.
    pub spans: Vec<Span>,
    /// What the file says about single tokens.
    pub tables: Tables,
    /// What the file says about its grammar as a whole.
    pub settings: Settings,
    /// The symbols of the `%expect-unused` lists, in order.
    pub expect_unused: Vec<Symbol>,
    /// The tokens of `%token` lists that such lists have before, each with its span, in order.
    pub repeated_tokens: Vec<(String, Span)>,
    /// The tokens of `%prec`s that a later `%prec` of their production overrides, each with its span, in order.
    pub overridden_precedences: Vec<(String, Span)>,
    /// Each declaration of what a file may declare only once, in order.
    pub occurrences: Vec<Occurrence>,
}

impl Syntax {
    ghost use Rattle.cfgitems.specs.Syntax.{syntax_of};
    ghost use Rattle.cfgitems.specs.SyntaxView.{syntax_view};

    /// An empty syntax.
    #[tactic(auto, unfolding(crate::specs::Syntax::syntax_of, crate::specs::SyntaxView::syntax_view))]
    pub fn none(alloc: Global) -> Self
        ensures { syntax_view result ≡ syntax_of [] }
    {
        Syntax {
            start: None,
            rules: IndexMap::new(alloc),
            prods: Vec::new(alloc),
            prods_rules: Vec::new(alloc),
            token_directives: IndexSet::new(alloc),
            tokens: IndexSet::new(alloc),
            spans: Vec::new(alloc),
            tables: Tables::none(alloc),
            settings: Settings::none(),
            expect_unused: Vec::new(alloc),
            repeated_tokens: Vec::new(alloc),
            overridden_precedences: Vec::new(alloc),
            occurrences: Vec::new(alloc),
        }
    }

    /// The syntax together with how building it ended, or what failed. It is here so that no reader drops a syntax.
    pub fn with_end<S, E>(self, end: Result<S, E>) -> Result<(Self, S), E>
        ensures both { IfOk result (λ both. (both.0 ≡ self) × (end ≡ Ok both.1)) }
        ensures failed { IfErr result (λ fault. end ≡ Err fault) }
    {
        match end {
            Ok(end) => Ok((self, end)),
            Err(fault) => Err(fault),
        }
    }
}
