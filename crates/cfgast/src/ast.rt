ghost use Rattle.std.specs.Prelude.{◌≡◌, ◌↔◌, Ok, map, option_map, IfOk, IsErr, IsTrue, OnErr, Contains};
ghost use Rattle.std.specs.Map.{lookup};
ghost use Rattle.std.specs.Str.{bytes_eq};
ghost use Rattle.std.specs.String.{string_bytes};
ghost use Rattle.cfgitems.specs.SyntaxView.{production_view, rule_view, named_view, rule_entry, settings_view};
ghost use Rattle.cfgitems.specs.SyntaxView.{precedence_entry, printed_entry, span_entry, pair_view, symbol_view};
ghost use Rattle.cfgitems.specs.SyntaxView.{occurrence_view, syntax_view};
ghost use Rattle.cfgast.specs.TreeView.{syntax};

use cfgbase::Span;
use cfgitems::{Occurrence, Precedence, Production, Rule, Settings, Symbol, Syntax};
use indexmap::{IndexMap, IndexSet};
use scoped::{Refill, refilled};
use std::alloc::AllocError;

/// What a grammar file says: its rules, productions and tokens, by their names.
#[derive(Debug, Drop)]
pub struct GrammarAST {
    pub(crate) syntax: Syntax,
}

/// The tree of this syntax. No public path of `cfgrammar` leads to it.
#[tactic(auto, unfolding(crate::specs::TreeView::syntax))]
pub fn tree_of(said: Syntax) -> GrammarAST
    ensures { syntax result ≡ syntax_view said }
{
    GrammarAST { syntax: said }
}

/// The tree, and what goes with it, if that was made. No public path of `cfgrammar` leads to it.
///
/// # Errors
///
/// Running out of memory for what goes with it. The tree is dropped here, so that no caller has to drop one.
pub fn tree_with<T: Drop>(
    tree: GrammarAST,
    made: Result<T, AllocError>,
) -> Result<(GrammarAST, T), AllocError>
    ensures made { IfOk result (λ both. (both.0 ≡ tree) × (made ≡ Ok both.1)) }
    ensures refused { OnErr result (IsErr made) }
{
    both(tree, made)
}

// For any types: an error drops the first value.
fn both<A: Drop, B: Drop>(a: A, b: Result<B, AllocError>) -> Result<(A, B), AllocError>
    ensures made { IfOk result (λ both. (both.0 ≡ a) × (b ≡ Ok both.1)) }
    ensures refused { OnErr result (IsErr b) }
{
    Ok((a, b?))
}

#[tactic(auto, unfolding(crate::specs::TreeView::syntax, cfgitems::specs::SyntaxView::syntax_view))]
impl GrammarAST {
    /// The start rule's name, and its span where it is given.
    pub fn start(&self) -> &Option<(String, Span)>
        ensures { option_map named_view result.now ≡ (syntax self.now).start }
    {
        &self.syntax.start
    }

    /// The rules, by their names, in the order of their first occurrences.
    pub fn rules(&self) -> &IndexMap<String, Rule>
        ensures { map rule_entry result.now.entries ≡ (syntax self.now).rules }
    {
        &self.syntax.rules
    }

    /// The productions of all rules, in their order in the file.
    pub fn prods(&self) -> &[Production]
        ensures { map production_view result.now ≡ (syntax self.now).productions }
    {
        &self.syntax.prods
    }

    /// The rule of each production, by its index in the order of `rules`.
    pub fn prods_rules(&self) -> &[usize]
        ensures { result.now ≡ (syntax self.now).production_rules }
    {
        &self.syntax.prods_rules
    }

    /// The indices of the tokens that a `%token` declares.
    pub fn token_directives(&self) -> &IndexSet<usize>
        ensures { result.now.keys ≡ (syntax self.now).token_directives }
    {
        &self.syntax.token_directives
    }

    /// The tokens' names, in the order of their first occurrences.
    pub fn tokens(&self) -> &IndexSet<String>
        ensures { map string_bytes result.now.keys ≡ (syntax self.now).tokens }
    {
        &self.syntax.tokens
    }

    /// The span of the first occurrence of each token's name.
    pub fn spans(&self) -> &[Span]
        ensures { result.now ≡ (syntax self.now).spans }
    {
        &self.syntax.spans
    }

    /// The precedences of tokens (POSIX yacc), each with the span where the token is first given one.
    pub fn precs(&self) -> &IndexMap<String, (Precedence, Span)>
        ensures { map precedence_entry result.now.entries ≡ (syntax self.now).tables.precedences }
    {
        &self.syntax.tables.precs
    }

    /// The tokens of the `%avoid_insert` lists, each with its first span in them, if there is such a list.
    pub fn avoid_insert(&self) -> &Option<IndexMap<String, Span>>
        ensures { option_map (λ table. map span_entry table.entries) result.now
            ≡ (syntax self.now).tables.avoid_insert }
    {
        &self.syntax.tables.avoid_insert
    }

    /// The tokens of the `%implicit_tokens` lists, each with its first span in them, if there is such a list.
    pub fn implicit_tokens(&self) -> &Option<IndexMap<String, Span>>
        ensures { option_map (λ table. map span_entry table.entries) result.now
            ≡ (syntax self.now).tables.implicit_tokens }
    {
        &self.syntax.tables.implicit_tokens
    }

    /// The printed forms of tokens: the span of the token after its first `%epp`, and the form with its own span.
    pub fn epp(&self) -> &IndexMap<String, (Span, (String, Span))>
        ensures { map printed_entry result.now.entries ≡ (syntax self.now).tables.printed_forms }
    {
        &self.syntax.tables.epp
    }

    /// How many shift/reduce conflicts `%expect` allows, and where it says so first.
    pub fn expect(&self) -> &Option<(usize, Span)>
        ensures { result.now ≡ (syntax self.now).settings.expect }
    {
        &self.syntax.settings.expect
    }

    /// How many reduce/reduce conflicts `%expect-rr` allows, and where it says so first.
    pub fn expectrr(&self) -> &Option<(usize, Span)>
        ensures { result.now ≡ (syntax self.now).settings.expect_reduce_reduce }
    {
        &self.syntax.settings.expectrr
    }

    /// The name and the type of the parser's parameter, as the last `%parse-param` gives them.
    pub fn parse_param(&self) -> &Option<(String, String)>
        ensures { option_map pair_view result.now ≡ (syntax self.now).settings.parse_param }
    {
        &self.syntax.settings.parse_param
    }

    /// The parser's generic parameters, as the last `%parse-generics` gives them.
    pub fn parse_generics(&self) -> &Option<String>
        ensures { option_map string_bytes result.now ≡ (syntax self.now).settings.parse_generics }
    {
        &self.syntax.settings.parse_generics
    }

    /// The text of the programs part.
    pub fn programs(&self) -> &Option<String>
        ensures { option_map string_bytes result.now ≡ (syntax self.now).settings.programs }
    {
        &self.syntax.settings.programs
    }

    /// What the file says about its grammar as a whole.
    pub fn settings(&self) -> &Settings
        ensures { settings_view result.now ≡ (syntax self.now).settings }
    {
        &self.syntax.settings
    }

    /// The symbols of the `%expect-unused` lists, in order.
    pub fn expect_unused(&self) -> &[Symbol]
        ensures { map symbol_view result.now ≡ (syntax self.now).expect_unused }
    {
        &self.syntax.expect_unused
    }

    /// The tokens of `%token` lists that such lists have before, each with its span, in order.
    pub fn repeated_tokens(&self) -> &[(String, Span)]
        ensures { map named_view result.now ≡ (syntax self.now).repeated_tokens }
    {
        &self.syntax.repeated_tokens
    }

    /// The tokens of `%prec`s that a later `%prec` of their production overrides, each with its span, in order.
    pub fn overridden_precedences(&self) -> &[(String, Span)]
        ensures { map named_view result.now ≡ (syntax self.now).overridden_precedences }
    {
        &self.syntax.overridden_precedences
    }

    /// Each declaration of what a file may declare only once, in order.
    pub fn occurrences(&self) -> &[Occurrence]
        ensures { map occurrence_view result.now ≡ (syntax self.now).occurrences }
    {
        &self.syntax.occurrences
    }

    /// The rule with this name.
    pub fn get_rule(&self, name: &str) -> Option<&Rule>
        ensures { option_map (λ rule. rule_view rule.now) result
            ≡ lookup (bytes_eq name.now) (syntax self.now).rules }
    {
        self.syntax.rules.get(name)
    }

    /// Whether a token has this name.
    pub fn has_token(&self, name: &str) -> bool
        ensures { IsTrue result ↔ Contains (syntax self.now).tokens name.now }
    {
        self.syntax.tokens.contains(name)
    }
}

impl Clone for GrammarAST {
    ghost use Rattle.cfgast.specs.TreeView.{syntax};

    ghost is_clone = { λ ast copy. syntax copy ≡ syntax ast };

    fn clone(&self) -> Result<GrammarAST, AllocError> {
        let alloc = *self.syntax.prods.allocator();
        refilled(tree_of(Syntax::none(alloc)), self)
    }
}

impl Refill for GrammarAST {
    ghost use Rattle.cfgast.specs.TreeView.{syntax};

    ghost is_copy = { λ ast copy. syntax copy ≡ syntax ast };

    fn refill(&mut self, from: &GrammarAST) -> Result<(), AllocError> {
        self.syntax.start.clone_from(&from.syntax.start)?;
        self.syntax.rules.clone_from(&from.syntax.rules)?;
        self.syntax.prods.clone_from(&from.syntax.prods)?;
        self.syntax
            .prods_rules
            .clone_from(&from.syntax.prods_rules)?;
        self.syntax
            .token_directives
            .clone_from(&from.syntax.token_directives)?;
        self.syntax.tokens.clone_from(&from.syntax.tokens)?;
        self.syntax.spans.clone_from(&from.syntax.spans)?;
        self.syntax.tables.clone_from(&from.syntax.tables)?;
        self.syntax.settings.clone_from(&from.syntax.settings)?;
        self.syntax
            .expect_unused
            .clone_from(&from.syntax.expect_unused)?;
        self.syntax
            .repeated_tokens
            .clone_from(&from.syntax.repeated_tokens)?;
        self.syntax
            .overridden_precedences
            .clone_from(&from.syntax.overridden_precedences)?;
        self.syntax
            .occurrences
            .clone_from(&from.syntax.occurrences)?;
        Ok(())
    }
}
