ghost use Rattle.std.specs.Prelude.{◌≡◌, ◌==◌, List, [], ◌∷◌, ◌++◌, map, Some, string_bytes, IfOk, OnOk};
ghost use Rattle.std.specs.List.{list_any};
ghost use Rattle.cfgitems.specs.Items.{Item, TokenDeclared, StartDeclared, ActionTypeDeclared, PrintedFormDeclared};
ghost use Rattle.cfgitems.specs.Items.{ExpectDeclared, ExpectReduceReduceDeclared, ExpectedUnused, ParseParamDeclared};
ghost use Rattle.cfgitems.specs.Items.{GenericsDeclared, AvoidInsertBegun, AvoidInsertDeclared, ImplicitTokensBegun};
ghost use Rattle.cfgitems.specs.Items.{ImplicitTokenDeclared, PrecedenceDeclared, LevelEnded, RuleSymbol, TokenSymbol};
ghost use Rattle.cfgitems.specs.Items.{RuleBegun, RuleNamed, TokenQuoted, PrecedenceUsed, Alternative, ProgramsGiven};
ghost use Rattle.cfgitems.specs.Syntax.{syntax_of, symbol_of, production_of, head_name, index_of, typed};
ghost use Rattle.cfgitems.specs.Occurrences.{of_grammar, of_token};
ghost use Rattle.cfgitems.specs.Building.{add, adds, with_first, with_rule, new_rule, is_declared};

use crate::item::{Body, RuleHead};
use crate::occurrence::{Occurrence, Unique, UniqueKind};
use crate::precedence::{AssocKind, Precedence};
use crate::production::{Production, push_overridden};
use crate::rule::{Rule, list_production_at, rule_index};
use crate::symbol::Symbol;
use crate::syntax::Syntax;
use crate::tables::{begin_marked, put_entry, put_marked};
use cfgbase::Span;
use cfgwords::words::{Token, Word};
use std::alloc::{AllocError, Global};

/// Builds what a grammar file says, from the items that a reader finds in it, in order.
///
/// It is for readers only: no public path of `cfgrammar` leads to it. A method that runs out of memory may have added a
/// part of its item, and its contract says nothing about what the builder then holds. So the reader drops it, and
/// returns only that memory ran out.
#[derive(Drop)]
pub struct AstBuilder {
    syntax: Syntax,
}

#[tactic(auto, unfolding(crate::proofs::Add::syntax_built, crate::proofs::Add::syntax_view, crate::proofs::Add::add))]
impl AstBuilder {
    ghost use Rattle.cfgitems.specs.SyntaxView.{syntax_view, syntax_built, production_view, rule_view, symbol_view};
    ghost use Rattle.cfgitems.specs.SyntaxView.{word_view};
    ghost use Rattle.cfgitems.specs.SyntaxView.{token_view, head_view, body_view};

    /// A builder without items.
    pub fn new(alloc: Global) -> Self
        ensures { syntax_built result ≡ syntax_of [] }
    {
        AstBuilder {
            syntax: Syntax::none(alloc),
        }
    }

    /// What the added items say.
    pub fn finish(self) -> Syntax
        ensures { syntax_view result ≡ syntax_built self }
    {
        self.syntax
    }

    /// Adds a token of a `%token` list.
    pub fn declare_token(&mut self, alloc: Global, word: Word<'_>) -> Result<(), AllocError>
        ensures { OnOk result (syntax_built self.new
            ≡ add (syntax_built self.old) (TokenDeclared (word_view word.entry))) }
    {
        let index = self.put_token(alloc, word)?;
        if !self.syntax.token_directives.insert(index)? {
            let name = String::from_str(alloc, word.name)?;
            self.syntax.repeated_tokens.push((name, word.span))?;
        }
        Ok(())
    }

    /// Adds a token of a `%left`, `%right` or `%nonassoc` list, at the level of that list. The first one of its name
    /// counts.
    pub fn declare_precedence(
        &mut self,
        alloc: Global,
        kind: AssocKind,
        word: Word<'_>,
    ) -> Result<(), AllocError>
        ensures { OnOk result (syntax_built self.new
            ≡ add (syntax_built self.old) (PrecedenceDeclared kind (word_view word.entry))) }
    {
        let level = self.syntax.tables.levels.len() as u64;
        let precedence = Precedence { level, kind };
        put_entry(
            alloc,
            &mut self.syntax.tables.precs,
            word.name,
            (precedence, word.span),
        )?;
        self.note_token(alloc, UniqueKind::Precedence, word)
    }

    /// Adds the end of a `%left`, `%right` or `%nonassoc` list.
    pub fn end_level(&mut self, kind: AssocKind) -> Result<(), AllocError>
        ensures { OnOk result (syntax_built self.new ≡ add (syntax_built self.old) (LevelEnded kind)) }
    {
        self.syntax.tables.levels.push(kind)?;
        Ok(())
    }

    /// Adds the start of an `%avoid_insert` list.
    pub fn begin_avoid_insert(&mut self, alloc: Global)
        ensures { syntax_built self.new ≡ add (syntax_built self.old) AvoidInsertBegun }
    {
        begin_marked(alloc, &mut self.syntax.tables.avoid_insert);
    }

    /// Adds a token of an `%avoid_insert` list. The first one of its name counts.
    pub fn declare_avoid_insert(&mut self, alloc: Global, word: Word<'_>) -> Result<(), AllocError>
        ensures { OnOk result (syntax_built self.new
            ≡ add (syntax_built self.old) (AvoidInsertDeclared (word_view word.entry))) }
    {
        self.put_token(alloc, word)?;
        put_marked(alloc, &mut self.syntax.tables.avoid_insert, word)?;
        self.note_token(alloc, UniqueKind::AvoidInsert, word)
    }

    /// Adds the start of an `%implicit_tokens` list.
    pub fn begin_implicit_tokens(&mut self, alloc: Global)
        ensures { syntax_built self.new ≡ add (syntax_built self.old) ImplicitTokensBegun }
    {
        begin_marked(alloc, &mut self.syntax.tables.implicit_tokens);
    }

    /// Adds a token of an `%implicit_tokens` list. The first one of its name counts.
    pub fn declare_implicit_token(
        &mut self,
        alloc: Global,
        word: Word<'_>,
    ) -> Result<(), AllocError>
        ensures { OnOk result (syntax_built self.new
            ≡ add (syntax_built self.old) (ImplicitTokenDeclared (word_view word.entry))) }
    {
        self.put_token(alloc, word)?;
        put_marked(alloc, &mut self.syntax.tables.implicit_tokens, word)?;
        self.note_token(alloc, UniqueKind::ImplicitToken, word)
    }

    /// Adds the printed form of a token, with its span; the token's span includes its quotes. The first form counts.
    pub fn declare_printed_form(
        &mut self,
        alloc: Global,
        token: Word<'_>,
        form: String,
        span: Span,
    ) -> Result<(), AllocError>
        ensures { OnOk result (syntax_built self.new
            ≡ add (syntax_built self.old) (PrintedFormDeclared (word_view token.entry) (string_bytes form, span))) }
    {
        put_entry(
            alloc,
            &mut self.syntax.tables.epp,
            token.name,
            (token.span, (form, span)),
        )?;
        self.note_token(alloc, UniqueKind::PrintedForm, token)
    }

    /// Adds a quoted token of a rule's body.
    pub fn quote_token(&mut self, alloc: Global, word: Word<'_>) -> Result<(), AllocError>
        ensures { OnOk result (syntax_built self.new
            ≡ add (syntax_built self.old) (TokenQuoted (word_view word.entry))) }
    {
        self.put_token(alloc, word)?;
        Ok(())
    }

    /// Adds the token that a production takes its precedence from.
    pub fn use_precedence(&mut self, alloc: Global, word: Word<'_>) -> Result<(), AllocError>
        ensures { OnOk result (syntax_built self.new
            ≡ add (syntax_built self.old) (PrecedenceUsed (word_view word.entry))) }
    {
        self.put_token(alloc, word)?;
        Ok(())
    }

    /// Adds the rule that a `%start` names: it is the start if none was named before.
    pub fn declare_start(&mut self, alloc: Global, word: Word<'_>) -> Result<(), AllocError>
        ensures { OnOk result (syntax_built self.new
            ≡ add (syntax_built self.old) (StartDeclared (word_view word.entry))) }
    {
        self.put_start(alloc, word)?;
        self.note(UniqueKind::Start, word.span)
    }

    /// Adds the type that the actions of all rules return, with its span. The first one counts.
    pub fn declare_action_type(
        &mut self,
        alloc: Global,
        text: &str,
        span: Span,
    ) -> Result<(), AllocError>
        ensures { OnOk result (syntax_built self.new
            ≡ add (syntax_built self.old) (ActionTypeDeclared (text.now, span))) }
    {
        if self.syntax.settings.action_type.is_none() {
            self.syntax.settings.action_type = Some(String::from_str(alloc, text)?);
        }
        self.note(UniqueKind::ActionType, span)
    }

    /// Adds the number of an `%expect`, with its span.
    pub fn declare_expect(&mut self, number: (usize, Span)) -> Result<(), AllocError>
        ensures { OnOk result (syntax_built self.new ≡ add (syntax_built self.old) (ExpectDeclared number)) }
    {
        if self.syntax.settings.expect.is_none() {
            self.syntax.settings.expect = Some(number);
        }
        self.note(UniqueKind::Expect, number.1)
    }

    /// Adds the number of an `%expect-rr`, with its span.
    pub fn declare_expect_rr(&mut self, number: (usize, Span)) -> Result<(), AllocError>
        ensures { OnOk result (syntax_built self.new
            ≡ add (syntax_built self.old) (ExpectReduceReduceDeclared number)) }
    {
        if self.syntax.settings.expectrr.is_none() {
            self.syntax.settings.expectrr = Some(number);
        }
        self.note(UniqueKind::ExpectReduceReduce, number.1)
    }

    /// Adds the name and the type of the parser's parameter, which replace those added before.
    pub fn declare_parse_param(
        &mut self,
        alloc: Global,
        name: &str,
        kind: &str,
    ) -> Result<(), AllocError>
        ensures { OnOk result (syntax_built self.new
            ≡ add (syntax_built self.old) (ParseParamDeclared (name.now, kind.now))) }
    {
        let name = String::from_str(alloc, name)?;
        let kind = String::from_str(alloc, kind)?;
        self.syntax.settings.parse_param = Some((name, kind));
        Ok(())
    }

    /// Adds the parser's generic parameters, which replace those added before.
    pub fn declare_generics(&mut self, alloc: Global, text: &str) -> Result<(), AllocError>
        ensures { OnOk result (syntax_built self.new ≡ add (syntax_built self.old) (GenericsDeclared text.now)) }
    {
        self.syntax.settings.parse_generics = Some(String::from_str(alloc, text)?);
        Ok(())
    }

    /// Adds a rule of an `%expect-unused` list.
    pub fn expect_unused_rule(&mut self, alloc: Global, word: Word<'_>) -> Result<(), AllocError>
        ensures { OnOk result (syntax_built self.new
            ≡ add (syntax_built self.old) (ExpectedUnused (RuleSymbol (word_view word.entry)))) }
    {
        let name = String::from_str(alloc, word.name)?;
        self.syntax
            .expect_unused
            .push(Symbol::Rule(name, word.span))?;
        Ok(())
    }

    /// Adds a token of an `%expect-unused` list.
    pub fn expect_unused_token(&mut self, alloc: Global, word: Word<'_>) -> Result<(), AllocError>
        ensures { OnOk result (syntax_built self.new
            ≡ add (syntax_built self.old) (ExpectedUnused (TokenSymbol (word_view word.entry)))) }
    {
        let name = String::from_str(alloc, word.name)?;
        self.syntax
            .expect_unused
            .push(Symbol::Token(name, word.span))?;
        Ok(())
    }

    /// Adds the text of the programs part, which replaces one added before.
    pub fn give_programs(&mut self, alloc: Global, text: &str) -> Result<(), AllocError>
        ensures { OnOk result (syntax_built self.new ≡ add (syntax_built self.old) (ProgramsGiven text.now)) }
    {
        self.syntax.settings.programs = Some(String::from_str(alloc, text)?);
        Ok(())
    }

    /// Adds the name of a rule: it is the start if none was named before.
    pub fn begin_rule(&mut self, alloc: Global, word: Word<'_>) -> Result<(), AllocError>
        ensures { OnOk result (syntax_built self.new
            ≡ add (syntax_built self.old) (RuleBegun (word_view word.entry))) }
    {
        self.put_start(alloc, word)
    }

    /// Adds a rule once its head is read. If the head gives no type for its actions, the one for all rules counts.
    pub fn name_rule(&mut self, alloc: Global, head: RuleHead<'_>) -> Result<(), AllocError>
        ensures { OnOk result (syntax_built self.new
            ≡ add (syntax_built self.old) (RuleNamed (head_view head.entry))) }
    {
        self.put_rule(alloc, head)?;
        Ok(())
    }

    /// Adds a finished production of a rule, which is named as by `name_rule`. Its symbols are tokens if they are
    /// quoted or declared so far.
    pub fn add_production(
        &mut self,
        alloc: Global,
        head: RuleHead<'_>,
        body: Body<'_, '_>,
    ) -> Result<(), AllocError>
        ensures { OnOk result (syntax_built self.new
            ≡ add (syntax_built self.old) (Alternative (head_view head.entry) (body_view body.entry))) }
    {
        let production = self.production_of(alloc, body)?;
        push_overridden(
            alloc,
            &mut self.syntax.overridden_precedences,
            body.precedences,
        )?;
        let rule = self.put_rule(alloc, head)?;
        let index = self.syntax.prods.len();
        list_production_at(&mut self.syntax.rules, rule, index)?;
        self.syntax.prods.push(production)?;
        self.syntax.prods_rules.push(rule)?;
        Ok(())
    }

    // Notes where the file declares something that it may declare only once for the whole grammar.
    fn note(&mut self, kind: UniqueKind, span: Span) -> Result<(), AllocError>
        ensures { OnOk result (syntax_built self.new ≡ record (syntax_built self.old) {
          occurrences = (syntax_built self.old).occurrences ++ of_grammar kind span ∷ [];
        }) }
    {
        let what = Unique { kind, token: None };
        self.syntax.occurrences.push(Occurrence { what, span })?;
        Ok(())
    }

    // Notes where the file declares something that it may declare only once for a token.
    fn note_token(
        &mut self,
        alloc: Global,
        kind: UniqueKind,
        token: Word<'_>,
    ) -> Result<(), AllocError>
        ensures { OnOk result (syntax_built self.new ≡ record (syntax_built self.old) {
          occurrences = (syntax_built self.old).occurrences ++ of_token kind (word_view token.entry) ∷ [];
        }) }
    {
        let name = String::from_str(alloc, token.name)?;
        let what = Unique {
            kind,
            token: Some(name),
        };
        self.syntax.occurrences.push(Occurrence {
            what,
            span: token.span,
        })?;
        Ok(())
    }

    // The word becomes the start if there is none yet.
    fn put_start(&mut self, alloc: Global, word: Word<'_>) -> Result<(), AllocError>
        ensures { OnOk result (syntax_built self.new ≡ record (syntax_built self.old) {
          start = with_first (Some (word_view word.entry)) (syntax_built self.old).start;
        }) }
    {
        if self.syntax.start.is_none() {
            self.syntax.start = Some((String::from_str(alloc, word.name)?, word.span));
        }
        Ok(())
    }

    // The index of the token of this name, which is added if it is new.
    fn put_token(&mut self, alloc: Global, word: Word<'_>) -> Result<usize, AllocError>
        ensures added { OnOk result (syntax_built self.new
            ≡ add (syntax_built self.old) (TokenQuoted (word_view word.entry))) }
        ensures index { IfOk result (λ index. index ≡ index_of word.entry.name.now (syntax_built self.new).tokens) }
    {
        if let Some(index) = self.syntax.tokens.get_index_of(word.name) {
            return Ok(index);
        }
        self.syntax.spans.push(word.span)?;
        let name = String::from_str(alloc, word.name)?;
        let (index, _) = self.syntax.tokens.insert_full(name)?;
        Ok(index)
    }

    // The index of the rule of this name, which is added if it is new.
    fn put_rule(&mut self, alloc: Global, head: RuleHead<'_>) -> Result<usize, AllocError>
        ensures added { OnOk result (syntax_built self.new ≡ record (syntax_built self.old) {
          rules = with_rule (Some (typed (syntax_built self.old).settings.action_type (head_view head.entry)))
              (syntax_built self.old).rules;
        }) }
        ensures index { IfOk result (λ index. index
            ≡ index_of (head_name (head_view head.entry)) (map (λ rule. rule.0) (syntax_built self.new).rules)) }
    {
        let name = head.name.name;
        if let Some(index) = rule_index(&self.syntax.rules, name) {
            return Ok(index);
        }
        let key = String::from_str(alloc, name)?;
        let rule = self.new_rule(alloc, head)?;
        let (index, _) = self.syntax.rules.insert_full(key, rule)?;
        Ok(index)
    }

    // A rule with no production yet. If its head gives no type, it has the one for all rules.
    fn new_rule(&self, alloc: Global, head: RuleHead<'_>) -> Result<Rule, AllocError>
        ensures { IfOk result (λ rule. rule_view rule
            ≡ (new_rule (typed (syntax_built self.now).settings.action_type (head_view head.entry))).1) }
    {
        let actiont = match head.action_type {
            Some(text) => Some(String::from_str(alloc, text)?),
            None => self.syntax.settings.action_type.clone()?,
        };
        Ok(Rule {
            name: (String::from_str(alloc, head.name.name)?, head.name.span),
            pidxs: Vec::new(alloc),
            actiont,
        })
    }

    fn production_of(&self, alloc: Global, body: Body<'_, '_>) -> Result<Production, AllocError>
        ensures { IfOk result (λ made. production_view made
            ≡ production_of (is_declared (syntax_built self.now)) (body_view body.entry)) }
    {
        let precedence = match body.precedences.last() {
            Some(token) => Some(String::from_str(alloc, token.name)?),
            None => None,
        };
        let action = match body.action {
            Some((text, span)) => Some((String::from_str(alloc, text)?, span)),
            None => None,
        };
        Ok(Production {
            symbols: self.symbols_of(alloc, body.symbols)?,
            precedence,
            action,
            prod_span: body.span,
        })
    }

    fn symbols_of(&self, alloc: Global, body: &[Token<'_>]) -> Result<Vec<Symbol>, AllocError>
        ensures { IfOk result (λ symbols. map symbol_view symbols.items
            ≡ map (symbol_of (is_declared (syntax_built self.now))) (map token_view body.now)) }
    {
        let mut symbols = Vec::with_capacity(alloc, body.len())?;
        for symbol in body {
            symbols.push(self.symbol_of(alloc, symbol)?)?;
        }
        Ok(symbols)
    }

    fn symbol_of(&self, alloc: Global, symbol: &Token<'_>) -> Result<Symbol, AllocError>
        ensures { IfOk result (λ made. symbol_view made
            ≡ symbol_of (is_declared (syntax_built self.now)) (token_view symbol.now)) }
    {
        let name = String::from_str(alloc, symbol.name)?;
        if symbol.quoted || self.is_declared(symbol.name) {
            Ok(Symbol::Token(name, symbol.span))
        } else {
            Ok(Symbol::Rule(name, symbol.span))
        }
    }

    // Whether a `%token` declared the name.
    fn is_declared(&self, name: &str) -> bool
        ensures { result ≡ is_declared (syntax_built self.now) name.now }
    {
        if self.syntax.token_directives.is_empty() {
            return false;
        }
        match self.syntax.tokens.get_index_of(name) {
            Some(index) => self.is_directive(index),
            None => false,
        }
    }

    // Whether a `%token` declared the token at this index. Such lists mostly come first, so the indices of the tokens
    // that they declare are mostly at themselves.
    fn is_directive(&self, index: usize) -> bool
        ensures { result ≡ list_any (λ other. index == other) (syntax_built self.now).token_directives }
    {
        match self.syntax.token_directives.get_index(index) {
            Some(other) if *other == index => true,
            _ => self.syntax.token_directives.contains(&index),
        }
    }
}

/// The law of `AstBuilder`: what it builds from a list of items, one by one, is what the list says.
pub fn built_is_syntax()
    ensures { (items : List Item) → adds (syntax_of []) items ≡ syntax_of items }
{}
