//! The tables of a grammar.

ghost use Rattle.std.specs.Prelude.{◌≡◌, ◌↔◌, ◌==◌, ℕ, ◌+◌, ◌<◌, if◌then◌else◌, List};
ghost use Rattle.std.specs.Prelude.{[], Some, count_by, map, nat_eq, length, position};
ghost use Rattle.std.specs.Prelude.{option_map, All, Err, IfErr, IfOk, IfSome, IsSome, OnOk};
ghost use Rattle.std.specs.HashMap.{get_by};
ghost use Rattle.std.specs.Str.{IsUtf8, bytes_eq};
ghost use Rattle.std.specs.String.{string_bytes};
ghost use Rattle.cfgwords.specs.TextSpans.{IsPiece, IsWithin};
ghost use Rattle.cfgitems.specs.SyntaxView.{pair_view};
ghost use Rattle.cfgerrors.specs.Refusal.{ListsErrors};
ghost use Rattle.cfgast.specs.TreeView.{syntax};
ghost use Rattle.cfgsyntax.specs.ErrorSpans.{EachFaultSpan, EachParsedSpan};
ghost use Rattle.cfgkinds.specs.declared.kind.YaccKind.{YaccKind};
ghost use Rattle.cfgyacc.specs.Answer.{IsAnswer, IsGrammar, WasRead, in_numbers};
ghost use Rattle.cfgyacc.specs.Counting.{YieldsNumbersInOrder};
ghost use Rattle.cfgnumbers.specs.Fits.{LeavesRoom};
ghost use Rattle.cfgnumbers.specs.Numberable.{IsNumberable};
ghost use Rattle.cfgyacc.specs.GrammarOf.{IsGrammarOf, IsGrammarOfItself};
ghost use Rattle.cfgnumbers.specs.Numbered.{implicit_of, numbered};
ghost use Rattle.cfgnumbers.specs.Accessors.{IsSymbolWithin, has_token_name, production_part, rule_part, token_part};
ghost use Rattle.cfgyacc.specs.GrammarSpans.{EachAnswerSpan};
ghost use Rattle.cfgnumbers.specs.WellNumbered.{IsWellNumbered};

use super::iter::{PIdxIter, RIdxIter, TIdxIter};
use cfgbase::Span;
use cfgfaults::storage_too_small;
use cfgindex::{PIdx, RIdx, SIdx, Storage, Symbol, TIdx, to_storage};
use cfgitems::{Precedence, Settings};
use cfgnumbers::{Numbering, ProductionRows, RuleRow, TokenRow, tokens_by_name};
use cfgsyntax::yacc::YaccKind;
use cfgsyntax::yacc::ast::{ASTWithValidityInfo, GrammarAST};
use cfgsyntax::yacc::parser::{YaccFault, YaccGrammarResult};
use indexmap::IndexMap;
use scoped::{all, lend};
use std::alloc::{AllocError, Global};
use std::collections::HashMap;
use std::marker::Model;

/// A grammar whose rules, productions and tokens are numbered from 0, with numbers stored in `S`.
///
/// Rule 0 is the start rule, named `^`, and has one production: the rule that the file starts from. The last token is
/// the end token, which has no name and is in no production.
///
/// In an Eco file with implicit tokens, rule 1, `~`, derives each list of them, and follows each token of the file's
/// productions. The production of rule 0 then is rule 2, `^~`, whose only production is `~` and the rule that the file
/// starts from.
#[derive(Drop)]
pub struct YaccGrammar<S: Storage> {
    rules: IndexMap<String, RuleRow<S>>,
    prods: ProductionRows<S>,
    tokens: IndexMap<String, TokenRow>,
    start_prod: PIdx<S>,
    implicit_rule: Option<RIdx<S>>,
    settings: Settings,
}

impl<S: Storage> Model for YaccGrammar<S> {
    ghost use Rattle.cfgnumbers.specs.Numbered.{Numbered};
    ghost use Rattle.cfgnumbers.specs.TablesView.{tables};
    ghost use Rattle.cfgnumbers.specs.WellNumbered.{IsWellNumbered};

    ghost Value = { Numbered };

    ghost view = { λ x. tables S.number x.rules.entries x.prods x.tokens.entries x.start_prod x.implicit_rule
        x.settings };

    ghost invariant = { λ x. IsWellNumbered S.MAX
        (tables S.number x.rules.entries x.prods x.tokens.entries x.start_prod x.implicit_rule x.settings) };
}

impl YaccGrammar<u32> {
    /// Reads a Yacc file of this kind as a grammar, with 32-bit indices.
    ///
    /// # Errors
    ///
    /// Those of [`new_with_storaget`](YaccGrammar::new_with_storaget).
    pub fn new(alloc: Global, kind: YaccKind, text: &str) -> YaccGrammarResult<Self>
        ensures answer { IsGrammarOf kind text.now 4294967295 result }
        ensures offsets { EachAnswerSpan (IsPiece text.now) (IsWithin text.now) result }
        ensures listed { IfErr result ListsErrors }
    {
        YaccGrammar::new_with_storaget(alloc, kind, text)
    }
}

impl<S: Storage> YaccGrammar<S> {
    /// Reads a Yacc file of this kind as a grammar.
    ///
    /// The text has exactly one reading. If that has no errors, and `S` can count the grammar, the result is the
    /// grammar of what was read.
    ///
    /// Each error has a span. Each span of the grammar and of an error begins and ends at a character boundary of the
    /// text. The span of an action, which is as long as the trimmed text, lies within the text. The span of anything
    /// added is (0,0).
    ///
    /// # Errors
    ///
    /// The errors of the text; for a valid text only `StorageTooSmall`, if `S` cannot count the grammar's rules,
    /// tokens, productions or the symbols of a production, including those that are added; and out of memory.
    pub fn new_with_storaget(alloc: Global, kind: YaccKind, text: &str) -> YaccGrammarResult<Self>
        ensures answer { IsGrammarOf kind text.now S.MAX result }
        ensures offsets { EachAnswerSpan (IsPiece text.now) (IsWithin text.now) result }
        ensures listed { IfErr result ListsErrors }
    {
        let parsed = ASTWithValidityInfo::new(alloc, kind, text);
        YaccGrammar::of_parsed(alloc, parsed.map_err(YaccFault::from))
    }

    /// Reads a Yacc file as a grammar of the kind that its section names, as
    /// [`new_with_storaget`](YaccGrammar::new_with_storaget) does.
    ///
    /// # Errors
    ///
    /// Those of the section, which is required; if it has none, one error if it has no key `yacckind` or gives it
    /// something that isn't a kind; otherwise those of reading the file as the kind.
    pub fn from_str(alloc: Global, text: &str) -> YaccGrammarResult<Self>
        ensures answer { IsGrammarOfItself text.now S.MAX result }
        ensures offsets { EachAnswerSpan (IsPiece text.now) (IsWithin text.now) result }
        ensures listed { IfErr result ListsErrors }
    {
        YaccGrammar::of_parsed(alloc, ASTWithValidityInfo::from_str(alloc, text))
    }

    /// The grammar of a syntax, if one was read.
    fn of_parsed(
        alloc: Global,
        parsed: YaccGrammarResult<ASTWithValidityInfo>,
    ) -> YaccGrammarResult<Self>
        ensures answer { IfOk parsed (λ parsed. IsAnswer S.MAX (WasRead parsed) result) }
        ensures offsets { IfOk parsed (λ parsed. (text : List ℕ) → IsUtf8 text
            → EachParsedSpan (IsPiece text) (IsWithin text) parsed
            → EachAnswerSpan (IsPiece text) (IsWithin text) result) }
        ensures refused { IfErr parsed (λ fault. result ≡ Err fault) }
    {
        lend(
            parsed,
            |parsed| YaccGrammar::new_from_ast_with_validity_info(alloc, parsed),
        )
    }

    /// The grammar of a syntax that was read. Its spans, and those of errors, begin and end at character boundaries of
    /// the text if those of the syntax and of its errors do; those of actions lie within the text if the syntax's do.
    ///
    /// # Errors
    ///
    /// The errors that were found in reading; if there are none, only `StorageTooSmall`, if `S` cannot count the
    /// grammar's rules, tokens, productions or the symbols of a production; and out of memory.
    pub fn new_from_ast_with_validity_info(
        alloc: Global,
        parsed: &ASTWithValidityInfo,
    ) -> YaccGrammarResult<Self>
        ensures answer { IsAnswer S.MAX (WasRead parsed.now) result }
        ensures offsets { (text : List ℕ) → IsUtf8 text → EachParsedSpan (IsPiece text) (IsWithin text) parsed.now
            → EachAnswerSpan (IsPiece text) (IsWithin text) result }
        ensures listed { IfErr result ListsErrors }
    {
        YaccGrammar::<S>::check_ast(alloc, parsed)?;
        Ok(YaccGrammar::new_from_checked_ast(alloc, parsed)?)
    }

    /// Whether a syntax that was read has a grammar: it has no errors, and `S` can count its grammar. This takes much
    /// less time than the grammar, since no tables are made.
    ///
    /// # Errors
    ///
    /// Those of [`new_from_ast_with_validity_info`](YaccGrammar::new_from_ast_with_validity_info).
    pub fn check_ast(alloc: Global, parsed: &ASTWithValidityInfo) -> YaccGrammarResult<()>
        ensures grammar { OnOk result (IsGrammar S.MAX (WasRead parsed.now) (in_numbers parsed.now)) }
        ensures refused { IfErr result (λ fault. IsAnswer S.MAX (WasRead parsed.now) (Err fault)) }
        ensures offsets { (text : List ℕ) → IsUtf8 text → EachParsedSpan (IsPiece text) (IsWithin text) parsed.now
            → IfErr result (EachFaultSpan (IsPiece text)) }
        ensures listed { IfErr result ListsErrors }
    {
        if !parsed.is_valid() {
            return Err(YaccFault::Errors(parsed.errors().to_vec(alloc)?));
        }
        let kind = parsed.yacc_kind();
        let ast = parsed.ast();
        if !Numbering::new(kind, ast).fits::<S>() {
            return Err(storage_too_small(alloc)?);
        }
        Ok(())
    }

    /// The grammar of a syntax that [`check_ast`](YaccGrammar::check_ast) accepts.
    ///
    /// # Errors
    ///
    /// Out of memory.
    pub fn new_from_checked_ast(
        alloc: Global,
        parsed: &ASTWithValidityInfo,
    ) -> Result<Self, AllocError>
        requires { IsGrammar S.MAX (WasRead parsed.now) (in_numbers parsed.now) }
        ensures { IfOk result (λ grammar. grammar ≡ in_numbers parsed.now) }
    {
        YaccGrammar::from_numberable(alloc, parsed.yacc_kind(), parsed.ast())
    }

    /// The grammar of a syntax of this kind that `S` can count.
    pub(crate) fn from_numberable(
        alloc: Global,
        kind: YaccKind,
        ast: &GrammarAST,
    ) -> Result<Self, AllocError>
        requires numberable { IsNumberable (syntax ast.now) }
        requires room { LeavesRoom S.MAX (implicit_of kind (syntax ast.now)) (syntax ast.now) }
        ensures { IfOk result (λ grammar. grammar ≡ numbered kind (syntax ast.now)) }
    {
        let numbering = Numbering::new(kind, ast);
        let tokens = numbering.token_rows(alloc);
        let prods = match &tokens {
            Ok(tokens) => numbering.production_rows(alloc, tokens),
            Err(AllocError) => Err(AllocError),
        };
        let (rules, prods, tokens, settings) = all(
            numbering.rule_rows(alloc),
            prods,
            tokens,
            ast.settings().clone(),
        )?;
        Ok(YaccGrammar {
            rules,
            prods,
            tokens,
            start_prod: PIdx(to_storage(ast.prods().len())),
            implicit_rule: numbering.implicit_rule(),
            settings,
        })
    }
}

#[tactic(auto, unfolding(cfgnumbers::specs::TablesView::tables))]
impl<S: Storage> YaccGrammar<S> {
    ghost use Rattle.cfgtables.specs.NumberedSymbols.{sym_of};

    /// A law, so the call does nothing: what is true of every grammar is true of this one. Rule 0 is the start rule,
    /// with the single production `start_prod`; the last token is the end token, which is in no production; whatever is
    /// referred to exists, and `S` can count it; names are distinct; and each production is listed once, by its own
    /// rule.
    pub fn invariant_holds(&self)
        ensures { IsWellNumbered S.MAX self.now }
    {
        let _tables = &self.rules;
    }

    /// The number of productions.
    pub fn prods_len(&self) -> PIdx<S>
        ensures { S.number result.0 ≡ length self.now.productions }
    {
        PIdx(to_storage(self.prods.len()))
    }

    /// The productions' indices, in order.
    pub fn iter_pidxs(&self) -> PIdxIter<S>
        ensures value { result ≡ record { start = 0; end = length self.now.productions } }
        ensures runs { YieldsNumbersInOrder (λ (x : PIdx S). S.number x.0) }
    {
        PIdxIter::new(self.prods.len())
    }

    /// The symbols of a production.
    pub fn prod(&self, pidx: PIdx<S>) -> &[Symbol<S>]
        requires { S.number pidx.0 < length self.now.productions }
        ensures value { production_part (λ x. x.symbols) self.now (S.number pidx.0)
            ≡ Some (map (sym_of S.number) result.now) }
        ensures within { All (IsSymbolWithin S.number self.now) result.now }
    {
        self.prods.symbols(usize::from(pidx))
    }

    /// The number of symbols of a production.
    pub fn prod_len(&self, pidx: PIdx<S>) -> SIdx<S>
        requires { S.number pidx.0 < length self.now.productions }
        ensures { production_part (λ x. length x.symbols) self.now (S.number pidx.0) ≡ Some (S.number result.0) }
    {
        SIdx(to_storage(self.prods.symbols(usize::from(pidx)).len()))
    }

    /// The rule that a production belongs to.
    pub fn prod_to_rule(&self, pidx: PIdx<S>) -> RIdx<S>
        requires { S.number pidx.0 < length self.now.productions }
        ensures value { production_part (λ x. x.rule) self.now (S.number pidx.0) ≡ Some (S.number result.0) }
        ensures within { S.number result.0 < length self.now.rules }
    {
        self.prods.rule(usize::from(pidx))
    }

    /// The precedence of a production: that of the token after its `%prec`, or else of its last token (POSIX yacc). A
    /// production that the file does not have has none.
    pub fn prod_precedence(&self, pidx: PIdx<S>) -> Option<Precedence>
        requires { S.number pidx.0 < length self.now.productions }
        ensures { production_part (λ x. x.precedence) self.now (S.number pidx.0) ≡ Some result }
    {
        self.prods.row(usize::from(pidx)).precedence
    }

    /// The span of a production in the file, or (0,0) for one that the file does not have.
    pub fn prod_span(&self, pidx: PIdx<S>) -> Span
        requires { S.number pidx.0 < length self.now.productions }
        ensures { production_part (λ x. x.span) self.now (S.number pidx.0) ≡ Some result }
    {
        self.prods.row(usize::from(pidx)).span
    }

    /// The text of a production's action.
    pub fn action(&self, pidx: PIdx<S>) -> &Option<String>
        requires { S.number pidx.0 < length self.now.productions }
        ensures { production_part (λ x. x.action) self.now (S.number pidx.0)
            ≡ Some (option_map string_bytes result.now) }
    {
        &self.prods.row(usize::from(pidx)).action
    }

    /// The span of a production's action in the file.
    pub fn action_span(&self, pidx: PIdx<S>) -> Option<Span>
        requires { S.number pidx.0 < length self.now.productions }
        ensures { production_part (λ x. x.action_span) self.now (S.number pidx.0) ≡ Some result }
    {
        self.prods.row(usize::from(pidx)).action_span
    }

    /// The production of the start rule.
    pub fn start_prod(&self) -> PIdx<S>
        ensures value { S.number result.0 ≡ self.now.start_production }
        ensures within { S.number result.0 < length self.now.productions }
    {
        self.start_prod
    }

    /// The number of rules.
    pub fn rules_len(&self) -> RIdx<S>
        ensures { S.number result.0 ≡ length self.now.rules }
    {
        RIdx(to_storage(self.rules.len()))
    }

    /// The rules' indices, in order.
    pub fn iter_rules(&self) -> RIdxIter<S>
        ensures value { result ≡ record { start = 0; end = length self.now.rules } }
        ensures runs { YieldsNumbersInOrder (λ (x : RIdx S). S.number x.0) }
    {
        RIdxIter::new(self.rules.len())
    }

    /// The productions of a rule: each of them once, and no others.
    pub fn rule_to_prods(&self, ridx: RIdx<S>) -> &[PIdx<S>]
        requires { S.number ridx.0 < length self.now.rules }
        ensures value { rule_part (λ x. x.productions) self.now (S.number ridx.0)
            ≡ Some (map (λ p. S.number p.0) result.now) }
        ensures within { All (λ p. S.number p.0 < length self.now.productions) result.now }
        ensures own { (p owner : ℕ) → production_part (λ x. x.rule) self.now p ≡ Some owner
            → count_by (nat_eq p) (map (λ p. S.number p.0) result.now)
            ≡ (if S.number ridx.0 == owner then 1 else 0) }
    {
        self.rules[usize::from(ridx)].prods.as_slice()
    }

    /// The name of a rule.
    #[deprecated(note = "use rule_name_str")]
    pub fn rule_name(&self, ridx: RIdx<S>) -> &str
        requires { S.number ridx.0 < length self.now.rules }
        ensures { rule_part (λ x. x.name) self.now (S.number ridx.0) ≡ Some result.now }
    {
        self.rule_name_str(ridx)
    }

    /// The name of a rule.
    pub fn rule_name_str(&self, ridx: RIdx<S>) -> &str
        requires { S.number ridx.0 < length self.now.rules }
        ensures { rule_part (λ x. x.name) self.now (S.number ridx.0) ≡ Some result.now }
    {
        let (name, _) = self.rules.get_index(usize::from(ridx)).unwrap();
        name.as_str()
    }

    /// The span of a rule's name in the file, or (0,0) for a rule that the file does not have.
    pub fn rule_name_span(&self, ridx: RIdx<S>) -> Span
        requires { S.number ridx.0 < length self.now.rules }
        ensures { rule_part (λ x. x.span) self.now (S.number ridx.0) ≡ Some result }
    {
        self.rules[usize::from(ridx)].span
    }

    /// The type of what a rule's actions return.
    pub fn actiontype(&self, ridx: RIdx<S>) -> &Option<String>
        requires { S.number ridx.0 < length self.now.rules }
        ensures { rule_part (λ x. x.action_type) self.now (S.number ridx.0)
            ≡ Some (option_map string_bytes result.now) }
    {
        &self.rules[usize::from(ridx)].actiont
    }

    /// The rule for the implicit tokens, if there are any.
    pub fn implicit_rule(&self) -> Option<RIdx<S>>
        ensures value { option_map (λ x. S.number x.0) result ≡ self.now.implicit_rule }
        ensures within { IfSome result (λ ridx. S.number ridx.0 < length self.now.rules) }
    {
        self.implicit_rule
    }

    /// The rule with this name: a rule is found by its own name.
    pub fn rule_idx(&self, name: &str) -> Option<RIdx<S>>
        ensures value { option_map (λ x. S.number x.0) result
            ≡ position (λ rule. bytes_eq name.now rule.name) self.now.rules }
        ensures found { (r : ℕ) → rule_part (λ x. x.name) self.now r ≡ Some name.now
            → option_map (λ x. S.number x.0) result ≡ Some r }
        ensures within { IfSome result (λ ridx. S.number ridx.0 < length self.now.rules) }
    {
        match self.rules.get_index_of(name) {
            Some(index) => Some(RIdx(to_storage(index))),
            None => None,
        }
    }

    /// The start rule.
    pub fn start_rule_idx(&self) -> RIdx<S>
        ensures value { S.number result.0 ≡ 0 }
        ensures within { S.number result.0 < length self.now.rules }
    {
        let _tables = &self.rules;
        RIdx(to_storage(0))
    }

    /// The number of tokens, including the end token.
    pub fn tokens_len(&self) -> TIdx<S>
        ensures { S.number result.0 ≡ length self.now.tokens }
    {
        TIdx(to_storage(self.tokens.len() + 1))
    }

    /// The tokens' indices, in order.
    pub fn iter_tidxs(&self) -> TIdxIter<S>
        ensures value { result ≡ record { start = 0; end = length self.now.tokens } }
        ensures runs { YieldsNumbersInOrder (λ (x : TIdx S). S.number x.0) }
    {
        TIdxIter::new(self.tokens.len() + 1)
    }

    /// The end token.
    pub fn eof_token_idx(&self) -> TIdx<S>
        ensures value { S.number result.0 + 1 ≡ length self.now.tokens }
        ensures within { S.number result.0 < length self.now.tokens }
    {
        TIdx(to_storage(self.tokens.len()))
    }

    /// The name of a token. The end token, which is the last, has none; every other token has one.
    pub fn token_name(&self, tidx: TIdx<S>) -> Option<&str>
        requires { S.number tidx.0 < length self.now.tokens }
        ensures value { token_part (λ x. x.name) self.now (S.number tidx.0)
            ≡ Some (option_map (λ name. name.now) result) }
        ensures named { IsSome result ↔ (S.number tidx.0 + 1 < length self.now.tokens) }
    {
        match self.tokens.get_index(usize::from(tidx)) {
            Some((name, _)) => Some(name.as_str()),
            None => None,
        }
    }

    /// The span of a token's name in the file; the end token has none.
    pub fn token_span(&self, tidx: TIdx<S>) -> Option<Span>
        requires { S.number tidx.0 < length self.now.tokens }
        ensures { token_part (λ x. x.span) self.now (S.number tidx.0) ≡ Some result }
    {
        match self.tokens.get_index(usize::from(tidx)) {
            Some((_, row)) => Some(row.span),
            None => None,
        }
    }

    /// The precedence of a token, if the file gives it one.
    pub fn token_precedence(&self, tidx: TIdx<S>) -> Option<Precedence>
        requires { S.number tidx.0 < length self.now.tokens }
        ensures { token_part (λ x. x.precedence) self.now (S.number tidx.0) ≡ Some result }
    {
        match self.tokens.get_index(usize::from(tidx)) {
            Some((_, row)) => row.precedence,
            None => None,
        }
    }

    /// How a token is printed: as its `%epp` says, or else by its name. The end token, which is the last, has no such
    /// text.
    pub fn token_epp(&self, tidx: TIdx<S>) -> Option<&str>
        requires { S.number tidx.0 < length self.now.tokens }
        ensures { token_part (λ x. x.printed) self.now (S.number tidx.0)
            ≡ Some (option_map (λ text. text.now) result) }
    {
        match self.tokens.get_index(usize::from(tidx)) {
            Some((name, row)) => match &row.printed {
                Some(text) => Some(text.as_str()),
                None => Some(name.as_str()),
            },
            None => None,
        }
    }

    /// Whether the file asks error recovery to avoid inserting the token.
    pub fn avoid_insert(&self, tidx: TIdx<S>) -> bool
        requires { S.number tidx.0 < length self.now.tokens }
        ensures { token_part (λ x. x.avoid_insert) self.now (S.number tidx.0) ≡ Some result }
    {
        match self.tokens.get_index(usize::from(tidx)) {
            Some((_, row)) => row.avoid_insert,
            None => false,
        }
    }

    /// The token with this name: a token is found by its own name.
    pub fn token_idx(&self, name: &str) -> Option<TIdx<S>>
        ensures value { option_map (λ x. S.number x.0) result ≡ position (has_token_name name.now) self.now.tokens }
        ensures found { (t : ℕ) → token_part (λ x. x.name) self.now t ≡ Some (Some name.now)
            → option_map (λ x. S.number x.0) result ≡ Some t }
        ensures within { IfSome result (λ tidx. S.number tidx.0 < length self.now.tokens) }
    {
        match self.tokens.get_index_of(name) {
            Some(index) => Some(TIdx(to_storage(index))),
            None => None,
        }
    }

    /// The tokens that have a name, by name.
    ///
    /// # Errors
    ///
    /// Out of memory.
    pub fn tokens_map(&self, alloc: Global) -> Result<HashMap<&str, TIdx<S>>, AllocError>
        ensures { IfOk result (λ map. (name : List ℕ)
            → option_map (λ x. S.number x.0) (get_by (λ key. bytes_eq name key.now) map)
            ≡ position (has_token_name name) self.now.tokens) }
    {
        tokens_by_name(alloc, &self.tokens)
    }

    /// How many shift/reduce conflicts the file expects, if it says so (Bison's `%expect`).
    pub fn expect(&self) -> Option<usize>
        ensures { result ≡ option_map (λ number. number.0) self.now.settings.expect }
    {
        match self.settings.expect {
            Some((number, _)) => Some(number),
            None => None,
        }
    }

    /// How many reduce/reduce conflicts the file expects, if it says so (Bison's `%expect-rr`).
    pub fn expectrr(&self) -> Option<usize>
        ensures { result ≡ option_map (λ number. number.0) self.now.settings.expect_reduce_reduce }
    {
        match self.settings.expectrr {
            Some((number, _)) => Some(number),
            None => None,
        }
    }

    /// The parser's generic parameters, as the file gives them.
    pub fn parse_generics(&self) -> &Option<String>
        ensures { option_map string_bytes result.now ≡ self.now.settings.parse_generics }
    {
        &self.settings.parse_generics
    }

    /// The name and the type of the parser's parameter, as the file gives them.
    pub fn parse_param(&self) -> &Option<(String, String)>
        ensures { option_map pair_view result.now ≡ self.now.settings.parse_param }
    {
        &self.settings.parse_param
    }

    /// The text of the programs section.
    pub fn programs(&self) -> &Option<String>
        ensures { option_map string_bytes result.now ≡ self.now.settings.programs }
    {
        &self.settings.programs
    }
}
