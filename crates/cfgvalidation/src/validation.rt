//! Validation: whether what a syntax names exists.

ghost use Rattle.std.specs.Prelude.{◌≡◌, IfOk, map, option_map, string_bytes};
ghost use Rattle.cfgitems.specs.Building.{has_entry, has_name, has_rule};
ghost use Rattle.cfgitems.specs.SyntaxView.{symbol_view, text_view, production_view};
ghost use Rattle.cfgast.specs.TreeView.{syntax};
ghost use Rattle.cfgast.specs.Check.{start_error, symbol_error};
ghost use Rattle.cfgast.specs.Check.{precedence_error, production_error, printed_error, locate_error, rule_error};
ghost use Rattle.cfgast.specs.Check.{first_error, check_of};
ghost use Rattle.cfgvalidation.specs.ValidationError.{found, validation_error};

use cfgast::GrammarAST;
use cfgbase::Span;
use cfgerrors::YaccGrammarErrorKind::{
    InvalidStartRule, NoPrecForToken, NoStartRule, UnknownEPP, UnknownRuleRef, UnknownToken,
};
use cfgerrors::{YaccGrammarError, error_at};
use cfgitems::{Production, Rule, Symbol};
use std::alloc::{AllocError, Global};

/// What a check finds wrong. It borrows the name, so checks allocate nothing.
#[derive(Drop)]
pub enum ValidationError<'a> {
    /// No rule is the start.
    NoStart,
    /// The start, with its name and span, is not a rule.
    Start(&'a str, Span),
    /// No rule has the name at this span.
    Rule(&'a str, Span),
    /// No token has the name at this span, or, if the span is empty and at the text's start, the name that a `%prec`
    /// gives.
    Token(&'a str, Span),
    /// The token of a `%prec` has no precedence.
    Precedence(&'a str),
    /// The key of an `%epp`, with its span, is not a token.
    PrintedForm(&'a str, Span),
}

impl ValidationError<'_> {
    /// The error for this finding.
    ///
    /// # Errors
    ///
    /// `AllocError` if an allocation fails.
    pub fn error(self, alloc: Global) -> Result<YaccGrammarError, AllocError>
        ensures { IfOk result (λ error. error ≡ validation_error self.entry) }
    {
        let (kind, span) = match self {
            ValidationError::NoStart => (NoStartRule, Span::new(0, 0)),
            ValidationError::Start(name, span) => (
                InvalidStartRule(String::from_str(alloc, name)?),
                span,
            ),
            ValidationError::Rule(name, span) => (
                UnknownRuleRef(String::from_str(alloc, name)?),
                span,
            ),
            ValidationError::Token(name, span) => (
                UnknownToken(String::from_str(alloc, name)?),
                span,
            ),
            ValidationError::Precedence(name) => (
                NoPrecForToken(String::from_str(alloc, name)?),
                Span::new(0, 0),
            ),
            ValidationError::PrintedForm(name, span) => (
                UnknownEPP(String::from_str(alloc, name)?),
                span,
            ),
        };
        error_at(alloc, kind, span)
    }
}

/// Whether a rule of the tree has the name.
pub fn has_rule(ast: &GrammarAST, name: &str) -> bool
    ensures { result ≡ has_rule name.now (syntax ast.now).rules }
{
    ast.get_rule(name).is_some()
}

fn has_token(ast: &GrammarAST, name: &str) -> bool
    ensures { result ≡ has_name name.now (syntax ast.now).tokens }
{
    ast.has_token(name)
}

pub(crate) fn check_start(ast: &GrammarAST) -> Result<(), ValidationError<'_>>
    ensures { found result ≡ start_error (syntax ast.now) (syntax ast.now).start }
{
    match ast.start() {
        None => Err(ValidationError::NoStart),
        Some((name, _)) if has_rule(ast, name.as_str()) => Ok(()),
        Some((name, span)) => Err(ValidationError::Start(name.as_str(), *span)),
    }
}

pub(crate) fn check_symbol<'a>(
    ast: &GrammarAST,
    symbol: &'a Symbol,
) -> Result<(), ValidationError<'a>>
    ensures { found result ≡ symbol_error (syntax ast.now) (symbol_view symbol.now) }
{
    match symbol {
        Symbol::Rule(name, _) if has_rule(ast, name.as_str()) => Ok(()),
        Symbol::Rule(name, span) => Err(ValidationError::Rule(name.as_str(), *span)),
        Symbol::Token(name, _) if has_token(ast, name.as_str()) => Ok(()),
        Symbol::Token(name, span) => Err(ValidationError::Token(name.as_str(), *span)),
    }
}

fn has_precedence(ast: &GrammarAST, name: &str) -> bool
    ensures { result ≡ has_entry name.now (syntax ast.now).tables.precedences }
{
    ast.precs().contains_key(name)
}

pub(crate) fn check_precedence<'a>(
    ast: &GrammarAST,
    token: &'a Option<String>,
) -> Result<(), ValidationError<'a>>
    ensures { found result ≡ precedence_error (syntax ast.now) (option_map string_bytes token.now) }
{
    match token {
        None => Ok(()),
        Some(name) if !has_token(ast, name.as_str()) => {
            Err(ValidationError::Token(name.as_str(), Span::new(0, 0)))
        }
        Some(name) if has_precedence(ast, name.as_str()) => Ok(()),
        Some(name) => Err(ValidationError::Precedence(name.as_str())),
    }
}

fn check_symbols<'a>(ast: &GrammarAST, symbols: &'a [Symbol]) -> Result<(), ValidationError<'a>>
    ensures { found result ≡ first_error (symbol_error (syntax ast.now)) (map symbol_view symbols.now) }
{
    for symbol in symbols {
        check_symbol(ast, symbol)?;
    }
    Ok(())
}

fn check_production<'a>(
    ast: &GrammarAST,
    production: &'a Production,
) -> Result<(), ValidationError<'a>>
    ensures { found result ≡ production_error (syntax ast.now) (production_view production.now) }
{
    check_precedence(ast, &production.precedence)?;
    check_symbols(ast, &production.symbols)
}

fn check_index(ast: &GrammarAST, index: usize) -> Result<(), ValidationError<'_>>
    ensures { found result ≡ locate_error (syntax ast.now) index }
{
    match ast.prods().get(index) {
        None => Ok(()),
        Some(production) => check_production(ast, production),
    }
}

fn check_rule<'a>(ast: &'a GrammarAST, rule: &Rule) -> Result<(), ValidationError<'a>>
    ensures { found result ≡ first_error (locate_error (syntax ast.now)) rule.now.pidxs.items }
{
    for index in &rule.pidxs {
        check_index(ast, *index)?;
    }
    Ok(())
}

fn check_rules(ast: &GrammarAST) -> Result<(), ValidationError<'_>>
    ensures { found result ≡ first_error (rule_error (syntax ast.now)) (syntax ast.now).rules }
{
    for (_, rule) in ast.rules() {
        check_rule(ast, rule)?;
    }
    Ok(())
}

/// Checks the key of an `%epp`.
pub(crate) fn check_printed_form<'a>(
    ast: &GrammarAST,
    name: &'a str,
    printed: &(Span, (String, Span)),
) -> Result<(), ValidationError<'a>>
    ensures { found result
        ≡ printed_error (syntax ast.now) (name.now, (printed.now.0, text_view printed.now.1)) }
{
    if has_token(ast, name) {
        Ok(())
    } else {
        Err(ValidationError::PrintedForm(name, printed.0))
    }
}

fn check_printed_forms(ast: &GrammarAST) -> Result<(), ValidationError<'_>>
    ensures { found result ≡ first_error (printed_error (syntax ast.now)) (syntax ast.now).tables.printed_forms }
{
    for (name, printed) in ast.epp() {
        check_printed_form(ast, name.as_str(), printed)?;
    }
    Ok(())
}

/// Validates a tree: that its start is a rule; rule by rule and production by production, that the token of a `%prec`
/// is a token and has a precedence, and that what each symbol names exists; that each key of `%epp` is a token; and
/// that what each symbol of `%expect-unused` names exists. It allocates nothing.
///
/// # Errors
///
/// The first check that the syntax fails.
#[tactic(auto, unfolding(cfgast::specs::Check::check_of))]
pub fn check(ast: &GrammarAST) -> Result<(), ValidationError<'_>>
    ensures { found result ≡ check_of (syntax ast.now) }
{
    check_start(ast)?;
    check_rules(ast)?;
    check_printed_forms(ast)?;
    check_symbols(ast, ast.expect_unused())
}
