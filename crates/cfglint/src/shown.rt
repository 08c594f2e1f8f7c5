//! The errors that are shown.

ghost use Rattle.std.specs.Prelude.{◌≡◌, ◌++◌, IfOk, OnOk, not};
ghost use Rattle.std.specs.List.{filter, filter_map};
ghost use Rattle.std.specs.Option.{option_map, option_to_list};
ghost use Rattle.cfgrammar.specs.Errors.{GrammarError, kind_view};
ghost use Rattle.cfgrammar.specs.EveryError.{every_error};
ghost use Rattle.cfgrammar.specs.SyntaxView.{production_view};
ghost use Rattle.cfgrammar.specs.TreeView.{syntax};
ghost use Rattle.cfglint.specs.ShownErrors.{cut_error, every_check, failed_checks, is_of_precedence, is_of_validation};
ghost use Rattle.cfglint.specs.ShownErrors.{is_stopped, placed, precedence_error, shown_errors, stops_reading};

use crate::open_rule::cut_rule;
use cfgrammar::yacc::ast::{GrammarAST, Production, every_error};
use cfgrammar::yacc::{YaccGrammarError, YaccGrammarErrorKind};
use cfgrammar::{Span, Spanned};
use std::alloc::{AllocError, Global};
use text_findings::has_precedence;

/// The errors that are shown of a text that was read as this tree, unless it names no kind, and has these errors: those
/// that aren't of validation, and then every check of validation that fails. Where an error stopped the reading these
/// aren't shown: what was not read may mend them. The name of a rule that the text's end cuts is that error's second
/// span.
///
/// # Errors
///
/// Running out of memory.
pub(crate) fn shown_errors(
    alloc: Global,
    text: &str,
    ast: Option<&GrammarAST>,
    errors: &[YaccGrammarError],
) -> Result<Vec<YaccGrammarError>, AllocError>
    ensures { IfOk result (λ shown. shown.items
        ≡ shown_errors text.now (option_map (λ ast. syntax ast.now) ast.entry) errors.now) }
{
    let mut shown = Vec::new(alloc);
    for error in errors {
        if !is_of_validation(error.kind()) {
            shown.push(placed(alloc, text, ast, error)?)?;
        }
    }
    shown.append(&mut failed_checks(alloc, ast, errors)?)?;
    Ok(shown)
}

/// An error, and as its second span the name of the rule that the text's end cuts, if that is the error.
fn placed(
    alloc: Global,
    text: &str,
    ast: Option<&GrammarAST>,
    error: &YaccGrammarError,
) -> Result<YaccGrammarError, AllocError>
    ensures { IfOk result (λ it. it
        ≡ placed text.now (option_map (λ ast. syntax ast.now) ast.entry) error.now) }
{
    match cut_rule(text, ast, error.kind()) {
        Some(name) => cut_error(alloc, error.spans(), name),
        None => error.clone(),
    }
}

/// The error at these spans that the end of the text cuts the rule of this name.
fn cut_error(alloc: Global, spans: &[Span], name: Span) -> Result<YaccGrammarError, AllocError>
    ensures { IfOk result (λ error. error ≡ cut_error spans.now name) }
{
    let mut spans = spans.to_vec(alloc)?;
    spans.push(name)?;
    Ok(YaccGrammarError::new(YaccGrammarErrorKind::IncompleteRule, spans))
}

/// The checks of validation that fail, unless an error stopped the reading.
fn failed_checks(
    alloc: Global,
    ast: Option<&GrammarAST>,
    errors: &[YaccGrammarError],
) -> Result<Vec<YaccGrammarError>, AllocError>
    ensures { IfOk result (λ failed. failed.items
        ≡ failed_checks (option_map (λ ast. syntax ast.now) ast.entry) errors.now) }
{
    match ast {
        Some(ast) if !is_stopped(errors) => every_check(alloc, ast),
        _ => Ok(Vec::new(alloc)),
    }
}

/// Every check of validation that fails: those of `%prec`s last, and at their productions.
fn every_check(alloc: Global, ast: &GrammarAST) -> Result<Vec<YaccGrammarError>, AllocError>
    ensures { IfOk result (λ failed. failed.items ≡ every_check (syntax ast.now)) }
{
    let mut failed = other_checks(alloc, ast)?;
    for production in ast.prods() {
        push_precedence_error(alloc, &mut failed, ast, production)?;
    }
    Ok(failed)
}

/// Every check of validation that fails and isn't one of a `%prec`.
fn other_checks(alloc: Global, ast: &GrammarAST) -> Result<Vec<YaccGrammarError>, AllocError>
    ensures { IfOk result (λ failed. failed.items
        ≡ filter (λ (error : GrammarError). not (is_of_precedence error.kind)) (every_error (syntax ast.now))) }
{
    every_error(alloc, ast)?
        .into_iter()
        .filter(|error| !is_of_precedence(error.kind()))
        .collect(alloc)
}

/// Adds the error of a production whose `%prec` names a token without a precedence.
fn push_precedence_error(
    alloc: Global,
    failed: &mut Vec<YaccGrammarError>,
    ast: &GrammarAST,
    production: &Production,
) -> Result<(), AllocError>
    ensures { OnOk result (failed.new.items ≡ failed.old.items
        ++ option_to_list (precedence_error (syntax ast.now) (production_view production.now))) }
{
    let Some(name) = &production.precedence else {
        return Ok(());
    };
    if has_precedence(ast, name) {
        return Ok(());
    }
    let mut spans = Vec::new(alloc);
    spans.push(production.prod_span)?;
    let kind = YaccGrammarErrorKind::NoPrecForToken(name.clone()?);
    failed.push(YaccGrammarError::new(kind, spans))?;
    Ok(())
}

/// Whether an error of this kind is that of a `%prec`.
fn is_of_precedence(kind: &YaccGrammarErrorKind) -> bool
    ensures { result ≡ is_of_precedence (kind_view kind.now) }
{
    matches!(kind, YaccGrammarErrorKind::NoPrecForToken(_))
}

/// Whether one of the errors stopped the reading.
fn is_stopped(errors: &[YaccGrammarError]) -> bool
    ensures { result ≡ is_stopped errors.now }
{
    errors.iter().any(|error| stopped_at(error))
}

/// Whether this error stopped the reading.
fn stopped_at(error: &YaccGrammarError) -> bool
    ensures { result ≡ stops_reading error.now.kind }
{
    stops_reading(error.kind())
}

/// Whether an error of this kind stopped the reading.
fn stops_reading(kind: &YaccGrammarErrorKind) -> bool
    ensures { result ≡ stops_reading (kind_view kind.now) }
{
    match kind {
        YaccGrammarErrorKind::DuplicatePrecedence
        | YaccGrammarErrorKind::DuplicateAvoidInsertDeclaration
        | YaccGrammarErrorKind::DuplicateImplicitTokensDeclaration
        | YaccGrammarErrorKind::DuplicateExpectDeclaration
        | YaccGrammarErrorKind::DuplicateExpectRRDeclaration
        | YaccGrammarErrorKind::DuplicateStartDeclaration
        | YaccGrammarErrorKind::DuplicateActiontypeDeclaration
        | YaccGrammarErrorKind::DuplicateEPP
        | YaccGrammarErrorKind::StorageTooSmall
        | YaccGrammarErrorKind::NoStartRule
        | YaccGrammarErrorKind::InvalidStartRule(_)
        | YaccGrammarErrorKind::UnknownRuleRef(_)
        | YaccGrammarErrorKind::UnknownToken(_)
        | YaccGrammarErrorKind::NoPrecForToken(_)
        | YaccGrammarErrorKind::UnknownEPP(_) => false,
        _ => true,
    }
}

/// Whether an error of this kind is one of validation.
fn is_of_validation(kind: &YaccGrammarErrorKind) -> bool
    ensures { result ≡ is_of_validation (kind_view kind.now) }
{
    match kind {
        YaccGrammarErrorKind::NoStartRule
        | YaccGrammarErrorKind::InvalidStartRule(_)
        | YaccGrammarErrorKind::UnknownRuleRef(_)
        | YaccGrammarErrorKind::UnknownToken(_)
        | YaccGrammarErrorKind::NoPrecForToken(_)
        | YaccGrammarErrorKind::UnknownEPP(_) => true,
        _ => false,
    }
}
