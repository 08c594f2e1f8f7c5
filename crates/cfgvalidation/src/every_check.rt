//! Every check of validation that a tree fails.

ghost use Rattle.std.specs.Prelude.{◌≡◌, ◌++◌, IfOk, OnOk, map, slice_get};
ghost use Rattle.std.specs.List.{filter_map, flat_map};
ghost use Rattle.std.specs.Option.{option_to_list};
ghost use Rattle.cfgitems.specs.SyntaxView.{production_view, symbol_view};
ghost use Rattle.cfgast.specs.Check.{check_of, printed_error, symbol_error};
ghost use Rattle.cfgast.specs.TreeView.{syntax};
ghost use Rattle.cfgvalidation.specs.EveryError.{every_error, located_errors, production_errors, rule_errors};
ghost use Rattle.cfgvalidation.specs.ValidationError.{found};

use crate::validation::{
    ValidationError, check_precedence, check_printed_form, check_start, check_symbol,
};
use cfgast::GrammarAST;
use cfgerrors::YaccGrammarError;
use cfgitems::{Production, Rule, Symbol};
use std::alloc::{AllocError, Global};

/// Every check of validation that the tree fails, as its error, in the order of the checks: that there is a start and
/// that it is a rule; rule by rule and production by production, that the token of a `%prec` is a token and has a
/// precedence, and that what each symbol names exists; that each key of `%epp` is a token; and that what each symbol of
/// `%expect-unused` names exists. The first of them is the one among the errors of an
/// `ASTWithValidityInfo`. It takes time proportional to the tree.
///
/// # Errors
///
/// `AllocError` if an allocation fails.
#[tactic(auto, unfolding(crate::specs::EveryError::every_error))]
pub fn every_error(alloc: Global, ast: &GrammarAST) -> Result<Vec<YaccGrammarError>, AllocError>
    ensures every { IfOk result (λ errors. errors.items ≡ every_error (syntax ast.now)) }
    ensures first { IfOk result (λ errors. slice_get errors.items 0 ≡ check_of (syntax ast.now)) }
{
    let mut errors = Vec::new(alloc);
    push_failed(alloc, &mut errors, check_start(ast))?;
    push_rules(alloc, &mut errors, ast)?;
    push_printed_forms(alloc, &mut errors, ast)?;
    push_symbols(alloc, &mut errors, ast, ast.expect_unused())?;
    Ok(errors)
}

fn push_rules(
    alloc: Global,
    errors: &mut Vec<YaccGrammarError>,
    ast: &GrammarAST,
) -> Result<(), AllocError>
    ensures { OnOk result (errors.new.items
        ≡ errors.old.items ++ flat_map (rule_errors (syntax ast.now)) (syntax ast.now).rules) }
{
    for (_, rule) in ast.rules() {
        push_rule(alloc, errors, ast, rule)?;
    }
    Ok(())
}

fn push_rule(
    alloc: Global,
    errors: &mut Vec<YaccGrammarError>,
    ast: &GrammarAST,
    rule: &Rule,
) -> Result<(), AllocError>
    ensures { OnOk result (errors.new.items
        ≡ errors.old.items ++ flat_map (located_errors (syntax ast.now)) rule.now.pidxs.items) }
{
    for index in &rule.pidxs {
        push_index(alloc, errors, ast, *index)?;
    }
    Ok(())
}

fn push_index(
    alloc: Global,
    errors: &mut Vec<YaccGrammarError>,
    ast: &GrammarAST,
    index: usize,
) -> Result<(), AllocError>
    ensures { OnOk result (errors.new.items ≡ errors.old.items ++ located_errors (syntax ast.now) index) }
{
    match ast.prods().get(index) {
        None => Ok(()),
        Some(production) => push_production(alloc, errors, ast, production),
    }
}

fn push_production(
    alloc: Global,
    errors: &mut Vec<YaccGrammarError>,
    ast: &GrammarAST,
    production: &Production,
) -> Result<(), AllocError>
    ensures { OnOk result (errors.new.items
        ≡ errors.old.items ++ production_errors (syntax ast.now) (production_view production.now)) }
{
    push_failed(alloc, errors, check_precedence(ast, &production.precedence))?;
    push_symbols(alloc, errors, ast, &production.symbols)
}

fn push_symbols(
    alloc: Global,
    errors: &mut Vec<YaccGrammarError>,
    ast: &GrammarAST,
    symbols: &[Symbol],
) -> Result<(), AllocError>
    ensures { OnOk result (errors.new.items
        ≡ errors.old.items ++ filter_map (symbol_error (syntax ast.now)) (map symbol_view symbols.now)) }
{
    for symbol in symbols {
        push_failed(alloc, errors, check_symbol(ast, symbol))?;
    }
    Ok(())
}

fn push_printed_forms(
    alloc: Global,
    errors: &mut Vec<YaccGrammarError>,
    ast: &GrammarAST,
) -> Result<(), AllocError>
    ensures { OnOk result (errors.new.items ≡ errors.old.items
        ++ filter_map (printed_error (syntax ast.now)) (syntax ast.now).tables.printed_forms) }
{
    for (name, printed) in ast.epp() {
        push_failed(
            alloc,
            errors,
            check_printed_form(ast, name.as_str(), printed),
        )?;
    }
    Ok(())
}

/// Adds the error of a check that failed.
fn push_failed(
    alloc: Global,
    errors: &mut Vec<YaccGrammarError>,
    check: Result<(), ValidationError<'_>>,
) -> Result<(), AllocError>
    ensures { OnOk result (errors.new.items ≡ errors.old.items ++ option_to_list (found check.entry)) }
{
    if let Err(invalid) = check {
        errors.push(invalid.error(alloc)?)?;
    }
    Ok(())
}
