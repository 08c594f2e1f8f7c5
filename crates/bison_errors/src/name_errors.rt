//! What is wrong with the names of a file.

ghost use Rattle.std.specs.Prelude.{◌≡◌, ◌++◌, List, [], map, filter_map, option_map, is_none, OnOk};
ghost use Rattle.std.specs.Map.{lookup};
ghost use Rattle.std.specs.Str.{bytes_eq};
ghost use Rattle.std.specs.List.{flat_map};
ghost use Rattle.std.specs.String.{string_bytes};
ghost use Rattle.cfgast.specs.Check.{symbol_error};
ghost use Rattle.cfgast.specs.TreeView.{syntax};
ghost use Rattle.cfgitems.specs.Building.{has_rule};
ghost use Rattle.cfgitems.specs.SyntaxView.{named_view, occurrence_view, rule_view, symbol_view};
ghost use Rattle.cfgitems.specs.Syntax as plain;
ghost use Rattle.bison_reader.specs.Items.{item_view};
ghost use Rattle.bison_words.specs.Words.{word_view};
ghost use Rattle.bison_errors.specs.Errors.{declaration_errors, given_error, is_unknown, missing_errors, name_errors};
ghost use Rattle.bison_errors.specs.Errors.{precedence_error, rule_error, span_of_token, start_error, start_errors};
ghost use Rattle.bison_errors.specs.Errors.{symbols_of, tree_errors, unknown_after};
ghost use Rattle.bison_tree.specs.Tree.{first_start};

use crate::error::{Error, ErrorKind, push};
use bison_reader::Item;
use bison_tree::{add_name, first_start, has_name, index_of, name_at, span_at};
use bison_words::Word;
use cfgast::GrammarAST;
use cfgbase::Span;
use cfgitems::{Occurrence, Precedence, Rule, Symbol, UniqueKind};
use indexmap::IndexSet;
use std::alloc::{AllocError, Global};

/// Adds a name of the start that isn't the first one.
fn push_start(
    errors: &mut Vec<Error>,
    words: &[Word<'_>],
    names: &[String],
    first: Option<usize>,
    word: usize,
) -> Result<(), AllocError>
    ensures { OnOk result (errors.new.items
        ≡ errors.old.items ++ start_error (map word_view words.now) (map string_bytes names.now) first word) }
{
    if let Some(first) = first {
        if name_at(names, first) != name_at(names, word) {
            let (span, other) = (span_at(words, word), span_at(words, first));
            return push(errors, Error::beside(ErrorKind::SeveralStarts, span, other));
        }
    }
    Ok(())
}

/// Adds what is wrong with the declaration that an item is.
fn push_declaration(
    errors: &mut Vec<Error>,
    words: &[Word<'_>],
    names: &[String],
    first: Option<usize>,
    item: &Item,
) -> Result<(), AllocError>
    ensures { OnOk result (errors.new.items ≡ errors.old.items
        ++ declaration_errors (map word_view words.now) (map string_bytes names.now) first (item_view item.now)) }
{
    match item {
        Item::NotForRules(word) => {
            push(
                errors,
                Error::at(ErrorKind::NotForRules, span_at(words, *word)),
            )
        }
        Item::Start(word) => push_start(errors, words, names, first, *word),
        _ => Ok(()),
    }
}

/// Adds what is wrong with declarations.
fn push_declarations(
    errors: &mut Vec<Error>,
    words: &[Word<'_>],
    names: &[String],
    items: &[Item],
) -> Result<(), AllocError>
    ensures { OnOk result (errors.new.items ≡ errors.old.items
        ++ flat_map (declaration_errors (map word_view words.now) (map string_bytes names.now)
        (first_start (map item_view items.now))) (map item_view items.now)) }
{
    let first = first_start(items);
    for item in items {
        push_declaration(errors, words, names, first, item)?;
    }
    Ok(())
}

/// Where a name is a token's first.
fn span_of_token(ast: &GrammarAST, name: &str) -> Span
    ensures { result ≡ span_of_token (syntax ast.now) name.now }
{
    let Some(index) = index_of(ast.tokens(), name) else {
        return Span::new(0, 0);
    };
    match ast.spans().get(index) {
        Some(span) => *span,
        None => Span::new(0, 0),
    }
}

/// The error of a rule that is a token.
fn rule_error(ast: &GrammarAST, name: &str, rule: &Rule) -> Option<Error>
    ensures { result ≡ rule_error (syntax ast.now) (name.now, rule_view rule.now) }
{
    if !has_name(ast.tokens(), name) {
        return None;
    }
    Some(Error::beside(
        ErrorKind::RuleIsToken,
        rule.name.1,
        span_of_token(ast, name),
    ))
}

/// Adds rules that are tokens.
fn push_rules(errors: &mut Vec<Error>, ast: &GrammarAST) -> Result<(), AllocError>
    ensures { OnOk result (errors.new.items
        ≡ errors.old.items ++ filter_map (rule_error (syntax ast.now)) (syntax ast.now).rules) }
{
    for (name, rule) in ast.rules() {
        if let Some(error) = rule_error(ast, name.as_str(), rule) {
            push(errors, error)?;
        }
    }
    Ok(())
}

/// The precedence of a token, and where it is given first.
fn given<'a>(ast: &'a GrammarAST, name: &str) -> Option<&'a (Precedence, Span)>
    ensures { option_map (λ given. given.now) result ≡ lookup (bytes_eq name.now) (syntax ast.now).tables.precedences }
{
    ast.precs().get(name)
}

/// The error of a precedence that is given at this span, if it isn't the first of its token.
fn given_error(ast: &GrammarAST, name: &str, span: Span) -> Option<Error>
    ensures { result ≡ given_error span (lookup (bytes_eq name.now) (syntax ast.now).tables.precedences) }
{
    match given(ast, name) {
        Some((_, first)) if first.start() != span.start() => {
            Some(Error::beside(ErrorKind::DuplicatePrecedence, span, *first))
        }
        _ => None,
    }
}

/// The error of a token's precedence that isn't the first one given to it.
fn precedence_error(ast: &GrammarAST, occurrence: &Occurrence) -> Option<Error>
    ensures { result ≡ precedence_error (syntax ast.now) (occurrence_view occurrence.now) }
{
    match (occurrence.what.kind, &occurrence.what.token) {
        (UniqueKind::Precedence, Some(name)) => given_error(ast, name.as_str(), occurrence.span),
        _ => None,
    }
}

/// Adds precedences of tokens that have one.
fn push_precedences(errors: &mut Vec<Error>, ast: &GrammarAST) -> Result<(), AllocError>
    ensures { OnOk result (errors.new.items
        ≡ errors.old.items ++ filter_map (precedence_error (syntax ast.now)) (syntax ast.now).occurrences) }
{
    for occurrence in ast.occurrences() {
        if let Some(error) = precedence_error(ast, occurrence) {
            push(errors, error)?;
        }
    }
    Ok(())
}

/// Whether a rule has the name.
fn has_rule(ast: &GrammarAST, name: &str) -> bool
    ensures { result ≡ has_rule name.now (syntax ast.now).rules }
{
    ast.get_rule(name).is_some()
}

/// Whether a symbol is a token or a rule.
fn is_known(ast: &GrammarAST, symbol: &Symbol) -> bool
    ensures { result ≡ is_none (symbol_error (syntax ast.now) (symbol_view symbol.now)) }
{
    match symbol {
        Symbol::Rule(name, _) => has_rule(ast, name.as_str()),
        Symbol::Token(name, _) => has_name(ast.tokens(), name.as_str()),
    }
}

/// Adds symbols that are neither tokens nor rules, each name once.
fn push_unknown(
    alloc: Global,
    errors: &mut Vec<Error>,
    known: &mut IndexSet<String>,
    ast: &GrammarAST,
    symbols: &[Symbol],
) -> Result<(), AllocError>
    ensures { OnOk result ((rest : List plain.Symbol)
        → errors.new.items ++ unknown_after (syntax ast.now) (map string_bytes known.new.keys) rest
        ≡ errors.old.items ++ unknown_after (syntax ast.now) (map string_bytes known.old.keys)
        (map symbol_view symbols.now ++ rest)) }
{
    for symbol in symbols {
        let (Symbol::Rule(name, span) | Symbol::Token(name, span)) = symbol;
        if !is_known(ast, symbol) && !has_name(known, name.as_str()) {
            push(errors, Error::at(ErrorKind::UnknownSymbol, *span))?;
            add_name(alloc, known, name.as_str())?;
        }
    }
    Ok(())
}

/// Adds symbols of all productions that are neither tokens nor rules.
fn push_all_unknown(
    alloc: Global,
    errors: &mut Vec<Error>,
    ast: &GrammarAST,
) -> Result<(), AllocError>
    ensures { OnOk result (errors.new.items
        ≡ errors.old.items ++ unknown_after (syntax ast.now) [] (symbols_of (syntax ast.now))) }
{
    let mut known = IndexSet::new(alloc);
    for production in ast.prods() {
        push_unknown(
            alloc,
            errors,
            &mut known,
            ast,
            production.symbols.as_slice(),
        )?;
    }
    Ok(())
}

/// Adds that there is no production, and a start that isn't a rule.
fn push_start_errors(errors: &mut Vec<Error>, ast: &GrammarAST) -> Result<(), AllocError>
    ensures { OnOk result (errors.new.items
        ≡ errors.old.items ++ start_errors (syntax ast.now) (syntax ast.now).start) }
{
    let Some((name, span)) = ast.start() else {
        return push(errors, Error::at(ErrorKind::NoRule, Span::new(0, 0)));
    };
    if ast.prods().len() == 0 {
        push(errors, Error::at(ErrorKind::NoRule, Span::new(0, 0)))?;
    }
    if !has_rule(ast, name.as_str()) {
        return push(errors, Error::at(ErrorKind::InvalidStart, *span));
    }
    Ok(())
}

/// Adds what is missing. It is an error only in a text without errors.
fn push_missing(
    alloc: Global,
    errors: &mut Vec<Error>,
    ast: &GrammarAST,
    is_whole: bool,
) -> Result<(), AllocError>
    ensures { OnOk result (errors.new.items ≡ errors.old.items ++ missing_errors is_whole (syntax ast.now)) }
{
    if !is_whole {
        return Ok(());
    }
    push_all_unknown(alloc, errors, ast)?;
    push_start_errors(errors, ast)
}

/// Adds what is wrong with a tree.
fn push_tree(errors: &mut Vec<Error>, ast: &GrammarAST) -> Result<(), AllocError>
    ensures { OnOk result (errors.new.items ≡ errors.old.items ++ tree_errors (syntax ast.now)) }
{
    push_rules(errors, ast)?;
    push_precedences(errors, ast)
}

/// Adds what is wrong with the names of a file. `is_whole` says that its text has no error.
pub(crate) fn push_name_errors(
    alloc: Global,
    errors: &mut Vec<Error>,
    is_whole: bool,
    words: &[Word<'_>],
    names: &[String],
    items: &[Item],
    ast: &GrammarAST,
) -> Result<(), AllocError>
    ensures { OnOk result (errors.new.items ≡ errors.old.items
        ++ name_errors is_whole (map word_view words.now) (map string_bytes names.now) (map item_view items.now)
        (syntax ast.now)) }
{
    push_declarations(errors, words, names, items)?;
    push_tree(errors, ast)?;
    push_missing(alloc, errors, ast, is_whole)
}
