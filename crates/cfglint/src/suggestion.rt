//! What the note on an unknown name says.

ghost use Rattle.std.specs.Prelude.{◌≡◌, ◌++◌, IfOk, OnOk, map, option_map, string_bytes};
ghost use Rattle.std.specs.List.{list_any};
ghost use Rattle.std.specs.Option.{option_map_or};
ghost use Rattle.std.specs.Str.{bytes_eq};
ghost use Rattle.cfgrammar.specs.Errors.{kind_view};
ghost use Rattle.cfgrammar.specs.Syntax.{entry_name};
ghost use Rattle.cfgrammar.specs.TreeView.{syntax};
ghost use Rattle.cfglint.specs.Suggestions.{names_of, no_names, precedence_note, question_of, rule_note, suggestion};

use cfgnear::nearest;
use cfgrammar::yacc::YaccGrammarErrorKind;
use cfgrammar::yacc::ast::GrammarAST;
use std::alloc::{AllocError, Global};
use std::marker::Model;

/// Names of a file with which unknown ones are compared.
#[derive(Drop)]
pub(crate) struct Names<'a> {
    /// The names of the rules, and then of the tokens.
    pub(crate) symbols: Vec<&'a str>,
    /// The names of the tokens that have a precedence.
    precedences: Vec<&'a str>,
}

impl<'a> Model for Names<'a> {
    ghost use Rattle.std.specs.Prelude.{map};
    ghost use Rattle.cfglint.specs.Suggestions.{Names};

    ghost Value = { Names };

    ghost view = { λ x. record {
      symbols = map (λ name. name.now) x.symbols.items;
      precedences = map (λ name. name.now) x.precedences.items;
    } };
}

impl<'a> Names<'a> {
    /// No names.
    pub(crate) fn none(alloc: Global) -> Self
        ensures { result ≡ no_names }
    {
        Names {
            symbols: Vec::new(alloc),
            precedences: Vec::new(alloc),
        }
    }

    /// The names of a file that was read as this tree, if it was.
    ///
    /// # Errors
    ///
    /// Running out of memory.
    pub(crate) fn of(alloc: Global, ast: Option<&'a GrammarAST>) -> Result<Self, AllocError>
        ensures { IfOk result (λ names.
            names ≡ option_map_or names_of (option_map (λ ast. syntax ast.now) ast.entry) no_names) }
    {
        let mut names = Names::none(alloc);
        if let Some(ast) = ast {
            push_rules(&mut names.symbols, ast)?;
            push_tokens(&mut names.symbols, ast)?;
            push_precedences(&mut names.precedences, ast)?;
        }
        Ok(names)
    }

    /// Whether the token with this name has a precedence.
    fn have_precedence(&self, name: &str) -> bool
        ensures { result ≡ list_any (bytes_eq name.now) self.now.precedences }
    {
        is_among(name, &self.precedences)
    }
}

/// Whether a name is one of these.
fn is_among(name: &str, names: &[&str]) -> bool
    ensures { result ≡ list_any (λ other. bytes_eq name.now other.now) names.now }
{
    names.iter().any(|other| name == *other)
}

/// Adds the names of the rules.
fn push_rules<'a>(names: &mut Vec<&'a str>, ast: &'a GrammarAST) -> Result<(), AllocError>
    ensures { OnOk result (map (λ name. name.now) names.new.items
        ≡ map (λ name. name.now) names.old.items ++ map (λ rule. rule.0) (syntax ast.now).rules) }
{
    for (name, _) in ast.rules() {
        names.push(name.as_str())?;
    }
    Ok(())
}

/// Adds the names of the tokens.
fn push_tokens<'a>(names: &mut Vec<&'a str>, ast: &'a GrammarAST) -> Result<(), AllocError>
    ensures { OnOk result (map (λ name. name.now) names.new.items
        ≡ map (λ name. name.now) names.old.items ++ (syntax ast.now).tokens) }
{
    for name in ast.tokens() {
        names.push(name.as_str())?;
    }
    Ok(())
}

/// Adds the names of the tokens that have a precedence.
fn push_precedences<'a>(names: &mut Vec<&'a str>, ast: &'a GrammarAST) -> Result<(), AllocError>
    ensures { OnOk result (map (λ name. name.now) names.new.items
        ≡ map (λ name. name.now) names.old.items ++ map entry_name (syntax ast.now).tables.precedences) }
{
    for (name, _) in ast.precs() {
        names.push(name.as_str())?;
    }
    Ok(())
}

/// The note on an error of this kind, if it has an unknown name.
///
/// # Errors
///
/// Running out of memory.
pub(crate) fn suggestion(
    alloc: Global,
    names: &Names<'_>,
    kind: &YaccGrammarErrorKind,
) -> Result<Option<String>, AllocError>
    ensures { IfOk result (λ hint. option_map (λ words. string_bytes words) hint
        ≡ suggestion names.now (kind_view kind.now)) }
{
    match kind {
        YaccGrammarErrorKind::InvalidStartRule(name)
        | YaccGrammarErrorKind::UnknownToken(name)
        | YaccGrammarErrorKind::UnknownEPP(name) => question_of(alloc, &names.symbols, name),
        YaccGrammarErrorKind::UnknownRuleRef(name) => Ok(Some(rule_note(alloc, names, name)?)),
        YaccGrammarErrorKind::NoPrecForToken(name) => Ok(Some(precedence_note(
            alloc, names, name,
        )?)),
        _ => Ok(None),
    }
}

/// The note on an unknown rule: that it may be a token, or the nearest name.
fn rule_note(alloc: Global, names: &Names<'_>, name: &str) -> Result<String, AllocError>
    ensures { IfOk result (λ words. string_bytes words ≡ rule_note names.now name.now) }
{
    if names.have_precedence(name) {
        return Ok(format!(in alloc;
            "%left, %right and %nonassoc declare no token: declare it by %token too"
        )?);
    }
    match question_of(alloc, &names.symbols, name)? {
        Some(question) => Ok(question),
        None => Ok(format!(in alloc; "if it is a token, declare it by %token")?),
    }
}

/// The note on a token without a precedence: what would give it one, and the nearest name that has one.
fn precedence_note(alloc: Global, names: &Names<'_>, name: &str) -> Result<String, AllocError>
    ensures { IfOk result (λ words. string_bytes words ≡ precedence_note names.now name.now) }
{
    match question_of(alloc, &names.precedences, name)? {
        Some(question) => Ok(format!(in alloc;
            "no %left, %right or %nonassoc names it: {question}"
        )?),
        None => Ok(format!(in alloc; "no %left, %right or %nonassoc names it")?),
    }
}

/// The question whether the nearest of these names is meant, if one is near.
///
/// # Errors
///
/// Running out of memory.
pub(crate) fn question_of(
    alloc: Global,
    names: &[&str],
    name: &str,
) -> Result<Option<String>, AllocError>
    ensures { IfOk result (λ question. option_map (λ words. string_bytes words) question
        ≡ question_of (map (λ name. name.now) names.now) name.now) }
{
    match nearest(alloc, name, names)? {
        Some(other) => Ok(Some(format!(in alloc; "did you mean '{other}'?")?)),
        None => Ok(None),
    }
}
