//! The rule that the end of a text cuts.

ghost use Rattle.std.specs.Prelude.{◌≡◌, map, option_map};
ghost use Rattle.cfgrammar.specs.Errors.{kind_view};
ghost use Rattle.cfgrammar.specs.SyntaxView.{production_view, rule_view};
ghost use Rattle.cfgrammar.specs.TreeView.{syntax};
ghost use Rattle.cfglint.specs.OpenRule.{after_action, after_blanks, after_production, cut_rule, goes_on, is_open};
ghost use Rattle.cfglint.specs.OpenRule.{open_rule};

use cfgrammar::Span;
use cfgrammar::yacc::YaccGrammarErrorKind;
use cfgrammar::yacc::ast::{GrammarAST, Production, Rule};
use cfgwords::actions::leading_action;
use cfgwords::bytes::ByteClass;
use cfgwords::run::run;
use constructs::after_word;

/// The name of the rule that an error of this kind is about, if the error is that the end of the text cuts a rule, and
/// if it is known which one.
pub(crate) fn cut_rule(
    text: &str,
    ast: Option<&GrammarAST>,
    kind: &YaccGrammarErrorKind,
) -> Option<Span>
    ensures { result ≡ cut_rule text.now (option_map (λ ast. syntax ast.now) ast.entry) (kind_view kind.now) }
{
    match (kind, ast) {
        (YaccGrammarErrorKind::IncompleteRule, Some(ast)) => open_rule(text, ast),
        _ => None,
    }
}

/// The name of the rule that no `;` ends: of the last one that is named first, if it is open.
fn open_rule(text: &str, ast: &GrammarAST) -> Option<Span>
    ensures { result ≡ open_rule text.now (syntax ast.now) }
{
    let last = ast.rules().len().saturating_sub(1);
    let (_, rule) = ast.rules().get_index(last)?;
    if is_open(text, ast.prods(), rule) {
        Some(rule.name.1)
    } else {
        None
    }
}

/// Whether a rule is open: it has no production yet, or another one follows its last, which is the last of all.
fn is_open(text: &str, productions: &[Production], rule: &Rule) -> bool
    ensures { result ≡ is_open text.now (map production_view productions.now) (rule_view rule.now) }
{
    let Some(index) = rule.pidxs.last() else {
        return true;
    };
    match productions.get(*index) {
        Some(production) => productions.len() - *index == 1 && goes_on(text, production),
        None => false,
    }
}

/// Whether a `|` follows a production.
fn goes_on(text: &str, production: &Production) -> bool
    ensures { result ≡ goes_on text.now (production_view production.now) }
{
    after_word(after_production(text, production), "|").is_some()
}

/// The text after a production, its action, if it has one, and the blanks there.
fn after_production<'a>(text: &'a str, production: &Production) -> &'a str
    ensures { result.now ≡ after_production text.now (production_view production.now) }
{
    let end = production.prod_span.end();
    if !text.is_char_boundary(end) {
        return "";
    }
    let rest = after_blanks(text.split_at(end).1);
    match &production.action {
        Some(_) => after_action(rest),
        None => rest,
    }
}

/// The text after an action and the blanks there.
fn after_action(text: &str) -> &str
    ensures { result.now ≡ after_action text.now }
{
    match leading_action(text) {
        Some((_, rest)) => after_blanks(rest),
        None => "",
    }
}

/// The text after its blanks.
fn after_blanks(text: &str) -> &str
    ensures { result.now ≡ after_blanks text.now }
{
    run(text, ByteClass::Blank).1
}
