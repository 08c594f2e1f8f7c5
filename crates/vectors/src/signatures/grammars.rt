//! Trees and grammars: what rows don't ask of them.

ghost use Rattle.std.specs.Prelude.{◌<◌, length};

use cfgrammar::yacc::ast::{ASTWithValidityInfo, GrammarAST, Rule};
use cfgrammar::yacc::follows::YaccFollows;
use cfgrammar::yacc::parser::{self, YaccGrammarResult};
use cfgrammar::yacc::{YaccGrammar, YaccKind};
use cfgrammar::{RIdx, Storage, TIdx, Vob};
use std::alloc::{AllocError, Global};
use std::collections::HashMap;

/// A grammar of indices of any type.
pub fn stored<S: Storage>(
    alloc: Global,
    kind: YaccKind,
    text: &str,
) -> YaccGrammarResult<YaccGrammar<S>> {
    YaccGrammar::<S>::new_with_storaget(alloc, kind, text)
}

/// What a grammar says of its parser.
pub fn settings(
    grammar: &YaccGrammar<u32>,
) -> (
    Option<usize>,
    Option<usize>,
    &Option<String>,
    &Option<(String, String)>,
) {
    (
        grammar.expect(),
        grammar.expectrr(),
        grammar.parse_generics(),
        grammar.parse_param(),
    )
}

/// The name of a rule, by its older call.
pub fn name_of<S: Storage>(grammar: &YaccGrammar<S>, rule: RIdx<S>) -> &str
    requires { S.number rule.0 < length grammar.now.rules }
{
    grammar.rule_name(rule)
}

/// The token of a name.
pub fn token_of(tokens: &HashMap<&str, TIdx<u32>>, name: &str) -> Option<TIdx<u32>> {
    tokens.get(name).copied()
}

/// The FOLLOW sets of a grammar.
pub fn follows_of(
    alloc: Global,
    grammar: &YaccGrammar<u32>,
) -> Result<YaccFollows<u32>, AllocError> {
    YaccFollows::new(alloc, grammar)
}

/// The FOLLOW set of a rule.
pub fn follow_of<S: Storage>(follows: &YaccFollows<S>, rule: RIdx<S>) -> &Vob
    requires { S.number rule.0 < length follows.now.rows }
{
    follows.follows(rule)
}

/// What was read, once more.
pub fn copied(parsed: &ASTWithValidityInfo) -> Result<ASTWithValidityInfo, AllocError> {
    parsed.clone()
}

/// The rule of a name, and what a tree says of its parser.
pub fn asked<'a>(
    ast: &'a GrammarAST,
    name: &str,
) -> (
    Option<&'a Rule>,
    bool,
    &'a Option<String>,
    &'a Option<(String, String)>,
    &'a Option<String>,
) {
    (
        ast.get_rule(name),
        ast.has_token(name),
        ast.parse_generics(),
        ast.parse_param(),
        ast.programs(),
    )
}

/// How many tokens have a printed form, and whether there is a list of tokens not to insert.
pub fn counts(ast: &GrammarAST) -> (usize, bool) {
    (ast.epp().len(), ast.avoid_insert().is_some())
}

/// Sets the programs of a tree twice.
pub fn set_programs(ast: &mut GrammarAST, first: String, second: String) {
    ast.set_programs(first);
    ast.add_programs(second);
}

/// The errors of a fault.
pub fn errors_of(fault: &parser::YaccFault) -> &[parser::YaccGrammarError] {
    match fault {
        parser::YaccFault::Errors(errors) => errors,
        parser::YaccFault::OutOfMemory => &[],
    }
}
