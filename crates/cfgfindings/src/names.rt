//! What the names of a tree name.

ghost use Rattle.std.specs.Prelude.{◌≡◌, Contains, MatchBool, position};
ghost use Rattle.std.specs.List.{IsDistinct};
ghost use Rattle.std.specs.Str.{bytes_eq};
ghost use Rattle.cfgrammar.specs.TreeView.{syntax};
ghost use Rattle.cfgrammar.specs.Unused.{IsStart, RuleName};

use cfgrammar::yacc::ast::GrammarAST;

/// Whether the start rule has this name.
pub(crate) fn is_start(ast: &GrammarAST, name: &str) -> bool
    ensures { MatchBool result (IsStart (syntax ast.now) (RuleName name.now))
        (IsStart (syntax ast.now) (RuleName name.now) → ⊥) }
{
    match ast.start() {
        Some((start, _)) => start.as_str() == name,
        None => false,
    }
}

/// The index of the token with this name. No two tokens share a name.
pub(crate) fn token_index(ast: &GrammarAST, name: &str) -> Option<usize>
    ensures distinct { IsDistinct bytes_eq (syntax ast.now).tokens }
    ensures index { result ≡ position (bytes_eq name.now) (syntax ast.now).tokens }
{
    let tokens = ast.tokens();
    // Names are distinct in a set whose length is known.
    let _count = tokens.len();
    tokens.get_index_of(name)
}

/// Whether `%token` declares the token with this index.
pub(crate) fn is_declared(ast: &GrammarAST, token: usize) -> bool
    ensures { MatchBool result (Contains (syntax ast.now).token_directives token)
        (Contains (syntax ast.now).token_directives token → ⊥) }
{
    ast.token_directives().contains(&token)
}
