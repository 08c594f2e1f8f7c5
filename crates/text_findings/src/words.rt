//! Words of a tree: names and where they are.

ghost use Rattle.std.specs.Prelude.{◌≡◌, option_map, slice_get};
ghost use Rattle.cfgrammar.specs.TreeView.{syntax};
ghost use Rattle.text_findings.specs.Words.{precedence_at, token_at, word_at};

use cfgrammar::Span;
use cfgrammar::yacc::ast::GrammarAST;

/// Lists of a tree's words.
#[derive(Clone, Copy)]
pub enum Words {
    /// The tokens.
    Tokens,
    /// The tokens that are given a precedence.
    Precedences,
    /// The tokens of `%token` lists that such lists have before.
    RepeatedTokens,
}

impl Words {
    /// The word with this number in the list, if it has so many.
    pub fn get(self, ast: &GrammarAST, number: usize) -> Option<(&str, Span)>
        ensures { option_map (λ word. record { name = word.0.now; span = word.1 }) result
            ≡ word_at self (syntax ast.now) number }
    {
        match self {
            Words::Tokens => token_at(ast, number),
            Words::Precedences => precedence_at(ast, number),
            Words::RepeatedTokens => repeated_token_at(ast, number),
        }
    }
}

/// The token with this number, where it first occurs.
pub fn token_at(ast: &GrammarAST, number: usize) -> Option<(&str, Span)>
    ensures { option_map (λ word. record { name = word.0.now; span = word.1 }) result
        ≡ token_at (syntax ast.now) number }
{
    let name = ast.tokens().get_index(number)?;
    let span = ast.spans().get(number)?;
    Some((name.as_str(), *span))
}

/// The token with this number among those that are given a precedence, where it is first given one.
fn precedence_at(ast: &GrammarAST, number: usize) -> Option<(&str, Span)>
    ensures { option_map (λ word. record { name = word.0.now; span = word.1 }) result
        ≡ precedence_at (syntax ast.now) number }
{
    let (name, (_, span)) = ast.precs().get_index(number)?;
    Some((name.as_str(), *span))
}

/// The repeated token with this number, where it is repeated.
fn repeated_token_at(ast: &GrammarAST, number: usize) -> Option<(&str, Span)>
    ensures { option_map (λ word. record { name = word.0.now; span = word.1 }) result
        ≡ slice_get (syntax ast.now).repeated_tokens number }
{
    let (name, span) = ast.repeated_tokens().get(number)?;
    Some((name.as_str(), *span))
}
