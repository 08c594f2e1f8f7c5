//! What a file says of individual tokens, and the precedences of productions.

ghost use Rattle.std.specs.Prelude.{◌≡◌, Some, option_map, slice_get, string_bytes, map, IfOk};
ghost use Rattle.std.specs.Option.{option_and_then, option_flatten, option_map_or};
ghost use Rattle.cfgitems.specs.SyntaxView.{production_view};
ghost use Rattle.cfgast.specs.TreeView.{syntax};
ghost use Rattle.cfgnumbers.specs.Numbered.{precedence_of_token, precedence_of, last_token, printed_form};
ghost use Rattle.cfgnumbers.specs.Numbered.{avoids_insert};

use crate::rows::TokenRow;
use cfgast::GrammarAST;
use cfgindex::{Storage, TIdx};
use cfgitems::{Precedence, Production};
use indexmap::IndexMap;
use std::alloc::AllocError;

/// The precedence of a token.
pub(super) fn precedence_of_token(ast: &GrammarAST, name: &str) -> Option<Precedence>
    ensures { result ≡ precedence_of_token (syntax ast.now) name.now }
{
    match ast.precs().get(name) {
        Some((precedence, _)) => Some(*precedence),
        None => None,
    }
}

/// The printed form of a token, if the file gives one.
pub(super) fn printed_form(ast: &GrammarAST, name: &str) -> Result<Option<String>, AllocError>
    ensures { IfOk result (λ form. option_map_or string_bytes form name.now
        ≡ printed_form (syntax ast.now) name.now) }
{
    match ast.epp().get(name) {
        Some((_, (form, _))) => Ok(Some(form.clone()?)),
        None => Ok(None),
    }
}

/// Whether the token is in an `%avoid_insert` list.
pub(super) fn avoids_insert(ast: &GrammarAST, name: &str) -> bool
    ensures { result ≡ avoids_insert (syntax ast.now) name.now }
{
    match ast.avoid_insert() {
        Some(table) => table.contains_key(name),
        None => false,
    }
}

/// The precedence of a production: that of the token after its `%prec`, or else of its last token (POSIX yacc), given
/// the rows of all tokens, and the last token.
pub(super) fn precedence_of<S: Storage>(
    ast: &GrammarAST,
    tokens: &IndexMap<String, TokenRow>,
    production: &Production,
    last: Option<TIdx<S>>,
) -> Option<Precedence>
    requires tokens { map (λ token. token.1.precedence) tokens.now.entries
        ≡ map (precedence_of_token (syntax ast.now)) (syntax ast.now).tokens }
    requires last { option_map (λ token. slice_get (syntax ast.now).tokens (S.number token.0)) last
        ≡ option_map Some (last_token (production_view production.now).symbols) }
    ensures { result ≡ precedence_of (syntax ast.now) (production_view production.now) }
{
    match &production.precedence {
        Some(name) => precedence_of_token(ast, name.as_str()),
        None => precedence_at(tokens, last),
    }
}

/// The precedence of the token, if there is one.
fn precedence_at<S: Storage>(
    tokens: &IndexMap<String, TokenRow>,
    token: Option<TIdx<S>>,
) -> Option<Precedence>
    ensures { result ≡ option_and_then (λ token. option_flatten
        (slice_get (map (λ token. token.1.precedence) tokens.now.entries) (S.number token.0))) token }
{
    let (_, row) = tokens.get_index(usize::from(token?))?;
    row.precedence
}
