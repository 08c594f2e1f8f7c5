//! Where a lexer's names and the names of a grammar's tokens differ.

ghost use Rattle.std.specs.Prelude.{◌≡◌, ◌++◌, ◌∷◌, [], true, if◌then◌else◌, map, option_map, IfOk, IfSome};
ghost use Rattle.std.specs.Prelude.{OnOk};
ghost use Rattle.std.specs.List.{list_any};
ghost use Rattle.cfgrammar.specs.Accessors.{has_token_name};
ghost use Rattle.cfgrammar.specs.TokenNames.{token_names};
ghost use Rattle.lexcheck.specs.Inner.Marks.{AreMarks, IsTokensMap};
ghost use Rattle.lexcheck.specs.LexerNames.{is_missing, missing_tokens, unknown_positions};

use cfgrammar::yacc::YaccGrammar;
use cfgrammar::{Storage, TIdx, Vob};
use std::alloc::{AllocError, Global};
use std::collections::HashMap;

/// Where a lexer's names and the names of a grammar's tokens differ.
#[derive(Clone, Debug, Drop, PartialEq, Eq)]
pub struct LexReport<S: Storage> {
    /// The indices, in the list of names, of those that no token has, in order; of a repeated name, each.
    pub unknown: Vec<usize>,
    /// The tokens whose names aren't given, in the order of their indices. The end token has no name.
    pub missing: Vec<TIdx<S>>,
}

/// Compares a lexer's names with those of a grammar's tokens, byte for byte. It takes time proportional to the names
/// and tokens.
///
/// # Errors
///
/// `AllocError` if an allocation fails.
pub fn check<S: Storage>(
    alloc: Global,
    grm: &YaccGrammar<S>,
    names: &[&str],
) -> Result<LexReport<S>, AllocError>
    ensures unknown { IfOk result (λ report. report.unknown.items
        ≡ unknown_positions (token_names grm.now) (map (λ name. name.now) names.now)) }
    ensures missing { IfOk result (λ report. map (λ t. S.number t.0) report.missing.items
        ≡ missing_tokens (token_names grm.now) (map (λ name. name.now) names.now)) }
{
    let tokens = grm.tokens_map(alloc)?;
    report_of(alloc, grm, &tokens, names)
}

/// The report, by the map from the names of tokens to the tokens.
fn report_of<'a, S: Storage>(
    alloc: Global,
    grm: &YaccGrammar<S>,
    tokens: &HashMap<&'a str, TIdx<S>>,
    names: &[&'a str],
) -> Result<LexReport<S>, AllocError>
    requires { IsTokensMap S.number grm.now tokens.now }
    ensures unknown { IfOk result (λ report. report.unknown.items
        ≡ unknown_positions (token_names grm.now) (map (λ name. name.now) names.now)) }
    ensures missing { IfOk result (λ report. map (λ t. S.number t.0) report.missing.items
        ≡ missing_tokens (token_names grm.now) (map (λ name. name.now) names.now)) }
{
    let (tokens_len, _) = grm.iter_tidxs().size_hint();
    let mut given = Vob::from_elem(alloc, false, tokens_len)?;
    let unknown = mark_given(alloc, grm, tokens, names, &mut given)?;
    let missing = unmarked_tokens(alloc, grm, tokens, names, &given)?;
    Ok(LexReport { unknown, missing })
}

/// Marks the tokens whose names are given, and returns the indices of the names that no token has.
fn mark_given<'a, S: Storage>(
    alloc: Global,
    grm: &YaccGrammar<S>,
    tokens: &HashMap<&'a str, TIdx<S>>,
    names: &[&'a str],
    given: &mut Vob,
) -> Result<Vec<usize>, AllocError>
    requires map { IsTokensMap S.number grm.now tokens.now }
    requires none { AreMarks grm.now [] given.old }
    ensures unknown { IfOk result (λ unknown. unknown.items
        ≡ unknown_positions (token_names grm.now) (map (λ name. name.now) names.now)) }
    ensures marks { OnOk result (AreMarks grm.now (map (λ name. name.now) names.now) given.new) }
{
    let mut unknown = Vec::new(alloc);
    for (index, name) in names.iter().enumerate() {
        match tokens.get(name) {
            Some(tidx) => {
                given.set(tidx.0.to_usize(), true);
            }
            None => unknown.push(index)?,
        }
    }
    Ok(unknown)
}

/// The unmarked tokens with names.
fn unmarked_tokens<'a, S: Storage>(
    alloc: Global,
    grm: &YaccGrammar<S>,
    tokens: &HashMap<&'a str, TIdx<S>>,
    names: &[&'a str],
    given: &Vob,
) -> Result<Vec<TIdx<S>>, AllocError>
    requires map { IsTokensMap S.number grm.now tokens.now }
    requires marks { AreMarks grm.now (map (λ name. name.now) names.now) given.now }
    ensures { IfOk result (λ missing. map (λ t. S.number t.0) missing.items
        ≡ missing_tokens (token_names grm.now) (map (λ name. name.now) names.now)) }
{
    let mut missing = Vec::new(alloc);
    for tidx in grm.iter_tidxs() {
        let unmarked = is_unmarked(grm, tokens, names, given, grm.token_name(tidx));
        push_if(&mut missing, unmarked, tidx)?;
    }
    Ok(missing)
}

/// Whether a token has a name that isn't marked: if its name is that of a token, that token's mark is off.
fn is_unmarked<'a, S: Storage>(
    grm: &YaccGrammar<S>,
    tokens: &HashMap<&'a str, TIdx<S>>,
    names: &[&'a str],
    given: &Vob,
    name: Option<&str>,
) -> bool
    requires map { IsTokensMap S.number grm.now tokens.now }
    requires marks { AreMarks grm.now (map (λ name. name.now) names.now) given.now }
    requires named { IfSome name (λ name. list_any (has_token_name name.now) grm.now.tokens ≡ true) }
    ensures { result ≡ is_missing (map (λ name. name.now) names.now) (option_map (λ name. name.now) name.entry) }
{
    match name {
        Some(name) => match tokens.get(name) {
            Some(tidx) => !given.get(tidx.0.to_usize()).unwrap_or(false),
            None => false,
        },
        None => false,
    }
}

/// Adds an element, if it passes.
fn push_if<T: Copy>(found: &mut Vec<T>, passes: bool, element: T) -> Result<(), AllocError>
    ensures { OnOk result (found.new.items
        ≡ (if passes then found.old.items ++ element ∷ [] else found.old.items)) }
{
    if passes {
        found.push(element)?;
    }
    Ok(())
}
