//! How precedence settles whether a token is shifted or a production reduced.

ghost use Rattle.std.specs.Prelude.{◌≡◌, slice_index_or};
ghost use Rattle.lr_conflicts.specs.Precedences.{associativity_of, by_associativity, settled, settled_by};

use cfgrammar::bison::Associativity;
use cfgrammar::yacc::{AssocKind, Precedence};

/// What precedence says where a token could be shifted and a production reduced.
#[derive(Clone, Copy, Debug, PartialEq, Eq)]
pub enum Settled {
    /// The token is shifted.
    Shift,
    /// The production is reduced.
    Reduce,
    /// Neither: the token is an error there.
    Neither,
}

/// What precedence says, if both have one. `levels` says how the operators of each level associate, and the token
/// itself does of a level that isn't there.
pub(crate) fn verdict(
    levels: &[Associativity],
    token: Option<Precedence>,
    production: Option<Precedence>,
) -> Option<Settled>
    ensures { result ≡ settled levels.now token production }
{
    verdict_by(levels, token?, production?)
}

fn verdict_by(
    levels: &[Associativity],
    token: Precedence,
    production: Precedence,
) -> Option<Settled>
    ensures { result ≡ settled_by levels.now token production }
{
    if token.level < production.level {
        return Some(Settled::Reduce);
    }
    if production.level < token.level {
        return Some(Settled::Shift);
    }
    by_associativity(associativity_at(levels, token))
}

fn by_associativity(associativity: Associativity) -> Option<Settled>
    ensures { result ≡ by_associativity associativity }
{
    match associativity {
        Associativity::Left => Some(Settled::Reduce),
        Associativity::Right => Some(Settled::Shift),
        Associativity::Nonassoc => Some(Settled::Neither),
        Associativity::OnlyPrecedence => None,
    }
}

/// How the operators of the token's level associate.
fn associativity_at(levels: &[Associativity], token: Precedence) -> Associativity
    ensures { result ≡ slice_index_or levels.now token.level (associativity_of token.kind) }
{
    let own = match token.kind {
        AssocKind::Left => Associativity::Left,
        AssocKind::Right => Associativity::Right,
        AssocKind::Nonassoc => Associativity::Nonassoc,
    };
    levels.get(token.level as usize).copied().unwrap_or(own)
}
