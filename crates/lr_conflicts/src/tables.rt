//! What the tables of a grammar say of a production or token with a number, and of an item.

ghost use Rattle.std.specs.Prelude.{◌≡◌, ◌↔◌, ◌<◌, ℕ, All, IfSome, IsTrue, Some, length, map, option_map, slice_get};
ghost use Rattle.cfgrammar.specs.Accessors.{IsSymbolWithin};
ghost use Rattle.cfgrammar.specs.Numbered.{core};
ghost use Rattle.cfgrammar.specs.NumberedSymbols.{sym_of};
ghost use Rattle.cfgrammar.specs.Openings.{nth_production};
ghost use Rattle.lr_conflicts.specs.Conflicts.{read_item};
ghost use Rattle.lr_conflicts.specs.Inner.Choices.{IsReducible};
ghost use Rattle.lr_conflicts.specs.Precedences.{production_precedence, token_precedence};
ghost use Rattle.lr_conflicts.specs.Tables.{IsShiftedBy};

use cfgrammar::storage::to_storage;
use cfgrammar::yacc::{Precedence, YaccGrammar};
use cfgrammar::{PIdx, Symbol, TIdx};
use lr_states::Item;

/// The symbols of a production. A production that the grammar doesn't have has none.
fn symbols_of(grammar: &YaccGrammar<u32>, production: usize) -> &[Symbol<u32>]
    ensures symbols { map (sym_of (λ s. s)) result.now ≡ (nth_production (core grammar.now) production).symbols }
    ensures within { All (IsSymbolWithin (λ s. s) grammar.now) result.now }
{
    grammar.invariant_holds();
    if production < usize::from(grammar.prods_len()) {
        grammar.prod(PIdx(to_storage(production)))
    } else {
        &[]
    }
}

/// The symbol that comes after those that are read.
pub(crate) fn next_symbol(grammar: &YaccGrammar<u32>, item: Item) -> Option<Symbol<u32>>
    ensures is { option_map (sym_of (λ s. s)) result
        ≡ slice_get (nth_production (core grammar.now) item.production).symbols item.read }
    ensures within { IfSome result (IsSymbolWithin (λ s. s) grammar.now) }
{
    symbols_of(grammar, item.production).get(item.read).copied()
}

/// The item with all symbols of a production read. A production that the grammar doesn't have has no symbols.
pub fn read_item(grammar: &YaccGrammar<u32>, production: usize) -> Item
    ensures { result ≡ read_item grammar.now production }
{
    Item {
        production,
        read: symbols_of(grammar, production).len(),
    }
}

/// Whether the item's production can be reduced: all of it is read, and it isn't that of the start rule, by which the
/// text is accepted.
pub(crate) fn is_reducible(grammar: &YaccGrammar<u32>, item: Item) -> bool
    ensures { IsTrue result ↔ IsReducible grammar.now item }
{
    item.production != usize::from(grammar.start_prod())
        && item == read_item(grammar, item.production)
}

/// The token that a parser can shift by an item: the one that is next; or if the production of the start rule is read,
/// the end token, by which it accepts. None if another symbol is next, or none.
pub fn shifted_token(grammar: &YaccGrammar<u32>, item: Item) -> Option<usize>
    ensures is { (t : ℕ) → (result ≡ Some t) ↔ IsShiftedBy grammar.now item t }
    ensures within { IfSome result (λ t. t < length grammar.now.tokens) }
{
    if item == read_item(grammar, usize::from(grammar.start_prod())) {
        return Some(usize::from(grammar.eof_token_idx()));
    }
    match next_symbol(grammar, item) {
        Some(Symbol::Token(token)) => Some(usize::from(token)),
        _ => None,
    }
}

/// The precedence of a production, if the grammar has it.
pub(crate) fn production_precedence(
    grammar: &YaccGrammar<u32>,
    production: usize,
) -> Option<Precedence>
    ensures { result ≡ production_precedence grammar.now production }
{
    grammar.invariant_holds();
    if production < usize::from(grammar.prods_len()) {
        grammar.prod_precedence(PIdx(to_storage(production)))
    } else {
        None
    }
}

/// The precedence of a token.
pub(crate) fn token_precedence(grammar: &YaccGrammar<u32>, token: usize) -> Option<Precedence>
    requires { token < length grammar.now.tokens }
    ensures { result ≡ token_precedence grammar.now token }
{
    grammar.invariant_holds();
    grammar.token_precedence(TIdx(to_storage(token)))
}
