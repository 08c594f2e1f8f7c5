//! The tree of a Yacc or Bison file: what it says of the grammar, as the trees of other files say it.
#![tactic(auto)]

mod added;
mod aliases;
mod laws;
mod names;
mod piece;
mod pieces;
mod productions;
mod sets;
mod symbols;
mod tokens;
mod tree;

pub use aliases::{name_at, names_of};
pub use laws::rule_names_are_free;
pub use piece::Piece;
pub use pieces::{is_code, is_followed, is_symbol};
pub use sets::{add_name, has_name, index_of};
pub use tokens::{lexeme_at, span_at};
pub use tree::{first_start, number_in, syntax_of};
