//! Three tools that an author of a parser generator begins with: sentences to test a parser with, the table of an LL(1)
//! parser, and the states of an LR parser. And a theorem: whether a grammar is LL(1), and which production an LL(1)
//! parser uses.
#![tactic(auto)]

pub mod ll1;
mod sentences;
mod states;
mod table;

pub use sentences::print_sentences;
pub use states::print_states;
pub use table::print_table;
