//! Yacc grammars: read from the text of a Yacc file, validated, and turned into numbered tables. This crate exports all
//! that its users call, under the paths of the Rust crate; the code is in the crates below, except that of Bison files.
//!
//! Lists the productions of a text's grammar, one per line, as the GUIDE's caller writes it:
//!
//! ```
//! let kind = YaccKind::Original(YaccOriginalActionKind::GenericParseTree);
//! let grammar = YaccGrammar::<u32>::new(alloc, kind, text)?;
//! let mut lines = String::new(alloc);
//! for pidx in grammar.iter_pidxs() {
//!     writeln!(lines, "{}", grammar.pp_prod(alloc, pidx)?)?;
//! }
//! ```
//!
//! A crate that lists only `cfgrammar` in `crates.txt` has all of this, except `usize::from` and `u32::from` of an
//! index, for which it also lists `cfgindex`, and loops over a `&MarkMap`, for which it also lists `cfgmarks`.
#![tactic(auto)]

pub mod bison;
pub mod header;
pub mod laws;
pub mod yacc;

pub use cfgbase::{Location, Span, Spanned, SpansKind, span};
pub use cfghints::{Hint, hint_for};
pub use cfgindex::{
    IterSetBits, PIdx, RIdx, SIdx, Storage, Symbol, TIdx, Vob, idxnewtype, storage,
};
pub use cfglines::{FeedError, NewlineCache, Positions, newlinecache};
pub use cfgmarks::markmap;
pub use cfgrender::{ColumnUnit, Source, Visible, render, render_all};
