//! Grammars in numbers: rules, productions and tokens by index.

mod analysed;
mod iter;
mod printed;
mod tables;

pub use cfganalysis::{CountedTables, Productions, Tables};
pub use cfgitems::{AssocKind, Precedence};
pub use iter::{PIdxIter, RIdxIter, TIdxIter};
pub use tables::YaccGrammar;

/// The costs of the sentences of a grammar's rules, and its minimal sentences. The third type parameter names
/// [`Tables`] other than a `YaccGrammar`.
pub type SentenceGenerator<'a, S, T = YaccGrammar<S>> = cfgcosts::SentenceGenerator<'a, S, T>;

/// The level of a precedence: the number of precedence declarations before its own.
pub type PrecedenceLevel = u64;
