//! Callers of the library, as docs/GUIDE.md shows them. None of them has a proof of its own.

mod added;
pub(crate) mod bison;
pub(crate) mod errors;
pub(crate) mod findings;
pub(crate) mod keys;
pub(crate) mod nullable;
pub(crate) mod productions;
pub(crate) mod repairs;
pub(crate) mod tables;
