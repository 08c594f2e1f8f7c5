//! All minimal sentences of a rule.

mod all;
mod base;
mod optimal;
mod products;
mod requested;
mod table;
