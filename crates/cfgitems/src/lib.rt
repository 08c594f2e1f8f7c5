//! The items that a grammar file is read as, the syntax that they say, and its builder.
#![tactic(auto)]

pub mod builder;
pub mod item;
pub mod laws;
pub mod occurrence;
pub mod precedence;
pub mod production;
pub mod rule;
pub mod settings;
pub mod symbol;
pub mod syntax;
pub mod tables;

pub use builder::{AstBuilder, built_is_syntax};
pub use item::{Body, RuleHead};
pub use occurrence::{Occurrence, Unique, UniqueKind};
pub use precedence::{AssocKind, Precedence};
pub use production::Production;
pub use rule::Rule;
pub use settings::Settings;
pub use symbol::Symbol;
pub use syntax::Syntax;
pub use tables::Tables;
