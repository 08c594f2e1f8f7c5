//! Sets that grow by what productions give: tables of bits in words, a list of work, and what FOLLOW sets gain.
#![tactic(auto)]

pub mod dependents;
pub mod first_rows;
pub mod follows;
pub mod growth;
pub mod waiting;
pub mod words;
pub mod work;

pub use dependents::Dependents;
pub use first_rows::FirstRows;
pub use follows::Follows;
pub use growth::{Analysis, add_production};
pub use waiting::Waiting;
pub use words::WordTable;
pub use work::Work;
