//! The header of a `%grmtools` section: what its entries give for their keys, as a map of marks.
#![tactic(auto)]

pub mod laws;
mod of_entries;
pub mod parser;

pub use cfgsection::HeaderFault;
pub use of_entries::Header;
pub use parser::GrmtoolsSectionParser;
