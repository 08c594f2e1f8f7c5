//! What is wrong with a Yacc file or with its section: errors, as readers make them; and warnings about a grammar, as a
//! tree makes them.
#![tactic(auto)]

pub mod error;
pub mod header;
pub mod laws;
mod parts;
pub mod warning;

pub use error::{YaccFault, YaccGrammarError, YaccGrammarErrorKind, YaccGrammarResult, error_at};
pub use header::{HeaderError, HeaderErrorKind};
pub use parts::write_lines;
pub use warning::{YaccGrammarWarning, YaccGrammarWarningKind, warning_at};
