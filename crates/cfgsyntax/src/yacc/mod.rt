//! Yacc files.
pub mod ast;
pub mod parser;

pub use cfgkinds::{YaccKind, YaccOriginalActionKind, kind};
pub use parser::{
    YaccFault, YaccGrammarError, YaccGrammarErrorKind, YaccGrammarResult, YaccGrammarWarning,
    YaccGrammarWarningKind,
};
