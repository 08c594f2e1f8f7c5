//! Reading a Yacc file.

pub use cfgbase::SpansKind;
pub use cfgerrors::{
    YaccFault, YaccGrammarError, YaccGrammarErrorKind, YaccGrammarResult, YaccGrammarWarning,
    YaccGrammarWarningKind,
};
pub use cfgreader::file_is_graph;
