//! Yacc files and their grammars.
pub mod cycles;
pub mod firsts;
pub mod follows;
pub mod sentences;

pub use cfgsyntax::yacc::{
    YaccFault, YaccGrammarError, YaccGrammarErrorKind, YaccGrammarResult, YaccGrammarWarning,
    YaccGrammarWarningKind, YaccKind, YaccOriginalActionKind, ast, parser,
};
pub use cfgyacc::grammar::{self, AssocKind, Precedence, PrecedenceLevel, YaccGrammar};
pub use sentences::SentenceGenerator;
