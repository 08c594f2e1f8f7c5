ghost use Rattle.std.specs.Prelude.{◌≡◌};

use cfgbase::Span;
use std::alloc::AllocError;
use std::fmt;

/// A symbol of a production: its name, with the name's span.
#[derive(Debug, PartialEq, Eq, Drop)]
pub enum Symbol {
    /// The rule of this name.
    Rule(String, Span),
    /// The token of this name.
    Token(String, Span),
}

impl Clone for Symbol {
    ghost use Rattle.cfgitems.specs.SyntaxView.{symbol_view};

    ghost is_clone = { λ symbol copy. symbol_view copy ≡ symbol_view symbol };

    fn clone(&self) -> Result<Symbol, AllocError> {
        match self {
            Symbol::Rule(name, span) => Ok(Symbol::Rule(name.clone()?, *span)),
            Symbol::Token(name, span) => Ok(Symbol::Token(name.clone()?, *span)),
        }
    }
}

impl fmt::Display for Symbol {
    ghost use Rattle.std.specs.Prelude.{Some};
    ghost use Rattle.cfgitems.specs.Syntax.{symbol_word};
    ghost use Rattle.cfgitems.specs.SyntaxView.{symbol_view};

    ghost output = { λ symbol. Some (symbol_word (symbol_view symbol)).name };

    ghost styled_output = { λ symbol _. Some (symbol_word (symbol_view symbol)).name };

    fn fmt<W: fmt::Write>(&self, f: &mut fmt::Formatter<W>) -> fmt::Result {
        let (Symbol::Rule(name, _) | Symbol::Token(name, _)) = self;
        f.write_str(name)
    }
}
