ghost use Rattle.std.specs.Prelude.{◌≡◌, ◌++◌, map, OnOk};
ghost use Rattle.cfgwords.specs.FileWords.{word_of};
ghost use Rattle.cfgitems.specs.Syntax.{without_last};
ghost use Rattle.cfgitems.specs.SyntaxView.{named_view, token_view};

use crate::symbol::Symbol;
use cfgbase::Span;
use cfgwords::words::Token;
use std::alloc::{AllocError, Global};

/// A production of a rule.
#[derive(Debug, PartialEq, Eq, Drop)]
pub struct Production {
    /// The symbols, in order.
    pub symbols: Vec<Symbol>,
    /// The token whose precedence the production takes, if `%prec` names one.
    pub precedence: Option<String>,
    /// The action's text, and its span.
    pub action: Option<(String, Span)>,
    /// The production's span.
    pub prod_span: Span,
}

impl Clone for Production {
    ghost use Rattle.cfgitems.specs.SyntaxView.{production_view};

    ghost is_clone = { λ production copy. production_view copy ≡ production_view production };

    fn clone(&self) -> Result<Production, AllocError> {
        Ok(Production {
            symbols: self.symbols.clone()?,
            precedence: self.precedence.clone()?,
            action: self.action.clone()?,
            prod_span: self.prod_span,
        })
    }
}

// Adds the tokens of a production's `%prec`s before its last.
pub(crate) fn push_overridden(
    alloc: Global,
    overridden: &mut Vec<(String, Span)>,
    precedences: &[Token<'_>],
) -> Result<(), AllocError>
    ensures { OnOk result (map named_view overridden.new.items ≡ map named_view overridden.old.items
        ++ map word_of (without_last (map token_view precedences.now))) }
{
    let Some((_, earlier)) = precedences.split_last() else {
        return Ok(());
    };
    for token in earlier {
        overridden.push((String::from_str(alloc, token.name)?, token.span))?;
    }
    Ok(())
}
