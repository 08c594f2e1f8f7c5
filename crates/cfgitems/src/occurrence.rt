//! What a file may declare only once, and where it does.

ghost use Rattle.std.specs.Prelude.{◌≡◌};

use cfgbase::Span;
use std::alloc::AllocError;

/// Which declaration it is.
#[derive(Clone, Copy, Debug, PartialEq, Eq, Hash)]
pub enum UniqueKind {
    /// `%start`: the rule to start from.
    Start,
    /// `%actiontype`: the type that the actions of all rules return.
    ActionType,
    /// `%expect`: the number of shift/reduce conflicts.
    Expect,
    /// `%expect-rr`: the number of reduce/reduce conflicts.
    ExpectReduceReduce,
    /// `%epp`: a token's printed form.
    PrintedForm,
    /// `%left`, `%right` and `%nonassoc`: a token's precedence.
    Precedence,
    /// `%avoid_insert`: that error recovery avoids inserting a token.
    AvoidInsert,
    /// `%implicit_tokens`: that a token may be anywhere.
    ImplicitToken,
}

/// What a file may declare only once: for the whole grammar, or for a token.
#[derive(Debug, PartialEq, Eq, Hash, Drop)]
pub struct Unique {
    pub kind: UniqueKind,
    /// The token's name, if it is for a token.
    pub token: Option<String>,
}

/// Where a file declares it.
#[derive(Debug, Drop)]
pub struct Occurrence {
    pub what: Unique,
    pub span: Span,
}

impl Clone for Unique {
    ghost use Rattle.cfgitems.specs.SyntaxView.{unique_view};

    ghost is_clone = { λ unique copy. unique_view copy ≡ unique_view unique };

    fn clone(&self) -> Result<Unique, AllocError> {
        Ok(Unique {
            kind: self.kind,
            token: self.token.clone()?,
        })
    }
}

impl Clone for Occurrence {
    ghost use Rattle.cfgitems.specs.SyntaxView.{occurrence_view};

    ghost is_clone = { λ occurrence copy. occurrence_view copy ≡ occurrence_view occurrence };

    fn clone(&self) -> Result<Occurrence, AllocError> {
        Ok(Occurrence {
            what: self.what.clone()?,
            span: self.span,
        })
    }
}
