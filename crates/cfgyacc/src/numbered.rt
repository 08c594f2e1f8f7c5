//! The grammar of a syntax, whatever it was read from.

ghost use Rattle.std.specs.Prelude.{◌≡◌, ◌↔◌, IfOk, IfSome, IsSome};
ghost use Rattle.cfgast.specs.TreeView.{syntax};
ghost use Rattle.cfgnumbers.specs.Fits.{Fits};
ghost use Rattle.cfgnumbers.specs.Numberable.{IsNumberable};
ghost use Rattle.cfgnumbers.specs.Numbered.{numbered};

use crate::grammar::YaccGrammar;
use cfgast::GrammarAST;
use cfgindex::Storage;
use cfgkinds::YaccKind;
use cfgnumbers::Numbering;
use std::alloc::{AllocError, Global};

/// The grammar of a syntax of this kind, or `None` if `S` cannot count the grammar's rules, tokens, productions or the
/// symbols of a production, including those that are added.
///
/// # Errors
///
/// Out of memory.
pub fn numbered_if_fits<S: Storage>(
    alloc: Global,
    kind: YaccKind,
    ast: &GrammarAST,
) -> Result<Option<YaccGrammar<S>>, AllocError>
    requires { IsNumberable (syntax ast.now) }
    ensures fits { IfOk result (λ made. IsSome made ↔ Fits S.MAX (numbered kind (syntax ast.now))) }
    ensures value { IfOk result (λ made. IfSome made (λ grammar. grammar ≡ numbered kind (syntax ast.now))) }
{
    if !Numbering::new(kind, ast).fits::<S>() {
        return Ok(None);
    }
    Ok(Some(YaccGrammar::from_numberable(alloc, kind, ast)?))
}
