//! The numbering of a file's syntax that passed validation.

mod marks;
mod productions;
mod room;
mod rules;
mod symbols;
mod tokens;

ghost use Rattle.std.specs.Prelude.{◌≡◌, option_map};
ghost use Rattle.cfgast.specs.TreeView.{syntax};
ghost use Rattle.cfgnumbers.specs.Fits.{LeavesRoom};
ghost use Rattle.cfgnumbers.specs.Numbered.{implicit_of, rules_before};
ghost use Rattle.cfgnumbers.specs.TablesView.{file_of, implicit_in};

use cfgast::GrammarAST;
use cfgbase::Span;
use cfgindex::{RIdx, Storage, to_storage};
use cfgkinds::YaccKind;
use indexmap::IndexMap;

/// What a numbering uses: the syntax of a file, and its implicit tokens, if it is an Eco file with lists of them.
#[derive(Clone, Copy)]
pub struct Numbering<'a> {
    ast: &'a GrammarAST,
    implicit: Option<&'a IndexMap<String, Span>>,
}

impl<'a> Numbering<'a> {
    /// The numbering of a file of this kind.
    pub fn new(kind: YaccKind, ast: &'a GrammarAST) -> Self
        ensures file { file_of result ≡ syntax ast.now }
        ensures implicit { implicit_in result ≡ implicit_of kind (syntax ast.now) }
    {
        let implicit = match kind {
            YaccKind::Eco => ast.implicit_tokens().as_ref(),
            YaccKind::Original(_) | YaccKind::Grmtools => None,
        };
        Numbering { ast, implicit }
    }

    /// The rule for the implicit tokens, if there are any.
    pub fn implicit_rule<S: Storage>(&self) -> Option<RIdx<S>>
        requires { LeavesRoom S.MAX (implicit_in self.now) (file_of self.now) }
        ensures { option_map (λ rule. S.number rule.0) result ≡ option_map (λ names. 1) (implicit_in self.now) }
    {
        match self.implicit {
            Some(_) => Some(RIdx(to_storage(1))),
            None => None,
        }
    }

    /// How many rules come before those of the file.
    fn rules_before(&self) -> usize
        ensures { result ≡ rules_before (implicit_in self.now) }
    {
        match self.implicit {
            Some(_) => 3,
            None => 1,
        }
    }
}
