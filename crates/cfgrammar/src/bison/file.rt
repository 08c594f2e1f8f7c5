//! A Yacc or Bison file: what it says, and its grammar.

ghost use Rattle.std.specs.Prelude.{◌≡◌, [], All, IfOk, IsTrue, ◌↔◌};
ghost use Rattle.cfgast.specs.TreeView.{syntax};
ghost use Rattle.cfgitems.specs.Syntax.{EachSpan};
ghost use Rattle.cfgwords.specs.TextSpans.{IsPiece, IsWithin};
ghost use Rattle.cfgrammar.specs.BisonAnswer.{IsBisonAnswer};
ghost use Rattle.cfgrammar.specs.BisonErrorPlaces.{IsErrorAt};
ghost use Rattle.cfgrammar.specs.BisonParsedFile.{IsParsedFile};

use super::fault::BisonFault;
use bison_errors::{Error, FileTree};
use bison_reader::Associativity;
use cfgast::GrammarAST;
use cfgindex::Storage;
use cfgkinds::{YaccKind, YaccOriginalActionKind};
use cfgyacc::{YaccGrammar, numbered_if_fits};
use std::alloc::{AllocError, Global};
use std::marker::Model;

/// What a Yacc or Bison file says, and its errors.
#[derive(Debug, Drop)]
pub struct BisonFile {
    tree: FileTree,
}

impl Model for BisonFile {
    ghost use Rattle.std.specs.Prelude.{◌≡◌, []};
    ghost use Rattle.cfgast.specs.TreeView.{syntax};
    ghost use Rattle.cfgnumbers.specs.Numberable.{IsNumberable};
    ghost use Rattle.cfgrammar.specs.BisonParsedFile.{ParsedFile};

    ghost Value = { ParsedFile };

    ghost view = { λ x. record {
      syntax = syntax x.tree.ast;
      errors = x.tree.errors.items;
      levels = x.tree.levels.items;
      default_precedence = x.tree.default_precedence;
    } };

    ghost invariant = { λ x. x.tree.errors.items ≡ [] → IsNumberable (syntax x.tree.ast) };
}

/// Reads a text as a Yacc or Bison file: what POSIX `yacc` and Bison 3.8 read. Each text says exactly one thing.
///
/// After an error the reading goes on, so that all errors are found: first those of the text, and then those of its
/// names, each by offset. What was passed over is missing in the tree.
///
/// Each span of the tree and of an error begins and ends at a character boundary of the text. But an action's span is
/// as long as its trimmed text and begins after its brace, so it may end inside a character: it only lies within the
/// text.
///
/// # Errors
///
/// Out of memory.
pub fn read(alloc: Global, text: &str) -> Result<BisonFile, AllocError>
    ensures file { IfOk result (IsParsedFile text.now) }
    ensures offsets { IfOk result (λ file. EachSpan (IsPiece text.now) (IsWithin text.now) file.syntax) }
    ensures error_offsets { IfOk result (λ file. All (IsErrorAt text.now) file.errors) }
{
    Ok(BisonFile {
        tree: bison_errors::read(alloc, text)?,
    })
}

impl BisonFile {
    /// What it says of its grammar. This is whole if there are no errors.
    pub fn ast(&self) -> &GrammarAST
        ensures { syntax result.now ≡ self.now.syntax }
    {
        &self.tree.ast
    }

    /// Its errors: first those of its text, and then those of its names, each by offset.
    pub fn errors(&self) -> &[Error]
        ensures { result.now ≡ self.now.errors }
    {
        &self.tree.errors
    }

    /// Whether it has no errors.
    pub fn is_valid(&self) -> bool
        ensures { IsTrue result ↔ (self.now.errors ≡ []) }
    {
        self.tree.errors.is_empty()
    }

    /// How the operators of each level of precedences associate. In the tree, `%precedence` is `%nonassoc`.
    pub fn levels(&self) -> &[Associativity]
        ensures { result.now ≡ self.now.levels }
    {
        &self.tree.levels
    }

    /// Whether a production without `%prec` has the precedence of its last token.
    pub fn default_precedence(&self) -> bool
        ensures { result ≡ self.now.default_precedence }
    {
        self.tree.default_precedence
    }

    /// The grammar of what it says.
    ///
    /// # Errors
    ///
    /// Its errors, if it has any; that `S` cannot count the grammar's rules, tokens, productions or the symbols of a
    /// production, including those that are added; and out of memory.
    pub fn grammar<S: Storage>(&self, alloc: Global) -> Result<YaccGrammar<S>, BisonFault>
        ensures { IsBisonAnswer S.MAX self.now result }
    {
        if !self.is_valid() {
            return Err(BisonFault::Errors(self.tree.errors.as_slice().to_vec(alloc)?));
        }
        let kind = YaccKind::Original(YaccOriginalActionKind::UserAction);
        match numbered_if_fits(alloc, kind, &self.tree.ast)? {
            Some(grammar) => Ok(grammar),
            None => Err(BisonFault::StorageTooSmall),
        }
    }
}
