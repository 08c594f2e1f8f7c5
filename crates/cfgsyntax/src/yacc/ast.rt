//! The syntax of a Yacc file, and whether it is valid.

mod errors;

ghost use Rattle.std.specs.Prelude.{◌≡◌, ◌↔◌, [], true, List, Option, string_bytes, IsTrue, IfOk, IfErr};
ghost use Rattle.std.specs.Prelude.{OnOk};
ghost use Rattle.cfgitems.specs.Building.{has_rule};
ghost use Rattle.cfgitems.specs.Items.{Item};
ghost use Rattle.cfgitems.specs.Syntax.{syntax_of};
ghost use Rattle.cfgitems.specs.SyntaxView.{named_view};
ghost use Rattle.cfgerrors.specs.Refusal.{ListsErrors};
ghost use Rattle.cfgast.specs.TreeView.{syntax};
ghost use Rattle.cfgsection.specs.Named.{HasOneNaming, Names, Naming};
ghost use Rattle.cfgsyntax.specs.Faults.{errors_of};
ghost use Rattle.cfgwords.specs.TextSpans.{IsPiece, IsWithin};
ghost use Rattle.cfgsyntax.specs.Inner.Steps.{IsReadSection};
ghost use Rattle.cfgsyntax.specs.SelfNamed.{ReturnsNaming, ReturnsNamedOr, IsParsedAs};
ghost use Rattle.cfgsyntax.specs.Reads.{Reads, HasOneReading, Stop};
ghost use Rattle.cfgast.specs.Sound.{IsSound};
ghost use Rattle.cfgsyntax.specs.ErrorSpans.{EachFaultSpan, EachParsedSpan};
ghost use Rattle.cfgsyntax.specs.Starts.{restarted, IsStartFault};

use crate::read::{after_section, read};
pub use cfgast::GrammarAST;
use cfgast::{clone_with_start, tree_with};
use cfgerrors::{YaccGrammarError, YaccGrammarResult};
use cfgfaults::{fault_of, invalid_start};
pub use cfgfaults::{ASTModificationError, KindSource, StartFault};
pub use cfgitems::{Production, Rule, Settings, Symbol};
use cfgkinds::YaccKind;
use cfgsection::HeaderFault;
use cfgsection::named::{kind_if_named, kind_named};
pub use cfgvalidation::every_error;
use cfgvalidation::has_rule;
use errors::errors_found;
use std::alloc::{AllocError, Global};
use std::marker::Model;

/// The syntax of what was read of a Yacc file, and the errors of the file.
#[derive(Debug, Drop)]
pub struct ASTWithValidityInfo {
    kind: YaccKind,
    ast: GrammarAST,
    errors: Vec<YaccGrammarError>,
}

impl Model for ASTWithValidityInfo {
    ghost use Rattle.cfgast.specs.TreeView.{syntax};
    ghost use Rattle.cfgsyntax.specs.Parsed.{Parsed};
    ghost use Rattle.cfgast.specs.Sound.{IsSound};

    ghost Value = { Parsed };

    ghost view = { λ x. record { kind = x.kind; syntax = syntax x.ast; errors = x.errors.items } };

    ghost invariant = { λ x. IsSound (syntax x.ast) x.errors.items };
}

impl ASTWithValidityInfo {
    /// Reads the text as a Yacc file of the kind, and validates what was read. What its section says is ignored, except
    /// that nothing is read after a section with errors.
    ///
    /// The text has exactly one reading: the items that count as read, and what stopped the reading, if anything did.
    /// The syntax is what these items say. The errors are what is declared more than once, then the errors of the
    /// section or the fault that stopped the reading, if there are any, and then the first check that the syntax fails,
    /// if it fails one.
    ///
    /// Each error has a span. Each span of the syntax and of an error begins and ends at a character boundary of the
    /// text: where a character begins, or where the text ends. But an action's span is as long as its trimmed text and
    /// begins after its brace, so it may end inside a character: it only lies within the text.
    pub fn new(alloc: Global, kind: YaccKind, text: &str) -> Result<Self, AllocError>
        ensures one { HasOneReading kind text.now }
        ensures kind { IfOk result (λ parsed. parsed.kind ≡ kind) }
        ensures syntax { IfOk result (λ parsed. (items : List Item) (stop : Option Stop)
            → Reads kind text.now items stop
            → parsed.syntax ≡ syntax_of items) }
        ensures errors { IfOk result (λ parsed. (items : List Item) (stop : Option Stop)
            → Reads kind text.now items stop
            → parsed.errors ≡ errors_of items stop) }
        ensures offsets { IfOk result (EachParsedSpan (IsPiece text.now) (IsWithin text.now)) }
    {
        ASTWithValidityInfo::read(alloc, kind, text, after_section(alloc, text))
    }

    /// Reads the text as a Yacc file of the kind that its section names, as [`new`](ASTWithValidityInfo::new) does.
    ///
    /// # Errors
    ///
    /// Those of the section, which is required; if it has none, one error if it has no key `yacckind`, or if the key's
    /// value is not a kind; and running out of memory. What is wrong after the section is not an error of this call.
    pub fn from_str(alloc: Global, text: &str) -> YaccGrammarResult<Self>
        ensures one { HasOneNaming text.now }
        ensures answer { (naming : Naming) → Names text.now naming → ReturnsNaming text.now naming result }
        ensures offsets { IfOk result (EachParsedSpan (IsPiece text.now) (IsWithin text.now)) }
        ensures fault_offsets { IfErr result (EachFaultSpan (IsPiece text.now)) }
        ensures listed { IfErr result ListsErrors }
    {
        let (kind, rest) = match kind_named(alloc, text) {
            Ok(found) => found,
            Err(fault) => return Err(fault_of(alloc, fault)),
        };
        Ok(ASTWithValidityInfo::read(alloc, kind, text, Ok(rest))?)
    }

    /// Reads the text as a Yacc file of the kind that its section names. If it has no section, or one without errors
    /// that names no kind, it is read as a file of `default`, and the result says so.
    ///
    /// # Errors
    ///
    /// Those of the section; if it has none, one error if the value of `yacckind` is not a kind; and running out of
    /// memory. What is wrong after the section is not an error of this call.
    pub fn from_str_or(
        alloc: Global,
        default: YaccKind,
        text: &str,
    ) -> YaccGrammarResult<(Self, KindSource)>
        ensures one { HasOneNaming text.now }
        ensures answer { ReturnsNamedOr default text.now result }
        ensures offsets { IfOk result (λ x. EachParsedSpan (IsPiece text.now) (IsWithin text.now) x.0) }
        ensures fault_offsets { IfErr result (EachFaultSpan (IsPiece text.now)) }
        ensures listed { IfErr result ListsErrors }
    {
        let (named, rest) = match kind_if_named(alloc, text) {
            Ok(found) => found,
            Err(fault) => return Err(fault_of(alloc, fault)),
        };
        let (kind, source) = match named {
            Some(kind) => (kind, KindSource::Section),
            None => (default, KindSource::Default),
        };
        let parsed = ASTWithValidityInfo::read(alloc, kind, text, Ok(rest))?;
        Ok((parsed, source))
    }

    /// Reads the text as a Yacc file of the kind, given the rest after its section.
    fn read(
        alloc: Global,
        kind: YaccKind,
        text: &str,
        rest: Result<&str, HeaderFault>,
    ) -> Result<Self, AllocError>
        requires { IsReadSection text.now rest }
        ensures one { HasOneReading kind text.now }
        ensures parsed { IfOk result (IsParsedAs kind text.now) }
        ensures offsets { IfOk result (EachParsedSpan (IsPiece text.now) (IsWithin text.now)) }
    {
        let (ast, stop) = read(alloc, kind, text, rest)?;
        let errors = errors_found(alloc, &ast, stop);
        let (ast, errors) = tree_with(ast, errors)?;
        Ok(ASTWithValidityInfo { kind, ast, errors })
    }

    /// What was read of the file. It need not be valid.
    pub fn ast(&self) -> &GrammarAST
        ensures value { syntax result.now ≡ self.now.syntax }
        ensures sound { IsSound self.now.syntax self.now.errors }
    {
        &self.ast
    }

    /// Whether the file has no errors.
    pub fn is_valid(&self) -> bool
        ensures { IsTrue result ↔ (self.now.errors ≡ []) }
    {
        self.errors.is_empty()
    }

    /// The kind that the file was read as.
    pub fn yacc_kind(&self) -> YaccKind
        ensures { result ≡ self.now.kind }
    {
        self.kind
    }

    /// The errors of the file, in order.
    pub fn errors(&self) -> &[YaccGrammarError]
        ensures { result.now ≡ self.now.errors }
    {
        self.errors.as_slice()
    }

    /// A copy with another start: the given rule's name and span. The kind and the errors stay as they are, and so does
    /// the rest of the syntax.
    ///
    /// # Errors
    ///
    /// `Modification`, of kind `InvalidStartRule`, exactly if no rule has the name; and running out of memory.
    pub fn clone_and_change_start_rule(&self, alloc: Global, rule: Rule) -> Result<Self, StartFault>
        ensures changed { IfOk result (λ parsed. parsed ≡ restarted self.now (named_view rule.name)) }
        ensures known { OnOk result (has_rule (string_bytes rule.name.0) self.now.syntax.rules ≡ true) }
        ensures fault { IfErr result (IsStartFault self.now.syntax (string_bytes rule.name.0)) }
    {
        let name = rule.name;
        if !has_rule(&self.ast, &name.0) {
            return Err(StartFault::Modification(invalid_start(name.0)));
        }
        let errors = self.errors.to_vec(alloc)?;
        let ast = clone_with_start(&self.ast, name)?;
        Ok(ASTWithValidityInfo {
            kind: self.kind,
            ast,
            errors,
        })
    }
}

impl Clone for ASTWithValidityInfo {
    ghost is_clone = { λ parsed copy. copy ≡ parsed };

    fn clone(&self) -> Result<Self, AllocError> {
        let errors = self.errors.clone()?;
        let ast = self.ast.clone()?;
        Ok(ASTWithValidityInfo {
            kind: self.kind,
            ast,
            errors,
        })
    }
}
