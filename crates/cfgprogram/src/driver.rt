//! From a text to what a program makes of it: the text is read as a Yacc file, and a reader makes something of its
//! errors, or of its grammar.

ghost use Rattle.std.specs.Prelude.{◌≡◌, All, IfOk, IfSome, option_map};
ghost use Rattle.std.specs.Fn.{FnOnceReturnsAt, FnOnceTakesAt};
ghost use Rattle.cfgrammar.specs.Answer.{Found, IsGrammar, WasRead, in_numbers};
ghost use Rattle.cfgrammar.specs.ErrorSpans.{EachErrorSpan, EachParsedSpan};
ghost use Rattle.cfgrammar.specs.GrammarOf.{IsFoundAs, IsFoundItself};
ghost use Rattle.cfgrammar.specs.TextSpans.{IsPiece, IsWithin};
ghost use Rattle.cfgrammar.specs.Syntax.{EachSpan};
ghost use Rattle.cfgrammar.specs.TreeView.{syntax};
ghost use Rattle.cfgprogram.specs.ReadText.{IsFound, IsMadeOf, IsMadeOfGrammar, IsMadeOfRead, IsUnnamed, greatest};

use crate::kinds::KindArg;
use cfgrammar::header::{HeaderFault, kind_if_named};
use cfgrammar::yacc::ast::{ASTWithValidityInfo, GrammarAST};
use cfgrammar::yacc::{YaccFault, YaccGrammar, YaccGrammarError, YaccKind};
use std::alloc::{AllocError, Global};
use std::mem;

/// What makes something of a text: of its errors, or of its grammar.
pub trait TextReader<R> {
    ghost use Rattle.std.specs.Prelude.{ℕ, List, Option};
    ghost use Rattle.cfgrammar.specs.Errors.{GrammarError};
    ghost use Rattle.cfgrammar.specs.Numbered.{Numbered};
    ghost use Rattle.cfgrammar.specs.Syntax.{Syntax};

    // What may be made of a text that was read as this syntax, unless it names no kind, and has these errors.
    ghost of_errors: { Self → List ℕ → Option Syntax → List GrammarError → R → Type 0 };

    // What may be made of a text that has this syntax and this numbered grammar.
    ghost of_grammar: { Self → List ℕ → Syntax → Numbered → R → Type 0 };

    /// Makes the result for a text that was read as this tree, unless it names no kind, and has these errors.
    ///
    /// # Errors
    ///
    /// Running out of memory.
    fn errors(
        &self,
        alloc: Global,
        text: &str,
        ast: Option<&GrammarAST>,
        errors: &[YaccGrammarError],
    ) -> Result<R, AllocError>
        requires { All (EachErrorSpan (IsPiece text.now)) errors.now }
        ensures { IfOk result (of_errors self.now text.now (option_map (λ ast. syntax ast.now) ast.entry) errors.now) };

    /// Makes the result for a text that has this tree, if it is the same whatever the grammar; the grammar's tables are
    /// then not made.
    ///
    /// # Errors
    ///
    /// Running out of memory.
    fn tree(&self, _alloc: Global, text: &str, ast: &GrammarAST) -> Result<Option<R>, AllocError>
        requires { EachSpan (IsPiece text.now) (IsWithin text.now) (syntax ast.now) }
        ensures { IfOk result (λ made. IfSome made (λ made. (grammar : Numbered)
            → of_grammar self.now text.now (syntax ast.now) grammar made)) }
    {
        Ok(None)
    }

    /// Whether the process ends after this reader's result. What was read is then kept till it ends, and not dropped.
    fn is_last(&self) -> bool {
        false
    }

    /// Makes the result for a text that has this tree and this grammar.
    ///
    /// # Errors
    ///
    /// Running out of memory.
    fn grammar(
        &self,
        alloc: Global,
        text: &str,
        ast: &GrammarAST,
        grammar: &YaccGrammar<u32>,
    ) -> Result<R, AllocError>
        requires { EachSpan (IsPiece text.now) (IsWithin text.now) (syntax ast.now) }
        ensures { IfOk result (of_grammar self.now text.now (syntax ast.now) grammar.now) };
}

/// Reads a text as a file of the requested kind, and returns what the reader makes of it.
///
/// # Errors
///
/// Running out of memory.
pub fn read_text<R, T: TextReader<R>>(
    alloc: Global,
    kind: KindArg,
    text: &str,
    reader: &T,
) -> Result<R, AllocError>
    ensures { (found : Found) × IsFound kind text.now found
        × IfOk result (IsMadeOf (T.of_errors reader.now text.now) (T.of_grammar reader.now text.now) found) }
{
    let (made, _) = read_text_and_kind(alloc, kind, text, reader)?;
    Ok(made)
}

/// Reads a text as [`read_text`] does. The second part of the result is the kind that the text was read as, unless its
/// section keeps it from naming one.
///
/// # Errors
///
/// Running out of memory.
pub fn read_text_and_kind<R, T: TextReader<R>>(
    alloc: Global,
    kind: KindArg,
    text: &str,
    reader: &T,
) -> Result<(R, Option<YaccKind>), AllocError>
    ensures { (found : Found) × IsFound kind text.now found
        × IfOk result (IsMadeOfRead (T.of_errors reader.now text.now) (T.of_grammar reader.now text.now) found) }
{
    match kind {
        KindArg::Named(kind) => read_as(alloc, kind, text, reader),
        KindArg::Section => read_by_section(alloc, text, reader),
    }
}

/// Whether a text names no kind: it has no section, or one without errors that has no key `yacckind`.
///
/// # Errors
///
/// Running out of memory.
pub fn names_no_kind(alloc: Global, text: &str) -> Result<bool, AllocError>
    ensures { IfOk result (IsUnnamed text.now) }
{
    match kind_if_named(alloc, text) {
        Ok((None, _)) => Ok(true),
        Ok((Some(_), _)) | Err(HeaderFault::Errors(_)) => Ok(false),
        Err(HeaderFault::OutOfMemory) => Err(AllocError),
    }
}

/// What is made of a text as a file of the kind.
fn read_as<R, T: TextReader<R>>(
    alloc: Global,
    kind: YaccKind,
    text: &str,
    reader: &T,
) -> Result<(R, Option<YaccKind>), AllocError>
    ensures { (found : Found) × IsFoundAs kind text.now found
        × IfOk result (IsMadeOfRead (T.of_errors reader.now text.now) (T.of_grammar reader.now text.now) found) }
{
    let parsed = ASTWithValidityInfo::new(alloc, kind, text)?;
    finish(alloc, text, parsed, reader)
}

/// What is made of a text as a file of the kind that it names, and that kind.
fn read_by_section<R, T: TextReader<R>>(
    alloc: Global,
    text: &str,
    reader: &T,
) -> Result<(R, Option<YaccKind>), AllocError>
    ensures { (found : Found) × IsFoundItself text.now found
        × IfOk result (IsMadeOfRead (T.of_errors reader.now text.now) (T.of_grammar reader.now text.now) found) }
{
    match ASTWithValidityInfo::from_str(alloc, text) {
        Ok(parsed) => finish(alloc, text, parsed, reader),
        Err(YaccFault::Errors(errors)) => Ok((reader.errors(alloc, text, None, &errors)?, None)),
        Err(YaccFault::OutOfMemory) => Err(AllocError),
    }
}

/// What is made of a text that reads as this, and the kind that it was read as.
fn finish<R, T: TextReader<R>>(
    alloc: Global,
    text: &str,
    parsed: ASTWithValidityInfo,
    reader: &T,
) -> Result<(R, Option<YaccKind>), AllocError>
    requires { EachParsedSpan (IsPiece text.now) (IsWithin text.now) parsed }
    ensures { IfOk result (IsMadeOfRead (T.of_errors reader.now text.now) (T.of_grammar reader.now text.now)
        (WasRead parsed)) }
{
    let kind = parsed.yacc_kind();
    let made = lend(parsed, reader.is_last(), |parsed| {
        finish_parsed(alloc, text, parsed, reader)
    })?;
    Ok((made, Some(kind)))
}

/// What is made of a text that reads as this.
fn finish_parsed<R, T: TextReader<R>>(
    alloc: Global,
    text: &str,
    parsed: &ASTWithValidityInfo,
    reader: &T,
) -> Result<R, AllocError>
    requires { EachParsedSpan (IsPiece text.now) (IsWithin text.now) parsed.now }
    ensures { IfOk result (IsMadeOf (T.of_errors reader.now text.now) (T.of_grammar reader.now text.now)
        (WasRead parsed.now)) }
{
    match YaccGrammar::<u32>::check_ast(alloc, parsed) {
        Ok(()) => finish_valid(alloc, text, parsed, reader),
        Err(YaccFault::Errors(errors)) => reader.errors(alloc, text, Some(parsed.ast()), &errors),
        Err(YaccFault::OutOfMemory) => Err(AllocError),
    }
}

/// What is made of a text that reads as this, which has a grammar.
fn finish_valid<R, T: TextReader<R>>(
    alloc: Global,
    text: &str,
    parsed: &ASTWithValidityInfo,
    reader: &T,
) -> Result<R, AllocError>
    requires spans { EachParsedSpan (IsPiece text.now) (IsWithin text.now) parsed.now }
    requires grammar { IsGrammar greatest (WasRead parsed.now) (in_numbers parsed.now) }
    ensures { IfOk result (IsMadeOfGrammar (T.of_grammar reader.now text.now) (WasRead parsed.now)) }
{
    match reader.tree(alloc, text, parsed.ast())? {
        Some(made) => Ok(made),
        None => {
            let grammar = YaccGrammar::new_from_checked_ast(alloc, parsed)?;
            lend(grammar, reader.is_last(), |grammar| {
                finish_grammar(alloc, text, parsed, grammar, reader)
            })
        }
    }
}

/// What is made of a text that reads as this, which has this grammar.
fn finish_grammar<R, T: TextReader<R>>(
    alloc: Global,
    text: &str,
    parsed: &ASTWithValidityInfo,
    grammar: &YaccGrammar<u32>,
    reader: &T,
) -> Result<R, AllocError>
    requires spans { EachParsedSpan (IsPiece text.now) (IsWithin text.now) parsed.now }
    requires valid { IsGrammar greatest (WasRead parsed.now) (in_numbers parsed.now) }
    requires numbers { grammar.now ≡ in_numbers parsed.now }
    ensures { IfOk result (IsMadeOfGrammar (T.of_grammar reader.now text.now) (WasRead parsed.now)) }
{
    reader.grammar(alloc, text, parsed.ast(), grammar)
}

/// What `next` returns for a value that is owned only here, since a function that drops a tree has to prove how. If it
/// is kept, it isn't dropped.
pub fn lend<V: Drop, R, F: FnOnce(&V) -> R>(value: V, is_kept: bool, next: F) -> R
    requires { FnOnceTakesAt F.FnOnce next value }
    ensures { FnOnceReturnsAt F.FnOnce next value result }
{
    let made = next(&value);
    if is_kept {
        mem::forget(value);
    }
    made
}
