//! Reading a text to its tree.

ghost use Rattle.std.specs.Prelude.{◌≡◌, ◌==◌, length, map, filter_map, fold, option_map, true, IfOk, OnOk};
ghost use Rattle.std.specs.String.{string_bytes};
ghost use Rattle.cfgast.specs.TreeView.{syntax};
ghost use Rattle.cfgitems.specs.Syntax.{syntax_of};
ghost use Rattle.bison_reader.specs.Items.{item_view};
ghost use Rattle.bison_reader.specs.Sorts.{items_in, scanned};
ghost use Rattle.bison_words.specs.Words.{IsWords, word_view};
ghost use Rattle.bison_errors.specs.Errors.{AreByOffset, AreErrors, name_errors, text_errors};
ghost use Rattle.bison_tree.specs.Names.{names_of};
ghost use Rattle.bison_errors.specs.Reading.{IsTreeOf, level_in, name_errors_of, text_errors_of, tree_of};
ghost use Rattle.bison_errors.specs.Reading.{with_default};
ghost use Rattle.bison_tree.specs.Tree.{tree_items};

use crate::error::Error;
use crate::name_errors::push_name_errors;
use crate::text_errors::push_text_errors;
use bison_reader::{Associativity, FileText, Item, read_text};
use bison_tree::{names_of, syntax_of};
use bison_words::Word;
use cfgast::{GrammarAST, tree_of, tree_with};
use std::alloc::{AllocError, Global};

/// What a Yacc or Bison file says.
#[derive(Debug, Drop)]
pub struct FileTree {
    /// Its grammar. It is whole if there are no errors.
    pub ast: GrammarAST,
    /// What is wrong with it: first its text, and then its names, each by offset.
    pub errors: Vec<Error>,
    /// How the operators of each level of precedences associate. In the tree, `%precedence` is `%nonassoc`.
    pub levels: Vec<Associativity>,
    /// Whether a production without `%prec` has the precedence of its last token.
    pub default_precedence: bool,
}

/// How the operators of each level associate.
fn levels_of(alloc: Global, items: &[Item]) -> Result<Vec<Associativity>, AllocError>
    ensures { IfOk result (λ levels. levels.items ≡ filter_map level_in (map item_view items.now)) }
{
    let mut levels = Vec::new(alloc);
    for item in items {
        if let Item::LevelEnd(associativity) = item {
            levels.push(*associativity)?;
        }
    }
    Ok(levels)
}

/// Whether a production without `%prec` has the precedence of its last token.
fn default_precedence(items: &[Item]) -> bool
    ensures { result ≡ fold with_default true (map item_view items.now) }
{
    let mut holds = true;
    for item in items {
        if let Item::DefaultPrecedence(now) = item {
            holds = *now;
        }
    }
    holds
}

/// Sorts errors by offset.
fn sort(errors: &mut Vec<Error>) -> Result<(), AllocError>
    ensures { OnOk result (AreByOffset errors.old.items errors.new.items) }
{
    errors.sort_by_key(|error| error.offset())?;
    Ok(())
}

/// What is wrong with the names of a file, by offset. `is_whole` says that its text has no error.
fn sorted_name_errors(
    alloc: Global,
    is_whole: bool,
    words: &[Word<'_>],
    names: &[String],
    items: &[Item],
    ast: &GrammarAST,
) -> Result<Vec<Error>, AllocError>
    ensures { IfOk result (λ errors. AreByOffset
        (name_errors is_whole (map word_view words.now) (map string_bytes names.now) (map item_view items.now)
        (syntax ast.now)) errors.items) }
{
    let mut errors = Vec::new(alloc);
    push_name_errors(alloc, &mut errors, is_whole, words, names, items, ast)?;
    sort(&mut errors)?;
    Ok(errors)
}

/// All that is wrong with a file, by its tree.
fn errors_of(
    alloc: Global,
    file: &FileText<'_>,
    names: &[String],
    ast: &GrammarAST,
) -> Result<Vec<Error>, AllocError>
    ensures { IfOk result (λ errors. AreErrors
        (text_errors (map word_view file.now.words.words.items) file.now.words.faults.items
        (map item_view file.now.items.items))
        (name_errors (length (text_errors (map word_view file.now.words.words.items) file.now.words.faults.items
        (map item_view file.now.items.items)) == 0) (map word_view file.now.words.words.items)
        (map string_bytes names.now) (map item_view file.now.items.items) (syntax ast.now))
        errors.items) }
{
    let words = file.words.words.as_slice();
    let items = file.items.as_slice();
    let mut errors = Vec::new(alloc);
    push_text_errors(&mut errors, words, file.words.faults.as_slice(), items)?;
    let is_whole = errors.as_slice().len() == 0;
    sort(&mut errors)?;
    let mut of_names = sorted_name_errors(alloc, is_whole, words, names, items, ast)?;
    errors.append(&mut of_names)?;
    Ok(errors)
}

/// The tree of a file.
fn ast_of(alloc: Global, file: &FileText<'_>, names: &[String]) -> Result<GrammarAST, AllocError>
    requires { map string_bytes names.now
        ≡ names_of (map word_view file.now.words.words.items) (map item_view file.now.items.items) }
    ensures { IfOk result (λ ast. syntax ast ≡ syntax_of (tree_items (map word_view file.now.words.words.items)
        (map item_view file.now.items.items) (option_map (λ text. text.now) file.now.words.epilogue))) }
{
    Ok(tree_of(syntax_of(alloc, file, names)?))
}

/// A tree, with the errors of its file.
fn with_errors(
    alloc: Global,
    file: &FileText<'_>,
    names: &[String],
    ast: GrammarAST,
) -> Result<(GrammarAST, Vec<Error>), AllocError>
    ensures tree { IfOk result (λ both. both.0 ≡ ast) }
    ensures errors { IfOk result (λ both. AreErrors
        (text_errors (map word_view file.now.words.words.items) file.now.words.faults.items
        (map item_view file.now.items.items))
        (name_errors (length (text_errors (map word_view file.now.words.words.items) file.now.words.faults.items
        (map item_view file.now.items.items)) == 0) (map word_view file.now.words.words.items)
        (map string_bytes names.now) (map item_view file.now.items.items) (syntax ast))
        both.1.items) }
{
    let errors = errors_of(alloc, file, names, &ast);
    tree_with(ast, errors)
}

/// The tree of a file, with its errors, by its words and items.
#[tactic(auto, unfolding(crate::specs::Reading::tree_of))]
fn checked_tree(
    alloc: Global,
    text: &str,
    file: &FileText<'_>,
) -> Result<(GrammarAST, Vec<Error>), AllocError>
    requires words { IsWords (scanned text.now) file.now.words }
    requires items { map item_view file.now.items.items ≡ items_in text.now }
    ensures tree { IfOk result (λ both. syntax both.0 ≡ tree_of text.now) }
    ensures errors { IfOk result (λ both. AreErrors (text_errors_of text.now) (name_errors_of text.now) both.1.items) }
{
    let items = file.items.as_slice();
    let names = names_of(alloc, file.words.words.as_slice(), items)?;
    let ast = ast_of(alloc, file, names.as_slice())?;
    with_errors(alloc, file, names.as_slice(), ast)
}

/// What a file says, by its words and items.
fn read_file(alloc: Global, text: &str, file: &FileText<'_>) -> Result<FileTree, AllocError>
    requires words { IsWords (scanned text.now) file.now.words }
    requires items { map item_view file.now.items.items ≡ items_in text.now }
    ensures { IfOk result (IsTreeOf text.now) }
{
    let items = file.items.as_slice();
    let levels = levels_of(alloc, items)?;
    let (ast, errors) = checked_tree(alloc, text, file)?;
    Ok(FileTree {
        ast,
        errors,
        levels,
        default_precedence: default_precedence(items),
    })
}

/// Reads a text as a Yacc or Bison file: each text has exactly one tree and one list of errors. After an error the
/// reading goes on: what was passed is missing in the tree.
///
/// # Errors
///
/// `AllocError` if an allocation fails.
pub fn read(alloc: Global, text: &str) -> Result<FileTree, AllocError>
    ensures { IfOk result (IsTreeOf text.now) }
{
    let file = read_text(alloc, text)?;
    read_file(alloc, text, &file)
}
