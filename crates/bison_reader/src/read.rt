//! Reading the words of a file.

ghost use Rattle.std.specs.Prelude.{◌≡◌, IfOk, [], map};
ghost use Rattle.constructs.specs.Construct.{computes};
ghost use Rattle.bison_reader.specs.FileGrammar.{file, items_of};
ghost use Rattle.bison_reader.specs.Inner.Builds.{items_read};
ghost use Rattle.bison_reader.specs.Items.{item_view};
ghost use Rattle.bison_reader.specs.Sorts.{items_in, scanned};
ghost use Rattle.bison_words.specs.WordSpans.{AreInText};
ghost use Rattle.bison_words.specs.Words.{IsWords};

use crate::item::Item;
use crate::reader::{Reader, Stop};
use crate::sort::Sort;
use crate::sorts::sorts_of;
use bison_words::{Words, read_words};
use std::alloc::{AllocError, Global};

/// What is read of a text.
#[derive(Drop)]
pub struct FileText<'a> {
    /// Its words, the faults in them, and what follows the second `%%`.
    pub words: Words<'a>,
    /// What the words say, item by item.
    pub items: Vec<Item>,
}

/// Reads a text as a Yacc or Bison file. The text has exactly one reading. No fault stops it: faults in words are among
/// those of the words, and words that can't be where they are are items. Each span of a word is a piece of the text,
/// and words that aren't faults come in the text's order.
///
/// # Errors
///
/// `AllocError` if an allocation fails.
pub fn read_text<'a>(alloc: Global, text: &'a str) -> Result<FileText<'a>, AllocError>
    ensures words { IfOk result (λ file. IsWords (scanned text.now) file.words) }
    ensures in_text { IfOk result (λ file. AreInText text.now file.words) }
    ensures items { IfOk result (λ file. map item_view file.items.items ≡ items_in text.now) }
{
    let words = read_words(alloc, text)?;
    let sorts = sorts_of(alloc, words.words.as_slice())?;
    let items = read_items(alloc, sorts.as_slice())?;
    Ok(FileText { words, items })
}

/// Reads a file whose words are of these sorts: what it says, item by item. A word that can't be where it is is an item
/// too, and reading goes on after it.
///
/// # Errors
///
/// `AllocError` if an allocation fails.
pub fn read_items(alloc: Global, sorts: &[Sort]) -> Result<Vec<Item>, AllocError>
    ensures { IfOk result (λ items. map item_view items.items ≡ items_of sorts.now) }
{
    let mut reader = Reader::new(alloc, sorts);
    read_file(&mut reader)?;
    Ok(reader.into_items())
}

/// Passes a whole file. No fault stops it.
fn read_file(reader: &mut Reader<'_>) -> Result<(), AllocError>
    requires { (reader.now.next ≡ 0) × (items_read reader.now ≡ []) }
    ensures { IfOk result (λ _. items_read reader.new ≡ items_of reader.old.sorts.now) }
{
    match reader.file() {
        Ok(()) => Ok(()),
        Err(Stop::Unexpected) => Ok(()),
        Err(Stop::OutOfMemory) => Err(AllocError),
    }
}
