//! All findings that the words of a Bison file alone decide.

ghost use Rattle.std.specs.Prelude.{◌≡◌, ◌++◌, length, map, List, OnOk};
ghost use Rattle.bison_words.specs.Words.{word_view};
ghost use Rattle.bison_findings.specs.Aliases.{repeated_aliases};
ghost use Rattle.bison_findings.specs.Commas.{ReportsStrayComma};
ghost use Rattle.bison_findings.specs.Defines.{ReportsMisspelledDefine};
ghost use Rattle.bison_findings.specs.Found.{AreBisonFindings};
ghost use Rattle.text_findings.specs.Finding.{ShownFinding};
ghost use Rattle.text_findings.specs.Reports.{ReportsBelow};

use crate::aliases::push_repeated_aliases;
use crate::commas::push_stray_commas;
use crate::defines::push_misspelled_defines;
use bison_words::{Word, read_words};
use std::alloc::{AllocError, Global};
use text_findings::Finding;

/// Adds the findings that the words of the text, as those of a Bison file, alone decide: misspelled `%define`s, aliases
/// that a token has already, and commas.
///
/// # Errors
///
/// Out of memory.
pub fn push_bison_findings(
    alloc: Global,
    all: &mut Vec<Finding>,
    text: &str,
) -> Result<(), AllocError>
    ensures { OnOk result ((found : _) × AreBisonFindings text.now found
        × (all.new.items ≡ all.old.items ++ found)) }
{
    let read = read_words(alloc, text)?;
    push_word_findings(alloc, all, text, read.words.as_slice())
}

/// Adds the findings that these words of the text decide.
fn push_word_findings(
    alloc: Global,
    all: &mut Vec<Finding>,
    text: &str,
    words: &[Word<'_>],
) -> Result<(), AllocError>
    ensures { OnOk result ((defines commas : List ShownFinding)
        × ReportsBelow (ReportsMisspelledDefine (map word_view words.now)) (length (map word_view words.now)) defines
        × ReportsBelow (ReportsStrayComma text.now (map word_view words.now)) (length (map word_view words.now)) commas
        × (all.new.items ≡ all.old.items ++ (defines ++ (repeated_aliases (map word_view words.now) ++ commas)))) }
{
    push_misspelled_defines(alloc, all, words)?;
    push_repeated_aliases(alloc, all, words)?;
    push_stray_commas(alloc, all, text, words)
}
