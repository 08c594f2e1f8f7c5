//! The words that name units of columns.

ghost use Rattle.std.specs.Prelude.{◌≡◌};
ghost use Rattle.cfglint_shell.specs.Formats.{unit_named};

use cfgrammar::ColumnUnit;

/// The unit of columns that a word names, byte for byte.
pub(crate) fn unit_of_word(word: &str) -> Option<ColumnUnit>
    ensures { result ≡ unit_named word.now }
{
    match word {
        "bytes" => Some(ColumnUnit::Bytes),
        "characters" => Some(ColumnUnit::Characters),
        "display" => Some(ColumnUnit::Display),
        _ => None,
    }
}
