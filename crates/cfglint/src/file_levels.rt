//! The levels of findings in a file, by what it is read as.

ghost use Rattle.std.specs.Prelude.{◌≡◌};
ghost use Rattle.cfglint.specs.FileLevels.{bison_levels, yacc_levels};

use finding_kinds::{FindingKind, Level, Levels};

/// The levels in a Bison file. It can't have an `%expect-unused`: the tokens that are expected to be unused are the end
/// of the text, and may be used.
pub(crate) fn bison_levels(levels: Levels) -> Levels
    ensures { result ≡ bison_levels levels }
{
    let mut levels = levels;
    levels.set(FindingKind::NeedlessExpectUnused, Level::Allow);
    levels
}

/// The levels in a file of one of the library's kinds. There a string in a list of `%token` is a token, and a comma is
/// no blank.
pub(crate) fn yacc_levels(levels: Levels) -> Levels
    ensures { result ≡ yacc_levels levels }
{
    let mut levels = levels;
    levels.set(FindingKind::RepeatedAlias, Level::Allow);
    levels.set(FindingKind::StrayComma, Level::Allow);
    levels
}
