//! A text between two others, and values line by line.

ghost use Rattle.std.specs.Prelude.{◌≡◌, ◌++◌, List, Some, codes, ℕ};
ghost use Rattle.std.specs.Fmt.{WritesOnOk, WritesStyledOnOk};
ghost use Rattle.std.specs.List.{join_by};

use std::fmt;

/// Writes a name between two texts, with any formatting options.
pub(crate) fn write_parts<W: fmt::Write>(
    f: &mut fmt::Formatter<W>,
    before: &str,
    name: &str,
    after: &str,
) -> fmt::Result
    ensures plain { WritesOnOk W.write_str_gives f.old result (before.now ++ (name.now ++ after.now)) f.new }
    ensures styled { WritesStyledOnOk W.write_str_gives f.old result (before.now ++ (name.now ++ after.now)) f.new }
{
    f.write_str(before)?;
    f.write_str(name)?;
    f.write_str(after)
}

/// Writes what `{}` prints of each of these values, with a line end between two of them, under any options.
pub fn write_lines<T: fmt::Display, W: fmt::Write>(
    f: &mut fmt::Formatter<W>,
    values: &[T],
) -> fmt::Result
    ensures plain { (text : T → List ℕ) → ((value : T) → T.output value ≡ Some (text value))
        → WritesOnOk W.write_str_gives f.old result (join_by text (codes "\n") values.now) f.new }
    ensures styled { (text : T → List ℕ) → ((value : T) (spec : _) → T.styled_output value spec ≡ Some (text value))
        → WritesStyledOnOk W.write_str_gives f.old result (join_by text (codes "\n") values.now) f.new }
{
    let Some((first, others)) = values.split_first() else {
        return Ok(());
    };
    first.fmt(f)?;
    for value in others {
        f.write_str("\n")?;
        value.fmt(f)?;
    }
    Ok(())
}
