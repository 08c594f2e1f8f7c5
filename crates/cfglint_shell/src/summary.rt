//! The last line of the report.

ghost use Rattle.std.specs.Prelude.{◌≡◌, ◌++◌, OnOk, string_bytes, true};
ghost use Rattle.cfglint_shell.specs.Inner.{last_line, options_view};
ghost use Rattle.cfglint_shell.specs.KindCounts.{kinds};
ghost use Rattle.cfglint_shell.specs.Tally.{counted, kinds_text, listed, read_as, separator};

use crate::arguments::Options;
use crate::file_kind::{FileKind, KindRequest};
use crate::kind_counts::KindCounts;
use crate::tally::Tally;
use cfgprogram::kinds::{YaccKind, YaccOriginalActionKind};
use std::alloc::AllocError;

/// The kinds, in the order of the summary.
const KINDS: [FileKind; 6] = [
    FileKind::Yacc(YaccKind::Original(YaccOriginalActionKind::NoAction)),
    FileKind::Yacc(YaccKind::Original(YaccOriginalActionKind::UserAction)),
    FileKind::Yacc(YaccKind::Original(YaccOriginalActionKind::GenericParseTree)),
    FileKind::Yacc(YaccKind::Grmtools),
    FileKind::Yacc(YaccKind::Eco),
    FileKind::Bison,
];

/// Writes how many files there were, and what was found in them; and as which kinds they were read, unless the options
/// name one. Nothing, if they have no summary.
pub(crate) fn push_summary(
    text: &mut String,
    tally: &Tally,
    options: &Options<'_>,
) -> Result<(), AllocError>
    ensures { OnOk result (string_bytes text.new
        ≡ string_bytes text.old ++ last_line (options_view options.now) tally.now) }
{
    if !options.has_summary() {
        return Ok(());
    }
    write_counted(text, "", u128::from(tally.texts), "file")?;
    write_counted(text, ": ", tally.errors, "error")?;
    write_counted(text, ", ", tally.warnings, "warning")?;
    write_kinds(text, &tally.kinds_read, options.lint.kind)?;
    text.push_str("\n")
}

/// Writes as which kinds the files were read, unless this kind is requested by its name.
fn write_kinds(
    text: &mut String,
    counts: &KindCounts,
    requested: Option<KindRequest>,
) -> Result<(), AllocError>
    ensures { OnOk result (string_bytes text.new ≡ string_bytes text.old ++ kinds_text requested counts.now) }
{
    match requested {
        Some(KindRequest::Named(_)) => Ok(()),
        _ => write_listed(text, counts),
    }
}

/// Writes how many files were read as each kind, for those as which some were.
fn write_listed(text: &mut String, counts: &KindCounts) -> Result<(), AllocError>
    ensures { OnOk result (string_bytes text.new ≡ string_bytes text.old ++ listed true counts.now kinds) }
{
    let mut is_first = true;
    for kind in &KINDS {
        let count = counts.of(*kind);
        if count == 0 {
            continue;
        }
        write_kind(text, is_first, count, *kind)?;
        is_first = false;
    }
    Ok(())
}

/// Writes how many files were read as this kind, given whether it is the first of which this is written.
fn write_kind(
    text: &mut String,
    is_first: bool,
    count: u64,
    kind: FileKind,
) -> Result<(), AllocError>
    ensures { OnOk result (string_bytes text.new
        ≡ string_bytes text.old ++ (separator is_first ++ read_as count kind)) }
{
    let separator = if is_first { "; " } else { ", " };
    let name = kind.name();
    write_counted(text, separator, u128::from(count), "file")?;
    write!(text, " read as {name}")
}

/// Writes a count of things of this name after a text: `1 file`, `2 files`.
fn write_counted(text: &mut String, before: &str, count: u128, name: &str) -> Result<(), AllocError>
    ensures { OnOk result (string_bytes text.new
        ≡ string_bytes text.old ++ (before.now ++ counted count name.now)) }
{
    let plural = if count == 1 { "" } else { "s" };
    write!(text, "{before}{count} {name}{plural}")
}
