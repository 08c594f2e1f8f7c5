//! As what a text is read.

ghost use Rattle.std.specs.Prelude.{◌≡◌, IfOk, None};
ghost use Rattle.cfglint.specs.Readings.{IsReading};

use cfglint_shell::{FileKind, KindRequest, LintOptions};
use cfgprogram::KindArg;
use cfgprogram::driver::names_no_kind;
use std::alloc::{AllocError, Global};

/// As what a text is read.
#[derive(Clone, Copy)]
pub(crate) enum Reading {
    /// As a file of this kind of the library.
    Yacc(KindArg),
    /// As a Bison file.
    Bison,
    /// As one of the two: it names no kind, none is requested, and there is no default kind.
    Either,
}

/// As what a text is read with these options.
///
/// # Errors
///
/// Running out of memory.
pub(crate) fn reading_of(
    alloc: Global,
    options: &LintOptions,
    text: &str,
) -> Result<Reading, AllocError>
    ensures { IfOk result (IsReading options.now text.now) }
{
    match options.kind {
        Some(KindRequest::Named(FileKind::Yacc(kind))) => Ok(Reading::Yacc(KindArg::Named(kind))),
        Some(KindRequest::Named(FileKind::Bison)) => Ok(Reading::Bison),
        Some(KindRequest::Section) => Ok(Reading::Yacc(KindArg::Section)),
        None => unrequested_reading(alloc, options, text),
    }
}

/// As what a text is read if nothing is requested.
fn unrequested_reading(
    alloc: Global,
    options: &LintOptions,
    text: &str,
) -> Result<Reading, AllocError>
    requires { options.now.kind ≡ None }
    ensures { IfOk result (IsReading options.now text.now) }
{
    if !names_no_kind(alloc, text)? {
        return Ok(Reading::Yacc(KindArg::Section));
    }
    match options.default_kind {
        Some(FileKind::Yacc(kind)) => Ok(Reading::Yacc(KindArg::Named(kind))),
        Some(FileKind::Bison) => Ok(Reading::Bison),
        None => Ok(Reading::Either),
    }
}
