//! Lines for several errors or warnings: as JSON, as annotations of GitHub, or as results of SARIF.

ghost use Rattle.std.specs.Prelude.{◌≡◌, IfOk, map, string_bytes};
ghost use Rattle.cfgjson.specs.Annotations.{annotations};
ghost use Rattle.cfgjson.specs.Objects.{AreJsonLines, diagnostic_object};
ghost use Rattle.cfgjson.specs.Sarif.{result_lines};

use crate::annotation::push_annotation;
use crate::diagnostic::{Diagnostic, push_line};
use crate::sarif::push_result;
use cfglines::Positions;
use std::alloc::{AllocError, Global};

/// An error or a warning about a text that is written for programs.
pub trait Diagnosed {
    ghost use Rattle.std.specs.Prelude.{◌≡◌, IfOk, string_bytes};
    ghost use Rattle.cfgjson.specs.Objects.{ShownDiagnostic};

    // What is shown of it.
    ghost shown: { Self → ShownDiagnostic };

    /// What it says.
    ///
    /// # Errors
    ///
    /// `AllocError` if an allocation fails.
    fn message(&self, alloc: Global) -> Result<String, AllocError>
        ensures { IfOk result (λ text. string_bytes text ≡ (shown self.now).text) };

    /// All that is shown of it, given what it says.
    fn diagnostic<'a>(&'a self, text: &'a str) -> Diagnostic<'a>
        requires { text.now ≡ (shown self.now).text }
        ensures { result ≡ shown self.now };
}

/// The lines of errors or warnings about the text of a file of this name as JSON, in order. The lines of the text are
/// found once for all of them.
///
/// # Errors
///
/// `AllocError` if an allocation fails.
pub fn json_lines<E: Diagnosed>(
    alloc: Global,
    name: &str,
    text: &str,
    all: &[E],
) -> Result<String, AllocError>
    ensures { IfOk result (λ lines. AreJsonLines
        (map (λ one. diagnostic_object name.now text.now (E.shown one)) all.now) (string_bytes lines)) }
{
    let positions = Positions::new(alloc, text)?;
    let mut lines = String::new(alloc);
    for one in all {
        let message = one.message(alloc)?;
        push_line(
            alloc,
            &mut lines,
            name,
            &positions,
            &one.diagnostic(&message),
        )?;
    }
    Ok(lines)
}

/// The lines of errors or warnings about the text of a file of this name as annotations of GitHub, in order. The lines
/// of the text are found once for all of them.
///
/// # Errors
///
/// `AllocError` if an allocation fails.
pub fn annotation_lines<E: Diagnosed>(
    alloc: Global,
    name: &str,
    text: &str,
    all: &[E],
) -> Result<String, AllocError>
    ensures { IfOk result (λ lines. string_bytes lines ≡ annotations name.now text.now (map E.shown all.now)) }
{
    let positions = Positions::new(alloc, text)?;
    let mut lines = String::new(alloc);
    for one in all {
        let message = one.message(alloc)?;
        push_annotation(&mut lines, name, &positions, &one.diagnostic(&message))?;
    }
    Ok(lines)
}

/// The lines of errors or warnings about the text of a file of this name as results of SARIF, in order. The lines of
/// the text are found once for all of them.
///
/// # Errors
///
/// `AllocError` if an allocation fails.
pub fn result_lines<E: Diagnosed>(
    alloc: Global,
    name: &str,
    text: &str,
    all: &[E],
) -> Result<String, AllocError>
    ensures { IfOk result (λ lines. string_bytes lines ≡ result_lines name.now text.now (map E.shown all.now)) }
{
    let positions = Positions::new(alloc, text)?;
    let mut lines = String::new(alloc);
    for one in all {
        let message = one.message(alloc)?;
        push_result(
            alloc,
            &mut lines,
            name,
            &positions,
            &one.diagnostic(&message),
        )?;
    }
    Ok(lines)
}
