//! The severities of errors and findings, as people read them.

ghost use Rattle.std.specs.Prelude.{◌≡◌};
ghost use Rattle.cfglint.specs.Severities.{severity};

/// The severity of an error or of a warning, in its colour or not.
pub(crate) fn severity(colors: bool, is_error: bool) -> &'static str
    ensures { result.now ≡ severity colors is_error }
{
    match (colors, is_error) {
        (true, true) => "\x1b[1;31merror:\x1b[0m",
        (true, false) => "\x1b[1;35mwarning:\x1b[0m",
        (false, true) => "error:",
        (false, false) => "warning:",
    }
}
