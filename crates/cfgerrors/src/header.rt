//! What is wrong with a section, and where.

ghost use Rattle.std.specs.Prelude.{◌≡◌, Some};
ghost use Rattle.std.specs.Fmt.{WritesOnOk, WritesStyledOnOk};
ghost use Rattle.cfgerrors.specs.HeaderErrors.{error_kind_view, spanskind_of};
ghost use Rattle.cfgerrors.specs.HeaderTexts.{conversion_text, kind_text, unexpected_text};

use crate::parts::write_parts;
use cfgbase::{Span, Spanned, SpansKind};
use std::error::Error;
use std::fmt;

/// What is wrong with a section.
#[derive(Clone, Copy, Debug, PartialEq, Eq)]
pub enum HeaderErrorKind {
    /// A required section is missing.
    MissingGrmtoolsSection,
    /// A name is missing, or a quoted text has no closing quote.
    IllegalName,
    /// This character is missing.
    ExpectedToken(char),
    /// This character is not allowed here. The text says what may be meant.
    UnexpectedToken(char, &'static str),
    /// A key is given more than once.
    DuplicateEntry,
    /// The value given for this is not allowed.
    InvalidEntry(&'static str),
    /// A value isn't of the type that the first text names. The second says why.
    ConversionError(&'static str, &'static str),
}

impl fmt::Display for HeaderErrorKind {
    ghost output = { λ kind. Some (kind_text (error_kind_view kind)) };

    ghost styled_output = { λ kind _. Some (kind_text (error_kind_view kind)) };

    #[tactic(auto, unfolding(crate::specs::HeaderTexts::kind_text))]
    fn fmt<W: fmt::Write>(&self, f: &mut fmt::Formatter<W>) -> fmt::Result {
        let mut bytes = [0; 4];
        match self {
            HeaderErrorKind::MissingGrmtoolsSection => f.write_str("Missing %grmtools section"),
            HeaderErrorKind::IllegalName => f.write_str("Illegal name"),
            HeaderErrorKind::ExpectedToken(character) => {
                write_parts(
                    f,
                    "Expected token: '",
                    character.encode_utf8(&mut bytes),
                    "'",
                )
            }
            HeaderErrorKind::UnexpectedToken(character, hint) => {
                write_unexpected(f, character.encode_utf8(&mut bytes), hint)
            }
            HeaderErrorKind::DuplicateEntry => f.write_str("Duplicate Entry"),
            HeaderErrorKind::InvalidEntry(what) => write_parts(f, "Invalid entry: '", what, "'"),
            HeaderErrorKind::ConversionError(expected, cause) => write_conversion(
                f, expected, cause,
            ),
        }
    }
}

/// Writes the message for a character that is not allowed where it is, with any formatting options.
fn write_unexpected<W: fmt::Write>(
    f: &mut fmt::Formatter<W>,
    character: &str,
    hint: &str,
) -> fmt::Result
    ensures plain { WritesOnOk W.write_str_gives f.old result (unexpected_text character.now hint.now) f.new }
    ensures styled { WritesStyledOnOk W.write_str_gives f.old result (unexpected_text character.now hint.now) f.new }
{
    write_parts(f, "Unxpected token: '", character, "', ")?;
    f.write_str(hint)?;
    f.write_str(" ")
}

/// Writes the message for a value of another type than the required one, with any formatting options.
fn write_conversion<W: fmt::Write>(
    f: &mut fmt::Formatter<W>,
    expected: &str,
    cause: &str,
) -> fmt::Result
    ensures plain { WritesOnOk W.write_str_gives f.old result (conversion_text expected.now cause.now) f.new }
    ensures styled { WritesStyledOnOk W.write_str_gives f.old result (conversion_text expected.now cause.now) f.new }
{
    write_parts(f, "Converting header value to type '", expected, "': ")?;
    f.write_str(cause)
}

/// An error in a section: what is wrong, and where.
#[derive(Clone, Debug, Drop)]
pub struct HeaderError<T> {
    /// What is wrong.
    pub kind: HeaderErrorKind,
    /// Where it is wrong. For a duplicate, the first location is the original's, and the others are its repeats'.
    pub locations: Vec<T>,
}

impl<T> HeaderError<T> {
    /// What the locations mean.
    pub fn spanskind(&self) -> SpansKind
        ensures { result ≡ spanskind_of (error_kind_view self.now.kind) }
    {
        match self.kind {
            HeaderErrorKind::DuplicateEntry => SpansKind::DuplicationError,
            _ => SpansKind::Error,
        }
    }
}

impl<T> fmt::Display for HeaderError<T> {
    ghost output = { λ error. Some (kind_text (error_kind_view error.kind)) };

    ghost styled_output = { λ error _. Some (kind_text (error_kind_view error.kind)) };

    fn fmt<W: fmt::Write>(&self, f: &mut fmt::Formatter<W>) -> fmt::Result {
        self.kind.fmt(f)
    }
}

impl<T: fmt::Debug + Drop> Error for HeaderError<T> {}

impl Spanned for HeaderError<Span> {
    ghost spans = { λ error. error.locations.items };

    ghost spanskind = { λ error. spanskind_of (error_kind_view error.kind) };

    fn spans(&self) -> &[Span] {
        self.locations.as_slice()
    }

    fn spanskind(&self) -> SpansKind {
        HeaderError::spanskind(self)
    }
}
