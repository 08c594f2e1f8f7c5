//! How what is reported is written.

ghost use Rattle.std.specs.Prelude.{◌≡◌};
ghost use Rattle.cfglint_shell.specs.Formats.{format_named};

/// How what is reported is written.
#[derive(Clone, Copy, Debug)]
pub enum Format {
    /// As people read it.
    Text,
    /// As JSON, a line for each error and warning.
    Json,
    /// As annotations of GitHub, a line for each error and warning.
    Github,
    /// As a log of SARIF 2.1.0.
    Sarif,
}

impl Format {
    /// The format that a word names, byte for byte.
    pub(crate) fn of_word(word: &str) -> Option<Format>
        ensures { result ≡ format_named word.now }
    {
        match word {
            "text" => Some(Format::Text),
            "json" => Some(Format::Json),
            "github" => Some(Format::Github),
            "sarif" => Some(Format::Sarif),
            _ => None,
        }
    }
}
