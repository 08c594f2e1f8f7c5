//! When severities are coloured, and the words that say so.

ghost use Rattle.std.specs.Prelude.{◌≡◌};
ghost use Rattle.cfglint_shell.specs.Formats.{color_choice_named, colors_by};

/// What `--color` requests.
#[derive(Clone, Copy)]
pub(crate) enum ColorChoice {
    /// Colours as before it.
    Auto,
    /// Colours.
    Always,
    /// No colours.
    Never,
}

impl ColorChoice {
    /// What a word requests, byte for byte.
    pub(crate) fn of_word(word: &str) -> Option<ColorChoice>
        ensures { result ≡ color_choice_named word.now }
    {
        match word {
            "auto" => Some(ColorChoice::Auto),
            "always" => Some(ColorChoice::Always),
            "never" => Some(ColorChoice::Never),
            _ => None,
        }
    }

    /// Whether there are colours with it, if there were any before it or not.
    pub(crate) fn colors(self, before: bool) -> bool
        ensures { result ≡ colors_by self before }
    {
        match self {
            ColorChoice::Auto => before,
            ColorChoice::Always => true,
            ColorChoice::Never => false,
        }
    }
}
