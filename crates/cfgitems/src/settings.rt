ghost use Rattle.std.specs.Prelude.{◌≡◌, []};

use cfgbase::Span;
use scoped::{Refill, refilled};
use std::alloc::AllocError;

/// What a file says about its grammar as a whole.
#[derive(Debug, Drop)]
pub struct Settings {
    /// The type that the actions of all rules return, unless a rule gives its own.
    pub action_type: Option<String>,
    /// How many shift/reduce conflicts `%expect` allows (Bison), and where it says so.
    pub expect: Option<(usize, Span)>,
    /// How many reduce/reduce conflicts `%expect-rr` allows (Bison), and where it says so.
    pub expectrr: Option<(usize, Span)>,
    /// The name and the type of the parser's parameter.
    pub parse_param: Option<(String, String)>,
    /// The parser's generic parameters.
    pub parse_generics: Option<String>,
    /// The text of the programs part.
    pub programs: Option<String>,
}

impl Settings {
    ghost use Rattle.cfgitems.specs.Syntax.{settings_of};
    ghost use Rattle.cfgitems.specs.SyntaxView.{settings_view};

    /// No settings.
    #[tactic(auto, unfolding(crate::specs::Syntax::settings_of))]
    pub fn none() -> Self
        ensures { settings_view result ≡ settings_of [] }
    {
        Settings {
            action_type: None,
            expect: None,
            expectrr: None,
            parse_param: None,
            parse_generics: None,
            programs: None,
        }
    }
}

impl Clone for Settings {
    ghost use Rattle.cfgitems.specs.SyntaxView.{HasNoText, settings_view};

    ghost is_clone = { λ settings copy. settings_view copy ≡ settings_view settings };

    ghost is_infallible = { HasNoText };

    fn clone(&self) -> Result<Settings, AllocError> {
        refilled(Settings::none(), self)
    }
}

impl Refill for Settings {
    ghost use Rattle.cfgitems.specs.SyntaxView.{HasNoText, settings_view};

    ghost is_copy = { λ settings copy. settings_view copy ≡ settings_view settings };

    ghost is_infallible = { HasNoText };

    fn refill(&mut self, from: &Settings) -> Result<(), AllocError> {
        self.action_type.clone_from(&from.action_type)?;
        self.expect = from.expect;
        self.expectrr = from.expectrr;
        self.parse_param.clone_from(&from.parse_param)?;
        self.parse_generics.clone_from(&from.parse_generics)?;
        self.programs.clone_from(&from.programs)?;
        Ok(())
    }
}
