//! What `clone` of the parser of sections copies.

ghost use Rattle.std.specs.Prelude.{◌≡◌};
ghost use Rattle.cfgheader.specs.declared.parser.GrmtoolsSectionParser.{GrmtoolsSectionParser};

use crate::parser::GrmtoolsSectionParser;

/// A clone of a parser equals its source and allocates nothing.
pub fn parsers_are_cloned<'a>()
    ensures clone { (a b : GrmtoolsSectionParser) → ⟦<GrmtoolsSectionParser<'a> as Clone>⟧.is_clone a b → b ≡ a }
    ensures cloned { (a : GrmtoolsSectionParser) → ⟦<GrmtoolsSectionParser<'a> as Clone>⟧.is_infallible a }
{}
