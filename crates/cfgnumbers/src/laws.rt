//! What `clone` of a numbering copies, and which syntaxes can be numbered.

ghost use Rattle.std.specs.Prelude.{◌≡◌, []};
ghost use Rattle.cfgitems.specs.Syntax.{Syntax};
ghost use Rattle.cfgast.specs.Sound.{IsSound};
ghost use Rattle.cfgnumbers.specs.Numberable.{IsNumberable};
ghost use Rattle.cfgnumbers.specs.declared.numbering.Numbering.{Numbering};

use crate::numbering::Numbering;

/// A clone of a numbering equals its source, and allocates nothing.
pub fn numberings_are_cloned<'a>()
    ensures clone { (a b : Numbering) → ⟦<Numbering<'a> as Clone>⟧.is_clone a b → b ≡ a }
    ensures cloned { (a : Numbering) → ⟦<Numbering<'a> as Clone>⟧.is_infallible a }
{}

/// What was read without errors can be numbered.
pub fn sound_syntaxes_are_numberable()
    ensures { (s : Syntax) → IsSound s [] → IsNumberable s }
{}
