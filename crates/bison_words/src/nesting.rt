//! The nesting of brackets.

ghost use Rattle.std.specs.Prelude.{◌≡◌, ◌+◌, ◌<◌, ◌^◌};
ghost use Rattle.bison_words.specs.Nested.{after_piece, outermost};

/// What a piece of code, or of a tag, is for the nesting of brackets.
#[derive(Clone, Copy)]
pub enum Nesting {
    /// It opens a bracket.
    Opens,
    /// It lowers the depth, but doesn't close the outermost bracket.
    Lowers,
    /// It closes the outermost bracket, or lowers the depth.
    Closes,
    Stays,
}

/// How many brackets were opened, and by how many the depth was lowered.
#[derive(Clone, Copy)]
pub struct Depth {
    pub opened: usize,
    pub lowered: usize,
}

/// After the outermost bracket was opened.
pub(crate) fn outermost() -> Depth
    ensures { result ≡ outermost }
{
    Depth {
        opened: 0,
        lowered: 0,
    }
}

/// The depth after a piece; `None` if it closes the outermost bracket.
pub(crate) fn after_piece(piece: Nesting, depth: Depth) -> Option<Depth>
    requires { (depth.opened + 1 < 2 ^ 64) × (depth.lowered + 1 < 2 ^ 64) }
    ensures { result ≡ after_piece piece depth }
{
    let Depth { opened, lowered } = depth;
    match piece {
        Nesting::Opens => Some(Depth {
            opened: opened + 1,
            lowered,
        }),
        Nesting::Closes if opened <= lowered => None,
        Nesting::Closes | Nesting::Lowers => Some(Depth {
            opened,
            lowered: lowered + 1,
        }),
        Nesting::Stays => Some(depth),
    }
}
