//! What the parts of a production become.

/// A symbol of a production.
#[derive(Clone, Copy)]
pub enum Piece {
    /// The symbol of this word.
    Symbol(usize),
    /// The rule of an action that isn't at the end: the code's word, and its number among such actions.
    Inner { code: usize, number: usize },
}
