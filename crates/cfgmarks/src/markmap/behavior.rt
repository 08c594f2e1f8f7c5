//! What merging does with a key that is in both maps.

/// Whose value a key keeps when another map is merged into its map.
#[derive(Clone, Copy, Debug, PartialEq, Eq)]
pub enum MergeBehavior {
    /// The other map's value, if it has one.
    Theirs = 1,
    /// This map's value, if it has one.
    Ours = 2,
    /// The only value: two are a conflict.
    MutuallyExclusive = 4,
}
