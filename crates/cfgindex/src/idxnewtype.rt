//! Indices of rules, productions, symbols and tokens.

ghost use Rattle.std.specs.Prelude.{◌≡◌};

use crate::storage::Storage;

/// A rule of a grammar, by its index.
#[derive(Clone, Copy, Debug, PartialEq, Eq, PartialOrd, Ord, Hash)]
pub struct RIdx<T>(pub T);

impl<T: Storage> RIdx<T> {
    /// The index as it is stored.
    pub fn as_storaget(&self) -> T
        ensures { result ≡ self.now.0 }
    {
        let RIdx(index) = *self;
        index
    }

    /// The index as a number.
    pub fn as_usize(&self) -> usize
        ensures { result ≡ T.number self.now.0 }
    {
        self.0.to_usize()
    }
}

impl<T: Storage> From<RIdx<T>> for usize {
    ghost from_gives = { λ rule number. number ≡ T.number rule.0 };

    fn from(rule: RIdx<T>) -> usize {
        rule.0.to_usize()
    }
}

impl<T: Storage> From<RIdx<T>> for u32 {
    ghost from_gives = { λ rule number. number ≡ T.number rule.0 };

    fn from(rule: RIdx<T>) -> u32 {
        rule.0.to_usize() as u32
    }
}

/// A production of a grammar, by its index among the productions of all rules.
#[derive(Clone, Copy, Debug, PartialEq, Eq, PartialOrd, Ord, Hash)]
pub struct PIdx<T>(pub T);

impl<T: Storage> PIdx<T> {
    /// The index as it is stored.
    pub fn as_storaget(&self) -> T
        ensures { result ≡ self.now.0 }
    {
        let PIdx(index) = *self;
        index
    }

    /// The index as a number.
    pub fn as_usize(&self) -> usize
        ensures { result ≡ T.number self.now.0 }
    {
        self.0.to_usize()
    }
}

impl<T: Storage> From<PIdx<T>> for usize {
    ghost from_gives = { λ production number. number ≡ T.number production.0 };

    fn from(production: PIdx<T>) -> usize {
        production.0.to_usize()
    }
}

impl<T: Storage> From<PIdx<T>> for u32 {
    ghost from_gives = { λ production number. number ≡ T.number production.0 };

    fn from(production: PIdx<T>) -> u32 {
        production.0.to_usize() as u32
    }
}

/// A symbol of a production, by its index in the production.
#[derive(Clone, Copy, Debug, PartialEq, Eq, PartialOrd, Ord, Hash)]
pub struct SIdx<T>(pub T);

impl<T: Storage> SIdx<T> {
    /// The index as it is stored.
    pub fn as_storaget(&self) -> T
        ensures { result ≡ self.now.0 }
    {
        let SIdx(index) = *self;
        index
    }

    /// The index as a number.
    pub fn as_usize(&self) -> usize
        ensures { result ≡ T.number self.now.0 }
    {
        self.0.to_usize()
    }
}

impl<T: Storage> From<SIdx<T>> for usize {
    ghost from_gives = { λ symbol number. number ≡ T.number symbol.0 };

    fn from(symbol: SIdx<T>) -> usize {
        symbol.0.to_usize()
    }
}

impl<T: Storage> From<SIdx<T>> for u32 {
    ghost from_gives = { λ symbol number. number ≡ T.number symbol.0 };

    fn from(symbol: SIdx<T>) -> u32 {
        symbol.0.to_usize() as u32
    }
}

/// A token of a grammar, by its index.
#[derive(Clone, Copy, Debug, PartialEq, Eq, PartialOrd, Ord, Hash)]
pub struct TIdx<T>(pub T);

impl<T: Storage> TIdx<T> {
    /// The index as it is stored.
    pub fn as_storaget(&self) -> T
        ensures { result ≡ self.now.0 }
    {
        let TIdx(index) = *self;
        index
    }

    /// The index as a number.
    pub fn as_usize(&self) -> usize
        ensures { result ≡ T.number self.now.0 }
    {
        self.0.to_usize()
    }
}

impl<T: Storage> From<TIdx<T>> for usize {
    ghost from_gives = { λ token number. number ≡ T.number token.0 };

    fn from(token: TIdx<T>) -> usize {
        token.0.to_usize()
    }
}

impl<T: Storage> From<TIdx<T>> for u32 {
    ghost from_gives = { λ token number. number ≡ T.number token.0 };

    fn from(token: TIdx<T>) -> u32 {
        token.0.to_usize() as u32
    }
}

/// A symbol of a production.
#[derive(Clone, Copy, Debug, PartialEq, Eq, Hash)]
pub enum Symbol<S> {
    /// A reference to a rule.
    Rule(RIdx<S>),
    /// A token.
    Token(TIdx<S>),
}
