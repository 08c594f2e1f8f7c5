//! Why merging stopped.
ghost use Rattle.cfgmarks.specs.FaultTexts.{conflict_text, fault_text, styled_fault_text};

use std::error::Error;
use std::fmt;
use std::fmt::Debug;

/// A conflict of two values.
#[derive(Debug, Drop)]
pub enum MergeError<K, V> {
    /// Both maps hold a value at the key, and only one is allowed. The value is the other map's.
    Exclusivity(K, V),
}

impl<K: Debug, V> fmt::Display for MergeError<K, V> {
    ghost output = { conflict_text K.debug_output };

    fn fmt<W: fmt::Write>(&self, f: &mut fmt::Formatter<W>) -> fmt::Result {
        match self {
            MergeError::Exclusivity(key, _) => {
                write!(f, "Merge behavior forbids overriding key: {key:?}")
            }
        }
    }
}

impl<K: Debug + Drop, V: Debug + Drop> Error for MergeError<K, V> {}

/// Why merging stopped at a key.
#[derive(Debug, Drop)]
pub enum MergeFault<K, V, E> {
    /// The key holds two values, and only one is allowed.
    Conflict(MergeError<K, Box<V>>),
    /// The other map's value couldn't be converted.
    Convert(K, E),
    /// Out of memory.
    OutOfMemory,
}

impl<K: Debug, V, E: fmt::Display> fmt::Display for MergeFault<K, V, E> {
    ghost output = { fault_text K.debug_output E.output };

    ghost styled_output = { λ fault _. styled_fault_text fault };

    fn fmt<W: fmt::Write>(&self, f: &mut fmt::Formatter<W>) -> fmt::Result {
        match self {
            MergeFault::Conflict(conflict) => write!(f, "{conflict}"),
            MergeFault::Convert(key, refusal) => {
                write!(f, "the value at the key {key:?} isn't converted: {refusal}")
            }
            MergeFault::OutOfMemory => f.write_str("out of memory"),
        }
    }
}

impl<K: Debug + Drop, V: Debug + Drop, E: Debug + fmt::Display + Drop> Error
    for MergeFault<K, V, E> {}
