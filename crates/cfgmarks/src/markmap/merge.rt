//! Merging one map of marks into another.
ghost use Rattle.std.specs.Prelude.{◌≡◌, true, false, is_some, if◌then◌else◌, Some, None, Ok, Err};
ghost use Rattle.std.specs.Prelude.{IsSomeAnd, IfErr, IfOk, OnOk, OnErr, MatchResult};
ghost use Rattle.std.specs.Option.{ForSome};
ghost use Rattle.cfgmarks.specs.Marks.{marks, entry_at};
ghost use Rattle.cfgmarks.specs.Merging.{stays, conflicts, combined, adopted, behavior_of, Takes, MergesInto};
ghost use Rattle.cfgmarks.specs.Merging.{AllMerged, KeepsStored, expected, CallableOnExpected};
ghost use Rattle.cfgmarks.specs.MergeFaults.{IsRefusal, IsConflict, IsFaultAt, MergesKey, StoresKey, StopsAt};

use super::{MarkMap, Marked, MergeBehavior, MergeError, MergeFault};
use std::alloc::Global;

/// Why a key's entries weren't merged.
#[derive(Drop)]
enum Refusal<V, E> {
    /// Two values where only one is allowed. This is the other map's.
    Conflict(V),
    /// The other map's value couldn't be converted.
    Convert(E),
}

impl<K: Ord + Clone, V: Drop> MarkMap<K, V> {
    /// Merges another map into this one, in the order of its keys. For a key that only the other map has, its marks,
    /// its behavior and its value are taken. Otherwise the behavior set here decides, and the other one is ignored:
    ///
    /// - `Theirs` joins the marks used and required, and takes the other value if there is one;
    /// - `Ours` changes nothing if there is a value here, and otherwise is like `Theirs`;
    /// - `MutuallyExclusive` changes nothing if the other map holds no value, is like `Theirs` if this one holds none,
    ///   and otherwise is a conflict.
    ///
    /// Exactly the values that are taken or that conflict are converted. After that, only a new entry allocates, and a
    /// conflict, for its value. If merging stops, exactly the keys below the one where it stopped are merged.
    pub fn merge_from<U: Drop, E: Drop, F: Fn(U) -> Result<V, E> + Drop>(
        &mut self,
        other: MarkMap<K, U>,
        convert: F,
    ) -> Result<(), MergeFault<K, V, E>>
        requires { CallableOnExpected K.cmp (F.pre convert) (marks self.old) (marks other) }
        ensures ok { OnOk result (AllMerged K.cmp (λ u v. F.post convert u (Ok v)) (marks self.old) (marks other)
            (marks self.new)) }
        ensures fault { IfErr result (λ fault. StopsAt (λ u v. F.post convert u (Ok v))
            (λ u e. F.post convert u (Err e))
            K.cmp (marks self.old) (marks other) fault (marks self.new)) }
        ensures stored { KeepsStored K.cmp (marks self.old) (marks other) (marks self.new) }
    {
        for (key, theirs) in other.contents {
            self.merge_entry(key, theirs, &convert)?;
        }
        Ok(())
    }

    /// Merges one key's entry of another map.
    fn merge_entry<U: Drop, E: Drop, F: Fn(U) -> Result<V, E>>(
        &mut self,
        key: K,
        theirs: Marked<U>,
        convert: &F,
    ) -> Result<(), MergeFault<K, V, E>>
        requires { ForSome (expected (marks self.old).behavior (entry_at K.cmp (marks self.old) key) theirs)
            (F.pre convert.now) }
        ensures ok { OnOk result (MergesKey K.cmp (λ u v. F.post convert.now u (Ok v)) key theirs (marks self.old)
            (marks self.new)) }
        ensures stored { OnOk result (StoresKey K.cmp key (marks self.old) (marks self.new)) }
        ensures err { OnErr result (marks self.new ≡ marks self.old) }
        ensures fault { IfErr result (IsFaultAt (λ u v. F.post convert.now u (Ok v))
            (λ u e. F.post convert.now u (Err e))
            (marks self.old).behavior key (entry_at K.cmp (marks self.old) key) theirs) }
    {
        match self.contents.get_mut(&key) {
            Some(mine) => match mine.merge(theirs, self.default_behavior, convert) {
                Ok(()) => Ok(()),
                Err(Refusal::Convert(e)) => Err(MergeFault::Convert(key, e)),
                Err(Refusal::Conflict(value)) => Err(conflict(self.alloc, key, value)),
            },
            None => self.adopt(key, theirs, convert),
        }
    }

    /// Adopts one key's entry of another map, if there is none here.
    fn adopt<U: Drop, E: Drop, F: Fn(U) -> Result<V, E>>(
        &mut self,
        key: K,
        theirs: Marked<U>,
        convert: &F,
    ) -> Result<(), MergeFault<K, V, E>>
        requires callable { ForSome theirs.value (F.pre convert.now) }
        requires absent { entry_at K.cmp (marks self.old) key ≡ None }
        ensures ok { OnOk result (MergesKey K.cmp (λ u v. F.post convert.now u (Ok v)) key theirs (marks self.old)
            (marks self.new)) }
        ensures stored { OnOk result (StoresKey K.cmp key (marks self.old) (marks self.new)) }
        ensures err { OnErr result (marks self.new ≡ marks self.old) }
        ensures fault { IfErr result (IsFaultAt (λ u v. F.post convert.now u (Ok v))
            (λ u e. F.post convert.now u (Err e))
            (marks self.old).behavior key None theirs) }
    {
        let marked = match convert_value(theirs, convert) {
            Ok(marked) => marked,
            Err(e) => return Err(MergeFault::Convert(key, e)),
        };
        match self.contents.insert(key, marked) {
            Ok(_) => Ok(()),
            Err(_) => Err(MergeFault::OutOfMemory),
        }
    }
}

impl<V: Drop> Marked<V> {
    /// Merges another map's marks and value into these, by the behavior that is set here, or else by `default`.
    fn merge<U: Drop, E: Drop, F: Fn(U) -> Result<V, E>>(
        &mut self,
        theirs: Marked<U>,
        default: MergeBehavior,
        convert: &F,
    ) -> Result<(), Refusal<V, E>>
        requires { ForSome (expected default (Some self.old) theirs) (F.pre convert.now) }
        ensures ok { OnOk result (MergesInto (λ u v. F.post convert.now u (Ok v))
            (behavior_of default self.old) self.old theirs self.new) }
        ensures err { OnErr result (self.new ≡ self.old) }
        ensures refused { IfErr result (IsRefusal (λ u v. F.post convert.now u (Ok v))
            (λ u e. F.post convert.now u (Err e))
            (behavior_of default self.old) self.old theirs) }
    {
        let behavior = self.behavior.unwrap_or(default);
        if self.stays(behavior, &theirs) {
            return Ok(());
        }
        let theirs = match convert_value(theirs, convert) {
            Ok(theirs) => theirs,
            Err(e) => return Err(Refusal::Convert(e)),
        };
        match self.join(theirs, behavior) {
            Ok(()) => Ok(()),
            Err(value) => Err(Refusal::Conflict(value)),
        }
    }

    /// Whether merging leaves these marks as they are.
    fn stays<U>(&self, behavior: MergeBehavior, theirs: &Marked<U>) -> bool
        ensures { result ≡ stays behavior self.now theirs.now }
    {
        match behavior {
            MergeBehavior::Theirs => false,
            MergeBehavior::Ours => self.value.is_some(),
            MergeBehavior::MutuallyExclusive => theirs.value.is_none(),
        }
    }

    /// Joins other marks, and takes their value unless the behavior forbids it. A forbidden value is returned.
    fn join(&mut self, theirs: Marked<V>, behavior: MergeBehavior) -> Result<(), V>
        ensures ok { OnOk result ((conflicts behavior self.old theirs ≡ false)
            × (self.new ≡ combined self.old theirs
            (if is_some theirs.value then theirs.value else self.old.value))) }
        ensures err { OnErr result (self.new ≡ self.old) }
        ensures conflict { IfErr result
            (λ value. (conflicts behavior self.old theirs ≡ true) × (theirs.value ≡ Some value)) }
    {
        let Marked {
            used,
            required,
            behavior: _,
            value,
        } = theirs;
        if let Some(value) = value {
            if behavior == MergeBehavior::MutuallyExclusive && self.value.is_some() {
                return Err(value);
            }
            self.value = Some(value);
        }
        self.used |= used;
        self.required |= required;
        Ok(())
    }
}

/// The same marks, with the value converted.
fn convert_value<U: Drop, V: Drop, E: Drop, F: Fn(U) -> Result<V, E>>(
    theirs: Marked<U>,
    convert: &F,
) -> Result<Marked<V>, E>
    requires { ForSome theirs.value (F.pre convert.now) }
    ensures { MatchResult result
        (λ x. (x ≡ adopted theirs x.value) × Takes (λ u v. F.post convert.now u (Ok v)) None theirs.value x.value)
        (λ e. IsSomeAnd theirs.value (λ u. F.post convert.now u (Err e))) }
{
    let Marked {
        used,
        required,
        behavior,
        value,
    } = theirs;
    let value = match value {
        Some(value) => Some(convert(value)?),
        None => None,
    };
    Ok(Marked {
        used,
        required,
        behavior,
        value,
    })
}

/// The fault of a conflict.
fn conflict<K: Drop, V: Drop, E: Drop>(alloc: Global, key: K, value: V) -> MergeFault<K, V, E>
    ensures { IsConflict key value result }
{
    match Box::new(alloc, value) {
        Ok(value) => MergeFault::Conflict(MergeError::Exclusivity(key, value)),
        Err(_) => MergeFault::OutOfMemory,
    }
}
