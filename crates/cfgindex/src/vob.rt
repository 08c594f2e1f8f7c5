//! Lists of bits.

ghost use Rattle.std.specs.Prelude.{◌≡◌, ◌≢◌, ◌<◌, ◌≤◌, ◌==◌, ◌↔◌, ◌||◌, ◌-◌, ◌^◌};
ghost use Rattle.std.specs.Prelude.{ℕ, Bool, List, Some, count_by, false, if◌then◌else◌, length, map, not};
ghost use Rattle.std.specs.Prelude.{replicate, slice_get, slice_set, IfOk, IsTrue, MatchBool};
ghost use Rattle.std.specs.Bool.{beq};
ghost use Rattle.std.specs.Cmp.{bool_eq_equiv, partial_equiv_from_equiv};
ghost use Rattle.std.specs.Cmp.Lexicographic.{lists_equiv, lists_per, pointwise};
ghost use Rattle.std.specs.Int.{bit_at};
ghost use Rattle.std.specs.Iterator.{YieldsFirst, item_count};
ghost use Rattle.std.specs.List.{zip};
ghost use Rattle.lemmas.specs.Lists.{positions};
ghost use Rattle.cfgindex.specs.BitWords.{AreJoined, AreWords, bits_of};
ghost use Rattle.cfgindex.specs.Inner.SetBits.{IsNextSetBit};

use std::alloc::{AllocError, Global};
use std::marker::Model;

/// A list of bits with a fixed length. The bits are in words; those of the last word beyond the length are off.
#[derive(Debug, Drop)]
pub struct Vob {
    len: usize,
    words: Vec<u64>,
}

impl Model for Vob {
    ghost use Rattle.std.specs.Prelude.{Bool, List};
    ghost use Rattle.cfgindex.specs.BitWords.{AreWords, bits_of};

    ghost Value = { List Bool };

    ghost view = { λ x. bits_of x.words.items x.len };

    ghost invariant = { λ x. AreWords x.len x.words.items };
}

impl Vob {
    /// A list of `len` bits, each of them `bit`.
    ///
    /// # Errors
    ///
    /// `AllocError` if an allocation fails.
    pub fn from_elem(alloc: Global, bit: bool, len: usize) -> Result<Self, AllocError>
        ensures { IfOk result (λ bits. bits ≡ replicate len bit) }
    {
        if len == 0 {
            return Ok(Vob {
                len,
                words: Vec::new(alloc),
            });
        }
        let word = filled(bit);
        let mut words = vec![in alloc; word; (len - 1) / 64 + 1]?;
        words[(len - 1) / 64] = word >> (63 - (len - 1) % 64);
        Ok(Vob { len, words })
    }

    /// The first `len` bits of the words. Further bits are off, and there is no spare word.
    ///
    /// # Errors
    ///
    /// `AllocError` if an allocation fails.
    pub fn from_words(alloc: Global, words: &[u64], len: usize) -> Result<Self, AllocError>
        requires { AreWords len words.now }
        ensures { IfOk result (λ bits. bits ≡ bits_of words.now len) }
    {
        Ok(Vob {
            len,
            words: words.to_vec(alloc)?,
        })
    }

    /// The words with the bits, 64 in each, the lowest first. Bits of the last word beyond the length are off.
    pub fn words(&self) -> &[u64]
        ensures words { AreWords (length self.now) result.now }
        ensures bits { bits_of result.now (length self.now) ≡ self.now }
    {
        self.words.as_slice()
    }

    /// How many bits there are.
    pub fn len(&self) -> usize
        ensures { result ≡ length self.now }
    {
        self.len
    }

    /// The bit at `i`, or `None` if `i` is not below the length.
    pub fn get(&self, i: usize) -> Option<bool>
        ensures { result ≡ slice_get self.now i }
    {
        if i < self.len {
            Some(has_bit(self.words[i / 64], i % 64))
        } else {
            None
        }
    }

    /// The positions of the bits that are on, in increasing order.
    pub fn iter_set_bits(&self) -> IterSetBits<'_>
        ensures { result ≡ positions (λ b. b) self.now }
    {
        IterSetBits {
            bits: self,
            from: 0,
        }
    }

    /// How many bits are on.
    pub fn count(&self) -> usize
        ensures { result ≡ count_by (λ b. b) self.now }
    {
        let mut count = 0;
        for i in 0..self.len() {
            if self.get(i).unwrap_or(false) {
                count += 1;
            }
        }
        count
    }

    /// The position of the first bit at `from` or after it that is on.
    fn next_set_bit(&self, from: usize) -> Option<usize>
        requires { from ≤ length self.now }
        ensures { IsNextSetBit self.now from result }
    {
        for i in from..self.len() {
            if self.get(i).unwrap_or(false) {
                return Some(i);
            }
        }
        None
    }

    /// Sets the bit at `i` to `bit`, and returns whether that changed it.
    pub fn set(&mut self, i: usize, bit: bool) -> bool
        requires { i < length self.old }
        ensures bits { self.new ≡ slice_set self.old i bit }
        ensures changed { MatchBool result (slice_get self.old i ≡ Some (not bit))
            (slice_get self.old i ≡ Some bit) }
    {
        let word = self.words[i / 64];
        self.words[i / 64] = with_bit(word, i % 64, bit);
        has_bit(word, i % 64) != bit
    }

    /// Sets each bit to `bit`.
    pub fn set_all(&mut self, bit: bool)
        ensures { self.new ≡ replicate (length self.old) bit }
    {
        if self.len == 0 {
            return;
        }
        let word = filled(bit);
        fill(self.words.as_mut_slice(), word);
        self.words[(self.len - 1) / 64] = word >> (63 - (self.len - 1) % 64);
    }

    /// Turns on each bit that `other` has on, and returns whether that changed any.
    pub fn or(&mut self, other: &Vob) -> bool
        requires { length self.old ≡ length other.now }
        ensures bits { self.new ≡ map (λ pair. pair.0 || pair.1) (zip self.old other.now) }
        ensures changed { MatchBool result (self.new ≢ self.old) (self.new ≡ self.old) }
    {
        self.or_words(other.words())
    }

    /// Turns on each bit that the words have on, and returns whether that changed any.
    pub fn or_words(&mut self, words: &[u64]) -> bool
        requires { AreWords (length self.old) words.now }
        ensures bits { self.new ≡ map (λ pair. pair.0 || pair.1) (zip self.old (bits_of words.now (length self.old))) }
        ensures changed { MatchBool result (self.new ≢ self.old) (self.new ≡ self.old) }
    {
        or_words(self.words.as_mut_slice(), words)
    }
}

/// The positions of the bits of a list that are on, in increasing order.
#[derive(Drop)]
pub struct IterSetBits<'a> {
    bits: &'a Vob,
    from: usize,
}

impl<'a> Model for IterSetBits<'a> {
    ghost use Rattle.std.specs.Prelude.{ℕ, ◌≤◌, List, length};
    ghost use Rattle.cfgindex.specs.Inner.SetBits.{set_bits_from};

    ghost Value = { List ℕ };

    ghost view = { λ x. set_bits_from x.bits.now x.from };

    ghost invariant = { λ x. x.from ≤ length x.bits.now };
}

impl<'a> Iterator for IterSetBits<'a> {
    type Item = usize;

    ghost next_gives = { YieldsFirst (λ s. s) };

    ghost remaining = { item_count (λ s. s) };

    fn next(&mut self) -> Option<usize> {
        let bits = self.bits;
        let len = bits.len();
        let Some(i) = bits.next_set_bit(self.from) else {
            self.from = len;
            return None;
        };
        self.from = i + 1;
        Some(i)
    }
}

impl PartialEq for Vob {
    ghost eq = { pointwise beq };

    ghost laws = { lists_per (partial_equiv_from_equiv bool_eq_equiv) };

    fn eq(&self, other: &Self) -> bool
        ensures value { result ≡ pointwise beq self.now other.now }
        ensures same { IsTrue result ↔ (self.now ≡ other.now) }
    {
        self.len == other.len && self.words == other.words
    }
}

impl Eq for Vob {
    ghost laws = { lists_equiv bool_eq_equiv };
}

/// The word whose bits are all on, or all off.
fn filled(bit: bool) -> u64
    ensures { result ≡ (if bit then 2 ^ 64 - 1 else 0) }
{
    if bit { u64::MAX } else { 0 }
}

/// Sets each of the words to `word`.
fn fill(words: &mut [u64], word: u64)
    ensures { words.new ≡ replicate (length words.old) word }
{
    for index in 0..words.len() {
        words[index] = word;
    }
}

/// Whether a word's bit is on.
pub fn has_bit(word: u64, i: usize) -> bool
    requires { i < 64 }
    ensures { result ≡ (bit_at word i == 1) }
{
    word >> i & 1 == 1
}

/// The word with a bit on or off.
pub fn with_bit(word: u64, i: usize, bit: bool) -> u64
    requires { i < 64 }
    ensures here { bit_at result i ≡ (if bit then 1 else 0) }
    ensures others { (k : ℕ) → k < 64 → k ≢ i → bit_at result k ≡ bit_at word k }
{
    let mask = 1 << i;
    if bit { word | mask } else { word & !mask }
}

/// In each word, turns on the bits that are on in the other word with the same index, and returns whether that changed
/// any.
pub fn or_words(words: &mut [u64], others: &[u64]) -> bool
    requires { length words.old ≡ length others.now }
    ensures joined { AreJoined words.old others.now words.new }
    ensures changed { MatchBool result (words.new ≢ words.old) (words.new ≡ words.old) }
{
    let mut changed = false;
    for index in 0..words.len() {
        let word = words[index];
        let joined = word | others[index];
        words[index] = joined;
        changed |= joined != word;
    }
    changed
}
