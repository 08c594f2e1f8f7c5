//! The reader: the words that are left, and the items that were read.

ghost use Rattle.std.specs.Prelude.{◌≡◌, ◌<◌, ◌≤◌, length, [], IfErr, IfOk, IfSome, Ok, OnOk, ◌∷◌, ◌++◌};
ghost use Rattle.bison_reader.specs.Here.{colon_follows, is_here, is_of, needed, noted, optional, sort_of, word_turn};
ghost use Rattle.bison_reader.specs.Here.{words_of};

use crate::group::Group;
use crate::item::{Expected, Item};
use crate::sort::Sort;
use crate::turns::Turns;
use std::alloc::{AllocError, Global};

/// Why reading stopped.
#[derive(Clone, Copy)]
pub(crate) enum Stop {
    OutOfMemory,
    /// A word can't be here. It is an item already.
    Unexpected,
}

impl From<AllocError> for Stop {
    ghost use Rattle.bison_reader.specs.declared.reader.Stop.TheVariants.{OutOfMemory};

    ghost from_gives = { λ _ e. e ≡ OutOfMemory };

    fn from(_error: AllocError) -> Stop {
        Stop::OutOfMemory
    }
}

impl Turns for Group {
    ghost construct = { λ group words. word_turn words group };

    #[tactic(auto, unfolding(crate::specs::Here::word_turn))]
    fn turn(&self, reader: &mut Reader<'_>) -> Result<bool, Stop> {
        Ok(reader.take(*self).is_some())
    }
}

/// Reads the words of these sorts, from the first on. `next` is the next one, and `items` were read.
#[derive(Drop)]
pub(crate) struct Reader<'a> {
    pub(crate) alloc: Global,
    pub(crate) sorts: &'a [Sort],
    pub(crate) next: usize,
    pub(crate) items: Vec<Item>,
    ghost within: { next ≤ length sorts.now },
}

impl<'a> Reader<'a> {
    ghost use Rattle.bison_reader.specs.Inner.Builds.{Builds, Fails, IsTaken, Grows, items_read, rest_of};
    ghost use Rattle.bison_reader.specs.Items.{item_view};
    ghost use Rattle.bison_reader.specs.declared.reader.Stop.TheVariants.{OutOfMemory};

    /// Before the first word, with nothing read.
    pub(super) fn new(alloc: Global, sorts: &'a [Sort]) -> Self
        ensures words { (result.sorts.now ≡ sorts.now) × (result.next ≡ 0) }
        ensures items { items_read result ≡ [] }
    {
        Reader {
            alloc,
            sorts,
            next: 0,
            items: Vec::new(alloc),
        }
    }

    /// The items that were read.
    pub(super) fn into_items(self) -> Vec<Item>
        ensures { result ≡ self.entry.items }
    {
        self.items
    }

    /// The sort of the word with this number.
    pub(super) fn sort_of(&self, word: usize) -> Sort
        ensures { result ≡ sort_of self.now.sorts.now word }
    {
        match self.sorts.get(word) {
            Some(sort) => *sort,
            None => Sort::End,
        }
    }

    /// Whether a colon follows a word, or a name in brackets and a colon.
    fn colon_follows(&self, word: usize) -> bool
        requires { word < length self.now.sorts.now }
        ensures { result ≡ colon_follows self.now.sorts.now word }
    {
        let _len = self.sorts.len();
        match (self.sort_of(word + 1), self.sort_of(word + 2)) {
            (Sort::Colon, _) | (Sort::Name, Sort::Colon) => true,
            _ => false,
        }
    }

    /// Whether a word is of the group.
    pub(super) fn is_of(&self, group: Group, word: usize) -> bool
        requires { word < length self.now.sorts.now }
        ensures { result ≡ is_of self.now.sorts.now group word }
    {
        group.has(self.sort_of(word), self.colon_follows(word))
    }

    /// Whether the next word is of the group.
    #[tactic(auto, using(crate::proofs::Rests::here_open, crate::proofs::Rests::here_done))]
    pub(super) fn is_here(&self, group: Group) -> bool
        ensures { result ≡ is_here self.now.sorts.now group (rest_of self.now) }
    {
        self.next < self.sorts.len() && self.is_of(group, self.next)
    }

    /// Passes the next word, if it is of the group.
    pub(super) fn take(&mut self, group: Group) -> Option<usize>
        ensures taken { IsTaken group self.old self.new result }
        ensures within { IfSome result (λ word. word < length self.old.sorts.now) }
    {
        if !self.is_here(group) {
            return None;
        }
        let word = self.next;
        self.next += 1;
        Some(word)
    }

    /// Passes the next word, if it is of the group.
    #[tactic(auto, unfolding(crate::specs::Here::optional))]
    pub(super) fn optional(&mut self, group: Group)
        ensures { Builds (λ x. x) self.old self.new (Ok tt) (optional self.old.sorts.now group) }
    {
        self.take(group);
    }

    /// Passes words of the group, as many as follow each other.
    #[tactic(auto, unfolding(crate::specs::Here::words_of))]
    pub(super) fn words_of(&mut self, group: Group) -> Result<(), Stop>
        ensures { Builds (λ x. x) self.old self.new result (words_of self.old.sorts.now group) }
    {
        self.repeated(&group)
    }

    /// Notes an item.
    pub(super) fn note(&mut self, item: Item) -> Result<(), Stop>
        ensures kept { (self.new.sorts ≡ self.old.sorts) × (self.new.next ≡ self.old.next) }
        ensures noted { OnOk result (items_read self.new ≡ items_read self.old ++ item_view item ∷ []) }
        ensures stopped { IfErr result (λ stop. stop ≡ OutOfMemory) }
    {
        match self.items.push(item) {
            Ok(()) => Ok(()),
            Err(_) => Err(Stop::OutOfMemory),
        }
    }

    /// Notes that the next word can't be here, unless it is none.
    #[tactic(auto, unfolding(crate::specs::Here::noted), using(crate::proofs::Rests::next_here))]
    pub(super) fn note_unexpected(&mut self, expected: Expected) -> Result<(), Stop>
        ensures { Builds (λ x. x) self.old self.new result (noted self.old.sorts.now expected) }
    {
        if self.is_here(Group::Fault) {
            return Ok(());
        }
        self.note(Item::Unexpected(self.next, expected))
    }

    /// Passes a word of the group, which must be here.
    #[tactic(auto, unfolding(crate::specs::Here::needed))]
    pub(super) fn needed(&mut self, group: Group, expected: Expected) -> Result<usize, Stop>
        ensures read { Builds (λ x. x) self.old self.new result (needed self.old.sorts.now group expected) }
        ensures within { IfOk result (λ word. word < length self.old.sorts.now) }
    {
        match self.take(group) {
            Some(word) => Ok(word),
            None => {
                self.note_unexpected(expected)?;
                Err(Stop::Unexpected)
            }
        }
    }
}
