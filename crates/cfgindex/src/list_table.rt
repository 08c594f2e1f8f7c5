//! Tables of lists.

ghost use Rattle.std.specs.Prelude.{◌≡◌, ◌<◌, ◌++◌, ◌∷◌, [], get_or, length, replicate, slice_set, IfOk, OnErr, OnOk};

use std::alloc::{AllocError, Global};
use std::marker::Model;
use std::mem;

/// A list for each number below some bound.
#[derive(Drop)]
pub struct ListTable<T: Copy> {
    alloc: Global,
    lists: Vec<Vec<T>>,
}

impl<T: Copy> Model for ListTable<T> {
    ghost use Rattle.std.specs.Prelude.{List, map};

    ghost Value = { List (List T) };

    ghost view = { λ x. map (λ list. list.items) x.lists.items };
}

impl<T: Copy> ListTable<T> {
    /// This many empty lists.
    ///
    /// # Errors
    ///
    /// Out of memory.
    pub fn new(alloc: Global, len: usize) -> Result<Self, AllocError>
        ensures { IfOk result (λ x. x ≡ replicate len []) }
    {
        let mut lists = Vec::new(alloc);
        for _index in 0..len {
            lists.push(Vec::new(alloc))?;
        }
        Ok(ListTable { alloc, lists })
    }

    /// The number of lists.
    pub fn len(&self) -> usize
        ensures { result ≡ length self.now }
    {
        self.lists.len()
    }

    /// Adds an item to the list with this index.
    ///
    /// # Errors
    ///
    /// Out of memory.
    pub fn push(&mut self, index: usize, item: T) -> Result<(), AllocError>
        requires { index < length self.old }
        ensures ok { OnOk result (self.new ≡ slice_set self.old index (get_or self.old index [] ++ item ∷ [])) }
        ensures err { OnErr result (self.new ≡ self.old) }
    {
        self.lists[index].push(item)?;
        Ok(())
    }

    /// The list with this index.
    pub fn of(&self, index: usize) -> &[T]
        requires { index < length self.now }
        ensures { result.now ≡ get_or self.now index [] }
    {
        &self.lists[index]
    }

    /// Removes and returns the items of the list with this index.
    pub fn take(&mut self, index: usize) -> Vec<T>
        requires { index < length self.old }
        ensures list { result.items ≡ get_or self.old index [] }
        ensures rest { self.new ≡ slice_set self.old index [] }
    {
        mem::replace(&mut self.lists[index], Vec::new(self.alloc))
    }
}
