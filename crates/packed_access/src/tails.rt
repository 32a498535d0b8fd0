//! Lists that keep their last elements alone.
ghost use Rattle.std.specs.Prelude.{◌≡◌, ◌<◌, ◌≤◌, ◌+◌, ◌^◌, ◌++◌, ◌∷◌, [], List, Some, length, slice_get, slice_set, drop, OnOk};

use dap_base::OutOfMemory;
use std::alloc::Global;
use std::marker::Model;
use std::mem::replace;
use std::snapshot::Snapshot;

// Elements one after the other.
#[derive(Drop)]
pub(crate) enum Gone<T> {
    Nothing,
    After(Snapshot<Gone<T>>, T),
}

/// Elements that only contracts see: it takes the memory of its count.
#[derive(Drop)]
pub(crate) struct Past<T> {
    count: u32,
    last: Snapshot<Gone<T>>,
}

impl<T> Model for Past<T> {
    ghost use Rattle.std.specs.Prelude.{◌≡◌, List, length};
    ghost use Rattle.packed_access.specs.Tails.{gone_of};

    ghost Value = { List T };

    ghost view = { λ p. gone_of p.count p.last.value };

    ghost invariant = { λ p. length (gone_of p.count p.last.value) ≡ p.count };
}

impl<T: Copy> Past<T> {
    // No elements.
    fn new() -> Past<T>
        ensures { result ≡ [] }
    {
        Past {
            count: 0,
            last: Snapshot::of(&Gone::Nothing),
        }
    }

    fn len(&self) -> u32
        ensures { result ≡ length self.now }
    {
        self.count
    }

    // One element more.
    fn push(&mut self, item: T)
        requires { length self.old + 1 < 2 ^ 32 }
        ensures { self.new ≡ self.old ++ item ∷ [] }
    {
        let before = replace(&mut self.last, Snapshot::of(&Gone::Nothing));
        self.last = Snapshot::of(&Gone::After(before, item));
        self.count += 1;
    }

    // These elements more.
    fn extend(&mut self, items: &[T])
        requires { length self.old + length items.now < 2 ^ 32 }
        ensures { self.new ≡ self.old ++ items.now }
    {
        for item in items {
            self.push(*item);
        }
    }
}

/// A list that keeps its elements from some place on. Contracts see all of them, and how many were let go.
#[derive(Drop)]
pub(crate) struct TailList<T> {
    gone: Past<T>,
    items: Vec<T>,
}

impl<T> Model for TailList<T> {
    ghost use Rattle.std.specs.Prelude.{◌+◌, ◌++◌, length, vec_capacity};
    ghost use Rattle.packed_access.specs.Tails.{TailState};

    ghost Value = { TailState T };

    ghost view = { λ l. record { all = l.gone ++ l.items.items; gone = length l.gone; room = length l.gone + vec_capacity l.items } };
}

impl<T: Copy> TailList<T> {
    // An empty list. Nothing is allocated.
    pub(crate) fn new(alloc: Global) -> TailList<T>
        ensures all { result.all ≡ [] }
        ensures gone { result.gone ≡ 0 }
    {
        TailList {
            gone: Past::new(),
            items: Vec::new(alloc),
        }
    }

    // Adds an element after the others, in memory that was taken.
    pub(crate) fn push(&mut self, item: T)
        requires { length self.old.all < self.old.room }
        ensures added { self.new.all ≡ self.old.all ++ item ∷ [] }
        ensures gone { self.new.gone ≡ self.old.gone }
        ensures longer { self.old.room ≤ self.new.room }
    {
        match self.items.push(item) {
            Ok(()) => {}
            Err(_) => unreachable!(),
        }
    }

    // How many elements there are, with those that were let go.
    pub(crate) fn len(&self) -> u32
        requires { length self.now.all < 2 ^ 32 }
        ensures { result ≡ length self.now.all }
    {
        self.gone.len() + self.items.len() as u32
    }

    // How many elements were let go.
    pub(crate) fn count_gone(&self) -> u32
        ensures { result ≡ self.now.gone }
    {
        self.gone.len()
    }

    // The elements that are kept.
    pub(crate) fn kept_items(&self) -> &[T]
        ensures { result.now ≡ drop self.now.gone self.now.all }
    {
        self.items.as_slice()
    }

    // The element at a place, which is kept.
    pub(crate) fn get(&self, index: u32) -> T
        requires kept { self.now.gone ≤ index }
        requires within { index < length self.now.all }
        ensures { slice_get self.now.all index ≡ Some result }
    {
        self.items[(index - self.gone.len()) as usize]
    }

    // Another element at a place, which is kept.
    pub(crate) fn set(&mut self, index: u32, item: T)
        requires kept { self.old.gone ≤ index }
        requires within { index < length self.old.all }
        ensures all { self.new.all ≡ slice_set self.old.all index item }
        ensures gone { self.new.gone ≡ self.old.gone }
        ensures room { self.new.room ≡ self.old.room }
    {
        self.items[(index - self.gone.len()) as usize] = item;
    }

    // Takes the memory for so many elements more.
    pub(crate) fn reserve(&mut self, more: u32) -> Result<(), OutOfMemory>
        ensures all { self.new.all ≡ self.old.all }
        ensures gone { self.new.gone ≡ self.old.gone }
        ensures longer { self.old.room ≤ self.new.room }
        ensures room { OnOk result (length self.new.all + more ≤ self.new.room) }
    {
        match self.items.reserve(more as usize) {
            Ok(()) => Ok(()),
            Err(_) => Err(OutOfMemory),
        }
    }

    // The elements before a place are let go.
    pub(crate) fn let_go(&mut self, place: u32)
        requires few { length self.old.all < 2 ^ 32 }
        requires later { self.old.gone ≤ place }
        requires within { place ≤ length self.old.all }
        ensures all { self.new.all ≡ self.old.all }
        ensures gone { self.new.gone ≡ place }
        ensures longer { self.old.room ≤ self.new.room }
    {
        let count = (place - self.gone.len()) as usize;
        self.gone.extend(&self.items[..count]);
        let left = self.items.len() - count;
        self.items.copy_within(count.., 0);
        self.items.truncate(left);
    }
}
