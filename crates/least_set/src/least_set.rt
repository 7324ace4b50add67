//! The set.

ghost use Rattle.std.specs.Prelude.{◌≡◌, ◌<◌, ◌≤◌, [], ℕ, IfSome, IfNone, OnOk, false, length, set, true};
ghost use Rattle.least_set.specs.Members.{IsLeast, has};

use crate::mark::Mark;
use crate::tidy::{put, tidy, top};
use std::alloc::{AllocError, Global};
use std::cmp::Reverse;
use std::collections::BinaryHeap;
use std::marker::Model;

/// A set of numbers below some bound, its room. A number that is taken out may stand in the heap until it comes
/// first.
#[derive(Drop)]
pub struct LeastSet {
    heap: BinaryHeap<Reverse<usize>>,
    marks: Vec<Mark>,
}

impl Model for LeastSet {
    ghost use Rattle.std.specs.Prelude.{Bool, List};
    ghost use Rattle.std.specs.BinaryHeap.{heap_capacity, heap_items};
    ghost use Rattle.least_set.specs.Marks.{IsMarked, IsTidy, flags_of};

    ghost Value = { List Bool };

    ghost view = { λ s. flags_of s.marks.items };

    ghost invariant = { λ s. IsMarked s.marks.items (heap_items s.heap) (heap_capacity s.heap) × IsTidy s.marks.items (heap_items s.heap) };
}

impl LeastSet {
    /// The empty set, with room for no number.
    pub fn new(alloc: Global) -> LeastSet
        ensures { result ≡ [] }
    {
        LeastSet {
            heap: BinaryHeap::new(alloc),
            marks: Vec::new(alloc),
        }
    }

    /// Makes room for the numbers below a bound, so that they can be put in without more memory.
    pub fn make_room(&mut self, bound: usize) -> Result<(), AllocError>
        ensures room { OnOk result (bound ≤ length self.new) }
        ensures wider { length self.old ≤ length self.new }
        ensures members { (k : ℕ) → has self.new k ≡ has self.old k }
    {
        if bound <= self.marks.len() {
            return Ok(());
        }
        self.heap.reserve(bound)?;
        for _ in self.marks.len()..bound {
            self.marks.push(Mark::Absent)?;
        }
        Ok(())
    }

    /// Puts a number in, if it isn't there.
    pub fn insert(&mut self, number: usize)
        requires { number < length self.old }
        ensures { self.new ≡ set self.old number true }
    {
        put(&mut self.heap, &mut self.marks, number);
        tidy(&mut self.heap, &mut self.marks);
    }

    /// Takes a number out, if it is there.
    pub fn remove(&mut self, number: usize)
        requires { number < length self.old }
        ensures { self.new ≡ set self.old number false }
    {
        if self.marks[number].is_present() {
            self.marks[number] = Mark::Left;
            tidy(&mut self.heap, &mut self.marks);
        }
    }

    /// Whether a number is in: one without room isn't.
    pub fn has(&self, number: usize) -> bool
        ensures { result ≡ has self.now number }
    {
        number < self.marks.len() && self.marks[number].is_present()
    }

    /// The least number that is in.
    pub fn first(&self) -> Option<usize>
        ensures some { IfSome result (IsLeast self.now) }
        ensures none { IfNone result ((k : ℕ) → has self.now k ≡ false) }
    {
        top(&self.heap)
    }
}
