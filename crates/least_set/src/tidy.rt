//! The heap's first numbers.

ghost use Rattle.std.specs.Prelude.{◌≡◌, ◌<◌, ℕ, All, IfSome, IfNone, length, false, set, slice_index_or, true, ◌≤◌};
ghost use Rattle.std.specs.BinaryHeap.{IsHeap, heap_capacity, heap_items, heap_len};
ghost use Rattle.std.specs.declared.cmp.Reverse.{Reverse};
ghost use Rattle.least_set.specs.Marks.{IsMarked, IsTidy, by_least, flags_of, is_present, mark_at};

use crate::mark::Mark;
use std::cmp::Reverse;
use std::collections::BinaryHeap;

/// The number that comes first, which is the least.
pub fn top(heap: &BinaryHeap<Reverse<usize>>) -> Option<usize>
    requires { IsHeap by_least (heap_items heap.now) }
    ensures none { IfNone result (length (heap_items heap.now) ≡ 0) }
    ensures some { IfSome result (λ x. 0 < length (heap_items heap.now)) }
    ensures value { IfSome result (λ x. x ≡ (slice_index_or (heap_items heap.now) 0 (record { 0 = x })).0) }
    ensures least { IfSome result (λ x. All (λ y. x ≤ y.0) (heap_items heap.now)) }
{
    match heap.peek() {
        Some(first) => Some(first.0),
        None => None,
    }
}

/// Puts a number into the set, and into the heap where it doesn't stand there.
pub fn put(heap: &mut BinaryHeap<Reverse<usize>>, marks: &mut Vec<Mark>, number: usize)
    requires marked { IsMarked marks.old.items (heap_items heap.old) (heap_capacity heap.old) }
    requires below { number < length marks.old.items }
    ensures marked { IsMarked marks.new.items (heap_items heap.new) (heap_capacity heap.new) }
    ensures flags { flags_of marks.new.items ≡ set (flags_of marks.old.items) number true }
{
    if !marks[number].is_absent() {
        marks[number] = Mark::Present;
        return;
    }
    let _ = heap.push(Reverse(number));
    marks[number] = Mark::Present;
}

/// Takes numbers that were taken out of the set off the top of the heap.
pub fn tidy(heap: &mut BinaryHeap<Reverse<usize>>, marks: &mut Vec<Mark>)
    requires { IsMarked marks.old.items (heap_items heap.old) (heap_capacity heap.old) }
    ensures marked { IsMarked marks.new.items (heap_items heap.new) (heap_capacity heap.new) }
    ensures tidy { IsTidy marks.new.items (heap_items heap.new) }
    ensures flags { flags_of marks.new.items ≡ flags_of marks.old.items }
{
    while let Some(first) = top(heap) {
        if marks[first].is_present() {
            return;
        }
        drop_top(heap, marks);
    }
}

/// Takes the first number off the heap.
fn drop_top(heap: &mut BinaryHeap<Reverse<usize>>, marks: &mut Vec<Mark>)
    requires marked { IsMarked marks.old.items (heap_items heap.old) (heap_capacity heap.old) }
    requires some { 0 < length (heap_items heap.old) }
    requires out { (x : Reverse ℕ) → is_present (mark_at marks.old.items (slice_index_or (heap_items heap.old) 0 x).0) ≡ false }
    ensures marked { IsMarked marks.new.items (heap_items heap.new) (heap_capacity heap.new) }
    ensures flags { flags_of marks.new.items ≡ flags_of marks.old.items }
    ensures less { heap_len heap.new < heap_len heap.old }
{
    if let Some(first) = heap.pop() {
        marks[first.0] = Mark::Absent;
    }
}
