//! Calls that take memory, with memory at hand: nothing, a few items, and many.

use crate::{Sequence, Shared};
use std::alloc::{AllocError, Global};
use std::test::Fail;

/// The numbers below a bound, one by one.
fn counted(alloc: Global, bound: u32) -> Result<Sequence<u32>, AllocError> {
    let mut list = Sequence::new(alloc);
    for number in 0..bound {
        list.push(number)?;
    }
    Ok(list)
}

/// Whether so many further owners of a list read it as it is.
fn is_read_by(alloc: Global, list: &Sequence<u32>, owners: u32) -> Result<bool, AllocError> {
    let shared = Shared::new(alloc, list.copy()?)?;
    for _ in 0..owners {
        if shared.share()?.get() != list {
            return Ok(false);
        }
    }
    Ok(shared.get() == list)
}

#[test]
fn lists_are_copied_and_shared(rt: HostRuntime) -> Result<(), Fail> {
    let alloc = rt.alloc();
    for (bound, owners) in [(0, 1), (1, 0), (3, 2), (100_000, 100)] {
        let list = Sequence::from_slice(alloc, counted(alloc, bound)?.as_slice())?;
        assert!(rt; is_read_by(alloc, &list, owners)?, "{bound}");
        assert_eq!(rt; (list.len(), list.is_empty()), (bound as usize, bound == 0));
        let again = Sequence::from_vec(list.into_vec());
        assert_eq!(rt; again.as_slice().last().copied(), bound.checked_sub(1));
    }
    Ok(())
}

#[test]
fn lists_grow_and_change_in_place(rt: HostRuntime) -> Result<(), Fail> {
    for bound in [1, 3, 100_000] {
        let mut list = counted(rt.alloc(), bound)?;
        if !list.is_empty() {
            list.set(0, 7);
        }
        list.extend(&[8, 9])?;
        assert_eq!(rt; (list.pop(), list.pop()), (Some(9), Some(8)), "{bound}");
        let first = list.as_slice().first().copied();
        assert_eq!(rt; (first, list.len()), (Some(7), bound as usize));
    }
    assert_eq!(rt; Sequence::<u32>::new(rt.alloc()).pop(), None);
    Ok(())
}
