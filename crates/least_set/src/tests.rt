//! Numbers that come in and go out, a few and many.

use crate::LeastSet;
use std::alloc::{AllocError, Global};
use std::test::Fail;

/// Puts numbers in, or takes them out.
fn change(set: &mut LeastSet, numbers: &[usize], comes: bool) -> Result<(), AllocError> {
    for number in numbers {
        change_one(set, *number, comes)?;
    }
    Ok(())
}

fn change_one(set: &mut LeastSet, number: usize, comes: bool) -> Result<(), AllocError> {
    if number == usize::MAX {
        return Err(AllocError);
    }
    set.make_room(number + 1)?;
    if comes {
        set.insert(number);
    } else {
        set.remove(number);
    }
    Ok(())
}

#[test]
fn the_least_is_told(rt: HostRuntime) -> Result<(), Fail> {
    let mut set = LeastSet::new(rt.alloc());
    assert_eq!(rt; set.first(), None);
    let rows: [(&[usize], bool, Option<usize>); 7] = [
        (&[5, 3, 9, 3], true, Some(3)),
        (&[3], false, Some(5)),
        (&[3, 5], true, Some(3)),
        (&[9, 7], false, Some(3)),
        (&[3, 5], false, None),
        (&[9], true, Some(9)),
        (&[0, 9], true, Some(0)),
    ];
    for (numbers, comes, first) in rows {
        change(&mut set, numbers, comes)?;
        assert_eq!(rt; set.first(), first);
        assert!(rt; numbers.iter().all(|n| set.has(*n) == comes));
    }
    assert!(rt; !set.has(1_000));
    Ok(())
}

#[test]
fn many_come_and_go_in_order(rt: HostRuntime) -> Result<(), Fail> {
    let mut set = LeastSet::new(rt.alloc());
    for number in 0..100_000 {
        change_one(&mut set, 99_999 - number, true)?;
    }
    for number in 0..100_000 {
        assert_eq!(rt; set.first(), Some(number));
        change_one(&mut set, number, false)?;
    }
    assert_eq!(rt; set.first(), None);
    Ok(())
}
