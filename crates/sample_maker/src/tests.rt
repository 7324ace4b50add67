//! Each length is computed manually: that of the lines that don't change, plus the digits of the
//! four numbers.

use crate::sample;
use std::alloc::AllocError;
use std::test::Fail;

#[test]
fn texts_are_made(rt: HostRuntime) -> Result<(), Fail> {
    let rows = [(0, 1213), (1, 1222), (8, 1225), (64, 1229)];
    for (colours, length) in rows {
        let text = sample(rt.alloc(), colours)?;
        assert_eq!(rt; text.len(), length, "{colours}");
    }
    Ok(())
}
