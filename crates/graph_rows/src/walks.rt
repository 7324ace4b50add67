//! Three writers, and how many tests of points a finder takes for another one.

ghost use Rattle.std.specs.Prelude.{◌≡◌, []};

use crate::counted::Counted;
use crate::divided::divided;
use crate::listing::Listing;
use crate::needs::needs_of;
use crate::state_text::numbers;
use region_finder::{Finder, Steps};
use region_tree::OpNumber;
use std::alloc::{AllocError, Global};
use std::io;
use std::sync::ledger::Ledger;

/// A finder that lists writers of the first three colours.
fn three_writers<F: Finder + Drop>(alloc: Global, finder: F) -> Result<Listing<F>, AllocError>
    requires { F.listing finder ≡ [] }
{
    let mut listing = Listing::new(Counted::new(divided(alloc)?), finder);
    for (op, word) in [(1, "w2"), (2, "w3"), (3, "w4")] {
        let needs = needs_of(alloc, listing.forest().forest(), word)?;
        listing.put(OpNumber(0), OpNumber(op), &needs)?;
    }
    Ok(listing)
}

/// Prints what interferes with a need, and how many tests of points that took.
fn print_found<F: Finder + Drop, L: Ledger>(
    rt: &HostRuntime,
    listing: &mut Listing<F>,
    word: &str,
    steps: &mut Steps<L>,
) -> io::Result<()> {
    let needs = needs_of(rt.alloc(), listing.forest().forest(), word)?;
    let before = listing.forest().tests();
    let found = match listing.earlier(OpNumber(0), &needs, steps)? {
        Some(found) => numbers(rt.alloc(), found.as_slice())?,
        None => String::from_str(rt.alloc(), " no call")?,
    };
    let tests = listing.forest().tests().saturating_sub(before);
    println!(rt; "{word}:{found} in {tests}")
}

/// Lists one more writer, which takes the place of what it covers.
fn add_writer<F: Finder + Drop>(
    alloc: Global,
    listing: &mut Listing<F>,
    op: u64,
    word: &str,
) -> Result<(), AllocError> {
    let needs = needs_of(alloc, listing.forest().forest(), word)?;
    listing.put(OpNumber(0), OpNumber(op), &needs)?;
    listing.cover(OpNumber(0), OpNumber(op), &needs);
    Ok(())
}

/// A writer of the fourth colour, one of the whole root, and one of a child of its aliased partition; and what is left
/// for one of the whole root behind others that cover some of the three, and all.
pub fn print_walk<F: Finder + Drop, L: Ledger>(
    rt: &HostRuntime,
    name: &str,
    finder: F,
    steps: &mut Steps<L>,
) -> io::Result<()>
    requires { F.listing finder ≡ [] }
{
    println!(rt; "== steps for a writer beside writers of three colours, {name}")?;
    let mut listing = three_writers(rt.alloc(), finder)?;
    for word in ["w5", "w0", "w7"] {
        print_found(rt, &mut listing, word, steps)?;
    }
    println!(rt; "behind one more of the second colour, and one of all")?;
    for (op, word) in [(4, "w3"), (5, "w0")] {
        add_writer(rt.alloc(), &mut listing, op, word)?;
        print_found(rt, &mut listing, "w0", steps)?;
    }
    Ok(())
}
