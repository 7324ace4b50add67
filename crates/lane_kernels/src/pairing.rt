//! Operators on two items, and their use item by item on two lists.

ghost use Rattle.std.specs.Prelude.{◌≡◌, ◌+◌, ◌≤◌, List, length};
ghost use Rattle.std.specs.Simd.Lanes.{chunk, put_chunk, zip2};
ghost use Rattle.lane_kernels.specs.Fronts.{paired_to};

/// How many lanes a vector has.
pub const LANES: usize = 8;

/// An operator on two items, which is there for lanes too.
pub trait Pairing<T: Copy>: Copy {
    /// The operator's result.
    ghost paired: { Self → T → T → T };

    fn one(self, a: T, b: T) -> T
        ensures { result ≡ paired self a b };

    /// Puts the results in the first list's place, as many as there are lanes.
    fn eight(self, into: &mut [T], from: &[T], at: usize)
        requires into_room { at + 8 ≤ length into.old }
        requires from_room { at + 8 ≤ length from.now }
        ensures { into.new ≡ put_chunk at into.old (zip2 (paired self) (chunk at 8 into.old) (chunk at 8 from.now)) };
}

/// Each item of the first list becomes the operator's result on it and the one beside it.
pub fn pair_all<T: Copy, P: Pairing<T>>(pairing: P, into: &mut [T], from: &[T])
    requires { length into.old ≡ length from.now }
    ensures { into.new ≡ zip2 (P.paired pairing) into.old from.now }
{
    let mut at = 0;
    while into.len() - at >= LANES {
        pairing.eight(into, from, at);
        at += LANES;
    }
    pair_rest(pairing, into, from, at);
}

/// The same for the items from a place on, one by one, where those before have their results.
fn pair_rest<T: Copy, P: Pairing<T>>(pairing: P, into: &mut [T], from: &[T], at: usize)
    requires place { at ≤ length into.old }
    requires same_length { length into.old ≡ length from.now }
    ensures { (items : List T) → into.old ≡ paired_to (P.paired pairing) at items from.now
        → into.new ≡ zip2 (P.paired pairing) items from.now }
{
    for place in at..into.len() {
        into[place] = pairing.one(into[place], from[place]);
    }
}
