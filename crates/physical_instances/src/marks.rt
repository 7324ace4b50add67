//! Which instance is current beside each point, and at how many points each is.

ghost use Rattle.std.specs.Prelude.{◌≡◌, ◌<◌, ◌∷◌, IfNone, IfSome, get_or, length, slice_set, suc};
ghost use Rattle.std.specs.List.Sorted.{IsStrictlyIncreasing};
ghost use Rattle.physical_instances.specs.Instances.{AreCounts, marked};

use point_sets::PointSet;

/// Makes an instance current at some points.
pub(crate) fn mark(
    root: &PointSet,
    points: &PointSet,
    which: u8,
    valid: &mut [u8],
    counts: &mut [usize],
)
    requires rising { IsStrictlyIncreasing root.now }
    requires beside { length valid.old ≡ length root.now }
    requires counts { AreCounts counts.old valid.old }
    requires which { which < length counts.old }
    ensures valid { valid.new ≡ marked which points.now root.now valid.old }
    ensures counts { AreCounts counts.new valid.new }
    ensures length { length counts.new ≡ length counts.old }
{
    for place in 0..points.len() {
        let Some(point) = points.at(place) else {
            unreachable!()
        };
        if let Some(found) = root.place_of(point) {
            mark_place(found as usize, which, valid, counts);
        }
    }
}

/// Makes an instance current at a place.
fn mark_place(place: usize, which: u8, valid: &mut [u8], counts: &mut [usize])
    requires place { place < length valid.old }
    requires counts { AreCounts counts.old valid.old }
    requires which { which < length counts.old }
    ensures valid { valid.new ≡ slice_set valid.old place which }
    ensures counts { AreCounts counts.new valid.new }
    ensures length { length counts.new ≡ length counts.old }
{
    let before = valid[place] as usize;
    counts[before] -= 1;
    counts[which as usize] += 1;
    valid[place] = which;
}

/// The place of a further instance that is current nowhere.
pub(crate) fn free_place(counts: &[usize]) -> Option<usize>
    ensures some { IfSome result (λ k. suc k < length counts.now) }
    ensures free { IfSome result (λ k. get_or counts.now (suc k) 1 ≡ 0) }
{
    (1..counts.len())
        .find(|which| counts[*which] == 0)
        .map(|which| which - 1)
}
