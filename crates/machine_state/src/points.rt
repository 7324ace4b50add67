//! The points that a loop goes over.

ghost use Rattle.std.specs.Prelude.{◌≡◌, ◌<ℤ◌, ◌^◌, ◌-◌, ℕ, pos};
ghost use Rattle.machine_terms.specs.Jumps.{point_at, size_of, taken};
ghost use Rattle.machine_state.specs.Rounds.{next_of};
ghost use Rattle.machine_state.specs.declared.points.Upcoming.TheVariants.{Point};

use machine_terms::Value;

/// What a loop over points comes to next.
#[derive(Clone, Copy)]
pub enum Upcoming {
    Point(u32),
    /// All points were met.
    End,
    /// The domain has no points, or the counter is none of its places.
    Nowhere,
}

/// How many points a value has; None where it is no space or region.
fn size_of(domain: &Value) -> Option<u32>
    ensures { result ≡ size_of domain.now }
{
    match domain {
        Value::Space(space) => Some(space.volume()),
        Value::Region(region) => Some(region.points.get().len()),
        _ => None,
    }
}

/// The point at a place of a space or region.
fn point_at(domain: &Value, place: u32) -> Option<u32>
    ensures { result ≡ point_at domain.now place }
{
    match domain {
        Value::Space(space) if place < space.volume() => Some(place),
        Value::Region(region) => region.points.get().at(place),
        _ => None,
    }
}

/// What a loop over a domain comes to, by its counter.
pub fn next_of(domain: &Value, count: i64) -> Upcoming
    ensures value { result ≡ next_of domain.now count }
    ensures room { (n : ℕ) → result ≡ Point n → count <ℤ pos (2 ^ 63 - 1) }
{
    let Some(size) = size_of(domain) else {
        return Upcoming::Nowhere;
    };
    let Ok(place) = u32::try_from(count) else {
        return Upcoming::Nowhere;
    };
    if place == size {
        return Upcoming::End;
    }
    match point_at(domain, place) {
        Some(point) => Upcoming::Point(point),
        None => Upcoming::Nowhere,
    }
}

/// A point as a loop has it: an index, or a pointer with position 1.
pub fn loop_value(pointer: bool, point: u32) -> i64
    ensures { result ≡ taken pointer point }
{
    if pointer {
        0x1_0000_0000 + i64::from(point)
    } else {
        i64::from(point)
    }
}
