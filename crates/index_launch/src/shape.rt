//! Which loops are index launches.

ghost use Rattle.std.specs.Prelude.{◌≡◌, ◌<◌, ◌^◌, drop, length};
ghost use Rattle.std.specs.List.{list_any};
ghost use Rattle.index_launch.specs.Shapes.{against, are_apart, conflicts, first, have_one_partition, interfere, of_arguments, of_pairs, reasons, shape, uses_conflict};

use crate::view::{ArgKind, ArgView, LaunchShape, LoopView, Reason};
use lane_kernels::Mode;

/// Whether a loop is an index launch, and the first reason where it isn't: the loop's own, then those of
/// arguments by their places, then those of pairs by the first argument and the second. It takes no memory.
pub fn launch_shape(view: &LoopView) -> LaunchShape
    requires { length view.now.args < 2 ^ 32 }
    ensures { result ≡ shape view.now }
{
    match first_reason(view) {
        Some(reason) => LaunchShape::Plain(reason),
        None => LaunchShape::Launch,
    }
}

fn first_reason(view: &LoopView) -> Option<Reason>
    requires { length view.now.args < 2 ^ 32 }
    ensures { result ≡ first (reasons view.now) }
{
    if !view.over_space {
        return Some(Reason::NotOverSpace);
    }
    if !view.one_call {
        return Some(Reason::NotOneCall);
    }
    match reason_of_arguments(view.args.as_slice()) {
        Some(reason) => Some(reason),
        None => reason_of_pairs(view),
    }
}

fn reason_of_arguments(args: &[ArgView]) -> Option<Reason>
    requires { length args.now < 2 ^ 32 }
    ensures { result ≡ first (of_arguments 0 args.now) }
{
    for (place, arg) in args.iter().enumerate() {
        if matches!(arg.kind, ArgKind::Other) {
            return Some(Reason::Argument(place as u32));
        }
    }
    None
}

fn reason_of_pairs(view: &LoopView) -> Option<Reason>
    requires { length view.now.args < 2 ^ 32 }
    ensures { result ≡ first (of_pairs view.now.apart 0 view.now.args) }
{
    let args = view.args.as_slice();
    for (place, arg) in args.iter().enumerate() {
        let reason = reason_against(view, place as u32, arg);
        if reason.is_some() {
            return reason;
        }
    }
    None
}

/// What the pairs of an argument with itself and those behind it tell.
fn reason_against(view: &LoopView, a: u32, one: &ArgView) -> Option<Reason>
    requires { length view.now.args < 2 ^ 32 }
    ensures { result ≡ first (against view.now.apart a one.now a (drop a view.now.args)) }
{
    let args = view.args.as_slice();
    for b in a as usize..args.len() {
        if interfere(view.apart.as_slice(), a, one, b as u32, &args[b]) {
            return Some(Reason::Interferes(a, b as u32));
        }
    }
    None
}

/// Whether two arguments, each with its place, interfere across different colours.
fn interfere(apart: &[(u32, u32)], a: u32, one: &ArgView, b: u32, other: &ArgView) -> bool
    ensures { result ≡ interfere apart.now a one.now b other.now }
{
    one.space == other.space
        && uses_conflict(one.uses.as_slice(), other.uses.as_slice())
        && !are_apart(apart, a, b)
        && !have_one_partition(one.kind, other.kind)
}

fn are_apart(apart: &[(u32, u32)], a: u32, b: u32) -> bool
    ensures { result ≡ are_apart apart.now a b }
{
    apart.iter().any(|pair| *pair == (a, b) || *pair == (b, a))
}

/// Whether two arguments are children of one disjoint partition.
fn have_one_partition(one: ArgKind, other: ArgKind) -> bool
    ensures { result ≡ have_one_partition one other }
{
    match (one, other) {
        (
            ArgKind::Child {
                partition: p,
                disjoint: true,
            },
            ArgKind::Child {
                partition: q,
                disjoint: true,
            },
        ) => p == q,
        _ => false,
    }
}

fn uses_conflict(uses: &[(u8, Mode)], others: &[(u8, Mode)]) -> bool
    ensures { result ≡ uses_conflict uses.now others.now }
{
    uses.iter()
        .any(|(field, mode)| conflicts(*field, *mode, others))
}

/// Whether a use of a field conflicts with one of some uses.
fn conflicts(field: u8, mode: Mode, others: &[(u8, Mode)]) -> bool
    ensures { result ≡ list_any (conflicts field mode) others.now }
{
    others
        .iter()
        .any(|other| other.0 == field && mode.conflicts(other.1))
}
