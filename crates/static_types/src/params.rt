//! Parameters, and their types read with arguments.

ghost use Rattle.std.specs.Prelude.{◌≡◌, IfOk, map};
ghost use Rattle.regent_tree.specs.PlainProgram.{tree_of};
ghost use Rattle.regent_tree.specs.Scopes.{bound_params};
ghost use Rattle.regent_tree.specs.declared.facts.Term.{Term};
ghost use Rattle.regent_tree.specs.declared.typing.StaticType.TheVariants.{Region as region_type};
ghost use Rattle.regent_tree.specs.Typing.{put, put_in, reach_of};
ghost use Rattle.check_rules.specs.types.Fitting.{agree_all};
ghost use Rattle.check_rules.specs.rules.Partitions.{is_parent, mispartitions, mispartition_in};
ghost use Rattle.check_rules.specs.rules.Spaces.{differs_from, differs, differ_in, misfit_in};
ghost use Rattle.check_rules.specs.types.Params.{types_in_order};
ghost use Rattle.check_rules.specs.types.Sorts.{type_at};

use crate::fitting::{agree, alike};
use crate::looking::{Among, number_at};
use crate::said::type_said;
use crate::sorts::{copy_type, is_region};
use plain_values::Sequence;
use program_tables::{Names, Tables, copy_name};
use regent_tree::{Kind, Param, Reach, StaticType, Term};
use std::alloc::{AllocError, Global};

/// The region that an argument for a region parameter is.
fn reach_of(t: &StaticType) -> Reach
    ensures { result ≡ reach_of t.now }
{
    match t {
        StaticType::Region { term, .. } => Some(*term),
        _ => None,
    }
}

/// A region that a parameter's type names, read with the types of a call's arguments.
fn put(types: &[StaticType], reach: &Reach) -> Reach
    ensures { result ≡ put types.now reach.now }
{
    let place = match reach {
        None => return None,
        Some(Term::Name(number)) => *number,
        Some(Term::Child { .. }) => 0,
    };
    match types.get(place as usize) {
        Some(t) => reach_of(t),
        None => None,
    }
}

fn put_all(
    alloc: Global,
    types: &[StaticType],
    reaches: &[Reach],
) -> Result<Sequence<Reach>, AllocError>
    ensures { IfOk result (λ r. r ≡ map (put types.now) reaches.now) }
{
    let mut all = Sequence::new(alloc);
    for reach in reaches {
        all.push(put(types, reach))?;
    }
    Ok(all)
}

/// A parameter's type, read with the types of a call's arguments.
pub fn put_in(
    alloc: Global,
    types: &[StaticType],
    wanted: &StaticType,
) -> Result<StaticType, AllocError>
    ensures { IfOk result (λ r. r ≡ put_in types.now wanted.now) }
{
    match wanted {
        StaticType::Pointer {
            kind,
            space,
            args,
            regions,
        } => Ok(StaticType::Pointer {
            kind: *kind,
            space: *space,
            args: put_all(alloc, types, args.as_slice())?,
            regions: put_all(alloc, types, regions.as_slice())?,
        }),
        other => copy_type(alloc, other),
    }
}

/// Whether a region's arguments agree with those of a parameter's type, read with the arguments of
/// the call.
fn agree_put(types: &[StaticType], args: &[Reach], others: &[Reach]) -> bool
    ensures { result ≡ agree_all (map (put types.now) args.now) others.now }
{
    for (place, arg) in args.iter().enumerate() {
        let Some(other) = others.get(place) else {
            return true;
        };
        if !agree(&put(types, arg), other) {
            return false;
        }
    }
    true
}

/// Whether a region argument differs from a parameter's type, read with all the arguments: in its
/// kind, its field space or that one's arguments.
fn differs(types: &[StaticType], wanted: &StaticType, t: &StaticType) -> bool
    ensures { result ≡ differs types.now wanted.now t.now }
{
    match t {
        StaticType::Region {
            kind,
            space,
            args,
            ..
        } => differs_from(types, wanted, *kind, *space, args.as_slice()),
        _ => false,
    }
}

fn differs_from(
    types: &[StaticType],
    wanted: &StaticType,
    kind: Kind,
    space: u32,
    others: &[Reach],
) -> bool
    ensures { (r : Term) → result ≡ differs_from types.now wanted.now (region_type kind space others.now r) }
{
    match wanted {
        StaticType::Region {
            kind: wanted_kind,
            space: wanted_space,
            args,
            ..
        } => {
            *wanted_kind != kind
                || *wanted_space != space
                || !agree_put(types, args.as_slice(), others)
        }
        StaticType::Unknown => false,
        _ => true,
    }
}

/// Whether a region that a field space use gives differs from the parameter at its place.
pub fn differ_in(types: &[StaticType], params: &[StaticType], args: &[StaticType]) -> bool
    ensures { result ≡ differ_in types.now params.now args.now }
{
    for (place, wanted) in params.iter().enumerate() {
        let Some(t) = args.get(place) else {
            return false;
        };
        if differs(types, wanted, t) {
            return true;
        }
    }
    false
}

/// Whether a region argument differs from the region parameter at its place.
pub fn misfit_in(types: &[StaticType], params: &[StaticType], args: &[StaticType]) -> bool
    ensures { result ≡ misfit_in types.now params.now args.now }
{
    for (place, wanted) in params.iter().enumerate() {
        let Some(t) = args.get(place) else {
            return false;
        };
        if is_region(wanted) && differs(types, wanted, t) {
            return true;
        }
    }
    false
}

/// Whether an argument is the region that is bound as a partition's parent.
fn is_parent(parent: u32, t: &StaticType) -> bool
    ensures { result ≡ is_parent parent t.now }
{
    match t {
        StaticType::Region { term, .. } => alike(&Term::Name(parent), term),
        StaticType::Unknown => true,
        _ => false,
    }
}

/// Whether the argument at a place is that region; where there is none, that isn't known.
fn is_parent_at(types: &[StaticType], place: u32, parent: u32) -> bool
    ensures { result ≡ is_parent parent (type_at types.now place) }
{
    match types.get(place as usize) {
        Some(t) => is_parent(parent, t),
        None => true,
    }
}

fn mispartitions(types: &[StaticType], wanted: &StaticType, t: &StaticType) -> bool
    ensures { result ≡ mispartitions types.now wanted.now t.now }
{
    match (wanted, t) {
        (
            StaticType::Partition {
                disjoint: asked,
                parent: place,
                ..
            },
            StaticType::Partition {
                disjoint,
                parent,
                ..
            },
        ) => (*asked && !*disjoint) || !is_parent_at(types, *place, *parent),
        _ => false,
    }
}

/// Whether a partition argument isn't as the parameter at its place asks.
pub fn mispartition_in(types: &[StaticType], params: &[StaticType], args: &[StaticType]) -> bool
    ensures { result ≡ mispartition_in types.now params.now args.now }
{
    for (place, wanted) in params.iter().enumerate() {
        let Some(t) = args.get(place) else {
            return false;
        };
        if mispartitions(types, wanted, t) {
            return true;
        }
    }
    false
}

/// The types that parameters say, in their order.
pub fn said_params(
    alloc: Global,
    tables: &Tables,
    params: &[Param],
) -> Result<Vec<StaticType>, AllocError>
    ensures { IfOk result (λ types. types.items
        ≡ types_in_order (bound_params (tree_of tables.now) params.now 0 params.now)) }
{
    let mut types = Vec::new(alloc);
    let among = Among { params };
    for (place, param) in params.iter().enumerate() {
        let own = number_at(place)?;
        let said = type_said(alloc, tables, &among, own, &param.term)?;
        types.push(said)?;
    }
    Ok(types)
}

/// The names of parameters, with the types that are written.
pub fn bind_written(alloc: Global, tables: &Tables, params: &[Param]) -> Result<Names, AllocError>
    ensures { IfOk result (λ names. names ≡ bound_params (tree_of tables.now) params.now 0 params.now) }
{
    let mut names = Names::new(alloc);
    let among = Among { params };
    for (place, param) in params.iter().enumerate() {
        let number = number_at(place)?;
        let said = type_said(alloc, tables, &among, number, &param.term)?;
        let name = copy_name(alloc, &param.name)?;
        names.bind(name, number, said, false)?;
    }
    Ok(names)
}
