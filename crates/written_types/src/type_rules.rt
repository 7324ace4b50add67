//! The rules on written types.

ghost use Rattle.std.specs.Prelude.{◌≡◌, ◌==◌, ◌||◌, length, map, not, IfOk, option_to_list};
ghost use Rattle.std.specs.Option.{option_copied};
ghost use Rattle.regent_tree.specs.Lookup.{has_space, space_used, type_named};
ghost use Rattle.std.specs.List.{list_any};
ghost use Rattle.regent_tree.specs.PlainProgram.{tree_of};
ghost use Rattle.regent_tree.specs.StaticTypes.{among_params, place_of_space, type_said, written_pointer};
ghost use Rattle.check_rules.specs.types.Declarations.{is_flawed_type, is_unknown_ref, names_unknown};
ghost use Rattle.check_rules.specs.types.Params.{params_beside, says_no_type, type_unless, types_in_order};
ghost use Rattle.static_types.specs.Scopes.{in_names};
ghost use Rattle.regent_tree.specs.declared.types.TypeTerm.TheVariants as typed;
ghost use Rattle.check_rules.specs.rules.Counts.{miscounts_use, miscounts_in_type, uses_of};
ghost use Rattle.check_rules.specs.first.FirstInExpressions.{first_in_type};
ghost use Rattle.check_rules.specs.types.Lookup.{names_a};
ghost use Rattle.check_rules.specs.rules.Names.{misses_region, unbound_name_in_use, misses_space, unbound_name_in_type};
ghost use Rattle.check_rules.specs.rules.Partitions.{is_unstructured_name, miscolours_in_type};
ghost use Rattle.check_rules.specs.rules.Pointers.{is_region_in, is_wrong_region_of_pointer, wrong_region_in_type};
ghost use Rattle.check_rules.specs.types.Sorts as sort;
ghost use Rattle.check_rules.specs.rules.Spaces.{misfits_use, misfits_in_type};
ghost use Rattle.check_rules.specs.rules.Spaces as spaces;
ghost use Rattle.static_types.specs.Telling.{Tells, Anything};

use check_rules::Rule;
use program_tables::{Names, Tables};
use regent_tree::{Name, Param, PointerTerm, Ref, SpaceUse, StaticType, TypeTerm};
use static_types::{
    Among, Stop, bind_written, copy_type, differ_in, is_partition, is_region, is_space, is_unknown,
    is_unstructured, number_at, type_said, written_pointer,
};
use std::alloc::{AllocError, Global};

/// Whether a name is bound to a region, as far as is known.
pub fn names_region(names: &Names, name: &Name) -> bool
    ensures { result ≡ names_a sort.is_region names.now name.now }
{
    match names.bound_to(name) {
        None => false,
        Some(bound) => is_unknown(&bound.static_type) || is_region(&bound.static_type),
    }
}

/// Whether a name is bound to a partition, as far as is known.
pub fn names_partition(names: &Names, name: &Name) -> bool
    ensures { result ≡ names_a sort.is_partition names.now name.now }
{
    match names.bound_to(name) {
        None => false,
        Some(bound) => is_unknown(&bound.static_type) || is_partition(&bound.static_type),
    }
}

fn names_space(names: &Names, name: &Name) -> bool
    ensures { result ≡ names_a sort.is_space names.now name.now }
{
    match names.bound_to(name) {
        None => false,
        Some(bound) => is_unknown(&bound.static_type) || is_space(&bound.static_type),
    }
}

fn misses_region(names: &Names, region: &Ref) -> bool
    ensures { result ≡ misses_region names.now region.now }
{
    match region {
        Ref::Wild => false,
        Ref::Named(name) => !names_region(names, name),
    }
}

fn any_misses_region(names: &Names, regions: &[Ref]) -> bool
    ensures { result ≡ list_any (misses_region names.now) regions.now }
{
    regions.iter().any(|region| misses_region(names, region))
}

fn unbound_name_in_use(tables: &Tables, names: &Names, used: &SpaceUse) -> bool
    ensures { result ≡ unbound_name_in_use (tree_of tables.now) names.now used.now }
{
    tables.space(&used.name).is_none() || any_misses_region(names, used.args.as_slice())
}

fn misses_space(names: &Names, space: &Option<Name>) -> bool
    ensures { result ≡ misses_space names.now space.now }
{
    match space {
        None => false,
        Some(name) => !names_space(names, name),
    }
}

fn unbound_name_in_pointer(tables: &Tables, names: &Names, pointer: &PointerTerm) -> bool
    ensures { result ≡ unbound_name_in_type (tree_of tables.now) names.now (typed.Pointer pointer.now) }
{
    unbound_name_in_use(tables, names, &pointer.space)
        || any_misses_region(names, pointer.regions.as_slice())
}

/// Whether a name in a type stands for nothing of the kind that is needed there.
pub fn unbound_name_in_type(tables: &Tables, names: &Names, term: &TypeTerm) -> bool
    ensures { result ≡ unbound_name_in_type (tree_of tables.now) names.now term.now }
{
    match term {
        TypeTerm::Pointer(pointer) => unbound_name_in_pointer(tables, names, pointer),
        TypeTerm::Region { space, .. } => unbound_name_in_use(tables, names, space),
        TypeTerm::Partition {
            region,
            colours,
            ..
        } => !names_region(names, region) || misses_space(names, colours),
        TypeTerm::Number(_) | TypeTerm::Truth | TypeTerm::Ispace(_) => false,
    }
}

/// The field space use in a type.
fn used_in(term: &TypeTerm) -> Option<&SpaceUse>
    ensures { option_to_list (option_copied result) ≡ uses_of term.now }
{
    match term {
        TypeTerm::Pointer(pointer) => Some(&pointer.space),
        TypeTerm::Region { space, .. } => Some(space),
        _ => None,
    }
}

/// Whether a field space is used with another number of arguments than it has parameters.
fn miscounts_use(tables: &Tables, used: &SpaceUse) -> bool
    ensures { result ≡ miscounts_use (tree_of tables.now) used.now }
{
    tables.space(&used.name).is_some() && used.args.len() != space_params(tables, used).len()
}

/// The parameters of the field space that a use names.
fn space_params<'a>(tables: &Tables<'a>, used: &SpaceUse) -> &'a [Param]
    ensures { result.now ≡ (space_used (tree_of tables.now) used.now).params }
{
    match tables.space_at(tables.place_of_space(&used.name)) {
        Some(space) => space.params.as_slice(),
        None => &[],
    }
}

/// Whether a field space is used in a type with a wrong number of arguments.
pub fn miscounts_in_type(tables: &Tables, term: &TypeTerm) -> bool
    ensures { result ≡ miscounts_in_type (tree_of tables.now) term.now }
{
    match used_in(term) {
        Some(used) => miscounts_use(tables, used),
        None => false,
    }
}

/// Whether a field space has a place, as far as is known: one that isn't there may have any.
fn may_be_at(tables: &Tables, name: &Name, place: u32) -> bool
    ensures { result ≡ (not (has_space (tree_of tables.now) name.now)
        || (place_of_space (tree_of tables.now) name.now == place)) }
{
    match tables.space(name) {
        Some(found) => found == place,
        None => true,
    }
}

/// Whether a type is of a region of a pointer type's kind and field space, as far as is known.
fn may_be_region_in(tables: &Tables, pointer: &PointerTerm, t: &StaticType) -> bool
    ensures { result ≡ sort.may_be (is_region_in (tree_of tables.now) pointer.now) t.now }
{
    match t {
        StaticType::Unknown => true,
        StaticType::Region { kind, space, .. } => pointer.kind == *kind
            && may_be_at(tables, &pointer.space.name, *space),
        _ => false,
    }
}

/// Whether a pointer type can't lead into this region.
fn is_wrong_region_of_pointer(
    tables: &Tables,
    names: &Names,
    pointer: &PointerTerm,
    region: &Ref,
) -> bool
    ensures { result ≡ is_wrong_region_of_pointer (tree_of tables.now) names.now pointer.now region.now }
{
    match region {
        Ref::Wild => true,
        Ref::Named(name) => match names.bound_to(name) {
            Some(bound) => !may_be_region_in(tables, pointer, &bound.static_type),
            None => true,
        },
    }
}

fn any_wrong_region(tables: &Tables, names: &Names, pointer: &PointerTerm, regions: &[Ref]) -> bool
    ensures { result ≡ list_any (is_wrong_region_of_pointer (tree_of tables.now) names.now pointer.now) regions.now }
{
    regions.iter().any(|region| is_wrong_region_of_pointer(tables, names, pointer, region))
}

fn wrong_region_in_pointer(tables: &Tables, names: &Names, pointer: &PointerTerm) -> bool
    ensures { result ≡ wrong_region_in_type (tree_of tables.now) names.now (typed.Pointer pointer.now) }
{
    any_wrong_region(tables, names, pointer, pointer.regions.as_slice())
}

/// Whether a pointer type names what it can't lead into, or has `wild` in its own list.
pub fn wrong_region_in_type(tables: &Tables, names: &Names, term: &TypeTerm) -> bool
    ensures { result ≡ wrong_region_in_type (tree_of tables.now) names.now term.now }
{
    match term {
        TypeTerm::Pointer(pointer) => wrong_region_in_pointer(tables, names, pointer),
        _ => false,
    }
}

/// Whether the type of what a name stands for is unknown, as where it isn't bound.
#[tactic(auto, using(static_types::proofs::Scopes::bound_to_none))]
pub fn is_unknown_name(names: &Names, name: &Name) -> bool
    ensures { result ≡ sort.is_unknown_type (type_named names.now name.now) }
{
    match names.bound_to(name) {
        Some(bound) => is_unknown(&bound.static_type),
        None => true,
    }
}

fn is_unknown_ref(names: &Names, region: &Ref) -> bool
    ensures { result ≡ is_unknown_ref names.now region.now }
{
    match region {
        Ref::Wild => false,
        Ref::Named(name) => is_unknown_name(names, name),
    }
}

fn any_unknown_ref(names: &Names, regions: &[Ref]) -> bool
    ensures { result ≡ list_any (is_unknown_ref names.now) regions.now }
{
    regions.iter().any(|region| is_unknown_ref(names, region))
}

fn pointer_names_unknown(names: &Names, pointer: &PointerTerm) -> bool
    ensures { result ≡ names_unknown names.now (typed.Pointer pointer.now) }
{
    any_unknown_ref(names, pointer.space.args.as_slice())
        || any_unknown_ref(names, pointer.regions.as_slice())
}

/// Whether a name in a type stands for what has an unknown type.
pub fn names_unknown(names: &Names, term: &TypeTerm) -> bool
    ensures { result ≡ names_unknown names.now term.now }
{
    match term {
        TypeTerm::Pointer(pointer) => pointer_names_unknown(names, pointer),
        TypeTerm::Region { space, .. } => any_unknown_ref(names, space.args.as_slice()),
        TypeTerm::Partition { region, .. } => is_unknown_name(names, region),
        TypeTerm::Number(_) | TypeTerm::Truth | TypeTerm::Ispace(_) => false,
    }
}

/// The type of what an argument of a field space names; of `wild` it is unknown.
#[tactic(auto, using(static_types::proofs::Scopes::bound_to_none))]
fn type_of_ref(alloc: Global, names: &Names, region: &Ref) -> Result<StaticType, AllocError>
    ensures { IfOk result (λ t. t ≡ spaces.type_of_ref names.now region.now) }
{
    match region {
        Ref::Wild => Ok(StaticType::Unknown),
        Ref::Named(name) => match names.bound_to(name) {
            Some(bound) => copy_type(alloc, &bound.static_type),
            None => Ok(StaticType::Unknown),
        },
    }
}

fn types_of_refs(
    alloc: Global,
    names: &Names,
    regions: &[Ref],
) -> Result<Vec<StaticType>, AllocError>
    ensures { IfOk result (λ types. types.items ≡ map (spaces.type_of_ref names.now) regions.now) }
{
    let mut types = Vec::new(alloc);
    for region in regions {
        let t = type_of_ref(alloc, names, region)?;
        types.push(t)?;
    }
    Ok(types)
}

/// Whether a name or a count in a type is wrong, so that it says no type.
fn says_no_type(tables: &Tables, names: &Names, term: &TypeTerm) -> bool
    ensures { result ≡ says_no_type (tree_of tables.now) names.now term.now }
{
    unbound_name_in_type(tables, names, term) || miscounts_in_type(tables, term)
}

/// The type of a parameter, which is unknown where its term says no type.
fn type_of_param(
    alloc: Global,
    tables: &Tables,
    names: &Names,
    among: &Among,
    own: u32,
    term: &TypeTerm,
) -> Result<StaticType, AllocError>
    ensures { IfOk result (λ t. t ≡ type_unless (says_no_type (tree_of tables.now) names.now term.now)
        (type_said (tree_of tables.now) (among_params among.now.params.now) own term.now)) }
{
    if says_no_type(tables, names, term) {
        return Ok(StaticType::Unknown);
    }
    type_said(alloc, tables, among, own, term)
}

/// The types of a field space's parameters, in their order; unknown where a term says no type.
fn types_of_params(
    alloc: Global,
    tables: &Tables,
    params: &[Param],
) -> Result<Vec<StaticType>, AllocError>
    ensures { IfOk result (λ types. types.items
        ≡ types_in_order (params_beside (tree_of tables.now) params.now)) }
{
    let names = bind_written(alloc, tables, params)?;
    let among = Among { params };
    let mut types = Vec::new(alloc);
    for (place, param) in params.iter().enumerate() {
        let own = number_at(place)?;
        let t = type_of_param(alloc, tables, &names, &among, own, &param.term)?;
        types.push(t)?;
    }
    Ok(types)
}

/// Whether a region differs from the field space's parameter for which it stands.
fn misfits_use(
    alloc: Global,
    tables: &Tables,
    names: &Names,
    used: &SpaceUse,
) -> Result<bool, AllocError>
    ensures { IfOk result (λ b. b ≡ misfits_use (tree_of tables.now) names.now used.now) }
{
    let types = types_of_refs(alloc, names, used.args.as_slice())?;
    let params = types_of_params(alloc, tables, space_params(tables, used))?;
    Ok(differ_in(&types, &params, &types))
}

/// Whether a field space in a type is used with a region that differs from its parameter.
pub fn misfits_in_type(
    alloc: Global,
    tables: &Tables,
    names: &Names,
    term: &TypeTerm,
) -> Result<bool, AllocError>
    ensures { IfOk result (λ b. b ≡ misfits_in_type (tree_of tables.now) names.now term.now) }
{
    match used_in(term) {
        Some(used) => misfits_use(alloc, tables, names, used),
        None => Ok(false),
    }
}

/// Whether a partition's type has colours of kind `ptr`.
#[tactic(auto, using(static_types::proofs::Scopes::bound_to_none))]
pub fn miscolours_in_type(names: &Names, term: &TypeTerm) -> bool
    ensures { result ≡ miscolours_in_type names.now term.now }
{
    match term {
        TypeTerm::Partition {
            colours: Some(name),
            ..
        } => match names.bound_to(name) {
            Some(bound) => is_unstructured(&bound.static_type),
            None => false,
        },
        _ => false,
    }
}

/// The first rule that a written type breaches.
pub fn check_type(
    alloc: Global,
    tables: &Tables,
    names: &Names,
    term: &TypeTerm,
) -> Result<(), Stop>
    ensures { Tells Anything result (first_in_type (tree_of tables.now) names.now term.now) }
{
    Stop::at(unbound_name_in_type(tables, names, term), Rule::Name)?;
    Stop::at(miscounts_in_type(tables, term), Rule::Count)?;
    Stop::at(wrong_region_in_type(tables, names, term), Rule::Pointer)?;
    Stop::at(misfits_in_type(alloc, tables, names, term)?, Rule::Spaces)?;
    Stop::at(miscolours_in_type(names, term), Rule::Partition)
}

/// The type that a pointer type in an expression says, where it has no breach and names nothing
/// unknown.
pub fn said_pointer(
    alloc: Global,
    tables: &Tables,
    names: &Names,
    pointer: &PointerTerm,
) -> Result<StaticType, Stop>
    ensures { Tells (λ t. t ≡ type_unless
        (is_flawed_type (tree_of tables.now) names.now (typed.Pointer pointer.now))
        (written_pointer (tree_of tables.now) (in_names names.now) pointer.now)) result
        (first_in_type (tree_of tables.now) names.now (typed.Pointer pointer.now)) }
{
    Stop::at(unbound_name_in_pointer(tables, names, pointer), Rule::Name)?;
    Stop::at(miscounts_use(tables, &pointer.space), Rule::Count)?;
    Stop::at(
        wrong_region_in_pointer(tables, names, pointer),
        Rule::Pointer,
    )?;
    Stop::at(
        misfits_use(alloc, tables, names, &pointer.space)?,
        Rule::Spaces,
    )?;
    if pointer_names_unknown(names, pointer) {
        return Ok(StaticType::Unknown);
    }
    Ok(written_pointer(alloc, tables, names, pointer)?)
}
