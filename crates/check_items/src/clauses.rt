//! What the clauses of a task name.

ghost use Rattle.std.specs.Prelude.{◌≡◌, not};
ghost use Rattle.std.specs.List.{list_any, list_all};
ghost use Rattle.regent_tree.specs.PlainProgram.{tree_of};
ghost use Rattle.regent_tree.specs.Lookup.{type_named};
ghost use Rattle.check_rules.specs.rules.Clauses.{is_no_region, lacks_fields, misdeclares, misdeclares_place};
ghost use Rattle.check_rules.specs.types.Lookup.{region_has};

use program_tables::{Names, Tables};
use regent_tree::{Clause, Name, Place, StaticType};
use static_types::region_has;
use written_types::names_region;

fn has_all(tables: &Tables, t: &StaticType, fields: &[Name]) -> bool
    ensures { result ≡ list_all (region_has (tree_of tables.now) t.now) fields.now }
{
    fields.iter().all(|field| region_has(tables, t, field))
}

/// Whether a place names no region, or a field that its region lacks.
#[tactic(auto, using(static_types::proofs::Scopes::bound_to_none))]
fn misdeclares_place(tables: &Tables, names: &Names, place: &Place) -> bool
    ensures { result ≡ misdeclares_place (tree_of tables.now) names.now place.now }
{
    if !names_region(names, &place.region) {
        return true;
    }
    match (&place.fields, names.bound_to(&place.region)) {
        (Some(fields), Some(bound)) => !has_all(tables, &bound.static_type, fields.as_slice()),
        _ => false,
    }
}

fn any_misdeclares_place(tables: &Tables, names: &Names, places: &[Place]) -> bool
    ensures { result ≡ list_any (misdeclares_place (tree_of tables.now) names.now) places.now }
{
    places
        .iter()
        .any(|place| misdeclares_place(tables, names, place))
}

fn misdeclares(tables: &Tables, names: &Names, clause: &Clause) -> bool
    ensures { result ≡ misdeclares (tree_of tables.now) names.now clause.now }
{
    match clause {
        Clause::Grants { places, .. } => any_misdeclares_place(tables, names, places.as_slice()),
        Clause::Within { a, b } | Clause::Apart { a, b } => {
            !names_region(names, a) || !names_region(names, b)
        }
    }
}

/// Whether what a clause names is no parameter that is a region, or no field of that region.
pub fn any_misdeclares(tables: &Tables, names: &Names, clauses: &[Clause]) -> bool
    ensures { result ≡ list_any (misdeclares (tree_of tables.now) names.now) clauses.now }
{
    clauses
        .iter()
        .any(|clause| misdeclares(tables, names, clause))
}
