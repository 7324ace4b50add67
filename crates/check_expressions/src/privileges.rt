//! What a task may do with its privileges.

ghost use Rattle.std.specs.List.{list_any};
ghost use Rattle.std.specs.Prelude.{◌≡◌, IfOk, map};
ghost use Rattle.regent_tree.specs.Rights.{is_granted};
ghost use Rattle.check_rules.specs.first.FirstInExpressions.{first_of_reading};
ghost use Rattle.check_rules.specs.rules.Privileges.{lacks, made_above, may_do, regions_named, rights_declared, wanted_of_region, wanted_of_step, wanting};
ghost use Rattle.check_rules.specs.types.TypedForms.{field_of};
ghost use Rattle.static_types.specs.Telling.{Anything, Tells};
ghost use Rattle.check_expressions.specs.Seen.{seen};
ghost use Rattle.check_expressions.specs.Sites.{HoldsDeclared, task_at, tree_at};

use crate::rights::field_number;
use crate::scope::Scope;
use crate::site::Site;
use check_rules::Rule;
use regent_tree::{Access, Name, Reach, StaticType, Term, Wanted};
use static_types::{Stop, has_wild};
use std::alloc::AllocError;

/// Whether a region lies within one of those that the task made.
fn lies_in_made(scope: &Scope, term: &Term) -> bool
    ensures { result ≡ list_any (made_above scope.now.facts term.now) scope.now.facts }
{
    scope.facts().lies_in_any(term, scope.made())
}

/// Whether the task's privileges allow this, by what is known.
fn is_granted(site: &Site, scope: &Scope, wanted: &Wanted) -> bool
    requires { HoldsDeclared site.now }
    ensures { result ≡ is_granted (rights_declared (tree_at site.now) (task_at site.now)) scope.now.facts wanted.now }
{
    site.held
        .allows(scope.facts(), &wanted.term, wanted.field, wanted.access)
}

/// Whether the task may do this: by its privileges, or as on a region that it made.
pub fn may_do(site: &Site, scope: &Scope, wanted: Wanted) -> bool
    requires { HoldsDeclared site.now }
    ensures { result
        ≡ may_do (rights_declared (tree_at site.now) (task_at site.now)) (seen scope.now).known wanted }
{
    is_granted(site, scope, &wanted) || lies_in_made(scope, &wanted.term)
}

/// Whether the task may not do all of this.
pub fn lacks_all(site: &Site, scope: &Scope, wanted: &[Wanted]) -> bool
    requires { HoldsDeclared site.now }
    ensures { result ≡ lacks (tree_at site.now) (task_at site.now) (seen scope.now) wanted.now }
{
    for one in wanted {
        if !may_do(site, scope, *one) {
            return true;
        }
    }
    false
}

/// Whether the task lacks an access to a field of one of these regions.
pub fn lacks_field(site: &Site, scope: &Scope, field: u8, access: Access, regions: &[Reach]) -> bool
    requires { HoldsDeclared site.now }
    ensures { result ≡ lacks (tree_at site.now) (task_at site.now) (seen scope.now)
        (map (wanting field access) (regions_named regions.now)) }
{
    for region in regions {
        if let Some(term) = region {
            let wanted = Wanted {
                term: *term,
                field,
                access,
            };
            if !may_do(site, scope, wanted) {
                return true;
            }
        }
    }
    false
}

/// Whether the task lacks an access to a field of what has a type; of what has no such field, and
/// where `wild` is among the regions, nothing is said.
pub fn misuses_field(
    site: &Site,
    scope: &Scope,
    access: Access,
    t: &StaticType,
    name: &Name,
) -> Result<bool, AllocError>
    requires { HoldsDeclared site.now }
    ensures { IfOk result (λ b. b ≡ lacks (tree_at site.now) (task_at site.now) (seen scope.now)
        (wanted_of_step (tree_at site.now) access (field_of t.now name.now))) }
{
    let StaticType::Pointer { space, regions, .. } = t else {
        return Ok(false);
    };
    let Some((place, _)) = site.declared.field(*space, name) else {
        return Ok(false);
    };
    let regions = regions.as_slice();
    if has_wild(regions) {
        return Ok(false);
    }
    Ok(lacks_field(site, scope, field_number(place)?, access, regions))
}

/// Whether the task lacks an access to a field of a region; of what is no region or has no such
/// field nothing is said.
pub fn misuses_region_field(
    site: &Site,
    scope: &Scope,
    access: Access,
    t: &StaticType,
    name: &Name,
) -> Result<bool, AllocError>
    requires { HoldsDeclared site.now }
    ensures { IfOk result (λ b. b ≡ lacks (tree_at site.now) (task_at site.now) (seen scope.now)
        (wanted_of_region (tree_at site.now) access t.now name.now)) }
{
    let StaticType::Region { space, term, .. } = t else {
        return Ok(false);
    };
    let Some((place, _)) = site.declared.field(*space, name) else {
        return Ok(false);
    };
    let wanted = Wanted {
        term: *term,
        field: field_number(place)?,
        access,
    };
    Ok(!may_do(site, scope, wanted))
}

/// Reads a field.
pub fn reads_field(site: &Site, scope: &Scope, t: &StaticType, name: &Name) -> Result<(), Stop>
    requires { HoldsDeclared site.now }
    ensures { Tells Anything result (first_of_reading (tree_at site.now) (task_at site.now)
        (seen scope.now) (field_of t.now name.now)) }
{
    let lacks = misuses_field(site, scope, Access::Read, t, name)?;
    Stop::at(lacks, Rule::Read)
}
