//! What is looked at of a loop.

ghost use Rattle.std.specs.Prelude.{◌≡◌, IfNone, IfOk, IfSome, None, Some};
ghost use Rattle.regent_tree.specs.Plain.{expression_of, expressions_in};
ghost use Rattle.regent_tree.specs.PlainProgram.{block_in, form_of};
ghost use Rattle.regent_tree.specs.StaticTypes.{task_named};
ghost use Rattle.check_rules.specs.rules.Privileges.{rights_told};
ghost use Rattle.check_rules.specs.types.Declarations.{params_of};
ghost use Rattle.check_rules.specs.types.KnownTypes.{known_types};
ghost use Rattle.check_rules.specs.types.Sorts.{type_at};
ghost use Rattle.regent_tree.specs.declared.typing.StaticType.TheVariants.{Unknown};
ghost use Rattle.check_expressions.specs.Seen.{seen};
ghost use Rattle.check_expressions.specs.Sites.{HoldsDeclared, task_at, tree_at};
ghost use Rattle.static_types.specs.Telling.{Tells};
ghost use Rattle.check_rules.specs.launches.Views.{CallSeen, argument_view, argument_views, call_in, loop_view, only_call, view_of_call};
ghost use Rattle.launch_views.specs.Firsts.{first_of_only};

use crate::apart::{pairs_apart, terms_across};
use crate::kinds::kind_of;
use crate::uses::{space_of, uses_of};
use check_expressions::{Scope, Site, arguments, call, rights_declared};
use index_launch::{ArgView, LoopView};
use plain_values::Sequence;
use regent_tree::{Expr, Name, Right, StaticType, Stmt, What};
use static_types::Stop;
use std::alloc::{AllocError, Global};

/// What is looked at of the loop whose variable is the innermost name, where its body is checked. A call with so many
/// arguments that a place needs more than 32 bits counts as a want of memory.
pub fn loop_view(
    site: &Site,
    scope: &Scope,
    variable: &Name,
    over_space: bool,
    body: &[Stmt],
) -> Result<LoopView, Stop>
    requires { HoldsDeclared site.now }
    ensures { Tells (λ v. v ≡ loop_view (tree_at site.now) (seen scope.now) variable.now over_space (block_in body.now)) result
        (first_of_only (tree_at site.now) (task_at site.now) (seen scope.now) (only_call (block_in body.now))) }
{
    match only_call(body) {
        Some((task, args)) => view_of_call(site, scope, variable, over_space, task, args),
        None => Ok(LoopView {
            over_space,
            one_call: false,
            args: Sequence::new(site.alloc),
            apart: Sequence::new(site.alloc),
        }),
    }
}

/// The task and the arguments of a statement that is a call.
fn call_in(what: &What) -> Option<(&Name, &[Expr])>
    ensures some { IfSome result (λ c. call_in (form_of what.now) ≡ Some (record { task = c.0.now; args = expressions_in c.1.now })) }
    ensures none { IfNone result (call_in (form_of what.now) ≡ None) }
{
    match what {
        What::Call { task, args } => Some((task, args.as_slice())),
        What::Var { .. }
        | What::If { .. }
        | What::While { .. }
        | What::ForIn { .. }
        | What::ForTo { .. }
        | What::Do { .. }
        | What::Fill { .. }
        | What::Assert { .. }
        | What::Print { .. }
        | What::Assign { .. }
        | What::Return { .. } => None,
    }
}

/// The one call that a body is.
fn only_call(body: &[Stmt]) -> Option<(&Name, &[Expr])>
    ensures some { IfSome result (λ c. only_call (block_in body.now) ≡ Some (record { task = c.0.now; args = expressions_in c.1.now })) }
    ensures none { IfNone result (only_call (block_in body.now) ≡ None) }
{
    match body {
        [statement] => call_in(&statement.what),
        [] => None,
        [_, _, ..] => None,
    }
}

/// A call whose arguments are looked at: the types of its task's parameters, what the task declares to do with them,
/// and the types of the arguments.
#[derive(Clone, Copy)]
struct Looked<'a> {
    alloc: Global,
    scope: &'a Scope,
    variable: &'a Name,
    params: &'a [StaticType],
    rights: &'a [Right],
    types: &'a [StaticType],
}

/// The type at a place, or one that isn't known where there is none.
fn type_at<'a>(types: &'a [StaticType], unknown: &'a StaticType, place: usize) -> &'a StaticType
    requires { unknown.now ≡ Unknown }
    ensures { result.now ≡ type_at types.now place }
{
    match types.get(place) {
        Some(t) => t,
        None => unknown,
    }
}

impl<'a> Looked<'a> {
    fn argument(&self, place: usize, e: &Expr) -> Result<ArgView, AllocError>
        ensures { IfOk result (λ v. v ≡ argument_view self.now.scope.now.names self.now.variable.now self.now.rights.now place
            (type_at self.now.params.now place) (type_at self.now.types.now place) (expression_of e.now)) }
    {
        let unknown = StaticType::Unknown;
        let wanted = type_at(self.params, &unknown, place);
        let t = type_at(self.types, &unknown, place);
        Ok(ArgView {
            kind: kind_of(self.scope, self.variable, wanted, e),
            space: space_of(t),
            uses: uses_of(self.alloc, wanted, t, self.rights, place)?,
        })
    }

    fn arguments(&self, args: &[Expr]) -> Result<Sequence<ArgView>, AllocError>
        ensures { IfOk result (λ views. views ≡ argument_views self.now.scope.now.names self.now.variable.now self.now.params.now
            self.now.rights.now self.now.types.now 0 (expressions_in args.now)) }
    {
        let mut views = Sequence::new(self.alloc);
        for (place, arg) in args.iter().enumerate() {
            views.push(self.argument(place, arg)?)?;
        }
        Ok(views)
    }
}

/// The view of a call whose arguments are looked at.
fn assembled(
    site: &Site,
    looked: &Looked,
    over_space: bool,
    name: &Name,
    args: &[Expr],
) -> Result<LoopView, AllocError>
    requires params { looked.now.params.now ≡ params_of (tree_at site.now) name.now }
    requires rights { looked.now.rights.now ≡ rights_told (tree_at site.now) (task_named (tree_at site.now) name.now) }
    requires types { looked.now.types.now ≡ known_types (tree_at site.now) (seen looked.now.scope.now) (expressions_in args.now) }
    ensures { IfOk result (λ v. v ≡ view_of_call (tree_at site.now) (seen looked.now.scope.now) looked.now.variable.now over_space
        (record { task = name.now; args = expressions_in args.now })) }
{
    let views = looked.arguments(args)?;
    let terms = terms_across(looked.alloc, looked.scope, args)?;
    if u32::try_from(terms.len()).is_err() {
        return Err(AllocError);
    }
    Ok(LoopView {
        over_space,
        one_call: true,
        args: views,
        apart: pairs_apart(looked.alloc, looked.scope.facts(), &terms)?,
    })
}

fn view_of_call(
    site: &Site,
    scope: &Scope,
    variable: &Name,
    over_space: bool,
    name: &Name,
    args: &[Expr],
) -> Result<LoopView, Stop>
    requires { HoldsDeclared site.now }
    ensures { Tells (λ v. v ≡ view_of_call (tree_at site.now) (seen scope.now) variable.now over_space
        (record { task = name.now; args = expressions_in args.now })) result
        (first_of_only (tree_at site.now) (task_at site.now) (seen scope.now) (Some (record { task = name.now; args = expressions_in args.now }))) }
{
    let types = arguments(site, scope, args)?;
    let task = call(site, scope, name, &types)?;
    let params = site.declared.params_of(site.alloc, task, name)?;
    let rights = rights_declared(site.alloc, site.declared, task, &params)?;
    site.declared.has_sound_clauses(name);
    let looked = Looked {
        alloc: site.alloc,
        scope,
        variable,
        params: &params,
        rights: &rights,
        types: &types,
    };
    Ok(assembled(site, &looked, over_space, name, args)?)
}
