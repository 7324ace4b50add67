//! Loops: whether they are index launches (Regent, SC 2015), and the demands on them.

ghost use Rattle.std.specs.Prelude.{◌≡◌};
ghost use Rattle.regent_tree.specs.PlainProgram.{block_in};
ghost use Rattle.check_expressions.specs.Seen.{seen};
ghost use Rattle.check_expressions.specs.Sites.{HoldsDeclared, task_at, tree_at};
ghost use Rattle.check_rules.specs.launches.Views.{only_call};
ghost use Rattle.launch_views.specs.Firsts.{first_of_only};
ghost use Rattle.static_types.specs.Telling.{Anything, Tells};
ghost use Rattle.type_check.specs.Loops.{first_of_shape, shape_in};

use check_expressions::{Scope, Site};
use check_rules::Rule;
use index_launch::{LaunchShape, Reason, launch_shape};
use launch_views::loop_view;
use regent_tree::{Name, Stmt};
use static_types::Stop;
use std::alloc::AllocError;

/// The shape of a loop, in its own scope. A call with so many arguments that a place needs more than 32 bits counts as
/// a want of memory.
pub fn shape_of(
    site: &Site,
    scope: &Scope,
    variable: &Name,
    over_space: bool,
    body: &[Stmt],
) -> Result<LaunchShape, Stop>
    requires { HoldsDeclared site.now }
    ensures { Tells (λ s. s ≡ shape_in (tree_at site.now) (seen scope.now) variable.now over_space (block_in body.now)) result
        (first_of_only (tree_at site.now) (task_at site.now) (seen scope.now) (only_call (block_in body.now))) }
{
    let view = loop_view(site, scope, variable, over_space, body)?;
    if u32::try_from(view.args.len()).is_err() {
        return Err(Stop::Memory(AllocError));
    }
    Ok(launch_shape(&view))
}

/// What is told of a loop of a shape that is demanded to be a launch, or isn't.
pub fn demand(demanded: bool, shape: LaunchShape) -> Result<(), Stop>
    ensures { Tells Anything result (first_of_shape demanded shape) }
{
    if !demanded {
        return Ok(());
    }
    match shape {
        LaunchShape::Launch => Ok(()),
        LaunchShape::Plain(Reason::Interferes(..)) => Err(Stop::Breach(Rule::Interferes)),
        LaunchShape::Plain(Reason::NotOverSpace | Reason::NotOneCall | Reason::Argument(_)) => Err(
            Stop::Breach(Rule::NotLaunch),
        ),
    }
}
