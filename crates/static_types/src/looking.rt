//! What a region's name in a type term stands for.

ghost use Rattle.std.specs.Prelude.{◌≡◌, IfOk, map};
ghost use Rattle.regent_tree.specs.Lookup.{has_param};
ghost use Rattle.regent_tree.specs.Scopes.{bound_to};
ghost use Rattle.regent_tree.specs.StaticTypes.{looked_up, binding_of, place_in};

use plain_values::Sequence;
use program_tables::Names;
use regent_tree::{Name, Param, Reach, Ref, Term};
use std::alloc::{AllocError, Global};

/// What a region's name stands for.
pub trait Looking {
    ghost use Rattle.std.specs.Prelude.{◌≡◌, IfOk};
    ghost use Rattle.regent_tree.specs.StaticTypes.{Looking};

    ghost looks: { Self → Looking };

    /// So many parameters that a place needs more than 32 bits count as a want of memory.
    fn look(&self, name: &Name) -> Result<Reach, AllocError>
        ensures { IfOk result (λ r. r ≡ looks self.now name.now) };
}

/// Names in a body stand for what they are bound to.
impl Looking for Names {
    ghost use Rattle.static_types.specs.Scopes.{in_names};

    ghost looks = { in_names };

    fn look(&self, name: &Name) -> Result<Reach, AllocError> {
        Ok(Some(Term::Name(number_bound(self, name))))
    }
}

/// Names in the type of a parameter are parameters of its list, which are bound by their places.
#[derive(Clone, Copy)]
pub struct Among<'a> {
    pub params: &'a [Param],
}

impl<'a> Looking for Among<'a> {
    ghost use Rattle.regent_tree.specs.StaticTypes.{among_params};

    ghost looks = { λ a. among_params a.params.now };

    fn look(&self, name: &Name) -> Result<Reach, AllocError> {
        let place = number_at(place_in(self.params, name))?;
        Ok(Some(Term::Name(place)))
    }
}

/// Names in a field's type are parameters of its field space, which stand for its arguments.
#[derive(Clone, Copy)]
pub struct Arguments<'a> {
    pub params: &'a [Param],
    pub args: &'a [Reach],
}

impl<'a> Looking for Arguments<'a> {
    ghost use Rattle.regent_tree.specs.StaticTypes.{among_args};

    ghost looks = { λ a. among_args a.params.now a.args.now };

    fn look(&self, name: &Name) -> Result<Reach, AllocError> {
        match self.args.get(place_in(self.params, name)) {
            Some(reach) => Ok(*reach),
            None => Ok(None),
        }
    }
}

#[tactic(auto, using(crate::proofs::Scopes::bound_to_none))]
/// The number of the binding that a name has; 0 where it has none.
pub fn number_bound(names: &Names, name: &Name) -> u32
    ensures { result ≡ (bound_to names.now name.now).number }
{
    match names.bound_to(name) {
        Some(bound) => bound.number,
        None => 0,
    }
}

/// A place as a number.
pub fn number_at(place: usize) -> Result<u32, AllocError>
    ensures { IfOk result (λ n. n ≡ place) }
{
    match u32::try_from(place) {
        Ok(number) => Ok(number),
        Err(_) => Err(AllocError),
    }
}

/// The place of a name among parameters or fields, or their number where it isn't among them.
pub fn place_in(params: &[Param], name: &Name) -> usize
    ensures { result ≡ place_in params.now name.now }
{
    for (place, param) in params.iter().enumerate() {
        if param.name == *name {
            return place;
        }
    }
    params.len()
}

/// Whether a name is among parameters or fields.
pub fn has_param(params: &[Param], name: &Name) -> bool
    ensures { result ≡ has_param params.now name.now }
{
    for param in params {
        if param.name == *name {
            return true;
        }
    }
    false
}

fn looked_up<L: Looking>(look: &L, region: &Ref) -> Result<Reach, AllocError>
    ensures { IfOk result (λ r. r ≡ looked_up (L.looks look.now) region.now) }
{
    match region {
        Ref::Named(name) => look.look(name),
        Ref::Wild => Ok(None),
    }
}

/// The regions that a list of names stands for.
pub fn all_looked_up<L: Looking>(
    alloc: Global,
    look: &L,
    regions: &[Ref],
) -> Result<Sequence<Reach>, AllocError>
    ensures { IfOk result (λ r. r ≡ map (looked_up (L.looks look.now)) regions.now) }
{
    let mut reaches = Sequence::new(alloc);
    for region in regions {
        let reach = looked_up(look, region)?;
        reaches.push(reach)?;
    }
    Ok(reaches)
}

/// The binding that a reach names.
pub fn binding_of(reach: &Reach) -> u32
    ensures { result ≡ binding_of reach.now }
{
    match reach {
        Some(Term::Name(number)) => *number,
        _ => 0,
    }
}
