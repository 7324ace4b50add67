use super::{Access, Breach, Colour, Facts, Held, Known, Op, Term, Wanted};
use std::alloc::{AllocError, Global};
use std::test::Fail;

const SUM: Access = Access::Reduce(Op::Sum);

const PRODUCT: Access = Access::Reduce(Op::Product);

fn child(colour: Colour) -> Term {
    Term::Child {
        partition: 1,
        colour,
    }
}

// Binding 1 is a disjoint partition of region 0, which lies within region 2.
fn two_regions(alloc: Global) -> Result<Facts, AllocError> {
    let mut facts = Facts::new(alloc)?;
    facts.add(Known::PartOf {
        partition: 1,
        parent: 0,
        disjoint: true,
    })?;
    facts.add(Known::Within(Term::Name(0), Term::Name(2)))?;
    Ok(facts)
}

// Field 0 is read on region 0 and written on region 2, and field 1 reduced on region 2.
fn rights(alloc: Global) -> Result<Held, AllocError> {
    let mut held = Held::new(alloc)?;
    held.add(0, 0, Access::Read)?;
    held.add(2, 0, Access::Write)?;
    held.add(2, 1, SUM)?;
    Ok(held)
}

#[test]
fn a_child_is_read_where_its_parent_is(rt: HostRuntime) -> Result<(), Fail> {
    let facts = two_regions(rt.alloc())?;
    let mut held = Held::new(rt.alloc())?;
    held.add(0, 0, Access::Read)?;
    let first = child(Colour::Constant(0));
    assert!(rt; held.allows(&facts, &first, 0, Access::Read));
    assert!(rt; !held.allows(&facts, &first, 0, Access::Write));
    Ok(())
}

#[test]
fn accesses_are_allowed_where_they_are_held(rt: HostRuntime) -> Result<(), Fail> {
    let facts = two_regions(rt.alloc())?;
    let held = rights(rt.alloc())?;
    let some = child(Colour::Unknown);
    for (term, field, access, allowed) in [
        (some, 0, Access::Read, true),
        (some, 0, Access::Write, true),
        (some, 0, SUM, true),
        (some, 0, PRODUCT, true),
        (Term::Name(0), 0, SUM, true),
        (Term::Name(2), 0, SUM, false),
        (Term::Name(2), 0, Access::Read, false),
        (Term::Name(2), 0, Access::Write, true),
        (some, 1, SUM, true),
        (some, 1, PRODUCT, false),
        (some, 1, Access::Read, false),
        (some, 2, Access::Read, false),
        (Term::Name(3), 0, Access::Read, false),
    ] {
        assert_eq!(rt;
            held.allows(&facts, &term, field, access),
            allowed,
            "{term:?} {access:?}"
        );
    }
    Ok(())
}

#[test]
fn the_first_breach_is_named(rt: HostRuntime) -> Result<(), Fail> {
    let facts = two_regions(rt.alloc())?;
    let held = rights(rt.alloc())?;
    let wants = |field, access| Wanted {
        term: Term::Name(0),
        field,
        access,
    };
    let granted = [wants(0, Access::Read), wants(1, SUM), wants(0, PRODUCT)];
    assert_eq!(rt; held.implies_call(&facts, &granted), Ok(()));
    let refused = [
        wants(0, SUM),
        wants(1, Access::Write),
        wants(0, SUM),
        wants(1, PRODUCT),
    ];
    assert_eq!(rt; held.implies_call(&facts, &refused), Err(Breach { at: 1 }));
    assert_eq!(rt; held.implies_call(&facts, &[]), Ok(()));
    Ok(())
}

#[test]
fn many_privileges(rt: HostRuntime) -> Result<(), Fail> {
    let facts = Facts::new(rt.alloc())?;
    let mut held = Held::new(rt.alloc())?;
    for region in 0..100_000 {
        let access = match region % 3 {
            0 => Access::Read,
            1 => Access::Write,
            _ => SUM,
        };
        held.add(region, 0, access)?;
    }
    let last = Term::Name(99_999);
    assert!(rt; held.allows(&facts, &last, 0, Access::Read));
    assert!(rt; !held.allows(&facts, &last, 0, Access::Write));
    Ok(())
}
