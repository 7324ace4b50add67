ghost use Rattle.std.specs.Prelude.{◌<◌};

use constraint_check::{Colour, Facts, Known, Term};
use std::alloc::{AllocError, Global};

const UNKNOWN: Colour = Colour::Unknown;

fn number(i: i64) -> Colour {
    Colour::Constant(i)
}

fn child(partition: u32, colour: Colour) -> Term {
    Term::Child { partition, colour }
}

fn part_of(partition: u32, parent: u32, disjoint: bool) -> Known {
    Known::PartOf {
        partition,
        parent,
        disjoint,
    }
}

fn facts_of(alloc: Global, known: &[Known]) -> Result<Facts, AllocError> {
    let mut facts = Facts::new(alloc)?;
    for fact in known {
        facts.add(*fact)?;
    }
    Ok(facts)
}

#[test]
fn calls_on_children(rt: HostRuntime) -> Result<(), AllocError> {
    let facts = facts_of(rt.alloc(), &[part_of(1, 0, true)])?;
    let first = child(1, number(0));
    // `t(p[0], p[1])`, `t(p[0], p[0])` and, with a variable k, `t(p[0], p[k])`, where t asks for
    // two regions apart.
    for (second, apart) in [
        (child(1, number(1)), true),
        (child(1, number(0)), false),
        (child(1, UNKNOWN), false),
        (child(1, Colour::Loop(3)), false),
    ] {
        let found = [
            facts.disjoint(&first, &second),
            facts.disjoint(&second, &first),
        ];
        assert_eq!(rt; found, [apart; 2], "{second:?}");
    }
    Ok(())
}

// p is a disjoint partition of 0 and told of after its children. Region 2 is some child of p, q an
// aliased partition of 2, 3 some child of q, and 4 lies within 3. Region 5 lies within p[0], 6
// within p[1]. 0 is apart from 1, and 20 was made last.
fn deep(alloc: Global, p: u32, q: u32) -> Result<Facts, AllocError> {
    facts_of(
        alloc,
        &[
            Known::Within(Term::Name(4), Term::Name(3)),
            Known::Within(Term::Name(3), child(q, UNKNOWN)),
            Known::Within(Term::Name(2), child(p, UNKNOWN)),
            Known::Within(Term::Name(5), child(p, number(0))),
            Known::Within(Term::Name(6), child(p, number(1))),
            part_of(q, 2, false),
            Known::Apart(Term::Name(0), Term::Name(1)),
            part_of(p, 0, true),
            Known::Made(20),
        ],
    )
}

// The first of some rows, each two regions, whether the first is within the second and whether
// they are apart, that doesn't follow from the facts.
fn first_wrong(
    facts: Result<Facts, AllocError>,
    rows: &[(Term, Term, bool, bool)],
) -> Result<Option<(Term, Term)>, AllocError> {
    let facts = facts?;
    for (a, b, below, apart) in rows {
        if (facts.subregion(a, b), facts.disjoint(a, b)) != (*below, *apart) {
            return Ok(Some((*a, *b)));
        }
    }
    Ok(None)
}

#[test]
fn derivations_of_several_steps(rt: HostRuntime) -> Result<(), AllocError> {
    let (p, q) = (10, 11);
    let some_p = child(p, UNKNOWN);
    let some_q = child(q, UNKNOWN);
    let rows = [
        (Term::Name(4), Term::Name(0), true, false),
        (Term::Name(0), Term::Name(4), false, false),
        (Term::Name(4), Term::Name(2), true, false),
        (Term::Name(4), some_q, false, false),
        (Term::Name(3), some_q, false, false),
        (Term::Name(2), some_p, false, false),
        (some_q, some_q, false, false),
        (some_q, some_p, false, false),
        (some_q, Term::Name(0), true, false),
        (child(q, number(7)), Term::Name(0), true, false),
        (
            child(q, Colour::Loop(9)),
            child(q, Colour::Loop(9)),
            true,
            false,
        ),
        (Term::Name(4), Term::Name(1), false, true),
        (Term::Name(1), Term::Name(4), false, true),
        (some_q, Term::Name(1), false, true),
        (Term::Name(5), Term::Name(6), false, true),
        (Term::Name(5), child(p, number(1)), false, true),
        (Term::Name(5), Term::Name(2), false, false),
        (child(q, number(0)), child(q, number(1)), false, false),
        (Term::Name(20), Term::Name(19), false, true),
        (Term::Name(20), Term::Name(21), false, false),
        (Term::Name(4), Term::Name(20), false, true),
    ];
    let wrong = first_wrong(deep(rt.alloc(), p, q), &rows)?;
    assert_eq!(rt; wrong, None);
    Ok(())
}

// A fact on a name below some thousands, of each kind in turn.
fn fact(i: u32) -> Known
    requires { i < 4000 }
{
    match i % 5 {
        0 => Known::Made(i),
        1 => Known::Apart(Term::Name(i), child(i, number(7))),
        2 => part_of(i, i + 1, true),
        3 => Known::Within(Term::Name(i), Term::Name(i + 1)),
        _ => part_of(i, i + 1, false),
    }
}

#[test]
fn thousands_of_facts(rt: HostRuntime) -> Result<(), AllocError> {
    let mut facts = Facts::new(rt.alloc())?;
    for i in 0..4000 {
        facts.add(fact(i))?;
    }
    let (first, second) = (child(3997, number(0)), child(3997, number(1)));
    let found = [
        facts.disjoint(&first, &second),
        facts.subregion(&first, &Term::Name(3999)),
    ];
    assert_eq!(rt; found, [true; 2]);
    Ok(())
}

// The order in which the links of a chain are told: rising, falling, or every second one and then
// the rest.
#[derive(Clone, Copy, Debug)]
enum Order {
    Rising,
    Falling,
    Joined,
}

// The link of a chain of a thousand that is told in its turn.
fn link(order: Order, i: u32) -> Known
    requires { i < 1000 }
{
    let name = match order {
        Order::Rising => i,
        Order::Falling => 999 - i,
        Order::Joined => { if i < 500 { 2 * i } else { 2 * i - 999 } }
    };
    Known::Within(Term::Name(name), Term::Name(name + 1))
}

// The facts of a chain of a thousand, told in an order.
fn chain(alloc: Global, order: Order) -> Result<Facts, AllocError> {
    let mut facts = Facts::new(alloc)?;
    for i in 0..1000 {
        facts.add(link(order, i))?;
    }
    Ok(facts)
}

#[test]
fn chains_of_a_thousand(rt: HostRuntime) -> Result<(), AllocError> {
    for order in [Order::Rising, Order::Falling, Order::Joined] {
        let facts = chain(rt.alloc(), order)?;
        let within = [
            facts.subregion(&Term::Name(0), &Term::Name(1000)),
            facts.subregion(&Term::Name(499), &Term::Name(501)),
            facts.subregion(&Term::Name(501), &Term::Name(499)),
        ];
        let apart = facts.disjoint(&Term::Name(0), &Term::Name(1000));
        assert_eq!(rt; (within, apart), ([true, true, false], false), "{order:?}");
    }
    Ok(())
}
