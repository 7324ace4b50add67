use program_tables::{Names, Tables, copy_name, place_in, place_or_len};
use regent_tree::{
    FieldSpace, Item, ItemKind, Name, Param, Program, Sequence, StaticType, Task, TypeTerm,
};
use std::alloc::{AllocError, Global};

fn name(alloc: Global, byte: u8) -> Result<Name, AllocError> {
    Sequence::from_slice(alloc, &[byte])
}

// The name of a number.
fn numbered(alloc: Global, number: u32) -> Result<Name, AllocError> {
    Sequence::from_slice(alloc, &number.to_le_bytes())
}

fn space(alloc: Global, name: Name) -> ItemKind {
    ItemKind::Space(FieldSpace {
        name,
        params: Sequence::new(alloc),
        fields: Sequence::new(alloc),
    })
}

fn task(alloc: Global, name: Name) -> ItemKind {
    ItemKind::Task(Task {
        name,
        params: Sequence::new(alloc),
        result: None,
        clauses: Sequence::new(alloc),
        body: Vec::new(alloc),
    })
}

fn add(items: &mut Vec<Item>, what: ItemKind) -> Result<(), AllocError> {
    items.push(Item { line: 1, what })?;
    Ok(())
}

// Adds the field space p, the task m and the alias c.
fn add_three(alloc: Global, items: &mut Vec<Item>) -> Result<(), AllocError> {
    add(items, space(alloc, name(alloc, b'p')?))?;
    add(items, task(alloc, name(alloc, b'm')?))?;
    let c = name(alloc, b'c')?;
    add(items, ItemKind::Alias { name: c })
}

fn program(alloc: Global) -> Result<Program, AllocError> {
    let mut items = Vec::new(alloc);
    add_three(alloc, &mut items)?;
    Ok(Program { items })
}

// Whether a name is that of the first field space.
fn is_space(tables: &Tables<'_>, name: Result<Name, AllocError>) -> Result<bool, AllocError> {
    let name = name?;
    Ok(tables.space(&name) == Some(0) && tables.space_at(0).is_some())
}

// Whether a name is a task's, and that of no field space.
fn is_task(tables: &Tables<'_>, name: Result<Name, AllocError>) -> Result<bool, AllocError> {
    let name = name?;
    Ok(tables.task(&name).is_some() && tables.place_of_space(&name) == 1)
}

// Whether a name is an alias.
fn is_alias(tables: &Tables<'_>, name: Result<Name, AllocError>) -> Result<bool, AllocError> {
    let name = name?;
    Ok(tables.has_alias(&name))
}

// Whether a program's names are found, each as what it is.
fn are_found(alloc: Global, program: Result<Program, AllocError>) -> Result<bool, AllocError> {
    let program = program?;
    let tables = Tables::new(alloc, &program)?;
    Ok(
        is_space(&tables, name(alloc, b'p'))?
            && is_task(&tables, name(alloc, b'm'))?
            && is_alias(&tables, name(alloc, b'c'))?,
    )
}

#[test]
fn items_are_found_by_name(rt: HostRuntime) -> Result<(), AllocError> {
    let found = are_found(rt.alloc(), program(rt.alloc()))?;
    assert!(rt; found);
    Ok(())
}

// Binds the name a to a number.
fn bind_a(alloc: Global, names: &mut Names, number: u32) -> Result<(), AllocError> {
    let a = name(alloc, b'a')?;
    names.bind(a, number, StaticType::Truth, false)?;
    Ok(())
}

// The number that a name stands for, and whether a loop gives it.
fn bound(names: &Names, name: &Name) -> Option<(u32, bool)> {
    match names.bound_to(name) {
        Some(bound) => Some((bound.number, bound.by_loop)),
        None => None,
    }
}

// Whether a name stands for what it was bound to last, first with two bindings and then with one.
fn numbers(alloc: Global, name: Result<Name, AllocError>) -> Result<(bool, bool), AllocError> {
    let name = name?;
    let mut names = Names::new(alloc);
    bind_a(alloc, &mut names, 5)?;
    bind_a(alloc, &mut names, 6)?;
    let hiding = bound(&names, &name) == Some((6, false));
    let both = names.len() == 2 && names.bound_as(5).is_some();
    names.forget_to(1);
    let hidden = bound(&names, &name) == Some((5, false));
    Ok((hiding && both, hidden))
}

// So many items, each kind in turn, of which two have each name.
fn many_items(alloc: Global, count: u32) -> Result<Program, AllocError> {
    let mut items = Vec::new(alloc);
    for number in 0..count {
        let name = numbered(alloc, number / 10)?;
        let what = match number % 5 {
            0 => task(alloc, name),
            1 => space(alloc, name),
            2 => ItemKind::Alias { name },
            3 => ItemKind::Start { name },
            _ => ItemKind::Import,
        };
        add(&mut items, what)?;
    }
    Ok(Program { items })
}

// The place of the field space that has a name, and whether a task and an alias have it.
fn found(
    alloc: Global,
    program: Result<Program, AllocError>,
    name: Result<Name, AllocError>,
) -> Result<(Option<u32>, bool, bool), AllocError> {
    let name = name?;
    let program = program?;
    let tables = Tables::new(alloc, &program)?;
    let is_task = tables.task(&name).is_some();
    Ok((tables.space(&name), is_task, tables.has_alias(&name)))
}

#[test]
fn items_of_each_kind_are_held(rt: HostRuntime) -> Result<(), AllocError> {
    let alloc = rt.alloc();
    for (count, last) in [(0, 0), (10, 0), (20_000, 1_999)] {
        let found = found(alloc, many_items(alloc, count), numbered(alloc, last))?;
        let place = if count == 0 { None } else { Some(2 * last) };
        assert_eq!(rt; found, (place, count > 0, count > 0));
    }
    Ok(())
}

// Names one by one, of which every second hides the one before it.
fn many_names(alloc: Global, count: u32) -> Result<Names, AllocError> {
    let mut names = Names::new(alloc);
    for number in 0..count {
        let by_loop = number % 2 == 1;
        names.bind(
            numbered(alloc, number / 2)?,
            number,
            StaticType::Truth,
            by_loop,
        )?;
    }
    Ok(names)
}

// How many names there are, and what a name stands for.
fn looked_up(
    names: Result<Names, AllocError>,
    name: Result<Name, AllocError>,
) -> Result<(usize, Option<(u32, bool)>), AllocError> {
    let names = names?;
    let name = name?;
    Ok((names.len(), bound(&names, &name)))
}

#[test]
fn a_hundred_thousand_names(rt: HostRuntime) -> Result<(), AllocError> {
    let alloc = rt.alloc();
    let found = looked_up(many_names(alloc, 100_000), numbered(alloc, 49_999))?;
    assert_eq!(rt; found, (100_000, Some((99_999, true))));
    Ok(())
}

#[test]
fn a_hidden_name_comes_back(rt: HostRuntime) -> Result<(), AllocError> {
    let alloc = rt.alloc();
    assert_eq!(rt; numbers(alloc, name(alloc, b'a'))?, (true, true));
    Ok(())
}

// The parameter y.
fn param_y(alloc: Global) -> Result<Sequence<Param>, AllocError> {
    let mut params = Sequence::new(alloc);
    params.push(Param {
        line: 1,
        name: name(alloc, b'y')?,
        term: TypeTerm::Truth,
    })?;
    Ok(params)
}

// The place of a name among parameters, or none, and that or their number.
fn places(
    params: Result<Sequence<Param>, AllocError>,
    name: Result<Name, AllocError>,
) -> Result<(Option<usize>, u32), AllocError> {
    let params = params?;
    let name = name?;
    let params = params.as_slice();
    Ok((place_in(params, &name), place_or_len(params, &name)?))
}

#[test]
fn a_parameter_is_found_by_name(rt: HostRuntime) -> Result<(), AllocError> {
    let alloc = rt.alloc();
    for (byte, place, or_len) in [(b'y', Some(0), 0), (b'z', None, 1)] {
        let found = places(param_y(alloc), name(alloc, byte))?;
        assert_eq!(rt; found, (place, or_len));
    }
    Ok(())
}

// Whether a name of these bytes is copied.
fn is_copied(alloc: Global, bytes: Result<Vec<u8>, AllocError>) -> Result<bool, AllocError> {
    let name = Sequence::from_vec(bytes?);
    let copy = copy_name(alloc, &name)?;
    Ok(copy == name)
}

#[test]
fn names_of_each_length_are_copied(rt: HostRuntime) -> Result<(), AllocError> {
    let alloc = rt.alloc();
    for times in [0, 1, 70_000] {
        assert!(rt; is_copied(alloc, vec![in alloc; b'x'; times])?, "{times}");
    }
    Ok(())
}
