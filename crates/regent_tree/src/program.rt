//! Programs: their field spaces, tasks and other items.

use crate::statement::Stmt;
use crate::types::{Name, Param, TypeTerm};
use lane_kernels::Op;
use plain_values::Sequence;

/// A field space.
#[derive(Debug, PartialEq, Eq, Drop)]
pub struct FieldSpace {
    pub name: Name,
    pub params: Sequence<Param>,
    pub fields: Sequence<Param>,
}

/// A privilege that a task declares (Regent, SC 2015).
#[derive(Clone, Copy, Debug, PartialEq, Eq)]
pub enum Grant {
    Reads,
    Writes,
    Reduces(Op),
}

/// A region with some of its fields; no list of fields means all.
#[derive(Debug, PartialEq, Eq, Drop)]
pub struct Place {
    pub region: Name,
    pub fields: Option<Sequence<Name>>,
}

/// A clause behind `where`: privileges, or a constraint between two regions.
#[derive(Debug, PartialEq, Eq, Drop)]
pub enum Clause {
    Grants {
        grants: Sequence<Grant>,
        places: Sequence<Place>,
    },
    Within {
        a: Name,
        b: Name,
    },
    Apart {
        a: Name,
        b: Name,
    },
}

/// A task.
#[derive(Drop)]
pub struct Task {
    pub name: Name,
    pub params: Sequence<Param>,
    pub result: Option<TypeTerm>,
    pub clauses: Sequence<Clause>,
    pub body: Vec<Stmt>,
}

/// What an item is. `Import` is `import "regent"`, and `Alias` a `local` name for `regentlib.c`.
#[derive(Drop)]
pub enum ItemKind {
    Import,
    Alias { name: Name },
    Space(FieldSpace),
    Task(Task),
    Start { name: Name },
}

/// An item, and the line on which it begins.
#[derive(Drop)]
pub struct Item {
    pub line: u32,
    pub what: ItemKind,
}

/// A program.
#[derive(Drop)]
pub struct Program {
    pub items: Vec<Item>,
}
