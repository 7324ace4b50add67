//! What stands at a node of a tree.

ghost use Rattle.std.specs.Prelude.{◌≡◌, ◌<◌, ◌^◌, [], IfOk, length};
ghost use Rattle.region_tree.specs.Trees.{partition_nodes};

use crate::path::Step;
use crate::tree::RootId;
use point_sets::PointSet;
use smallvec::SmallVec;
use std::alloc::{AllocError, Global};
use std::marker::Model;

/// A node of a region tree: a region or a partition.
#[derive(Clone, Copy, Debug, Default, PartialEq, Eq)]
pub struct Node(pub u64);

/// What a node is.
#[derive(Debug, Drop)]
pub enum Content {
    /// A region, with its points.
    Region(PointSet),
    /// A partition of a region into so many colours.
    Partition {
        region: Node,
        disjoint: bool,
        colours: u32,
    },
}

impl Content {
    ghost use Rattle.region_tree.specs.Trees.{disjoint_in};

    /// Whether this is a disjoint partition.
    pub fn is_disjoint(&self) -> bool
        ensures { result ≡ disjoint_in self.now }
    {
        match self {
            Content::Region(_) => false,
            Content::Partition { disjoint, .. } => *disjoint,
        }
    }
}

/// A node with the way to it. Most paths are short, and stay inline.
#[derive(Drop)]
pub struct Entry {
    root: RootId,
    path: SmallVec<Step, 4>,
    content: Content,
}

impl Model for Entry {
    ghost use Rattle.region_tree.specs.Entries.{TreeNode};

    ghost Value = { TreeNode };

    ghost view = { λ e. record { root = e.root.0; path = e.path.items; content = e.content } };
}

impl Entry {
    ghost use Rattle.region_tree.specs.Trees.{child_of, partition_of};

    /// The node of a root.
    pub fn root_region(alloc: Global, root: RootId, points: PointSet) -> Entry
        ensures { result ≡ record { root = root.0; path = []; content = Content.Region points } }
    {
        Entry {
            root,
            path: SmallVec::new(alloc),
            content: Content::Region(points),
        }
    }

    /// A partition of a region, which is the one of an entry.
    pub fn partition(
        alloc: Global,
        divided: &Entry,
        region: Node,
        disjoint: bool,
        colours: u32,
    ) -> Result<Entry, AllocError>
        ensures { IfOk result (λ e. e ≡ partition_of divided.now region.0 disjoint colours) }
    {
        let path = SmallVec::from_slice(alloc, divided.path())?;
        Ok(Entry {
            root: divided.root(),
            path,
            content: Content::Partition {
                region,
                disjoint,
                colours,
            },
        })
    }

    /// The child of a partition by a colour, where the partition divides the region of an entry.
    pub fn child(
        alloc: Global,
        divided: &Entry,
        partition: Node,
        colour: u32,
        points: PointSet,
    ) -> Result<Entry, AllocError>
        ensures { IfOk result (λ e. e ≡ child_of divided.now partition.0 colour points) }
    {
        let mut path = SmallVec::from_slice(alloc, divided.path())?;
        path.push(Step { partition, colour })?;
        Ok(Entry {
            root: divided.root(),
            path,
            content: Content::Region(points),
        })
    }

    pub fn root(&self) -> RootId
        ensures { result.0 ≡ self.now.root }
    {
        self.root
    }

    pub fn path(&self) -> &[Step]
        ensures { result.now ≡ self.now.path }
    {
        self.path.as_slice()
    }

    pub fn content(&self) -> &Content
        ensures { result.now ≡ self.now.content }
    {
        &self.content
    }
}

/// The nodes that a partition brings: its own, and then its children by colour.
pub fn partition_entries(
    alloc: Global,
    divided: &Entry,
    region: Node,
    partition: Node,
    sets: Vec<PointSet>,
    disjoint: bool,
) -> Result<Vec<Entry>, AllocError>
    requires { length sets.items < 2 ^ 32 }
    ensures { IfOk result (λ v. v.items
        ≡ partition_nodes divided.now region.0 partition.0 sets.items disjoint) }
{
    let mut entries = Vec::new(alloc);
    let colours = sets.len() as u32;
    entries.push(Entry::partition(alloc, divided, region, disjoint, colours)?)?;
    let mut colour = 0;
    for set in sets {
        entries.push(Entry::child(alloc, divided, partition, colour, set)?)?;
        colour += 1;
    }
    Ok(entries)
}
