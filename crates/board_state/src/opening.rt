//! States of boards at the start of a job.

ghost use Rattle.std.specs.Prelude.{◌≡◌, [], IfOk, Some, false};
ghost use Rattle.board_state.specs.Kept.{IsLent, is_claimed};
ghost use Rattle.board_terms.specs.States.{begun_with, opened, opened_with, void_state};
ghost use Rattle.dependence_graph.specs.Graphs.{new_graph};
ghost use Rattle.region_tree.specs.Trees.{empty_tree};
ghost use Rattle.std.specs.Prelude.{length};

use crate::state::BoardState;
use board_calls::called_by;
use board_gives::{Waits, frame_of_roots, wait_for_nothing};
use board_terms::{Activity, Ending, Operation};
use dependence_graph::{Graph, How};
use physical_instances::Contents;
use plain_values::Sequence;
use region_forest::Forest;
use region_tree::OpNumber;
use region_walk::WalkFinder;
use std::alloc::{AllocError, Global};
use task_code::{Job, TaskCode};
use task_frames::{first_frame, may_start};

impl BoardState {
    /// The state at the start of a job: main alone, or broken where the job is void.
    pub fn open(alloc: Global, job: &Job) -> Result<BoardState, AllocError>
        ensures { IfOk result (λ b. b ≡ opened job.now) }
    {
        let code = job.code.get();
        match code.tasks.as_slice().get(code.start as usize) {
            Some(task) => open_with(alloc, job, task),
            None => open_void(alloc),
        }
    }
}

/// The state at the start of a job with its first task.
#[tactic(auto, using(crate::proofs::Starts::needs_nothing))]
fn open_with(alloc: Global, job: &Job, task: &TaskCode) -> Result<BoardState, AllocError>
    ensures { IfOk result (λ b. b ≡ opened_with job.now (Some task.now)) }
{
    if !may_start(job, task) {
        return open_void(alloc);
    }
    let tree = Forest::new(alloc)?;
    let mut graph = new_graph(alloc)?;
    wait_for_nothing(&mut graph, &tree, OpNumber(0));
    let main = called_by(alloc, OpNumber(0), first_frame(alloc, job, task)?);
    begun_with(alloc, tree, main, graph)
}

/// The state in which main is broken.
fn open_void(alloc: Global) -> Result<BoardState, AllocError>
    ensures { IfOk result (λ b. b ≡ void_state) }
{
    let tree = Forest::new(alloc)?;
    let mut graph = new_graph(alloc)?;
    graph.end(OpNumber(0), How::Failed);
    let mut main = called_by(
        alloc,
        OpNumber(0),
        frame_of_roots(alloc, Sequence::new(alloc)),
    );
    main.activity = Activity::Closing(Ending::Broken);
    begun_with(alloc, tree, main, graph)
}

fn new_graph(alloc: Global) -> Result<Waits, AllocError>
    ensures { IfOk result (λ g. g ≡ new_graph) }
{
    Graph::new(alloc, WalkFinder::new(alloc)?)
}

/// The state of one operation that needs nothing.
#[tactic(auto, using(crate::proofs::Starts::alone_kept))]
fn begun_with(
    alloc: Global,
    tree: Forest,
    main: Operation,
    graph: Waits,
) -> Result<BoardState, AllocError>
    requires tree { tree ≡ empty_tree }
    requires needs { main.frame.needs.items ≡ [] }
    requires children { main.children ≡ [] }
    requires activity { is_claimed main.activity ≡ false }
    requires lent { IsLent main }
    requires knots { length graph.knots ≡ 1 }
    requires listing { graph.listing ≡ [] }
    ensures { IfOk result (λ b. b ≡ begun_with main graph) }
{
    let contents = Contents::new(alloc)?;
    let mut operations = Vec::new(alloc);
    operations.push(main)?;
    Ok(BoardState {
        tree,
        roots: Vec::new(alloc),
        contents,
        operations,
        graph,
        turns: 0,
    })
}
