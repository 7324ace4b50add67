//! A task instance between two of its segments.

ghost use Rattle.std.specs.Prelude.{◌≡◌, [], IfOk, OnOk};
ghost use Rattle.machine_terms.specs.Orders.{begun, conclude, give_all, make};
ghost use Rattle.machine_terms.specs.declared.order.Contents.{Contents as contents};
ghost use Rattle.machine_terms.specs.declared.order.Ended.TheVariants.{Broke, CameBack};
ghost use Rattle.plain_run.specs.Answers.{LetGo, await_answer, with_numbers, with_results};
ghost use Rattle.plain_run.specs.Nexts.{resumed_as};
ghost use Rattle.plain_store.specs.Loans.{Stands, whole};

use crate::answers::Answers;
use crate::settling::settled;
use machine_terms::{Contents, Ended, Frame, Instance, Made, Yield};
use plain_store::{Holder, give_parts, is_sound, make_partition, make_root, no_contents};
use plain_values::Sequence;
use regent_tree::Fault;
use region_tree::Required;
use std::alloc::{AllocError, Global};
use std::mem;
use task_code::Code;

/// An instance that begins in a frame, and holds no part.
pub fn begun(alloc: Global, frame: Frame, needs: Sequence<Required>, contents: Contents) -> Holder
    ensures { result ≡ record { instance = begun frame needs contents; loans = [] } }
{
    Holder {
        instance: Instance {
            frame,
            parts: Sequence::new(alloc),
            contents,
            results: Sequence::new(alloc),
            needs,
            text: Sequence::new(alloc),
        },
        loans: Sequence::new(alloc),
    }
}

/// The run is over by a fault, or broken, with the text of an instance.
pub fn broke(alloc: Global, fault: Option<Fault>, instance: &mut Instance) -> Ended
    ensures { result ≡ Broke fault instance.old.text }
{
    Ended::Broke {
        fault,
        text: mem::replace(&mut instance.text, Sequence::new(alloc)),
    }
}

/// Puts the values of children that came back last to those that are kept.
pub fn keep_answers(
    alloc: Global,
    instance: &mut Instance,
    answers: &mut Answers,
) -> Result<(), AllocError>
    ensures instance { OnOk result (instance.new ≡ with_results [] instance.old) }
    ensures answers { OnOk result (LetGo (with_numbers instance.old.results answers.old) answers.new
        instance.old.frame) }
{
    let results = mem::replace(&mut instance.results, Sequence::new(alloc));
    answers.take(results.as_slice())?;
    answers.let_go(&instance.frame)
}

/// Gives an instance the value of a child that it waits for.
pub fn await_child(
    alloc: Global,
    child: u64,
    answers: &Answers,
    instance: &mut Instance,
) -> Result<(), AllocError>
    ensures { OnOk result (instance.new ≡ await_answer answers.now.kept child instance.old) }
{
    let number = answers.number(child);
    let slots = mem::replace(&mut instance.frame.slots, Sequence::new(alloc));
    instance.frame.slots = settled(alloc, child, number, slots)?;
    Ok(())
}

/// What follows where a root or a partition is to be made.
pub fn make(
    alloc: Global,
    code: &Code,
    made: Made,
    instance: &mut Instance,
) -> Result<Option<Ended>, AllocError>
    ensures { IfOk result (λ over. resumed_as over instance.new ≡ make code.now made instance.old) }
{
    match made {
        Made::Root { space, fields } => {
            make_root(alloc, code, space, fields, instance)?;
            Ok(None)
        }
        Made::Partition {
            region,
            sets,
            disjoint,
        } => {
            if is_sound(alloc, region.points.get(), sets.as_slice(), disjoint)? {
                make_partition(alloc, region, sets, disjoint, instance)?;
                Ok(None)
            } else {
                Ok(Some(broke(alloc, None, instance)))
            }
        }
    }
}

/// Gives back all parts of an instance.
pub fn give_all(alloc: Global, holder: &mut Holder) -> Result<(), AllocError>
    ensures loans { OnOk result (holder.new.loans ≡ []) }
    ensures instance { OnOk result ((c : contents) → Stands c holder.old
        → holder.new.instance ≡ give_all (whole c holder.old)) }
{
    let parts = mem::replace(&mut holder.instance.parts, Sequence::new(alloc));
    let loans = mem::replace(&mut holder.loans, Sequence::new(alloc));
    give_parts(
        alloc,
        parts,
        loans.as_slice(),
        &mut holder.instance.contents,
    )
}

/// How an instance ends after a segment that left no frame: where it comes back, its parts go back.
pub fn conclude(alloc: Global, ends: Yield, holder: &mut Holder) -> Result<Ended, AllocError>
    ensures { IfOk result (λ e. (c : contents) → Stands c holder.old
        → e ≡ conclude ends (whole c holder.old)) }
{
    match ends {
        Yield::End(value) => {
            give_all(alloc, holder)?;
            Ok(come_back(alloc, value, &mut holder.instance))
        }
        Yield::Fault(fault) => Ok(broke(alloc, Some(fault), &mut holder.instance)),
        _ => Ok(broke(alloc, None, &mut holder.instance)),
    }
}

/// An instance that holds no part comes back with a value or none.
fn come_back(alloc: Global, value: Option<i64>, instance: &mut Instance) -> Ended
    ensures { result ≡ CameBack value instance.old.frame.own instance.old.contents instance.old.text }
{
    Ended::CameBack {
        value,
        own: mem::replace(&mut instance.frame.own, Sequence::new(alloc)),
        contents: mem::replace(&mut instance.contents, no_contents(alloc)),
        text: mem::replace(&mut instance.text, Sequence::new(alloc)),
    }
}
