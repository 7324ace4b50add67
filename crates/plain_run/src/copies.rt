//! Copies of outcomes.

ghost use Rattle.std.specs.Prelude.{◌≡◌, IfOk};

use plain_values::Sequence;
use regent_tree::{Ending, Outcome, RootImage};
use std::alloc::{AllocError, Global};

/// An outcome that is the same.
pub fn copy_outcome(alloc: Global, outcome: &Outcome) -> Result<Outcome, AllocError>
    ensures { IfOk result (λ copy. copy ≡ outcome.now) }
{
    let ending = match &outcome.ending {
        Ending::Finished(images) => Ending::Finished(copy_images(alloc, images.as_slice())?),
        Ending::Faulted(fault) => Ending::Faulted(*fault),
        Ending::Broken => Ending::Broken,
    };
    Ok(Outcome {
        text: outcome.text.copy()?,
        ending,
    })
}

fn copy_images(alloc: Global, images: &[RootImage]) -> Result<Sequence<RootImage>, AllocError>
    ensures { IfOk result (λ copy. copy ≡ images.now) }
{
    let mut copy = Sequence::new(alloc);
    for image in images {
        copy.push(copy_image(alloc, image)?)?;
    }
    Ok(copy)
}

/// An image that is the same.
pub fn copy_image(alloc: Global, image: &RootImage) -> Result<RootImage, AllocError>
    ensures { IfOk result (λ copy. copy ≡ image.now) }
{
    Ok(RootImage {
        space: image.space,
        count: image.count,
        fields: copy_columns(alloc, image.fields.as_slice())?,
    })
}

fn copy_columns(
    alloc: Global,
    columns: &[Sequence<i64>],
) -> Result<Sequence<Sequence<i64>>, AllocError>
    ensures { IfOk result (λ copy. copy ≡ columns.now) }
{
    let mut copy = Sequence::new(alloc);
    for column in columns {
        copy.push(column.copy()?)?;
    }
    Ok(copy)
}
