//! What a mode needs of a job besides its sequences.
ghost use Rattle.std.specs.Prelude.{◌≡◌, Some, Ok, Err, IfOk, IfErr};
ghost use Rattle.hex_image.specs.Image.{image};
ghost use Rattle.job_check.specs.Answers.{OnRefusal};
ghost use Rattle.job_check.specs.Own.{image_of, of_text, own_of};

use crate::answer::{CheckRefusal, Refusal};
use device_tree::JobFault;
use hex_image::{Image, ImageFault};
use job_text::ImageJob;
use json_form::missing_fault;
use std::alloc::Global;

/// What a mode needs of a job besides its sequences.
#[derive(Clone, Copy, Debug, PartialEq, Eq)]
pub enum Own {
    /// Nothing. The text of an image is not read.
    Nothing,
    /// The image of the job.
    Image,
}

/// The image of a job.
#[derive(Debug, Drop)]
pub struct JobImage {
    /// The number of the access port through which it is loaded.
    pub ap: u8,
    /// Its bytes, at most 262,144.
    pub image: Image,
}

// The refusal of a job without an image.
fn refuse_missing(alloc: Global) -> CheckRefusal
    ensures { OnRefusal (λ r. image_of None ≡ Err r) result }
{
    match missing_fault(alloc, "image") {
        JobFault::OutOfMemory => CheckRefusal::OutOfMemory,
        fault => CheckRefusal::Refused(Refusal::Job(fault)),
    }
}

// The image of a text, with its access port.
fn read_text(alloc: Global, given: &ImageJob) -> Result<JobImage, CheckRefusal>
    ensures found { IfOk result (λ found. of_text given.now.ap (image given.now.hex) ≡ Ok (Some found)) }
    ensures refused { IfErr result (OnRefusal (λ r. of_text given.now.ap (image given.now.hex) ≡ Err r)) }
{
    match hex_image::image_of(alloc, given.hex.as_str()) {
        Ok(image) => Ok(JobImage {
            ap: given.ap,
            image,
        }),
        Err(ImageFault::Fault(kind, line)) => {
            Err(CheckRefusal::Refused(Refusal::Image(kind, line)))
        }
        Err(ImageFault::OutOfMemory) => Err(CheckRefusal::OutOfMemory),
    }
}

// The image of a job, which has to have one.
fn read_image(alloc: Global, given: &Option<ImageJob>) -> Result<JobImage, CheckRefusal>
    ensures found { IfOk result (λ found. image_of given.now ≡ Ok (Some found)) }
    ensures refused { IfErr result (OnRefusal (λ r. image_of given.now ≡ Err r)) }
{
    match given {
        Some(given) => read_text(alloc, given),
        None => Err(refuse_missing(alloc)),
    }
}

// What a mode finds of what it needs.
pub(crate) fn read_own(
    alloc: Global,
    own: Own,
    given: &Option<ImageJob>,
) -> Result<Option<JobImage>, CheckRefusal>
    ensures found { IfOk result (λ found. own_of own given.now ≡ Ok found) }
    ensures refused { IfErr result (OnRefusal (λ r. own_of own given.now ≡ Err r)) }
{
    match own {
        Own::Nothing => Ok(None),
        Own::Image => Ok(Some(read_image(alloc, given)?)),
    }
}
