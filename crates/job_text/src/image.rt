//! An image of memory: the member `image`.
ghost use Rattle.serde_json.specs.View.{view};
ghost use Rattle.json_form.specs.Faults.{Gives};
ghost use Rattle.job_text.specs.JobReading.{image_in, image_job_in};

use crate::job::ImageJob;
use crate::target::ANY_BYTE;
use device_tree::JobFault;
use json_form::{Reader, Text, member_or, only_keys_of, optional_of, required_of};
use serde_json::Value;
use std::alloc::Global;

const IMAGE_KEYS: [&str; 2] = ["ap", "hex"];

// Reads an image. What its text says is not read.
#[derive(Clone, Copy)]
struct ImageReader;

impl Reader for ImageReader {
    type Item = ImageJob;

    ghost reads = { λ _. image_job_in };

    #[tactic(auto, unfolding(crate::specs::JobReading::image_job_in))]
    fn read(&self, alloc: Global, value: &Value) -> Result<ImageJob, JobFault> {
        only_keys_of(alloc, value, &IMAGE_KEYS)?;
        let ap = member_or(alloc, value, "ap", &ANY_BYTE, 0)?;
        let hex = required_of(alloc, value, "hex", &Text)?;
        Ok(ImageJob { ap, hex })
    }
}

/// The member `image` of a job, where it has one.
#[tactic(auto, unfolding(crate::specs::JobReading::image_in))]
pub fn image_of(alloc: Global, job: &Value) -> Result<Option<ImageJob>, JobFault>
    ensures { Gives result (image_in (view job.now)) }
{
    optional_of(alloc, job, "image", &ImageReader)
}
