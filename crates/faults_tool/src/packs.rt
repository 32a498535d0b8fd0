//! From the bytes of a job to its pack.
ghost use Rattle.std.specs.Prelude.{IfOk, IfErr};
ghost use Rattle.serde_json.specs.View.{view};
ghost use Rattle.json_form.specs.Faults.{Gives};
ghost use Rattle.json_form.specs.Reading.{only_keys};
ghost use Rattle.device_tree.specs.declared.pack.Pack.{Pack};
ghost use Rattle.job_text.specs.Keys.{job_keys};
ghost use Rattle.faults_tool.specs.Packs.{AnswersPack, DescribesPack, IsPackAnswer, NoPack, pack_in_job};
ghost use Rattle.job_check.specs.Answers.{OnRefusal};

use device_tree::{JobFault, Pack, PackReader};
use job_check::{CheckRefusal, Refusal};
use json_form::{only_keys_of, required_of};
use serde_json::Value;
use std::alloc::Global;

const JOB_KEYS: [&str; 7] = ["pack", "run", "bench", "watch", "image", "dbgconf", "trace"];

// That the value has no other keys than a job may have.
fn only_job_keys(alloc: Global, job: &Value) -> Result<(), JobFault>
    ensures { Gives result (only_keys job_keys (view job.now)) }
{
    only_keys_of(alloc, job, &JOB_KEYS)
}

#[tactic(auto, unfolding(crate::specs::Packs::pack_in_job))]
fn pack_in_value(alloc: Global, value: &Value) -> Result<Pack, JobFault>
    ensures { Gives result (pack_in_job (view value.now)) }
{
    only_job_keys(alloc, value)?;
    required_of(alloc, value, "pack", &PackReader)
}

fn answer_of(alloc: Global, bytes: &[u8]) -> Result<Pack, CheckRefusal>
    ensures { AnswersPack bytes.now result }
{
    let value = match Value::from_slice(alloc, bytes) {
        Ok(value) => value,
        Err(error) => {
            if error.is_memory() {
                return Err(CheckRefusal::OutOfMemory);
            }
            return Err(CheckRefusal::Refused(Refusal::BadJson));
        }
    };
    match pack_in_value(alloc, &value) {
        Ok(pack) => Ok(pack),
        Err(JobFault::OutOfMemory) => Err(CheckRefusal::OutOfMemory),
        Err(fault) => Err(CheckRefusal::Refused(Refusal::Job(fault))),
    }
}

/// The pack of a job. Of its other keys only that a job may have them is checked, and a job without `bench` is taken.
/// Else `BadJson` exactly where the bytes are no JSON text; `Job` exactly where the value has another key or no pack, with
/// its first fault. `OutOfMemory` where memory is refused. The limit on the number of bytes is the caller's.
pub fn read_pack(alloc: Global, bytes: &[u8]) -> Result<Pack, CheckRefusal>
    // The pack is one that the bytes describe.
    ensures found { IfOk result (DescribesPack bytes.now) }
    // A pack that the bytes describe is read, unless memory is refused.
    ensures only { (pack : Pack) → DescribesPack bytes.now pack → IsPackAnswer pack result }
    // Which refusal it is, and the first fault.
    ensures refused { IfErr result (OnRefusal (NoPack bytes.now)) }
{
    answer_of(alloc, bytes)
}
