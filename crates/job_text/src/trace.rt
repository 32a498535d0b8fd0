//! A kept trace: the member `trace`.
ghost use Rattle.serde_json.specs.View.{view};
ghost use Rattle.json_form.specs.Faults.{Gives};
ghost use Rattle.job_text.specs.JobReading.{entry_text_in, trace_in};

use dap_base::NameText;
use device_tree::JobFault;
use json_form::{Each, ListOf, Path, Reader, optional_of};
use serde_json::Value;
use std::alloc::Global;
use trace_audit::{TraceTexts, is_entry_text};

// Reads the text of an entry.
#[derive(Clone, Copy)]
struct EntryReader;

impl Reader for EntryReader {
    type Item = NameText;

    ghost reads = { λ _. entry_text_in };

    #[tactic(auto, unfolding(crate::specs::JobReading::entry_text_in))]
    fn read(&self, alloc: Global, value: &Value) -> Result<NameText, JobFault> {
        let Some(text) = value.as_str() else {
            return Err(JobFault::WrongKind(Path::new(alloc)));
        };
        if !is_entry_text(text) {
            return Err(JobFault::WrongKind(Path::new(alloc)));
        }
        Ok(NameText::new(alloc, text)?)
    }
}

const ENTRIES: ListOf<Each<EntryReader>> = ListOf {
    limit: Some(65_536),
    item: Each { item: EntryReader },
};

/// The member `trace` of a job, where it has one.
#[tactic(auto, unfolding(crate::specs::JobReading::trace_in))]
pub fn trace_of(alloc: Global, job: &Value) -> Result<Option<TraceTexts>, JobFault>
    ensures { Gives result (trace_in (view job.now)) }
{
    optional_of(alloc, job, "trace", &ENTRIES)
}
