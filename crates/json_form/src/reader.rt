//! What reads one kind of value.
use crate::fault::JobFault;
use serde_json::Value;
use std::alloc::Global;

/// Reads one kind of value. A reader is a value: ranges and what the value depends on are its fields.
pub trait Reader {
    ghost use Rattle.std.specs.Prelude.{Result};
    ghost use Rattle.serde_json.specs.Data.{Data};
    ghost use Rattle.serde_json.specs.View.{view};
    ghost use Rattle.json_form.specs.Faults.{Gives};
    ghost use Rattle.json_form.specs.declared.fault.JobFault.{JobFault};

    type Item: Drop;

    /// What a value stands for, or its first fault.
    ghost reads: { Self → Data → Result Self.Item JobFault };

    /// What the value stands for, or its first fault with a path from the value on.
    fn read(&self, alloc: Global, value: &Value) -> Result<Self::Item, JobFault>
        ensures { Gives result (reads self.now (view value.now)) };
}
