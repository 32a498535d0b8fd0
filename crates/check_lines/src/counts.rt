//! How many blocks and controls there are at all depths.
ghost use Rattle.std.specs.Prelude.{◌≡◌, ◌+◌, IfOk, if◌then◌else◌};
ghost use Rattle.device_tree.specs.StepTree.{no_steps};
ghost use Rattle.device_tree.specs.StepsView.{cons_step, steps_view};
ghost use Rattle.check_lines.specs.Counts.{AreCounts, IsSum};

use dap_base::OutOfMemory;
use device_tree::{Step, Steps};

/// The blocks, the controls and the blocks that are atomic, at all depths.
#[derive(Clone, Copy, Debug, PartialEq, Eq)]
pub struct StepCounts {
    pub blocks: u64,
    pub controls: u64,
    pub atomic: u64,
}

// A number of steps of more than 64 bits, for which no memory is large enough, is out of memory.
fn sum(a: u64, b: u64) -> Result<u64, OutOfMemory>
    ensures { IfOk result (λ s. s ≡ a + b) }
{
    match a.checked_add(b) {
        Some(sum) => Ok(sum),
        None => Err(OutOfMemory),
    }
}

fn add_counts(a: StepCounts, b: StepCounts) -> Result<StepCounts, OutOfMemory>
    ensures { IfOk result (λ c. IsSum a b c) }
{
    let blocks = sum(a.blocks, b.blocks)?;
    let controls = sum(a.controls, b.controls)?;
    let atomic = sum(a.atomic, b.atomic)?;
    Ok(StepCounts {
        blocks,
        controls,
        atomic,
    })
}

fn no_counts() -> StepCounts
    ensures { AreCounts no_steps result }
{
    StepCounts {
        blocks: 0,
        controls: 0,
        atomic: 0,
    }
}

fn block_counts(atomic: bool) -> StepCounts
    ensures blocks { result.blocks ≡ 1 }
    ensures controls { result.controls ≡ 0 }
    ensures atomic { result.atomic ≡ (if atomic then 1 else 0) }
{
    StepCounts {
        blocks: 1,
        controls: 0,
        atomic: if atomic { 1 } else { 0 },
    }
}

fn with_control(inner: StepCounts) -> Result<StepCounts, OutOfMemory>
    ensures { IfOk result (λ c. IsSum (record { blocks = 0; controls = 1; atomic = 0 }) inner c) }
{
    let control = StepCounts {
        blocks: 0,
        controls: 1,
        atomic: 0,
    };
    add_counts(control, inner)
}

#[cycle(counts)]
pub fn counts_of(steps: &Steps) -> Result<StepCounts, OutOfMemory>
    ensures { IfOk result (λ c. AreCounts steps.now c) }
{
    counts_in(steps.as_slice())
}

#[cycle(counts)]
fn counts_in(items: &[Step]) -> Result<StepCounts, OutOfMemory>
    ensures { IfOk result (λ c. AreCounts (steps_view items.now) c) }
{
    let mut counts = no_counts();
    for item in items {
        let more = step_counts(item)?;
        counts = add_counts(counts, more)?;
    }
    Ok(counts)
}

#[cycle(counts)]
fn step_counts(step: &Step) -> Result<StepCounts, OutOfMemory>
    ensures { IfOk result (λ c. AreCounts (cons_step step.now no_steps) c) }
{
    match step {
        Step::Block { atomic, .. } => Ok(block_counts(*atomic)),
        Step::Control { steps, .. } => {
            let inner = counts_of(steps)?;
            with_control(inner)
        }
    }
}
