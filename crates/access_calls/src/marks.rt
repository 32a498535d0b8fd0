//! The mark that a `finish` leaves.
ghost use Rattle.std.specs.Prelude.{◌≡◌, vec_len};
ghost use Rattle.target_calls.specs.Asks.{settled_last};

use target_calls::Ask;

/// Marks the last call, where there is one: a `finish` was made after it. Takes no memory.
#[tactic(auto, using(crate::proofs::MarkLemmas::marked_here))]
pub fn mark_last(calls: &mut Vec<Ask>)
    ensures answer { calls.new.items ≡ settled_last calls.old.items }
    ensures length { vec_len calls.new ≡ vec_len calls.old }
{
    let count = calls.len();
    if count > 0 {
        calls[count - 1].settled = true;
    }
}
