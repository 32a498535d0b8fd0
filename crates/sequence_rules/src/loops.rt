//! How many turns a loop may make.

ghost use Rattle.std.specs.Prelude.{◌≡◌, ◌<◌, ◌≤◌, unwrap_or};
ghost use Rattle.sequence_rules.specs.Steps.{timeout_of, turn_count};

/// The turns of a loop with this timeout, where a turn counts as `turn_us` microseconds: at least 1, and at most 60,000,000. A
/// timeout is 1 to 60,000,000; where there is none of these, one turn.
#[tactic(auto, unfolding(crate::specs::Steps::turn_count))]
pub fn turn_count(turn_us: u32, timeout: Option<u64>) -> u32
    requires { 0 < turn_us }
    ensures answer { result ≡ turn_count turn_us (unwrap_or (timeout_of timeout) 0) }
    ensures least { 1 ≤ result }
    ensures most { result ≤ 60000000 }
{
    let micros = match timeout {
        Some(micros @ 1..=60_000_000) => micros,
        _ => 0,
    };
    (micros / u64::from(turn_us)).max(1) as u32
}
