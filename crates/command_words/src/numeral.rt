//! The number of a generated job.
ghost use Rattle.std.specs.Prelude.{◌≡◌, ℕ, MatchOption};
ghost use Rattle.command_words.specs.Table.{IsShortNumber};

const MOST_DIGITS: usize = 5;

/// The number that one to five decimal digits write, where it has at most 16 bits. `None` for any
/// other text.
pub fn short_number(text: &str) -> Option<u16>
    ensures { MatchOption result ((n : ℕ) → IsShortNumber text.now n → ⊥) (λ n. IsShortNumber text.now n) }
{
    // A number is parsed with a plus before it too.
    if text.len() > MOST_DIGITS || text.as_bytes().first() == Some(&b'+') {
        return None;
    }
    text.parse().ok()
}
