//! How many turns of a loop are shown.
ghost use Rattle.std.specs.Prelude.{◌≡◌, ℕ, MatchOption, option_map};
ghost use Rattle.log_words.specs.Asks.{IsTurns, IsTurnsText};

const MOST_DIGITS: usize = 7;

const MOST_TURNS: u32 = 1_000_000;

const USUAL_TURNS: u32 = 2;

// The number that one to seven decimal digits write, where it is at most 1,000,000.
fn turns_in(text: &str) -> Option<u32>
    ensures { MatchOption result ((n : ℕ) → IsTurnsText text.now n → ⊥) (λ n. IsTurnsText text.now n) }
{
    // A number is parsed with a plus before it too.
    if text.len() > MOST_DIGITS || text.as_bytes().first() == Some(&b'+') {
        return None;
    }
    let turns = text.parse::<u32>().ok()?;
    if turns <= MOST_TURNS {
        Some(turns)
    } else {
        None
    }
}

/// The number of turns that this text writes, 2 where there is none. `None` for any other text.
pub fn turns_of(text: Option<&str>) -> Option<u32>
    ensures { MatchOption result ((n : ℕ) → IsTurns (option_map (λ t. t.now) text.entry) n → ⊥) (λ n. IsTurns (option_map (λ t. t.now) text.entry) n) }
{
    match text {
        Some(text) => turns_in(text),
        None => Some(USUAL_TURNS),
    }
}
