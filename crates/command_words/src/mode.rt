//! The first word of a command.
ghost use Rattle.std.specs.Prelude.{◌≡◌, ◌≢◌, MatchOption};
ghost use Rattle.command_words.specs.Table.{mode_text};

/// What the program is to do.
#[derive(Clone, Copy)]
pub enum Mode {
    Check,
    Run,
    Trace,
    Load,
    Scan,
    Gen,
    Audit,
}

/// The mode of this name. `None` for any other text.
pub fn mode_of(text: &str) -> Option<Mode>
    ensures { MatchOption result ((m : _) → text.now ≢ mode_text m) (λ m. text.now ≡ mode_text m) }
{
    match text {
        "check" => Some(Mode::Check),
        "run" => Some(Mode::Run),
        "trace" => Some(Mode::Trace),
        "load" => Some(Mode::Load),
        "scan" => Some(Mode::Scan),
        "gen" => Some(Mode::Gen),
        "audit" => Some(Mode::Audit),
        _ => None,
    }
}
