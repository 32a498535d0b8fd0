//! A law of words, as the contract of a function that does nothing.
ghost use Rattle.std.specs.Prelude.{◌⊎◌, ℕ, List};
ghost use Rattle.command_words.specs.declared.answer.Command.{Command};
ghost use Rattle.command_words.specs.Table.{WordsAreCommand};

/// Words are a command, or they are none.
pub fn command_or_none()
    ensures { (words : List (List ℕ)) → ((c : Command) × WordsAreCommand words c) ⊎ ((c : Command) → WordsAreCommand words c → ⊥) }
{}
