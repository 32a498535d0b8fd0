//! Why words ask for nothing.
use dap_base::OutOfMemory;
use std::alloc::AllocError;

/// Why the words of a command line ask for nothing.
#[derive(Clone, Copy, Debug, PartialEq, Eq)]
pub enum WordsError {
    /// The words are wrong.
    Usage,
    /// Memory was refused.
    OutOfMemory,
}

impl From<OutOfMemory> for WordsError {
    ghost use Rattle.std.specs.Prelude.{◌≡◌};
    ghost use Rattle.word_options.specs.declared.answer.WordsError.TheVariants as errors;

    ghost from_gives = { λ _ e. e ≡ errors.OutOfMemory };

    fn from(_refused: OutOfMemory) -> WordsError {
        WordsError::OutOfMemory
    }
}

impl From<AllocError> for WordsError {
    ghost use Rattle.std.specs.Prelude.{◌≡◌};
    ghost use Rattle.word_options.specs.declared.answer.WordsError.TheVariants as errors;

    ghost from_gives = { λ _ e. e ≡ errors.OutOfMemory };

    fn from(_refused: AllocError) -> WordsError {
        WordsError::OutOfMemory
    }
}
