//! What `clap` finds in the words of a command line.
ghost use Rattle.std.specs.Prelude.{◌≡◌, ◌≢◌, map, true};
ghost use Rattle.clap.specs.Words.{app_of, is_simple_and_free, kind_of};
ghost use Rattle.word_options.specs.Line.{HasMatches};
ghost use Rattle.word_options.specs.declared.answer.WordsError.TheVariants as errors;

use crate::answer::WordsError;
use clap::ArgMatches;
use clap::error::ErrorKind;

fn error_of(error: &clap::Error) -> WordsError
    ensures { result ≡ errors.Usage → kind_of error.now ≢ ErrorKind.OutOfMemory }
{
    match error.kind() {
        ErrorKind::OutOfMemory => WordsError::OutOfMemory,
        _ => WordsError::Usage,
    }
}

/// What `clap` finds in the words, as this simple command line. `Usage` where it does not take them, and `OutOfMemory`
/// where memory is refused.
pub fn matches_by<'a>(
    line: clap::Command<'a>,
    words: &'a [&str],
) -> Result<ArgMatches<'a>, WordsError>
    requires { is_simple_and_free (app_of line) ≡ true }
    ensures { HasMatches (app_of line.entry) (map (λ w. w.now) words.now) result }
{
    match line.try_get_matches_from(words) {
        Ok(matches) => Ok(matches),
        Err(error) => Err(error_of(&error)),
    }
}
