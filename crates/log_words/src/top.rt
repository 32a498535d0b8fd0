//! From the words to what they ask for.
ghost use Rattle.std.specs.Prelude.{◌≡◌, IfOk, IfErr, MatchResult};
ghost use Rattle.clap.specs.Words.{first_value, found_of};
ghost use Rattle.log_words.specs.Asks.{IsLogRequest, WordsAskForLog};
ghost use Rattle.word_options.specs.declared.answer.WordsError.TheVariants as errors;

use crate::answer::LogCommand;
use crate::line::{DEVICE, FAIL, PNAME, SEQUENCE, TURNS, VARIANT, matches_in};
use crate::turns::turns_of;
use clap::ArgMatches;
use dap_base::Words;
use sequence_resolve::Selection;
use std::alloc::Global;
use word_options::{WordsError, is_set, needed_value, texts_of, value_of};

// What the values of the options ask for.
fn asked_by(alloc: Global, matches: &ArgMatches<'_>) -> Result<LogCommand, WordsError>
    ensures answer { IfOk result (IsLogRequest (first_value (found_of matches.now))) }
    ensures usage { IfErr result (λ e. e ≡ errors.Usage → (a : _) → IsLogRequest (first_value (found_of matches.now)) a → ⊥) }
{
    let Some(turns) = turns_of(matches.get_str(TURNS)) else {
        return Err(WordsError::Usage);
    };
    let device = needed_value(alloc, matches, DEVICE)?;
    let sequence = needed_value(alloc, matches, SEQUENCE)?;
    Ok(LogCommand {
        selection: Selection {
            device,
            variant: value_of(alloc, matches, VARIANT)?,
            pname: value_of(alloc, matches, PNAME)?,
        },
        sequence,
        turns,
        fail: is_set(matches, FAIL),
    })
}

/// What the words after the program's name ask for.
///
/// `clap` reads them as the options `--device`, `--variant`, `--pname`, `--sequence` and `--turns`, each with one value,
/// and the flag `--fail`, each at most once. A device and a sequence must be given. The turns are one to seven decimal
/// digits that write a number from 0 to 1,000,000, and 2 where none are given. The names are copies.
///
/// `Usage` exactly where `clap` refuses the words for another cause than memory, where the device or the sequence is not given, or where
/// the turns are no such number. The answers of `clap` to `--help` and `-h` are such refusals. `OutOfMemory` where memory is refused.
pub fn asked_of(alloc: Global, words: &Words) -> Result<LogCommand, WordsError>
    ensures answer { IfOk result (WordsAskForLog words.now) }
    ensures only { (a : _) → WordsAskForLog words.now a → MatchResult result (λ r. r ≡ a) (λ e. e ≡ errors.OutOfMemory) }
    ensures usage { IfErr result (λ e. e ≡ errors.Usage → (a : _) → WordsAskForLog words.now a → ⊥) }
{
    let texts = texts_of(alloc, words)?;
    let matches = matches_in(alloc, texts.as_slice())?;
    asked_by(alloc, &matches)
}
