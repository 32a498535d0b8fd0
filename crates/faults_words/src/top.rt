//! From the words to what they ask for.
ghost use Rattle.std.specs.Prelude.{◌≡◌, IfOk, IfErr, MatchResult};
ghost use Rattle.clap.specs.Words.{first_value, found_of};
ghost use Rattle.faults_words.specs.Asks.{IsFaultsRequest, WordsAskForFaults};
ghost use Rattle.word_options.specs.declared.answer.WordsError.TheVariants as errors;

use crate::answer::FaultsCommand;
use crate::format::format_of;
use crate::line::{DEVICE, FORMAT, PNAME, VARIANT, WARNINGS, matches_in};
use clap::ArgMatches;
use dap_base::Words;
use std::alloc::Global;
use word_options::{WordsError, is_set, texts_of, value_of};

// What the values of the options ask for.
fn asked_by(alloc: Global, matches: &ArgMatches<'_>) -> Result<FaultsCommand, WordsError>
    ensures answer { IfOk result (IsFaultsRequest (first_value (found_of matches.now))) }
    ensures usage { IfErr result (λ e. e ≡ errors.Usage → (a : _) → IsFaultsRequest (first_value (found_of matches.now)) a → ⊥) }
{
    let Some(format) = format_of(matches.get_str(FORMAT)) else {
        return Err(WordsError::Usage);
    };
    Ok(FaultsCommand {
        device: value_of(alloc, matches, DEVICE)?,
        variant: value_of(alloc, matches, VARIANT)?,
        pname: value_of(alloc, matches, PNAME)?,
        format,
        warnings: is_set(matches, WARNINGS),
    })
}

/// What the words after the program's name ask for.
///
/// `clap` reads them as the options `--device`, `--variant`, `--pname` and `--format`, each with one value, and the flag
/// `--warnings`, each at most once. A format is `text`, `json` or `sarif`, and `text` where none is given. The names are
/// copies.
///
/// `Usage` exactly where `clap` refuses the words for another cause than memory, which its answers to `--help` and
/// `-h` are, or where the format is none of these. `OutOfMemory` where memory is refused.
pub fn asked_of(alloc: Global, words: &Words) -> Result<FaultsCommand, WordsError>
    ensures answer { IfOk result (WordsAskForFaults words.now) }
    ensures only { (a : _) → WordsAskForFaults words.now a → MatchResult result (λ r. r ≡ a) (λ e. e ≡ errors.OutOfMemory) }
    ensures usage { IfErr result (λ e. e ≡ errors.Usage → (a : _) → WordsAskForFaults words.now a → ⊥) }
{
    let texts = texts_of(alloc, words)?;
    let matches = matches_in(alloc, texts.as_slice())?;
    asked_by(alloc, &matches)
}
