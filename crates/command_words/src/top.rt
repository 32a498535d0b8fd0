//! From the words to a command.
ghost use Rattle.std.specs.Prelude.{◌≡◌, ◌≢◌, IfOk, IfErr, MatchOption, MatchResult, Some, codes};
ghost use Rattle.clap.specs.Words.{first_value, found_of};
ghost use Rattle.command_words.specs.Table.{IsCommandBy, WordsAreCommand, mode_text, options_by};
ghost use Rattle.word_options.specs.declared.answer.WordsError.TheVariants as errors;

use crate::answer::Command;
use crate::line::{DEVICE, MODE, NUMBER, PNAME, SEQUENCE, VARIANT, matches_in};
use crate::mode::{Mode, mode_of};
use crate::options::Options;
use crate::table::command_in;
use clap::ArgMatches;
use dap_base::{OutOfMemory, Words};
use std::alloc::Global;
use word_options::{WordsError, texts_of, value_of};

fn found_mode(matches: &ArgMatches<'_>) -> Option<Mode>
    ensures { let value = first_value (found_of matches.now) (codes "mode") in
        MatchOption result ((m : _) → value ≢ Some (mode_text m)) (λ m. value ≡ Some (mode_text m)) }
{
    match matches.get_str(MODE) {
        Some(text) => mode_of(text),
        None => None,
    }
}

fn options_of(alloc: Global, matches: &ArgMatches<'_>) -> Result<Options, OutOfMemory>
    ensures { IfOk result (λ o. o ≡ options_by (first_value (found_of matches.now))) }
{
    Ok(Options {
        device: value_of(alloc, matches, DEVICE)?,
        variant: value_of(alloc, matches, VARIANT)?,
        pname: value_of(alloc, matches, PNAME)?,
        sequence: value_of(alloc, matches, SEQUENCE)?,
        number: value_of(alloc, matches, NUMBER)?,
    })
}

// The command of the mode and the options that are found.
fn command_by(alloc: Global, matches: &ArgMatches<'_>) -> Result<Command, WordsError>
    ensures answer { IfOk result (IsCommandBy (first_value (found_of matches.now))) }
    ensures usage { IfErr result (λ e. e ≡ errors.Usage → (c : _) → IsCommandBy (first_value (found_of matches.now)) c → ⊥) }
{
    let Some(mode) = found_mode(matches) else {
        return Err(WordsError::Usage);
    };
    let options = options_of(alloc, matches)?;
    match command_in(mode, options) {
        Some(command) => Ok(command),
        None => Err(WordsError::Usage),
    }
}

/// The command that the words after the program's name ask for.
///
/// `clap` reads them as one required positional, the mode, and the options `--device`, `--variant`,
/// `--pname`, `--sequence` and `--number`, each with one value and at most once. The mode `check`
/// needs a device, `run`, `trace`, `load` and `scan` need a device and a sequence, and each of the five takes a
/// variant and a processor name too. The mode `gen` needs a number and takes nothing else: one to
/// five decimal digits of a value of at most 65,535. The mode `scan` takes a number too, of at most 255: that of an
/// access port, 0 where it is absent. The mode `audit` takes no option. The values of the command are copies.
///
/// `Usage` exactly where `clap` refuses the words for another cause than memory, or where the mode or the options are none of these. The
/// answers of `clap` to `--help` and `-h` are such refusals. `OutOfMemory` where memory is refused.
pub fn command_of(alloc: Global, words: &Words) -> Result<Command, WordsError>
    ensures answer { IfOk result (WordsAreCommand words.now) }
    ensures only { (c : _) → WordsAreCommand words.now c → MatchResult result (λ r. r ≡ c) (λ e. e ≡ errors.OutOfMemory) }
    ensures usage { IfErr result (λ e. e ≡ errors.Usage → (c : _) → WordsAreCommand words.now c → ⊥) }
{
    let texts = texts_of(alloc, words)?;
    let matches = matches_in(alloc, texts.as_slice())?;
    command_by(alloc, &matches)
}
