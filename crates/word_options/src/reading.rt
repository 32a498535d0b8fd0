//! The words as texts, and the values of options and flags.
ghost use Rattle.std.specs.Prelude.{◌≡◌, IfOk, IfErr, None, Some, map};
ghost use Rattle.clap.specs.Words.{first_value, found_of};
ghost use Rattle.word_options.specs.Line as spec;
ghost use Rattle.word_options.specs.declared.answer.WordsError.TheVariants as errors;

use crate::answer::WordsError;
use clap::ArgMatches;
use dap_base::{NameText, OutOfMemory, Words};
use std::alloc::{AllocError, Global};

/// The words as a list of texts, which `clap` lends its values from.
pub fn texts_of<'a>(alloc: Global, words: &'a Words) -> Result<Vec<&'a str>, AllocError>
    ensures { IfOk result (λ texts. map (λ t. t.now) texts.items ≡ words.now) }
{
    let mut texts = Vec::new(alloc);
    for word in words.as_slice() {
        texts.push(word.as_str())?;
    }
    Ok(texts)
}

/// The value of an option, which then outlives the list of texts that `clap` lends it from. `None` where it is not given.
pub fn value_of(
    alloc: Global,
    matches: &ArgMatches<'_>,
    name: &str,
) -> Result<Option<NameText>, OutOfMemory>
    ensures { IfOk result (λ v. v ≡ first_value (found_of matches.now) name.now) }
{
    match matches.get_str(name) {
        Some(text) => {
            let value = NameText::new(alloc, text)?;
            Ok(Some(value))
        }
        None => Ok(None),
    }
}

/// The value of an option that must be given. `Usage` where it is not given, and `OutOfMemory` where memory is refused.
pub fn needed_value(
    alloc: Global,
    matches: &ArgMatches<'_>,
    name: &str,
) -> Result<NameText, WordsError>
    ensures value { IfOk result (λ v. first_value (found_of matches.now) name.now ≡ Some v) }
    ensures usage { IfErr result (λ e. e ≡ errors.Usage → first_value (found_of matches.now) name.now ≡ None) }
{
    match matches.get_str(name) {
        Some(text) => Ok(NameText::new(alloc, text)?),
        None => Err(WordsError::Usage),
    }
}

/// Whether a flag is given.
pub fn is_set(matches: &ArgMatches<'_>, name: &str) -> bool
    ensures { result ≡ spec.is_set (first_value (found_of matches.now) name.now) }
{
    match matches.get_str(name) {
        Some(value) => value == "true",
        None => false,
    }
}
