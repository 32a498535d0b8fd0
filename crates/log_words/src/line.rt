//! The command line as clap reads it.
ghost use Rattle.std.specs.Prelude.{◌≡◌, IfOk, map};
ghost use Rattle.clap.specs.Words.{app_of};
ghost use Rattle.word_options.specs.Line.{HasMatches};
ghost use Rattle.log_words.specs.Line as spec;

use clap::ArgMatches;
use std::alloc::{AllocError, Global};
use word_options::{WordsError, flag_arg, matches_by, option_arg};

pub const DEVICE: &str = "device";

pub const VARIANT: &str = "variant";

pub const PNAME: &str = "pname";

pub const SEQUENCE: &str = "sequence";

pub const TURNS: &str = "turns";

pub const FAIL: &str = "fail";

fn command_line<'a>(alloc: Global) -> Result<clap::Command<'a>, AllocError>
    ensures { IfOk result (λ c. app_of c ≡ spec.log_command_line) }
{
    clap::Command::new(alloc, "dapseq_log")
        .no_binary_name(true)
        .arg(option_arg(alloc, DEVICE))?
        .arg(option_arg(alloc, VARIANT))?
        .arg(option_arg(alloc, PNAME))?
        .arg(option_arg(alloc, SEQUENCE))?
        .arg(option_arg(alloc, TURNS))?
        .arg(flag_arg(alloc, FAIL))
}

/// What clap finds in the words. `Usage` where it does not take them.
pub fn matches_in<'a>(alloc: Global, words: &'a [&str]) -> Result<ArgMatches<'a>, WordsError>
    ensures { HasMatches spec.log_command_line (map (λ w. w.now) words.now) result }
{
    let line = command_line(alloc)?;
    matches_by(line, words)
}
