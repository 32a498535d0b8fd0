//! An option and a flag, as arguments of `clap`.
ghost use Rattle.std.specs.Prelude.{◌≡◌, false};
ghost use Rattle.clap.specs.Words.{rule_of};
ghost use Rattle.word_options.specs.Line as spec;

use clap::{Arg, ArgAction};
use std::alloc::Global;

/// The option `--name`, which takes one value.
pub fn option_arg(alloc: Global, name: &str) -> Arg<'_>
    ensures rule { rule_of result ≡ spec.option_rule name.now }
    ensures local { result.global ≡ false }
{
    Arg::new(alloc, name).long(name)
}

/// The flag `--name`, which takes no value.
pub fn flag_arg(alloc: Global, name: &str) -> Arg<'_>
    ensures rule { rule_of result ≡ spec.flag_rule name.now }
    ensures local { result.global ≡ false }
{
    option_arg(alloc, name).action(ArgAction::SetTrue)
}
