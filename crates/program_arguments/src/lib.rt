//! The arguments of a program, as words.
#![tactic(auto)]

ghost use Rattle.std.specs.Prelude.{◌≡◌, drop, map, string_bytes, IfOk, [], ◌∷◌};

use dap_base::{NameText, OutOfMemory, Words};
use std::alloc::Global;
use std::env;
use std::io::ErrorKind;

/// The words after the program's name, in order: all arguments but the first, each byte for byte.
///
/// `OutOfMemory` where memory is refused.
pub fn words_of(alloc: Global, arguments: &[String]) -> Result<Words, OutOfMemory>
    ensures { IfOk result (λ words. words ≡ map string_bytes (drop 1 arguments.now)) }
{
    let mut words = Words::new(alloc);
    let [_program, rest @ ..] = arguments else {
        return Ok(words);
    };
    for argument in rest {
        words.push(NameText::new(alloc, argument.as_str())?)?;
    }
    Ok(words)
}

/// One empty word, in place of arguments that cannot be read as text.
///
/// `OutOfMemory` where memory is refused.
pub fn unreadable_words(alloc: Global) -> Result<Words, OutOfMemory>
    ensures { IfOk result (λ words. words ≡ [] ∷ []) }
{
    let mut words = Words::new(alloc);
    words.push(NameText::new(alloc, "")?)?;
    Ok(words)
}

/// The words of the running program, after its name. One empty word where an argument is no text: no program takes it, so the call is
/// a wrong one.
///
/// `OutOfMemory` where memory is refused.
pub fn read_words(rt: &HostRuntime, alloc: Global) -> Result<Words, OutOfMemory> {
    let arguments = match env::args(rt) {
        Ok(arguments) => arguments,
        Err(error) if error.kind() == ErrorKind::OutOfMemory => return Err(OutOfMemory),
        Err(_) => return unreadable_words(alloc),
    };
    let Ok(arguments) = arguments.collect::<Vec<String>>(alloc) else {
        return Err(OutOfMemory);
    };
    words_of(alloc, &arguments)
}
