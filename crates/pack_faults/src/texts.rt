//! Names as they are requested and held.
ghost use Rattle.std.specs.Prelude.{◌≡◌, IfOk, option_map};

use dap_base::{NameText, OutOfMemory};
use std::alloc::Global;

/// The name as a text.
pub fn text_of(name: Option<&NameText>) -> Option<&str>
    ensures { option_map (λ w. w.now) result ≡ option_map (λ w. w.now) name.entry }
{
    match name {
        Some(name) => Some(name.as_str()),
        None => None,
    }
}

/// A copy of a text, where there is one. `OutOfMemory` where memory is refused.
pub fn copy_of(alloc: Global, text: Option<&str>) -> Result<Option<NameText>, OutOfMemory>
    ensures { IfOk result (λ copy. copy ≡ option_map (λ w. w.now) text.entry) }
{
    match text {
        Some(text) => Ok(Some(NameText::new(alloc, text)?)),
        None => Ok(None),
    }
}
