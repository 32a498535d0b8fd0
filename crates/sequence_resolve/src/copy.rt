//! Copies of texts, which the set owns.
ghost use Rattle.std.specs.Prelude.{◌≡◌, IfOk};

use dap_base::{NameText, OutOfMemory};
use std::alloc::Global;

pub fn copy_text(alloc: Global, text: &NameText) -> Result<NameText, OutOfMemory>
    ensures { IfOk result (λ copy. copy ≡ text.now) }
{
    NameText::new(alloc, text.as_str())
}
