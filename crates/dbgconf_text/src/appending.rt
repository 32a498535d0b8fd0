//! Texts and numbers put to the end of a text.
ghost use Rattle.std.specs.Prelude.{◌≡◌, ◌++◌, OnOk, string_bytes};
ghost use Rattle.text_lines.specs.Hex.{hex};

use dap_base::OutOfMemory;
use std::alloc::Global;

// The text at the end of `out`.
pub fn append(out: &mut String, text: &str) -> Result<(), OutOfMemory>
    ensures { OnOk result (string_bytes out.new ≡ string_bytes out.old ++ text.now) }
{
    match out.push_str(text) {
        Ok(()) => Ok(()),
        Err(_) => Err(OutOfMemory),
    }
}

// The number as `0x` and its digits at the end of `out`.
pub fn append_hex(alloc: Global, out: &mut String, value: u64) -> Result<(), OutOfMemory>
    ensures { OnOk result (string_bytes out.new ≡ string_bytes out.old ++ hex value) }
{
    let Ok(digits) = format!(in alloc; "{value:x}") else {
        return Err(OutOfMemory);
    };
    append(out, "0x")?;
    append(out, digits.as_str())
}
