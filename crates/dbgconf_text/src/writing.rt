//! Names and values written as a text.
ghost use Rattle.std.specs.Prelude.{◌≡◌, ◌++◌, IfOk, OnOk, string_bytes};
ghost use Rattle.dbgconf_text.specs.Written.{AreNames, IsConfText, conf_bytes, item_bytes};

use crate::appending::{append, append_hex};
use crate::conf::{Conf, ConfItem};
use dap_base::{NameText, OutOfMemory};
use std::alloc::Global;

// A name and its value at the end of `out`.
fn append_item(alloc: Global, out: &mut String, item: &ConfItem) -> Result<(), OutOfMemory>
    ensures { OnOk result (string_bytes out.new ≡ string_bytes out.old ++ item_bytes item.now) }
{
    append(out, item.name.text.as_str())?;
    append(out, " = ")?;
    append_hex(alloc, out, item.value)?;
    append(out, ";\n")
}

// Names and values as a text.
fn write_items(alloc: Global, conf: &[ConfItem]) -> Result<NameText, OutOfMemory>
    ensures { IfOk result (λ t. t ≡ conf_bytes conf.now) }
{
    let mut out = String::new(alloc);
    for item in conf {
        append_item(alloc, &mut out, item)?;
    }
    let text = NameText::new(alloc, out.as_str())?;
    Ok(text)
}

/// The names and values as a text: `NAME = 0xH;` and a line feed for each, in order, H in lower case without leading zeros. What
/// [`crate::conf_of`] reads from it are the same names and values. `OutOfMemory` where memory is refused.
pub fn conf_text(alloc: Global, conf: &Conf) -> Result<NameText, OutOfMemory>
    requires { AreNames conf.now }
    ensures text { IfOk result (λ t. t ≡ conf_bytes conf.now) }
    ensures again { IfOk result (IsConfText conf.now) }
{
    write_items(alloc, conf.as_slice())
}
