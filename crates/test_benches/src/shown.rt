//! What a bench shows of its log.
ghost use Rattle.test_benches.specs.StaysOpen.{StaysOpen};

use dap_base::Failed;
use probe_core::{Bench, Shown};
use std::alloc::AllocError;
use test_words::{RowError, RowWords, put_bytes};

// Writes a packet or a reply of the log.
fn put_shown<B: Bench>(bench: &mut B, index: u32, text: &mut String) -> Result<(), AllocError>
    ensures { StaysOpen (B.reported bench.old) (B.reported bench.new) }
{
    let mut out = [0; 1024];
    let (name, len) = match bench.show(index, &mut out) {
        Ok(Shown::Sent(len)) => ("sent ", len),
        Ok(Shown::Replied(len)) => ("replied ", len),
        Ok(Shown::NotKept) => ("not kept", 0),
        Ok(Shown::Past) => ("past", 0),
        Err(Failed) => ("failed", 0),
    };
    text.push_str(name)?;
    put_bytes(text, &out[..len])
}

/// `NUMBER COUNT`, of which the count is 1 where there is none: so many packets and replies of the bench's log, from the one of this
/// number on, `sent` or `replied` with the bytes, or `past` where there is none.
pub fn put_log<B: Bench>(
    bench: &mut B,
    words: &mut RowWords<'_>,
    text: &mut String,
) -> Result<(), RowError>
    ensures { StaysOpen (B.reported bench.old) (B.reported bench.new) }
{
    let first = words.number16()?;
    let count = if words.is_empty() {
        1
    } else {
        words.number16()?
    };
    for index in 0..u32::from(count) {
        if index != 0 {
            text.push_str("; ")?;
        }
        put_shown(bench, u32::from(first) + index, text)?;
    }
    Ok(())
}
