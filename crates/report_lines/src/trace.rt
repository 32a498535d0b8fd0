//! The trace of a run.
#![tactic(auto, using(crate::proofs::FrameLemmas::frames))]

ghost use Rattle.std.specs.Prelude.{◌≡◌, ◌+◌, ◌<◌, ◌≤◌, IfOk, IfSome};
ghost use Rattle.probe_core.specs.Log.{IsCountedLog};
ghost use Rattle.report_lines.specs.Frame.{EndsPutting, EndsShowing, KeepsBench, PutsShown};
ghost use Rattle.report_lines.specs.Trace.{EntriesPut, EntryPut, LinePut, StepPut, entry_line, kept_line, trace};
ghost use Rattle.trace_audit.specs.Texts.{entry_mark};

use crate::endings::with_digits;
use crate::put::{TextEnd, put_line};
use dap_base::{OutOfMemory, Sink};
use probe_core::{Bench, Shown};
use std::alloc::Global;
use text_lines::Line;

// Whether a line shows a reply or a packet.
fn mark_text(is_reply: bool) -> &'static str
    ensures { result.now ≡ entry_mark is_reply }
{
    if is_reply { "< " } else { "> " }
}

// A packet that was received, or a reply that was handed out.
fn entry_text(alloc: Global, is_reply: bool, bytes: &[u8]) -> Result<Line, OutOfMemory>
    ensures { IfOk result (λ line. line ≡ entry_line (record { is_reply = is_reply; bytes = bytes.now })) }
{
    let line = Line::begin(alloc, mark_text(is_reply))?;
    with_digits(alloc, line, bytes)?.text("\n")
}

// How many packets and replies are shown, and how many there were.
fn kept_text(alloc: Global, kept: u32, count: u32) -> Result<Line, OutOfMemory>
    ensures { IfOk result (λ line. line ≡ kept_line kept count) }
{
    let line = Line::begin(alloc, "trace kept ")?.decimal(u64::from(kept))?;
    line.add_labelled(" of ", u64::from(count))?.text("\n")
}

/// What a bench shows for a number.
pub enum Seen {
    /// A packet or a reply that was kept.
    Kept,
    /// One that was not.
    NotKept,
    /// There is none of this number.
    Past,
}

// Puts the line of a packet or a reply.
#[tactic(auto, using(text_lines::proofs::PutLemmas::no_part, crate::proofs::FrameLemmas::frames))]
fn write_line<K: Sink>(
    alloc: Global,
    is_reply: bool,
    bytes: &[u8],
    sink: &mut K,
) -> Result<Seen, TextEnd>
    ensures text { LinePut (record { is_reply = is_reply; bytes = bytes.now }) result (K.written sink.old) (K.written sink.new) }
    ensures ends { EndsPutting K.written K.faults result sink.old sink.new }
{
    let line = entry_text(alloc, is_reply, bytes);
    put_line(line, sink)?;
    Ok(Seen::Kept)
}

// Puts the line of the packet or reply of a number, where it is kept.
fn write_entry<K: Sink, B: Bench>(
    alloc: Global,
    index: u32,
    bench: &mut B,
    sink: &mut K,
) -> Result<Seen, TextEnd>
    ensures text { IfSome (B.state bench.old) (λ m. EntryPut m.log index result (K.written sink.old) (K.written sink.new)) }
    ensures keeps { KeepsBench B.reported B.state B.identity bench.old bench.new }
    ensures ends { EndsShowing K.written K.faults result (B.reported bench.old) (B.reported bench.new) sink.old sink.new }
{
    let mut out = [0u8; 1024];
    match bench.show(index, &mut out) {
        Ok(Shown::Sent(length)) => write_line(alloc, false, &out[..length], sink),
        Ok(Shown::Replied(length)) => write_line(alloc, true, &out[..length], sink),
        Ok(Shown::NotKept) => Ok(Seen::NotKept),
        Ok(Shown::Past) => Ok(Seen::Past),
        Err(_) => Err(TextEnd::BenchFault),
    }
}

// Puts the line of the packet or reply of a number, where it is kept. Answers how many are kept with it, or that there is none of the
// number.
#[tactic(auto, unfolding(crate::specs::Trace::StepPut))]
fn write_next<K: Sink, B: Bench>(
    alloc: Global,
    index: u32,
    kept: u32,
    bench: &mut B,
    sink: &mut K,
) -> Result<Option<u32>, TextEnd>
    requires { kept < 4294967295 }
    ensures text { IfSome (B.state bench.old) (λ m. StepPut m.log index kept result (K.written sink.old) (K.written sink.new)) }
    ensures few { IfOk result (λ next. IfSome next (λ n. n ≤ kept + 1)) }
    ensures keeps { KeepsBench B.reported B.state B.identity bench.old bench.new }
    ensures ends { EndsShowing K.written K.faults result (B.reported bench.old) (B.reported bench.new) sink.old sink.new }
{
    match write_entry(alloc, index, bench, sink)? {
        Seen::Kept => Ok(Some(kept + 1)),
        Seen::NotKept => Ok(Some(kept)),
        Seen::Past => Ok(None),
    }
}

// Puts the lines of the kept packets and replies, and answers how many they are, and how many there
// were.
fn write_entries<K: Sink, B: Bench>(
    alloc: Global,
    bench: &mut B,
    sink: &mut K,
) -> Result<(u32, u32), TextEnd>
    ensures text { IfSome (B.state bench.old) (λ m. IsCountedLog m.log → EntriesPut m.log result (K.written sink.old) (K.written sink.new)) }
    ensures keeps { KeepsBench B.reported B.state B.identity bench.old bench.new }
    ensures ends { EndsShowing K.written K.faults result (B.reported bench.old) (B.reported bench.new) sink.old sink.new }
{
    let mut kept = 0;
    for index in 0..u32::MAX {
        match write_next(alloc, index, kept, bench, sink)? {
            Some(next) => kept = next,
            None => return Ok((kept, index)),
        }
    }
    Ok((kept, u32::MAX))
}

/// Puts the trace of a run, each line by one `put`. It has the packets that the bench received and the replies that it handed out, in
/// order, as far as they were kept. Last it has how many of how many they are. Each is requested by its number, from 0 on, directly before
/// its line. That ends where there is none of the number, or where 4,294,967,295 were requested.
///
/// `WriteFault` where the sink failed, `BenchFault` where the bench failed, `OutOfMemory` where memory
/// is refused: a prefix of the trace was then appended. The bench stays as it was, except its count of
/// faults at `BenchFault`.
pub fn trace_text<K: Sink, B: Bench>(
    alloc: Global,
    bench: &mut B,
    sink: &mut K,
) -> Result<(), TextEnd>
    ensures puts { PutsShown (λ m. trace m.log) result B.reported B.state B.identity K.written K.faults bench.old bench.new sink.old sink.new }
{
    let (kept, count) = write_entries(alloc, bench, sink)?;
    put_line(kept_text(alloc, kept, count), sink)
}
