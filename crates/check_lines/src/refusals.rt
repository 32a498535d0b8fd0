//! The line of a refusal, and the line of words that are no command.
ghost use Rattle.std.specs.Prelude.{◌≡◌, IfOk};
ghost use Rattle.text_lines.specs.Puts.{PutsText};
ghost use Rattle.check_lines.specs.RefusalLines.{path_line, job_fault_line, image_line, dbgconf_line, refusal_line, too_long_line, no_sequence_line, usage_line};

use crate::path::with_path;
use crate::words::{dbgconf_kind_text, image_kind_text};
use crate::writing::write_check_fault;
use dap_base::{OutOfMemory, Place, Sink};
use device_tree::{JobFault, Path};
use hex_image::ImageKind;
use job_check::{DbgconfKind, Refusal};
use std::alloc::Global;
use text_lines::{Line, TextError, put_line, put_text};

fn path_line(alloc: Global, name: &str, path: &Path) -> Result<Line, OutOfMemory>
    ensures { IfOk result (λ line. line ≡ path_line name.now path.now) }
{
    let line = Line::begin(alloc, "refused ")?.text(name)?.text(" ")?;
    with_path(line, path)?.text("\n")
}

fn job_fault_text(alloc: Global, fault: &JobFault) -> Result<Line, OutOfMemory>
    ensures { IfOk result (λ line. line ≡ job_fault_line fault.now) }
{
    match fault.path() {
        Some(path) => path_line(alloc, fault.name(), path),
        None => Err(OutOfMemory),
    }
}

fn image_fault_text(alloc: Global, kind: ImageKind, number: u64) -> Result<Line, OutOfMemory>
    ensures { IfOk result (λ line. line ≡ image_line kind number) }
{
    Line::begin(alloc, "refused image ")?
        .text(image_kind_text(kind))?
        .add_labelled(" ", number)?
        .text("\n")
}

fn dbgconf_fault_text(alloc: Global, kind: DbgconfKind, at: Place) -> Result<Line, OutOfMemory>
    ensures { IfOk result (λ line. line ≡ dbgconf_line kind at) }
{
    let line = Line::begin(alloc, "refused dbgconf ")?.text(dbgconf_kind_text(kind))?;
    line.add_place(at)?.text("\n")
}

/// Puts the line of a refusal by one `put`. That is `refused`, and then one of these:
/// - of a fault of the job its name and its path, each byte as names are shown;
/// - of a fault of an image `image`, its name and the number of the line in its text;
/// - of a fault of the starting values `dbgconf`, its name, and line and column in their text;
/// - of a fault of the set `check`, its name and its place;
/// - of any other refusal its name.
///
/// `Failed` where the sink failed, `OutOfMemory` where memory is refused, or was while the job was
/// read; a prefix of the line was then appended.
pub fn write_refusal<K: Sink>(
    alloc: Global,
    refusal: &Refusal,
    sink: &mut K,
) -> Result<(), TextError>
    ensures puts { PutsText (refusal_line refusal.now) result TextError.Failed K.written K.faults sink.old sink.new }
{
    match refusal {
        Refusal::BadJson => put_text(b"refused BadJson\n", sink),
        Refusal::Job(fault) => put_line(job_fault_text(alloc, fault), sink),
        Refusal::Image(kind, number) => { put_line(image_fault_text(alloc, *kind, *number), sink) }
        Refusal::Dbgconf(kind, at) => put_line(dbgconf_fault_text(alloc, *kind, *at), sink),
        Refusal::NoDevice => put_text(b"refused NoDevice\n", sink),
        Refusal::AmbiguousDevice => put_text(b"refused AmbiguousDevice\n", sink),
        Refusal::NoVariant => put_text(b"refused NoVariant\n", sink),
        Refusal::Check(kind, spot) => write_check_fault(alloc, *kind, spot, sink),
    }
}

/// Puts the line of a job of too many bytes, `refused TooLong`, by one `put`. `Failed` where the sink
/// failed; a prefix of the line was then appended.
pub fn write_too_long<K: Sink>(sink: &mut K) -> Result<(), TextError>
    ensures puts { PutsText too_long_line result TextError.Failed K.written K.faults sink.old sink.new }
{
    put_text(b"refused TooLong\n", sink)
}

/// Puts the line of a set without a sequence of the name, `refused NoSequence`, by one `put`. `Failed`
/// where the sink failed; a prefix of the line was then appended.
pub fn write_no_sequence<K: Sink>(sink: &mut K) -> Result<(), TextError>
    ensures puts { PutsText no_sequence_line result TextError.Failed K.written K.faults sink.old sink.new }
{
    put_text(b"refused NoSequence\n", sink)
}

const USAGE: &[u8] =
    b"usage dapseq MODE [--device NAME] [--variant NAME] [--pname NAME] [--sequence NAME] [--number N]\n";

/// Puts the line of words that are no command by one `put`: `usage`, the program, and its options.
/// `Failed` where the sink failed; a prefix of the line was then appended.
pub fn write_usage<K: Sink>(sink: &mut K) -> Result<(), TextError>
    ensures puts { PutsText usage_line result TextError.Failed K.written K.faults sink.old sink.new }
{
    put_text(USAGE, sink)
}
