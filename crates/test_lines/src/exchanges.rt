//! A report and a trace after packets that the program sends.
ghost use Rattle.std.specs.Prelude.{◌≡◌, ◌<◌, ◌≤◌, false, OnOk, length};
ghost use Rattle.probe_core.specs.Probe.{is_queued};
ghost use Rattle.probe_core.specs.Ranges.{IsBenchJob};
ghost use Rattle.report_lines.specs.Shown.{IsShownJob};

use crate::reports::{ended_of, text_of};
use dap_base::Failed;
use job_text::{Job, job_of};
use probe_core::{Bench, MemoryBench};
use std::alloc::{AllocError, Global};

// Sends a packet that runs at once, and takes its reply.
fn exchange<B: Bench>(bench: &mut B, packet: &[u8]) -> Result<(), Failed>
    requires held { (B.reported bench.old).held ≡ 0 }
    requires waiting { (B.reported bench.old).waiting ≡ 0 }
    requires size { (B.reported bench.old).limits.packet_size ≡ 64 }
    requires some { 0 < length packet.now }
    requires few { length packet.now ≤ 64 }
    requires plain { is_queued packet.now ≡ false }
    ensures held { OnOk result ((B.reported bench.new).held ≡ 0) }
    ensures waiting { OnOk result ((B.reported bench.new).waiting ≡ 0) }
    ensures size { OnOk result ((B.reported bench.new).limits.packet_size ≡ 64) }
{
    let mut reply = [0; 64];
    bench.send(packet)?;
    bench.receive(&mut reply)?;
    Ok(())
}

// A write of 0x2A to 0x20000000, after the packets of an opening.
fn write_word<B: Bench>(bench: &mut B) -> Result<(), Failed>
    requires held { (B.reported bench.old).held ≡ 0 }
    requires waiting { (B.reported bench.old).waiting ≡ 0 }
    requires size { (B.reported bench.old).limits.packet_size ≡ 64 }
{
    exchange(bench, &[0x00, 0xff])?;
    exchange(bench, &[0x00, 0xfe])?;
    exchange(bench, &[0x04, 0x00, 0x64, 0x00, 0x00, 0x00])?;
    exchange(bench, &[0x05, 0x00, 0x02, 0x08, 0, 0, 0, 0, 0x03])?;
    exchange(
        bench,
        &[
            0x05, 0x00, 0x05, 0x01, 0x52, 0, 0, 0, 0x05, 0, 0, 0, 0x20, 0x0d, 0x2a, 0, 0, 0, 0x01,
            0x42, 0, 0, 0, 0x05, 0, 0, 0, 0x20,
        ],
    )
}

// The same on a bench with the target of a job.
fn word_written(alloc: Global, job: &mut Job) -> Result<MemoryBench, Failed>
    requires { IsBenchJob job.old.bench }
    ensures watch { job.new.watch ≡ job.old.watch }
    ensures memory { job.new.bench.target ≡ job.old.bench.target }
    ensures bench { IsBenchJob job.new.bench }
{
    job.bench.limits.packet_size = 64;
    let mut bench = MemoryBench::new(alloc);
    if bench.load(alloc, &job.bench).is_err() {
        return Err(Failed);
    }
    write_word(&mut bench)?;
    Ok(bench)
}

// What is written of a run of three units that is done, after the write.
fn text_after(alloc: Global, job: &mut Job) -> Result<Vec<u8>, AllocError>
    requires { IsShownJob job.old }
{
    let Ok(mut bench) = word_written(alloc, job) else {
        return Err(AllocError);
    };
    let ended = ended_of(alloc, "done")?;
    text_of(alloc, job, &ended, &mut bench, 0)
}

/// What is written of a run of three units that is done, where the bench has made a write of 0x2A to 0x20000000 on the target of the
/// job, in packets of at most 64 bytes. The input is the job.
pub fn write(alloc: Global, input: &[u8]) -> Result<Vec<u8>, AllocError> {
    match job_of(alloc, input) {
        Ok(mut job) => text_after(alloc, &mut job),
        Err(_) => Err(AllocError),
    }
}
