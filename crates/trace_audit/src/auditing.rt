//! The audit of a trace.
ghost use Rattle.std.specs.Prelude.{◌≡◌, ◌↔◌, ◌^◌, ◌<◌, ◌≤◌, IfErr, IfOk, IsTrue, None, OnOk, Some, count_by, length, not, slice_get};
ghost use Rattle.probe_core.specs.Packet.{probe_after_packet};
ghost use Rattle.probe_core.specs.Probe.{ProbeState, fresh_probe, refusal_of};
ghost use Rattle.probe_core.specs.Ranges.{IsBenchJob};
ghost use Rattle.probe_core.specs.Runs.{IsRun, without_oldest};
ghost use Rattle.trace_audit.specs.Audits.{Accepts, Audits, Comes, IsFault, IsWrong, IsWrongPacket, IsWrongReply, entries_of, entry_of, fault_at};

use crate::entry::{Entries, Entry};
use dap_base::OutOfMemory;
use probe_core::{BenchJob, Probe, ProbeRefusal};
use std::alloc::Global;

// The most bytes of a reply.
const MOST: usize = 1024;

/// What a trace comes to that is a run of the probe of a job.
#[derive(Drop)]
pub struct Audited {
    /// The probe after the last entry.
    pub probe: Probe,
    /// How many entries are packets.
    pub packets: u32,
    /// How many entries are replies.
    pub replies: u32,
}

/// Why a trace is no run of the probe of a job: the first entry that cannot come, by its number from 0.
#[derive(Clone, Copy, Debug, PartialEq, Eq)]
pub enum AuditFault {
    /// The probe does not take the packet.
    Refused(u32, ProbeRefusal),
    /// No reply waits.
    NoReply(u32),
    /// The reply that waits has other bytes.
    WrongReply(u32),
    /// Memory was refused.
    OutOfMemory,
}

impl From<OutOfMemory> for AuditFault {
    ghost use Rattle.std.specs.Prelude.{◌≡◌};
    ghost use Rattle.trace_audit.specs.declared.auditing.AuditFault.TheVariants as faults;

    ghost from_gives = { λ _ e. e ≡ faults.OutOfMemory };

    fn from(_refused: OutOfMemory) -> AuditFault {
        AuditFault::OutOfMemory
    }
}

// Why an entry cannot come next.
#[derive(Clone, Copy, Debug, PartialEq, Eq)]
pub enum Wrong {
    Refused(ProbeRefusal),
    NoReply,
    OtherReply,
}

// The fault of the entry of this number.
fn fault_at(number: u32, wrong: Wrong) -> AuditFault
    ensures { result ≡ fault_at number wrong }
{
    match wrong {
        Wrong::Refused(refusal) => AuditFault::Refused(number, refusal),
        Wrong::NoReply => AuditFault::NoReply(number),
        Wrong::OtherReply => AuditFault::WrongReply(number),
    }
}

// Whether both have the same bytes.
fn is_same(a: &[u8], b: &[u8]) -> bool
    ensures { IsTrue result ↔ (a.now ≡ b.now) }
{
    a == b
}

// The probe takes the packet.
fn send(probe: &mut Probe, packet: &[u8]) -> Result<(), Wrong>
    ensures ok { OnOk result ((refusal_of probe.old packet.now ≡ None) × (probe.new ≡ probe_after_packet probe.old packet.now)) }
    ensures wrong { IfErr result (IsWrongPacket probe.old packet.now) }
    ensures limits { probe.new.executor.limits ≡ probe.old.executor.limits }
{
    match probe.accept(packet) {
        Ok(()) => Ok(()),
        Err(refusal) => Err(Wrong::Refused(refusal)),
    }
}

// The probe hands out the oldest reply that waits, and it has these bytes.
fn receive(probe: &mut Probe, reply: &[u8]) -> Result<(), Wrong>
    requires { probe.old.executor.limits.packet_size ≤ 1024 }
    ensures ok { OnOk result ((slice_get probe.old.waiting 0 ≡ Some reply.now) × (probe.new ≡ without_oldest probe.old)) }
    ensures wrong { IfErr result (IsWrongReply probe.old reply.now) }
    ensures limits { probe.new.executor.limits ≡ probe.old.executor.limits }
{
    let mut out = [0u8; MOST];
    let Some(len) = probe.reply(&mut out) else {
        return Err(Wrong::NoReply);
    };
    if !is_same(&out[..len], reply) {
        return Err(Wrong::OtherReply);
    }
    Ok(())
}

// The entry comes next.
fn exchange(probe: &mut Probe, entry: &Entry) -> Result<(), Wrong>
    requires { probe.old.executor.limits.packet_size ≤ 1024 }
    ensures ok { OnOk result (Comes probe.old (entry_of entry.now) probe.new) }
    ensures wrong { IfErr result (IsWrong probe.old (entry_of entry.now)) }
    ensures limits { probe.new.executor.limits ≡ probe.old.executor.limits }
{
    match entry {
        Entry::Sent(packet) => send(probe, packet.as_slice()),
        Entry::Replied(reply) => receive(probe, reply.as_slice()),
    }
}

// The probe after all entries, or the first entry that cannot come.
fn exchange_all(alloc: Global, job: &BenchJob, entries: &[Entry]) -> Result<Probe, AuditFault>
    requires ranges { IsBenchJob job.now }
    requires few { length entries.now < 2 ^ 32 }
    ensures ok { IfOk result (IsRun (fresh_probe job.now) (entries_of entries.now)) }
    ensures wrong { IfErr result (IsFault (fresh_probe job.now) (entries_of entries.now)) }
{
    let mut probe = Probe::new(alloc, job)?;
    for (number, entry) in entries.iter().enumerate() {
        match exchange(&mut probe, entry) {
            Ok(()) => {}
            Err(wrong) => return Err(fault_at(number as u32, wrong)),
        }
    }
    Ok(probe)
}

// Whether the entry is a reply.
fn is_reply(entry: &Entry) -> bool
    ensures { result ≡ (entry_of entry.now).is_reply }
{
    matches!(entry, Entry::Replied(_))
}

// How many entries are replies.
fn count_replies(entries: &[Entry]) -> usize
    ensures { result ≡ count_by (λ e. (entry_of e).is_reply) entries.now }
{
    entries.iter().filter(|entry| is_reply(entry)).count()
}

fn answer_of(alloc: Global, job: &BenchJob, entries: &[Entry]) -> Result<Audited, AuditFault>
    requires ranges { IsBenchJob job.now }
    requires few { length entries.now < 2 ^ 32 }
    ensures { Audits (fresh_probe job.now) (entries_of entries.now) result }
{
    let probe = exchange_all(alloc, job, entries)?;
    let replies = count_replies(entries);
    Ok(Audited {
        probe,
        packets: (entries.len() - replies) as u32,
        replies: replies as u32,
    })
}

/// Runs the packets of a trace on the probe of a job at its start, and compares each reply.
///
/// `Ok` exactly where the entries are a run of that probe, with the probe after the last one. Else the first entry that cannot come:
/// `Refused` exactly where the probe does not take the packet there, `NoReply` exactly where no reply waits there, `WrongReply`
/// exactly where the reply that waits has other bytes. `OutOfMemory` where memory is refused.
pub fn audit(alloc: Global, job: &BenchJob, entries: &Entries) -> Result<Audited, AuditFault>
    requires ranges { IsBenchJob job.now }
    requires few { length entries.now < 2 ^ 32 }
    // The probe after the entries with their numbers, or the first entry that cannot come.
    ensures answer { Audits (fresh_probe job.now) (entries_of entries.now) result }
    // Entries that are a run are accepted, unless memory is refused.
    ensures only { (last : ProbeState) → IsRun (fresh_probe job.now) (entries_of entries.now) last → Accepts last result }
{
    answer_of(alloc, job, entries.as_slice())
}
