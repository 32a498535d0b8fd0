//! What an access keeps of its journal, and the numbers of a stop that follow from it.
ghost use Rattle.std.specs.Prelude.{◌≡◌, ◌<◌, ◌≤◌, ◌^◌, ℕ, List, IfSome, length, slice_get};
ghost use Rattle.target_calls.specs.Journal.{Entry, completes, is_skip};
ghost use Rattle.access_calls.specs.Issued.{AreKeptOf, attempted_by_kept, lines_before_kept, skipped_by_kept};
ghost use Rattle.access_calls.specs.Numbers.{HasNumbers, attempted_by};

use crate::{Report, StopCause};
use std::mem::size_of;
use target_calls::{Ask, Part};

/// What is kept of an entry of the journal, in at most 32 bytes.
#[derive(Clone, Copy, Debug, PartialEq, Eq)]
pub struct Issued {
    /// The number of its unit, from 1.
    pub unit: u32,
    /// What it is to its unit.
    pub part: Part,
}

const _: () = prove!(size_of::<Issued>() <= 32);

/// The report of a stop, with two numbers that are reported beside it.
#[derive(Clone, Copy, Debug, PartialEq, Eq)]
pub struct StopReport {
    pub report: Report,
    /// How many units were skipped.
    pub skipped: u32,
    /// How many units have their lines before the stop.
    pub lines: u32,
}

// How many units have their lines before an entry.
fn lines_before(entry: Issued) -> u32
    requires { 0 < entry.unit }
    ensures { result ≡ lines_before_kept entry }
{
    match entry.part {
        Part::Settles => entry.unit,
        Part::Leads | Part::Ends | Part::Skips { .. } => entry.unit - 1,
    }
}

// How many units were attempted, by the cause of the stop.
fn attempted_by(cause: StopCause, unit: u32, complete: u32) -> u32
    ensures { result ≡ attempted_by cause unit complete }
{
    match cause {
        StopCause::Faulted => unit,
        StopCause::NoAnswer => complete,
    }
}

fn completes(part: Part) -> bool
    ensures { result ≡ completes part }
{
    match part {
        Part::Settles | Part::Leads => false,
        Part::Ends => true,
        Part::Skips { attempted } => attempted,
    }
}

fn is_skip(part: Part) -> bool
    ensures { result ≡ is_skip part }
{
    matches!(part, Part::Skips { .. })
}

// How many units these entries complete.
fn count_attempted(entries: &[Issued]) -> u32
    requires { length entries.now < 2 ^ 32 }
    ensures { result ≡ attempted_by_kept entries.now }
{
    entries.iter().filter(|entry| completes(entry.part)).count() as u32
}

// How many units these entries skip.
fn count_skipped(entries: &[Issued]) -> u32
    requires { length entries.now < 2 ^ 32 }
    ensures { result ≡ skipped_by_kept entries.now }
{
    entries.iter().filter(|entry| is_skip(entry.part)).count() as u32
}

/// The numbers of a stop, of which these entries were issued for these calls: the first `accesses` of
/// them were performed, and the first `confirmed` are confirmed. The next entry after the confirmed
/// ones is there, and its unit is one of the calls.
#[tactic(auto, using(crate::proofs::IssuedLemmas::kept_numbers))]
pub fn stop_report(
    entries: &[Issued],
    calls: &[Ask],
    accesses: u32,
    confirmed: u32,
    cause: StopCause,
) -> StopReport
    requires few { length entries.now < 2 ^ 32 }
    requires performed { accesses ≤ length entries.now }
    requires named { confirmed < length entries.now }
    requires unit { IfSome (slice_get entries.now confirmed) (λ e. (0 < e.unit) × (e.unit ≤ length calls.now)) }
    ensures cause { result.report.cause ≡ cause }
    ensures accesses { result.report.accesses ≡ accesses }
    ensures confirmed { result.report.confirmed ≡ confirmed }
    ensures numbers { (all : List Entry) → AreKeptOf all entries.now → HasNumbers all calls.now result.skipped result.lines result.report }
{
    let next = entries[confirmed as usize];
    let performed = &entries[..accesses as usize];
    StopReport {
        report: Report {
            cause,
            unit: next.unit,
            what: calls[next.unit as usize - 1].call,
            attempted: attempted_by(cause, next.unit, count_attempted(performed)),
            accesses,
            confirmed,
        },
        skipped: count_skipped(performed),
        lines: lines_before(next),
    }
}
