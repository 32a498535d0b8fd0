//! What is kept of the entries that are confirmed, and the numbers of a stop by it.
ghost use Rattle.std.specs.Prelude.{◌≡◌, ◌<◌, ◌≤◌, ◌+◌, ◌-◌, ◌++◌, ◌^◌, [], List, IfSome, Some, length, option_map, slice_get};
ghost use Rattle.target_calls.specs.Journal.{Entry, completes, is_skip};
ghost use Rattle.target_calls.specs.declared.calls.Ask.{Ask};
ghost use Rattle.access_calls.specs.Issued.{AreKeptOf, attempted_by_kept, lines_before_kept, skipped_by_kept};
ghost use Rattle.access_calls.specs.Numbers.{HasNumbers, attempted_by};
ghost use Rattle.access_calls.specs.declared.issued.Issued.{Issued};
ghost use Rattle.packed_access.specs.Counted.{AreFew, CountsConfirmed};

use access_calls::{Issued, Report, StopCause, StopReport};
use batch_packer::Cut;
use target_calls::Part;
use target_machine::Call;

/// What is kept of the first entries of a journal once they are confirmed: how many they are, how many units they complete, and how
/// many they skip.
#[derive(Drop)]
pub(crate) struct Confirmed {
    pub(crate) entries: u32,
    pub(crate) attempted: u32,
    pub(crate) skipped: u32,
}

fn completes(part: Part) -> bool
    ensures { result ≡ completes part }
{
    match part {
        Part::Settles | Part::Leads => false,
        Part::Ends => true,
        Part::Skips { attempted } => attempted,
    }
}

fn is_skip(part: Part) -> bool
    ensures { result ≡ is_skip part }
{
    matches!(part, Part::Skips { .. })
}

// How many units these entries complete.
#[tactic(auto, using(crate::proofs::CountedLemmas::kept_few))]
fn count_attempted(entries: &[Issued]) -> u32
    requires { length entries.now < 2 ^ 32 }
    ensures answer { result ≡ attempted_by_kept entries.now }
    ensures few { result ≤ length entries.now }
{
    entries.iter().filter(|entry| completes(entry.part)).count() as u32
}

// How many units these entries skip.
#[tactic(auto, using(crate::proofs::CountedLemmas::kept_few))]
fn count_skipped(entries: &[Issued]) -> u32
    requires { length entries.now < 2 ^ 32 }
    ensures answer { result ≡ skipped_by_kept entries.now }
    ensures few { result ≤ length entries.now }
{
    entries.iter().filter(|entry| is_skip(entry.part)).count() as u32
}

// How many units were attempted, by the cause of the stop.
fn attempted_by(cause: StopCause, unit: u32, complete: u32) -> u32
    ensures { result ≡ attempted_by cause unit complete }
{
    match cause {
        StopCause::Faulted => unit,
        StopCause::NoAnswer => complete,
    }
}

// How many units have their lines before an entry.
fn lines_before(entry: Issued) -> u32
    requires { 0 < entry.unit }
    ensures { result ≡ lines_before_kept entry }
{
    match entry.part {
        Part::Settles => entry.unit,
        Part::Leads | Part::Ends | Part::Skips { .. } => entry.unit - 1,
    }
}

impl Confirmed {
    // No entries.
    pub(crate) fn new() -> Confirmed
        ensures { CountsConfirmed result [] }
    {
        Confirmed {
            entries: 0,
            attempted: 0,
            skipped: 0,
        }
    }

    // The next entries are confirmed too.
    #[tactic(auto, using(crate::proofs::CountedLemmas::counted_more))]
    pub(crate) fn add(&mut self, entries: &[Issued])
        requires few { self.old.entries + length entries.now < 2 ^ 32 }
        requires counts { AreFew self.old }
        ensures { (first : List Issued) → CountsConfirmed self.old first → CountsConfirmed self.new (first ++ entries.now) }
    {
        self.entries += entries.len() as u32;
        self.attempted += count_attempted(entries);
        self.skipped += count_skipped(entries);
    }

    // The numbers of a cut of the entries that were issued after these. The next entry after the confirmed ones is there, and its unit
    // asked `what`.
    #[tactic(auto, using(crate::proofs::CountedLemmas::kept_after))]
    pub(crate) fn stop_report(
        &self,
        entries: &[Issued],
        what: Call,
        cut: Cut,
        cause: StopCause,
    ) -> StopReport
        requires few { self.now.entries + length entries.now < 2 ^ 32 }
        requires counts { AreFew self.now }
        requires performed { cut.performed ≤ length entries.now }
        requires named { cut.confirmed < length entries.now }
        requires unit { IfSome (slice_get entries.now cut.confirmed) (λ e. 0 < e.unit) }
        ensures cause { result.report.cause ≡ cause }
        ensures accesses { result.report.accesses ≡ self.now.entries + cut.performed }
        ensures confirmed { result.report.confirmed ≡ self.now.entries + cut.confirmed }
        ensures numbers { (first : List Issued) (all : List Entry) (calls : List Ask) → CountsConfirmed self.now first → AreKeptOf all (first ++ entries.now)
            → IfSome (slice_get entries.now cut.confirmed) (λ e. option_map (λ ask. ask.call) (slice_get calls (e.unit - 1)) ≡ Some what)
            → HasNumbers all calls result.skipped result.lines result.report }
    {
        let next = entries[cut.confirmed as usize];
        let made = &entries[..cut.performed as usize];
        StopReport {
            report: Report {
                cause,
                unit: next.unit,
                what,
                attempted: attempted_by(cause, next.unit, self.attempted + count_attempted(made)),
                accesses: self.entries + cut.performed,
                confirmed: self.entries + cut.confirmed,
            },
            skipped: self.skipped + count_skipped(made),
            lines: lines_before(next),
        }
    }
}
