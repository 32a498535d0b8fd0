//! A whole scan.
ghost use Rattle.std.specs.Prelude.{◌≡◌, ◌+◌, ◌≤◌, ◌%◌, [], length};
ghost use Rattle.access_calls.specs.Asking.{MayAsk};
ghost use Rattle.rom_scan.specs.Arrivals.{AtFull};
ghost use Rattle.rom_scan.specs.Components.{is_no_base, page};
ghost use Rattle.rom_scan.specs.Frame.{EndsCounting, GivesWriting, MayScan};
ghost use Rattle.rom_scan.specs.Scans.{ScanComesTo, Scans};
ghost use Rattle.rom_scan.specs.Walk.{component, scanned_port};

use crate::asking::{ask_now, base_unit};
use crate::scan_end::ScanEnd;
use crate::tables::OpenTables;
use crate::walking::{arrive, walk};
use access_calls::Access;
use dap_base::{ItemList, Sink};
use std::alloc::Global;

// Whether the base of a table names no component.
fn is_no_base(base: u32) -> bool
    ensures { result ≡ is_no_base base }
{
    base == 0xFFFF_FFFF || base % 4 == 2 || base == 0
}

// The page of a base: its low 12 bits are 0.
fn page_of(base: u32) -> u32
    ensures page { result ≡ page base }
    ensures aligned { result % 4096 ≡ 0 }
{
    base / 4096 * 4096
}

// The root at an address, and all below it. Answers how many units were asked; at `Full` their number is added to `units`.
#[tactic(auto, using(access_calls::proofs::KeepLemmas::goes_trans))]
fn list_from<A: Access, K: Sink>(
    alloc: Global,
    ap: u8,
    address: u32,
    access: &mut A,
    sink: &mut K,
    units: &mut u32,
) -> Result<u32, ScanEnd>
    requires room { units.old ≤ 100 }
    requires page { address % 4096 ≡ 0 }
    requires may { MayAsk 1000001 (A.reported access.old) }
    ensures gives { GivesWriting A.begun A.reported K.written access.old access.new sink.old sink.new
        (λ w lines. ScanComesTo w lines (component 1024 ap 7 address []) result) }
    ensures full { AtFull result (length (A.reported access.new).asks.calls + units.old ≡ length (A.reported access.old).asks.calls + units.new) }
    ensures most { units.new ≤ units.old + 7000010 }
    ensures ends { EndsCounting 993280 A.begun A.reported A.identity K.written K.faults result access.old access.new sink.old sink.new }
{
    let mut tables = OpenTables::new();
    let mut listed = ItemList::new(alloc);
    let words = arrive(alloc, ap, address, &mut tables, &mut listed, access, sink)?;
    match walk(alloc, ap, &mut tables, &mut listed, access, sink, units) {
        Ok(more) => Ok(words + more),
        Err(end) => {
            *units += words;
            Err(end)
        }
    }
}

// A scan up to its last unit. Answers how many units were asked; at `Full` their number is added to `units`.
#[tactic(auto, using(access_calls::proofs::KeepLemmas::goes_trans))]
fn list_all<A: Access, K: Sink>(
    alloc: Global,
    ap: u8,
    access: &mut A,
    sink: &mut K,
    units: &mut u32,
) -> Result<u32, ScanEnd>
    requires may { MayScan units.old (A.reported access.old) }
    ensures gives { GivesWriting A.begun A.reported K.written access.old access.new sink.old sink.new (λ w lines. ScanComesTo w lines (scanned_port 1024 ap) result) }
    ensures full { AtFull result (length (A.reported access.new).asks.calls + units.old ≡ length (A.reported access.old).asks.calls + units.new) }
    ensures most { units.new ≤ units.old + 7000011 }
    ensures ends { EndsCounting 993281 A.begun A.reported A.identity K.written K.faults result access.old access.new sink.old sink.new }
{
    let base = match ask_now(base_unit(ap), access) {
        Ok(base) => base,
        Err(stop) => return Err(ScanEnd::Stop(stop)),
    };
    if is_no_base(base) {
        return Ok(1);
    }
    match list_from(alloc, ap, page_of(base), access, sink, units) {
        Ok(more) => Ok(1 + more),
        Err(end) => {
            *units += 1;
            Err(end)
        }
    }
}

/// Does what `scan` does, and counts the units also at `Full`, where the number of those that it asked is added to `units`. That is at
/// most 100 before, grows by at most 7,000,011, and is unspecified after `WriteFault` and `Stop`.
#[tactic(auto, using(access_calls::proofs::KeepLemmas::goes_trans))]
pub fn scan_counting<A: Access, K: Sink>(
    alloc: Global,
    ap: u8,
    access: &mut A,
    sink: &mut K,
    units: &mut u32,
) -> Result<u32, ScanEnd>
    requires may { MayScan units.old (A.reported access.old) }
    ensures gives { GivesWriting A.begun A.reported K.written access.old access.new sink.old sink.new (λ w lines. Scans w lines ap result) }
    ensures full { AtFull result (length (A.reported access.new).asks.calls + units.old ≡ length (A.reported access.old).asks.calls + units.new) }
    ensures most { units.new ≤ units.old + 7000011 }
    ensures ends { EndsCounting 993281 A.begun A.reported A.identity K.written K.faults result access.old access.new sink.old sink.new }
{
    match list_all(alloc, ap, access, sink, units) {
        Ok(units) => match access.finish() {
            Ok(()) => Ok(units),
            Err(stop) => Err(ScanEnd::Stop(stop)),
        },
        Err(ScanEnd::Full) => match access.finish() {
            Ok(()) => Err(ScanEnd::Full),
            Err(stop) => Err(ScanEnd::Stop(stop)),
        },
        Err(ScanEnd::WriteFault) => Err(ScanEnd::WriteFault),
        Err(ScanEnd::Stop(stop)) => Err(ScanEnd::Stop(stop)),
    }
}

/// Reads the base of an access port, and then the component there and all that its ROM tables name, down to depth 8. Writes a line for
/// each component. `ap` is the number of the access port. At most 1,000,000 calls may have been asked of the access before, and it has no
/// end yet.
///
/// Each unit is read alone, and forgives a fault: a word that cannot be read counts as 0. Answers the number of units that it asked, at
/// most 993,281. A `finish` is made after the last one, also at `Full`.
///
/// `Full` comes exactly where a component would be read after 1,024. `WriteFault` comes only where the sink failed; a part of the
/// lines was then written, and the access goes on. Else each line is written whole. `Stop` has the end of the access, or says that memory was refused.
pub fn scan<A: Access, K: Sink>(
    alloc: Global,
    ap: u8,
    access: &mut A,
    sink: &mut K,
) -> Result<u32, ScanEnd>
    requires may { MayAsk 1000000 (A.reported access.old) }
    ensures gives { GivesWriting A.begun A.reported K.written access.old access.new sink.old sink.new (λ w lines. Scans w lines ap result) }
    ensures ends { EndsCounting 993281 A.begun A.reported A.identity K.written K.faults result access.old access.new sink.old sink.new }
{
    let mut units = 0;
    scan_counting(alloc, ap, access, sink, &mut units)
}
