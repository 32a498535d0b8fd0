//! The walk through the tables that are open.
ghost use Rattle.std.specs.Prelude.{◌≡◌, ◌+◌, ◌≤◌, ◌%◌, ◌<◌, ◌∷◌, [], None, length, OnOk};
ghost use Rattle.std.specs.List.{All};
ghost use Rattle.access_calls.specs.Asking.{MayAsk, MayAskMore};
ghost use Rattle.rom_scan.specs.Arrivals.{AtFull, IsOpenTable, Walks, reads_left};
ghost use Rattle.rom_scan.specs.Components.{is_table, named_by};
ghost use Rattle.rom_scan.specs.Frame.{EndsCounting, GivesWriting};
ghost use Rattle.rom_scan.specs.Walk.{is_listed};
ghost use Rattle.rom_scan.specs.Tables.{tables_after, unwound, walk_from_component};

use crate::asking::{ask_now, word_unit};
use crate::component::Component;
use crate::lines::write_component;
use crate::reading::{read_component, words_of};
use crate::scan_end::ScanEnd;
use crate::tables::{OpenTables, Table};
use access_calls::{Access, Stop};
use dap_base::{ItemList, Sink};
use std::alloc::Global;
use text_lines::TextError;

// Whether a component has a table of others.
fn is_table(component: Component) -> bool
    ensures { result ≡ is_table component.known }
{
    match component.known {
        Some(known) => known.class == 1,
        None => false,
    }
}

// Opens the table of a component, if it has one and stands above depth 8.
fn open_table(component: Component, tables: &mut OpenTables)
    ensures { tables.new ≡ tables_after tables.old component }
{
    if is_table(component) && tables.len() < 7 {
        tables.push(Table {
            address: component.address,
            left: 960,
        });
    }
}

// Reads a component that is reached, and writes its line; then its table is open. Answers how many units were asked.
#[tactic(auto, using(access_calls::proofs::KeepLemmas::goes_trans, access_calls::proofs::KeepLemmas::goes_same))]
pub(crate) fn arrive<A: Access, K: Sink>(
    alloc: Global,
    ap: u8,
    address: u32,
    tables: &mut OpenTables,
    listed: &mut ItemList<Component>,
    access: &mut A,
    sink: &mut K,
) -> Result<u32, ScanEnd>
    requires page { address % 4096 ≡ 0 }
    requires deep { length tables.old ≤ 7 }
    requires may { MayAsk 8000000 (A.reported access.old) }
    ensures gives { GivesWriting A.begun A.reported K.written access.old access.new sink.old sink.new
        (λ w lines. Walks w lines ap (walk_from_component 1024 ap tables.old address listed.old) result tables.new listed.new) }
    ensures count { OnOk result (length (A.reported access.new).asks.calls + reads_left tables.new listed.new
        ≤ length (A.reported access.old).asks.calls + reads_left tables.old listed.old) }
    ensures open { OnOk result (All IsOpenTable tables.old → All IsOpenTable tables.new) }
    ensures deep { OnOk result (length tables.new ≤ 7) }
    ensures less { OnOk result (reads_left tables.new listed.new < reads_left tables.old listed.old) }
    ensures full { AtFull result (length (A.reported access.new).asks.calls ≡ length (A.reported access.old).asks.calls) }
    ensures ends { EndsCounting 9 A.begun A.reported A.identity K.written K.faults result access.old access.new sink.old sink.new }
{
    if listed.len() >= 1024 {
        return Err(ScanEnd::Full);
    }
    let component = match read_component(ap, address, 1 + tables.len() as u8, access) {
        Ok(component) => component,
        Err(stop) => return Err(ScanEnd::Stop(stop)),
    };
    match write_component(alloc, component, sink) {
        Ok(()) => {}
        Err(TextError::Failed) => return Err(ScanEnd::WriteFault),
        Err(TextError::OutOfMemory) => return Err(ScanEnd::Stop(Stop::OutOfMemory)),
    }
    match listed.push(component) {
        Ok(()) => {}
        Err(_) => return Err(ScanEnd::Stop(Stop::OutOfMemory)),
    }
    open_table(component, tables);
    Ok(words_of(component))
}

// The component that an entry of a table names.
fn named_by(table: u32, entry: u32) -> u32
    requires { table % 4096 ≡ 0 }
    ensures named { result ≡ named_by table entry }
    ensures page { result % 4096 ≡ 0 }
{
    table.wrapping_add(entry / 4096 * 4096)
}

// Whether a component was listed.
fn is_listed(address: u32, listed: &[Component]) -> bool
    ensures { result ≡ is_listed address listed.now }
{
    listed.iter().any(|component| component.address == address)
}

// The next entry of the innermost table, which has one. Answers how many units were asked.
#[tactic(auto, using(access_calls::proofs::KeepLemmas::goes_trans, access_calls::proofs::KeepLemmas::goes_same))]
fn step<A: Access, K: Sink>(
    alloc: Global,
    ap: u8,
    table: Table,
    tables: &mut OpenTables,
    listed: &mut ItemList<Component>,
    access: &mut A,
    sink: &mut K,
) -> Result<u32, ScanEnd>
    requires page { table.address % 4096 ≡ 0 }
    requires some { 1 ≤ table.left }
    requires left { table.left ≤ 960 }
    requires deep { length tables.old ≤ 6 }
    requires may { MayAsk 7000000 (A.reported access.old) }
    ensures gives { GivesWriting A.begun A.reported K.written access.old access.new sink.old sink.new
        (λ w lines. Walks w lines ap (unwound 1024 ap (table ∷ tables.old) listed.old) result tables.new listed.new) }
    ensures count { OnOk result (length (A.reported access.new).asks.calls + reads_left tables.new listed.new
        ≤ length (A.reported access.old).asks.calls + reads_left (table ∷ tables.old) listed.old) }
    ensures less { OnOk result (reads_left tables.new listed.new < reads_left (table ∷ tables.old) listed.old) }
    ensures open { OnOk result (All IsOpenTable tables.old → All IsOpenTable tables.new) }
    ensures deep { OnOk result (length tables.new ≤ 7) }
    ensures full { AtFull result (length (A.reported access.new).asks.calls ≡ length (A.reported access.old).asks.calls + 1) }
    ensures ends { EndsCounting 10 A.begun A.reported A.identity K.written K.faults result access.old access.new sink.old sink.new }
{
    let place = table.address + 4 * (960 - table.left) as u32;
    let entry = match ask_now(word_unit(ap, place), access) {
        Ok(entry) => entry,
        Err(stop) => return Err(ScanEnd::Stop(stop)),
    };
    if entry == 0 {
        return Ok(1);
    }
    tables.push(Table {
        address: table.address,
        left: table.left - 1,
    });
    if entry % 2 == 0 {
        return Ok(1);
    }
    let address = named_by(table.address, entry);
    if is_listed(address, listed.as_slice()) {
        return Ok(1);
    }
    let words = arrive(alloc, ap, address, tables, listed, access, sink)?;
    Ok(1 + words)
}

// All that is left of open tables. Answers how many units were asked; at `Full` their number is added to `units`.
#[tactic(auto, using(access_calls::proofs::KeepLemmas::goes_trans, access_calls::proofs::KeepLemmas::goes_same))]
pub(crate) fn walk<A: Access, K: Sink>(
    alloc: Global,
    ap: u8,
    tables: &mut OpenTables,
    listed: &mut ItemList<Component>,
    access: &mut A,
    sink: &mut K,
    units: &mut u32,
) -> Result<u32, ScanEnd>
    requires room { units.old ≤ 1000 }
    requires tables { All IsOpenTable tables.old }
    requires deep { length tables.old ≤ 7 }
    requires may { MayAskMore (reads_left tables.old listed.old) 7000000 (A.reported access.old) }
    ensures gives { GivesWriting A.begun A.reported K.written access.old access.new sink.old sink.new
        (λ w lines. Walks w lines ap (unwound 1024 ap tables.old listed.old) result tables.new listed.new) }
    ensures none { OnOk result (tables.new ≡ []) }
    ensures count { OnOk result (length (A.reported access.new).asks.calls ≤ length (A.reported access.old).asks.calls + reads_left tables.old listed.old) }
    ensures full { AtFull result (length (A.reported access.new).asks.calls + units.old ≡ length (A.reported access.old).asks.calls + units.new) }
    ensures most { units.new ≤ units.old + 7000001 }
    ensures ends { EndsCounting 7000000 A.begun A.reported A.identity K.written K.faults result access.old access.new sink.old sink.new }
{
    let mut asked = 0;
    'tables: loop {
        let table = match tables.pop() {
            Some(table) => table,
            None => return Ok(asked),
        };
        if table.left > 0 {
            match step(alloc, ap, table, tables, listed, access, sink) {
                Ok(more) => asked += more,
                Err(end) => {
                    // The entry that names one component too many was read.
                    *units += asked + 1;
                    return Err(end);
                }
            }
        }
    }
}
