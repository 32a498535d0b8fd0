//! What distinguishes faults, as a key of a map.
ghost use Rattle.std.specs.Prelude.{◌≡◌, option_map};
ghost use Rattle.pack_faults.specs.Keys.{key_view, found_view};
ghost use Rattle.code_check.specs.Order.{rank};

use code_check::FaultKind;
use set_faults::Fault;
use set_lines::{name_of, part_number};

/// A fault and its line, lent: two keys are equal exactly where the faults are the same. The numbers come first, so that few texts are
/// compared.
#[derive(PartialEq, Eq, PartialOrd, Ord, Drop)]
pub struct FoundKey<'k> {
    kind: u8,
    line: u64,
    column: u64,
    part: u8,
    sequence: Option<&'k str>,
    path: &'k [u64],
    text: Option<&'k str>,
}

fn rank(kind: FaultKind) -> u8
    ensures { result ≡ rank kind }
{
    kind as u8
}

/// The key of a fault in this line.
pub fn key_of<'k>(fault: &'k Fault, line: Option<&'k str>) -> FoundKey<'k>
    ensures { key_view result ≡ found_view (record { fault = fault.now; line = option_map (λ w. w.now) line.entry }) }
{
    FoundKey {
        kind: rank(fault.kind),
        line: fault.spot.place.line,
        column: fault.spot.place.column,
        part: part_number(fault.spot.part),
        sequence: name_of(&fault.spot.sequence),
        path: fault.spot.path.as_slice(),
        text: line,
    }
}
