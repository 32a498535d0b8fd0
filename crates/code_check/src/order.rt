//! Which of two faults comes first.
ghost use Rattle.std.specs.Prelude.{◌≡◌, Some};
ghost use Rattle.code_check.specs.Order as order;

use crate::fault::{CodeFault, FaultKind};

fn rank(kind: FaultKind) -> u8
    ensures { result ≡ order.rank kind }
{
    kind as u8
}

fn is_before(fault: CodeFault, other: CodeFault) -> bool
    ensures { result ≡ order.is_before fault other }
{
    fault.place.line < other.place.line
        || fault.place.line == other.place.line
            && (fault.place.column < other.place.column
                || fault.place.column == other.place.column && rank(fault.kind) < rank(other.kind))
}

/// Notes a fault, unless the one that was found comes first.
pub fn note(found: &mut Option<CodeFault>, fault: CodeFault)
    ensures { found.new ≡ order.earlier found.old (Some fault) }
{
    match found {
        Some(first) => {
            if is_before(fault, *first) {
                *first = fault;
            }
        }
        None => *found = Some(fault),
    }
}
