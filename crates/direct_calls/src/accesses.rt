//! Register accesses, made one after the other.
ghost use Rattle.std.specs.Prelude.{◌≡◌, map};
ghost use Rattle.target_machine.specs.Plain.{Makes, in_order, is_fault, then_acted};

use target_machine::{Outcome, RegAccess, Target, attempt};

// The access faulted.
pub(crate) fn has_faulted(outcome: Outcome) -> bool
    ensures { result ≡ is_fault outcome }
{
    match outcome {
        Outcome::Fault => true,
        Outcome::Value(_) | Outcome::Done => false,
    }
}

// Makes an access after another one, whose answer this is, unless that one faulted: what the last one answered.
pub(crate) fn make_next(target: &mut Target, last: Outcome, access: RegAccess) -> Outcome
    ensures { record { outcome = result; next = target.new } ≡ then_acted (record { outcome = last; next = target.old }) (Makes access) }
{
    if has_faulted(last) {
        last
    } else {
        attempt(target, access)
    }
}

// Makes accesses in order, up to one that faults: what the last one answered.
pub(crate) fn make_all(target: &mut Target, accesses: &[RegAccess]) -> Outcome
    ensures { record { outcome = result; next = target.new } ≡ in_order target.old (map Makes accesses.now) }
{
    let mut last = Outcome::Done;
    for access in accesses {
        last = attempt(target, *access);
        if has_faulted(last) {
            return last;
        }
    }
    last
}
