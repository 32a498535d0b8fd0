//! The requests of accesses.
ghost use Rattle.std.specs.Prelude.{◌≡◌, ◌+◌, ◌≤◌, ◌++◌, false, length, take};
ghost use Rattle.dap_transfer.specs.CommandEnds.{may_be_free, writes_ap};
ghost use Rattle.flight_forms.specs.Packing.{check, guarded_requests, payload, request_of, requests_for, write_at_end};

use dap_messages::Request;
use target_machine::RegAccess;

// The address of RDBUFF.
const RDBUFF: u8 = 0xC;

// A read of RDBUFF: where it ends well the write before it was good.
fn check() -> Request
    ensures { result ≡ check }
{
    Request::read(false, RDBUFF)
}

// The request that asks for an access.
fn request_of(access: RegAccess) -> Request
    ensures { result ≡ request_of access }
{
    if access.read {
        Request::read(access.ap, access.addr)
    } else {
        Request::write(access.ap, access.addr, access.value)
    }
}

// Whether an access may act while STICKYERR is set: a read of DPIDR or CTRL/STAT, a write of ABORT.
pub(crate) fn may_be_free(access: RegAccess) -> bool
    ensures { result ≡ may_be_free access }
{
    !access.ap
        && if access.read {
            access.addr == 0x0 || access.addr == 0x4
        } else {
            access.addr == 0x0
        }
}

// Whether an access is a write of an access port.
pub(crate) fn writes_ap(access: RegAccess) -> bool
    ensures { result ≡ writes_ap access }
{
    access.ap && !access.read
}

/// Puts the requests of accesses at the front of a buffer, with the checks between them. Answers how many they are: one for each access,
/// and one for each check. The rest of the buffer has any requests.
pub fn put_requests(accesses: &[RegAccess], requests: &mut [Request]) -> usize
    requires { length (requests_for false accesses.now) ≤ length requests.old }
    ensures count { result ≡ length (requests_for false accesses.now) }
    ensures front { take result requests.new ≡ requests_for false accesses.now }
{
    let mut end = 0;
    let mut after_write = false;
    for access in accesses {
        if after_write && may_be_free(*access) {
            requests[end] = check();
            end += 1;
        }
        requests[end] = request_of(*access);
        end += 1;
        after_write = writes_ap(*access);
    }
    end
}

// Whether the last of the accesses is a write.
fn ends_in_write(accesses: &[RegAccess]) -> bool
    ensures { result ≡ write_at_end false accesses.now }
{
    accesses.last().is_some_and(|access| !access.read)
}

// Puts the requests of accesses at the front of a buffer, and a check of a last write after them.
fn put_payload(accesses: &[RegAccess], requests: &mut [Request]) -> usize
    requires { length (payload accesses.now) ≤ length requests.old }
    ensures count { result ≡ length (payload accesses.now) }
    ensures front { take result requests.new ≡ payload accesses.now }
{
    let end = put_requests(accesses, requests);
    if ends_in_write(accesses) {
        requests[end] = check();
        end + 1
    } else {
        end
    }
}

/// Puts the requests of the guarded Transfer of accesses at the front of a buffer, and answers how
/// many they are. The rest of the buffer has any requests.
pub fn put_guarded_requests(accesses: &[RegAccess], requests: &mut [Request]) -> usize
    requires { length (guarded_requests accesses.now) ≤ length requests.old }
    ensures count { result ≡ length (guarded_requests accesses.now) }
    ensures front { take result requests.new ≡ guarded_requests accesses.now }
{
    requests[0] = Request::value_match(false, 0x0, 0);
    requests[1] = Request::match_mask(1);
    let end = 2 + put_payload(accesses, &mut requests[2..]);
    requests[end] = Request::match_mask(0);
    end + 1
}
