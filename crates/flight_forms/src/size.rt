//! How large the requests of a list of accesses are, kept as the list grows.
ghost use Rattle.std.specs.Prelude.{◌≡◌, ◌<◌, ◌≤◌, ◌&&◌, ◌∷◌, ◌++◌, List, [], drop, is_some, length, take};
ghost use Rattle.target_machine.specs.declared.access.RegAccess.{RegAccess};
ghost use Rattle.target_machine.specs.Counts.{one_if};
ghost use Rattle.dap_transfer.specs.CommandEnds.{may_be_free};
ghost use Rattle.flight_forms.specs.Forms.{fits_block, fits_chain, form_of, parts_of, writes_drw};
ghost use Rattle.flight_forms.specs.Sizes.{IsSizeOf, has_part_more, size_with, tally_fits, tally_fits_guarded, with_access};

use crate::form::Form;
use crate::packing::{may_be_free, writes_ap};
use target_machine::RegAccess;

// Bits 3 and 2 of an address, which are both set in that of DRW.
const DRW: u8 = 0xC;

// How many requests there are, how many bytes they take, and how many of them are reads. Each number
// stays at its last value.
#[derive(Clone, Copy, Debug, PartialEq, Eq)]
struct Tally {
    requests: u32,
    bytes: u32,
    reads: u32,
}

/// What is kept of a list of accesses to say, in constant time, which form holds it, and whether one
/// still does with one access more.
#[derive(Clone, Copy, Debug, PartialEq, Eq)]
pub struct FlightSize {
    packet_size: u16,
    packet_count: u8,
    accesses: u32,
    // each access is a write of DRW
    all_write_drw: bool,
    // the last access is a write of an access port
    after_write: bool,
    // of the requests of one Transfer
    whole: Tally,
    // how many parts a chain has
    parts: u32,
    // of the requests of the accesses of the last part
    last: Tally,
}

// One where it is so.
fn one_if(is_so: bool) -> u32
    ensures { result ≡ one_if is_so }
{
    if is_so { 1 } else { 0 }
}

// Whether an access is a write of DRW.
fn writes_drw(access: RegAccess) -> bool
    ensures { result ≡ writes_drw access }
{
    access.ap && !access.read && access.addr & DRW == DRW
}

// Whether a check comes before an access, after a write of an access port or not.
fn is_checked(after_write: bool, next: RegAccess) -> bool
    ensures { result ≡ (after_write && may_be_free next) }
{
    after_write && may_be_free(next)
}

impl Tally {
    // The tally of no requests.
    const NONE: Tally = Tally {
        requests: 0,
        bytes: 0,
        reads: 0,
    };

    // With the request of one access more, a check before it or not.
    fn with_access(self, checked: bool, read: bool) -> Tally
        ensures { result ≡ with_access self checked read }
    {
        let check = one_if(checked);
        Tally {
            requests: self.requests.saturating_add(check + 1),
            bytes: self.bytes.saturating_add(check + if read { 1 } else { 5 }),
            reads: self.reads.saturating_add(check + one_if(read)),
        }
    }

    // Whether one Transfer of these requests fits a packet.
    fn fits(self, packet_size: u16) -> bool
        ensures { result ≡ tally_fits packet_size self }
    {
        let size = u64::from(packet_size);
        3 + u64::from(self.bytes) <= size
            && 3 + 4 * u64::from(self.reads) <= size
            && self.requests <= 255
    }

    // Whether a guarded Transfer of these requests does.
    fn fits_guarded(self, packet_size: u16) -> bool
        ensures { result ≡ tally_fits_guarded packet_size self }
    {
        u64::from(self.bytes) + 21 <= u64::from(packet_size)
            && self.reads <= u32::from(packet_size.saturating_sub(9) / 4)
            && self.requests <= 251
    }
}

impl FlightSize {
    /// The size of no accesses, for packets of at most so many bytes, and for a probe that takes so
    /// many packets before a reply is read.
    pub fn new(packet_size: u16, packet_count: u8) -> FlightSize
        ensures size { result.packet_size ≡ packet_size }
        ensures count { result.packet_count ≡ packet_count }
        ensures empty { IsSizeOf [] result }
    {
        FlightSize {
            packet_size,
            packet_count,
            accesses: 0,
            all_write_drw: true,
            after_write: false,
            whole: Tally::NONE,
            parts: 0,
            last: Tally::NONE,
        }
    }

    // What is kept with one access more.
    fn with_access(self, next: RegAccess) -> FlightSize
        ensures { result ≡ size_with self next }
    {
        let checked = is_checked(self.after_write, next);
        let more = self.last.with_access(checked, next.read);
        let (parts, last) = if self.parts > 0 && more.fits_guarded(self.packet_size) {
            (self.parts, more)
        } else {
            (
                self.parts.saturating_add(1),
                Tally::NONE.with_access(false, next.read),
            )
        };
        FlightSize {
            packet_size: self.packet_size,
            packet_count: self.packet_count,
            accesses: self.accesses.saturating_add(1),
            all_write_drw: self.all_write_drw && writes_drw(next),
            after_write: writes_ap(next),
            whole: self.whole.with_access(checked, next.read),
            parts,
            last,
        }
    }

    /// The size with one access more, where there are fewer than 65,535 before it.
    pub fn with(self, next: RegAccess) -> FlightSize
        ensures grows { (accesses : List RegAccess) → length accesses < 65_535 → IsSizeOf accesses self → IsSizeOf (accesses ++ next ∷ []) result }
        ensures same_size { result.packet_size ≡ self.packet_size }
        ensures same_count { result.packet_count ≡ self.packet_count }
    {
        self.with_access(next)
    }

    // Whether a block holds the accesses.
    fn fits_block(self) -> bool
        ensures { (accesses : List RegAccess) → IsSizeOf accesses self → result ≡ fits_block self.packet_size accesses }
    {
        self.accesses >= 2
            && self.all_write_drw
            && 5 + 4 * u64::from(self.accesses) <= u64::from(self.packet_size)
    }

    // Whether a chain holds the accesses.
    fn fits_chain(self) -> bool
        ensures { (accesses : List RegAccess) → IsSizeOf accesses self → result ≡ fits_chain self.packet_size self.packet_count accesses }
    {
        self.packet_count >= 2 && self.parts <= u32::from(self.packet_count)
    }

    // Whether a chain holds one part more, which is the most that one access more begins.
    fn has_part_more(self) -> bool
        ensures { result ≡ has_part_more self }
    {
        self.packet_count >= 2 && self.parts < u32::from(self.packet_count)
    }

    /// The first form that holds the accesses: a block, one Transfer, or a chain. `None` where none
    /// does.
    pub fn form(self) -> Option<Form>
        ensures { (accesses : List RegAccess) → IsSizeOf accesses self → result ≡ form_of self.packet_size self.packet_count accesses }
    {
        if self.fits_block() {
            Some(Form::Block)
        } else if self.whole.fits(self.packet_size) {
            Some(Form::Transfer)
        } else if self.fits_chain() {
            Some(Form::Chain)
        } else {
            None
        }
    }

    /// Whether some form holds the accesses with one more, where there are fewer than 65,535.
    pub fn room(self, next: RegAccess) -> bool
        ensures { (accesses : List RegAccess) → length accesses < 65_535 → IsSizeOf accesses self
            → result ≡ is_some (form_of self.packet_size self.packet_count (accesses ++ next ∷ [])) }
    {
        if self.has_part_more() {
            return true;
        }
        self.with(next).form().is_some()
    }
}

/// How many of the accesses are the first part of a chain of them: as many as one guarded Transfer
/// takes one after the other, and one at least.
pub fn first_part(packet_size: u16, accesses: &[RegAccess]) -> usize
    requires some { 1 ≤ length accesses.now }
    requires few { length accesses.now < 65_535 }
    ensures some { 1 ≤ result }
    ensures within { result ≤ length accesses.now }
    ensures part { parts_of packet_size accesses.now ≡ take result accesses.now ∷ parts_of packet_size (drop result accesses.now) }
{
    let mut tally = Tally::NONE.with_access(false, accesses[0].read);
    let mut after_write = writes_ap(accesses[0]);
    for index in 1..accesses.len() {
        let next = accesses[index];
        let more = tally.with_access(is_checked(after_write, next), next.read);
        if !more.fits_guarded(packet_size) {
            return index;
        }
        tally = more;
        after_write = writes_ap(next);
    }
    accesses.len()
}
