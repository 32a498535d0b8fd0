//! The requests and the forms of lists of accesses.
ghost use Rattle.std.specs.Prelude.{◌≤◌, length};

use dap_messages::Request;
use flight_forms::{FlightSize, first_part, put_guarded_requests, put_requests};
use std::alloc::Global;
use target_machine::RegAccess;
use test_words::{RowError, RowWords, Trial, access_of, accesses_of};

// The most accesses of a row of requests.
const MOST: usize = 30;

const NONE: Request = Request {
    byte: 0xFF,
    word: 0,
};

// Writes the requests of accesses.
#[tactic(auto, using(flight_forms::proofs::RequestSizes::requests_most))]
fn put_plain(text: &mut String, accesses: &[RegAccess]) -> Result<(), RowError>
    requires few { length accesses.now ≤ 30 }
{
    let mut buffer = [NONE; 50];
    let count = put_requests(accesses, &mut buffer);
    if count == 0 {
        text.push_str("none")?;
    }
    test_benches::put_requests(text, &buffer[..count])?;
    Ok(())
}

// Writes the requests of accesses in a guarded command.
#[tactic(auto, using(flight_forms::proofs::RequestSizes::requests_most, flight_forms::proofs::Fits::guarded_most))]
fn put_guarded(text: &mut String, accesses: &[RegAccess]) -> Result<(), RowError>
    requires few { length accesses.now ≤ 30 }
{
    let mut buffer = [NONE; 50];
    let count = put_guarded_requests(accesses, &mut buffer);
    test_benches::put_requests(text, &buffer[..count])?;
    Ok(())
}

/// Accesses, and their requests; in the form `guarded` those of a guarded command.
#[derive(Drop)]
pub struct RequestLists {
    guarded: bool,
}

impl Trial for RequestLists {
    fn begin(_alloc: Global, form: &str) -> Result<RequestLists, RowError> {
        Ok(RequestLists {
            guarded: form == "guarded",
        })
    }

    fn answer(&mut self, alloc: Global, input: &str) -> Result<String, RowError> {
        let accesses = accesses_of(alloc, input)?;
        if accesses.len() > MOST {
            return Err(RowError::Unreadable);
        }
        let mut text = String::new(alloc);
        if self.guarded {
            put_guarded(&mut text, accesses.as_slice())?;
        } else {
            put_plain(&mut text, accesses.as_slice())?;
        }
        Ok(text)
    }
}

// The sizes of packets and how many a probe takes: `64 4`.
fn limits_of(form: &str) -> Result<(u16, u8), RowError> {
    let mut words = RowWords::new(form);
    let limits = (words.number16()?, words.number8()?);
    words.end()?;
    Ok(limits)
}

/// Accesses, and how many are in each part of a chain of them. The form is the packet size.
#[derive(Drop)]
pub struct Parts {
    packet_size: u16,
}

impl Trial for Parts {
    fn begin(_alloc: Global, form: &str) -> Result<Parts, RowError> {
        let packet_size = RowWords::new(form).number16()?;
        Ok(Parts { packet_size })
    }

    fn answer(&mut self, alloc: Global, input: &str) -> Result<String, RowError> {
        let accesses = accesses_of(alloc, input)?;
        let mut text = String::new(alloc);
        let mut rest = accesses.as_slice();
        for index in 0..accesses.len() {
            if rest.is_empty() || rest.len() > 60_000 {
                return Ok(text);
            }
            let part = first_part(self.packet_size, rest);
            rest = &rest[part..];
            text.push_str(if index == 0 { "" } else { ", " })?;
            write!(text, "{part}")?;
        }
        Ok(text)
    }
}

// How many accesses are held, of two kinds by turns.
fn count_held(packet_size: u16, packet_count: u8, even: RegAccess, odd: RegAccess) -> u32 {
    let mut size = FlightSize::new(packet_size, packet_count);
    for count in 0..20_000 {
        let next = if count % 2 == 0 { even } else { odd };
        if !size.room(next) {
            return count;
        }
        size = size.with(next);
    }
    20_000
}

/// Two accesses by turns, and how many of them a flight holds. The form is the packet size and the packet count.
#[derive(Drop)]
pub struct HeldAccesses {
    packet_size: u16,
    packet_count: u8,
}

impl Trial for HeldAccesses {
    fn begin(_alloc: Global, form: &str) -> Result<HeldAccesses, RowError> {
        let (packet_size, packet_count) = limits_of(form)?;
        Ok(HeldAccesses {
            packet_size,
            packet_count,
        })
    }

    fn answer(&mut self, alloc: Global, input: &str) -> Result<String, RowError> {
        let (even, odd) = input.split_once(";").unwrap_or((input, input));
        let even = access_of(&mut RowWords::new(even))?;
        let odd = access_of(&mut RowWords::new(odd))?;
        let most = count_held(self.packet_size, self.packet_count, even, odd);
        Ok(format!(in alloc; "{most}")?)
    }
}

/// Accesses, and the first form that holds them. The form of the table is the packet size and the packet count.
#[derive(Drop)]
pub struct FirstForms {
    packet_size: u16,
    packet_count: u8,
}

impl Trial for FirstForms {
    fn begin(_alloc: Global, form: &str) -> Result<FirstForms, RowError> {
        let (packet_size, packet_count) = limits_of(form)?;
        Ok(FirstForms {
            packet_size,
            packet_count,
        })
    }

    fn answer(&mut self, alloc: Global, input: &str) -> Result<String, RowError> {
        let accesses = accesses_of(alloc, input)?;
        let mut size = FlightSize::new(self.packet_size, self.packet_count);
        for access in accesses.as_slice() {
            size = size.with(*access);
        }
        let mut text = String::new(alloc);
        match size.form() {
            Some(form) => write!(text, "{form:?}")?,
            None => text.push_str("none")?,
        }
        Ok(text)
    }
}
