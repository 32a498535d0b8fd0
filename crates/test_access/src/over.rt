//! An access over one bench, of which calls are asked one after the other.
ghost use Rattle.std.specs.Prelude.{◌≡◌};
ghost use Rattle.access_calls.specs.Opening.{BenchIsIdle};

use access_calls::{Access, NotBegun, OverBench, Report, Stop, StopCause};
use bench_flights::{Flights, FlightsOver};
use packed_access::PackedAccess;
use probe_core::{Bench, Config, Limits};
use std::alloc::{AllocError, Global};
use std::mem;
use target_calls::{Asked, Slot};
use test_benches::put_log;
use test_words::{
    RowError, RowWords, call_of, is_sound, is_sound_call, put_bytes, put_call, unit_of,
};

// How accesses are begun.
const CONFIG: Config = Config {
    idle: 0,
    retry: 100,
};

/// An access over a bench; after it has handed the bench back, the bench; or why it did not begin.
#[derive(Drop)]
pub enum Over<B: Bench, F: Flights> {
    /// The access.
    Begun(PackedAccess<F>),
    /// The bench, as the access left it.
    Ended(B),
    /// What is written of the refusal.
    Refused(String),
}

// Writes the report of a stop: the cause and the unit, and how far the calls came.
pub fn put_report(text: &mut String, report: &Report) -> Result<(), AllocError> {
    let unit = report.unit;
    let attempted = report.attempted;
    let accesses = report.accesses;
    let confirmed = report.confirmed;
    text.push_str(match report.cause {
        StopCause::Faulted => "fault",
        StopCause::NoAnswer => "no answer",
    })?;
    write!(text, " at unit {unit}, ")?;
    put_call(text, &report.what)?;
    write!(
        text,
        ": attempted {attempted}, accesses {accesses}, confirmed {confirmed}"
    )
}

// Writes why nothing more is made.
pub fn put_stop(text: &mut String, stop: &Stop) -> Result<(), AllocError> {
    match stop {
        Stop::Cut(report) => put_report(text, report),
        Stop::BenchFault { issued, confirmed } => {
            write!(text, "bench fault, issued {issued}, confirmed {confirmed}")
        }
        Stop::ReplyBad => text.push_str("bad reply"),
        Stop::OutOfMemory => text.push_str("out of memory"),
    }
}

// Writes why an access did not begin, with its packet and its reply.
fn put_refusal<B>(text: &mut String, refusal: &NotBegun<B>) -> Result<(), AllocError> {
    text.push_str("refused, ")?;
    put_stop(text, &refusal.stop)?;
    let sent = usize::from(refusal.sent_length).min(1024);
    let got = usize::from(refusal.got_length).min(1024);
    if sent != 0 || got != 0 {
        text.push_str("; sent ")?;
        put_bytes(text, &refusal.sent[..sent])?;
        text.push_str("; got ")?;
        put_bytes(text, &refusal.got[..got])?;
    }
    Ok(())
}

/// Begins an access over a bench with these limits.
pub fn begin<B: Bench + Drop, F: FlightsOver<B> + Drop>(
    alloc: Global,
    bench: B,
    limits: Limits,
) -> Result<Over<B, F>, RowError>
    requires idle { BenchIsIdle (B.reported bench) }
    requires limits { limits ≡ (B.reported bench).limits }
{
    match PackedAccess::<F>::begin(alloc, bench, CONFIG, limits) {
        Ok(access) => Ok(Over::Begun(access)),
        Err(refusal) => {
            let mut text = String::new(alloc);
            put_refusal(&mut text, &refusal)?;
            Ok(Over::Refused(text))
        }
    }
}

// `UNIT`, `forgive UNIT`: the place of the result.
fn ask<F: Flights>(
    access: &mut PackedAccess<F>,
    forgive: bool,
    words: &mut RowWords<'_>,
    text: &mut String,
) -> Result<(), RowError> {
    let unit = unit_of(words)?;
    if !is_sound(&unit) || access.count() >= 10_000_000 {
        return Err(RowError::Unreadable);
    }
    match access.ask(unit, forgive) {
        Ok(Asked::Slot(slot)) => {
            let index = slot.index;
            write!(text, "slot {index}")?;
        }
        Ok(Asked::Small) => text.push_str("small")?,
        Err(stop) => put_stop(text, &stop)?,
    }
    Ok(())
}

// `command CALL`: its result.
fn command<F: Flights>(
    access: &mut PackedAccess<F>,
    words: &mut RowWords<'_>,
    text: &mut String,
) -> Result<(), RowError> {
    let call = call_of(words)?;
    if !is_sound_call(&call) || access.count() >= 10_000_000 {
        return Err(RowError::Unreadable);
    }
    put_value(text, access.command(call))
}

// Writes a result.
fn put_value(text: &mut String, answer: Result<u64, Stop>) -> Result<(), RowError> {
    match answer {
        Ok(value) => write!(text, "{value:#X}")?,
        Err(stop) => put_stop(text, &stop)?,
    }
    Ok(())
}

// Writes how a call ended that answers nothing.
fn put_end(text: &mut String, end: Result<(), Stop>) -> Result<(), RowError> {
    match end {
        Ok(()) => text.push_str("ok")?,
        Err(stop) => put_stop(text, &stop)?,
    }
    Ok(())
}

// `kept`: the packet and the reply at which the access ended.
fn put_kept<F: Flights>(text: &mut String, access: &PackedAccess<F>) -> Result<(), RowError> {
    text.push_str("sent ")?;
    put_bytes(text, access.sent())?;
    text.push_str("; got ")?;
    put_bytes(text, access.got())?;
    Ok(())
}

// One call of an access.
fn call<F: Flights>(
    access: &mut PackedAccess<F>,
    words: &mut RowWords<'_>,
    text: &mut String,
) -> Result<(), RowError> {
    let whole = *words;
    match words.word()? {
        "forgive" => ask(access, true, words, text),
        "command" => command(access, words, text),
        "value" => {
            let index = words.number32()?;
            put_value(text, access.value(Slot { index }))
        }
        "flush" => put_end(text, access.flush()),
        "finish" => put_end(text, access.finish()),
        "kept" => put_kept(text, access),
        _ => {
            *words = whole;
            ask(access, false, words, text)
        }
    }
}

impl<B: Bench + Drop, F: FlightsOver<B> + Drop> Over<B, F> {
    // The access hands the bench back.
    fn end(&mut self, alloc: Global) {
        *self = match mem::replace(self, Over::Refused(String::new(alloc))) {
            Over::Begun(access) => Over::Ended(access.into_bench()),
            other => other,
        };
    }

    /// One step. `show NUMBER COUNT` ends the access.
    pub fn step(&mut self, alloc: Global, input: &str) -> Result<String, RowError> {
        let mut words = RowWords::new(input);
        let mut text = String::new(alloc);
        if words.takes("show") {
            self.end(alloc);
        }
        match self {
            Over::Begun(access) => call(access, &mut words, &mut text)?,
            Over::Ended(bench) => put_log(bench, &mut words, &mut text)?,
            Over::Refused(refusal) => {
                words.word()?;
                text.push_str(refusal.as_str())?;
            }
        }
        words.end()?;
        Ok(text)
    }
}
