//! The lines of a comparison.
ghost use Rattle.std.specs.Prelude.{◌≡◌, ◌<◌, ◌++◌, IfOk, codes};
ghost use Rattle.trace_compare.specs.Texts.{alike_text, exchange_text, two_text, against, wrong_line, access_name, count_line};

use crate::exchange::Exchange;
use crate::traces::Two;
use dap_base::OutOfMemory;
use register_words::{register_at, with_register};
use std::alloc::Global;
use text_lines::Line;
use trace_events::PacketBytes;

// All exchanges are the same.
#[tactic(auto, unfolding(crate::specs::Texts::alike_text))]
fn alike_text(alloc: Global, number: u64) -> Result<PacketBytes, OutOfMemory>
    ensures { IfOk result (λ text. text ≡ alike_text number) }
{
    let line = Line::begin(alloc, "exchanges alike: ")?;
    let line = line.decimal(number)?.text("\n")?;
    PacketBytes::copy_of(alloc, line.as_bytes())
}

// A line with the number of an exchange, and its words.
#[tactic(auto, unfolding(crate::specs::Texts::exchange_text))]
fn text_of(alloc: Global, exchange: &Exchange, what: &str) -> Result<PacketBytes, OutOfMemory>
    ensures { IfOk result (λ text. text ≡ exchange_text exchange.now what.now) }
{
    let line = Line::begin(alloc, "exchange ")?;
    let line = line.decimal(exchange.number)?.text(what)?;
    let mut text = PacketBytes::copy_of(alloc, line.as_bytes())?;
    text.push(exchange.words.as_slice())?;
    Ok(text)
}

// Two exchanges that are not the same.
fn differ_text(
    alloc: Global,
    first: &Exchange,
    second: &Exchange,
) -> Result<PacketBytes, OutOfMemory>
    ensures { IfOk result (λ text. text ≡ exchange_text first.now (codes " differs\n") ++ codes "against\n" ++ second.now.words) }
{
    let mut text = text_of(alloc, first, " differs\n")?;
    text.push(b"against\n")?;
    text.push(second.words.as_slice())?;
    Ok(text)
}

/// The exchanges after so many that are the same.
pub fn two_text(alloc: Global, last: u64, two: &Two) -> Result<PacketBytes, OutOfMemory>
    ensures { IfOk result (λ text. text ≡ two_text last two.now.trace two.now.against) }
{
    match (&two.trace, &two.against) {
        (None, None) => alike_text(alloc, last),
        (Some(first), None) => text_of(alloc, first, " is in the trace alone\n"),
        (None, Some(second)) => text_of(alloc, second, " is in the file alone\n"),
        (Some(first), Some(second)) => differ_text(alloc, first, second),
    }
}

// The numbers of both.
#[tactic(auto, unfolding(crate::specs::Texts::against))]
fn with_both(line: Line, first: u64, second: u64) -> Result<Line, OutOfMemory>
    ensures { IfOk result (λ l. l ≡ line ++ against first second) }
{
    let line = line.add_labelled(" ", first)?;
    line.add_labelled(" against ", second)?.text("\n")
}

/// How many packets and replies are none, where there is any.
#[tactic(auto, unfolding(crate::specs::Texts::wrong_line))]
pub fn wrong_line(alloc: Global, first: u64, second: u64) -> Result<Line, OutOfMemory>
    ensures { IfOk result (λ l. l ≡ wrong_line first second) }
{
    if first == 0 && second == 0 {
        return Line::begin(alloc, "");
    }
    with_both(Line::begin(alloc, "no packet or reply")?, first, second)
}

fn access_name(place: u16) -> &'static str
    ensures { result.now ≡ access_name place }
{
    if place % 2 == 0 { " reads" } else { " writes" }
}

/// How many accesses there are of a place, where the numbers differ.
#[tactic(auto, unfolding(crate::specs::Texts::count_line))]
pub fn count_line(alloc: Global, place: u16, first: u64, second: u64) -> Result<Line, OutOfMemory>
    requires { place < 32800 }
    ensures { IfOk result (λ l. l ≡ count_line place first second) }
{
    let line = Line::begin(alloc, "")?;
    if first == second {
        return Ok(line);
    }
    let line = with_register(line, register_at(place / 2))?;
    with_both(line.text(access_name(place))?, first, second)
}
