//! The lines of a target: each part is shown directly before its line is put.
#![tactic(auto, using(crate::proofs::FrameLemmas::frames))]

ghost use Rattle.std.specs.Prelude.{◌≡◌, ◌+◌, ◌*◌, ◌^◌, ◌≤◌, ◌==◌, [], unwrap_or, IfOk};
ghost use Rattle.std.specs.List.{All, list_any};
ghost use Rattle.report_lines.specs.Frame.{PutsTarget};
ghost use Rattle.report_lines.specs.Target.{IsLow, listed_port_line, outside_lines, part_line, port_lines, ports_on, shown_line, target_lines, watch_lines, word_lines};

use crate::lines::{ap_text, dp_text, lines_text, word_text};
use crate::put::{TextEnd, put};
use crate::views::ShowsTarget;
use dap_base::{OutOfMemory, Sink};
use job_text::WatchItem;
use std::alloc::Global;
use target_machine::{ApJob, ImageAsk, ImagePart};
use text_lines::Line;

// The line of a part of the target, if it has one.
fn part_text(alloc: Global, ask: ImageAsk, part: &ImagePart) -> Result<Option<Line>, OutOfMemory>
    ensures { IfOk result (λ line. unwrap_or line [] ≡ part_line ask part.now) }
{
    match (ask, part) {
        (ImageAsk::Dp, ImagePart::Dp(image)) => Ok(Some(dp_text(alloc, image)?)),
        (ImageAsk::Ap(ap), ImagePart::Ap(image)) => Ok(Some(ap_text(alloc, ap, image)?)),
        (ImageAsk::Lines, ImagePart::Lines(image)) => Ok(Some(lines_text(alloc, image)?)),
        (ImageAsk::Word(address), ImagePart::Word(image)) => {
            Ok(Some(word_text(alloc, address, image)?))
        }
        _ => Ok(None),
    }
}

// Puts the line of a part of the target.
#[tactic(auto, unfolding(crate::specs::Target::shown_line), using(text_lines::proofs::PutLemmas::no_part, text_lines::proofs::PutLemmas::nothing, crate::proofs::FrameLemmas::frames))]
fn write_part<K: Sink, S: ShowsTarget>(
    alloc: Global,
    ask: ImageAsk,
    shower: &mut S,
    sink: &mut K,
) -> Result<(), TextEnd>
    ensures puts { PutsTarget (λ t. shown_line t ask) result S.known K.written K.faults shower.old shower.new sink.old sink.new }
{
    let Ok(part) = shower.part(ask) else {
        return Err(TextEnd::BenchFault);
    };
    match part_text(alloc, ask, &part) {
        Ok(Some(line)) => put(line.as_bytes(), sink),
        Ok(None) => Ok(()),
        Err(_) => Err(TextEnd::OutOfMemory),
    }
}

// Whether the job lists an access port.
fn is_listed(aps: &[ApJob], number: u8) -> bool
    ensures { result ≡ list_any (λ port. port.ap == number) aps.now }
{
    aps.iter().any(|port| port.ap == number)
}

// Puts the line of an access port, where the job lists it.
#[tactic(auto, using(text_lines::proofs::PutLemmas::nothing, crate::proofs::FrameLemmas::frames))]
fn write_port<K: Sink, S: ShowsTarget>(
    alloc: Global,
    aps: &[ApJob],
    number: u8,
    shower: &mut S,
    sink: &mut K,
) -> Result<(), TextEnd>
    ensures puts { PutsTarget (λ t. listed_port_line t aps.now number) result S.known K.written K.faults shower.old shower.new sink.old sink.new }
{
    if is_listed(aps, number) {
        write_part(alloc, ImageAsk::Ap(number), shower, sink)
    } else {
        Ok(())
    }
}

// Puts the lines of the access ports that the job lists, in rising order.
fn write_ports<K: Sink, S: ShowsTarget>(
    alloc: Global,
    aps: &[ApJob],
    shower: &mut S,
    sink: &mut K,
) -> Result<(), TextEnd>
    ensures puts { PutsTarget (λ t. port_lines t aps.now) result S.known K.written K.faults shower.old shower.new sink.old sink.new }
{
    for number in 0..256u32 {
        write_port(alloc, aps, number as u8, shower, sink)?;
    }
    Ok(())
}

// Puts the lines of words in a row.
fn write_words<K: Sink, S: ShowsTarget>(
    alloc: Global,
    item: WatchItem,
    shower: &mut S,
    sink: &mut K,
) -> Result<(), TextEnd>
    requires { IsLow item }
    ensures puts { PutsTarget (λ t. word_lines t item.address item.words) result S.known K.written K.faults shower.old shower.new sink.old sink.new }
{
    for number in 0..item.words {
        let ask = ImageAsk::Word(item.address + 4 * number as u64);
        write_part(alloc, ask, shower, sink)?;
    }
    Ok(())
}

// Puts the lines of the words that are watched.
fn write_watch<K: Sink, S: ShowsTarget>(
    alloc: Global,
    watch: &[WatchItem],
    shower: &mut S,
    sink: &mut K,
) -> Result<(), TextEnd>
    requires { All IsLow watch.now }
    ensures puts { PutsTarget (λ t. watch_lines t watch.now) result S.known K.written K.faults shower.old shower.new sink.old sink.new }
{
    for item in watch {
        write_words(alloc, *item, shower, sink)?;
    }
    Ok(())
}

// Puts the lines of the probe, and those of the words that are watched.
fn write_outside<K: Sink, S: ShowsTarget>(
    alloc: Global,
    watch: &[WatchItem],
    shower: &mut S,
    sink: &mut K,
) -> Result<(), TextEnd>
    requires { All IsLow watch.now }
    ensures puts { PutsTarget (λ t. outside_lines t watch.now) result S.known K.written K.faults shower.old shower.new sink.old sink.new }
{
    write_part(alloc, ImageAsk::Lines, shower, sink)?;
    write_watch(alloc, watch, shower, sink)
}

// Puts the lines of the access ports and what follows them.
fn write_ports_on<K: Sink, S: ShowsTarget>(
    alloc: Global,
    aps: &[ApJob],
    watch: &[WatchItem],
    shower: &mut S,
    sink: &mut K,
) -> Result<(), TextEnd>
    requires { All IsLow watch.now }
    ensures puts { PutsTarget (λ t. ports_on t aps.now watch.now) result S.known K.written K.faults shower.old shower.new sink.old sink.new }
{
    write_ports(alloc, aps, shower, sink)?;
    write_outside(alloc, watch, shower, sink)
}

/// Puts the lines of a target: the debug port, the access ports of the job in rising order, the lines
/// of the probe, and the words that are watched.
pub fn write_target<K: Sink, S: ShowsTarget>(
    alloc: Global,
    aps: &[ApJob],
    watch: &[WatchItem],
    shower: &mut S,
    sink: &mut K,
) -> Result<(), TextEnd>
    requires { All IsLow watch.now }
    ensures puts { PutsTarget (λ t. target_lines t aps.now watch.now) result S.known K.written K.faults shower.old shower.new sink.old sink.new }
{
    write_part(alloc, ImageAsk::Dp, shower, sink)?;
    write_ports_on(alloc, aps, watch, shower, sink)
}
