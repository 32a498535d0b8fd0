//! What a target shows from outside.

use crate::{RowError, RowWords};
use std::alloc::AllocError;
use target_machine::{ApImage, DpImage, ImageAsk, ImagePart, LinesImage, WordImage};

/// A part of the target: `dp`, `ap 0`, `lines`, `word 0x20000000`.
pub fn ask_of(words: &mut RowWords<'_>) -> Result<ImageAsk, RowError> {
    match words.word()? {
        "dp" => Ok(ImageAsk::Dp),
        "ap" => Ok(ImageAsk::Ap(words.number8()?)),
        "lines" => Ok(ImageAsk::Lines),
        "word" => Ok(ImageAsk::Word(words.number()?)),
        _ => Err(RowError::Unreadable),
    }
}

fn put_dp(text: &mut String, image: DpImage) -> Result<(), AllocError> {
    let select = image.select;
    let ctrl = image.ctrl;
    let sticky = if image.sticky { "set" } else { "clear" };
    let reads = image.reads;
    write!(
        text,
        "select {select:#X}, ctrl {ctrl:#X}, stickyerr {sticky}, reads {reads}"
    )
}

fn put_ap(text: &mut String, image: ApImage) -> Result<(), AllocError> {
    let csw = image.csw;
    let tar = image.tar;
    write!(text, "csw {csw:#X}, tar {tar:#X}")?;
    match image.high {
        Some(high) => write!(text, ", high {high:#X}"),
        None => Ok(()),
    }
}

fn put_lines(text: &mut String, image: LinesImage) -> Result<(), AllocError> {
    let pins = image.pins;
    let bits = image.bits;
    let last = image.last;
    let clock = image.clock;
    let delay = image.delay;
    write!(
        text,
        "pins {pins:#X}, bits {bits}, last {last:#X}, clock {clock}, delay {delay}"
    )
}

fn put_word(text: &mut String, image: WordImage) -> Result<(), AllocError> {
    let value = image.value;
    write!(text, "value {value:#X}")?;
    match image.place {
        Some(place) => write!(text, " at place {place}"),
        None => Ok(()),
    }
}

/// Writes a part of the target, its numbers by name.
pub fn put_image(text: &mut String, part: ImagePart) -> Result<(), AllocError> {
    match part {
        ImagePart::Dp(image) => put_dp(text, image),
        ImagePart::Ap(image) => put_ap(text, image),
        ImagePart::Lines(image) => put_lines(text, image),
        ImagePart::Word(image) => put_word(text, image),
        ImagePart::Nothing => text.push_str("nothing"),
    }
}
