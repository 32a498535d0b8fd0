//! What differs from one test to another.

use crate::{RowError, RowWords, bytes_of};
use std::alloc::Global;

/// The bench of a test.
#[derive(Clone, Copy, Debug, PartialEq, Eq)]
pub enum BenchKind {
    /// A bench in memory.
    Memory,
    /// One that is not observable.
    Silent,
    /// One whose calls of these numbers fail.
    Failing,
    /// One that answers each packet with this reply.
    Answering,
}

/// What differs from one test to another.
#[derive(Drop)]
pub struct Setting {
    /// The bench.
    pub kind: BenchKind,
    /// The numbers of the calls that fail.
    pub failing: Vec<u32>,
    /// The reply to each packet.
    pub reply: Vec<u8>,
    /// Whether the three packets of an opening are answered before it.
    pub opens: bool,
    /// Whether the access sends each register access by itself.
    pub alone: bool,
    /// The most bytes of a packet or a reply.
    pub packet_size: u16,
    /// How many packets a bench takes ahead.
    pub packet_count: u8,
    /// How often each transfer that may wait is answered WAIT, the first ones in order.
    pub stalls: Vec<u32>,
    /// Whether the target is powered.
    pub powered: bool,
    /// After how many reads of CTRL/STAT a requested power-up is acknowledged.
    pub power_reads: u32,
    /// Whether AP 0 has large addresses.
    pub large: bool,
    /// Whether TAR carries past 1,024 bytes.
    pub carry: bool,
    /// CSW of AP 0 at the beginning.
    pub csw: u32,
    /// The words at 0x20000000 and 0x20000004.
    pub words: [u32; 2],
}

impl Setting {
    // A powered target with 32-bit addresses whose words are 0, over a bench of one packet of 64 bytes.
    fn base(alloc: Global) -> Setting {
        Setting {
            kind: BenchKind::Memory,
            failing: Vec::new(alloc),
            reply: Vec::new(alloc),
            opens: false,
            alone: false,
            packet_size: 64,
            packet_count: 1,
            stalls: Vec::new(alloc),
            powered: true,
            power_reads: 0,
            large: false,
            carry: false,
            csw: 0x40,
            words: [0, 0],
        }
    }

    // Reads one of the settings of the bench, which has this name.
    fn read_bench(
        &mut self,
        alloc: Global,
        name: &str,
        words: &mut RowWords<'_>,
    ) -> Result<(), RowError> {
        match name {
            "silent" => self.kind = BenchKind::Silent,
            "failing" => {
                self.kind = BenchKind::Failing;
                self.failing = numbers_of(alloc, words.take_rest())?;
            }
            "answers" => {
                self.kind = BenchKind::Answering;
                self.reply = bytes_of(alloc, words.take_rest())?;
            }
            "opens" => self.opens = true,
            "alone" => self.alone = true,
            "size" => self.packet_size = words.number16()?,
            "count" => self.packet_count = words.number8()?,
            "stalls" => self.stalls = numbers_of(alloc, words.take_rest())?,
            _ => return Err(RowError::Unreadable),
        }
        Ok(())
    }

    // Reads one of the settings.
    fn read(&mut self, alloc: Global, words: &mut RowWords<'_>) -> Result<(), RowError> {
        match words.word()? {
            "off" => self.powered = false,
            "reads" => self.power_reads = words.number32()?,
            "large" => self.large = true,
            "carry" => self.carry = true,
            "csw" => self.csw = words.number32()?,
            "words" => self.words = [words.number32()?, words.number32()?],
            name => self.read_bench(alloc, name, words)?,
        }
        words.end()
    }
}

// Decimal numbers with spaces between them.
fn numbers_of(alloc: Global, text: &str) -> Result<Vec<u32>, RowError> {
    let mut numbers = Vec::new(alloc);
    for word in text.split_whitespace() {
        numbers.push(word.parse::<u32>().map_err(|_| RowError::Unreadable)?)?;
    }
    Ok(numbers)
}

/// The settings of a text, with `,` between them. Of the target: `off`, `reads 2`, `large`, `carry`, `csw 0x40`, `words 7 0`. Of
/// the bench: `size 64`, `count 4`, `stalls 0 0 101`, `silent`, `failing 1 4`, `answers 05 02`, `opens`. Of an access: `alone`.
/// Those that are not named are of a powered target with 32-bit addresses whose CSW is 0x40 and whose words are 0, over a bench in
/// memory of one packet of 64 bytes.
pub fn setting_of(alloc: Global, text: &str) -> Result<Setting, RowError> {
    let mut setting = Setting::base(alloc);
    if text.is_empty() {
        return Ok(setting);
    }
    for item in text.split(",") {
        setting.read(alloc, &mut RowWords::new(item))?;
    }
    Ok(setting)
}

/// The settings of a form, after its name: `NAME: off, words 7 0`. `NAME` alone has none of its own.
pub fn setting_of_form(alloc: Global, form: &str) -> Result<Setting, RowError> {
    match form.split_once(":") {
        Some((_, settings)) => setting_of(alloc, settings),
        None => setting_of(alloc, ""),
    }
}
