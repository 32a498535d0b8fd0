//! The calls of benches in memory.
ghost use Rattle.std.specs.Prelude.{◌≡◌, true};

use dap_base::Failed;
use probe_core::{Bench, FaultyBench, Limits, LoadError, MemoryBench, SilentBench};
use std::alloc::Global;
use test_benches::{job_of, put_log};
use test_words::{
    BenchKind, RowError, RowWords, Setting, Trial, ask_of, bytes_of, put_bytes, put_image,
    setting_of_form,
};

/// A bench, and the setting whose job is loaded into it. While it is ready it has these limits, holds no packet, and no
/// reply waits.
#[derive(Drop)]
pub struct Session<B: Bench> {
    bench: B,
    setting: Setting,
    limits: Limits,
    is_ready: bool,
    ghost same: { is_ready ≡ true → (B.reported bench).limits ≡ limits },
    ghost held: { is_ready ≡ true → (B.reported bench).held ≡ 0 },
    ghost waiting: { is_ready ≡ true → (B.reported bench).waiting ≡ 0 },
}

impl<B: Bench> Session<B> {
    // `load`: the job is loaded.
    fn load(&mut self, alloc: Global) -> Result<&'static str, RowError> {
        let job = job_of(alloc, &self.setting)?;
        self.is_ready = false;
        match self.bench.load(alloc, &job) {
            Ok(()) => {
                self.limits = job.limits;
                self.is_ready = true;
                Ok("ok")
            }
            Err(LoadError::Failed) => Ok("failed"),
            Err(LoadError::OutOfMemory) => Err(RowError::OutOfMemory),
        }
    }

    // `exchange BYTES`: a packet that is not queued is sent, and its reply received.
    fn exchange(&mut self, packet: &[u8], text: &mut String) -> Result<(), RowError> {
        if !self.is_ready || packet.len() > usize::from(self.limits.packet_size) {
            return Err(RowError::Unreadable);
        }
        if let [] | [0x7E, ..] = packet {
            return Err(RowError::Unreadable);
        }
        self.is_ready = false;
        if self.bench.send(packet).is_err() {
            text.push_str("failed")?;
            return Ok(());
        }
        let mut out = [0; 1024];
        match self.bench.receive(&mut out) {
            Ok(len) => {
                self.is_ready = true;
                put_bytes(text, &out[..len])?;
            }
            Err(Failed) => text.push_str("failed")?,
        }
        Ok(())
    }

    // `image PART`: a part of the target.
    fn image(&mut self, words: &mut RowWords<'_>, text: &mut String) -> Result<(), RowError> {
        match self.bench.image(ask_of(words)?) {
            Ok(part) => put_image(text, part)?,
            Err(Failed) => text.push_str("failed")?,
        }
        Ok(())
    }

    // One call.
    fn call(&mut self, alloc: Global, input: &str) -> Result<String, RowError> {
        let mut words = RowWords::new(input);
        let mut text = String::new(alloc);
        match words.word()? {
            "load" => text.push_str(self.load(alloc)?)?,
            "exchange" => {
                let packet = bytes_of(alloc, words.take_rest())?;
                self.exchange(packet.as_slice(), &mut text)?;
            }
            "show" => put_log(&mut self.bench, &mut words, &mut text)?,
            "image" => self.image(&mut words, &mut text)?,
            _ => return Err(RowError::Unreadable),
        }
        words.end()?;
        Ok(text)
    }
}

// The limits of a bench before a load.
const ONE: Limits = Limits {
    packet_size: 64,
    packet_count: 1,
};

// A bench of which nothing was asked.
fn not_loaded<B: Bench + Drop>(bench: B, setting: Setting) -> Session<B> {
    Session {
        bench,
        setting,
        limits: ONE,
        is_ready: false,
    }
}

/// A bench, of which the rows of a form ask calls.
#[derive(Drop)]
pub enum AnyBench {
    /// One in memory.
    Memory(Session<MemoryBench>),
    /// One that is not observable.
    Silent(Session<SilentBench>),
    /// One some of whose calls fail.
    Failing(Session<FaultyBench>),
}

impl Trial for AnyBench {
    fn begin(alloc: Global, form: &str) -> Result<AnyBench, RowError> {
        let setting = setting_of_form(alloc, form)?;
        match setting.kind {
            BenchKind::Memory => {
                let bench = MemoryBench::new(alloc);
                Ok(AnyBench::Memory(not_loaded(bench, setting)))
            }
            BenchKind::Silent => {
                let bench = SilentBench::new(alloc);
                Ok(AnyBench::Silent(not_loaded(bench, setting)))
            }
            BenchKind::Failing => {
                let bench = FaultyBench::new(alloc, setting.failing.as_slice())?;
                Ok(AnyBench::Failing(not_loaded(bench, setting)))
            }
            BenchKind::Answering => Err(RowError::Unreadable),
        }
    }

    fn answer(&mut self, alloc: Global, input: &str) -> Result<String, RowError> {
        match self {
            AnyBench::Memory(session) => session.call(alloc, input),
            AnyBench::Silent(session) => session.call(alloc, input),
            AnyBench::Failing(session) => session.call(alloc, input),
        }
    }
}
