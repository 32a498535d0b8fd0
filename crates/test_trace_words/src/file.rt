//! A file in memory.
ghost use Rattle.std.specs.Prelude.{None};

use dap_base::{Failed, MemorySource, OutOfMemory, Source};
use std::alloc::Global;
use trace_compare::NamedFile;

/// The file `other`, which can be read, and the file `broken`, of which the first read fails.
#[derive(Drop)]
pub struct MemoryFile {
    whole: MemorySource,
    broken: MemorySource,
    is_broken: bool,
    faults: u64,
}

impl MemoryFile {
    /// Both files have these bytes.
    pub fn new(alloc: Global, bytes: &[u8]) -> Result<MemoryFile, OutOfMemory> {
        Ok(MemoryFile {
            whole: MemorySource::new(alloc, bytes, &[])?,
            broken: MemorySource::new(alloc, bytes, &[1])?,
            is_broken: false,
            faults: 0,
        })
    }
}

impl Source for MemoryFile {
    ghost left = { λ _. None };

    ghost faults = { λ f. f.faults };

    fn take(&mut self, buf: &mut [u8]) -> Result<usize, Failed> {
        let taken = if self.is_broken {
            self.broken.take(buf)
        } else {
            self.whole.take(buf)
        };
        if taken.is_err() {
            self.faults = self.faults.saturating_add(1);
        }
        taken
    }
}

impl NamedFile for MemoryFile {
    ghost contents = { λ _ _. None };

    fn open(&mut self, name: &str) -> Result<(), Failed> {
        match name {
            "other" => Ok(()),
            "broken" => {
                self.is_broken = true;
                Ok(())
            }
            _ => {
                self.faults = self.faults.saturating_add(1);
                Err(Failed)
            }
        }
    }
}
