//! The file that a call names.
ghost use Rattle.std.specs.Prelude.{◌≡◌, ℕ, List, None, OnOk, Option};
ghost use Rattle.dap_base.specs.Causes.{HasCause};

use dap_base::{Failed, ReadSource, Source};
use std::fs::{self, File, OpenFile};

/// A file that is opened by its name. Then it is a source of its bytes.
pub trait NamedFile: Source {
    /// The bytes of the file of a name, where they are known.
    ghost contents: { Self → List ℕ → Option (List ℕ) };

    /// Opens the file of this name, before its bytes are taken. `Failed` where it cannot be opened; it comes only where
    /// the count of faults rose or is at its last value. A call that answers `Ok` leaves the count.
    fn open(&mut self, name: &str) -> Result<(), Failed>
        ensures bytes { OnOk result (Self.left self.new ≡ contents self.old name.now) }
        ensures cause { HasCause (Self.faults self.old) (Self.faults self.new) result };
}

/// A file of the system, which is opened by its name. No clause says what it holds. A folder cannot be opened.
#[derive(Drop)]
pub struct FileSource<'r> {
    rt: &'r HostRuntime,
    file: Option<ReadSource<File>>,
    faults: u64,
}

impl<'r> FileSource<'r> {
    /// No file is open, and there is no fault so far.
    pub fn new(rt: &'r HostRuntime) -> FileSource<'r>
        ensures { result.faults ≡ 0 }
    {
        FileSource {
            rt,
            file: None,
            faults: 0,
        }
    }

    // Opens a file that is no folder.
    fn open_file(&self, name: &str) -> Result<File, Failed> {
        let Ok(file) = fs::open(self.rt, name) else {
            return Err(Failed);
        };
        match file.metadata() {
            Ok(metadata) if !metadata.is_dir() => Ok(file),
            _ => Err(Failed),
        }
    }
}

impl<'r> Source for FileSource<'r> {
    ghost left = { λ _. None };

    ghost faults = { λ s. s.faults };

    fn take(&mut self, buf: &mut [u8]) -> Result<usize, Failed> {
        let taken = match &mut self.file {
            Some(file) => file.take(buf),
            None => Err(Failed),
        };
        if taken.is_err() {
            self.faults = self.faults.saturating_add(1);
        }
        taken
    }
}

impl<'r> NamedFile for FileSource<'r> {
    ghost contents = { λ _ _. None };

    fn open(&mut self, name: &str) -> Result<(), Failed> {
        match self.open_file(name) {
            Ok(file) => {
                self.file = Some(ReadSource::new(file));
                Ok(())
            }
            Err(Failed) => {
                self.faults = self.faults.saturating_add(1);
                Err(Failed)
            }
        }
    }
}
