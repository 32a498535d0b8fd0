//! What runs over an access whose results are given.

use crate::over::put_stop;
use access_calls::users::{AccessOwner, CopyEnd, copy_word, flush_lent};
use access_calls::{Access, Scripted, Stop};
use dap_base::MemorySink;
use std::alloc::{AllocError, Global};
use target_calls::Ask;
use test_words::{RowError, RowWords, Trial, put_call};

/// An access whose results are given, and a call of which fails.
#[derive(Drop)]
pub struct ScriptedAccess {
    access: Scripted,
}

// Writes what was asked; `settled` after a call that a finish followed.
fn put_asked(text: &mut String, asked: &[Ask]) -> Result<(), AllocError> {
    for ask in asked {
        text.push_str("; ")?;
        put_call(text, &ask.call)?;
        text.push_str(if ask.forgive { " forgiven" } else { "" })?;
        text.push_str(if ask.settled { " settled" } else { "" })?;
    }
    Ok(())
}

// Writes how a copy ended, and the line.
fn put_copy(text: &mut String, end: CopyEnd, line: &[u8]) -> Result<(), RowError> {
    match end {
        CopyEnd::Done => text.push_str("done")?,
        CopyEnd::Stopped(stop) => put_stop(text, &stop)?,
        CopyEnd::WriteFault => text.push_str("write fault")?,
    }
    let line = str::from_utf8(line).map_err(|_| RowError::Unreadable)?;
    write!(text, ", line {line:?}")?;
    Ok(())
}

// `copy CALL FAILING`: a word is copied over an access that gives two results and whose call of this number fails, from 0, and the line is written to a sink whose calls
// of these numbers fail.
fn copy(alloc: Global, words: &mut RowWords<'_>) -> Result<String, RowError> {
    let results = Vec::from_slice(alloc, &[0x1234_5678, 9])?;
    let mut access = Scripted::new(alloc, results, words.number32()?);
    let failing = if words.is_empty() {
        0
    } else {
        words.number32()?
    };
    let mut sink = MemorySink::new(alloc, &[failing])?;
    let end = copy_word(0x2000_0000, 0x2000_0010, &mut access, &mut sink);
    let mut text = String::new(alloc);
    put_copy(&mut text, end, sink.bytes())?;
    put_asked(&mut text, access.calls.as_slice())?;
    Ok(text)
}

// Writes how a flush ended.
fn put_flush(text: &mut String, end: Result<(), Stop>) -> Result<(), AllocError> {
    match end {
        Ok(()) => text.push_str("ok"),
        Err(stop) => put_stop(text, &stop),
    }
}

impl Trial for ScriptedAccess {
    fn begin(alloc: Global, form: &str) -> Result<ScriptedAccess, RowError> {
        let fails_at = match form.split_once(":") {
            Some((_, number)) => RowWords::new(number).number32()?,
            None => u32::MAX,
        };
        let access = Scripted::new(alloc, Vec::new(alloc), fails_at);
        Ok(ScriptedAccess { access })
    }

    fn answer(&mut self, alloc: Global, input: &str) -> Result<String, RowError> {
        let mut words = RowWords::new(input);
        let mut text = String::new(alloc);
        match words.word()? {
            "copy" => text = copy(alloc, &mut words)?,
            "flush_lent" => put_flush(&mut text, flush_lent(&mut self.access))?,
            "flush_owned" => {
                let mut owner = AccessOwner::new(&mut self.access);
                let end = owner.flush();
                let _ = owner.into_access();
                put_flush(&mut text, end)?;
            }
            "needs" => {
                let needs = self.access.needs;
                write!(text, "{needs}")?;
            }
            _ => return Err(RowError::Unreadable),
        }
        words.end()?;
        Ok(text)
    }
}
