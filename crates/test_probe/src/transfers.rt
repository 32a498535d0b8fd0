//! Commands over a small target.
ghost use Rattle.std.specs.Prelude.{◌≤◌, length};

use dap_messages::{CommandValue, Request, packet_view};
use dap_transfer::TransferEngine;
use std::alloc::Global;
use target_machine::Target;
use test_benches::requests_of;
use test_words::{RowError, Setting, Trial, bytes_of, setting_of_form, target_of};

// An engine that has made no transfer yet, over the target of the setting.
fn engine_of(alloc: Global, setting: &Setting) -> Result<TransferEngine, RowError> {
    let job = target_of(alloc, setting)?;
    let target = Target::new(alloc, &job)?;
    let stalls = setting.stalls.clone()?;
    Ok(TransferEngine::new(target, stalls))
}

// Writes what a Transfer answers: how many requests were executed, the response, and the words; and how many retries ended.
fn put_transfer(
    text: &mut String,
    engine: &mut TransferEngine,
    requests: &[Request],
) -> Result<(), RowError>
    requires { length requests.now ≤ 8 }
{
    let mut words = [0; 8];
    let replied = engine.transfer(requests, &mut words);
    let executed = replied.executed;
    let response = replied.response;
    write!(text, "{executed} {response:?}")?;
    for word in words.iter().take(replied.count) {
        write!(text, " {word:#X}")?;
    }
    let ended = engine.ended_retries();
    write!(text, ", retries ended {ended}")?;
    Ok(())
}

/// Transfers of at most eight requests, each over a fresh target, and what is answered.
#[derive(Drop)]
pub struct Transfers {
    setting: Setting,
}

impl Trial for Transfers {
    fn begin(alloc: Global, form: &str) -> Result<Transfers, RowError> {
        let setting = setting_of_form(alloc, form)?;
        Ok(Transfers { setting })
    }

    fn answer(&mut self, alloc: Global, input: &str) -> Result<String, RowError> {
        let requests = requests_of(alloc, input)?;
        if requests.len() > 8 {
            return Err(RowError::Unreadable);
        }
        let mut engine = engine_of(alloc, &self.setting)?;
        let mut text = String::new(alloc);
        put_transfer(&mut text, &mut engine, requests.as_slice())?;
        Ok(text)
    }
}

/// Packets of one block of writes, each over a fresh target, and what is answered: how many words were written, and the response.
#[derive(Drop)]
pub struct Blocks {
    setting: Setting,
}

impl Trial for Blocks {
    fn begin(alloc: Global, form: &str) -> Result<Blocks, RowError> {
        let setting = setting_of_form(alloc, form)?;
        Ok(Blocks { setting })
    }

    fn answer(&mut self, alloc: Global, input: &str) -> Result<String, RowError> {
        let bytes = bytes_of(alloc, input)?;
        let mut engine = engine_of(alloc, &self.setting)?;
        let mut text = String::new(alloc);
        let Ok(packet) = packet_view(bytes.as_slice()) else {
            return Err(RowError::Unreadable);
        };
        let command = packet.command(0).ok_or(RowError::Unreadable)?;
        match command.value() {
            CommandValue::WriteBlock { request, words } => {
                let count = words.len();
                let replied = engine.write_block(*request, words);
                let executed = replied.executed;
                let response = replied.response;
                write!(text, "{executed} of {count} {response:?}")?;
            }
            other => write!(text, "{other:?}")?,
        }
        Ok(text)
    }
}
