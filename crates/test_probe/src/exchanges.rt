//! Packets that a probe executes.

use probe_core::Probe;
use std::alloc::Global;
use test_benches::job_of;
use test_words::{RowError, Setting, Trial, bytes_of, put_bytes, setting_of_form};

/// Packets, each to a fresh probe, and its replies.
#[derive(Drop)]
pub struct FreshProbe {
    setting: Setting,
}

impl Trial for FreshProbe {
    fn begin(alloc: Global, form: &str) -> Result<FreshProbe, RowError> {
        let setting = setting_of_form(alloc, form)?;
        Ok(FreshProbe { setting })
    }

    fn answer(&mut self, alloc: Global, input: &str) -> Result<String, RowError> {
        let packet = bytes_of(alloc, input)?;
        let job = job_of(alloc, &self.setting)?;
        let mut probe = Probe::new(alloc, &job)?;
        let mut out = [0; 1024];
        let len = probe.execute(packet.as_slice(), &mut out);
        let mut text = String::new(alloc);
        put_bytes(&mut text, &out[..len])?;
        Ok(text)
    }
}
