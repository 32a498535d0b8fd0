//! Texts, flags and choices.
ghost use Rattle.std.specs.Prelude.{◌≡◌};
ghost use Rattle.json_form.specs.Reading.{text, flag, one_of_two};

use crate::fault::JobFault;
use crate::path::Path;
use crate::reader::Reader;
use dap_base::NameText;
use serde_json::Value;
use std::alloc::Global;

/// Reads a text. Another value is `WrongKind`.
#[derive(Clone, Copy)]
pub struct Text;

impl Reader for Text {
    type Item = NameText;

    ghost reads = { λ _. text };

    fn read(&self, alloc: Global, value: &Value) -> Result<NameText, JobFault> {
        match value.as_str() {
            Some(text) => Ok(NameText::new(alloc, text)?),
            None => Err(JobFault::WrongKind(Path::new(alloc))),
        }
    }
}

/// Reads `true` or `false`. Another value is `WrongKind`.
#[derive(Clone, Copy)]
pub struct Flag;

impl Reader for Flag {
    type Item = bool;

    ghost reads = { λ _. flag };

    fn read(&self, alloc: Global, value: &Value) -> Result<bool, JobFault> {
        match value.as_bool() {
            Some(flag) => Ok(flag),
            None => Err(JobFault::WrongKind(Path::new(alloc))),
        }
    }
}

/// Reads one of two texts: `false` for the first, `true` for the second. Another value is
/// `WrongKind`.
#[derive(Clone, Copy)]
pub struct Choice {
    pub first: &'static str,
    pub second: &'static str,
}

impl Reader for Choice {
    type Item = bool;

    ghost reads = { λ c. one_of_two c.first.now c.second.now };

    #[tactic(auto, unfolding(crate::specs::Reading::one_of_two))]
    fn read(&self, alloc: Global, value: &Value) -> Result<bool, JobFault> {
        let Some(word) = value.as_str() else {
            return Err(JobFault::WrongKind(Path::new(alloc)));
        };
        if word == self.first {
            Ok(false)
        } else if word == self.second {
            Ok(true)
        } else {
            Err(JobFault::WrongKind(Path::new(alloc)))
        }
    }
}
