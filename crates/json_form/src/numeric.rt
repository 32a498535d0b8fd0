//! Numbers of each width.
ghost use Rattle.std.specs.Prelude.{◌≡◌, ◌≤◌, ℕ, [], Ok, Err, IfOk, if◌then◌else◌};
ghost use Rattle.serde_json.specs.View.{view};
ghost use Rattle.json_form.specs.Faults.{Gives};
ghost use Rattle.json_form.specs.Reading.{any_number, number};

use crate::fault::JobFault;
use crate::path::Path;
use crate::reader::Reader;
use serde_json::Value;
use std::alloc::Global;

#[tactic(auto, unfolding(crate::specs::Reading::any_number))]
fn any_number_of(alloc: Global, value: &Value) -> Result<u64, JobFault>
    ensures { Gives result (any_number (view value.now)) }
{
    if value.is_number() {
        return match value.as_u64() {
            Some(n) => Ok(n),
            None => Err(JobFault::BadNumber(Path::new(alloc))),
        };
    }
    let Some(text) = value.as_str() else {
        return Err(JobFault::WrongKind(Path::new(alloc)));
    };
    match dap_base::number(text) {
        Some(n) => Ok(n),
        None => Err(JobFault::BadNumber(Path::new(alloc))),
    }
}

#[tactic(auto, unfolding(crate::specs::Reading::number))]
fn number_in(alloc: Global, value: &Value, low: u64, high: u64) -> Result<u64, JobFault>
    ensures gives { Gives result (number low high (view value.now)) }
    ensures bound { IfOk result (λ n. n ≤ high) }
{
    let n = any_number_of(alloc, value)?;
    if n < low || high < n {
        return Err(JobFault::BadNumber(Path::new(alloc)));
    }
    Ok(n)
}

/// The number, where it passed a test, and else `BadNumber` at its place.
pub fn number_if<N: Drop>(alloc: Global, number: N, passes: bool) -> Result<N, JobFault>
    ensures { Gives result (if passes then Ok number else Err (JobFault.BadNumber [])) }
{
    if passes {
        Ok(number)
    } else {
        Err(JobFault::BadNumber(Path::new(alloc)))
    }
}

/// Reads a number from `low` to `high`, both included. It is a JSON number without fraction and exponent, or a text that is one number
/// token of the sequence language (decimal without leading zeros, or hexadecimal after `0x`). A value that is neither number nor text is
/// `WrongKind`, any other is `BadNumber`.
#[derive(Clone, Copy)]
pub struct Number<N> {
    pub low: N,
    pub high: N,
}

impl Reader for Number<u64> {
    type Item = u64;

    ghost reads = { λ r. number r.low r.high };

    fn read(&self, alloc: Global, value: &Value) -> Result<u64, JobFault> {
        number_in(alloc, value, self.low, self.high)
    }
}

impl Reader for Number<u32> {
    type Item = u32;

    ghost reads = { λ r. number r.low r.high };

    fn read(&self, alloc: Global, value: &Value) -> Result<u32, JobFault> {
        let n = number_in(alloc, value, u64::from(self.low), u64::from(self.high))?;
        Ok(n as u32)
    }
}

impl Reader for Number<u16> {
    type Item = u16;

    ghost reads = { λ r. number r.low r.high };

    fn read(&self, alloc: Global, value: &Value) -> Result<u16, JobFault> {
        let n = number_in(alloc, value, u64::from(self.low), u64::from(self.high))?;
        Ok(n as u16)
    }
}

impl Reader for Number<u8> {
    type Item = u8;

    ghost reads = { λ r. number r.low r.high };

    fn read(&self, alloc: Global, value: &Value) -> Result<u8, JobFault> {
        let n = number_in(alloc, value, u64::from(self.low), u64::from(self.high))?;
        Ok(n as u8)
    }
}
