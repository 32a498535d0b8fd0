//! The words to print at the end: the member `watch`.
ghost use Rattle.std.specs.Prelude.{◌≡◌, ℕ, ◌+◌, ◌*◌, ◌<◌, ◌≤◌, ◌^◌, true, false, IfSome, IfNone, find};
ghost use Rattle.std.specs.Option.{option_copied};
ghost use Rattle.serde_json.specs.View.{view};
ghost use Rattle.json_form.specs.Faults.{Gives};
ghost use Rattle.json_form.specs.Reading.{such, number};
ghost use Rattle.job_text.specs.Tests.{holds, is_held, are_words_in};
ghost use Rattle.job_text.specs.JobReading.{watch_item_in};

use crate::job::WatchItem;
use crate::memory::{AlignedAddress, is_in};
use device_tree::JobFault;
use json_form::{Number, Reader, number_if, only_keys_of, required_of};
use serde_json::Value;
use std::alloc::Global;
use target_machine::RegionJob;

const WORD_COUNT: Number<u32> = Number {
    low: 1,
    high: 65_536,
};

fn region_at(regions: &[RegionJob], address: u128) -> Option<&RegionJob>
    ensures { option_copied result ≡ find (holds address) regions.now }
{
    regions.iter().find(|region| is_in(address, region))
}

// How many words from the address on begin in the region.
fn words_within(region: &RegionJob, address: u128) -> u64
    requires { holds address region.now ≡ true }
    ensures some { 0 < result }
    ensures few { result ≤ 2 ^ 31 }
    ensures held { (i : ℕ) → i < result → holds (address + 4 * i) region.now ≡ true }
{
    let length = u64::from(region.length);
    let passed = (address - u128::from(region.address)) as u64;
    (length - passed).div_ceil(4)
}

// How many words from the address on lie in the region there. `None` where it lies in no region.
fn words_from(regions: &[RegionJob], address: u128) -> Option<u64>
    ensures none { IfNone result (is_held regions.now address ≡ false) }
    ensures some { IfSome result (λ count. 0 < count) }
    ensures few { IfSome result (λ count. count ≤ 2 ^ 31) }
    ensures held { IfSome result (λ count. (i : ℕ) → i < count → is_held regions.now (address + 4 * i) ≡ true) }
{
    match region_at(regions, address) {
        Some(region) => Some(words_within(region, address)),
        None => None,
    }
}

// Whether each of so many words from the address on lies in a region. The regions are passed one
// after another, and not the words.
fn are_in(regions: &[RegionJob], address: u64, words: u32) -> bool
    ensures { result ≡ are_words_in regions.now address words }
{
    let mut at = u128::from(address);
    let mut left = u64::from(words);
    while left > 0 {
        let Some(count) = words_from(regions, at) else {
            return false;
        };
        if left <= count {
            return true;
        }
        left -= count;
        at += 4 * u128::from(count);
    }
    true
}

// Reads the number of words from an address on, each of which lies in a region.
#[derive(Clone, Copy)]
struct WordsFrom<'a> {
    regions: &'a [RegionJob],
    address: u64,
}

impl<'a> Reader for WordsFrom<'a> {
    type Item = u32;

    ghost reads = { λ r. such (are_words_in r.regions.now r.address) (number 1 65536) };

    #[tactic(auto, unfolding(json_form::specs::Reading::such))]
    fn read(&self, alloc: Global, value: &Value) -> Result<u32, JobFault> {
        let words = WORD_COUNT.read(alloc, value)?;
        number_if(alloc, words, are_in(self.regions, self.address, words))
    }
}

const WATCH_KEYS: [&str; 2] = ["address", "words"];

/// Reads words to print, each of which lies in one of the regions.
#[derive(Clone, Copy)]
pub struct WatchReader<'a> {
    pub regions: &'a [RegionJob],
}

impl<'a> Reader for WatchReader<'a> {
    type Item = WatchItem;

    ghost reads = { λ r. watch_item_in r.regions.now };

    #[tactic(auto, unfolding(crate::specs::JobReading::watch_item_in))]
    fn read(&self, alloc: Global, value: &Value) -> Result<WatchItem, JobFault> {
        only_keys_of(alloc, value, &WATCH_KEYS)?;
        let address = required_of(alloc, value, "address", &AlignedAddress)?;
        let place = WordsFrom {
            regions: self.regions,
            address,
        };
        let words = required_of(alloc, value, "words", &place)?;
        Ok(WatchItem { address, words })
    }
}
