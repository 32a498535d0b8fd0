//! The memory of a target: regions, words and scripts.
ghost use Rattle.std.specs.Prelude.{◌≡◌, ℕ, ◌+◌, ◌^◌, ◌==◌, ◌||◌, nat_le, nat_lt, sum_by, IfOk};
ghost use Rattle.std.specs.List.{list_any};
ghost use Rattle.std.specs.Ordering.{nat_cmp};
ghost use Rattle.std.specs.BTreeSet.{contains};
ghost use Rattle.serde_json.specs.View.{view};
ghost use Rattle.json_form.specs.Faults.{Gives};
ghost use Rattle.json_form.specs.Reading.{alone, repeats_by, such, number};
ghost use Rattle.job_text.specs.Tests.{is_aligned, holds, is_held, is_word_in, is_length_after, overlap, same_word, repeats_script};
ghost use Rattle.job_text.specs.TargetReading.{address_number, region_in, word_in, values_in, script_in};

use dap_base::OutOfMemory;
use device_tree::{JobFault, Path};
use json_form::{
    Choice, Each, ItemReader, Keyed, ListOf, Number, Reader, member_or, number_if, only_keys_of,
    required_of, was_seen,
};
use serde_json::Value;
use std::alloc::Global;
use std::collections::BTreeSet;
use target_machine::{RegionJob, ScriptJob, Values, WordJob};

// The bytes of all regions together are at most this many.
const MEMORY_LIMIT: u64 = 4_194_304;

// A region ends at this address at most.
const MEMORY_END: u64 = 1 << 63;

pub const ANY_ADDRESS: Number<u64> = Number {
    low: 0,
    high: u64::MAX,
};

pub const ANY_WORD: Number<u32> = Number {
    low: 0,
    high: u32::MAX,
};

const REGION_LENGTH: Number<u32> = Number {
    low: 4,
    high: 4_194_304,
};

/// Reads an address that is a multiple of 4.
#[derive(Clone, Copy)]
pub struct AlignedAddress;

impl Reader for AlignedAddress {
    type Item = u64;

    ghost reads = { λ _. such is_aligned address_number };

    #[tactic(auto, unfolding(json_form::specs::Reading::such))]
    fn read(&self, alloc: Global, value: &Value) -> Result<u64, JobFault> {
        let address = ANY_ADDRESS.read(alloc, value)?;
        number_if(alloc, address, address % 4 == 0)
    }
}

// Whether the regions and one more of this length are not too many bytes together.
fn fits_after(earlier: &[RegionJob], length: u32) -> bool
    ensures { result ≡ nat_le (sum_by (λ r. r.length) earlier.now + length) 4194304 }
{
    let mut sum = u64::from(length);
    for region in earlier {
        sum += u64::from(region.length);
        if sum > MEMORY_LIMIT {
            return false;
        }
    }
    sum <= MEMORY_LIMIT
}

fn ends_early(address: u64, length: u32) -> bool
    ensures { result ≡ nat_le (address + length) (2 ^ 63) }
{
    address <= MEMORY_END && u64::from(length) <= MEMORY_END - address
}

fn is_length(earlier: &[RegionJob], address: u64, length: u32) -> bool
    ensures { result ≡ is_length_after earlier.now address length }
{
    length % 4 == 0 && ends_early(address, length) && fits_after(earlier, length)
}

// Reads the length of a region, given its address and the regions before it.
#[derive(Clone, Copy)]
struct RegionLength<'a> {
    earlier: &'a [RegionJob],
    address: u64,
}

impl<'a> Reader for RegionLength<'a> {
    type Item = u32;

    ghost reads = { λ r. such (is_length_after r.earlier.now r.address) (number 4 4194304) };

    #[tactic(auto, unfolding(json_form::specs::Reading::such))]
    fn read(&self, alloc: Global, value: &Value) -> Result<u32, JobFault> {
        let length = REGION_LENGTH.read(alloc, value)?;
        number_if(alloc, length, is_length(self.earlier, self.address, length))
    }
}

const REGION_KEYS: [&str; 3] = ["address", "length", "kind"];

const KIND: Choice = Choice {
    first: "rw",
    second: "ro",
};

#[tactic(auto, unfolding(crate::specs::TargetReading::region_in))]
fn region_of(alloc: Global, earlier: &[RegionJob], value: &Value) -> Result<RegionJob, JobFault>
    ensures { Gives result (region_in earlier.now (view value.now)) }
{
    only_keys_of(alloc, value, &REGION_KEYS)?;
    let address = required_of(alloc, value, "address", &AlignedAddress)?;
    let length_reader = RegionLength { earlier, address };
    let length = required_of(alloc, value, "length", &length_reader)?;
    let read_only = member_or(alloc, value, "kind", &KIND, false)?;
    Ok(RegionJob {
        address,
        length,
        read_only,
    })
}

fn is_before_end(address: u64, region: &RegionJob) -> bool
    ensures { result ≡ nat_lt address (region.now.address + region.now.length) }
{
    address < region.address || address - region.address < u64::from(region.length)
}

fn do_overlap(a: &RegionJob, b: &RegionJob) -> bool
    ensures { result ≡ overlap a.now b.now }
{
    is_before_end(a.address, b) && is_before_end(b.address, a)
}

fn overlaps_one(earlier: &[RegionJob], region: &RegionJob) -> bool
    ensures { result ≡ repeats_by overlap earlier.now region.now }
{
    earlier.iter().any(|other| do_overlap(other, region))
}

/// Reads the regions of a memory, none of which overlap.
#[derive(Clone, Copy)]
pub struct RegionItems;

impl ItemReader for RegionItems {
    type Item = RegionJob;

    type Seen = ();

    ghost reads = { λ _. region_in };

    ghost repeats = { λ _. repeats_by overlap };

    ghost keeps = { λ _ _ _. Unit {0} };

    fn none_seen(&self, _alloc: Global) -> Result<(), OutOfMemory> {
        Ok(())
    }

    fn read_item(
        &self,
        alloc: Global,
        earlier: &[RegionJob],
        value: &Value,
    ) -> Result<RegionJob, JobFault> {
        region_of(alloc, earlier, value)
    }

    fn is_repeated(
        &self,
        _alloc: Global,
        earlier: &[RegionJob],
        _seen: &mut (),
        item: &RegionJob,
    ) -> Result<bool, OutOfMemory> {
        Ok(overlaps_one(earlier, item))
    }
}

/// Whether the address lies in the region.
pub fn is_in(address: u128, region: &RegionJob) -> bool
    ensures { result ≡ holds address region.now }
{
    let start = u128::from(region.address);
    start <= address && address - start < u128::from(region.length)
}

fn is_in_one(address: u64, regions: &[RegionJob]) -> bool
    ensures { result ≡ is_held regions.now address }
{
    regions
        .iter()
        .any(|region| is_in(u128::from(address), region))
}

// Reads the address of a word in one of the regions.
#[derive(Clone, Copy)]
struct WordAddress<'a> {
    regions: &'a [RegionJob],
}

impl<'a> Reader for WordAddress<'a> {
    type Item = u64;

    ghost reads = { λ r. such (is_word_in r.regions.now) address_number };

    #[tactic(auto, unfolding(json_form::specs::Reading::such))]
    fn read(&self, alloc: Global, value: &Value) -> Result<u64, JobFault> {
        let address = ANY_ADDRESS.read(alloc, value)?;
        number_if(
            alloc,
            address,
            address % 4 == 0 && is_in_one(address, self.regions),
        )
    }
}

const WORD_KEYS: [&str; 2] = ["address", "value"];

/// Reads a word in one of the regions.
#[derive(Clone, Copy)]
pub struct WordReader<'a> {
    pub regions: &'a [RegionJob],
}

impl<'a> Reader for WordReader<'a> {
    type Item = WordJob;

    ghost reads = { λ r. word_in r.regions.now };

    #[tactic(auto, unfolding(crate::specs::TargetReading::word_in))]
    fn read(&self, alloc: Global, value: &Value) -> Result<WordJob, JobFault> {
        only_keys_of(alloc, value, &WORD_KEYS)?;
        let place = WordAddress {
            regions: self.regions,
        };
        let address = required_of(alloc, value, "address", &place)?;
        let value = required_of(alloc, value, "value", &ANY_WORD)?;
        Ok(WordJob { address, value })
    }
}

impl<'a> Keyed for WordReader<'a> {
    type Key = u64;

    ghost same = { λ _. same_word };

    ghost has_key = { λ _ word key. word.address == key };

    #[tactic(auto, using(crate::proofs::KeyLemmas::keys))]
    fn key(&self, _alloc: Global, item: &WordJob) -> Result<u64, OutOfMemory> {
        Ok(item.address)
    }
}

const VALUES: ListOf<Each<Number<u32>>> = ListOf {
    limit: Some(4096),
    item: Each { item: ANY_WORD },
};

// Reads the values of a script, of which there is one at least.
#[derive(Clone, Copy)]
struct ValuesReader;

impl Reader for ValuesReader {
    type Item = Values;

    ghost reads = { λ _. values_in };

    #[tactic(auto, unfolding(crate::specs::TargetReading::values_in))]
    fn read(&self, alloc: Global, value: &Value) -> Result<Values, JobFault> {
        let values = VALUES.read(alloc, value)?;
        if values.as_slice().is_empty() {
            return Err(JobFault::Missing(Path::new(alloc)));
        }
        Ok(values)
    }
}

const SCRIPT_KEYS: [&str; 2] = ["address", "values"];

#[tactic(auto, unfolding(crate::specs::TargetReading::script_in))]
fn script_of(alloc: Global, regions: &[RegionJob], value: &Value) -> Result<ScriptJob, JobFault>
    ensures { Gives result (script_in regions.now (view value.now)) }
{
    only_keys_of(alloc, value, &SCRIPT_KEYS)?;
    let address = required_of(alloc, value, "address", &WordAddress { regions })?;
    let values = required_of(alloc, value, "values", &ValuesReader)?;
    Ok(ScriptJob { address, values })
}

// The addresses of the words.
#[tactic(auto, using(crate::proofs::KeyLemmas::seeing))]
fn addresses_of(alloc: Global, words: &[WordJob]) -> Result<BTreeSet<u64>, OutOfMemory>
    ensures { IfOk result (λ seen. (key : ℕ) → contains nat_cmp seen key ≡ list_any (λ word. word.address == key) words.now) }
{
    let mut seen = BTreeSet::new(alloc);
    for word in words {
        was_seen(&mut seen, word.address)?;
    }
    Ok(seen)
}

/// Reads the scripts of a memory, no two of one address, and none at the address of a word.
#[derive(Clone, Copy)]
pub struct ScriptItems<'a> {
    pub regions: &'a [RegionJob],
    pub words: &'a [WordJob],
}

impl<'a> ItemReader for ScriptItems<'a> {
    type Item = ScriptJob;

    type Seen = BTreeSet<u64>;

    ghost reads = { λ s. alone (script_in s.regions.now) };

    ghost repeats = { λ s. repeats_script s.words.now };

    ghost keeps = { λ s earlier seen. (key : ℕ) → contains nat_cmp seen key ≡ (list_any (λ script. script.address == key) earlier || list_any (λ word. word.address == key) s.words.now) };

    fn none_seen(&self, alloc: Global) -> Result<BTreeSet<u64>, OutOfMemory> {
        addresses_of(alloc, self.words)
    }

    fn read_item(
        &self,
        alloc: Global,
        _earlier: &[ScriptJob],
        value: &Value,
    ) -> Result<ScriptJob, JobFault> {
        script_of(alloc, self.regions, value)
    }

    fn is_repeated(
        &self,
        _alloc: Global,
        _earlier: &[ScriptJob],
        seen: &mut BTreeSet<u64>,
        item: &ScriptJob,
    ) -> Result<bool, OutOfMemory> {
        was_seen(seen, item.address)
    }
}
