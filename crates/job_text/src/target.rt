//! The simulated target.
ghost use Rattle.std.specs.Prelude.{◌≡◌, ◌==◌};
ghost use Rattle.serde_json.specs.View.{view};
ghost use Rattle.json_form.specs.Faults.{Gives};
ghost use Rattle.json_form.specs.Reading.{such, number, only_keys};
ghost use Rattle.job_text.specs.Keys.{target_keys};
ghost use Rattle.job_text.specs.Tests.{has_bit_0, lacks_bits_4_and_6, same_ap};
ghost use Rattle.job_text.specs.TargetReading.{word_number, ap_in, aps_in, regions_in, words_in, listed_in, reset_in, scripts_in, power_reads_in, port_in, target_in};

use crate::memory::{ANY_WORD, RegionItems, ScriptItems, WordReader};
use dap_base::{ItemList, OutOfMemory};
use device_tree::JobFault;
use json_form::{
    Choice, Distinct, Flag, Keyed, ListOf, Number, Reader, member_or, number_if, only_keys_of,
    required_of,
};
use serde_json::Value;
use std::alloc::Global;
use target_machine::{ApJob, ApJobs, RegionJobs, ScriptJobs, TargetJob, WordJobs};

pub(crate) const ANY_BYTE: Number<u8> = Number {
    low: 0,
    high: u8::MAX,
};

const AP_KEYS: [&str; 5] = ["ap", "idr", "base", "csw", "la"];

// Reads an access port.
#[derive(Clone, Copy)]
struct ApReader;

impl Reader for ApReader {
    type Item = ApJob;

    ghost reads = { λ _. ap_in };

    #[tactic(auto, unfolding(crate::specs::TargetReading::ap_in))]
    fn read(&self, alloc: Global, value: &Value) -> Result<ApJob, JobFault> {
        only_keys_of(alloc, value, &AP_KEYS)?;
        let ap = required_of(alloc, value, "ap", &ANY_BYTE)?;
        let idr = member_or(alloc, value, "idr", &ANY_WORD, 0x2477_0011)?;
        let base = member_or(alloc, value, "base", &ANY_WORD, 0xE00F_F003)?;
        let csw = member_or(alloc, value, "csw", &ANY_WORD, 0)?;
        let la = member_or(alloc, value, "la", &Flag, false)?;
        Ok(ApJob {
            ap,
            idr,
            base,
            csw,
            la,
        })
    }
}

impl Keyed for ApReader {
    type Key = u8;

    ghost same = { λ _. same_ap };

    ghost has_key = { λ _ ap key. ap.ap == key };

    #[tactic(auto, using(crate::proofs::KeyLemmas::keys))]
    fn key(&self, _alloc: Global, item: &ApJob) -> Result<u8, OutOfMemory> {
        Ok(item.ap)
    }
}

// Reads a DPIDR, whose bit 0 is set.
#[derive(Clone, Copy)]
struct Dpidr;

impl Reader for Dpidr {
    type Item = u32;

    ghost reads = { λ _. such has_bit_0 word_number };

    #[tactic(auto, unfolding(json_form::specs::Reading::such))]
    fn read(&self, alloc: Global, value: &Value) -> Result<u32, JobFault> {
        let dpidr = ANY_WORD.read(alloc, value)?;
        number_if(alloc, dpidr, dpidr % 2 == 1)
    }
}

// Reads the levels of the pins, without bits 4 and 6.
#[derive(Clone, Copy)]
struct Pins;

impl Reader for Pins {
    type Item = u8;

    ghost reads = { λ _. such lacks_bits_4_and_6 (number 0 255) };

    #[tactic(auto, unfolding(json_form::specs::Reading::such))]
    fn read(&self, alloc: Global, value: &Value) -> Result<u8, JobFault> {
        let pins = ANY_BYTE.read(alloc, value)?;
        number_if(alloc, pins, pins & 0x50 == 0)
    }
}

const POWER_READS: Number<u32> = Number {
    low: 0,
    high: 1_000_000,
};

const EDGE: Choice = Choice {
    first: "wrap",
    second: "carry",
};

// How the debug port and the lines start.
#[derive(Clone, Copy)]
struct DebugPort {
    dpidr: u32,
    powered: bool,
    power_reads: u32,
    pins: u8,
    carry: bool,
}

#[tactic(auto, unfolding(crate::specs::TargetReading::power_reads_in))]
fn power_reads_of(alloc: Global, target: &Value) -> Result<u32, JobFault>
    ensures { Gives result (power_reads_in (view target.now)) }
{
    member_or(alloc, target, "power_reads", &POWER_READS, 0)
}

#[tactic(auto, unfolding(crate::specs::TargetReading::port_in))]
fn port_of(alloc: Global, target: &Value) -> Result<DebugPort, JobFault>
    ensures { Gives result (port_in (view target.now)) }
{
    let dpidr = member_or(alloc, target, "dpidr", &Dpidr, 0x2BA0_1477)?;
    let powered = member_or(alloc, target, "powered", &Flag, false)?;
    let power_reads = power_reads_of(alloc, target)?;
    let pins = member_or(alloc, target, "pins", &Pins, 0xA0)?;
    let carry = member_or(alloc, target, "edge", &EDGE, false)?;
    Ok(DebugPort {
        dpidr,
        powered,
        power_reads,
        pins,
        carry,
    })
}

const APS: ListOf<Distinct<ApReader>> = ListOf {
    limit: Some(16),
    item: Distinct { item: ApReader },
};

const REGIONS: ListOf<RegionItems> = ListOf {
    limit: Some(64),
    item: RegionItems,
};

#[tactic(auto, unfolding(crate::specs::TargetReading::aps_in))]
fn aps_of(alloc: Global, target: &Value) -> Result<ApJobs, JobFault>
    ensures { Gives result (aps_in (view target.now)) }
{
    required_of(alloc, target, "aps", &APS)
}

#[tactic(auto, unfolding(crate::specs::TargetReading::regions_in))]
fn regions_of(alloc: Global, target: &Value) -> Result<RegionJobs, JobFault>
    ensures { Gives result (regions_in (view target.now)) }
{
    required_of(alloc, target, "memory", &REGIONS)
}

const WORD_LIMIT: usize = 65_536;

const SCRIPT_LIMIT: usize = 1024;

const RESET_LIMIT: usize = 1024;

#[tactic(auto, unfolding(crate::specs::TargetReading::words_in))]
fn words_of(
    alloc: Global,
    target: &Value,
    key: &str,
    limit: usize,
    regions: &RegionJobs,
) -> Result<WordJobs, JobFault>
    ensures { Gives result (words_in key.now limit regions.now (view target.now)) }
{
    let list = ListOf {
        limit: Some(limit),
        item: Distinct {
            item: WordReader {
                regions: regions.as_slice(),
            },
        },
    };
    member_or(alloc, target, key, &list, ItemList::new(alloc))
}

#[tactic(auto, unfolding(crate::specs::TargetReading::listed_in))]
fn listed_of(alloc: Global, target: &Value, regions: &RegionJobs) -> Result<WordJobs, JobFault>
    ensures { Gives result (listed_in regions.now (view target.now)) }
{
    words_of(alloc, target, "words", WORD_LIMIT, regions)
}

#[tactic(auto, unfolding(crate::specs::TargetReading::reset_in))]
fn reset_of(alloc: Global, target: &Value, regions: &RegionJobs) -> Result<WordJobs, JobFault>
    ensures { Gives result (reset_in regions.now (view target.now)) }
{
    words_of(alloc, target, "reset", RESET_LIMIT, regions)
}

#[tactic(auto, unfolding(crate::specs::TargetReading::scripts_in))]
fn scripts_of(
    alloc: Global,
    target: &Value,
    regions: &RegionJobs,
    words: &WordJobs,
) -> Result<ScriptJobs, JobFault>
    ensures { Gives result (scripts_in regions.now words.now (view target.now)) }
{
    let list = ListOf {
        limit: Some(SCRIPT_LIMIT),
        item: ScriptItems {
            regions: regions.as_slice(),
            words: words.as_slice(),
        },
    };
    member_or(alloc, target, "scripts", &list, ItemList::new(alloc))
}

const TARGET_KEYS: [&str; 10] = [
    "dpidr",
    "powered",
    "power_reads",
    "pins",
    "edge",
    "aps",
    "memory",
    "words",
    "scripts",
    "reset",
];

// That the value has no other keys than a target may have.
fn only_target_keys(alloc: Global, value: &Value) -> Result<(), JobFault>
    ensures { Gives result (only_keys target_keys (view value.now)) }
{
    only_keys_of(alloc, value, &TARGET_KEYS)
}

/// Reads a target.
#[derive(Clone, Copy)]
pub struct TargetReader;

impl Reader for TargetReader {
    type Item = TargetJob;

    ghost reads = { λ _. target_in };

    #[tactic(auto, unfolding(crate::specs::TargetReading::target_in))]
    fn read(&self, alloc: Global, value: &Value) -> Result<TargetJob, JobFault> {
        only_target_keys(alloc, value)?;
        let port = port_of(alloc, value)?;
        let aps = aps_of(alloc, value)?;
        let memory = regions_of(alloc, value)?;
        let words = listed_of(alloc, value, &memory)?;
        let scripts = scripts_of(alloc, value, &memory, &words)?;
        let reset = reset_of(alloc, value, &memory)?;
        Ok(TargetJob {
            dpidr: port.dpidr,
            powered: port.powered,
            power_reads: port.power_reads,
            pins: port.pins,
            carry: port.carry,
            aps,
            memory,
            words,
            scripts,
            reset,
        })
    }
}
