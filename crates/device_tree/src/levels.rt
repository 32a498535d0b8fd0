//! The levels of a pack, read from JSON.
ghost use Rattle.std.specs.Prelude.{◌≡◌, codes, IfOk, Ok, string_bytes};
ghost use Rattle.std.specs.Str.{bytes_eq};
ghost use Rattle.serde_json.specs.View.{view};
ghost use Rattle.json_form.specs.Faults.{Gives, at};
ghost use Rattle.json_form.specs.declared.path.PathStep.TheVariants.{Key};
ghost use Rattle.json_form.specs.Reading.{only_keys};
ghost use Rattle.device_tree.specs.Keys.{variant_keys, device_keys, sub_family_keys, family_keys};
ghost use Rattle.device_tree.specs.PackReading.{defaults_in, variant_in, device_in, sub_family_in, family_in, pack_in};
ghost use Rattle.device_tree.specs.PackForm.{IsPack};
ghost use Rattle.device_tree.specs.Same.{same_variant};
ghost use Rattle.device_tree.specs.declared.pack.Pack.{Pack};

use crate::pack::{Device, Family, Level, Pack, SubFamily, Variant};
use crate::sequences::{level_of, text_key};
use dap_base::{ItemList, OutOfMemory};
use json_form::{
    Distinct, Each, JobFault, Keyed, ListOf, Reader, Text, fault_under_key, member_or,
    only_keys_of, optional_of, required_of,
};
use serde_json::Value;
use std::alloc::Global;

const LEVEL_KEYS: [&str; 2] = ["debugvars", "sequences"];

#[derive(Clone, Copy)]
struct DefaultsReader;

impl Reader for DefaultsReader {
    type Item = Level;

    ghost reads = { λ _. defaults_in };

    #[tactic(auto, unfolding(crate::specs::PackReading::defaults_in))]
    fn read(&self, alloc: Global, value: &Value) -> Result<Level, JobFault> {
        only_keys_of(alloc, value, &LEVEL_KEYS)?;
        level_of(alloc, value)
    }
}

const VARIANT_KEYS: [&str; 3] = ["Dvariant", "debugvars", "sequences"];

// That the value has no other keys than a variant may have.
fn only_variant_keys(alloc: Global, value: &Value) -> Result<(), JobFault>
    ensures { Gives result (only_keys variant_keys (view value.now)) }
{
    only_keys_of(alloc, value, &VARIANT_KEYS)
}

#[derive(Clone, Copy)]
struct VariantReader;

impl Reader for VariantReader {
    type Item = Variant;

    ghost reads = { λ _. variant_in };

    #[tactic(auto, unfolding(crate::specs::PackReading::variant_in))]
    fn read(&self, alloc: Global, value: &Value) -> Result<Variant, JobFault> {
        only_variant_keys(alloc, value)?;
        let name = required_of(alloc, value, "Dvariant", &Text)?;
        let level = level_of(alloc, value)?;
        Ok(Variant { name, level })
    }
}

impl Keyed for VariantReader {
    type Key = String;

    ghost same = { λ _. same_variant };

    ghost has_key = { λ _ v key. bytes_eq v.name (string_bytes key) };

    #[tactic(auto, using(crate::proofs::KeyLemmas::keys))]
    fn key(&self, alloc: Global, item: &Variant) -> Result<String, OutOfMemory> {
        text_key(alloc, &item.name)
    }
}

const DEVICE_KEYS: [&str; 4] = ["Dname", "debugvars", "sequences", "variants"];

// That the value has no other keys than a device may have.
fn only_device_keys(alloc: Global, value: &Value) -> Result<(), JobFault>
    ensures { Gives result (only_keys device_keys (view value.now)) }
{
    only_keys_of(alloc, value, &DEVICE_KEYS)
}

#[derive(Clone, Copy)]
struct DeviceReader;

impl Reader for DeviceReader {
    type Item = Device;

    ghost reads = { λ _. device_in };

    #[tactic(auto, unfolding(crate::specs::PackReading::device_in))]
    fn read(&self, alloc: Global, value: &Value) -> Result<Device, JobFault> {
        only_device_keys(alloc, value)?;
        let name = required_of(alloc, value, "Dname", &Text)?;
        let level = level_of(alloc, value)?;
        let list = ListOf {
            limit: None,
            item: Distinct {
                item: VariantReader,
            },
        };
        let variants = member_or(alloc, value, "variants", &list, ItemList::new(alloc))?;
        Ok(Device {
            name,
            level,
            variants,
        })
    }
}

const SUB_FAMILY_KEYS: [&str; 4] = ["DsubFamily", "debugvars", "sequences", "devices"];

// That the value has no other keys than a subfamily may have.
fn only_sub_family_keys(alloc: Global, value: &Value) -> Result<(), JobFault>
    ensures { Gives result (only_keys sub_family_keys (view value.now)) }
{
    only_keys_of(alloc, value, &SUB_FAMILY_KEYS)
}

#[derive(Clone, Copy)]
struct SubFamilyReader;

impl Reader for SubFamilyReader {
    type Item = SubFamily;

    ghost reads = { λ _. sub_family_in };

    #[tactic(auto, unfolding(crate::specs::PackReading::sub_family_in))]
    fn read(&self, alloc: Global, value: &Value) -> Result<SubFamily, JobFault> {
        only_sub_family_keys(alloc, value)?;
        let name = required_of(alloc, value, "DsubFamily", &Text)?;
        let level = level_of(alloc, value)?;
        let list = ListOf {
            limit: None,
            item: Each { item: DeviceReader },
        };
        let devices = member_or(alloc, value, "devices", &list, ItemList::new(alloc))?;
        Ok(SubFamily {
            name,
            level,
            devices,
        })
    }
}

const FAMILY_KEYS: [&str; 5] = [
    "Dfamily",
    "debugvars",
    "sequences",
    "subFamilies",
    "devices",
];

// That the value has no other keys than a family may have.
fn only_family_keys(alloc: Global, value: &Value) -> Result<(), JobFault>
    ensures { Gives result (only_keys family_keys (view value.now)) }
{
    only_keys_of(alloc, value, &FAMILY_KEYS)
}

#[derive(Clone, Copy)]
struct FamilyReader;

impl Reader for FamilyReader {
    type Item = Family;

    ghost reads = { λ _. family_in };

    #[tactic(auto, unfolding(crate::specs::PackReading::family_in))]
    fn read(&self, alloc: Global, value: &Value) -> Result<Family, JobFault> {
        only_family_keys(alloc, value)?;
        let name = required_of(alloc, value, "Dfamily", &Text)?;
        let level = level_of(alloc, value)?;
        let subs = ListOf {
            limit: None,
            item: Each {
                item: SubFamilyReader,
            },
        };
        let sub_families = member_or(alloc, value, "subFamilies", &subs, ItemList::new(alloc))?;
        let list = ListOf {
            limit: None,
            item: Each { item: DeviceReader },
        };
        let devices = member_or(alloc, value, "devices", &list, ItemList::new(alloc))?;
        Ok(Family {
            name,
            level,
            sub_families,
            devices,
        })
    }
}

const PACK_KEYS: [&str; 2] = ["defaults", "families"];

/// Reads a pack, as `pack_of` does except for the key at the head of a fault's path.
#[derive(Clone, Copy)]
pub struct PackReader;

impl Reader for PackReader {
    type Item = Pack;

    ghost reads = { λ _. pack_in };

    #[tactic(auto, unfolding(crate::specs::PackReading::pack_in))]
    fn read(&self, alloc: Global, value: &Value) -> Result<Pack, JobFault> {
        only_keys_of(alloc, value, &PACK_KEYS)?;
        let defaults = optional_of(alloc, value, "defaults", &DefaultsReader)?;
        let list = ListOf {
            limit: None,
            item: Each { item: FamilyReader },
        };
        let families = required_of(alloc, value, "families", &list)?;
        Ok(Pack { defaults, families })
    }
}

fn first_pack(alloc: Global, value: &Value) -> Result<Pack, JobFault>
    ensures { Gives result (at (Key (codes "pack")) (pack_in (view value.now))) }
{
    match PackReader.read(alloc, value) {
        Ok(pack) => Ok(pack),
        Err(fault) => Err(fault_under_key(alloc, fault, "pack")),
    }
}

/// The pack that `value`, the member `pack` of a job, stands for, or its first fault, in this order:
/// - in an object that the value is none (`WrongKind`), and the first other key in byte order (`UnknownKey`). Then comes each key in the
///   order of docs/JOB.md: a required one that is absent (`Missing`), or its value wholly;
/// - in a list that the value is none (`WrongKind`); then each item wholly, and after it whether it is the same as an earlier one
///   (`Repeated`).
///
/// The path begins with the key `pack`. `OutOfMemory` where memory is refused.
pub fn pack_of(alloc: Global, value: &Value) -> Result<Pack, JobFault>
    // What is read is what the value stands for.
    ensures found { IfOk result (IsPack (view value.now)) }
    // What the value stands for is read, unless memory is refused.
    ensures only { (pack : Pack) → IsPack (view value.now) pack → Gives result (Ok pack) }
    // Which fault it is.
    ensures fault { Gives result (at (Key (codes "pack")) (pack_in (view value.now))) }
{
    first_pack(alloc, value)
}
