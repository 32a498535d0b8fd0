//! The one device of a name, and its variant.
ghost use Rattle.std.specs.Prelude.{◌≡◌, ◌++◌, OnOk, None, option_map, map, filter, find};
ghost use Rattle.std.specs.Str.{bytes_eq};
ghost use Rattle.std.specs.Option.{option_copied};
ghost use Rattle.sequence_resolve.specs.Places.{places_of, places_in_subs, places_in, is_named, devices_named};
ghost use Rattle.sequence_resolve.specs.Views.{place_view};
ghost use Rattle.sequence_resolve.specs.Resolving.{FindsOnly};

use crate::fault::ResolveFault;
use dap_base::OutOfMemory;
use device_tree::{Device, Family, Pack, SubFamily, Variant};
use std::alloc::Global;

/// A device and the levels around it.
#[derive(Clone, Copy)]
pub struct DevicePlace<'a> {
    pub family: &'a Family,
    pub sub_family: Option<&'a SubFamily>,
    pub device: &'a Device,
}

// Adds the devices of the name.
fn push_named<'a>(
    places: &mut Vec<DevicePlace<'a>>,
    family: &'a Family,
    sub_family: Option<&'a SubFamily>,
    devices: &'a [Device],
    name: &str,
) -> Result<(), OutOfMemory>
    ensures ok { OnOk result (map place_view places.new.items ≡ map place_view places.old.items
        ++ filter (is_named name.now) (places_of family.now (option_map (λ s. s.now) sub_family.entry) devices.now)) }
{
    for device in devices {
        if name == device.name.as_str() {
            let place = DevicePlace {
                family,
                sub_family,
                device,
            };
            if places.push(place).is_err() {
                return Err(OutOfMemory);
            }
        }
    }
    Ok(())
}

// Adds the devices of the name in these subfamilies.
#[tactic(auto, using(crate::proofs::PlaceLemmas::parts))]
fn push_subs<'a>(
    places: &mut Vec<DevicePlace<'a>>,
    family: &'a Family,
    subs: &'a [SubFamily],
    name: &str,
) -> Result<(), OutOfMemory>
    ensures ok { OnOk result (map place_view places.new.items ≡ map place_view places.old.items
        ++ filter (is_named name.now) (places_in_subs family.now subs.now)) }
{
    for sub in subs {
        push_named(places, family, Some(sub), sub.devices.as_slice(), name)?;
    }
    Ok(())
}

// Adds the devices of the name in a family.
#[tactic(auto, using(crate::proofs::PlaceLemmas::parts))]
fn push_family<'a>(
    places: &mut Vec<DevicePlace<'a>>,
    family: &'a Family,
    name: &str,
) -> Result<(), OutOfMemory>
    ensures ok { OnOk result (map place_view places.new.items ≡ map place_view places.old.items
        ++ filter (is_named name.now) (places_in_subs family.now family.now.sub_families ++ places_of family.now None family.now.devices)) }
{
    push_subs(places, family, family.sub_families.as_slice(), name)?;
    push_named(places, family, None, family.devices.as_slice(), name)
}

// Adds the devices of the name in these families.
#[tactic(auto, using(crate::proofs::PlaceLemmas::parts))]
fn push_families<'a>(
    places: &mut Vec<DevicePlace<'a>>,
    families: &'a [Family],
    name: &str,
) -> Result<(), OutOfMemory>
    ensures ok { OnOk result (map place_view places.new.items ≡ map place_view places.old.items
        ++ filter (is_named name.now) (places_in families.now)) }
{
    for family in families {
        push_family(places, family, name)?;
    }
    Ok(())
}

// The only one of these places.
fn only_place<'a>(places: &[DevicePlace<'a>]) -> Result<DevicePlace<'a>, ResolveFault>
    ensures { FindsOnly (map place_view places.now) result }
{
    match places {
        [] => Err(ResolveFault::NoDevice),
        [place] => Ok(*place),
        _ => Err(ResolveFault::AmbiguousDevice),
    }
}

/// The one device of the name, with the levels around it.
pub fn place_of_device<'a>(
    alloc: Global,
    pack: &'a Pack,
    name: &str,
) -> Result<DevicePlace<'a>, ResolveFault>
    ensures { FindsOnly (devices_named name.now pack.now) result }
{
    let mut places = Vec::new(alloc);
    if push_families(&mut places, pack.families.as_slice(), name).is_err() {
        return Err(ResolveFault::OutOfMemory);
    }
    only_place(&places)
}

/// The first variant of the name.
pub fn variant_named<'a>(variants: &'a [Variant], name: &str) -> Option<&'a Variant>
    ensures { option_copied result ≡ find (λ v. bytes_eq name.now v.name) variants.now }
{
    variants.iter().find(|v| name == v.name.as_str())
}
