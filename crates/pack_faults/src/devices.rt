//! The devices of a pack that are requested.
ghost use Rattle.std.specs.Prelude.{◌≡◌, ◌++◌, IfOk, OnOk, None, option_map, map, filter};
ghost use Rattle.sequence_resolve.specs.Places.{places_of, places_in_subs, places_in};
ghost use Rattle.sequence_resolve.specs.Views.{place_view};
ghost use Rattle.pack_faults.specs.Sets.{is_requested, is_device};

use dap_base::OutOfMemory;
use device_tree::{Device, Families, Family, SubFamily};
use sequence_resolve::DevicePlace;
use std::alloc::Global;

/// Whether this name is meant by what is requested.
pub fn is_requested(requested: Option<&str>, name: &str) -> bool
    ensures { result ≡ is_requested (option_map (λ w. w.now) requested.entry) name.now }
{
    match requested {
        None => true,
        Some(requested) => requested == name,
    }
}

// Adds those of these devices that are requested.
fn push_devices<'a>(
    places: &mut Vec<DevicePlace<'a>>,
    family: &'a Family,
    sub_family: Option<&'a SubFamily>,
    devices: &'a [Device],
    requested: Option<&str>,
) -> Result<(), OutOfMemory>
    ensures ok { OnOk result (map place_view places.new.items ≡ map place_view places.old.items
        ++ filter (is_device (option_map (λ w. w.now) requested.entry)) (places_of family.now (option_map (λ s. s.now) sub_family.entry) devices.now)) }
{
    for device in devices {
        if is_requested(requested, device.name.as_str()) {
            let place = DevicePlace {
                family,
                sub_family,
                device,
            };
            if places.push(place).is_err() {
                return Err(OutOfMemory);
            }
        }
    }
    Ok(())
}

// Adds those in these subfamilies.
#[tactic(auto, using(sequence_resolve::proofs::PlaceLemmas::parts))]
fn push_subs<'a>(
    places: &mut Vec<DevicePlace<'a>>,
    family: &'a Family,
    subs: &'a [SubFamily],
    requested: Option<&str>,
) -> Result<(), OutOfMemory>
    ensures ok { OnOk result (map place_view places.new.items ≡ map place_view places.old.items
        ++ filter (is_device (option_map (λ w. w.now) requested.entry)) (places_in_subs family.now subs.now)) }
{
    for sub in subs {
        push_devices(places, family, Some(sub), sub.devices.as_slice(), requested)?;
    }
    Ok(())
}

// Adds those in a family.
#[tactic(auto, using(sequence_resolve::proofs::PlaceLemmas::parts))]
fn push_family<'a>(
    places: &mut Vec<DevicePlace<'a>>,
    family: &'a Family,
    requested: Option<&str>,
) -> Result<(), OutOfMemory>
    ensures ok { OnOk result (map place_view places.new.items ≡ map place_view places.old.items
        ++ filter (is_device (option_map (λ w. w.now) requested.entry)) (places_in_subs family.now family.now.sub_families
        ++ places_of family.now None family.now.devices)) }
{
    push_subs(places, family, family.sub_families.as_slice(), requested)?;
    push_devices(places, family, None, family.devices.as_slice(), requested)
}

/// The devices that are requested, in the order of the pack.
#[tactic(auto, using(sequence_resolve::proofs::PlaceLemmas::parts))]
pub fn requested_devices<'a>(
    alloc: Global,
    families: &'a Families,
    requested: Option<&str>,
) -> Result<Vec<DevicePlace<'a>>, OutOfMemory>
    ensures { IfOk result (λ places. map place_view places.items ≡ filter (is_device (option_map (λ w. w.now) requested.entry)) (places_in families.now)) }
{
    let mut places = Vec::new(alloc);
    for family in families.as_slice() {
        push_family(&mut places, family, requested)?;
    }
    Ok(places)
}
