//! The sets that are requested, or why there are none.
ghost use Rattle.std.specs.Prelude.{◌≡◌, ◌⊎◌, None, Some, IfOk, IfErr, option_map, map, count_by};
ghost use Rattle.std.specs.List.{list_any};
ghost use Rattle.sequence_resolve.specs.Views.{place_view};
ghost use Rattle.pack_faults.specs.declared.request.PackRefusal.TheVariants as refusals;
ghost use Rattle.pack_faults.specs.Sets.{devices_of, sets_of, has_set, has_variant, lacks_variant, refusal};
ghost use Rattle.pack_faults.specs.Shared.{AreFine};
ghost use Rattle.pack_faults.specs.Views.{set_view};

use crate::devices::requested_devices;
use crate::groups::groups_of;
use crate::request::{PackRefusal, PackRequest};
use crate::sets::{DeviceSets, sets_of_groups};
use device_tree::Pack;
use sequence_resolve::DevicePlace;
use set_lines::name_of;
use std::alloc::Global;

fn has_variant(place: &DevicePlace, name: &str) -> bool
    ensures { result ≡ has_variant name.now (place_view place.now) }
{
    place
        .device
        .variants
        .as_slice()
        .iter()
        .any(|variant| name == variant.name.as_str())
}

fn is_variant(places: &[DevicePlace], name: &str) -> bool
    ensures { result ≡ list_any (has_variant name.now) (map place_view places.now) }
{
    for place in places {
        if has_variant(place, name) {
            return true;
        }
    }
    false
}

// Whether a variant is requested that none of these devices has.
fn lacks_variant(places: &[DevicePlace], requested: Option<&str>) -> bool
    ensures { result ≡ lacks_variant (option_map (λ w. w.now) requested.entry) (map place_view places.now) }
{
    match requested {
        None => false,
        Some(name) => !is_variant(places, name),
    }
}

/// The sets that are requested of a pack.
pub fn requested_sets<'a>(
    alloc: Global,
    pack: &'a Pack,
    request: &PackRequest,
) -> Result<DeviceSets<'a>, PackRefusal>
    ensures sets { IfOk result (λ d. map set_view d.sets ≡ sets_of pack.now request.now) }
    ensures devices { IfOk result (λ d. d.devices ≡ count_by (has_set pack.now request.now) (devices_of pack.now request.now)) }
    ensures fine { IfOk result (AreFine pack.now) }
    ensures answer { IfOk result (λ d. refusal pack.now request.now ≡ None) }
    ensures answer_fault { IfErr result (λ e. (e ≡ refusals.OutOfMemory) ⊎ (refusal pack.now request.now ≡ Some e)) }
{
    let places = requested_devices(alloc, &pack.families, name_of(&request.device))?;
    if request.device.is_some() && places.is_empty() {
        return Err(PackRefusal::NoDevice);
    }
    if lacks_variant(&places, name_of(&request.variant)) {
        return Err(PackRefusal::NoVariant);
    }
    let groups = groups_of(alloc, &pack.families)?;
    let found = sets_of_groups(alloc, pack, request, groups.as_slice())?;
    if request.pname.is_some() && found.sets.is_empty() {
        return Err(PackRefusal::NoPname);
    }
    Ok(found)
}
