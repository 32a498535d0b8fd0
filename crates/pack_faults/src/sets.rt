//! The sets of devices: for each variant and each processor.
ghost use Rattle.std.specs.Prelude.{◌≡◌, ◌<◌, ◌+◌, ◌++◌, ◌∷◌, [], true, List, Option, None, Some, IfOk, OnOk, option_map, map, filter, count_by, if◌then◌else◌};
ghost use Rattle.std.specs.List.{flat_map};
ghost use Rattle.sequence_resolve.specs.Levels.{LevelAt, path_of};
ghost use Rattle.pack_faults.specs.declared.shared.PnameSet.{PnameSet};
ghost use Rattle.sequence_resolve.specs.Views.{place_view};
ghost use Rattle.pack_faults.specs.Sets.{is_requested, is_device, sets_at, sets_with, device_sets, devices_sets, has_set};
ghost use Rattle.pack_faults.specs.Shared.{levels_above, places_in_group, set_ref, AreFine, IsFineWithShared, AreAdded, DevicesAreCounted};
ghost use Rattle.pack_faults.specs.Views.{set_view};

use crate::devices::is_requested;
use crate::groups::Group;
use crate::known::KnownSet;
use crate::request::PackRequest;
use crate::shared::{PnameSet, is_bare, sets_along};
use dap_base::{ItemList, NameText, OutOfMemory};
use device_tree::{Pack, Variant};
use sequence_resolve::DevicePlace;
use set_lines::name_of;
use std::alloc::Global;

/// A set: a device, a variant of it or none, a processor or none, and its number among the known sets.
#[derive(Clone, Copy)]
pub struct SetRef<'a> {
    pub place: DevicePlace<'a>,
    pub variant: Option<&'a Variant>,
    pub pname: Option<&'a NameText>,
    pub number: usize,
}

/// The sets of devices.
#[derive(Drop)]
pub struct DeviceSets<'a> {
    pub sets: ItemList<SetRef<'a>>,
    /// How many of the devices have a set.
    pub devices: usize,
    /// The sets that were checked.
    pub known: ItemList<KnownSet>,
}

/// The sets that devices and variants with nothing of their own share, where they are known.
type Shared<'a> = Option<ItemList<PnameSet<'a>>>;

// Adds a set for each of these.
fn push_each<'a>(
    place: DevicePlace<'a>,
    variant: Option<&'a Variant>,
    each: &[PnameSet<'a>],
    sets: &mut ItemList<SetRef<'a>>,
) -> Result<(), OutOfMemory>
    ensures { OnOk result (sets.new ≡ sets.old ++ map (set_ref place.entry variant.entry) each.now) }
{
    for one in each {
        sets.push(SetRef {
            place,
            variant,
            pname: one.pname,
            number: one.number,
        })?;
    }
    Ok(())
}

// Adds the sets of a device with this variant or none, whose faults are found.
fn push_new<'a>(
    alloc: Global,
    pack: &'a Pack,
    request: &PackRequest,
    place: DevicePlace<'a>,
    variant: Option<&'a Variant>,
    found: &mut DeviceSets<'a>,
) -> Result<ItemList<PnameSet<'a>>, OutOfMemory>
    requires { AreFine pack.now found.old }
    ensures { IfOk result (λ each. AreAdded pack.now request.now (path_of pack.now (place_view place.entry) (option_map (λ v. v.now) variant.entry))
        (sets_at pack.now request.now (place_view place.entry) (option_map (λ v. v.now) variant.entry)) found.old (Some each) found.new) }
{
    let each = sets_along(alloc, pack, request, &place, variant, &mut found.known)?;
    push_each(place, variant, each.as_slice(), &mut found.sets)?;
    Ok(each)
}

// The sets that are shared, where they are known.
fn sets_in<'s, 'a>(shared: &'s Shared<'a>) -> Option<&'s [PnameSet<'a>]>
    ensures { option_map (λ sets. sets.now) result ≡ shared.now }
{
    match shared {
        Some(sets) => Some(sets.as_slice()),
        None => None,
    }
}

// Adds the sets of a device with this variant or none. They are those that are shared, where these are known.
fn push_sets<'a>(
    alloc: Global,
    pack: &'a Pack,
    request: &PackRequest,
    place: DevicePlace<'a>,
    variant: Option<&'a Variant>,
    shared: &mut Shared<'a>,
    found: &mut DeviceSets<'a>,
) -> Result<(), OutOfMemory>
    requires { IsFineWithShared pack.now request.now (path_of pack.now (place_view place) (option_map (λ v. v.now) variant)) shared.old found.old }
    ensures { OnOk result (AreAdded pack.now request.now (path_of pack.now (place_view place.entry) (option_map (λ v. v.now) variant.entry))
        (sets_at pack.now request.now (place_view place.entry) (option_map (λ v. v.now) variant.entry)) found.old shared.new found.new) }
{
    if let Some(each) = sets_in(shared) {
        return push_each(place, variant, each, &mut found.sets);
    }
    *shared = Some(push_new(alloc, pack, request, place, variant, found)?);
    Ok(())
}

// Adds the sets of a device with this variant, which shares those of the device unless it has something of its own.
fn push_variant<'a>(
    alloc: Global,
    pack: &'a Pack,
    request: &PackRequest,
    place: DevicePlace<'a>,
    variant: &'a Variant,
    shared: &mut Shared<'a>,
    found: &mut DeviceSets<'a>,
) -> Result<(), OutOfMemory>
    requires { IsFineWithShared pack.now request.now (path_of pack.now (place_view place) None) shared.old found.old }
    ensures { OnOk result (AreAdded pack.now request.now (path_of pack.now (place_view place.entry) None)
        (sets_at pack.now request.now (place_view place.entry) (Some variant.now)) found.old shared.new found.new) }
{
    if is_bare(&variant.level) {
        return push_sets(alloc, pack, request, place, Some(variant), shared, found);
    }
    push_new(alloc, pack, request, place, Some(variant), found)?;
    Ok(())
}

// Adds the sets of a device with this variant, if it is requested.
fn push_requested<'a>(
    alloc: Global,
    pack: &'a Pack,
    request: &PackRequest,
    place: DevicePlace<'a>,
    variant: &'a Variant,
    shared: &mut Shared<'a>,
    found: &mut DeviceSets<'a>,
) -> Result<(), OutOfMemory>
    requires { IsFineWithShared pack.now request.now (path_of pack.now (place_view place) None) shared.old found.old }
    ensures { OnOk result (AreAdded pack.now request.now (path_of pack.now (place_view place.entry) None)
        (if is_requested request.now.variant variant.now.name then sets_at pack.now request.now (place_view place.entry) (Some variant.now) else [])
        found.old shared.new found.new) }
{
    if is_requested(name_of(&request.variant), variant.name.as_str()) {
        return push_variant(alloc, pack, request, place, variant, shared, found);
    }
    Ok(())
}

// Adds the sets of a device with those of its variants that are requested.
fn push_variants<'a>(
    alloc: Global,
    pack: &'a Pack,
    request: &PackRequest,
    place: DevicePlace<'a>,
    shared: &mut Shared<'a>,
    found: &mut DeviceSets<'a>,
) -> Result<(), OutOfMemory>
    requires { IsFineWithShared pack.now request.now (path_of pack.now (place_view place) None) shared.old found.old }
    ensures { OnOk result (AreAdded pack.now request.now (path_of pack.now (place_view place.entry) None) (sets_with pack.now request.now (place_view place.entry)
        (map (λ v. Some v) (filter (λ v. is_requested request.now.variant v.name) (place_view place.entry).device.variants))) found.old shared.new found.new) }
{
    for variant in place.device.variants.as_slice() {
        push_requested(alloc, pack, request, place, variant, shared, found)?;
    }
    Ok(())
}

// Adds the sets of a device without a variant, and with each.
fn push_every<'a>(
    alloc: Global,
    pack: &'a Pack,
    request: &PackRequest,
    place: DevicePlace<'a>,
    shared: &mut Shared<'a>,
    found: &mut DeviceSets<'a>,
) -> Result<(), OutOfMemory>
    requires all { request.now.variant ≡ None }
    requires ready { IsFineWithShared pack.now request.now (path_of pack.now (place_view place) None) shared.old found.old }
    ensures { OnOk result (AreAdded pack.now request.now (path_of pack.now (place_view place.entry) None)
        (device_sets pack.now request.now (place_view place.entry)) found.old shared.new found.new) }
{
    push_sets(alloc, pack, request, place, None, shared, found)?;
    push_variants(alloc, pack, request, place, shared, found)
}

// Adds the sets of a device: without a variant, unless one is requested, and with each that is.
fn push_device<'a>(
    alloc: Global,
    pack: &'a Pack,
    request: &PackRequest,
    place: DevicePlace<'a>,
    shared: &mut Shared<'a>,
    found: &mut DeviceSets<'a>,
) -> Result<(), OutOfMemory>
    requires { IsFineWithShared pack.now request.now (path_of pack.now (place_view place) None) shared.old found.old }
    ensures { OnOk result (AreAdded pack.now request.now (path_of pack.now (place_view place.entry) None)
        (device_sets pack.now request.now (place_view place.entry)) found.old shared.new found.new) }
{
    match &request.variant {
        None => push_every(alloc, pack, request, place, shared, found),
        Some(_) => push_variants(alloc, pack, request, place, shared, found),
    }
}

// Adds the sets of a device with something of its own.
fn push_own<'a>(
    alloc: Global,
    pack: &'a Pack,
    request: &PackRequest,
    place: DevicePlace<'a>,
    found: &mut DeviceSets<'a>,
) -> Result<(), OutOfMemory>
    requires { AreFine pack.now found.old }
    ensures { OnOk result ((levels : List LevelAt) (shared : Option (List PnameSet)) → IsFineWithShared pack.now request.now levels shared found.old
        → AreAdded pack.now request.now levels (device_sets pack.now request.now (place_view place.entry)) found.old shared found.new) }
{
    let mut shared = None;
    push_device(alloc, pack, request, place, &mut shared, found)
}

// Adds the sets of a device, which shares those of its group unless it has something of its own.
fn push_in_group<'a>(
    alloc: Global,
    pack: &'a Pack,
    request: &PackRequest,
    place: DevicePlace<'a>,
    shared: &mut Shared<'a>,
    found: &mut DeviceSets<'a>,
) -> Result<(), OutOfMemory>
    requires { IsFineWithShared pack.now request.now (levels_above pack.now (place_view place).family (place_view place).sub_family) shared.old found.old }
    ensures { OnOk result (AreAdded pack.now request.now (levels_above pack.now (place_view place.entry).family (place_view place.entry).sub_family)
        (device_sets pack.now request.now (place_view place.entry)) found.old shared.new found.new) }
{
    if is_bare(&place.device.level) {
        return push_device(alloc, pack, request, place, shared, found);
    }
    push_own(alloc, pack, request, place, found)
}

// The count, and one more where there is one.
fn add_if(count: usize, is_one: bool) -> usize
    requires { is_one ≡ true → count < usize.MAX }
    ensures { result ≡ count + (if is_one then 1 else 0) }
{
    if is_one { count + 1 } else { count }
}

// Adds the sets of a device, and counts it where it has one.
fn push_counted<'a>(
    alloc: Global,
    pack: &'a Pack,
    request: &PackRequest,
    place: DevicePlace<'a>,
    shared: &mut Shared<'a>,
    found: &mut DeviceSets<'a>,
) -> Result<(), OutOfMemory>
    requires { IsFineWithShared pack.now request.now (levels_above pack.now (place_view place).family (place_view place).sub_family) shared.old found.old }
    ensures counted { OnOk result (DevicesAreCounted pack.now request.now (place_view place.entry ∷ []) found.old found.new) }
    ensures ready { OnOk result (IsFineWithShared pack.now request.now
        (levels_above pack.now (place_view place.entry).family (place_view place.entry).sub_family) shared.new found.new) }
{
    let before = found.sets.len();
    push_in_group(alloc, pack, request, place, shared, found)?;
    found.devices = add_if(found.devices, before < found.sets.len());
    Ok(())
}

// Adds the sets of a device, if it is requested.
fn push_if_requested<'a>(
    alloc: Global,
    pack: &'a Pack,
    request: &PackRequest,
    place: DevicePlace<'a>,
    shared: &mut Shared<'a>,
    found: &mut DeviceSets<'a>,
) -> Result<(), OutOfMemory>
    requires { IsFineWithShared pack.now request.now (levels_above pack.now (place_view place).family (place_view place).sub_family) shared.old found.old }
    ensures counted { OnOk result (DevicesAreCounted pack.now request.now
        (if is_device request.now.device (place_view place.entry) then place_view place.entry ∷ [] else []) found.old found.new) }
    ensures ready { OnOk result (IsFineWithShared pack.now request.now
        (levels_above pack.now (place_view place.entry).family (place_view place.entry).sub_family) shared.new found.new) }
{
    if is_requested(name_of(&request.device), place.device.name.as_str()) {
        return push_counted(alloc, pack, request, place, shared, found);
    }
    Ok(())
}

// Adds the sets of those devices of a group that are requested.
fn push_group<'a>(
    alloc: Global,
    pack: &'a Pack,
    request: &PackRequest,
    group: &Group<'a>,
    found: &mut DeviceSets<'a>,
) -> Result<(), OutOfMemory>
    requires { AreFine pack.now found.old }
    ensures { OnOk result (DevicesAreCounted pack.now request.now (filter (is_device request.now.device) (places_in_group group.now)) found.old found.new) }
{
    let mut shared = None;
    for device in group.devices {
        let place = DevicePlace {
            family: group.family,
            sub_family: group.sub_family,
            device,
        };
        push_if_requested(alloc, pack, request, place, &mut shared, found)?;
    }
    Ok(())
}

/// The sets of those devices of these groups that are requested.
pub fn sets_of_groups<'a>(
    alloc: Global,
    pack: &'a Pack,
    request: &PackRequest,
    groups: &[Group<'a>],
) -> Result<DeviceSets<'a>, OutOfMemory>
    ensures sets { IfOk result (λ d. map set_view d.sets ≡ devices_sets pack.now request.now
        (filter (is_device request.now.device) (flat_map places_in_group groups.now))) }
    ensures devices { IfOk result (λ d. d.devices ≡ count_by (has_set pack.now request.now)
        (filter (is_device request.now.device) (flat_map places_in_group groups.now))) }
    ensures fine { IfOk result (AreFine pack.now) }
{
    let mut found = DeviceSets {
        sets: ItemList::new(alloc),
        devices: 0,
        known: ItemList::new(alloc),
    };
    for group in groups {
        push_group(alloc, pack, request, group, &mut found)?;
    }
    Ok(found)
}
