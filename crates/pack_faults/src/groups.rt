//! The devices of a pack in groups, each with the same levels around it.
ghost use Rattle.std.specs.Prelude.{◌≡◌, ◌++◌, ◌∷◌, [], None, IfOk, OnOk};
ghost use Rattle.std.specs.List.{flat_map};
ghost use Rattle.sequence_resolve.specs.Places.{places_of, places_in_subs, places_in};
ghost use Rattle.pack_faults.specs.Shared.{places_in_group};

use dap_base::{ItemList, OutOfMemory};
use device_tree::{Device, Families, Family, SubFamily};
use std::alloc::Global;

/// The devices of a family that stand in one subfamily, or in none.
#[derive(Clone, Copy)]
pub struct Group<'a> {
    pub family: &'a Family,
    pub sub_family: Option<&'a SubFamily>,
    pub devices: &'a [Device],
}

// Adds those of these subfamilies.
fn push_subs<'a>(
    groups: &mut ItemList<Group<'a>>,
    family: &'a Family,
    subs: &'a [SubFamily],
) -> Result<(), OutOfMemory>
    ensures ok { OnOk result (flat_map places_in_group groups.new ≡ flat_map places_in_group groups.old ++ places_in_subs family.now subs.now) }
{
    for sub in subs {
        groups.push(Group {
            family,
            sub_family: Some(sub),
            devices: sub.devices.as_slice(),
        })?;
    }
    Ok(())
}

// Adds those of a family.
fn push_family<'a>(groups: &mut ItemList<Group<'a>>, family: &'a Family) -> Result<(), OutOfMemory>
    ensures ok { OnOk result (flat_map places_in_group groups.new ≡ flat_map places_in_group groups.old
        ++ (places_in_subs family.now family.now.sub_families ++ places_of family.now None family.now.devices)) }
{
    push_subs(groups, family, family.sub_families.as_slice())?;
    groups.push(Group {
        family,
        sub_family: None,
        devices: family.devices.as_slice(),
    })
}

/// The groups of a pack, in its order: in each family those of its subfamilies first.
pub fn groups_of<'a>(
    alloc: Global,
    families: &'a Families,
) -> Result<ItemList<Group<'a>>, OutOfMemory>
    ensures { IfOk result (λ groups. flat_map places_in_group groups ≡ places_in families.now) }
{
    let mut groups = ItemList::new(alloc);
    for family in families.as_slice() {
        push_family(&mut groups, family)?;
    }
    Ok(groups)
}
