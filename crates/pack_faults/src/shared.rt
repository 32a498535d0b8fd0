//! The sets of a path of levels, which the devices and variants share that have nothing of their own.
ghost use Rattle.std.specs.Prelude.{◌≡◌, IfOk, OnOk, map, option_map};
ghost use Rattle.std.specs.List.{All, IsDistinct};
ghost use Rattle.std.specs.Str.{bytes_eq};
ghost use Rattle.sequence_resolve.specs.Levels.{path_of};
ghost use Rattle.sequence_resolve.specs.Resolving.{IsSetAlong};
ghost use Rattle.sequence_resolve.specs.Views.{place_view};
ghost use Rattle.pack_faults.specs.Known.{IsKnown};
ghost use Rattle.pack_faults.specs.Shared.{is_bare, pname_view, IsThere, IsKnownSetOf, AreSetsOf, Grown};
ghost use Rattle.pack_faults.specs.Views.{options_view};

use crate::known::{KnownSet, check_new, known_equal};
use crate::pnames::processors_of;
use crate::request::PackRequest;
use crate::texts::text_of;
use dap_base::{ItemList, NameText, OutOfMemory};
use device_tree::{Level, Pack, Variant};
use sequence_resolve::{DevicePlace, SeqSet, levels_of, set_along};
use set_lines::name_of;
use std::alloc::Global;

/// A processor or none, and the number of its set among those that were checked.
#[derive(Clone, Copy)]
pub struct PnameSet<'a> {
    pub pname: Option<&'a NameText>,
    pub number: usize,
}

/// Whether a level has nothing of its own: no sequences and no `debugvars`.
pub fn is_bare(level: &Level) -> bool
    ensures { result ≡ is_bare level.now }
{
    level.sequences.is_empty() && level.debugvars.is_none()
}

// The set of this device, variant and processor.
fn set_of(
    alloc: Global,
    pack: &Pack,
    place: &DevicePlace,
    variant: Option<&Variant>,
    pname: Option<&NameText>,
) -> Result<SeqSet, OutOfMemory>
    ensures set { IfOk result (IsSetAlong pack.now (place_view place.now) (option_map (λ v. v.now) variant.entry) (option_map (λ name. name.now) pname.entry)) }
    ensures distinct { IfOk result (λ set. IsDistinct bytes_eq (map (λ e. e.name) set.entries)) }
{
    set_along(alloc, pack, place, variant, text_of(pname))
}

// The number of this set among those that were checked. It is checked unless one of the last of them is equal.
fn number_of(
    alloc: Global,
    set: SeqSet,
    known: &mut ItemList<KnownSet>,
) -> Result<usize, OutOfMemory>
    requires known { All IsKnown known.old }
    requires distinct { IsDistinct bytes_eq (map (λ e. e.name) set.entries) }
    ensures number { IfOk result (λ n. IsThere set known.new n) }
    ensures known { OnOk result (All IsKnown known.new) }
    ensures grown { OnOk result (Grown known.old known.new) }
{
    if let Some(number) = known_equal(known.as_slice(), &set) {
        drop(set);
        return Ok(number);
    }
    let number = known.len();
    known.push(check_new(alloc, set)?)?;
    Ok(number)
}

// The number of the set of this device, variant and processor.
fn number_along(
    alloc: Global,
    pack: &Pack,
    place: &DevicePlace,
    variant: Option<&Variant>,
    pname: Option<&NameText>,
    known: &mut ItemList<KnownSet>,
) -> Result<usize, OutOfMemory>
    requires { All IsKnown known.old }
    ensures number { IfOk result (IsKnownSetOf known.new (path_of pack.now (place_view place.now) (option_map (λ v. v.now) variant.entry))
        (option_map (λ name. name.now) pname.entry)) }
    ensures known { OnOk result (All IsKnown known.new) }
    ensures grown { OnOk result (Grown known.old known.new) }
{
    let set = set_of(alloc, pack, place, variant, pname)?;
    number_of(alloc, set, known)
}

// The sets of this device and variant for these processors.
fn sets_for<'a>(
    alloc: Global,
    pack: &Pack,
    place: &DevicePlace,
    variant: Option<&Variant>,
    pnames: &[Option<&'a NameText>],
    known: &mut ItemList<KnownSet>,
) -> Result<ItemList<PnameSet<'a>>, OutOfMemory>
    requires { All IsKnown known.old }
    ensures pnames { IfOk result (λ sets. map pname_view sets ≡ options_view pnames.now) }
    ensures each { IfOk result (All (λ m. IsKnownSetOf known.new (path_of pack.now (place_view place.now) (option_map (λ v. v.now) variant.entry))
        (pname_view m) m.number)) }
    ensures known { OnOk result (All IsKnown known.new) }
    ensures grown { OnOk result (Grown known.old known.new) }
{
    let mut sets = ItemList::new(alloc);
    for pname in pnames {
        let number = number_along(alloc, pack, place, variant, *pname, known)?;
        sets.push(PnameSet {
            pname: *pname,
            number,
        })?;
    }
    Ok(sets)
}

/// The sets of this device and variant for the processors that are requested, each checked unless it was.
pub fn sets_along<'a>(
    alloc: Global,
    pack: &'a Pack,
    request: &PackRequest,
    place: &DevicePlace<'a>,
    variant: Option<&'a Variant>,
    known: &mut ItemList<KnownSet>,
) -> Result<ItemList<PnameSet<'a>>, OutOfMemory>
    requires { All IsKnown known.old }
    ensures sets { IfOk result (AreSetsOf request.now known.new (path_of pack.now (place_view place.now) (option_map (λ v. v.now) variant.entry))) }
    ensures known { OnOk result (All IsKnown known.new) }
    ensures grown { OnOk result (Grown known.old known.new) }
{
    let levels = levels_of(alloc, pack, place, variant)?;
    let pnames = processors_of(alloc, &levels, name_of(&request.pname))?;
    sets_for(alloc, pack, place, variant, pnames.as_slice(), known)
}
