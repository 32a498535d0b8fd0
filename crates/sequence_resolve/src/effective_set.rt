//! The set of a device, variant and processor.
ghost use Rattle.std.specs.Prelude.{◌≡◌, ◌≢◌, ◌⊎◌, [], IfOk, IfErr, MatchResult, IsErrAnd, map, option_map};
ghost use Rattle.std.specs.List.{IsDistinct};
ghost use Rattle.std.specs.Str.{bytes_eq};
ghost use Rattle.std.specs.Option.{option_copied};
ghost use Rattle.sequence_resolve.specs.declared.entry.SeqSet.{SeqSet};
ghost use Rattle.sequence_resolve.specs.declared.fault.ResolveFault.{ResolveFault};
ghost use Rattle.sequence_resolve.specs.declared.fault.ResolveFault.TheVariants as faults;
ghost use Rattle.sequence_resolve.specs.Places.{requested_variant};
ghost use Rattle.sequence_resolve.specs.Levels.{path_of, deepest};
ghost use Rattle.sequence_resolve.specs.Effective.{candidates, entry_of};
ghost use Rattle.sequence_resolve.specs.Winners.{with_all};
ghost use Rattle.sequence_resolve.specs.Views.{place_view, winner_view};
ghost use Rattle.sequence_resolve.specs.Resolving.{IsSetAlong, IsEffectiveSet, HasNone};

use crate::copy::copy_text;
use crate::entry::{SeqEntries, SeqEntry, SeqSet};
use crate::fault::ResolveFault;
use crate::levels::{debugvars_of, levels_of};
use crate::place::{DevicePlace, place_of_device, variant_named};
use crate::winners::{Winner, winners_of};
use dap_base::{ItemList, OutOfMemory};
use device_tree::{Device, Pack, SharedSteps, Steps, Variant};
use std::alloc::Global;

fn entry_from(alloc: Global, winner: &Winner) -> Result<SeqEntry, OutOfMemory>
    ensures { IfOk result (λ e. e ≡ entry_of (winner_view winner.now)) }
{
    let sequence = winner.sequence;
    let steps = if sequence.disable {
        SharedSteps::new(alloc, Steps::new(alloc))?
    } else {
        sequence.steps.share()?
    };
    Ok(SeqEntry {
        name: copy_text(alloc, &sequence.name)?,
        from: winner.kind,
        disabled: sequence.disable,
        steps,
    })
}

fn entries_of(alloc: Global, winners: &[Winner]) -> Result<SeqEntries, OutOfMemory>
    ensures { IfOk result (λ es. es ≡ map entry_of (map winner_view winners.now)) }
{
    let mut entries = ItemList::new(alloc);
    for winner in winners {
        entries.push(entry_from(alloc, winner)?)?;
    }
    Ok(entries)
}

// The variant that is requested, which may be none. `None` where the device has no variant of the name.
fn variant_of<'a>(device: &'a Device, requested: Option<&str>) -> Option<Option<&'a Variant>>
    ensures { option_map option_copied result ≡ requested_variant (option_map (λ w. w.now) requested.entry) device.now }
{
    match requested {
        None => Some(None),
        Some(name) => match variant_named(device.variants.as_slice(), name) {
            Some(variant) => Some(Some(variant)),
            None => None,
        },
    }
}

fn set_of(
    alloc: Global,
    pack: &Pack,
    place: &DevicePlace,
    variant: Option<&Variant>,
    pname: Option<&str>,
) -> Result<SeqSet, OutOfMemory>
    ensures entries { IfOk result (λ s. s.entries ≡ map entry_of (with_all []
        (candidates (option_map (λ w. w.now) pname.entry) 0 (path_of pack.now (place_view place.now) (option_map (λ v. v.now) variant.entry))))) }
    ensures debugvars { IfOk result (λ s. s.debugvars ≡ deepest [] (path_of pack.now (place_view place.now) (option_map (λ v. v.now) variant.entry))) }
{
    let levels = levels_of(alloc, pack, place, variant)?;
    let winners = winners_of(alloc, &levels, pname)?;
    let entries = entries_of(alloc, &winners)?;
    let debugvars = debugvars_of(alloc, &levels)?;
    Ok(SeqSet { entries, debugvars })
}

/// The sequences that apply along the path to a device of the pack, to `variant` where one is given, and for the processor `pname` where
/// one is requested. They apply by the rules of `effective`, which finds the place and the variant by their names.
///
/// The variant is to be one of the device, and `place` a place of the pack; nothing is checked of either. `OutOfMemory` where
/// memory is refused.
pub fn set_along(
    alloc: Global,
    pack: &Pack,
    place: &DevicePlace,
    variant: Option<&Variant>,
    pname: Option<&str>,
) -> Result<SeqSet, OutOfMemory>
    ensures answer { IfOk result (IsSetAlong pack.now (place_view place.now) (option_map (λ v. v.now) variant.entry) (option_map (λ w. w.now) pname.entry)) }
    ensures only { (set : SeqSet)
        → IsSetAlong pack.now (place_view place.now) (option_map (λ v. v.now) variant.entry) (option_map (λ w. w.now) pname.entry) set
        → IfOk result (λ s. s ≡ set) }
    ensures distinct { IfOk result (λ set. IsDistinct bytes_eq (map (λ e. e.name) set.entries)) }
{
    set_of(alloc, pack, place, variant, pname)
}

/// The sequences that apply to the device of the name `device`. They are those for its variant of the name `variant`, and for the processor
/// `pname`, where these are requested.
///
/// The levels go from the pack's `defaults` over family, subfamily and device to the variant. A
/// sequence counts where its `Pname` is the requested one or where it has none. Of each name the one at
/// the deepest level applies, and at that level the one with the requested `Pname` before the one
/// without. A disabled one applies without steps. The names stand in the order in which they first
/// appear along the levels. The debug variables are those of the deepest level that has that
/// element alone.
///
/// `NoDevice` comes exactly where no device of the pack has the name, and `AmbiguousDevice` exactly where two or more have it. `NoVariant`
/// comes exactly where the one device has no variant of the name, and `OutOfMemory` where memory is refused. Where a level has two
/// sequences of one name and one `Pname`, which a pack that was read has not, the later one applies. So what is requested of a pack has one
/// set at most, and that set is the answer unless memory is refused.
pub fn effective(
    alloc: Global,
    pack: &Pack,
    device: &str,
    variant: Option<&str>,
    pname: Option<&str>,
) -> Result<SeqSet, ResolveFault>
    ensures answer { IfOk result (IsEffectiveSet pack.now device.now (option_map (λ w. w.now) variant.entry) (option_map (λ w. w.now) pname.entry)) }
    ensures answer_fault { IfErr result (HasNone pack.now device.now (option_map (λ w. w.now) variant.entry)) }
    ensures only { (set : SeqSet)
        → IsEffectiveSet pack.now device.now (option_map (λ w. w.now) variant.entry) (option_map (λ w. w.now) pname.entry) set
        → MatchResult result (λ s. s ≡ set) (λ e. e ≡ faults.OutOfMemory) }
    ensures only_fault { (fault : ResolveFault)
        → HasNone pack.now device.now (option_map (λ w. w.now) variant.entry) fault → fault ≢ faults.OutOfMemory
        → IsErrAnd result (λ e. (e ≡ fault) ⊎ (e ≡ faults.OutOfMemory)) }
    ensures distinct { IfOk result (λ set. IsDistinct bytes_eq (map (λ e. e.name) set.entries)) }
{
    let place = place_of_device(alloc, pack, device)?;
    let Some(variant) = variant_of(place.device, variant) else {
        return Err(ResolveFault::NoVariant);
    };
    Ok(set_of(alloc, pack, &place, variant, pname)?)
}
