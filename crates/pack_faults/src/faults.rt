//! All faults of a pack.
ghost use Rattle.std.specs.Prelude.{◌≡◌, ◌⊎◌, Some, IfOk, IfErr, IsErrAnd, option_map, map, count_by};
ghost use Rattle.pack_faults.specs.declared.request.PackRefusal.{PackRefusal};
ghost use Rattle.pack_faults.specs.declared.request.PackRefusal.TheVariants as refusals;
ghost use Rattle.pack_faults.specs.declared.answer.PackFaults.{PackFaults};
ghost use Rattle.pack_faults.specs.Sets.{set_name, refusal};
ghost use Rattle.pack_faults.specs.Answers.{is_unread, is_unfinished, ArePackFaults};
ghost use Rattle.pack_faults.specs.Views.{set_view};

use crate::answer::PackFaults;
use crate::checking::faults_of_sets;
use crate::merging::list_of;
use crate::refusals::requested_sets;
use crate::request::{PackRefusal, PackRequest, SetName};
use crate::sets::SetRef;
use crate::texts::{copy_of, text_of};
use dap_base::{ItemList, NameText, OutOfMemory};
use device_tree::{Pack, Variant};
use set_faults::Phase;
use std::alloc::Global;

fn variant_name<'a>(variant: Option<&'a Variant>) -> Option<&'a str>
    ensures { option_map (λ w. w.now) result ≡ option_map (λ v. v.now.name) variant.entry }
{
    match variant {
        Some(variant) => Some(variant.name.as_str()),
        None => None,
    }
}

fn name_of_set(alloc: Global, at: &SetRef) -> Result<SetName, OutOfMemory>
    ensures { IfOk result (λ name. name ≡ set_name (set_view at.now)) }
{
    Ok(SetName {
        device: NameText::new(alloc, at.place.device.name.as_str())?,
        variant: copy_of(alloc, variant_name(at.variant))?,
        pname: copy_of(alloc, text_of(at.pname))?,
    })
}

fn names_of(alloc: Global, sets: &[SetRef]) -> Result<ItemList<SetName>, OutOfMemory>
    ensures { IfOk result (λ names. names ≡ map set_name (map set_view sets.now)) }
{
    let mut names = ItemList::new(alloc);
    for at in sets {
        names.push(name_of_set(alloc, at)?)?;
    }
    Ok(names)
}

fn is_unread(phase: Phase) -> bool
    ensures { result ≡ is_unread phase }
{
    match phase {
        Phase::Syntax => true,
        Phase::Rules | Phase::Cycles | Phase::Depth => false,
    }
}

fn is_unfinished(phase: Phase) -> bool
    ensures { result ≡ is_unfinished phase }
{
    match phase {
        Phase::Syntax | Phase::Rules | Phase::Cycles => true,
        Phase::Depth => false,
    }
}

fn count_unread(phases: &[Phase]) -> usize
    ensures { result ≡ count_by is_unread phases.now }
{
    phases.iter().filter(|phase| is_unread(**phase)).count()
}

fn count_unfinished(phases: &[Phase]) -> usize
    ensures { result ≡ count_by is_unfinished phases.now }
{
    phases.iter().filter(|phase| is_unfinished(**phase)).count()
}

/// All faults of the sets of a pack that are requested: of each device, without a variant and with each of its variants,
/// for each processor. The order is that of the sets, and in a set that of `set_faults::all_faults`. A fault that several
/// sets have stands where it comes first, with all of them.
///
/// The devices come in the order of the pack: in each family those of its subfamilies first. The processors of a device
/// are the `Pname`s of the sequences along its path of levels; where there is none, it has one set without a processor.
///
/// `NoDevice` comes exactly where a device is requested that the pack has not. Else `NoVariant` comes where none of the devices has the
/// requested variant, and else `NoPname` where no sequence for them has the requested `Pname`. `OutOfMemory` where memory is refused.
pub fn pack_faults(
    alloc: Global,
    pack: &Pack,
    request: &PackRequest,
) -> Result<PackFaults, PackRefusal>
    ensures answer { IfOk result (ArePackFaults pack.now request.now) }
    ensures only { (other : PackFaults) → ArePackFaults pack.now request.now other → IfOk result (λ answer. answer ≡ other) }
    ensures answer_fault { IfErr result (λ e. (e ≡ refusals.OutOfMemory) ⊎ (refusal pack.now request.now ≡ Some e)) }
    ensures only_fault { (e : PackRefusal) → refusal pack.now request.now ≡ Some e → IsErrAnd result (λ f. (f ≡ e) ⊎ (f ≡ refusals.OutOfMemory)) }
{
    let found = requested_sets(alloc, pack, request)?;
    let devices = found.devices;
    let sets = names_of(alloc, found.sets.as_slice())?;
    let checking = faults_of_sets(alloc, found.known.as_slice(), found.sets.as_slice())?;
    let unread = count_unread(checking.phases.as_slice());
    let unreached = count_unfinished(checking.phases.as_slice());
    let faults = list_of(alloc, checking.faults)?;
    Ok(PackFaults {
        devices,
        sets,
        faults,
        unread,
        unreached,
    })
}
