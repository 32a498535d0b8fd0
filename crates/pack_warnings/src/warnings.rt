//! All warnings of a pack.
ghost use Rattle.std.specs.Prelude.{◌≡◌, ◌⊎◌, ◌<◌, IfOk, IfErr, Some, map, length};
ghost use Rattle.std.specs.List.{All};
ghost use Rattle.device_tree.specs.declared.pack.Pack.{Pack};
ghost use Rattle.pack_faults.specs.declared.request.PackRefusal.TheVariants as refusals;
ghost use Rattle.pack_faults.specs.Known.{IsKnown};
ghost use Rattle.pack_faults.specs.Sets.{refusal};
ghost use Rattle.pack_faults.specs.Shared.{HasNumberOfSet};
ghost use Rattle.pack_faults.specs.Views.{set_view};
ghost use Rattle.pack_warnings.specs.Answers.{ArePackWarnings, AreMerged};
ghost use Rattle.pack_warnings.specs.Lined.{IsWarned, IsWarnedAt, IsFoundAt};

use crate::answer::PackWarning;
use crate::lined::{LinedWarnings, WarnedSet, lined_sets, warned_sets};
use crate::merging::{Warnings, add_warnings, list_of};
use dap_base::{ItemList, OutOfMemory};
use device_tree::Pack;
use pack_faults::{KnownSet, PackRefusal, PackRequest, SetRef, requested_sets};
use std::alloc::Global;

// The warnings of these sets. Those that were found in each stand at its number.
fn warnings_in<'w>(
    alloc: Global,
    found: &[LinedWarnings<'w>],
    sets: &[SetRef],
) -> Result<Warnings<'w>, OutOfMemory>
    requires { All (λ s. s.number < length found.now) sets.now }
    ensures { IfOk result (λ warnings. (pack : Pack) → All (IsFoundAt pack found.now) sets.now → AreMerged pack (map set_view sets.now) warnings.list.items) }
{
    let mut warnings = Warnings::new(alloc);
    for (number, at) in sets.iter().enumerate() {
        let warned = &found[at.number];
        add_warnings(alloc, warned.warnings.as_slice(), number, &mut warnings)?;
    }
    Ok(warnings)
}

// The same as a list, from the warnings of the sets that were checked. Each of these sets is one of those, by its number.
fn list_from(
    alloc: Global,
    warned: &[WarnedSet],
    sets: &[SetRef],
) -> Result<ItemList<PackWarning>, OutOfMemory>
    requires warned { All IsWarned warned.now }
    requires within { All (λ s. s.number < length warned.now) sets.now }
    ensures { IfOk result (λ list. (pack : Pack) → All (IsWarnedAt pack warned.now) sets.now → AreMerged pack (map set_view sets.now) list) }
{
    let lined = lined_sets(alloc, warned)?;
    let warnings = warnings_in(alloc, lined.as_slice(), sets)?;
    list_of(alloc, warnings)
}

// The warnings of these sets, each of which is one of those that were checked, by its number.
fn warnings_of_sets(
    alloc: Global,
    known: &[KnownSet],
    sets: &[SetRef],
) -> Result<ItemList<PackWarning>, OutOfMemory>
    requires known { All IsKnown known.now }
    requires within { All (λ s. s.number < length known.now) sets.now }
    ensures { IfOk result (λ list. (pack : Pack) → All (HasNumberOfSet pack known.now) sets.now → AreMerged pack (map set_view sets.now) list) }
{
    let warned = warned_sets(alloc, known)?;
    list_from(alloc, warned.as_slice(), sets)
}

fn list_in(
    alloc: Global,
    pack: &Pack,
    request: &PackRequest,
) -> Result<ItemList<PackWarning>, PackRefusal>
    ensures answer { IfOk result (ArePackWarnings pack.now request.now) }
    ensures answer_fault { IfErr result (λ e. (e ≡ refusals.OutOfMemory) ⊎ (refusal pack.now request.now ≡ Some e)) }
{
    let found = requested_sets(alloc, pack, request)?;
    Ok(warnings_of_sets(alloc, found.known.as_slice(), found.sets.as_slice())?)
}

/// All warnings of the sets of a pack that are requested, as `pack_faults::pack_faults` takes them. The order is that of the
/// sets, and in a set that of `set_warnings::set_warnings`: a set with a fault has none. A warning that several sets have
/// stands where it comes first, with all of them.
///
/// The refusals are those of `pack_faults::pack_faults`. `OutOfMemory` where memory is refused.
pub fn pack_warnings(
    alloc: Global,
    pack: &Pack,
    request: &PackRequest,
) -> Result<ItemList<PackWarning>, PackRefusal>
    // The list is that of the warnings of the sets.
    ensures answer { IfOk result (ArePackWarnings pack.now request.now) }
    // A list that is that is answered.
    ensures only { (other : _) → ArePackWarnings pack.now request.now other → IfOk result (λ answer. answer ≡ other) }
    // Which refusal it is.
    ensures answer_fault { IfErr result (λ e. (e ≡ refusals.OutOfMemory) ⊎ (refusal pack.now request.now ≡ Some e)) }
{
    list_in(alloc, pack, request)
}
