//! The levels from the top of a pack down to a device or a variant.
ghost use Rattle.std.specs.Prelude.{◌≡◌, ◌≤◌, ◌++◌, ◌∷◌, [], IfOk, OnOk, option_map, map, length, unwrap_or};
ghost use Rattle.std.specs.Option.{option_copied};
ghost use Rattle.sequence_resolve.specs.Levels.{path_of, deepest};
ghost use Rattle.sequence_resolve.specs.Views.{place_view, level_view};

use crate::copy::copy_text;
use crate::entry::LevelKind;
use crate::place::DevicePlace;
use dap_base::{NameText, OutOfMemory};
use device_tree::{Level, Pack, Variant};
use std::alloc::Global;

/// A level of a path.
#[derive(Clone, Copy)]
pub struct LevelRef<'a> {
    pub kind: LevelKind,
    pub level: &'a Level,
}

fn push_level<'a>(
    levels: &mut Vec<LevelRef<'a>>,
    kind: LevelKind,
    level: &'a Level,
) -> Result<(), OutOfMemory>
    ensures ok { OnOk result (levels.new.items ≡ levels.old.items ++ record { kind = kind; level = level.entry } ∷ []) }
{
    if levels.push(LevelRef { kind, level }).is_err() {
        return Err(OutOfMemory);
    }
    Ok(())
}

/// The path from the top down to the device or the variant. `OutOfMemory` where memory is refused.
pub fn levels_of<'a>(
    alloc: Global,
    pack: &'a Pack,
    place: &DevicePlace<'a>,
    variant: Option<&'a Variant>,
) -> Result<Vec<LevelRef<'a>>, OutOfMemory>
    ensures path { IfOk result (λ v. map level_view v.items ≡ path_of pack.now (place_view place.now) (option_map (λ v. v.now) variant.entry)) }
    ensures few { IfOk result (λ v. length v.items ≤ 5) }
{
    let mut levels = Vec::new(alloc);
    if let Some(defaults) = &pack.defaults {
        push_level(&mut levels, LevelKind::Defaults, defaults)?;
    }
    push_level(&mut levels, LevelKind::Family, &place.family.level)?;
    if let Some(sub_family) = place.sub_family {
        push_level(&mut levels, LevelKind::SubFamily, &sub_family.level)?;
    }
    push_level(&mut levels, LevelKind::Device, &place.device.level)?;
    if let Some(variant) = variant {
        push_level(&mut levels, LevelKind::Variant, &variant.level)?;
    }
    Ok(levels)
}

fn deepest_text<'a>(levels: &[LevelRef<'a>]) -> Option<&'a NameText>
    ensures { unwrap_or (option_copied result) [] ≡ deepest [] (map level_view levels.now) }
{
    let mut found = None;
    for level in levels {
        if let Some(text) = &level.level.debugvars {
            found = Some(text);
        }
    }
    found
}

/// The `debugvars` of the deepest level that has some, or an empty text.
pub fn debugvars_of(alloc: Global, levels: &[LevelRef]) -> Result<NameText, OutOfMemory>
    ensures { IfOk result (λ t. t ≡ deepest [] (map level_view levels.now)) }
{
    match deepest_text(levels) {
        Some(text) => copy_text(alloc, text),
        None => NameText::new(alloc, ""),
    }
}
