//! Warnings, and the parts of steps that they stand in.
ghost use Rattle.std.specs.Prelude.{◌≡◌, ◌++◌, ◌∷◌, [], IfOk, OnOk, option_map};
ghost use Rattle.set_warnings.specs.Sites.{part_at, warning_at};

use crate::warning::{Warning, WarningKind};
use dap_base::{ItemList, NameText, OutOfMemory, Place};
use sequence_trees::{Part, Spot, copy_path};
use std::alloc::Global;

/// A part of a step: the name of its sequence, and the path to it.
#[derive(Clone, Copy)]
pub struct PartSite<'a> {
    pub sequence: &'a str,
    pub path: &'a [u64],
    pub part: Part,
}

fn copy_name(alloc: Global, name: Option<&str>) -> Result<Option<NameText>, OutOfMemory>
    ensures { IfOk result (λ copy. copy ≡ option_map (λ n. n.now) name.entry) }
{
    match name {
        Some(name) => Ok(Some(NameText::new(alloc, name)?)),
        None => Ok(None),
    }
}

/// Adds the warning of this kind at a place of the site, about a name or none.
pub fn add_warning(
    alloc: Global,
    kind: WarningKind,
    site: PartSite<'_>,
    place: Place,
    name: Option<&str>,
    found: &mut ItemList<Warning>,
) -> Result<(), OutOfMemory>
    ensures { OnOk result (found.new ≡ found.old ++ warning_at kind (part_at site.entry) place (option_map (λ n. n.now) name.entry) ∷ []) }
{
    let spot = Spot {
        sequence: Some(NameText::new(alloc, site.sequence)?),
        path: copy_path(alloc, site.path)?,
        part: site.part,
        place,
    };
    let name = copy_name(alloc, name)?;
    found.push(Warning { kind, spot, name })
}
