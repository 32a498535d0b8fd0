//! What distinguishes warnings, as a key of a map.
ghost use Rattle.std.specs.Prelude.{◌≡◌, option_map};
ghost use Rattle.pack_warnings.specs.Keys.{warning_key_view, warning_found_view};
ghost use Rattle.pack_warnings.specs.Merged.{kind_number};

use set_lines::{name_of, part_number};
use set_warnings::{Warning, WarningKind};

/// A warning and its line, lent: two keys are equal exactly where the warnings are the same. The numbers come first, so that few
/// texts are compared.
#[derive(PartialEq, Eq, PartialOrd, Ord, Drop)]
pub struct WarningKey<'k> {
    kind: u8,
    line: u64,
    column: u64,
    part: u8,
    sequence: Option<&'k str>,
    path: &'k [u64],
    name: Option<&'k str>,
    text: Option<&'k str>,
}

fn kind_number(kind: WarningKind) -> u8
    ensures { result ≡ kind_number kind }
{
    kind as u8
}

/// The key of a warning in this line.
pub fn key_of<'k>(warning: &'k Warning, line: Option<&'k str>) -> WarningKey<'k>
    ensures { warning_key_view result ≡ warning_found_view (record { warning = warning.now; line = option_map (λ w. w.now) line.entry }) }
{
    WarningKey {
        kind: kind_number(warning.kind),
        line: warning.spot.place.line,
        column: warning.spot.place.column,
        part: part_number(warning.spot.part),
        sequence: name_of(&warning.spot.sequence),
        path: warning.spot.path.as_slice(),
        name: name_of(&warning.name),
        text: line,
    }
}
