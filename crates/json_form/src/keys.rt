//! The keys that an object may have.
ghost use Rattle.std.specs.Prelude.{◌≡◌, map, bytes_eq};
ghost use Rattle.std.specs.List.{list_any};
ghost use Rattle.std.specs.Option.{option_copied};
ghost use Rattle.serde_json.specs.View.{view, members_view};
ghost use Rattle.json_form.specs.Faults.{Gives};
ghost use Rattle.json_form.specs.Names.{names, is_among, least_unknown};
ghost use Rattle.json_form.specs.Reading.{only_keys};

use crate::fault::JobFault;
use crate::path::Path;
use crate::placed::unknown_key;
use serde_json::{Map, Value};
use std::alloc::Global;

fn is_one_of(name: &str, known: &[&str]) -> bool
    ensures { result ≡ list_any (λ k. bytes_eq name.now k.now) known.now }
{
    known.iter().any(|k| name == *k)
}

#[tactic(auto, using(crate::proofs::NameLemmas::naming))]
fn is_known(name: &str, known: &[&str]) -> bool
    ensures { result ≡ is_among (map (λ k. k.now) known.now) name.now }
{
    is_one_of(name, known)
}

// The first name in byte order, which is the map's order, that is not known.
#[tactic(auto, using(crate::proofs::NameLemmas::naming))]
fn first_unknown<'a>(members: &'a Map<String, Value>, known: &[&str]) -> Option<&'a str>
    ensures { option_copied result ≡ least_unknown (map (λ k. k.now) known.now) (names (members_view members.now.entries)) }
{
    for name in members.keys() {
        if !is_known(name.as_str(), known) {
            return Some(name.as_str());
        }
    }
    None
}

/// That the value is an object with no other keys than the known ones. `WrongKind` where it is no object, and else `UnknownKey` for the
/// first other key in byte order.
#[tactic(auto, unfolding(crate::specs::Reading::only_keys))]
pub fn only_keys_of(alloc: Global, value: &Value, known: &[&str]) -> Result<(), JobFault>
    ensures { Gives result (only_keys (map (λ k. k.now) known.now) (view value.now)) }
{
    let Some(members) = value.as_object() else {
        return Err(JobFault::WrongKind(Path::new(alloc)));
    };
    match first_unknown(members, known) {
        Some(name) => Err(unknown_key(alloc, name)),
        None => Ok(()),
    }
}
