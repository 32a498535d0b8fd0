//! Sequences and the keys of a level, read from JSON.
ghost use Rattle.std.specs.Prelude.{◌≡◌, ◌&&◌, IfOk, option_map, string_bytes};
ghost use Rattle.std.specs.Str.{bytes_eq};
ghost use Rattle.serde_json.specs.View.{view};
ghost use Rattle.json_form.specs.Faults.{Gives};
ghost use Rattle.device_tree.specs.PackReading.{sequence_in, level_in};
ghost use Rattle.device_tree.specs.Same.{same_text, same_sequence};

use crate::pack::{Level, SeqText};
use crate::shared::SharedSteps;
use crate::step_reader::StepList;
use dap_base::{ItemList, NameText, OutOfMemory};
use json_form::{
    Distinct, Flag, JobFault, Keyed, ListOf, Reader, Text, member_or, only_keys_of, optional_of,
    required_of,
};
use serde_json::Value;
use std::alloc::Global;

const SEQUENCE_KEYS: [&str; 5] = ["name", "Pname", "disable", "info", "steps"];

/// Reads a sequence.
#[derive(Clone, Copy)]
pub struct Sequence;

impl Reader for Sequence {
    type Item = SeqText;

    ghost reads = { λ _. sequence_in };

    #[tactic(auto, unfolding(crate::specs::PackReading::sequence_in))]
    fn read(&self, alloc: Global, value: &Value) -> Result<SeqText, JobFault> {
        only_keys_of(alloc, value, &SEQUENCE_KEYS)?;
        let name = required_of(alloc, value, "name", &Text)?;
        let pname = optional_of(alloc, value, "Pname", &Text)?;
        let disable = member_or(alloc, value, "disable", &Flag, false)?;
        let _info = optional_of(alloc, value, "info", &Text)?;
        let steps = required_of(alloc, value, "steps", &StepList)?;
        Ok(SeqText {
            name,
            pname,
            disable,
            steps: SharedSteps::new(alloc, steps)?,
        })
    }
}

/// A copy of the text that can stand in an ordered set.
pub fn text_key(alloc: Global, text: &NameText) -> Result<String, OutOfMemory>
    ensures { IfOk result (λ key. string_bytes key ≡ text.now) }
{
    String::from_str(alloc, text.as_str()).map_err(|_| OutOfMemory)
}

fn optional_key(alloc: Global, text: &Option<NameText>) -> Result<Option<String>, OutOfMemory>
    ensures { IfOk result (λ key. option_map string_bytes key ≡ text.now) }
{
    match text {
        Some(text) => Ok(Some(text_key(alloc, text)?)),
        None => Ok(None),
    }
}

impl Keyed for Sequence {
    type Key = (String, Option<String>);

    ghost same = { λ _. same_sequence };

    ghost has_key = { λ _ s key. bytes_eq s.name (string_bytes key.0) && same_text s.pname (option_map string_bytes key.1) };

    #[tactic(auto, using(crate::proofs::KeyLemmas::keys))]
    fn key(&self, alloc: Global, item: &SeqText) -> Result<(String, Option<String>), OutOfMemory> {
        let name = text_key(alloc, &item.name)?;
        let pname = optional_key(alloc, &item.pname)?;
        Ok((name, pname))
    }
}

/// The keys that each level may have, in the object that holds the level.
#[tactic(auto, unfolding(crate::specs::PackReading::level_in))]
pub fn level_of(alloc: Global, value: &Value) -> Result<Level, JobFault>
    ensures { Gives result (level_in (view value.now)) }
{
    let debugvars = optional_of(alloc, value, "debugvars", &Text)?;
    let list = ListOf {
        limit: None,
        item: Distinct { item: Sequence },
    };
    let sequences = member_or(alloc, value, "sequences", &list, ItemList::new(alloc))?;
    Ok(Level {
        debugvars,
        sequences,
    })
}
