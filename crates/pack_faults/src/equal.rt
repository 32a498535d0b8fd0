//! Whether two sets are equal.
ghost use Rattle.std.specs.Prelude.{◌≡◌, option_map};
ghost use Rattle.std.specs.Str.{bytes_eq};
ghost use Rattle.device_tree.specs.Same.{same_text};
ghost use Rattle.pack_faults.specs.Equal.{same_flag, same_number, same_steps, same_step, all_same, level_number, same_entry, same_set};

use dap_base::NameText;
use device_tree::{Step, Steps};
use sequence_resolve::{LevelKind, SeqEntry, SeqSet};
use set_lines::{name_of, same_text};

fn same_name(name: &NameText, other: &NameText) -> bool
    ensures { result ≡ bytes_eq name.now other.now }
{
    name.as_str() == other.as_str()
}

fn same_condition(condition: &Option<NameText>, other: &Option<NameText>) -> bool
    ensures { result ≡ same_text condition.now other.now }
{
    same_text(name_of(condition), name_of(other))
}

fn same_flag(flag: bool, other: bool) -> bool
    ensures { result ≡ same_flag flag other }
{
    if flag { other } else { !other }
}

fn same_number(number: Option<u64>, other: Option<u64>) -> bool
    ensures { result ≡ same_number number other }
{
    match (number, other) {
        (None, None) => true,
        (Some(number), Some(other)) => number == other,
        _ => false,
    }
}

#[cycle(equal)]
fn same_step(step: &Step, other: &Step) -> bool
    ensures { result ≡ same_step step.now other.now }
{
    match step {
        Step::Block { code, atomic } => match other {
            Step::Block {
                code: other_code,
                atomic: other_atomic,
            } => same_name(code, other_code) && same_flag(*atomic, *other_atomic),
            Step::Control { .. } => false,
        },
        Step::Control {
            cond,
            repeat,
            timeout,
            steps,
        } => match other {
            Step::Block { .. } => false,
            Step::Control {
                cond: other_cond,
                repeat: other_repeat,
                timeout: other_timeout,
                steps: other_steps,
            } => {
                same_condition(cond, other_cond)
                    && same_condition(repeat, other_repeat)
                    && same_number(*timeout, *other_timeout)
                    && same_steps(steps, other_steps)
            }
        },
    }
}

#[cycle(equal)]
fn same_items(items: &[Step], others: &[Step]) -> bool
    ensures { result ≡ all_same same_step items.now others.now }
{
    if items.len() != others.len() {
        return false;
    }
    for (place, item) in items.iter().enumerate() {
        if !same_step(item, &others[place]) {
            return false;
        }
    }
    true
}

#[cycle(equal)]
fn same_steps(steps: &Steps, others: &Steps) -> bool
    ensures { result ≡ same_steps steps.now others.now }
{
    same_items(steps.as_slice(), others.as_slice())
}

fn level_number(kind: LevelKind) -> u8
    ensures { result ≡ level_number kind }
{
    kind as u8
}

fn same_entry(entry: &SeqEntry, other: &SeqEntry) -> bool
    ensures { result ≡ same_entry entry.now other.now }
{
    same_name(&entry.name, &other.name)
        && level_number(entry.from) == level_number(other.from)
        && same_flag(entry.disabled, other.disabled)
        && same_steps(entry.steps.as_steps(), other.steps.as_steps())
}

fn same_entries(entries: &[SeqEntry], others: &[SeqEntry]) -> bool
    ensures { result ≡ all_same same_entry entries.now others.now }
{
    if entries.len() != others.len() {
        return false;
    }
    for (place, entry) in entries.iter().enumerate() {
        if !same_entry(entry, &others[place]) {
            return false;
        }
    }
    true
}

/// Whether the sets have the same sequences and debug variables.
pub fn same_set(set: &SeqSet, other: &SeqSet) -> bool
    ensures { result ≡ same_set set.now other.now }
{
    same_name(&set.debugvars, &other.debugvars)
        && same_entries(set.entries.as_slice(), other.entries.as_slice())
}
