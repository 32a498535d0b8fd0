//! A coverage as text.
ghost use Rattle.std.specs.Prelude.{◌≡◌, ◌++◌, ◌&&◌, [], List, length, filter, IfOk, OnOk, map, drop, string_bytes};
ghost use Rattle.std.specs.List.{flat_map};
ghost use Rattle.run_events.specs.Events.{Event};
ghost use Rattle.seq_check.specs.Answers.{checked_trees};
ghost use Rattle.run_coverage.specs.Covered.{has, IsOf};
ghost use Rattle.run_coverage.specs.Items.{sequence_items};
ghost use Rattle.run_coverage.specs.Text.{count_text, coverage_lines, coverage_text, covered_line, has_run, never_line};

use crate::coverage::Coverage;
use crate::items::{Item, push_items};
use crate::reach::reached_names;
use dap_base::{ItemList, OutOfMemory};
use seq_check::Checked;
use std::alloc::Global;
use text_lines::Line;

fn push_bytes(text: &mut Vec<u8>, bytes: &[u8]) -> Result<(), OutOfMemory>
    ensures { OnOk result (text.new.items ≡ text.old.items ++ bytes.now) }
{
    text.extend_from_slice(bytes).map_err(|_| OutOfMemory)
}

// How many are statements.
fn count_statements(items: &[Item]) -> usize
    ensures { result ≡ length (filter (λ i. i.is_statement) items.now) }
{
    let mut count = 0;
    for item in items {
        if item.is_statement {
            count += 1;
        }
    }
    count
}

impl Coverage {
    // Whether this is a statement that ran.
    fn has_run(&self, item: &Item) -> bool
        ensures { result ≡ has_run (has self.now) item.now }
    {
        item.is_statement && self.has(item.words.as_bytes())
    }

    // How many are statements that ran.
    fn count_run(&self, items: &[Item]) -> usize
        ensures { result ≡ length (filter (has_run (has self.now)) items.now) }
    {
        let mut count = 0;
        for item in items {
            if self.has_run(item) {
                count += 1;
            }
        }
        count
    }

    // How many statements ran, of all.
    fn with_counts(&self, line: Line, items: &[Item]) -> Result<Line, OutOfMemory>
        ensures { IfOk result (λ l. l ≡ line ++ count_text (has self.now) items.now) }
    {
        line.decimal(self.count_run(items) as u64)?
            .add_labelled(" of ", count_statements(items) as u64)?
            .text("\n")
    }

    // The line of what has not happened.
    fn push_never(&self, text: &mut Vec<u8>, item: &Item) -> Result<(), OutOfMemory>
        ensures { OnOk result (text.new.items ≡ text.old.items ++ never_line (has self.now) item.now) }
    {
        if self.has(item.words.as_bytes()) {
            return Ok(());
        }
        push_bytes(text, b"  never ")?;
        push_bytes(text, item.words.as_bytes())?;
        push_bytes(text, b"\n")
    }

    fn push_all_never(&self, text: &mut Vec<u8>, items: &[Item]) -> Result<(), OutOfMemory>
        ensures { OnOk result (text.new.items ≡ text.old.items ++ flat_map (never_line (has self.now)) items.now) }
    {
        for item in items {
            self.push_never(text, item)?;
        }
        Ok(())
    }

    // The line of a sequence.
    fn push_sequence(
        &self,
        name: &str,
        checked: &Checked,
        text: &mut Vec<u8>,
    ) -> Result<(), OutOfMemory>
        ensures { OnOk result (text.new.items ≡ text.old.items ++ covered_line (has self.now) (checked_trees checked.now) name.now) }
    {
        let mut items = ItemList::new(self.alloc);
        push_items(self.alloc, checked, name, &mut items)?;
        let line = Line::begin(self.alloc, "covered ")?.add_shown(name.as_bytes())?;
        let line = self.with_counts(line.text(" ")?, items.as_slice())?;
        push_bytes(text, line.as_bytes())
    }

    // The line of each sequence.
    fn push_sequences(
        &self,
        names: &[String],
        checked: &Checked,
        text: &mut Vec<u8>,
    ) -> Result<(), OutOfMemory>
        ensures { OnOk result (text.new.items ≡ text.old.items ++ flat_map (covered_line (has self.now) (checked_trees checked.now)) (map string_bytes names.now)) }
    {
        for name in names {
            self.push_sequence(name.as_str(), checked, text)?;
        }
        Ok(())
    }

    // The lines of sequences.
    fn lines_of(&self, names: &[String], checked: &Checked) -> Result<Vec<u8>, OutOfMemory>
        ensures { IfOk result (λ t. t.items ≡ coverage_lines (has self.now) (checked_trees checked.now) (map string_bytes names.now)) }
    {
        let mut text = Vec::new(self.alloc);
        self.push_sequences(names, checked, &mut text)?;
        let items = all_items(self.alloc, names, checked)?;
        let line = Line::begin(self.alloc, "covered all ")?;
        let line = self.with_counts(line, items.as_slice())?;
        push_bytes(&mut text, line.as_bytes())?;
        self.push_all_never(&mut text, items.as_slice())?;
        Ok(text)
    }

    /// The coverage of the sequences of the checked set that the run of `start` can reach by calls, as text. It has how many statements of
    /// each ran, and of all together, and what has not happened, each on a line. `OutOfMemory` where memory is refused.
    pub fn text(&self, checked: &Checked, start: &str) -> Result<Vec<u8>, OutOfMemory>
        ensures { (events : List Event) → IsOf self.now events → IfOk result (λ t. t.items ≡ coverage_text (checked_trees checked.now) start.now events) }
    {
        let names = reached_names(self.alloc, checked, start)?;
        self.lines_of(names.as_slice(), checked)
    }
}

// What a run can cover in sequences.
fn all_items(
    alloc: Global,
    names: &[String],
    checked: &Checked,
) -> Result<ItemList<Item>, OutOfMemory>
    ensures { IfOk result (λ items. items ≡ flat_map (sequence_items (checked_trees checked.now)) (map string_bytes names.now)) }
{
    let mut items = ItemList::new(alloc);
    for name in names {
        push_items(alloc, checked, name.as_str(), &mut items)?;
    }
    Ok(items)
}
