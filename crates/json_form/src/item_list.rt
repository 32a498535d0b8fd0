//! Lists, whose items are read one after another.
ghost use Rattle.std.specs.Prelude.{◌≡◌, [], length, Option};
ghost use Rattle.serde_json.specs.View.{view, items_view};
ghost use Rattle.json_form.specs.Faults.{Gives, at};
ghost use Rattle.json_form.specs.declared.path.PathStep.TheVariants.{Index};
ghost use Rattle.json_form.specs.Reading.{items_after, has_room, list_of, alone, never};

use crate::fault::JobFault;
use crate::path::Path;
use crate::placed::{fault_under_index, repeated_fault};
use crate::reader::Reader;
use dap_base::{ItemList, OutOfMemory};
use serde_json::Value;
use std::alloc::Global;

/// Reads the items of a list, each with the earlier ones given.
pub trait ItemReader {
    ghost use Rattle.std.specs.Prelude.{◌≡◌, ◌++◌, ◌∷◌, [], List, Bool, false, Result, IfOk};
    ghost use Rattle.serde_json.specs.Data.{Data};
    ghost use Rattle.serde_json.specs.View.{view};
    ghost use Rattle.json_form.specs.Faults.{Gives};
    ghost use Rattle.json_form.specs.declared.fault.JobFault.{JobFault};

    type Item: Drop;

    /// What is kept of the earlier items to find one that is the same.
    type Seen: Drop;

    /// What a value stands for after the earlier items, or its first fault.
    ghost reads: { Self → List Self.Item → Data → Result Self.Item JobFault };

    /// Whether an item is the same as one of the earlier ones.
    ghost repeats: { Self → List Self.Item → Self.Item → Bool };

    /// That what is kept is kept of these items.
    ghost keeps: { Self → List Self.Item → Self.Seen → Type 0 };

    /// What is kept of no items.
    fn none_seen(&self, alloc: Global) -> Result<Self::Seen, OutOfMemory>
        ensures { IfOk result (keeps self.now []) };

    /// What the value stands for, or its first fault with a path from the value on.
    fn read_item(
        &self,
        alloc: Global,
        earlier: &[Self::Item],
        value: &Value,
    ) -> Result<Self::Item, JobFault>
        ensures { Gives result (reads self.now earlier.now (view value.now)) };

    /// Whether the item is the same as an earlier one. Where it is not, it is kept.
    fn is_repeated(
        &self,
        alloc: Global,
        earlier: &[Self::Item],
        seen: &mut Self::Seen,
        item: &Self::Item,
    ) -> Result<bool, OutOfMemory>
        requires { keeps self.now earlier.now seen.old }
        ensures repeats { IfOk result (λ found. found ≡ repeats self.now earlier.now item.now) }
        ensures kept { IfOk result (λ found. found ≡ false → keeps self.now (earlier.now ++ item.now ∷ []) seen.new) };
}

/// Reads items that may be the same as earlier ones.
#[derive(Clone, Copy)]
pub struct Each<R> {
    pub item: R,
}

impl<R: Reader> ItemReader for Each<R> {
    type Item = R::Item;

    type Seen = ();

    ghost reads = { λ e. alone (R.reads e.item) };

    ghost repeats = { λ _. never };

    ghost keeps = { λ _ _ _. Unit {0} };

    fn none_seen(&self, _alloc: Global) -> Result<(), OutOfMemory> {
        Ok(())
    }

    fn read_item(
        &self,
        alloc: Global,
        _earlier: &[R::Item],
        value: &Value,
    ) -> Result<R::Item, JobFault> {
        self.item.read(alloc, value)
    }

    fn is_repeated(
        &self,
        _alloc: Global,
        _earlier: &[R::Item],
        _seen: &mut (),
        _item: &R::Item,
    ) -> Result<bool, OutOfMemory> {
        Ok(false)
    }
}

fn item_of<R: ItemReader>(
    alloc: Global,
    value: &Value,
    earlier: &ItemList<R::Item>,
    reader: &R,
) -> Result<R::Item, JobFault>
    ensures { Gives result (at (Index (length earlier.now)) (R.reads reader.now earlier.now (view value.now))) }
{
    match reader.read_item(alloc, earlier.as_slice(), value) {
        Ok(item) => Ok(item),
        Err(fault) => Err(fault_under_index(alloc, fault, earlier.len())),
    }
}

#[tactic(auto, unfolding(crate::specs::Reading::items_after))]
fn items_of<R: ItemReader>(
    alloc: Global,
    values: &[Value],
    reader: &R,
) -> Result<ItemList<R::Item>, JobFault>
    ensures { Gives result (items_after (R.reads reader.now) (R.repeats reader.now) [] (items_view values.now)) }
{
    let mut items = ItemList::new(alloc);
    let mut seen = reader.none_seen(alloc)?;
    for value in values {
        let item = item_of(alloc, value, &items, reader)?;
        if reader.is_repeated(alloc, items.as_slice(), &mut seen, &item)? {
            return Err(repeated_fault(alloc, items.len()));
        }
        items.push(item)?;
    }
    Ok(items)
}

fn is_within(limit: Option<usize>, count: usize) -> bool
    ensures { result ≡ has_room limit count }
{
    match limit {
        Some(limit) => count <= limit,
        None => true,
    }
}

/// Reads a list: `WrongKind` where the value is none, and `TooMany` where it is longer than the limit. Then each item is read wholly, and
/// after it `Repeated` comes where it is the same as an earlier one.
#[derive(Clone, Copy)]
pub struct ListOf<R> {
    pub limit: Option<usize>,
    pub item: R,
}

impl<R: ItemReader> Reader for ListOf<R> {
    type Item = ItemList<R::Item>;

    ghost reads = { λ l. list_of l.limit (R.reads l.item) (R.repeats l.item) };

    #[tactic(auto, unfolding(crate::specs::Reading::list_of), using(crate::proofs::NameLemmas::counting))]
    fn read(&self, alloc: Global, value: &Value) -> Result<ItemList<R::Item>, JobFault> {
        let Some(values) = value.as_array() else {
            return Err(JobFault::WrongKind(Path::new(alloc)));
        };
        if !is_within(self.limit, values.len()) {
            return Err(JobFault::TooMany(Path::new(alloc)));
        }
        items_of(alloc, values, &self.item)
    }
}
