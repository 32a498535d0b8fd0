//! Lists whose items are distinguished by a key, found in an ordered set.
ghost use Rattle.std.specs.Prelude.{◌≡◌, List, Bool, true, IfOk, OnErr, if◌then◌else◌};
ghost use Rattle.std.specs.Ordering.{is_eq};
ghost use Rattle.std.specs.List.{list_any};
ghost use Rattle.std.specs.BTreeSet.{contains, IsUnchanged};
ghost use Rattle.json_form.specs.Reading.{alone, repeats_by};

use crate::fault::JobFault;
use crate::item_list::ItemReader;
use crate::reader::Reader;
use dap_base::OutOfMemory;
use serde_json::Value;
use std::alloc::Global;
use std::collections::BTreeSet;

/// Reads items that are distinguished by a key.
pub trait Keyed: Reader {
    ghost use Rattle.std.specs.Prelude.{◌≡◌, Bool, IfOk};
    ghost use Rattle.std.specs.Ordering.{is_eq};

    /// By what two items are known to be the same.
    type Key: Ord + Drop;

    /// Whether two items are the same.
    ghost same: { Self → Self.Item → Self.Item → Bool };

    /// Whether an item has the key.
    ghost has_key: { Self → Self.Item → Self.Key → Bool };

    /// The key of an item.
    fn key(&self, alloc: Global, item: &Self::Item) -> Result<Self::Key, OutOfMemory>
        ensures same { IfOk result (λ key. (other : Self.Item) → has_key self.now other key ≡ same self.now other item.now) }
        ensures own { IfOk result (λ key. (other : Self.Key) → is_eq (Self.Key.cmp key other) ≡ has_key self.now item.now other) };
}

/// Keeps a key, and says whether it was kept before. Where memory is refused, the set is unchanged.
pub fn was_seen<K: Ord + Drop>(seen: &mut BTreeSet<K>, key: K) -> Result<bool, OutOfMemory>
    ensures found { IfOk result (λ found. found ≡ contains K.cmp seen.old key) }
    ensures unchanged { OnErr result (IsUnchanged seen.old seen.new) }
    ensures kept { IfOk result (λ _. (other : K) → contains K.cmp seen.new other ≡ (if is_eq (K.cmp key other) then true else contains K.cmp seen.old other)) }
{
    match seen.insert(key) {
        Ok(added) => Ok(!added),
        Err(_) => Err(OutOfMemory),
    }
}

/// Reads items of which no two are the same.
#[derive(Clone, Copy)]
pub struct Distinct<R> {
    pub item: R,
}

impl<R: Keyed> ItemReader for Distinct<R> {
    type Item = R::Item;

    type Seen = BTreeSet<R::Key>;

    ghost reads = { λ d. alone (R.reads d.item) };

    ghost repeats = { λ d. repeats_by (R.same d.item) };

    ghost keeps = { λ d earlier seen. (key : R.Key) → contains R.Key.cmp seen key ≡ list_any (λ other. R.has_key d.item other key) earlier };

    fn none_seen(&self, alloc: Global) -> Result<BTreeSet<R::Key>, OutOfMemory> {
        Ok(BTreeSet::new(alloc))
    }

    fn read_item(
        &self,
        alloc: Global,
        _earlier: &[R::Item],
        value: &Value,
    ) -> Result<R::Item, JobFault> {
        self.item.read(alloc, value)
    }

    fn is_repeated(
        &self,
        alloc: Global,
        _earlier: &[R::Item],
        seen: &mut BTreeSet<R::Key>,
        item: &R::Item,
    ) -> Result<bool, OutOfMemory> {
        let key = self.item.key(alloc, item)?;
        was_seen(seen, key)
    }
}
