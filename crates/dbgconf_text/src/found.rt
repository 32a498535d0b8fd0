//! Names and values that were read so far.
ghost use Rattle.std.specs.Prelude.{◌≡◌, ◌++◌, ◌∷◌, [], IfOk};
ghost use Rattle.dbgconf_text.specs.Conf.{has_item};

use crate::conf::{Conf, ConfItem};
use crate::values::NamedValues;
use dap_base::OutOfMemory;
use std::alloc::Global;
use std::marker::Model;

/// Names and values in order, where a name is found without a look at the others. Contracts see their list.
#[derive(Drop)]
pub struct IndexedConf {
    items: Conf,
    values: NamedValues,
}

impl Model for IndexedConf {
    ghost use Rattle.std.specs.Prelude.{List};
    ghost use Rattle.dbgconf_text.specs.declared.conf.ConfItem.{ConfItem};
    ghost use Rattle.dbgconf_text.specs.Values.{HasNames};

    ghost Value = { List ConfItem };

    ghost view = { λ found. found.items };

    ghost invariant = { λ found. HasNames found.values found.items };
}

impl IndexedConf {
    // Nothing so far.
    pub fn new(alloc: Global) -> IndexedConf
        ensures { result ≡ [] }
    {
        IndexedConf {
            items: Conf::new(alloc),
            values: NamedValues::new(alloc),
        }
    }

    // Whether the name stands among them.
    pub fn has(&self, name: &str) -> bool
        ensures { result ≡ has_item self.now name.now }
    {
        self.values.has(name)
    }

    // These and one more.
    pub fn with(self, alloc: Global, item: ConfItem) -> Result<IndexedConf, OutOfMemory>
        ensures { IfOk result (λ found. found ≡ self ++ item ∷ []) }
    {
        let IndexedConf {
            mut items,
            mut values,
        } = self;
        values.put(alloc, item.name.text.as_str(), item.value)?;
        items.push(item)?;
        Ok(IndexedConf { items, values })
    }

    // The list of them.
    pub fn into_conf(self) -> Conf
        ensures { result ≡ self }
    {
        self.items
    }
}
