//! The tables that are open.
ghost use Rattle.std.specs.Prelude.{◌≡◌, ◌<◌, [], ◌∷◌, length, MatchOption};

use arrayvec::ArrayVec;
use std::marker::Model;

/// A table that is open.
#[derive(Clone, Copy, Debug, PartialEq, Eq, Default)]
pub struct Table {
    /// Its address, a multiple of 4,096.
    pub address: u32,
    /// How many of its 960 entries are left to be read.
    pub left: u16,
}

/// At most seven tables, the innermost first.
#[derive(Drop)]
pub(crate) struct OpenTables {
    tables: ArrayVec<Table, 7>,
}

impl Model for OpenTables {
    ghost use Rattle.std.specs.Prelude.{List, reverse};
    ghost use Rattle.rom_scan.specs.declared.tables.Table.{Table};

    ghost Value = { List Table };

    ghost view = { λ t. reverse t.tables.items };
}

impl OpenTables {
    /// None is open.
    pub(crate) fn new() -> OpenTables
        ensures { result ≡ [] }
    {
        OpenTables {
            tables: ArrayVec::new(),
        }
    }

    /// How many are open.
    pub(crate) fn len(&self) -> usize
        ensures { result ≡ length self.now }
    {
        self.tables.len()
    }

    /// One more is open.
    pub(crate) fn push(&mut self, table: Table)
        requires { length self.old < 7 }
        ensures { self.new ≡ table ∷ self.old }
    {
        self.tables.push(table);
    }

    /// The innermost, which is not open then.
    pub(crate) fn pop(&mut self) -> Option<Table>
        ensures { MatchOption result ((self.old ≡ []) × (self.new ≡ [])) (λ t. self.old ≡ t ∷ self.new) }
    {
        self.tables.pop()
    }
}
