//! JSON values read into typed ones, or their first fault with its path: the words that readers of
//! objects, members, numbers and lists are made of.
#![tactic(auto)]

mod distinct;
mod fault;
mod item_list;
mod keys;
pub mod laws;
mod leaf;
mod member;
mod numeric;
mod path;
mod placed;
mod reader;

pub use distinct::{Distinct, Keyed, was_seen};
pub use fault::JobFault;
pub use item_list::{Each, ItemReader, ListOf};
pub use keys::only_keys_of;
pub use leaf::{Choice, Flag, Text};
pub use member::{member_or, optional_of, required_of};
pub use numeric::{Number, number_if};
pub use path::{Path, PathStep};
pub use placed::{fault_under_index, fault_under_key, missing_fault};
pub use reader::Reader;
