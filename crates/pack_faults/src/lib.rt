//! All faults of the sequences of all devices, variants and processors of a pack, each once with the sets that have it.
#![tactic(auto)]

mod answer;
mod checking;
mod devices;
mod equal;
mod faults;
mod groups;
mod keys;
mod known;
pub mod laws;
mod lined;
mod merging;
mod pnames;
mod refusals;
mod request;
mod sets;
mod shared;
mod texts;

pub use answer::{Found, PackFault, PackFaults};
pub use faults::pack_faults;
pub use known::KnownSet;
pub use refusals::requested_sets;
pub use request::{PackRefusal, PackRequest, SetName};
pub use sets::{DeviceSets, SetRef};
pub use texts::copy_of;
