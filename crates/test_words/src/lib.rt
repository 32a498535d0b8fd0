//! For tests: the texts of rows, read as register accesses, units and settings, and what came of them, written as text.
#![tactic(auto)]

mod accesses;
mod bytes;
mod error;
mod images;
mod settings;
mod target;
mod trial;
mod units;
mod words;

pub use accesses::{access_of, accesses_of, put_access, put_outcome};
pub use bytes::{bytes_of, put_bytes};
pub use error::RowError;
pub use images::{ask_of, put_image};
pub use settings::{BenchKind, Setting, setting_of, setting_of_form};
pub use target::target_of;
pub use trial::{Trial, try_table};
pub use units::{call_of, is_sound, is_sound_call, put_call, unit_of};
pub use words::RowWords;
