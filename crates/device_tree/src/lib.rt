//! The levels of a device pack and their debug access sequences, read from JSON.
#![tactic(auto)]

pub mod laws;
mod levels;
mod pack;
mod sequences;
mod shared;
mod step_reader;
mod steps;

pub use json_form::{JobFault, Path, PathStep};
pub use levels::{PackReader, pack_of};
pub use pack::{
    Device, Devices, Families, Family, Level, Pack, SeqText, SeqTexts, SubFamilies, SubFamily,
    Variant, Variants,
};
pub use shared::SharedSteps;
pub use steps::{Step, Steps};
