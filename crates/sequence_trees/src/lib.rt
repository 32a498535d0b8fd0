//! The texts of a set of debug access sequences, read as trees of code.
#![tactic(auto)]

pub mod laws;
mod made;
mod set;
mod set_reader;
mod spot;
mod step_reader;
mod steps;
mod text;

pub use set::ReadSet;
pub use set_reader::{SetFault, read_set};
pub use spot::{OutwardPath, Part, Spot, StepPath, copy_path, inner_path, part_text};
pub use steps::{CheckedStep, CheckedSteps};
pub use text::{TextFault, read_code, read_condition};
