//! The checker of a set of debug access sequences: `check` answers its trees, or its first fault.
#![tactic(auto)]

mod calls;
mod checked;
mod controls;
mod faulty;
pub mod laws;
pub mod sequences;
pub mod set_calls;
mod set_check;
mod sets;
mod step_calls;
mod steps;

pub use checked::{CheckFault, Checked};
pub use code_check::FaultKind;
pub use set_check::check;
pub use step_calls::StepCall;
