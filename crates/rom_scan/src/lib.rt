//! The components of an access port: its ROM tables, walked over any access.
#![tactic(auto)]

mod asking;
mod component;
pub mod laws;
mod lines;
mod reading;
mod scan_end;
mod scanning;
mod tables;
mod walking;

pub use component::{Component, ComponentId};
pub use scan_end::ScanEnd;
pub use scanning::{scan, scan_counting};
pub use tables::Table;
