//! Starting values of debug variables: names and values from a text, as a text, and put into the text of the variables.
#![tactic(auto)]

mod appending;
mod conf;
mod found;
pub mod laws;
mod marks;
mod reading;
mod replacing;
mod splicing;
mod values;
mod writing;

pub use conf::{Conf, ConfFault, ConfItem};
pub use reading::conf_of;
pub use replacing::{ReplaceFault, replace};
pub use writing::conf_text;
