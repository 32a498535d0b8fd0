//! An image of memory from a text of Intel HEX records.
#![tactic(auto)]

mod fault;
mod image;
mod line;
mod reading;

pub use fault::{ImageFault, ImageKind};
pub use image::Image;
pub use reading::image_of;
