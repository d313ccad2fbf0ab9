//! Images as bytes: what an image is, its one spelling, and the first field that fails where bytes spell none.
//! `write_image` gives the spelling; `read_image` gives the image back, or that field with its place; `spellings` has the laws of both.
#![tactic(auto)]

mod fault;
mod image;
mod names;
mod reading;
pub mod spellings;
mod writing;

pub use fault::{ImageFault, ImageKind};
pub use image::Image;
pub use reading::read_image;
pub use writing::write_image;
