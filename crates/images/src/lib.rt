// Images: a table's units as register words.
//
// Every public function is an entry: none has a `requires`.
#![tactic(auto)]

mod image;

pub use image::{ImageRefusal, read_image, write_image};
