//! An SVG picture of each vreg's current location in an allocated function.

mod head;
mod lanes;
mod picture;
mod shapes;
mod sightings;

pub use picture::Picture;
