//! Indexes of containers, and orders of what they name.

use std::cmp::Ordering;
use std::fmt::Debug;

/// A number that names an element of a container.
pub trait ContainerIndex: Clone + Copy + Debug + PartialEq + Eq {}

/// An order of a container's elements, by their indexes.
pub trait ContainerComparator {
    type Ix: ContainerIndex;

    /// Compares the element of index `a` to the element of index `b`. No clause says what it returns.
    fn compare(&self, a: Self::Ix, b: Self::Ix) -> Ordering;
}
