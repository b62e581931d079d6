//! The lanes of a picture: in each column, one for each place that the column's rows name.

use super::shapes;
use regalloc2_names::Allocation;
use std::alloc::{AllocError, Allocator};

/// The places that the rows of an output name, and where the columns show them.
#[derive(Drop)]
pub(crate) struct Lanes<A: Allocator> {
    /// The places, each once: registers before slots, both by rising numbers.
    places: Vec<Allocation, A>,
    /// The index of a place, a column that shows it and its lane there from the left; sorted by
    /// index and column.
    shown: Vec<(usize, usize, usize), A>,
    /// The left edge of each column, and of the space after the last.
    edges: Vec<usize, A>,
}

/// Returns the left edges of `columns` columns, and of the space after them. `in_columns` has the column of
/// each lane and the index of its place, by rising column.
fn edges_of<A: Allocator>(
    alloc: A,
    columns: usize,
    in_columns: &[(usize, usize)],
) -> Result<Vec<usize, A>, AllocError> {
    let mut edges = Vec::new(alloc);
    let (mut edge, mut first) = (0usize, 0usize);
    edges.push(edge)?;
    for column in 0..columns {
        let end = in_columns.partition_point(|lane| lane.0 <= column);
        edge = edge.saturating_add(shapes::width(end.saturating_sub(first)));
        edges.push(edge)?;
        first = end;
    }
    Ok(edges)
}

/// Returns the lanes of `in_columns`, pairs of a column and the index of a place in rising order. Lanes are
/// counted in each column from the left.
fn shown_in<A: Allocator>(
    alloc: A,
    in_columns: &[(usize, usize)],
) -> Result<Vec<(usize, usize, usize), A>, AllocError> {
    let mut shown = Vec::new(alloc);
    let mut current = 0;
    let mut lane = 0usize;
    for (column, index) in in_columns {
        if *column != current {
            current = *column;
            lane = 0;
        }
        shown.push((*index, *column, lane))?;
        lane = lane.saturating_add(1);
    }
    shown.sort_unstable();
    Ok(shown)
}

impl<A: Allocator + Copy> Lanes<A> {
    /// No lanes.
    pub(crate) fn none(alloc: A) -> Self {
        Lanes {
            places: Vec::new(alloc),
            shown: Vec::new(alloc),
            edges: Vec::new(alloc),
        }
    }

    /// Returns the lanes of `columns` columns; `sightings` lists the places that each column shows. An error
    /// means out of memory.
    pub(crate) fn of(
        alloc: A,
        columns: usize,
        sightings: &mut Vec<(Allocation, usize), A>,
    ) -> Result<Self, AllocError> {
        sightings.sort_unstable();
        sightings.dedup();
        let mut places = Vec::new(alloc);
        let mut in_columns = Vec::new(alloc);
        for (place, column) in sightings.iter() {
            if places.last().copied() != Some(*place) {
                places.push(*place)?;
            }
            in_columns.push((*column, places.len().saturating_sub(1)))?;
        }
        in_columns.sort_unstable();
        Ok(Lanes {
            places,
            shown: shown_in(alloc, in_columns.as_slice())?,
            edges: edges_of(alloc, columns, in_columns.as_slice())?,
        })
    }
}

impl<A: Allocator> Lanes<A> {
    /// Returns the places, each once.
    pub(crate) fn places(&self) -> &[Allocation] {
        self.places.as_slice()
    }

    /// Returns the index of `place`.
    pub(crate) fn index_of(&self, place: Allocation) -> Option<usize> {
        self.places.as_slice().binary_search(&place).ok()
    }

    /// Returns the index of each place, with a column that shows it and its lane there.
    pub(crate) fn shown(&self) -> &[(usize, usize, usize)] {
        self.shown.as_slice()
    }

    /// Returns what `shown` returns, from the first column of the place `index` that isn't left of the column
    /// of `row`.
    pub(crate) fn shown_from(&self, index: usize, row: usize) -> &[(usize, usize, usize)] {
        let column = shapes::column_of(row);
        let shown = self.shown.as_slice();
        let first = shown.partition_point(|lane| (lane.0, lane.1) < (index, column));
        shown.get(first..).unwrap_or(&[])
    }

    /// Returns the left edge of `column`.
    pub(crate) fn edge(&self, column: usize) -> usize {
        self.edges.get(column).copied().unwrap_or(0)
    }

    /// Returns the horizontal middle of the lane of `place` in `row`.
    pub(crate) fn middle(&self, place: Allocation, row: usize) -> Option<usize> {
        let index = self.index_of(place)?;
        let (found, column, lane) = self.shown_from(index, row).first().copied()?;
        if found != index || column != shapes::column_of(row) {
            return None;
        }
        Some(shapes::middle(self.edge(column), lane))
    }

    /// Returns the width of all columns.
    pub(crate) fn width(&self) -> usize {
        self.edges.last().copied().unwrap_or(0)
    }
}
