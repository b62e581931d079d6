//! The shapes of a picture, and their positions.

use regalloc2_names::VReg;
use std::fmt;
use std::io::{self, Write};

/// The width of a lane, in pixels.
const LANE: usize = 56;

/// The height of a row.
const ROW: usize = 20;

/// The width of the space left of the first lane.
const LEFT: usize = 120;

/// The height of the space above the first row: the legend and the names of lanes.
const TOP: usize = 84;

/// How many rows a column has at most, so that no picture is higher than browsers draw.
const COLUMN_ROWS: usize = 1000;

/// The width of the legend, in pixels.
const LEGEND_WIDTH: usize = 720;

/// The legend of boxes, bars and arrows, above the names.
const LEGEND: &str = "\
<g transform=\"translate(8,20)\">\
<rect y=\"-8\" width=\"28\" height=\"16\" rx=\"4\" fill=\"white\" stroke=\"black\"/>\
</g><text x=\"42\" y=\"24\">read</text>
<g transform=\"translate(88,20)\">\
<rect y=\"-8\" width=\"28\" height=\"16\" rx=\"4\" fill=\"white\" stroke=\"black\" stroke-width=\"2\"/>\
</g><text x=\"122\" y=\"24\">written</text>
<g transform=\"translate(188,20)\">\
<path d=\"M0,0 H28\" stroke=\"hsl(0,65%,80%)\" stroke-width=\"12\"/>\
</g><text x=\"222\" y=\"24\">holds a value</text>
<g transform=\"translate(330,20)\">\
<path d=\"M0,0 H28\" stroke=\"gainsboro\" stroke-width=\"12\"/>\
</g><text x=\"364\" y=\"24\">holds one that no operand here names</text>
<g transform=\"translate(640,20)\">\
<circle r=\"3\"/><path d=\"M0,0 H28\" stroke=\"black\"/><path d=\"M28,0 l-7,-3 v6 z\"/>\
</g><text x=\"674\" y=\"24\">move</text>
<text x=\"8\" y=\"44\">block(parameters) to successors(arguments); an instruction: early operands, below late ones</text>
";

/// Returns the column of `row`: rows fill a column downwards, then the next column from its top.
pub(crate) fn column_of(row: usize) -> usize {
    row / COLUMN_ROWS
}

/// Returns the width of a column of `lanes` lanes.
pub(crate) fn width(lanes: usize) -> usize {
    lanes.saturating_mul(LANE).saturating_add(LEFT + LANE / 2)
}

/// Returns the horizontal middle of `lane` in a column whose left edge is at `edge`.
pub(crate) fn middle(edge: usize, lane: usize) -> usize {
    width(lane).saturating_add(edge)
}

/// The colour of the vreg with a number, or of an unknown vreg.
#[derive(Clone, Copy)]
struct Colour(Option<usize>);

impl fmt::Display for Colour {
    fn fmt<W: fmt::Write>(&self, f: &mut fmt::Formatter<W>) -> fmt::Result {
        match self.0 {
            Some(vreg) => {
                let hue = vreg.saturating_mul(67) % 360;
                write!(f, "hsl({hue},65%,80%)")
            }
            None => write!(f, "gainsboro"),
        }
    }
}

/// Returns the vertical middle of `row`.
fn height(row: usize) -> usize {
    (row % COLUMN_ROWS)
        .saturating_mul(ROW)
        .saturating_add(TOP + ROW / 2)
}

/// Writes the beginning of a picture of `rows` rows; all columns together are `width` pixels wide.
pub(crate) fn begin<W: Write>(width: usize, rows: usize, to: &mut W) -> io::Result<()> {
    let width = width.max(LEGEND_WIDTH);
    let bottom = TOP.saturating_add(rows.min(COLUMN_ROWS).saturating_add(1).saturating_mul(ROW));
    writeln!(
        to,
        "<svg xmlns=\"http://www.w3.org/2000/svg\" width=\"{width}\" height=\"{bottom}\" font-family=\"monospace\" font-size=\"12\">"
    )?;
    writeln!(
        to,
        "<rect width=\"{width}\" height=\"{bottom}\" fill=\"white\"/>"
    )?;
    to.write_all(LEGEND.as_bytes())
}

/// Returns the number of columns that `rows` rows take.
pub(crate) fn columns(rows: usize) -> usize {
    rows.saturating_sub(1) / COLUMN_ROWS + 1
}

/// Writes `name` above the lane whose middle is at `x`.
pub(crate) fn name<T: fmt::Display, W: Write>(x: usize, name: &T, to: &mut W) -> io::Result<()> {
    writeln!(
        to,
        "<text x=\"{x}\" y=\"68\" text-anchor=\"middle\" font-weight=\"bold\">{name}</text>"
    )
}

/// Writes `words` left of `row`, in a column whose left edge is at `edge`.
pub(crate) fn label<T: fmt::Display, W: Write>(
    edge: usize,
    row: usize,
    words: &T,
    to: &mut W,
) -> io::Result<()> {
    let x = edge.saturating_add(8);
    let y = height(row).saturating_add(4);
    writeln!(to, "<text x=\"{x}\" y=\"{y}\">{words}</text>")
}

/// Writes the line over a column between `edges`, above `row`, a block's first.
pub(crate) fn rule<W: Write>(edges: (usize, usize), row: usize, to: &mut W) -> io::Result<()> {
    let y = height(row).saturating_sub(ROW / 2);
    let (left, right) = edges;
    writeln!(to, "<path d=\"M{left},{y} H{right}\" stroke=\"silver\"/>")
}

/// Writes the part in `column` of the bar over `rows`, along the lane whose middle is at `x`, for `vreg` if it is
/// known.
pub(crate) fn bar<W: Write>(
    x: usize,
    column: usize,
    rows: (usize, usize),
    vreg: Option<usize>,
    to: &mut W,
) -> io::Result<()> {
    let begin = column.saturating_mul(COLUMN_ROWS);
    let end = begin.saturating_add(COLUMN_ROWS - 1);
    let top = height(rows.0.max(begin));
    let bottom = height(rows.1.min(end));
    let colour = Colour(vreg);
    writeln!(
        to,
        "<path d=\"M{x},{top} V{bottom}\" stroke=\"{colour}\" stroke-width=\"12\"/>"
    )
}

/// Writes a box with `vreg` on the lane whose middle is at `x`; a thicker frame if `is_def`.
pub(crate) fn cell<W: Write>(
    x: usize,
    row: usize,
    vreg: VReg,
    is_def: bool,
    to: &mut W,
) -> io::Result<()> {
    let left = x.saturating_sub(LANE / 2 - 4);
    let y = height(row);
    let top = y.saturating_sub(ROW / 2 - 2);
    let foot = y.saturating_add(4);
    let colour = Colour(Some(vreg.vreg()));
    let frame = if is_def { 2 } else { 1 };
    writeln!(
        to,
        "<rect x=\"{left}\" y=\"{top}\" width=\"48\" height=\"16\" rx=\"4\" fill=\"{colour}\" stroke=\"black\" stroke-width=\"{frame}\"/>"
    )?;
    writeln!(
        to,
        "<text x=\"{x}\" y=\"{foot}\" text-anchor=\"middle\">{vreg}</text>"
    )
}

/// Writes the arrow of a move, from the lane whose middle is at `tail` to the lane whose middle is at `tip`.
pub(crate) fn arrow<W: Write>(tail: usize, tip: usize, row: usize, to: &mut W) -> io::Result<()> {
    let y = height(row);
    // from the tip back to the barbs
    let back = if tail < tip { "-7" } else { "7" };
    write!(to, "<circle cx=\"{tail}\" cy=\"{y}\" r=\"3\"/>")?;
    write!(to, "<path d=\"M{tail},{y} H{tip}\" stroke=\"black\"/>")?;
    writeln!(to, "<path d=\"M{tip},{y} l{back},-3 v6 z\"/>")
}

/// Writes the end of a picture.
pub(crate) fn end<W: Write>(to: &mut W) -> io::Result<()> {
    writeln!(to, "</svg>")
}
