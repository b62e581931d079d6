//! A checker of register allocations: which vregs each place holds, by block; the facts after each instruction and edge; the errors
//! of all blocks that a path reaches; and the faults of the places that an output names.
#![tactic(auto)]

mod analyze;
mod cell_registers;
mod cells;
mod check;
mod checker;
mod constraints;
mod edges;
mod errors;
mod find_errors;
mod laws;
mod listing;
pub mod lookup;
mod named_slots;
mod names;
mod number_list;
mod one_place;
mod order;
mod output;
mod passing;
mod place_list;
mod queue;
mod slots;
mod sweep;
mod tables;
mod texts;
mod transfer;
mod transfer_block;
mod vregs_in;

pub use cells::{CellFault, places_are_cells, test_cells};
pub use checker::{Checker, check_output};
pub use errors::{CheckerError, CheckerErrors};
pub use laws::{finds_no_error_where_faithful, stands_for_every_path};
pub use passing::PassingTables;
pub use texts::FaultLine;
