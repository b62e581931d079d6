//! Shared parts of the command-line programs: the listing of an allocated function, and the texts
//! of findings.
//!
//! [`ra2`] and [`ra2_text`] implement the programs of these names, [`calls`] the subcommands of
//! `ra2_text`, and [`svg`] draws an allocated function.
#![tactic(auto)]

pub mod calls;
pub mod listing;
pub mod ra2;
pub mod ra2_text;
pub mod svg;
