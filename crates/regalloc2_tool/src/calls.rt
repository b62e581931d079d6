//! A user's calls about a function in a text: reading the text, and the calls with their results.

pub mod call;
pub mod reading;
