// Lent memory: the functions over slices that every pass needs. Nothing of quantum.
#![tactic(auto)]

mod numbers;
mod words;

pub use numbers::{clear_row, read, read_wide, write, write_wide};
pub use words::copy_within;
