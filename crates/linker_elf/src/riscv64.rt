//! RISC-V: instruction forms, and what relocations mean.

pub(crate) mod forms;
mod relocations;

pub use forms::RiscVInstruction;
pub use relocations::{RiscVRelocation, clui_row, row, upstream_row};
