//! Runs of code that become shorter: the items that a section's relocations make, which
//! instructions become shorter and how many nops each alignment keeps, and sections without the
//! bytes that they lose.
#![tactic(auto)]

pub mod items;
pub mod laws;
mod loongarch64;
pub mod packing;
pub mod relaxation;
mod riscv64;
pub mod shapes;
