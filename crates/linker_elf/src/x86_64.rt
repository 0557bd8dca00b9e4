//! x86-64: what relocations mean.

mod relocations;

pub use relocations::{X86_64Relocation, row, upstream_row};
