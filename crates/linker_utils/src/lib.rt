//! The core of a linker: what relocations mean, how instructions are rewritten, and how values are
//! written into them.
#![tactic(auto)]

pub mod aarch64;
pub mod architecture;
pub mod elf;
pub mod loongarch64;
pub mod ppc64;
pub mod relaxation;
mod rewrite_rows;
pub mod riscv64;
pub mod x86_64;

pub use linker_base::{bit_misc, utils};
