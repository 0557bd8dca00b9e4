//! The values of a section's relocations: relocations as a file has them, what each requires of a
//! linker, and the value of each from what is known of symbols and of the output.
#![tactic(auto)]

mod ascending;
mod conditions;
pub mod crel;
pub mod facts;
mod fields;
pub mod needed;
mod order;
mod quick;
pub mod relocations;
pub mod resolved;
pub mod riscv32;
mod saved;
pub mod sections;
pub(crate) mod symbols;
pub mod values;
