//! Laws of final bytes: once a section is rewritten and its values are written, its instructions
//! compute what the object's do with the values of their relocations. The functions do nothing but
//! where their docs say so, and the contract of each has the laws of one architecture.
//! `emulated` compares what these laws rest on with emulators.
#![tactic(auto)]

pub mod emulated;
pub mod laws;
pub mod packed;
pub mod sections;
pub mod worked;
