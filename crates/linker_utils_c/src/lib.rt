//! The core of a linker for programs in C and C++: numbers and slices of bytes in, a status out.
#![tactic(auto)]

mod architectures;
mod calls;
mod choices;
mod crel;
mod deltas;
mod forms;
mod global_pointer;
mod heads;
mod kept;
mod lazy_plt;
mod merges;
mod output;
mod pack_runs;
mod packing;
mod placement;
mod properties;
mod readers;
mod reading;
mod recognising;
mod relaxing;
mod relocate;
mod relocations;
mod relr;
mod rewrites;
mod rewriting;
mod riscv32;
mod routes;
mod rows;
mod section_items;
mod sections;
mod sequences;
mod shrinking;
mod status;
