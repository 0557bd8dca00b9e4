//! What a linker adds to an output, by architecture: the types of dynamic relocations, words of the
//! GOT, origins of thread-local storage, `e_flags`, lazy PLTs, and the code of stubs; how a branch
//! goes, and where stubs stand; the words of packed relative relocations;
//! notes of program properties.
#![tactic(auto)]

mod aarch64;
pub mod addresses;
pub mod description;
pub mod dynamic;
pub mod flags;
pub mod got;
pub mod laws;
pub mod layout;
pub mod lazy_plt;
mod lazy_plts;
mod loongarch64;
pub mod placement;
mod ppc64;
pub mod properties;
mod r_types;
pub mod relr;
mod riscv32;
mod riscv64;
pub mod routes;
pub mod stubs;
pub mod tags;
mod x86_64;
