//! Laws of relocations and of rewrites, and the theorem that runs of linked code follow those of
//! the object's. The functions do nothing: what they prove is in their contracts.
#![tactic(auto)]

pub mod relocations;
pub mod rewrites;
pub mod simulation;
