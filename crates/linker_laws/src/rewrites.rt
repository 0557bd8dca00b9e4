//! Examples of what the machines do that the laws of rewrites are over, and of what bytes are, and
//! which bytes of AArch64 are a section's. What rewritten instructions compute is in `simulation`.
//!
//! The functions do nothing.

ghost use Rattle.linker_laws.specs.AArch64Groups as aarch64_laws;
ghost use Rattle.linker_laws.specs.RiscVExamples as riscv_examples;
ghost use Rattle.linker_laws.specs.X86Examples as x86_examples;

/// AArch64: the bytes of instructions that a rewrite leaves may be a section's, from the
/// instruction on. What they compute is in `simulation::aarch64`.
pub fn aarch64()
    ensures sections { aarch64_laws.InSections }
{}

/// RISC-V: examples of what bytes are, and of what instructions do. What rewritten instructions
/// compute is in `simulation::riscv64`.
pub fn riscv64()
    ensures words { riscv_examples.Words }
    ensures halves { riscv_examples.Halves }
    ensures execution { riscv_examples.Execution }
    ensures sequences { riscv_examples.Sequences }
{}

/// x86-64: examples of what bytes of assemblers are, and of what instructions do. Those that
/// emulators have are in `linker_final::emulated`, and what rewritten instructions compute is in
/// `simulation::x86_64`.
pub fn x86_64()
    ensures decoding { x86_examples.Decoding }
    ensures states { x86_examples.States }
{}
