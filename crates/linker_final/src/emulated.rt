//! What the definitions say that the machine reads of instructions, compared with an emulator.
//!
//! The tables in `specs/` have words, pairs and sequences, and what qemu made of them, and states
//! before and after single instructions. The functions do nothing. The contract of each says that
//! the definitions of one architecture read of each word what came of it, and that its machine
//! leaves of each state what the emulator left. `tools/oracle words` and `tools/oracle steps` make
//! the tables, and their heads say what is compared.
ghost use Rattle.linker_final.specs.AArch64Executed as aarch64_executed;
ghost use Rattle.linker_final.specs.AArch64Table as aarch64_table;
ghost use Rattle.linker_final.specs.LoongArchExecuted as loongarch_executed;
ghost use Rattle.linker_final.specs.LoongArchTable as loongarch_table;
ghost use Rattle.linker_final.specs.Ppc64Executed as ppc64_executed;
ghost use Rattle.linker_final.specs.Ppc64Table as ppc64_table;
ghost use Rattle.linker_final.specs.RiscVExecuted as riscv_executed;
ghost use Rattle.linker_final.specs.RiscVTable as riscv_table;
ghost use Rattle.linker_final.specs.X86Executed as x86_executed;

pub mod riscv32;

/// AArch64: offsets of loads and stores, `adr` and `adrp`, moves, additions, branches, a
/// number by four moves, and `adrp` with `add`; and what the instructions of
/// `linker_laws`, and BR, STP and BTI, do.
pub fn aarch64()
    ensures agrees { aarch64_table.Agrees }
    ensures steps { aarch64_executed.Agrees }
{}

/// RISC-V: the forms of 32 bits and of 16, pairs with `lui` or `auipc`, and calls; and what the
/// instructions of `linker_laws` do, but for the loads and stores of floating-point numbers of 2
/// and 16 bytes; and SUB and SRLI.
pub fn riscv64()
    ensures agrees { riscv_table.Agrees }
    ensures steps { riscv_executed.Agrees }
{}

/// LoongArch: immediates of 20, 16 and 12 bits, branches, `pcaddu18i` with `jirl`, numbers by two
/// to four instructions, and addresses by two and by five; and what the instructions of
/// `linker_laws` and of lazy PLTs do.
pub fn loongarch64()
    ensures agrees { loongarch_table.Agrees }
    ensures steps { loongarch_executed.Agrees }
{}

/// PowerPC64: displacements, also those in units of 4 and 16 bytes, branches, `paddi`, `ori` and
/// `oris`, `addis` with `addi` or `ori`, and numbers of 64 bits by five instructions; and what the
/// instructions of `linker_laws` do, except for `stfs` of a number that is too small for single
/// precision; and those of stubs, which move the link and the count register, of lazy PLTs, and of
/// functions that save registers.
pub fn ppc64()
    ensures agrees { ppc64_table.Agrees }
    ensures steps { ppc64_executed.Agrees }
{}

/// PowerPC64: what `stvx` and `lvx` do.
pub fn ppc64_vectors()
    ensures steps { ppc64_executed.VectorsAgree }
{}

/// PowerPC64: what each function does that saves or restores registers, `_savegpr0_N` and so on,
/// from its first instruction until it has returned.
pub fn ppc64_functions()
    ensures agree { ppc64_executed.FunctionsAgree }
{}

/// x86-64: what the instructions of `linker_laws`, and PUSH and ENDBR64, do.
pub fn x86_64()
    ensures steps { x86_executed.Agrees }
{}
