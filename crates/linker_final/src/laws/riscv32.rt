//! RV32: laws of its relocations and of its calls.

ghost use Rattle.linker_final.specs.RiscV32 as riscv32;
ghost use Rattle.linker_laws.specs.RiscVRelocationLaws as riscv_laws;

/// What `wrap_addends` makes of a section's relocations. Only addends change, by multiples of 2^32.
/// Each value is that of before modulo 2^32, which is the psABI's formula with the addend of the
/// file. It is within its row's reach if any number that is the same modulo 2^32 is. So no distance
/// is too far for a pair of instructions. An error stays, and so does what has no value.
pub fn values()
    ensures addends { riscv32.Addends }
    ensures values { riscv32.Values }
    ensures pairs { riscv32.PairsReachAll }
{}

/// What instructions and words compute whose relocations are applied with an addend that is the
/// file's modulo 2^32, as each of `wrap_addends` is (`values`). It is the target with the file's
/// addend, modulo 2^32, as RV32's registers and addresses are. These are `lui`, `c.lui` or `auipc`
/// with a low part, also through the GOT and for each model of TLS, calls, jumps, branches, and
/// words of 4 bytes. The premises of a pair hold of `lui` and `addi` that make 0x8000_1000,
/// which RV64's can't make.
pub fn instructions()
    ensures absolute { riscv_laws.AbsoluteAddresses riscv32.Law32 }
    ensures relative { riscv32.RelativeAddresses }
    ensures descriptors { riscv_laws.DescriptorAddresses riscv32.Law32 }
    ensures thread { riscv_laws.ThreadAddresses riscv32.Law32 }
    ensures branches { riscv32.Branches }
    ensures words { riscv32.Words }
    ensures premises { riscv32.PairIsApplied }
{
    linker_laws::relocations::riscv64();
}

/// A call by `auipc` and `jalr`, and the `c.jal` that `CallToCJal` makes of it, each with the value
/// of its relocation, whose addend is the file's modulo 2^32. Both go to their targets, by `jalr`
/// without bit 0, and leave in ra the address after their bytes: pc + 8 and pc + 2. All else stays,
/// but for the register of the `auipc`. The same holds of the `c.jal` that `pack_run` leaves of a
/// call which links ra. The premises of all but the last hold of a call at 0 to the target
/// 0xffff_ff00.
pub fn calls()
    ensures calls { riscv32.Calls }
    ensures premises { riscv32.CallsAreMade }
{
    linker_laws::relocations::riscv64();
}
