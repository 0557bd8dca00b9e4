//! Laws of relocations: what relocated instructions compute is the target.
//!
//! Each law begins with operands, and with the relocations of an instruction, of a pair or of a
//! sequence. Whenever their values are computed by `Row::value` of `linker_utils`,
//! and `Row::write` accepts and writes each of them, what the machine computes from
//! the words is the target, modulo 2^64: the address of the symbol, of the PLT entry or of the GOT
//! entry, with the addend. The functions do nothing, and the contract of each has the laws of one
//! architecture. They are in `specs/`, over one scheme (`specs/Schemes`).

ghost use Rattle.linker_laws.specs.AArch64RelocationLaws as aarch64_laws;
ghost use Rattle.linker_laws.specs.LoongArchRelocationLaws as loongarch_laws;
ghost use Rattle.linker_laws.specs.Ppc64RelocationLaws as ppc64_laws;
ghost use Rattle.linker_laws.specs.RiscVRelocationLaws as riscv_laws;
ghost use Rattle.linker_laws.specs.Schemes as schemes;
ghost use Rattle.linker_laws.specs.X86RelocationLaws as x86_laws;

/// AArch64: `adrp` with `add`, loads and stores, also through the GOT and for each model of TLS;
/// offsets from the thread pointer and in a module's block; branches, `adr` and literals; and the
/// moves of 16 bits. The value of `R_AARCH64_ADR_PREL_PG_HI21_NC`, which nothing else checks, is a
/// number of 33 bits. A `movn` or `movz` is one of 64 bits, and has the shift of its relocation.
pub fn aarch64()
    ensures relative { aarch64_laws.RelativeAddresses }
    ensures entries { aarch64_laws.EntryAddresses }
    ensures thread { aarch64_laws.ThreadAddresses }
    ensures module { aarch64_laws.ModuleAddresses }
    ensures branches { aarch64_laws.Branches }
    ensures literals { aarch64_laws.Literals }
    ensures from_got { aarch64_laws.GotOffsets }
    ensures unsigned_moves { aarch64_laws.UnsignedMoves }
    ensures signed_moves { aarch64_laws.SignedMoves }
    ensures relative_moves { aarch64_laws.RelativeMoves }
    ensures got_moves { aarch64_laws.GotMoves }
    ensures thread_moves { aarch64_laws.ThreadMoves }
    ensures fields { aarch64_laws.Fields }
{}

/// LoongArch: `pcalau12i` with an instruction that adds 12 bits, or with a `jirl`, and the five
/// instructions for 64 bits, also through the GOT and for each model of TLS; numbers of 32 and of
/// 64 bits by parts; branches, `pcaddi` and calls; differences of labels. In pairs the value of the
/// high part, which nothing else checks, is a number of 32 bits.
pub fn loongarch64()
    ensures relative { loongarch_laws.RelativeAddresses }
    ensures page_jumps { loongarch_laws.PageJumps }
    ensures far { loongarch_laws.FarAddresses }
    ensures absolute { loongarch_laws.AbsoluteAddresses }
    ensures thread { loongarch_laws.ThreadAddresses }
    ensures high_parts { loongarch_laws.HighParts }
    ensures branches { loongarch_laws.Branches }
    ensures calls { loongarch_laws.Calls }
    ensures distances { loongarch_laws.Distances }
    ensures fields { loongarch_laws.Fields }
{}

/// PowerPC64: `addis` with an instruction that has the low half, from the TOC base, the place, the
/// thread pointer, a module's block or 0; `lis`, `ori`, `sldi` by 32 and `oris` with such an
/// instruction; branches, prefixed instructions and displacements of 16 bits. A word of DQ-form is
/// read without its low 4 bits.
pub fn ppc64()
    ensures absolute { ppc64_laws.AbsoluteAddresses }
    ensures relative { ppc64_laws.RelativeAddresses }
    ensures far { ppc64_laws.FarAddresses }
    ensures toc { ppc64_laws.TocAddresses }
    ensures entries { ppc64_laws.EntryAddresses }
    ensures got { ppc64_laws.GotAddresses }
    ensures high_parts { ppc64_laws.HighParts }
    ensures thread { ppc64_laws.ThreadAddresses }
    ensures branches { ppc64_laws.Branches }
    ensures prefixed { ppc64_laws.Prefixes }
    ensures displacements { ppc64_laws.Displacements }
    ensures fields { ppc64_laws.Fields }
{}

/// RISC-V: `lui` and `auipc` with an instruction that has the low part, also through the GOT and
/// for each model of TLS; calls, which clear bit 0 of the sum; jumps and branches; differences of
/// labels.
pub fn riscv64()
    ensures absolute { riscv_laws.AbsoluteAddresses schemes.Law }
    ensures relative { riscv_laws.RelativeAddresses }
    ensures entries { riscv_laws.EntryAddresses schemes.Law }
    ensures descriptors { riscv_laws.DescriptorAddresses schemes.Law }
    ensures thread { riscv_laws.ThreadAddresses schemes.Law }
    ensures calls { riscv_laws.Calls }
    ensures jumps { riscv_laws.Jumps }
    ensures distances { riscv_laws.Distances }
    ensures fields { riscv_laws.Fields }
{}

/// x86-64: what a field comes to, added to what the formula subtracts: the place, the GOT's address
/// or the thread pointer.
pub fn x86_64()
    ensures symbols { x86_laws.Symbols }
    ensures calls { x86_laws.Calls }
    ensures entries { x86_laws.Entries }
    ensures absolute { x86_laws.Absolutes }
    ensures from_got { x86_laws.FromGot }
    ensures thread { x86_laws.ThreadAddresses }
{}
