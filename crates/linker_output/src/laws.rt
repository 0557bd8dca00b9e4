//! Laws of the code that a linker adds: stubs and lazy PLTs go to their targets, and branches to
//! stubs go directly.
//!
//! The functions do nothing, and the contract of each has the laws of one architecture, over the
//! machine that `linker_laws` has of it and a few further instructions, which are defined with the
//! laws. Registers have any numbers at first.
//!
//! From the address at which a stub of `Target::of` stands, its code ends at the address that the
//! word at its target has, or at its target, as `Target::write_stub` says of its kind. It has
//! changed only the registers that a call may change on its way.
//!
//! From the address at which an entry of `LazyPlt::of` stands, its code ends at the address that
//! its word has. With what the word holds at first it goes on to the header, and the header to the
//! resolver, which gets what glibc's dynamic linker expects. Only registers that a call may change
//! on its way have changed.

ghost use Rattle.linker_output.specs.AArch64LazyPlt as aarch64_plt;
ghost use Rattle.linker_output.specs.AArch64Stubs as aarch64_stubs;
ghost use Rattle.linker_output.specs.LoongArchLazyPlt as loongarch_plt;
ghost use Rattle.linker_output.specs.LoongArchStubs as loongarch_stubs;
ghost use Rattle.linker_output.specs.Ppc64LazyPlt as ppc64_plt;
ghost use Rattle.linker_output.specs.Ppc64Saves as ppc64_saves;
ghost use Rattle.linker_output.specs.Ppc64Stubs as ppc64_stubs;
ghost use Rattle.linker_output.specs.Ppc64Vectors as ppc64_vectors;
ghost use Rattle.linker_output.specs.RiscVLazyPlt as riscv_plt;
ghost use Rattle.linker_output.specs.RiscVStubs as riscv_stubs;
ghost use Rattle.linker_output.specs.Routes.{StubsServe};
ghost use Rattle.linker_output.specs.X86LazyPlt as x86_plt;
ghost use Rattle.linker_output.specs.X86Stubs as x86_stubs;

/// AArch64: x16 and x17 change. The stubs of the kinds `Far` and `FarRelative` read their own code
/// as memory. The laws hold of the lazy PLTs of the forms `Landing` and `LandingEntry` too. The
/// machine has no authenticated addresses, and the other forms have no law.
pub fn aarch64()
    ensures loads { aarch64_stubs.Loads }
    ensures landing_loads { aarch64_stubs.LandingLoads }
    ensures jumps { aarch64_stubs.Jumps }
    ensures reaches { aarch64_stubs.Reaches }
    ensures reaches_relative { aarch64_stubs.ReachesRelative }
    ensures enters { aarch64_plt.Enters }
    ensures resolves { aarch64_plt.Resolves }
    ensures landing_enters { aarch64_plt.LandingEnters }
    ensures landing_resolves { aarch64_plt.LandingResolves }
{
    linker_laws::relocations::aarch64();
}

/// LoongArch: $t3 changes, by an entry of the lazy PLT $t1 too, and by the header $t0 and $t2.
pub fn loongarch64()
    ensures loads { loongarch_stubs.Loads }
    ensures jumps { loongarch_stubs.Jumps }
    ensures enters { loongarch_plt.Enters }
    ensures resolves { loongarch_plt.Resolves }
{
    linker_laws::relocations::loongarch64();
}

/// PowerPC64: r0, r12, which has the target of a stub, and the count register change. The lazy
/// PLT's entries are entered only until the function has been looked up, and change r11 too.
pub fn ppc64()
    ensures loads { ppc64_stubs.Loads }
    ensures jumps { ppc64_stubs.Jumps }
    ensures first { ppc64_stubs.FirstStoresToc }
    ensures toc_loads { ppc64_stubs.TocLoads }
    ensures toc_reaches { ppc64_stubs.TocReaches }
    ensures prefixed_loads { ppc64_stubs.PrefixedLoads }
    ensures prefixed_jumps { ppc64_stubs.PrefixedJumps }
    ensures resolves { ppc64_plt.Resolves }
{
    linker_laws::relocations::ppc64();
}

/// PowerPC64's functions that save and restore registers 14 to 31, from any of them on, in their
/// places below r1 or r12. The return address is after r1, where it is saved too, and nothing else
/// changes.
///
/// Those of vector registers 20 to 31 have their places below the address in r0. Else r12 alone
/// changes.
pub fn ppc64_saves()
    ensures saves { ppc64_saves.SaveRegisters }
    ensures restores { ppc64_saves.RestoreRegisters }
    ensures saves_vectors { ppc64_vectors.SaveVectors }
    ensures restores_vectors { ppc64_vectors.RestoreVectors }
{}

/// RISC-V: t3 changes, by an entry of the lazy PLT t1 too, and by the header t0 and t2.
pub fn riscv64()
    ensures loads { riscv_stubs.Loads }
    ensures enters { riscv_plt.Enters }
    ensures resolves { riscv_plt.Resolves }
{
    linker_laws::relocations::riscv64();
}

/// x86-64: nothing changes, by the lazy PLT nothing but the stack. An entry of the form `Landing`
/// goes on to the resolver; `landing_loads` is the law of the stub that comes to it.
pub fn x86_64()
    ensures loads { x86_stubs.Loads }
    ensures landing_loads { x86_stubs.LandingLoads }
    ensures enters { x86_plt.Enters }
    ensures resolves { x86_plt.Resolves }
    ensures landing_resolves { x86_plt.LandingResolves }
{}

/// A branch to the entry of a stub is `Direct` exactly where it can be written.
pub fn routes()
    ensures { StubsServe }
{}
