//! Laws of the final bytes of sections, by architecture.
//!
//! Each joins what `rewrite_section` and `relocate_section` leave with the laws of single rewrites
//! of `linker_laws`.

ghost use Rattle.linker_final.specs.AArch64Section as aarch64_section;
ghost use Rattle.linker_final.specs.Final as final_bytes;
ghost use Rattle.linker_final.specs.LoongArchSection as loongarch64_section;
ghost use Rattle.linker_final.specs.Ppc64Section as ppc64_section;
ghost use Rattle.linker_final.specs.RiscVSection as riscv64_section;
ghost use Rattle.linker_final.specs.X86Section as x86_64_section;

pub mod riscv32;

/// All architectures: what no rewrite took. Each byte that neither a rewrite nor a field has is the
/// object's. Each relocation that is neither rewritten nor taken along is the object's, and its
/// field holds its part of what its relocations compose.
pub fn others()
    ensures bytes { final_bytes.OtherBytes }
    ensures fields { final_bytes.OtherFields }
{}

/// All architectures: what phases leave alone is the same after them, a relocation and bytes. So
/// where earlier phases do, what a law says of what its phase takes, it says of the object's.
pub fn phases()
    ensures { final_bytes.UntouchedBytesAreTheSame }
{}

/// x86-64: all changes of a section, in all of its phases, as `aarch64_sections` says of AArch64's.
/// Each byte stays, but for the values of relocations, or is one of instructions that are rewritten
/// together. They are each instruction whose operand in the GOT became an address, a distance or an
/// offset from the thread pointer, each sequence with a call of `__tls_get_addr` for a variable or
/// for a module's block, and each `lea` of a descriptor's address and call of its function. The
/// offsets in a module's block that became offsets from the thread pointer lead from there to the
/// same addresses.
pub fn x86_64_sections()
    ensures places { final_bytes.EachPlace x86_64_section.rewriting }
    ensures groups { final_bytes.RewritesAreGroups x86_64_section.rewriting }
    ensures runs { final_bytes.RunsAreFollowed x86_64_section.rewriting }
    ensures offsets { x86_64_section.Offsets }
{
    linker_laws::simulation::x86_64();
    linker_laws::simulation::runs();
}

/// AArch64: all changes of a section, in all of its phases. Each instruction stays, but for the
/// value of its relocation, or is one of those that are rewritten together. They are each address
/// by two instructions that became one, each load of an address from the GOT that became a sum of
/// its page and the rest, each half of initial-exec that became a move, each sequence of a TLS
/// descriptor that became one of local-exec or of initial-exec, and each branch to an undefined
/// weak symbol that became `nop`.
///
/// These are a group of `linker_laws::simulation` wherever old comes to their first and the
/// premises of their law hold, also a load of which another phase made an `adr`. New is any code
/// that has the final bytes, and old any that has the object's there with the values of their
/// relocations. So each run of old is followed up to where nothing is known, as at a group of which
/// a premise doesn't hold: new's run agrees there.
pub fn aarch64_sections()
    ensures places { final_bytes.EachPlace aarch64_section.rewriting }
    ensures groups { final_bytes.RewritesAreGroups aarch64_section.rewriting }
    ensures runs { final_bytes.RunsAreFollowed aarch64_section.rewriting }
{
    linker_laws::simulation::aarch64();
    linker_laws::simulation::runs();
}

/// RISC-V: all changes of a section, in all of its phases, as `aarch64_sections` says of AArch64's.
/// Each byte stays, but for the values of relocations, or is of an instruction of local-exec, of a
/// load from the GOT or of a TLS descriptor. Those with a law are each load of an address that
/// became a sum of the place and the distance, or `lui` and `addi` of the address, or `addi` alone,
/// each low part of an offset that is over the thread pointer, and each sequence of a descriptor
/// that became one of local-exec. None becomes one of initial-exec. The high part and the sum of
/// such an offset are deleted: new has nothing of them. The offset had 12 bits when rewrites were
/// chosen.
///
/// New is any code that has what became of them with the values of the relocations that are left,
/// wherever that goes. Or it has the section's final bytes, or those of the section that was packed
/// after its phases. What became a nop of a descriptor is one in each.
pub fn riscv64_sections()
    ensures places { final_bytes.EachPlace riscv64_section.rewriting }
    ensures groups { final_bytes.RewritesAreGroups riscv64_section.rewriting }
    ensures runs { final_bytes.RunsAreFollowed riscv64_section.rewriting }
    ensures relocations { riscv64_section.RelocationsAreLeft }
    ensures nops { riscv64_section.Nops }
    ensures offsets_are_low { riscv64_section.OffsetsAreLow }
    ensures none_is_initial_exec { riscv64_section.NoneIsInitialExec }
{
    linker_laws::simulation::riscv64();
    linker_laws::simulation::runs();
}

/// RISC-V: each low part that `rewrite_global_pointer` takes is a group of
/// `linker_laws::simulation`. New's is over x3 or x0, with the distance from it as its value, and
/// old's over what its high part leaves. Its `lui` or `auipc`, which is deleted, is a group of
/// which new has nothing, and leaves this; what x3 has is a premise. The relocations that
/// `finish_gp_relaxation` leaves have these distances as their values.
pub fn riscv64_global_pointer()
    ensures low_parts { riscv64_section.LowPartsFromBase }
    ensures values { riscv64_section.ValuesAreDistances }
    ensures lui { riscv64_section.LuiGoes }
    ensures auipc { riscv64_section.AuipcGoes }
{
    linker_laws::relocations::riscv64();
}

/// LoongArch: all changes of a section, in all of its phases, as `aarch64_sections` says of
/// AArch64's. Each byte stays, but for the values of relocations, or is of an instruction that is
/// rewritten. They are each load of an address from the GOT that became a sum of its page and the
/// rest, each half of initial-exec that became a half of local-exec, each instruction of a TLS
/// descriptor that became one of local-exec or of initial-exec, each low part of local-exec over
/// the thread pointer, and what is deleted before it. A load is a group in the final bytes, and the
/// others also wherever a linker applies their relocations, and in a section that was packed. Parts
/// of a load that stand apart have no law.
pub fn loongarch64_sections()
    ensures places { final_bytes.EachPlace loongarch64_section.rewriting }
    ensures groups { final_bytes.RewritesAreGroups loongarch64_section.rewriting }
    ensures runs { final_bytes.RunsAreFollowed loongarch64_section.rewriting }
    ensures relocations { loongarch64_section.RelocationsAreLeft }
{
    linker_laws::simulation::loongarch64();
    linker_laws::simulation::runs();
}

/// PowerPC64: all changes of a section, in all of its phases, as `aarch64_sections` says of
/// AArch64's. Each byte stays, but for the values of relocations, or is of an instruction that is
/// rewritten, or of a call with the `nop` after it. New is any code that has the final bytes there,
/// or what a phase left with its relocation applied, as code between phases has: what two of them
/// rewrite is a group of both (`linker_laws::simulation::runs`). Which relocation a rewrite leaves
/// is a law, too, and that a phase rewrites only what has one of the names that it lists, as
/// `rewrite_section` lists them: so it is known in which phase that is rewritten again, or in none.
pub fn ppc64_sections()
    ensures places { final_bytes.EachPlace ppc64_section.rewriting }
    ensures groups { final_bytes.RewritesAreGroups ppc64_section.rewriting }
    ensures runs { final_bytes.RunsAreFollowed ppc64_section.rewriting }
    ensures names { ppc64_section.NamesAreLeft }
    ensures rewritten_again { ppc64_section.RewrittenAgain }
{
    linker_laws::simulation::ppc64();
    linker_laws::simulation::runs();
}
