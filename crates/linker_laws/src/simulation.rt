//! Every run of an object's code has a run of the linked code.
//!
//! The functions do nothing. The contract of `runs` is the theorem, which is over any machine, any
//! code and any chain of links (`specs/Simulation`, `specs/Chains`). What is left for a link of an
//! architecture is that its rewritten instructions are groups.

ghost use Rattle.linker_laws.specs.AArch64Groups as aarch64_groups;
ghost use Rattle.linker_laws.specs.AArch64GroupsWorked as aarch64_worked;
ghost use Rattle.linker_laws.specs.Chains as chains;
ghost use Rattle.linker_laws.specs.LoongArchGroups as loongarch_groups;
ghost use Rattle.linker_laws.specs.LoongArchGroupsWorked as loongarch_worked;
ghost use Rattle.linker_laws.specs.Ppc64Groups as ppc64_groups;
ghost use Rattle.linker_laws.specs.Ppc64GroupsWorked as ppc64_worked;
ghost use Rattle.linker_laws.specs.RiscVGroups as riscv_groups;
ghost use Rattle.linker_laws.specs.RiscVGroupsWorked as riscv_worked;
ghost use Rattle.linker_laws.specs.Simulation as simulation;
ghost use Rattle.linker_laws.specs.SimulationWorked as worked;
ghost use Rattle.linker_laws.specs.X86Groups as x86_groups;
ghost use Rattle.linker_laws.specs.X86GroupsWorked as x86_worked;

/// Wherever a covered run of the object's code is outside a group, the run of the linked code
/// agrees. It stops where the object's stops, and has no end where that has none. A run that one
/// link covers, and the next one too, is a group of both.
pub fn runs()
    ensures simulates { (c : chains.Chain) → simulation.Simulates (chains.of_chain c) }
    ensures compose { (c : chains.Chain) (l : simulation.Link)
        → chains.Compose (chains.of_chain c) (simulation.of_link l) }
{}

/// A small program, and a chain of two links, of which every premise holds. Their runs are computed
/// to the end.
pub fn worked()
    ensures worked { worked.IsWorked }
    ensures chain { worked.IsChainWorked }
{}

/// AArch64: rewritten instructions are groups, whatever the machine's other instructions do: loads
/// of addresses from the GOT, each half of initial-exec, whatever stands between them, and branches
/// to undefined weak symbols. An instruction that has the same word in both is another one, if the
/// object's keeps agreement.
pub fn aarch64()
    ensures groups { aarch64_groups.Groups }
{
    crate::relocations::aarch64();
}

/// AArch64: a program with three groups, of which every premise holds. Both of its runs are
/// computed to the end.
pub fn aarch64_worked()
    ensures worked { aarch64_worked.IsWorked }
{
    aarch64();
}

/// RISC-V: rewritten instructions are groups, whatever the machine's other instructions do, and
/// code gets shorter: high parts that are shortened or deleted, with the `add` of the thread
/// pointer, low parts over another base, whatever stands between them, calls that become jumps or
/// stay, and loads of addresses from the GOT.
pub fn riscv64()
    ensures groups { riscv_groups.Groups }
{
    crate::relocations::riscv64();
}

/// RISC-V: a program with five groups, of which one is a store and one a call that became a jump,
/// and the return of the function. Every premise holds, and both of its runs are computed to the
/// end.
pub fn riscv64_worked()
    ensures worked { riscv_worked.IsWorked }
{
    riscv64();
}

/// LoongArch: rewritten instructions are groups, whatever the machine's other instructions do, and
/// code gets shorter: addresses by two instructions, each instruction of initial-exec, of
/// local-exec and of a TLS descriptor, whatever stands between them, and calls that become
/// branches.
pub fn loongarch64()
    ensures groups { loongarch_groups.Groups }
{
    crate::relocations::loongarch64();
}

/// LoongArch: a program with four groups, of which every premise holds. Both of its runs are
/// computed to the end.
pub fn loongarch64_worked()
    ensures worked { loongarch_worked.IsWorked }
{
    loongarch64();
}

/// PowerPC64: rewritten instructions are groups, whatever the machine's other instructions do, and
/// each by itself, whatever stands between them: the halves of addresses near the TOC pointer and
/// the thread pointer, arguments of `__tls_get_addr` and its calls, prefixed instructions, and
/// those that leave the TOC pointer.
pub fn ppc64()
    ensures groups { ppc64_groups.Groups }
{
    crate::relocations::ppc64();
}

/// PowerPC64: a program with five groups, of which every premise holds. Both of its runs are
/// computed to the end.
pub fn ppc64_worked()
    ensures worked { ppc64_worked.IsWorked }
{
    ppc64();
}

/// x86-64: rewritten instructions are groups, whatever the machine's other instructions do: loads
/// of addresses and operations on numbers from the GOT, also of initial-exec, calls and jumps by a
/// GOT entry, each instruction of a TLS descriptor, whatever stands between them, and the sequences
/// of general- and local-dynamic TLS, with their calls.
pub fn x86_64()
    ensures groups { x86_groups.Groups }
{}

/// x86-64: a program with five groups, of which two have a TLS descriptor, whose function old
/// executes, and one is a call that pushes its return address. Every premise holds, and both runs
/// are computed to the end.
pub fn x86_64_worked()
    ensures worked { x86_worked.IsWorked }
{
    x86_64();
}
