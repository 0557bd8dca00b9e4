//! Sections that get shorter between their rewrites and their values: the calls, one after the
//! other, and laws of the bytes that they leave, by architecture.

ghost use Rattle.std.specs.Prelude.{◌≡◌, ◌≤◌, ◌<◌, ◌+◌, ◌/◌, ◌^◌, ℕ, List, length, IfErr, OnOk};
ghost use Rattle.linker_base.specs.Deletions.{rank};
ghost use Rattle.linker_base.specs.Deltas.{deletions_of};
ghost use Rattle.linker_base.specs.Listed.{AreValidDeltas};
ghost use Rattle.linker_elf.specs.Value.{sum_64};
ghost use Rattle.linker_final.specs.Packed.{architecture_of, packed_as, IsPackCause, IsPacked};
ghost use Rattle.linker_runs.specs.Choosing.{AreItems, IsRelaxation};
ghost use Rattle.linker_runs.specs.Deleting.{deletions_of_run};
ghost use Rattle.linker_runs.specs.Packing.{packed_offset, section_of};
ghost use Rattle.linker_runs.specs.Relaxing.{items_in};
ghost use Rattle.linker_final.specs.LoongArchSection as loongarch_section;
ghost use Rattle.linker_final.specs.Packed as packed;
ghost use Rattle.linker_final.specs.RiscVSection as riscv_section;

use linker_base::relaxation::{DeltaSlice, RelaxDelta};
use linker_runs::items::ItemNumbers;
use linker_runs::packing::{Machine, RejectedItem, pack_run};
use linker_runs::relaxation::Plan;
use linker_section::facts::{Addresses, Symbol};
use linker_section::sections::{SectionError, relocate_section};
use linker_utils::elf::Architecture;

/// Why a section isn't packed and written.
#[derive(Clone, Copy)]
pub enum PackError {
    /// Its address isn't that where its first byte goes.
    Misplaced,
    /// It isn't packed.
    Packing(RejectedItem),
    /// It is, but its values aren't written.
    Writing(SectionError),
}

/// The architecture of a section's relocations.
fn architecture_of(machine: Machine) -> Architecture
    ensures { result ≡ architecture_of machine }
{
    match machine {
        Machine::RiscV(_) => Architecture::RiscV,
        Machine::LoongArch64 => Architecture::LoongArch64,
    }
}

/// The address where an input offset goes, in a run that begins at the address `start`.
fn address_of(deltas: &[RelaxDelta], start: u64, offset: u64) -> u64
    ensures { AreValidDeltas deltas.now
        → result ≡ sum_64 start (rank (deletions_of deltas.now) offset) }
{
    start.wrapping_add(DeltaSlice::new(deltas).input_to_output_offset(offset))
}

/// Packs a section of a relaxed run by `pack_run`, and then writes its values by
/// `relocate_section`. What it leaves is what the laws are about (`IsPacked`). The section begins
/// at the input offset `base` of the run, and the run at the address `start`. `relocations` become
/// those of the packed section, by which its values are written. A linker calls both itself.
///
/// # Errors
///
/// The first that applies, in this order. `Misplaced`: the section isn't at the address where its
/// first byte goes. `Packing`: an item can't be written. `Writing`: no value is written, and `out`
/// and `relocations` are those of the packed section. With each of the others they are as they
/// were.
/// The contract of each error requires valid deltas, as that of `pack_run` does.
pub fn pack_section(
    machine: Machine,
    section: &[u8],
    base: u64,
    items: &[ItemNumbers],
    deltas: &[RelaxDelta],
    start: u64,
    relocations: &mut [u8],
    addresses: &Addresses,
    symbols: &[Symbol],
    out: &mut [u8],
    memory: &mut [u64],
) -> Result<(), PackError>
    requires small { base + length section.now < 2 ^ 64 }
    requires room { AreValidDeltas deltas.now
        → length out.old
        ≡ packed_offset (section_of section.now base (deletions_of deltas.now) start)
        (base + length section.now) }
    requires memory { length relocations.old / 24 ≤ length memory.old }
    ensures packed { AreValidDeltas deltas.now
        → OnOk result ((packed : List ℕ) × IsPacked (packed_as machine
        (section_of section.now base (deletions_of deltas.now) start) (items_in items.now) packed
        relocations.old relocations.new addresses.now symbols.now out.new)) }
    ensures cause { AreValidDeltas deltas.now
        → IfErr result (IsPackCause machine
        (section_of section.now base (deletions_of deltas.now) start) (items_in items.now) relocations.old
        relocations.new addresses.now symbols.now out.old out.new) }
{
    if addresses.section != address_of(deltas, start, base) {
        return Err(PackError::Misplaced);
    }
    if let Err(rejected) = pack_run(
        machine,
        section,
        base,
        items,
        deltas,
        start,
        relocations,
        out,
    ) {
        return Err(PackError::Packing(rejected));
    }
    match relocate_section(
        architecture_of(machine),
        addresses,
        relocations,
        symbols,
        out,
        memory,
    ) {
        Ok(()) => Ok(()),
        Err(error) => Err(PackError::Writing(error)),
    }
}

/// A section of a run.
#[derive(Clone, Copy)]
pub struct RunSection<'a> {
    /// The architecture of its code.
    pub machine: Machine,
    /// Its bytes, once it is rewritten.
    pub bytes: &'a [u8],
    /// The input offset of the run at which it begins.
    pub base: u64,
    /// The items of the run that lie in it.
    pub items: &'a [ItemNumbers],
}

/// Packs a section of a run that `relax` relaxed, by `pack_section`, with what the run loses. It
/// leaves the section's final bytes in `out`, in which each alignment of the run holds
/// (`shorter_sections`). The run begins at the address `start`. `relocations` are the section's,
/// once it is rewritten. A linker calls `relax` and `pack_section` itself: in between it translates
/// symbols by what `relax` returned, and it packs each section.
///
/// # Errors
///
/// Those of `pack_section`.
pub fn pack_relaxed_section(
    items: &[ItemNumbers],
    start: u64,
    plan: &Plan,
    section: &RunSection<'_>,
    relocations: &mut [u8],
    addresses: &Addresses,
    symbols: &[Symbol],
    out: &mut [u8],
    memory: &mut [u64],
) -> Result<(), PackError>
    requires items { AreItems start (items_in items.now) }
    requires relaxed { IsRelaxation start (items_in items.now) plan.now.shapes.items plan.now.kept.items
        plan.now.freed.items }
    requires deleted { plan.now.deletions ≡ deletions_of_run (items_in items.now) plan.now.kept.items }
    requires small { section.now.base + length section.now.bytes.now < 2 ^ 64 }
    requires room { length out.old
        ≡ packed_offset (section_of section.now.bytes.now section.now.base
        (deletions_of_run (items_in items.now) plan.now.kept.items) start)
        (section.now.base + length section.now.bytes.now) }
    requires memory { length relocations.old / 24 ≤ length memory.old }
    ensures packed { OnOk result (packed.AreRelaxedAndPacked section.now (items_in items.now) start relocations.old
        relocations.new addresses.now symbols.now out.new) }
    ensures cause { IfErr result (IsPackCause section.now.machine
        (section_of section.now.bytes.now section.now.base
        (deletions_of_run (items_in items.now) plan.now.kept.items) start) (items_in section.now.items.now)
        relocations.old relocations.new addresses.now symbols.now out.old out.new) }
{
    pack_section(
        section.machine,
        section.bytes,
        section.base,
        section.items,
        plan.deletions.deltas(),
        start,
        relocations,
        addresses,
        symbols,
        out,
        memory,
    )
}

/// Each section that was packed: a byte that stays is at its translated place, and those that are
/// deleted have none, as those of an item of which nothing stays; padding is nops; what the packing
/// left at a relocation's place, and so an instruction that stays, has the value of its relocation
/// at its own address. Where the section is packed with
/// what `relax` returned of its run, each alignment of the run holds.
pub fn shorter_sections()
    ensures kept_bytes { packed.KeptBytesStay }
    ensures padding { packed.PaddingIsNops }
    ensures deleted_bytes { packed.DeletedBytesAreGone }
    ensures deleted_items { packed.ItemsAreDeleted }
    ensures addresses { packed.PlacesHaveAddresses }
    ensures places { packed.PlacesAreRelocated }
    ensures instructions { packed.InstructionsAreRelocated }
    ensures alignments { packed.AlignmentsHold }
    ensures section_starts { packed.SectionsAreAligned }
{}

/// RISC-V: on RV64 each call that a run may make shorter, `c.j`, `jal` or still `auipc` and `jalr`,
/// is a group of `linker_laws::simulation`. It goes to where its target goes, as the object's call
/// does in its own layout. So does a call that stays as it is, by the value of its relocation.
/// Other jumps and branches go where their relocation's formula says. Where a `lui` of 12 bits or
/// an `add` of the thread pointer is deleted, that is a group of which new has nothing.
pub fn shorter_riscv64()
    ensures sites { riscv_section.SitesCallTheSame }
    ensures long_calls { riscv_section.LongCallsStay }
    ensures high_parts { riscv_section.HighPartsAreLeftOut }
    ensures sums { riscv_section.SumIsLeftOut }
    ensures branches { packed.RiscVBranchesGo }
{
    linker_laws::relocations::riscv64();
    linker_laws::simulation::riscv64();
}

/// LoongArch: each call that a run may make shorter, `b`, `bl` or still `pcaddu18i` and `jirl`,
/// goes to where its target goes, and each address by `pcaddi`, or still by `pcalau12i` and
/// `addi.d`, is that where its target goes, as the object's instructions do in their own layout. So
/// is one that the object loaded from the GOT. The same holds of calls and addresses that stay as
/// they are, by the values of their relocations. Branches go where their relocation's formula says.
/// A `lu12i.w` of 12 bits or an `add.d` of the thread pointer that is deleted is a group, of which
/// new has nothing.
pub fn shorter_loongarch64()
    ensures calls { loongarch_section.CallsTheSame }
    ensures addresses { loongarch_section.AddressesAreMade }
    ensures loaded_addresses { loongarch_section.LoadedAddressesAreMade }
    ensures long_calls { loongarch_section.LongCallsStay }
    ensures long_addresses { loongarch_section.LongAddressesStay }
    ensures long_loaded_addresses { loongarch_section.LongLoadedAddressesStay }
    ensures high_parts { loongarch_section.HighPartIsLeftOut }
    ensures sums { loongarch_section.SumIsLeftOut }
    ensures branches { packed.LoongArchBranchesGo }
{
    linker_laws::relocations::loongarch64();
    linker_laws::simulation::loongarch64();
}
