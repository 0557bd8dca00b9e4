//! The sections of a relaxed run, packed.

ghost use Rattle.std.specs.Prelude.{◌≡◌, ◌+◌, ◌-◌, ◌^◌, ◌<◌, ◌≤◌, MatchOption};
ghost use Rattle.linker_base.specs.Deletions.{rank};
ghost use Rattle.linker_base.specs.Deltas.{deletions_of};
ghost use Rattle.linker_base.specs.Listed.{AreValidDeltas};
ghost use Rattle.linker_runs.specs.Relaxing.{item_of, items_in};
ghost use Rattle.linker_utils_c.specs.PackRuns.{item_status, IsRunReturned};
ghost use Rattle.linker_utils_c.specs.RiscV32.{packing_machine};
ghost use Rattle.linker_utils_c.specs.PackRuns.{SaysOfInstructions};
ghost use Rattle.linker_utils_c.specs.Status.{code, IfFound};

pub(crate) use crate::riscv32::packing_machine;
use crate::status::{Status, or_return};
use linker_runs::items::ItemNumbers;
use linker_runs::packing::{ItemError, Machine, has_its_instructions, pack_run, packed_run_len};
use linker_utils::relaxation::RelaxDelta;

#[inline]
fn status_of(error: ItemError) -> u32
    ensures { result ≡ code (item_status error) }
{
    match error {
        ItemError::Overlaps => Status::ItemsOverlap as u32,
        ItemError::OutOfSection => Status::ItemOutOfSection as u32,
        ItemError::DeletedOutside => Status::DeletedOutside as u32,
        ItemError::NotItsFirstBytes => Status::NotItsFirstBytes as u32,
        ItemError::NotItsInstructions => Status::NotItsInstructions as u32,
        ItemError::NoShape => Status::NoShape as u32,
        ItemError::OutOfReach => Status::TargetOutOfReach as u32,
    }
}

/// How many bytes of a section of a relaxed run stay: as many as `linker_utils_pack_run` writes.
/// The section begins at the input offset `base` of the run. 0 where that and its length add up to
/// 2^64 or more.
#[unsafe(no_mangle)]
pub extern "C" fn linker_utils_packed_run_len_nonnull(
    base: u64,
    section_len: usize,
    deltas: &[RelaxDelta],
) -> usize
    ensures stay { base + section_len < 2 ^ 64 → AreValidDeltas deltas.now
        → result ≡ rank (deletions_of deltas.now) (base + section_len)
        - rank (deletions_of deltas.now) base }
    ensures too_high { 2 ^ 64 ≤ base + section_len → result ≡ 0 }
{
    if section_len as u64 > u64::MAX - base {
        return 0;
    }
    packed_run_len(base, section_len, deltas)
}

/// Whether a site's bytes are instructions that can have its shapes, as `has_its_instructions`. The
/// section begins at the input offset `base` of the run.
///
/// The error is the first that applies of `UnknownArchitecture`, where no section of the machine is
/// packed, and `NotItsInstructions`.
#[unsafe(no_mangle)]
pub extern "C" fn linker_utils_has_its_instructions_nonnull(
    machine: u16,
    section: &[u8],
    base: u64,
    item: &ItemNumbers,
) -> u32
    ensures { MatchOption (packing_machine machine) (result ≡ code Status.UnknownArchitecture)
        (λ known. SaysOfInstructions known section.now base (item_of item.now) result) }
{
    let known = or_return!(packing_machine(machine), UnknownArchitecture);
    if has_its_instructions(known, section, base, &item.as_item()) {
        Status::Success as u32
    } else {
        Status::NotItsInstructions as u32
    }
}

/// Packs a section of a relaxed run, as `pack_run`: writes the bytes that stay, in order, with the
/// instructions of its sites and the nops of its alignments written anew. The section begins at the
/// input offset `base` of the run. The run begins at the address `start` and loses what the deltas
/// list. `items` are the run's items that lie in the section, and `relocations` those of the
/// section, which become those of the packed one.
///
/// The first that applies of `UnknownArchitecture`, where no section of the machine is packed;
/// `EndsTooHigh`, where `base` and the section's length add up to 2^64 or more; `DifferentLengths`,
/// where `packed` has not `linker_utils_packed_run_len` bytes; and of the first item that can't be
/// written, whose index is `faulty`, the first that applies of `ItemsOverlap`, `ItemOutOfSection`,
/// `DeletedOutside`, `NotItsFirstBytes`, `NotItsInstructions`, `NoShape` and `TargetOutOfReach`.
/// `DeletedOutside` may also be of what is after the last item, and `faulty` is how many there are
/// then. `packed` and `relocations` are unchanged then. `faulty` changes only with a status that is
/// about an item.
#[unsafe(no_mangle)]
pub extern "C" fn linker_utils_pack_run_nonnull(
    machine: u16,
    section: &[u8],
    base: u64,
    items: &[ItemNumbers],
    deltas: &[RelaxDelta],
    start: u64,
    relocations: &mut [u8],
    packed: &mut [u8],
    faulty: &mut usize,
) -> u32
    ensures { IfFound (packing_machine machine) Status.UnknownArchitecture
        ((packed.new ≡ packed.old) × (relocations.new ≡ relocations.old)
        × (faulty.new ≡ faulty.old)) result (λ known.
        IsRunReturned known deltas.now section.now base start (items_in items.now) relocations.old
        relocations.new packed.old packed.new faulty.old faulty.new result) }
{
    match packing_machine(machine) {
        Some(known) => pack(
            known,
            section,
            base,
            items,
            deltas,
            start,
            relocations,
            packed,
            faulty,
        ),
        None => Status::UnknownArchitecture as u32,
    }
}

fn pack(
    machine: Machine,
    section: &[u8],
    base: u64,
    items: &[ItemNumbers],
    deltas: &[RelaxDelta],
    start: u64,
    relocations: &mut [u8],
    packed: &mut [u8],
    faulty: &mut usize,
) -> u32
    ensures { IsRunReturned machine deltas.now section.now base start (items_in items.now)
        relocations.old relocations.new packed.old packed.new faulty.old faulty.new result }
{
    if section.len() as u64 > u64::MAX - base {
        return Status::EndsTooHigh as u32;
    }
    if packed.len() != packed_run_len(base, section.len(), deltas) {
        return Status::DifferentLengths as u32;
    }
    match pack_run(
        machine,
        section,
        base,
        items,
        deltas,
        start,
        relocations,
        packed,
    ) {
        Ok(()) => Status::Success as u32,
        Err(rejected) => {
            *faulty = rejected.index;
            status_of(rejected.error)
        }
    }
}
