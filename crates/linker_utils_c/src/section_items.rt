//! The items that a section's relocations make, in arrays of the caller's.

ghost use Rattle.std.specs.Prelude.{◌≡◌, ◌≢◌, ◌+◌, ◌↔◌, IsTrue, MatchOption, length};
ghost use Rattle.std.specs.Prelude.{take, drop};
ghost use Rattle.linker_utils_c.specs.Deltas.{pairs_in};
ghost use Rattle.linker_utils_c.specs.RiscV32.{packing_machine};
ghost use Rattle.linker_utils_c.specs.SectionItems.{relocations_in, AreListedBy};
ghost use Rattle.linker_utils_c.specs.SectionItems.{AreItemsOrMalformed, AreRewrittenOrFaulty};
ghost use Rattle.linker_utils_c.specs.Status.{code};

use crate::pack_runs::packing_machine;
use crate::status::{Status, at_fault, or_return};
use linker_rewriting::decisions::Deletion;
use linker_runs::items::{
    AsRelocation, ItemNumbers, Relocation, RewrittenItemsError, rewritten_items_into,
    section_items_into,
};

/// A relocation of a section, and what it refers to in a run.
#[repr(C)]
#[derive(Clone, Copy)]
pub struct Rela {
    /// Its place, `r_offset`: an offset in the section.
    pub offset: u64,
    /// The input offset in the run that it refers to: S + A, or the PLT entry.
    pub target: u64,
    /// Its addend, `r_addend`.
    pub addend: i64,
    /// Its type.
    pub r_type: u32,
    /// Whether it has a symbol: `r_sym` isn't 0.
    pub has_symbol: u8,
    /// Whether `target` counts. 0 where what it refers to isn't in the run, where bytes between S
    /// and S + A may be deleted, or where the instructions are to stay as they are.
    pub has_target: u8,
    /// Whether the code there may use instructions of RISC-V's C extension: its object's `e_flags`
    /// have `EF_RISCV_RVC`.
    pub may_compress: u8,
}

impl AsRelocation for Rela {
    ghost use Rattle.linker_utils_c.specs.SectionItems.{relocation_of};

    ghost relocation = { relocation_of };

    #[inline(always)]
    fn as_relocation(self) -> Relocation {
        Relocation {
            offset: self.offset,
            r_type: self.r_type,
            has_symbol: self.has_symbol != 0,
            addend: self.addend,
            target: if self.has_target != 0 {
                Some(self.target)
            } else {
                None
            },
            may_compress: self.may_compress != 0,
        }
    }
}

/// Writes the items that the relocations of a section of a machine make, as `section_items`, and to
/// `makers` the index of the relocation that makes each. The section begins at the input offset
/// `base` of the run.
///
/// `items` and `makers` have as many elements as there are relocations, since each makes one item
/// at most. `len` is how many items there are, and the elements from there on are unchanged. The
/// first that applies of `UnknownArchitecture`, where no code of the machine becomes shorter;
/// `DifferentLengths`; `EndsTooHigh`, where `base` and the section's length add up to 2^64 or more;
/// and `MalformedRelocation`, of the relocation at `faulty`. Nothing is written then.
#[unsafe(no_mangle)]
pub extern "C" fn linker_utils_section_items_nonnull(
    machine: u16,
    section: &[u8],
    base: u64,
    relocations: &[Rela],
    items: &mut [ItemNumbers],
    makers: &mut [usize],
    len: &mut usize,
    faulty: &mut usize,
) -> u32
    ensures outcome { MatchOption (packing_machine machine)
        (result ≡ code Status.UnknownArchitecture)
        (λ of. AreListedBy
        (length relocations.now) (length items.old) (length makers.old)
        (base + length section.now) (AreItemsOrMalformed of section.now base
        (relocations_in relocations.now) (take len.new items.new) (take len.new makers.new)
        faulty.new result) result) }
    ensures others_stay { result ≡ code Status.Success
        → (drop len.new items.new ≡ drop len.new items.old)
        × (drop len.new makers.new ≡ drop len.new makers.old) }
    ensures unchanged { result ≢ code Status.Success → (items.new ≡ items.old)
        × (makers.new ≡ makers.old) × (len.new ≡ len.old) }
    ensures faulty_stays { result ≢ code Status.MalformedRelocation → faulty.new ≡ faulty.old }
{
    let of = or_return!(packing_machine(machine), UnknownArchitecture);
    if items.len() != relocations.len() || makers.len() != relocations.len() {
        return Status::DifferentLengths as u32;
    }
    if section.len() as u64 > u64::MAX - base {
        return Status::EndsTooHigh as u32;
    }
    match section_items_into(of, section, base, relocations, items, makers) {
        Ok(count) => {
            *len = count;
            Status::Success as u32
        }
        Err(index) => at_fault(Status::MalformedRelocation as u32, index, faulty),
    }
}

/// Whether an array has an element for each of two others.
#[inline]
fn has_both(len: usize, first: usize, second: usize) -> bool
    ensures { IsTrue result ↔ (len ≡ first + second) }
{
    len >= second && len - second == first
}

/// Writes the items of a section of a machine that was rewritten, as `rewritten_items_into`, and to
/// `makers` what makes each. The section begins at the input offset `base` of the run.
///
/// `items` and `makers` have as many elements as there are relocations and deletions. `len` is how
/// many items there are, and the elements from there on are unchanged. The first that applies of
/// `UnknownArchitecture`, where no code of the machine becomes shorter; `DifferentLengths`;
/// `EndsTooHigh`, where `base` and the section's length add up to 2^64 or more;
/// `MalformedRelocation`, of the relocation at `faulty`; and `InvalidDeletions`, of the deletion at
/// `faulty`. Nothing is written then. Last `ItemsOverlap`, of the relocation at `faulty`: `items`
/// and `makers` may then be written.
#[unsafe(no_mangle)]
pub extern "C" fn linker_utils_rewritten_items_nonnull(
    machine: u16,
    section: &[u8],
    base: u64,
    relocations: &[Rela],
    deleted: &[Deletion],
    items: &mut [ItemNumbers],
    makers: &mut [usize],
    len: &mut usize,
    faulty: &mut usize,
) -> u32
    ensures outcome { MatchOption (packing_machine machine)
        (result ≡ code Status.UnknownArchitecture)
        (λ of. AreListedBy
        (length relocations.now + length deleted.now) (length items.old) (length makers.old)
        (base + length section.now) (AreRewrittenOrFaulty of section.now base
        (relocations_in relocations.now) (pairs_in deleted.now) (take len.new items.new)
        (take len.new makers.new) faulty.new result) result) }
    ensures others_stay { result ≡ code Status.Success
        → (drop len.new items.new ≡ drop len.new items.old)
        × (drop len.new makers.new ≡ drop len.new makers.old) }
    ensures unchanged { result ≢ code Status.Success → result ≢ code Status.ItemsOverlap
        → (items.new ≡ items.old) × (makers.new ≡ makers.old) }
    ensures len_stays { result ≢ code Status.Success → len.new ≡ len.old }
    ensures faulty_stays { result ≢ code Status.MalformedRelocation
        → result ≢ code Status.InvalidDeletions → result ≢ code Status.ItemsOverlap
        → faulty.new ≡ faulty.old }
{
    let of = or_return!(packing_machine(machine), UnknownArchitecture);
    if !has_both(items.len(), relocations.len(), deleted.len())
        || !has_both(makers.len(), relocations.len(), deleted.len())
    {
        return Status::DifferentLengths as u32;
    }
    if section.len() as u64 > u64::MAX - base {
        return Status::EndsTooHigh as u32;
    }
    match rewritten_items_into(of, section, base, relocations, deleted, items, makers) {
        Ok(count) => {
            *len = count;
            Status::Success as u32
        }
        Err(RewrittenItemsError::Malformed(index)) => at_fault(
            Status::MalformedRelocation as u32,
            index,
            faulty,
        ),
        Err(RewrittenItemsError::Misplaced(index)) => at_fault(
            Status::InvalidDeletions as u32,
            index,
            faulty,
        ),
        Err(RewrittenItemsError::Overlaps(index)) => at_fault(
            Status::ItemsOverlap as u32,
            index,
            faulty,
        ),
    }
}
