//! What a section's relocations require, their values, and writing all of them.

ghost use Rattle.std.specs.Prelude.{◌≡◌, Option};
ghost use Rattle.linker_elf.specs.declared.elf.RowInfo.{RowInfo};
ghost use Rattle.linker_section.specs.Needed.{needs_in};
ghost use Rattle.linker_section.specs.Relocations.{relocation_at};
ghost use Rattle.linker_section.specs.declared.needed.EntryClass.{EntryClass};
ghost use Rattle.linker_section.specs.declared.needed.Requirements.{Requirements};
ghost use Rattle.linker_section.specs.declared.values.ValueError.{ValueError};
ghost use Rattle.linker_elf.specs.Architectures.{IsRow};
ghost use Rattle.linker_utils_c.specs.Sections.{class_number, IsValueAt};
ghost use Rattle.linker_utils_c.specs.Sections.{value_status, relocation_status, room_of};
ghost use Rattle.linker_utils_c.specs.Sections.{requirements_in, IsSectionReturned};
ghost use Rattle.linker_utils_c.specs.Status.{code, OfMachine, IsGivenBy};
ghost use Rattle.linker_section.specs.Resolved.{by_lookup, by_relocation};
ghost use Rattle.linker_section.specs.Sections.{by_index};

use crate::relocate::{status_of, uleb_status_of};
use crate::status::{Status, at_fault, or_return};
use linker_section::facts::{Addresses, Symbol};
use linker_section::needed::{EntryClass, Requirements, needs};
use linker_section::relocations::relocation_at;
use linker_section::resolved::{ByRelocation, Resolved, relocate_resolved};
use linker_section::sections::{RelocationError, memory_len, relocate_section};
use linker_section::values::{ValueError, value as value_of};
use linker_utils::elf::Architecture;

/// What a relocation requires.
#[repr(C)]
#[derive(Clone, Copy)]
pub struct RequirementNumbers {
    /// The addend of the required entry of the GOT; 0 where none is required.
    pub entry_addend: i64,
    /// What that entry holds: 0 none, 1 an address, 2 an offset from the thread pointer, 3 the
    /// module's number and an offset in its TLS block, 4 the module's number and 0, 5 a TLS
    /// descriptor.
    pub entry_class: u32,
    /// 1 where its value goes into a branch; else 0.
    pub is_branch: u8,
    /// 1 where a stub or an entry of the PLT may serve as its target; else 0.
    pub may_use_stub: u8,
    /// 1 where such an entry is made only if the output doesn't define the symbol; else 0.
    pub stub_only_if_undefined: u8,
    /// 1 where it is a word of 8 bytes with S + A; else 0.
    pub is_word: u8,
    /// 1 where what is written depends on where the output is loaded; else 0.
    pub depends_on_load: u8,
}

/// The number of a class.
#[inline(always)]
fn class_number(class: EntryClass) -> u32
    ensures { result ≡ class_number class }
{
    match class {
        EntryClass::Address => 1,
        EntryClass::ThreadOffset => 2,
        EntryClass::ModuleOffset => 3,
        EntryClass::Module => 4,
        EntryClass::Descriptor => 5,
    }
}

/// What is required, in numbers.
#[inline(always)]
pub(crate) fn in_numbers(needs: &Requirements) -> RequirementNumbers
    ensures { result ≡ requirements_in needs.now }
{
    let (entry_class, entry_addend) = match needs.entry {
        Some(entry) => (class_number(entry.class), entry.addend),
        None => (0, 0),
    };
    RequirementNumbers {
        entry_addend,
        entry_class,
        is_branch: needs.is_branch.into(),
        may_use_stub: needs.may_use_stub.into(),
        stub_only_if_undefined: needs.stub_only_if_undefined.into(),
        is_word: needs.is_word.into(),
        depends_on_load: needs.depends_on_load.into(),
    }
}

/// What a relocation requires, if it has a row, in numbers.
#[inline(always)]
pub(crate) fn needs_by(needs: Option<Requirements>, required: &mut RequirementNumbers) -> u32
    ensures { IsGivenBy (λ needs given. given ≡ requirements_in needs) needs
        Status.UnknownRelocation required.old required.new result }
{
    let needs = or_return!(needs, UnknownRelocation);
    *required = in_numbers(&needs);
    Status::Success as u32
}

/// What a relocation with `r_type` and an addend requires in files with `e_machine` `machine`, by
/// whether its symbol is thread-local. The first that applies of `UnknownArchitecture`;
/// `UnknownRelocation`.
#[unsafe(no_mangle)]
pub extern "C" fn linker_utils_needs(
    machine: u16,
    r_type: u32,
    addend: i64,
    is_thread_local: bool,
    required: &mut RequirementNumbers,
) -> u32
    ensures { OfMachine machine (required.new ≡ required.old) result (λ architecture.
        (row : Option RowInfo) × IsRow architecture r_type row
        × IsGivenBy (λ needs given. given ≡ requirements_in needs)
        (needs_in row addend is_thread_local)
        Status.UnknownRelocation required.old required.new result) }
{
    let architecture = or_return!(Architecture::from_machine(machine), UnknownArchitecture);
    needs_by(
        needs(architecture, r_type, addend, is_thread_local),
        required,
    )
}

/// Why a relocation has no value.
#[inline(always)]
pub(crate) fn value_status_of(error: ValueError) -> u32
    ensures { result ≡ code (value_status error) }
{
    match error {
        ValueError::UnknownType => Status::UnknownRelocation as u32,
        ValueError::NoSymbol => Status::NoSymbol as u32,
        ValueError::NoEntry => Status::NoEntry as u32,
        ValueError::NoTlsBase => Status::NoTlsBase as u32,
        ValueError::NoHighPart => Status::NoHighPart as u32,
        ValueError::NotAligned => Status::NotAligned as u32,
        ValueError::NeedsStub => Status::NeedsStub as u32,
        ValueError::OutOfReach => Status::OutOfReach as u32,
    }
}

/// The value of the relocation at an index of a section's relocations, as `value`. The first that
/// applies of `UnknownArchitecture`; `TooShort`, where there is none at the index;
/// `UnknownRelocation`; `NoSymbol`; `NoHighPart`; `NoEntry`; `NoTlsBase`; `NoValue`.
#[unsafe(no_mangle)]
pub extern "C" fn linker_utils_value_at_nonnull(
    machine: u16,
    addresses: &Addresses,
    relocations: &[u8],
    symbols: &[Symbol],
    index: usize,
    value: &mut i64,
) -> u32
    ensures { OfMachine machine (value.new ≡ value.old) result (λ architecture.
        IsValueAt architecture addresses.now relocations.now symbols.now
        (relocation_at relocations.now index) result value.old value.new) }
{
    let architecture = or_return!(Architecture::from_machine(machine), UnknownArchitecture);
    let relocation = or_return!(relocation_at(relocations, index), TooShort);
    match value_of(architecture, addresses, relocations, symbols, &relocation) {
        Ok(Some(number)) => {
            *value = number;
            Status::Success as u32
        }
        Ok(None) => Status::NoValue as u32,
        Err(error) => value_status_of(error),
    }
}

/// How many elements of memory `linker_utils_relocate_section` needs for a section's relocations.
#[unsafe(no_mangle)]
pub extern "C" fn linker_utils_relocate_memory_nonnull(relocations: &[u8]) -> usize
    ensures { result ≡ room_of relocations.now }
{
    memory_len(relocations)
}

/// Why a relocation's value isn't written.
#[inline(always)]
pub(crate) fn status_of_error(error: RelocationError) -> u32
    ensures { result ≡ code (relocation_status error) }
{
    match error {
        RelocationError::Value(error) => value_status_of(error),
        RelocationError::Overlaps => Status::Overlaps as u32,
        RelocationError::OtherLength => Status::OtherLength as u32,
        RelocationError::Write(error) => status_of(Err(error)),
        RelocationError::Uleb128(error) => uleb_status_of(Err(error)),
    }
}

/// Writes the values of a section's relocations, as `relocate_section`, or none of them. The first
/// that applies of `UnknownArchitecture`; `ShortMemory`, where `memory` has fewer elements than
/// `linker_utils_relocate_memory`; and why the relocation at `faulty` can't be written.
#[unsafe(no_mangle)]
pub extern "C" fn linker_utils_relocate_section_nonnull(
    machine: u16,
    addresses: &Addresses,
    relocations: &[u8],
    symbols: &[Symbol],
    section: &mut [u8],
    memory: &mut [u64],
    faulty: &mut usize,
) -> u32
    ensures { OfMachine machine ((section.new ≡ section.old) × (faulty.new ≡ faulty.old)) result
        (λ architecture.
        IsSectionReturned architecture addresses.now relocations.now (by_index symbols.now)
        section.old section.new memory.old faulty.old faulty.new result) }
{
    let architecture = or_return!(Architecture::from_machine(machine), UnknownArchitecture);
    if memory.len() < memory_len(relocations) {
        return Status::ShortMemory as u32;
    }
    match relocate_section(
        architecture,
        addresses,
        relocations,
        symbols,
        section,
        memory,
    ) {
        Ok(()) => Status::Success as u32,
        Err(error) => at_fault(status_of_error(error.error), error.index, faulty),
    }
}

/// Writes the values of a section's relocations, as `relocate_resolved`, or none of them. What is
/// known of each is at its index. The first that applies of `UnknownArchitecture`; `ShortMemory`,
/// where `memory` has fewer elements than `linker_utils_relocate_memory`; and why the relocation at
/// `faulty` can't be written: `NoSymbol`, where `resolved` has fewer elements.
#[unsafe(no_mangle)]
pub extern "C" fn linker_utils_relocate_resolved_nonnull(
    machine: u16,
    addresses: &Addresses,
    relocations: &[u8],
    resolved: &[Resolved],
    section: &mut [u8],
    memory: &mut [u64],
    faulty: &mut usize,
) -> u32
    ensures { OfMachine machine ((section.new ≡ section.old) × (faulty.new ≡ faulty.old)) result
        (λ architecture.
        IsSectionReturned architecture addresses.now relocations.now
        (by_lookup (by_relocation resolved.now)) section.old section.new memory.old faulty.old
        faulty.new result) }
{
    let architecture = or_return!(Architecture::from_machine(machine), UnknownArchitecture);
    if memory.len() < memory_len(relocations) {
        return Status::ShortMemory as u32;
    }
    match relocate_resolved(
        architecture,
        addresses,
        relocations,
        ByRelocation { resolved },
        section,
        memory,
    ) {
        Ok(()) => Status::Success as u32,
        Err(error) => at_fault(status_of_error(error.error), error.index, faulty),
    }
}
