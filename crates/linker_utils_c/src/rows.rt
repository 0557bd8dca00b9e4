//! Relocations by handles: one look-up by `e_machine` and `r_type`, and all calls by its result.

ghost use Rattle.std.specs.Prelude.{◌≡◌, ◌%◌, MatchOption, Option, pos, false};
ghost use Rattle.linker_elf.specs.AppliedRows.{IsAppliedIfKnown};
ghost use Rattle.linker_elf.specs.ElfNames.{ElfName};
ghost use Rattle.linker_elf.specs.declared.elf.RowInfo.{RowInfo};
ghost use Rattle.linker_section.specs.Needed.{needs_in};
ghost use Rattle.linker_elf.specs.Architectures.{IsElfName, IsRow};
ghost use Rattle.linker_elf.specs.Handles.{IsFound, IsRowOf, architecture_in, handle_unit};
ghost use Rattle.linker_elf.specs.Machines.{architecture_of};
ghost use Rattle.linker_utils_c.specs.Choices.{facts_of};
ghost use Rattle.linker_utils_c.specs.Relocate.{IsRelocatedAs, IsValueOf, AreBounds};
ghost use Rattle.linker_utils_c.specs.Rows.{AreNeeded, InRowNumbers, IsAppliedAs, IsChosenIn};
ghost use Rattle.linker_utils_c.specs.Rows.{IsFitOf, IsPaddedName, IsRowReturned, apply_status};
ghost use Rattle.linker_utils_c.specs.Rows.{is_relative};
ghost use Rattle.linker_utils_c.specs.Sections.{requirements_in};
ghost use Rattle.linker_utils_c.specs.Status.{code, IsGivenBy};
ghost use Rattle.linker_elf.specs.Reach.{reach_of};

use crate::choices::{ChoiceNumbers, LinkFactNumbers, choose_in_numbers};
use crate::relocate::{Reach, reach_by, reach_in, status_of, value_by, value_status, write_by};
use crate::sections::{RequirementNumbers, in_numbers, needs_by};
use crate::status::{Status, or_return};
use linker_section::needed::needs;
use linker_utils::architecture::fits;
use linker_utils::elf::{
    ApplyError, Architecture, HANDLE_UNIT, Operands, RelocationKind, Row, RowSize,
};

/// The row of a handle, if it is one.
#[inline(always)]
fn row_of(handle: u32) -> Option<Row>
    ensures { IsRowOf handle result }
{
    match Architecture::of_handle(handle) {
        Some(architecture) => architecture.row(handle % HANDLE_UNIT),
        None => None,
    }
}

/// The handle of the relocation with `r_type` in files with `e_machine` `machine`; 0 where the
/// architecture isn't known, or no meaning.
#[unsafe(no_mangle)]
pub extern "C" fn linker_utils_find(machine: u16, r_type: u32) -> u32
    ensures { MatchOption (architecture_of machine)
        (result ≡ 0)
        (λ architecture. (meaning : Option RowInfo)
        × IsRow architecture r_type meaning × IsFound architecture r_type meaning result) }
{
    let Some(architecture) = Architecture::from_machine(machine) else {
        return 0;
    };
    architecture.handle(r_type)
}

/// The value of a relocation by its handle. The first that applies of `UnknownRelocation`;
/// `NoEntry`; `NoTlsBase`; `NoValue`.
#[unsafe(no_mangle)]
pub extern "C" fn linker_utils_row_value(handle: u32, operands: &Operands, value: &mut i64) -> u32
    ensures { (meaning : Option RowInfo) × IsRowOf handle meaning
        × IsValueOf meaning operands.now result value.old value.new }
{
    value_by(row_of(handle), operands, value)
}

/// Writes the value of a relocation by its handle. The first that applies of `UnknownRelocation`;
/// `Unsupported`; `TooShort`; `Misaligned`; `OutOfReach`.
#[unsafe(no_mangle)]
pub extern "C" fn linker_utils_row_write_nonnull(handle: u32, value: i64, dest: &mut [u8]) -> u32
    ensures { (meaning : Option RowInfo) × IsRowOf handle meaning
        × IsRelocatedAs meaning value dest.old dest.new result }
{
    write_by(row_of(handle), value, dest)
}

/// The status of a relocation that is applied, or of why it isn't.
#[inline(always)]
fn status_applied(outcome: Option<Result<(), ApplyError>>) -> u32
    ensures { result ≡ code (apply_status outcome) }
{
    match outcome {
        Some(Ok(())) => Status::Success as u32,
        Some(Err(ApplyError::Formula(error))) => value_status(error),
        Some(Err(ApplyError::Write(error))) => status_of(Err(error)),
        None => Status::UnknownRelocation as u32,
    }
}

/// `Architecture::apply` of a handle.
#[inline(always)]
fn applied(handle: u32, operands: &Operands, dest: &mut [u8]) -> Option<Result<(), ApplyError>>
    ensures { (meaning : Option RowInfo) × IsRowOf handle meaning
        × IsAppliedIfKnown meaning operands.now dest.old dest.new result }
{
    match Architecture::of_handle(handle) {
        Some(architecture) => architecture.apply(handle % HANDLE_UNIT, operands, dest),
        None => None,
    }
}

/// Computes the value of a relocation by its handle and writes it. The first that applies of
/// `UnknownRelocation`; `NoEntry`; `NoTlsBase`; `NoValue`; `Unsupported`; `TooShort`; `Misaligned`;
/// `OutOfReach`.
#[inline(always)]
#[unsafe(no_mangle)]
pub extern "C" fn linker_utils_row_apply_nonnull(
    handle: u32,
    operands: &Operands,
    dest: &mut [u8],
) -> u32
    ensures { (meaning : Option RowInfo) × IsRowOf handle meaning
        × IsAppliedAs meaning operands.now dest.old dest.new result }
{
    status_applied(applied(handle, operands, dest))
}

/// The values of a relocation that can be written, by its handle. `UnknownRelocation`.
#[unsafe(no_mangle)]
pub extern "C" fn linker_utils_row_reach(handle: u32, reach: &mut Reach) -> u32
    ensures { (meaning : Option RowInfo) × IsRowOf handle meaning
        × IsGivenBy (λ row. AreBounds (reach_of row)) meaning Status.UnknownRelocation reach.old
        reach.new result }
{
    reach_by(row_of(handle), reach)
}

/// What a relocation requires, by its handle, as `linker_utils_needs`. `UnknownRelocation`.
#[unsafe(no_mangle)]
pub extern "C" fn linker_utils_row_needs(
    handle: u32,
    addend: i64,
    is_thread_local: bool,
    required: &mut RequirementNumbers,
) -> u32
    ensures { (meaning : Option RowInfo) × IsRowOf handle meaning
        × IsGivenBy (λ needs given. given ≡ requirements_in needs)
        (needs_in meaning addend is_thread_local)
        Status.UnknownRelocation required.old required.new result }
{
    match Architecture::of_handle(handle) {
        Some(architecture) => {
            let needs = needs(architecture, handle % HANDLE_UNIT, addend, is_thread_local);
            needs_by(needs, required)
        }
        None => Status::UnknownRelocation as u32,
    }
}

/// Which rewrite a linker makes of the instruction at a relocation, by its handle, as
/// `linker_utils_choose`. `UnknownRelocation`.
#[unsafe(no_mangle)]
pub extern "C" fn linker_utils_row_choose_nonnull(
    handle: u32,
    section: &[u8],
    offset: u64,
    facts: &LinkFactNumbers,
    choice: &mut ChoiceNumbers,
) -> u32
    ensures { (meaning : Option RowInfo) × IsRowOf handle meaning
        × IsGivenBy (λ row. IsChosenIn (architecture_in handle) (handle % handle_unit) section.now
        offset (facts_of facts.now)) meaning Status.UnknownRelocation choice.old choice.new result }
{
    let architecture = or_return!(Architecture::of_handle(handle), UnknownRelocation);
    let r_type = handle % HANDLE_UNIT;
    let _ = or_return!(architecture.row(r_type), UnknownRelocation);
    *choice = choose_in_numbers(architecture, r_type, section, offset, &facts.facts());
    Status::Success as u32
}

/// Whether a relocation can be rewritten if each other one of its sequence can, by its handle, as
/// `linker_utils_relocation_fits`. False of a number that is no handle.
#[unsafe(no_mangle)]
pub extern "C" fn linker_utils_row_fits_nonnull(
    handle: u32,
    section: &[u8],
    offset: u64,
    facts: &LinkFactNumbers,
) -> bool
    ensures { (meaning : Option RowInfo) × IsRowOf handle meaning
        × IsFitOf meaning handle section.now offset (facts_of facts.now) result }
{
    let Some(architecture) = Architecture::of_handle(handle) else {
        return false;
    };
    let r_type = handle % HANDLE_UNIT;
    match architecture.row(r_type) {
        Some(_) => fits(architecture, r_type, section, offset, &facts.facts()),
        None => false,
    }
}

/// What a relocation means and requires, in numbers. A fact holds where its number is 1.
#[repr(C)]
#[derive(Clone, Copy)]
pub struct RowNumbers {
    /// What each value has to be a multiple of.
    pub alignment: u64,
    /// Which values can be written.
    pub reach: Reach,
    /// What it requires with the addend 1, of a symbol that isn't thread-local.
    pub needs: RequirementNumbers,
    /// The relocation's type.
    pub r_type: u32,
    /// The formula of its value.
    pub kind: u32,
    /// The machine.
    pub machine: u16,
    /// How many bytes a write writes.
    pub window: u8,
    /// 1 where an entry of the PLT may serve as its target; else 0.
    pub may_use_plt: u8,
    /// 1 where its value is relative to its place; else 0.
    pub is_relative: u8,
    /// Its name, with a NUL after it.
    pub name: [u8; 40],
}

/// Whether the formula has the place.
#[inline(always)]
fn is_relative(kind: RelocationKind, size: RowSize) -> bool
    ensures { result ≡ is_relative kind size }
{
    match kind {
        RelocationKind::Relative => !matches!(size, RowSize::ByteSize(0)),
        RelocationKind::RelativeRiscVLow12
        | RelocationKind::RelativeLoongArchHigh
        | RelocationKind::GotRelative
        | RelocationKind::GotRelativeLoongArch64
        | RelocationKind::PltRelative
        | RelocationKind::TlsGd
        | RelocationKind::TlsLd
        | RelocationKind::GotTpOff
        | RelocationKind::GotTpOffLoongArch64
        | RelocationKind::TlsDesc
        | RelocationKind::TlsDescLoongArch64 => true,
        _ => false,
    }
}

/// The name of a type, and NULs.
fn padded_name(architecture: Architecture, r_type: u32) -> [u8; 40]
    ensures { (elf : ElfName) × IsElfName architecture r_type elf × IsPaddedName elf result }
{
    let mut name = [0u8; 40];
    if let Some(text) = architecture.name(r_type) {
        name[..text.len()].copy_from_slice(text.as_bytes());
    }
    name
}

/// What a relocation of a type requires with the addend 1, of a symbol that isn't thread-local.
fn requirements(architecture: Architecture, r_type: u32) -> RequirementNumbers
    ensures { (meaning : Option RowInfo) × IsRow architecture r_type meaning
        × AreNeeded (needs_in meaning (pos 1) false) result }
{
    match needs(architecture, r_type, 1, false) {
        Some(needs) => in_numbers(&needs),
        None => RequirementNumbers {
            entry_addend: 0,
            entry_class: 0,
            is_branch: 0,
            may_use_stub: 0,
            stub_only_if_undefined: 0,
            is_word: 0,
            depends_on_load: 0,
        },
    }
}

/// A type's row in numbers.
fn row_numbers(architecture: Architecture, r_type: u32, row: &Row) -> RowNumbers
    ensures { InRowNumbers architecture r_type row.now result }
{
    let info = row.info();
    RowNumbers {
        alignment: info.alignment,
        reach: reach_in(row),
        needs: requirements(architecture, r_type),
        r_type,
        kind: row.numbers().kind,
        machine: architecture.machine(),
        window: row.window() as u8,
        may_use_plt: row.may_use_plt().into(),
        is_relative: is_relative(info.kind, info.size).into(),
        name: padded_name(architecture, r_type),
    }
}

/// What a relocation means and requires, by its handle. `UnknownRelocation`.
#[unsafe(no_mangle)]
pub extern "C" fn linker_utils_row_of(handle: u32, row: &mut RowNumbers) -> u32
    ensures { (meaning : Option RowInfo) × IsRowOf handle meaning
        × IsRowReturned (architecture_in handle) (handle % handle_unit) meaning result row.old
        row.new }
{
    let architecture = or_return!(Architecture::of_handle(handle), UnknownRelocation);
    let r_type = handle % HANDLE_UNIT;
    let found = or_return!(architecture.row(r_type), UnknownRelocation);
    *row = row_numbers(architecture, r_type, &found);
    Status::Success as u32
}
