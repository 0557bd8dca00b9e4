//! The numbers in immediates; what stands in the fields of linked relocations, and the addresses
//! after it.

ghost use Rattle.std.specs.Prelude.{◌≡◌, Option, Some, MatchResult};
ghost use Rattle.linker_elf.specs.declared.elf.RowInfo.{RowInfo};
ghost use Rattle.linker_elf.specs.Architectures.{IsRow};
ghost use Rattle.linker_utils_c.specs.Reading.{field_of, reference_number, IsRowRead};
ghost use Rattle.linker_utils_c.specs.Reading.{IsAddress, IsRowSolved};
ghost use Rattle.linker_utils_c.specs.Forms.{named_form};
ghost use Rattle.linker_utils_c.specs.Reading.{AreHalvesJoined, IsOperandReturned};
ghost use Rattle.linker_utils_c.specs.Status.{code, OfMachine, IfFound, IsGivenBy};

use crate::forms::form_of;
use crate::status::{Status, or_return};
use linker_reading::fields::FieldValue;
use linker_reading::operands::operand;
use linker_reading::reading::read;
use linker_reading::solving::{Reference, Terms, join, solve, terms_of};
use linker_utils::bit_misc::BitRange;
use linker_utils::elf::{AnyForm, Architecture, Operands, Row};

/// The number that the machine makes of the immediate of the instruction that the bytes begin with,
/// as `operand` of `linker_reading` returns it. The first that applies of `UnknownArchitecture`;
/// `UnknownForm`; `DoesNotMatch`, where the bytes don't begin with an instruction of the form.
#[unsafe(no_mangle)]
pub extern "C" fn linker_utils_operand_nonnull(
    machine: u16,
    form: u32,
    bytes: &[u8],
    number: &mut i64,
) -> u32
    ensures { MatchResult (named_form machine form)
        (λ named. IsOperandReturned named bytes.now number.old number.new result)
        (λ status. (result ≡ code status) × (number.new ≡ number.old)) }
{
    match form_of(machine, form) {
        Ok(named) => put_operand(named, bytes, number),
        Err(status) => status,
    }
}

#[inline(always)]
fn put_operand(form: AnyForm, bytes: &[u8], number: &mut i64) -> u32
    ensures { IsOperandReturned form bytes.now number.old number.new result }
{
    *number = or_return!(operand(form, bytes), DoesNotMatch);
    Status::Success as u32
}

/// What is known of a number of 64 bits, a relocation's value or an address.
#[repr(C)]
#[derive(Clone, Copy)]
pub struct FieldValueNumbers {
    /// The known bits of the sum of the number and `rounding`, the first of them at bit 0.
    pub bits: u64,
    /// What was added to the number, modulo 2^64, before its bits were taken.
    pub rounding: u64,
    /// The first known bit. Bit 0 is the lowest.
    pub first_bit: u8,
    /// The first bit above the known ones.
    pub end_bit: u8,
}

impl FieldValueNumbers {
    #[inline(always)]
    pub(crate) fn of(field: FieldValue) -> FieldValueNumbers
        ensures { field_of result ≡ field }
    {
        FieldValueNumbers {
            bits: field.bits,
            rounding: field.rounding,
            first_bit: field.known.start,
            end_bit: field.known.end,
        }
    }

    #[inline(always)]
    pub(crate) fn field(&self) -> FieldValue
        ensures { result ≡ field_of self.now }
    {
        FieldValue {
            known: BitRange {
                start: self.first_bit,
                end: self.end_bit,
            },
            bits: self.bits,
            rounding: self.rounding,
        }
    }
}

/// What is known of the value of the relocation with `r_type` from the bytes that begin with its
/// field, as `read` of `linker_reading` returns it. The first that applies of
/// `UnknownArchitecture`; `UnknownRelocation`; `TooShort`, where there are fewer bytes than the
/// field's; `HoldsNoValue`.
#[unsafe(no_mangle)]
pub extern "C" fn linker_utils_read_value_nonnull(
    machine: u16,
    r_type: u32,
    bytes: &[u8],
    value: &mut FieldValueNumbers,
) -> u32
    ensures { OfMachine machine (value.new ≡ value.old) result (λ architecture.
        (meaning : Option RowInfo) × IsRow architecture r_type meaning
        × IfFound meaning Status.UnknownRelocation (value.new ≡ value.old) result
        (λ row. IsRowRead row bytes.now value.old value.new result)) }
{
    let architecture = or_return!(Architecture::from_machine(machine), UnknownArchitecture);
    let meaning = or_return!(architecture.row(r_type), UnknownRelocation);
    read_row(&meaning, bytes, value)
}

#[inline(always)]
fn read_row(row: &Row, bytes: &[u8], value: &mut FieldValueNumbers) -> u32
    ensures { IsRowRead row.now bytes.now value.old value.new result }
{
    match read(row, bytes) {
        Some(field) => {
            *value = FieldValueNumbers::of(field);
            Status::Success as u32
        }
        None => {
            if bytes.len() < row.window() {
                Status::TooShort as u32
            } else {
                Status::HoldsNoValue as u32
            }
        }
    }
}

#[inline(always)]
pub(crate) fn reference_number(reference: Reference) -> u32
    ensures { result ≡ reference_number reference }
{
    match reference {
        Reference::Symbol => 0,
        Reference::GotEntry => 1,
        Reference::PltEntry => 2,
    }
}

/// Writes the address that was solved for, with what it is that of.
#[inline(always)]
fn put_address(
    terms: Option<Terms>,
    solution: Option<FieldValue>,
    reference: &mut u32,
    address: &mut FieldValueNumbers,
) -> u32
    ensures { IsAddress terms solution reference.old reference.new address.old address.new result }
{
    match terms {
        None => Status::NoAddress as u32,
        Some(terms) => match solution {
            None => Status::NoAddress as u32,
            Some(solution) => {
                *reference = reference_number(terms.reference);
                *address = FieldValueNumbers::of(solution);
                Status::Success as u32
            }
        },
    }
}

fn solve_row(
    row: &Row,
    value: &FieldValueNumbers,
    operands: &Operands,
    reference: &mut u32,
    address: &mut FieldValueNumbers,
) -> u32
    ensures { IsRowSolved row.now (field_of value.now) operands.now reference.old reference.new
        address.old address.new result }
{
    let field = value.field();
    if !field.is_proper() {
        return Status::BadFieldValue as u32;
    }
    let info = row.info();
    let solution = solve(&info, &field, operands);
    put_address(terms_of(info.kind, info.size), solution, reference, address)
}

/// What is known of the address that the value of the relocation with `r_type` comes from, as
/// `solve` of `linker_reading` returns it, and into `reference` which address it is: 0 that of the
/// symbol, 1 that of the GOT entry, 2 that of the PLT entry. Of the operands only the place, the
/// GOT's address and the base of TLS are read. The first that applies of `UnknownArchitecture`;
/// `UnknownRelocation`; `BadFieldValue`; `NoAddress`, also where the base of TLS is read and there
/// is none.
#[unsafe(no_mangle)]
pub extern "C" fn linker_utils_solve(
    machine: u16,
    r_type: u32,
    value: &FieldValueNumbers,
    operands: &Operands,
    reference: &mut u32,
    address: &mut FieldValueNumbers,
) -> u32
    ensures { OfMachine machine ((reference.new ≡ reference.old) × (address.new ≡ address.old))
        result
        (λ architecture.
        (meaning : Option RowInfo) × IsRow architecture r_type meaning × IfFound meaning
        Status.UnknownRelocation ((reference.new ≡ reference.old) × (address.new ≡ address.old))
        result
        (λ row. IsRowSolved row (field_of value.now) operands.now reference.old reference.new
        address.old address.new result)) }
{
    let architecture = or_return!(Architecture::from_machine(machine), UnknownArchitecture);
    let meaning = or_return!(architecture.row(r_type), UnknownRelocation);
    solve_row(&meaning, value, operands, reference, address)
}

#[inline(always)]
fn put_whole(joined: Option<FieldValue>, whole: &mut FieldValueNumbers) -> u32
    ensures { IsGivenBy (λ f given. field_of given ≡ f) joined Status.NotHalves whole.old whole.new
        result }
{
    let joined = or_return!(joined, NotHalves);
    *whole = FieldValueNumbers::of(joined);
    Status::Success as u32
}

/// What is known of an address from both halves of a pair, as `join` of `linker_reading` returns
/// it. The first that applies of `BadFieldValue`, of either half, and `NotHalves`.
#[unsafe(no_mangle)]
pub extern "C" fn linker_utils_join(
    high: &FieldValueNumbers,
    low: &FieldValueNumbers,
    whole: &mut FieldValueNumbers,
) -> u32
    ensures { AreHalvesJoined (field_of high.now) (field_of low.now) whole.old whole.new result }
{
    let high = high.field();
    let low = low.field();
    if !high.is_proper() || !low.is_proper() {
        return Status::BadFieldValue as u32;
    }
    put_whole(join(&high, &low), whole)
}
