//! What a linker made of a relocation, by the bytes before and after, and the bits of its field.

ghost use Rattle.std.specs.Prelude.{◌≡◌, ◌≤◌, MatchOption, Option, Some, false, length};
ghost use Rattle.linker_elf.specs.Entries.{IsAnswerOf};
ghost use Rattle.linker_elf.specs.declared.elf.RowInfo.{RowInfo};
ghost use Rattle.linker_elf.specs.Architectures.{IsRow};
ghost use Rattle.linker_utils.specs.Relaxations.{rewrite_of_number};
ghost use Rattle.linker_elf.specs.Machines.{architecture_of};
ghost use Rattle.linker_utils_c.specs.Choices.{facts_of};
ghost use Rattle.linker_utils_c.specs.Reading.{field_of, reference_number};
ghost use Rattle.linker_utils_c.specs.Recognising.{IsSameness, field_or_none, AreFieldBits};
ghost use Rattle.linker_utils_c.specs.Recognising.{IsMadeInNumbers, AreWritten, AreRecognised};
ghost use Rattle.linker_utils_c.specs.Recognising.{IsRecognised, IsWindowGiven};
ghost use Rattle.linker_utils_c.specs.Recognising.{IsDestinationInNumbers};
ghost use Rattle.linker_utils_c.specs.Recognising.{IsDestinationOf, IsDestinationReturned};
ghost use Rattle.linker_utils_c.specs.Status.{OfMachine, IfFound, IsGivenBy};

use crate::choices::{ChoiceNumbers, LinkFactNumbers, in_numbers};
use crate::reading::{FieldValueNumbers, reference_number};
use crate::status::{Status, or_return};
use linker_reading::fields::FieldValue;
use linker_reading::recognise::architecture::{
    Destination, destination_of, recognise, recognise_chosen, window_of,
};
use linker_reading::recognise::fields::{FieldBits, field_bits, same_but_for};
use linker_reading::recognise::{CANDIDATES, MAX_WINDOW, Recognised};
use linker_utils::architecture::Relaxation;
use linker_utils::elf::{Architecture, Choice, Operands, RewriteWindow, Row};

/// Which bits of the bytes that `bytes` begins with a write of the relocation with `r_type` may
/// change, bit 0 the lowest of the first byte, as `field_bits` of `linker_reading` returns them.
/// The first that applies of `UnknownArchitecture`; `UnknownRelocation`; `TooShort`.
#[unsafe(no_mangle)]
pub extern "C" fn linker_utils_field_bits_nonnull(
    machine: u16,
    r_type: u32,
    bytes: &[u8],
    bits: &mut u64,
) -> u32
    ensures { OfMachine machine (bits.new ≡ bits.old) result (λ architecture.
        (meaning : Option RowInfo) × IsRow architecture r_type meaning
        × IfFound meaning Status.UnknownRelocation (bits.new ≡ bits.old) result
        (λ row. AreFieldBits row bytes.now bits.old bits.new result)) }
{
    let architecture = or_return!(Architecture::from_machine(machine), UnknownArchitecture);
    let meaning = or_return!(architecture.row(r_type), UnknownRelocation);
    put_bits(&meaning, bytes, bits)
}

#[inline(always)]
fn put_bits(row: &Row, bytes: &[u8], bits: &mut u64) -> u32
    ensures { AreFieldBits row.now bytes.now bits.old bits.new result }
{
    if bytes.len() < row.window() {
        return Status::TooShort as u32;
    }
    *bits = field_bits(row, bytes);
    Status::Success as u32
}

/// Whether two windows of the same length, which begin with the field of the relocation with
/// `r_type`, differ in the field only. False where the machine or the type is unknown, the lengths
/// differ or the field isn't in the windows.
#[unsafe(no_mangle)]
pub extern "C" fn linker_utils_same_but_for_nonnull(
    machine: u16,
    r_type: u32,
    a: &[u8],
    b: &[u8],
) -> bool
    ensures { MatchOption (architecture_of machine)
        (result ≡ false)
        (λ architecture. (meaning : Option RowInfo) × IsRow architecture r_type meaning
        × IsAnswerOf (IsSameness a.now b.now) meaning result) }
{
    let Some(architecture) = Architecture::from_machine(machine) else {
        return false;
    };
    match architecture.row(r_type) {
        Some(meaning) => same_but_for(&meaning, a, b),
        None => false,
    }
}

/// A rewrite that leaves the linked bytes, in numbers.
#[repr(C)]
#[derive(Clone, Copy)]
pub struct RecognisedNumbers {
    /// The rewrite, the relocation after it and what is deleted.
    pub choice: ChoiceNumbers,
    /// The offset of that relocation's field in the linked bytes.
    pub offset: u64,
    /// What is known of its value from the field; no bits where nothing is.
    pub value: FieldValueNumbers,
}

#[inline(always)]
fn known_of(value: Option<FieldValue>) -> FieldValueNumbers
    ensures { field_of result ≡ field_or_none value }
{
    match value {
        Some(field) => FieldValueNumbers::of(field),
        None => FieldValueNumbers {
            bits: 0,
            rounding: 0,
            first_bit: 0,
            end_bit: 0,
        },
    }
}

#[inline]
fn numbers_of(made: Recognised<Relaxation, u32>) -> RecognisedNumbers
    ensures { IsMadeInNumbers made result }
{
    RecognisedNumbers {
        choice: in_numbers(made.choice),
        offset: made.offset,
        value: known_of(made.value),
    }
}

/// Writes what was found, and returns how many it is.
fn write_found(
    made: &[Option<Recognised<Relaxation, u32>>],
    found: &mut [RecognisedNumbers],
) -> usize
    requires { length made.now ≤ length found.old }
    ensures { AreWritten made.now found.old found.new result }
{
    let mut count = 0;
    for index in 0..made.len() {
        if let Some(one) = made[index] {
            found[count] = numbers_of(one);
            count += 1;
        }
    }
    count
}

/// Writes the window that `linker_utils_recognise` wants around the relocation with `r_type`, whose
/// offset in the original bytes is given, as `window_of` of `linker_reading`. The first that
/// applies of `UnknownArchitecture`; `WindowTooLong`.
#[unsafe(no_mangle)]
pub extern "C" fn linker_utils_recognise_window_nonnull(
    machine: u16,
    r_type: u32,
    original: &[u8],
    offset: u64,
    window: &mut RewriteWindow,
) -> u32
    ensures { OfMachine machine (window.new ≡ window.old) result (λ architecture.
        IsWindowGiven architecture r_type original.now offset window.old window.new result) }
{
    let architecture = or_return!(Architecture::from_machine(machine), UnknownArchitecture);
    if original.len() > MAX_WINDOW {
        return Status::WindowTooLong as u32;
    }
    *window = window_of(architecture, r_type, original, offset);
    Status::Success as u32
}

/// Writes which rewrites, and relocations after them, a linker may have made at the relocation with
/// `r_type`, whose offset in the original bytes is given, as `recognise` of `linker_reading`.
/// `count` is how many there are, and the elements of `found` from there on are unchanged.
///
/// `found` has 6 elements. The first that applies of `UnknownArchitecture`; `DifferentLengths`;
/// `WindowTooLong`. Nothing is written then.
#[unsafe(no_mangle)]
pub extern "C" fn linker_utils_recognise_nonnull(
    machine: u16,
    r_type: u32,
    original: &[u8],
    offset: u64,
    others: &[FieldBits],
    linked: &[u8],
    found: &mut [RecognisedNumbers],
    count: &mut usize,
) -> u32
    ensures { OfMachine machine ((found.new ≡ found.old) × (count.new ≡ count.old)) result
        (λ architecture.
        AreRecognised architecture r_type original.now offset others.now linked.now found.old
        found.new count.old count.new result) }
{
    let architecture = or_return!(Architecture::from_machine(machine), UnknownArchitecture);
    recognise_into(
        architecture,
        r_type,
        original,
        offset,
        others,
        linked,
        found,
        count,
    )
}

fn recognise_into(
    architecture: Architecture,
    r_type: u32,
    original: &[u8],
    offset: u64,
    others: &[FieldBits],
    linked: &[u8],
    found: &mut [RecognisedNumbers],
    count: &mut usize,
) -> u32
    ensures { AreRecognised architecture r_type original.now offset others.now linked.now found.old
        found.new count.old count.new result }
{
    if found.len() != CANDIDATES {
        return Status::DifferentLengths as u32;
    }
    if original.len() > MAX_WINDOW {
        return Status::WindowTooLong as u32;
    }
    let made = recognise(architecture, r_type, original, offset, others, linked);
    *count = write_found(&made, found);
    Status::Success as u32
}

/// Writes the choice that `linker_utils_choose` makes by these facts, if it leaves the linked
/// bytes, as `linker_utils_recognise` says. The first that applies of `UnknownArchitecture`;
/// `WindowTooLong`; `LeavesOtherBytes`.
#[unsafe(no_mangle)]
pub extern "C" fn linker_utils_recognise_chosen_nonnull(
    machine: u16,
    r_type: u32,
    original: &[u8],
    offset: u64,
    others: &[FieldBits],
    linked: &[u8],
    facts: &LinkFactNumbers,
    found: &mut RecognisedNumbers,
) -> u32
    ensures { OfMachine machine (found.new ≡ found.old) result (λ architecture.
        IsRecognised architecture r_type original.now offset others.now linked.now
        (facts_of facts.now) found.old found.new result) }
{
    let architecture = or_return!(Architecture::from_machine(machine), UnknownArchitecture);
    if original.len() > MAX_WINDOW {
        return Status::WindowTooLong as u32;
    }
    put_chosen(
        recognise_chosen(
            architecture,
            r_type,
            original,
            offset,
            others,
            linked,
            &facts.facts(),
        ),
        found,
    )
}

#[inline(always)]
fn put_chosen(made: Option<Recognised<Relaxation, u32>>, found: &mut RecognisedNumbers) -> u32
    ensures { IsGivenBy IsMadeInNumbers made Status.LeavesOtherBytes found.old found.new result }
{
    let made = or_return!(made, LeavesOtherBytes);
    *found = numbers_of(made);
    Status::Success as u32
}

/// Where a recognised relocation leads, in numbers.
#[repr(C)]
#[derive(Clone, Copy)]
pub struct DestinationNumbers {
    /// What is known of the address: of S + A, L + A, or the GOT entry's.
    pub address: FieldValueNumbers,
    /// A, the addend of the relocation after the rewrite.
    pub addend: i64,
    /// S, or L of a relocation that goes by a PLT entry, as `symbol` of `Destination` returns it; 0
    /// where `has_symbol` is.
    pub symbol: u64,
    /// Which address it is: 0 S + A, 1 the GOT entry's, 2 L + A.
    pub reference: u32,
    /// 1 where `symbol` is known; 0 of a GOT entry's address, and where not all bits are known.
    pub has_symbol: u8,
}

/// A destination in numbers.
#[inline(always)]
fn destination_in(destination: &Destination, st_other: u8) -> DestinationNumbers
    ensures { IsDestinationInNumbers destination.now st_other result }
{
    let (has_symbol, symbol) = match destination.symbol(st_other) {
        Some(symbol) => (1, symbol),
        None => (0, 0),
    };
    DestinationNumbers {
        address: FieldValueNumbers::of(destination.address),
        addend: destination.addend,
        symbol,
        reference: reference_number(destination.reference),
        has_symbol,
    }
}

/// Writes where a relocation leads, if it leads anywhere.
#[inline(always)]
fn put_destination(
    found: Option<Destination>,
    st_other: u8,
    destination: &mut DestinationNumbers,
) -> u32
    ensures { IsGivenBy (λ found. IsDestinationInNumbers found st_other) found Status.NoAddress
        destination.old destination.new result }
{
    let found = or_return!(found, NoAddress);
    *destination = destination_in(&found, st_other);
    Status::Success as u32
}

/// Where a relocation leads after a rewrite of the architecture that has these numbers.
fn put_destination_of(
    architecture: Architecture,
    made: &RecognisedNumbers,
    original: &[u8],
    offset: u64,
    operands: &Operands,
    st_other: u8,
    destination: &mut DestinationNumbers,
) -> u32
    requires { length original.now ≤ 64 }
    ensures { IsDestinationOf architecture (rewrite_of_number architecture made.now.choice.rewrite
        made.now.choice.opcode_len) made.now original.now offset operands.now st_other
        destination.old destination.new result }
{
    let choice = &made.choice;
    let kind = or_return!(
        Relaxation::from_number(architecture, choice.rewrite, choice.opcode_len),
        UnknownRewrite
    );
    let made = Recognised {
        choice: Choice {
            kind,
            relocation: choice.relocation,
        },
        offset: made.offset,
        value: Some(made.value.field()),
    };
    put_destination(
        destination_of(architecture, &made, original, offset, operands),
        st_other,
        destination,
    )
}

/// Where a relocation leads that `linker_utils_recognise` or `linker_utils_recognise_chosen` found,
/// with the same original bytes and offset, as `destination_of` of `linker_reading`; the symbol by
/// its `st_other`. The first that applies of `UnknownArchitecture`; `WindowTooLong`;
/// `UnknownRewrite`; `NoAddress`.
#[unsafe(no_mangle)]
pub extern "C" fn linker_utils_get_destination_nonnull(
    machine: u16,
    made: &RecognisedNumbers,
    original: &[u8],
    offset: u64,
    operands: &Operands,
    st_other: u8,
    destination: &mut DestinationNumbers,
) -> u32
    ensures { OfMachine machine (destination.new ≡ destination.old) result (λ architecture.
        IsDestinationReturned architecture made.now original.now offset operands.now st_other
        destination.old destination.new result) }
{
    let architecture = or_return!(Architecture::from_machine(machine), UnknownArchitecture);
    if original.len() > MAX_WINDOW {
        return Status::WindowTooLong as u32;
    }
    put_destination_of(
        architecture,
        made,
        original,
        offset,
        operands,
        st_other,
        destination,
    )
}
