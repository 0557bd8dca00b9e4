//! The values of relocations that ascend by offset, written.

ghost use Rattle.std.specs.Prelude.{◌≡◌, ◌≤◌, ◌<◌, ◌/◌, ℕ, List, length, slice_index, IfErr};
ghost use Rattle.std.specs.Prelude.{IfOk, IfSome, IfNone};
ghost use Rattle.linker_section.specs.Inner.Quick.{IsHighValue};
ghost use Rattle.linker_section.specs.Inner.Steps.{IsFront, IsLastOf, IsQuickStep, IsSlowStep};
ghost use Rattle.linker_section.specs.Inner.Steps.{IsStopped, AreWrittenBelow, AreWrittenOrKept};
ghost use Rattle.linker_section.specs.Inner.Steps.{IsFirstRun};
ghost use Rattle.linker_section.specs.Relocations.{relocation_in};
ghost use Rattle.linker_section.specs.declared.fields.Field.{Field};

use crate::conditions::begins_with;
use crate::facts::Addresses;
use crate::fields::Field;
use crate::order::are_runs_apart;
use crate::quick::{HighPart, high_after, quick_value};
use crate::relocations::{
    RELA_LEN, Rela, offset_at, relocation_in, relocation_of, relocations_from, relocations_len,
};
use crate::saved::whole_word_at;
use crate::sections::{
    FIRST_STEP, NO_FIELD, SectionError, Step, Stopped, write_held_at, write_one,
};
use crate::symbols::Symbols;
use linker_elf::elf::Architecture;
use linker_elf::elf::architecture::by_architecture;

/// Writes the value of the relocation at an index, if it is found and accepted with few
/// tests, and keeps the bytes that were there before. Its offset has to be `end` at least.
/// Returns where its field ends, and the last high part; and else changes no byte of the section.
#[inline(always)]
fn write_quickly<S: Symbols>(
    architecture: Architecture,
    addresses: &Addresses,
    relocations: &[u8],
    symbols: S,
    relocation: &Rela,
    high: Option<HighPart>,
    index: usize,
    end: u64,
    section: &mut [u8],
    memory: &mut [u64],
) -> Option<(u64, Option<HighPart>)>
    requires within { index < length relocations.now / 24 }
    requires room { length relocations.now / 24 ≤ length memory.old }
    requires is { relocation.now ≡ relocation_in relocations.now index }
    requires high { IfSome high
        (IsHighValue architecture addresses.now relocations.now (S.knowledge symbols)) }
    ensures len { length memory.new ≡ length memory.old }
    ensures high { IfSome result (λ next. IfSome (next.1)
        (IsHighValue architecture addresses.now relocations.now (S.knowledge symbols))) }
    ensures kept { (k : ℕ) → k < index → slice_index memory.new k ≡ slice_index memory.old k }
    ensures none { IfNone result (section.new ≡ section.old) }
    ensures some { IfSome result (λ next. IsQuickStep architecture addresses.now relocations.now
        (S.values symbols) index end section.old section.new memory.old memory.new (next.0)) }
{
    let offset = relocation.offset;
    if offset < end {
        return None;
    }
    let Some(row) = architecture.row(relocation.r_type) else {
        return None;
    };
    let Some(word) = whole_word_at(section, offset) else {
        return None;
    };
    if !begins_with(architecture, &row, word) {
        return None;
    }
    // stored before the value is found, so that the word takes no register
    memory[index] = word;
    let Some(value) = quick_value(
        architecture,
        addresses,
        relocations,
        symbols,
        &row,
        index,
        relocation,
        high,
    ) else {
        return None;
    };
    if write_held_at(&row, value, offset, section).is_err() {
        return None;
    }
    let high = high_after(architecture, &row, offset, value, high);
    Some((offset + row.window() as u64, high))
}

/// The last field before a relocation: that of a step, or where others were written quickly since,
/// that of the relocation before.
#[inline(always)]
fn last_field(architecture: Architecture, relocations: &[u8], index: usize, step: &Step) -> Field
    requires within { index < length relocations.now / 24 }
    requires following { step.now.index ≤ index }
    ensures { (field : Field) → IsLastOf architecture relocations.now index step.now field
        → result ≡ field }
{
    if step.index == index {
        return step.last;
    }
    let relocation = relocation_in(relocations, index - 1);
    match architecture.row(relocation.r_type) {
        Some(row) => Field {
            offset: relocation.offset,
            len: row.window(),
            kind: row.kind(),
        },
        None => NO_FIELD,
    }
}

/// The same as `write_one`, of the relocation after those that were written quickly since a step.
/// None where it is before the last field.
#[inline(never)]
fn write_slowly<S: Symbols>(
    architecture: Architecture,
    addresses: &Addresses,
    relocations: &[u8],
    symbols: S,
    index: usize,
    step: &Step,
    section: &mut [u8],
    memory: &mut [u64],
) -> Result<Option<Step>, SectionError>
    requires within { index < length relocations.now / 24 }
    requires room { length relocations.now / 24 ≤ length memory.old }
    requires following { step.now.index ≤ index }
    ensures len { length memory.new ≡ length memory.old }
    ensures step { (before : List ℕ) (end : ℕ)
        → AreWrittenBelow architecture addresses.now relocations.now (S.values symbols) before
        section.old memory.old index
        → IsFront architecture relocations.now before section.old index step.now end
        → IsSlowStep architecture addresses.now relocations.now (S.values symbols) before index
        section.new memory.new result }
{
    let last = last_field(architecture, relocations, index, step);
    if offset_at(relocations, index) < last.offset {
        return Ok(None);
    }
    match write_one(
        architecture,
        addresses,
        relocations,
        symbols,
        None,
        index,
        last,
        section,
        memory,
    ) {
        Ok(step) => Ok(Some(step)),
        Err(error) => Err(error),
    }
}

/// The same as `write_in_any_order`, of relocations whose fields ascend by offset. Returns how many
/// are written: fewer than there are, where the next one is before the last field.
#[inline(always)]
fn write_ascending<S: Symbols>(
    architecture: Architecture,
    addresses: &Addresses,
    relocations: &[u8],
    symbols: S,
    section: &mut [u8],
    memory: &mut [u64],
) -> Result<usize, Stopped>
    requires memory { length relocations.now / 24 ≤ length memory.old }
    ensures len { length memory.new ≡ length memory.old }
    ensures ok { IfOk result (IsFirstRun architecture addresses.now relocations.now
        (S.values symbols) section.old section.new memory.new) }
    ensures err { IfErr result (IsStopped architecture addresses.now relocations.now
        (S.values symbols) section.old section.new memory.new) }
{
    let mut step = FIRST_STEP;
    let mut end = 0;
    let mut high = None;
    let mut index = 0;
    let mut rest = relocations;
    while let Some((entry, following)) = rest.split_first_chunk::<RELA_LEN>() {
        let relocation = relocation_of(entry);
        if let Some((own_end, part)) = write_quickly(
            architecture,
            addresses,
            relocations,
            symbols,
            &relocation,
            high,
            index,
            end,
            section,
            memory,
        ) {
            end = own_end;
            high = part;
            index += 1;
            rest = following;
            continue;
        }
        match write_slowly(
            architecture,
            addresses,
            relocations,
            symbols,
            index,
            &step,
            section,
            memory,
        ) {
            Ok(Some(next)) => {
                step = next;
                index = step.index;
                end = step.last.offset + step.last.len as u64;
                rest = relocations_from(relocations, index);
            }
            Ok(None) => return Ok(index),
            Err(error) => return Err(Stopped {
                count: index,
                error,
            }),
        }
    }
    Ok(index)
}

/// The same of the relocations from an index on, where those before are written, and they are the
/// second of two runs by ascending offsets. None where all are written; and else below which index
/// the bytes are kept that were there before. By code for all architectures.
#[inline(never)]
pub(crate) fn write_second_run<S: Symbols>(
    architecture: Architecture,
    addresses: &Addresses,
    relocations: &[u8],
    symbols: S,
    start: usize,
    section: &mut [u8],
    memory: &mut [u64],
) -> Option<usize>
    requires memory { length relocations.now / 24 ≤ length memory.old }
    requires within { start ≤ length relocations.now / 24 }
    ensures len { length memory.new ≡ length memory.old }
    ensures written { (before : List ℕ)
        → AreWrittenBelow architecture addresses.now relocations.now (S.values symbols) before
        section.old memory.old start
        → AreWrittenOrKept architecture addresses.now relocations.now (S.values symbols) before
        section.new memory.new result }
{
    let len = relocations_len(relocations);
    let mut end = 0;
    let mut high = None;
    let mut index = start;
    while index < len {
        let relocation = relocation_in(relocations, index);
        let Some((own_end, part)) = write_quickly(
            architecture,
            addresses,
            relocations,
            symbols,
            &relocation,
            high,
            index,
            end,
            section,
            memory,
        ) else {
            return Some(index);
        };
        end = own_end;
        high = part;
        index += 1;
    }
    if are_runs_apart(architecture, relocations, start) {
        None
    } else {
        Some(index)
    }
}

/// `write_ascending` for an architecture that the compiler knows.
macro_rules! ascending_of {
    ($of:ident $module:ident $names:ident ($($given:ident),*)) => {
        write_ascending(Architecture::$of, $($given),*)
    };
}

/// The same as `write_ascending`, by code of the architecture's own.
pub(crate) fn write_ascending_of<S: Symbols>(
    architecture: Architecture,
    addresses: &Addresses,
    relocations: &[u8],
    symbols: S,
    section: &mut [u8],
    memory: &mut [u64],
) -> Result<usize, Stopped>
    requires memory { length relocations.now / 24 ≤ length memory.old }
    ensures len { length memory.new ≡ length memory.old }
    ensures ok { IfOk result (IsFirstRun architecture addresses.now relocations.now
        (S.values symbols) section.old section.new memory.new) }
    ensures err { IfErr result (IsStopped architecture addresses.now relocations.now
        (S.values symbols) section.old section.new memory.new) }
{
    by_architecture!(
        architecture,
        ascending_of(addresses, relocations, symbols, section, memory)
    )
}
