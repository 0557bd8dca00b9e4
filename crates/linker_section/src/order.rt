//! Relocations in any order: the first whose field overlaps that of an earlier one.

ghost use Rattle.std.specs.Prelude.{◌≡◌, ◌<◌, ◌≤◌, ◌+◌, ◌/◌, ℕ, List, IfSome, IfNone, Some};
ghost use Rattle.std.specs.Prelude.{true, false, length};
ghost use Rattle.linker_elf.specs.declared.elf.RowInfo.{RowInfo};
ghost use Rattle.linker_section.specs.Fields.{IsField, AreApart};
ghost use Rattle.linker_section.specs.Inner.Claims.{HasField};
ghost use Rattle.linker_section.specs.Inner.Order.{place_of, AreIndexes};
ghost use Rattle.linker_section.specs.Inner.Order.{IsOrder, IsOverlappedBelow, IsPast, AreSmall};
ghost use Rattle.linker_section.specs.Inner.Steps.{IsLimit};
ghost use Rattle.linker_section.specs.Sections.{BeginsPair};

use crate::fields::{Field, is_of_pair};
use crate::relocations::{Rela, offset_at, relocation_at, relocation_in, relocations_len};
use crate::sections::{field_at, second_of_pair};
use crate::values::has_value;
use linker_elf::elf::{Architecture, RelocationKind};

/// The least index of a relocation whose field overlaps that of an earlier one with which it
/// doesn't compose; as many as there are relocations if there is none. `order` is memory for its
/// work, with an element for each relocation.
pub(crate) fn first_overlap(
    architecture: Architecture,
    relocations: &[u8],
    section: &[u8],
    order: &mut [u64],
) -> usize
    requires { length order.old ≡ length relocations.now / 24 }
    ensures { IsLimit architecture relocations.now section.now (Some result) }
{
    sort_indexes(relocations, order);
    least_overlap(architecture, relocations, section, order)
}

/// A number by which the indexes of relocations are sorted: by offset, and then by themselves. By
/// itself, since a sort has many calls of it, and few sections are sorted.
#[inline(never)]
fn place_of(relocations: &[u8], index: u64) -> u128
    ensures { result ≡ place_of relocations.now index }
{
    match relocation_at(relocations, index as usize) {
        Some(relocation) => u128::from(relocation.offset) * (1 << 64) + u128::from(index),
        None => u128::from(index),
    }
}

/// Makes the indexes of relocations, sorted by their offsets and then by themselves.
fn sort_indexes(relocations: &[u8], order: &mut [u64])
    requires { length order.old ≡ length relocations.now / 24 }
    ensures { IsOrder relocations.now order.new }
{
    list_indexes(order);
    order.sort_unstable_by_key(|index| place_of(relocations, *index));
}

/// Makes the indexes below a slice's length.
fn list_indexes(order: &mut [u64])
    ensures len { length order.new ≡ length order.old }
    ensures indexes { AreIndexes order.new }
{
    for index in 0..order.len() {
        order[index] = index as u64;
    }
}

/// The same as `first_overlap`, by the sorted indexes: a search for how many relocations are apart.
fn least_overlap(
    architecture: Architecture,
    relocations: &[u8],
    section: &[u8],
    order: &[u64],
) -> usize
    requires { IsOrder relocations.now order.now }
    ensures { IsLimit architecture relocations.now section.now (Some result) }
{
    let len = relocations_len(relocations);
    if are_apart(architecture, relocations, section, order, len) {
        return len;
    }
    let mut low = 0;
    let mut high = len;
    while high - low > 1 {
        let middle = low + (high - low) / 2;
        if are_apart(architecture, relocations, section, order, middle) {
            low = middle;
        } else {
            high = middle;
        }
    }
    low
}

/// Whether of the relocations below an index those compose whose fields overlap, by the sorted
/// indexes: each field is compared with the last one before it.
fn are_apart(
    architecture: Architecture,
    relocations: &[u8],
    section: &[u8],
    order: &[u64],
    count: usize,
) -> bool
    requires order { IsOrder relocations.now order.now }
    requires within { count ≤ length relocations.now / 24 }
    ensures yes { result ≡ true → AreApart architecture relocations.now section.now count }
    ensures no { result ≡ false
        → IsOverlappedBelow architecture relocations.now section.now count }
{
    let mut last = Field {
        offset: 0,
        len: 0,
        kind: RelocationKind::None,
    };
    let mut last_index = 0;
    for place in 0..order.len() {
        let index = order[place] as usize;
        if index >= count {
            continue;
        }
        let Some(field) = field_in(architecture, relocations, section, index) else {
            continue;
        };
        if field.is_clear_of(&last) {
            last = field;
            last_index = index;
        } else if !is_second_of(architecture, relocations, last_index, index) {
            return false;
        }
    }
    true
}

/// The field of the relocation at an index, if it has one.
pub(crate) fn field_in(
    architecture: Architecture,
    relocations: &[u8],
    section: &[u8],
    index: usize,
) -> Option<Field>
    requires { index < length relocations.now / 24 }
    ensures found { IfSome result (λ field. (row : RowInfo)
        × HasField architecture relocations.now section.now index row field) }
    ensures none { IfNone result ((row : RowInfo)
        → ¬ IsField architecture relocations.now section.now index row) }
{
    let relocation = relocation_in(relocations, index);
    let Some(row) = architecture.row(relocation.r_type) else {
        return None;
    };
    if !has_value(row.kind()) {
        return None;
    }
    let field = field_at(&row, relocation.offset, section);
    if field.len == 0 { None } else { Some(field) }
}

/// Whether the relocation at an index is the second of a pair whose first is at another.
fn is_second_of(architecture: Architecture, relocations: &[u8], first: usize, index: usize) -> bool
    requires { first < length relocations.now / 24 }
    ensures yes { result ≡ true
        → (index ≡ first + 1) × BeginsPair architecture relocations.now first }
    ensures no { result ≡ false
        → index ≡ first + 1 → ¬ BeginsPair architecture relocations.now first }
{
    if index != first + 1 {
        return false;
    }
    let Some(row) = architecture.row(relocation_in(relocations, first).r_type) else {
        return false;
    };
    second_of_pair(architecture, relocations, first, &row).is_some()
}

/// Whether the field of a relocation begins where that of another ends or after it. The other has
/// at most ten bytes, and a ULEB128 number counts for as many.
#[inline(always)]
fn is_past(architecture: Architecture, last: &Rela, next: &Rela) -> bool
    ensures { result ≡ true → IsPast architecture last.now next.now }
{
    if next.offset < last.offset {
        return false;
    }
    let distance = next.offset - last.offset;
    if distance >= 10 {
        return true;
    }
    match architecture.row(last.r_type) {
        Some(row) => !is_of_pair(&row.info()) && row.window() as u64 <= distance,
        None => false,
    }
}

/// Whether the fields of relocations are apart that are two runs by ascending offsets, the second
/// from an index on: both are gone through by offset, each field beside the one before it.
#[inline(never)]
pub(crate) fn are_runs_apart(architecture: Architecture, relocations: &[u8], start: usize) -> bool
    requires { start ≤ length relocations.now / 24 }
    ensures { result ≡ true → (section : List ℕ) → AreSmall architecture relocations.now section
        → AreApart architecture relocations.now section (length relocations.now / 24) }
{
    let len = relocations_len(relocations);
    let mut last = Rela {
        offset: 0,
        r_type: 0,
        symbol: 0,
        addend: 0,
    };
    let mut first = 0;
    for second in start..len + 1 {
        let stop = if second < len {
            offset_at(relocations, second)
        } else {
            u64::MAX
        };
        while first < start && offset_at(relocations, first) <= stop {
            let next = relocation_in(relocations, first);
            if !is_past(architecture, &last, &next) {
                return false;
            }
            last = next;
            first += 1;
        }
        if second < len {
            let next = relocation_in(relocations, second);
            if !is_past(architecture, &last, &next) {
                return false;
            }
            last = next;
        }
    }
    first == start
}
