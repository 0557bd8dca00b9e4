//! Relocations that no rewrite takes along, in the bytes that one writes or deletes.

ghost use Rattle.std.specs.Prelude.{◌≡◌, ◌<◌, ◌≤◌, ◌/◌, length, true, false};
ghost use Rattle.linker_elf.specs.declared.elf.RowInfo.{RowInfo};
ghost use Rattle.linker_rewriting.specs.Numbers.{AreMakeable, decisions_in};
ghost use Rattle.linker_rewriting.specs.Decisions.{IsFirstCovered, start_at, end_at};
ghost use Rattle.linker_rewriting.specs.Inner.Passed.{AreAllApart};
ghost use Rattle.linker_rewriting.specs.Inner.Places.{AreBelow, AreSearchable, IsPlace, IsThePlace};
ghost use Rattle.linker_rewriting.specs.Inner.Places.{in_windows};
ghost use Rattle.linker_section.specs.Fields.{IsField, field_end};

use crate::decisions::{Decision, DecisionNumbers, decision_in, span_of};
use crate::relocations::relocation_in;
use linker_section::relocations::relocations_len;
use linker_section::sections::field_len;
use linker_utils::elf::Architecture;

/// The most bytes of a field.
const LONGEST: u64 = 10;

/// A place among decisions of which some write or delete bytes.
#[derive(Clone, Copy)]
struct Place {
    /// The index of the first decision after it.
    at: usize,
    /// Where the bytes of those before it end, or after that.
    below: u64,
    /// Where the bytes of those after it begin, or before that.
    above: u64,
}

/// The bytes that the decisions of a section write and delete.
#[derive(Clone, Copy)]
struct Windows<'a> {
    relocations: &'a [u8],
    decisions: &'a [DecisionNumbers],
}

/// Where the bytes begin and end that the decision with an index writes or deletes.
#[inline(always)]
fn span_at(windows: &Windows<'_>, index: usize) -> (u64, u64)
    requires within { index < length windows.now.relocations.now / 24 }
    requires searchable { AreSearchable windows.now }
    ensures { result
        ≡ (in_windows start_at windows.now index, in_windows end_at windows.now index) }
{
    let decision = decision_in(windows.decisions, index);
    span_of(&decision, relocation_in(windows.relocations, index).offset)
}

/// An index that is no more than another, below which all bytes end at or below an offset.
fn place_before(windows: &Windows<'_>, offset: u64, from: usize) -> usize
    requires within { from ≤ length windows.now.relocations.now / 24 }
    requires searchable { AreSearchable windows.now }
    ensures within { result ≤ from }
    ensures below { in_windows AreBelow windows.now result offset }
{
    let mut at = from;
    while at > 0 {
        let (start, end) = span_at(windows, at - 1);
        if start < end && end <= offset {
            return at;
        }
        at -= 1;
    }
    0
}

/// The place, from an index on, before the first bytes that end after an offset, beside those of
/// the decision with another index. Those before it end at or below that offset, and `below`.
fn place_from(windows: &Windows<'_>, index: usize, offset: u64, from: usize, below: u64) -> Place
    requires within { from ≤ length windows.now.relocations.now / 24 }
    requires searchable { AreSearchable windows.now }
    requires below { in_windows AreBelow windows.now from below }
    requires low { below ≤ offset }
    ensures { IsThePlace windows.now index offset result }
{
    let len = relocations_len(windows.relocations);
    let mut below = below;
    for at in from..len {
        if let Decision::Kept = decision_in(windows.decisions, at) {
            continue;
        }
        let (start, end) = span_at(windows, at);
        if end <= start {
            continue;
        }
        if at == index {
            below = end;
            continue;
        }
        if offset < end {
            return Place {
                at,
                below,
                above: start,
            };
        }
        below = end;
    }
    Place {
        at: len,
        below,
        above: u64::MAX,
    }
}

/// The same, from any place on. What is before it is passed again only where it ends after the
/// offset.
#[inline(always)]
fn place_beside(windows: &Windows<'_>, index: usize, offset: u64, place: Place) -> Place
    requires searchable { AreSearchable windows.now }
    requires place { in_windows IsPlace windows.now (length windows.now.relocations.now / 24)
        place }
    ensures { IsThePlace windows.now index offset result }
{
    if place.below <= offset {
        return place_from(windows, index, offset, place.at, place.below);
    }
    let from = place_before(windows, offset, place.at);
    place_from(windows, index, offset, from, offset)
}

/// Whether the field of the relocation at an index ends after a start.
#[inline(always)]
fn reaches(
    architecture: Architecture,
    relocations: &[u8],
    section: &[u8],
    index: usize,
    start: u64,
) -> bool
    requires { index < length relocations.now / 24 }
    ensures no { result ≡ false → (row : RowInfo)
        → IsField architecture relocations.now section.now index row
        → field_end relocations.now section.now index row ≤ start }
    ensures yes { result ≡ true → (row : RowInfo)
        × IsField architecture relocations.now section.now index row
        × (start < field_end relocations.now section.now index row) }
{
    let distance = start.saturating_sub(relocation_in(relocations, index).offset);
    if distance >= LONGEST {
        return false;
    }
    distance < field_len(architecture, relocations, section, index) as u64
}

/// The first relocation that no rewrite takes along and whose field has a byte that the decision of
/// another one writes or deletes. The bytes of decisions ascend, and where relocations do too each
/// decision is passed once. Else those are passed again that are between the place of a relocation
/// and the place of the one before it.
pub(crate) fn first_covered(
    architecture: Architecture,
    relocations: &[u8],
    section: &[u8],
    decisions: &[DecisionNumbers],
) -> Option<usize>
    requires enough { length relocations.now / 24 ≤ length decisions.now }
    requires made { AreMakeable relocations.now section.now decisions.now }
    requires apart { AreAllApart relocations.now decisions.now }
    ensures { IsFirstCovered architecture relocations.now section.now
        (decisions_in decisions.now) (length relocations.now / 24) result }
{
    let windows = Windows {
        relocations,
        decisions,
    };
    let count = relocations_len(relocations);
    let first = place_from(&windows, count, 0, 0, 0);
    if first.at == count {
        return None;
    }
    let mut place = first;
    for index in 0..count {
        let offset = relocation_in(relocations, index).offset;
        if place.below <= offset
            && index != place.at
            && !reaches(architecture, relocations, section, index, place.above)
        {
            continue;
        }
        if let Decision::Consumed = decision_in(decisions, index) {
            continue;
        }
        place = place_beside(&windows, index, offset, place);
        if place.at == count {
            continue;
        }
        let is_covered = reaches(architecture, relocations, section, index, place.above);
        if is_covered {
            return Some(index);
        }
    }
    None
}
