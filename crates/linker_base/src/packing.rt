//! What is packed by deltas that anyone owns: the positions of input offsets,
//! and the bytes that stay.

ghost use Rattle.std.specs.Prelude.{◌≡◌, ◌+◌, ◌-◌, ◌≤◌, ◌<◌, ◌^◌, ◌++◌, length, min, take, drop};
ghost use Rattle.linker_base.specs.Deletions.{rank};
ghost use Rattle.linker_base.specs.Deltas.{deletions_of};
ghost use Rattle.linker_base.specs.Listed.{AreValidDeltas};
ghost use Rattle.linker_base.specs.Inner.Packing.{AreBegun, IsPosition, IsFilled, IsFirstRun};

use crate::relaxation::{DeltaSlice, RelaxDelta, rank_past};

/// An input offset, and where it goes by some deltas.
#[derive(Clone, Copy)]
pub struct Position {
    /// The input offset.
    pub input_offset: u64,
    /// How many of the deltas begin below it.
    pub begun: usize,
    /// The output offset.
    pub output_offset: u64,
}

/// How many of the deltas begin below an offset. By itself: the search is compiled once.
#[inline(never)]
fn count_begun(deltas: &[RelaxDelta], offset: u64) -> usize
    ensures within { result ≤ length deltas.now }
    ensures begun { AreValidDeltas deltas.now → AreBegun deltas.now offset result }
{
    DeltaSlice::new(deltas).count_below(offset)
}

/// The position of an input offset that n of the deltas begin below.
#[inline(always)]
fn position_at(deltas: &[RelaxDelta], begun: usize, input_offset: u64) -> Position
    ensures offset { result.input_offset ≡ input_offset }
    ensures position { AreValidDeltas deltas.now → AreBegun deltas.now input_offset begun
        → IsPosition deltas.now result }
{
    Position {
        input_offset,
        begun,
        output_offset: rank_past(deltas, begun, input_offset),
    }
}

/// The position of an input offset, by a search.
///
/// The deltas are as `SectionRelaxDeltas::deltas` lists them. With others the call is safe, but
/// what it returns isn't specified.
pub fn position_of(deltas: &[RelaxDelta], input_offset: u64) -> Position
    ensures offset { result.input_offset ≡ input_offset }
    ensures position { AreValidDeltas deltas.now → IsPosition deltas.now result }
{
    position_at(deltas, count_begun(deltas, input_offset), input_offset)
}

/// The position of an input offset that isn't below that of another position, by a walk from there.
/// Over deltas as `position_of` requires them.
#[inline(always)]
pub fn position_from(deltas: &[RelaxDelta], from: &Position, input_offset: u64) -> Position
    ensures offset { result.input_offset ≡ input_offset }
    ensures position { AreValidDeltas deltas.now → IsPosition deltas.now from.now
        → from.now.input_offset ≤ input_offset → IsPosition deltas.now result }
{
    let mut begun = from.begun;
    while begun < deltas.len() && deltas[begun].input_offset < input_offset {
        begun += 1;
    }
    position_at(deltas, begun, input_offset)
}

/// The bytes of a section from an input offset up to another, as far as they lie in it.
#[inline(always)]
fn between(section: &[u8], base: u64, from: u64, to: u64) -> &[u8]
    requires { base + length section.now < 2 ^ 64 }
    ensures { result.now
        ≡ take (min (to - base) (length section.now) - min (from - base) (length section.now))
        (drop (min (from - base) (length section.now)) section.now) }
{
    let len = section.len() as u64;
    let start = (from.saturating_sub(base).min(len)) as usize;
    let end = (to.saturating_sub(base).min(len)) as usize;
    if start < end {
        &section[start..end]
    } else {
        &[]
    }
}

/// Puts bytes at an offset, as far as they fit there, and returns the offset after them.
#[inline(always)]
fn put(packed: &mut [u8], at: usize, bytes: &[u8]) -> usize
    requires { at ≤ length packed.old }
    ensures bytes { packed.new
        ≡ take at packed.old ++ take (length packed.old - at) bytes.now
        ++ drop (at + length bytes.now) packed.old }
    ensures end { result ≡ at + min (length bytes.now) (length packed.old - at) }
{
    let len = bytes.len().min(packed.len() - at);
    let end = at + len;
    packed[at..end].copy_from_slice(&bytes[..len]);
    end
}

/// The deltas that begin at the section's base or above, by the index of the first, and the offset
/// after what those before it delete, or the base.
fn first_run(deltas: &[RelaxDelta], base: u64) -> (usize, u64)
    ensures within { result.0 ≤ length deltas.now }
    ensures first { AreValidDeltas deltas.now
        → IsFirstRun (deletions_of deltas.now) base result.0 result.1 }
{
    let first = count_begun(deltas, base);
    if first == 0 {
        return (first, base);
    }
    let before = &deltas[first - 1];
    let end = before
        .input_offset
        .saturating_add(u64::from(before.bytes_deleted));
    (first, end.max(base))
}

/// Copies the bytes of a section that stay. The section begins at the input offset `base`.
pub fn copy_kept(section: &[u8], base: u64, deltas: &[RelaxDelta], packed: &mut [u8])
    requires { base + length section.now < 2 ^ 64 }
    ensures { AreValidDeltas deltas.now
        → length packed.old
        ≡ rank (deletions_of deltas.now) (base + length section.now)
        - rank (deletions_of deltas.now) base
        → IsFilled (deletions_of deltas.now) base section.now packed.new }
{
    let section_end = base + section.len() as u64;
    let (first, start) = first_run(deltas, base);
    let mut from = start;
    let mut at = 0;
    let following = count_begun(deltas, section_end);
    for index in first..following {
        let delta = &deltas[index];
        at = put(packed, at, between(section, base, from, delta.input_offset));
        from = delta
            .input_offset
            .saturating_add(u64::from(delta.bytes_deleted));
    }
    let _end = put(packed, at, between(section, base, from, section_end));
}
