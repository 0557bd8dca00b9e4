//! Deletions that relaxation makes in a section, and the offsets of what they leave.

ghost use Rattle.std.specs.Prelude.{◌≡◌, ◌↔◌, ◌+◌, ◌<◌, ◌^◌, ◌++◌, IsTrue, IsOk, IfOk, OnOk, OnErr};
ghost use Rattle.std.specs.Prelude.{IfSome, IfNone, MatchOption, All, Any, []};
ghost use Rattle.linker_base.specs.Deletions.{AreDisjoint, IsValid, IsSortedUnion, bytes_of, rank};
ghost use Rattle.linker_base.specs.Deletions.{AreKept, IsInsideDeletion, IsSelected, HasInput};
ghost use Rattle.linker_base.specs.Blocks.{IsValidView};
ghost use Rattle.linker_base.specs.Deltas.{RecordsDeletions, deletions_of, pairs_of};

use std::alloc::{AllocError, AllocFailed, Global};
use std::marker::Model;

mod blocks;
mod cursor;
mod delta_slice;
pub mod laws;
mod map;
mod merge;
mod overlap;
mod search;
mod walk;

use blocks::{count_heads, fill_heads};
pub use blocks::{
    BLOCK_LEN, BlockHead, Counted, Looks, input_to_output_counted, output_to_input_counted,
};
pub use cursor::RelaxCursor;
pub use delta_slice::DeltaSlice;
pub(crate) use delta_slice::rank_past;
pub use map::RelaxDeltaMap;
use merge::{all_pairs, append, copy_deletions, count_pairs, insert_ascending, sorted};
use overlap::{are_valid, can_batches_be_merged, can_be_merged};
pub use overlap::{AsDeletion, first_invalid};

/// What a linker does with the relocation that follows a rewritten one.
#[derive(Debug, Clone, Copy, PartialEq, Eq)]
pub enum RelocationModifier {
    /// It is applied as usual.
    Normal,
    /// It is skipped: the rewrite did its work too.
    SkipNextRelocation,
}

/// Out of memory. The call that returns it has changed nothing.
#[derive(Debug, Clone, Copy, PartialEq, Eq)]
pub struct OutOfMemory;

impl From<AllocError> for OutOfMemory {
    fn from(_error: AllocError) -> OutOfMemory {
        OutOfMemory
    }
}

impl<T: Drop> From<AllocFailed<T>> for OutOfMemory {
    fn from(_error: AllocFailed<T>) -> OutOfMemory {
        OutOfMemory
    }
}

/// One deletion in an input section, with the sum of the deletions up to it.
#[repr(C)]
#[derive(Debug, Clone, Copy, PartialEq, Eq)]
pub struct RelaxDelta {
    /// The offset in the input section of the first deleted byte.
    pub input_offset: u64,
    /// The bytes that this deletion and all at lower offsets delete.
    pub cumulative_deleted: u64,
    /// How many bytes are deleted here. A deletion of no bytes is listed all the same.
    pub bytes_deleted: u32,
}

/// The deletions in one input section, by ascending offset.
///
/// Two deletions have different offsets, none reaches past the offset of the next, and each ends
/// at `u64::MAX` or below. Contracts see the list of their offsets and bytes.
#[derive(Debug, Drop)]
pub struct SectionRelaxDeltas {
    deltas: Vec<RelaxDelta>,
    // None of a single block: a short list allocates once.
    heads: Vec<BlockHead>,
}

impl Model for SectionRelaxDeltas {
    ghost use Rattle.std.specs.Prelude.{ℕ, List, map};
    ghost use Rattle.linker_base.specs.Deltas.{deletion_of};
    ghost use Rattle.linker_base.specs.Inner.Listed.{IsSound};

    ghost Value = { List (ℕ × ℕ) };

    ghost view = { λ section. map deletion_of section.deltas.items };

    ghost invariant = { λ section. IsSound section.deltas.items section.heads.items };
}

impl SectionRelaxDeltas {
    /// The deletions that `raw` lists, each as an offset and a count of bytes.
    ///
    /// It allocates once, twice for more than `BLOCK_LEN` deletions, of whose blocks it keeps the
    /// heads, and not at all where `raw` is empty. `is_valid` tests what it requires.
    pub fn new(alloc: Global, raw: &[(u64, u32)]) -> Result<Self, OutOfMemory>
        requires { IsValid raw.now }
        ensures ok { IfOk result (λ section. section ≡ raw.now) }
        ensures empty_succeeds { raw.now ≡ [] → IsOk result }
    {
        let mut deltas = Vec::with_capacity(alloc, raw.len())?;
        let mut heads = Vec::with_capacity(alloc, count_heads(raw.len()))?;
        append(&mut deltas, raw);
        fill_heads(&deltas, &mut heads);
        Ok(SectionRelaxDeltas { deltas, heads })
    }

    /// Whether `raw` may be given to `new`: its offsets strictly ascend, no pair reaches past the
    /// offset of the next, and each ends at `u64::MAX` or below.
    pub fn is_valid(raw: &[(u64, u32)]) -> bool
        ensures { IsTrue result ↔ IsValid raw.now }
    {
        are_valid(raw)
    }

    /// Adds deletions, each an offset and a count of bytes, in any order.
    ///
    /// What is listed is then as `new` makes it of the old and the additional pairs, sorted. Before
    /// anything changes the list grows, and the heads of its blocks, and pairs that don't ascend
    /// are copied, to be sorted: memory is allocated at most once for each, and not at all where
    /// `additional` is empty. But for that growth, which is O(1) for each pair of many merges, the
    /// work is O(k + m) for k pairs and the m deltas after the first of them, and O(k log k) more
    /// where the pairs don't ascend. `is_mergeable` tests what it requires.
    pub fn merge_additional(&mut self, additional: &[(u64, u32)]) -> Result<(), OutOfMemory>
        requires { AreDisjoint (self.old ++ additional.now) }
        ensures ok { OnOk result (IsSortedUnion (self.old ++ additional.now) self.new) }
        ensures err { OnErr result (self.new ≡ self.old) }
        ensures empty_succeeds { additional.now ≡ [] → IsOk result }
        ensures empty_stays { additional.now ≡ [] → self.new ≡ self.old }
    {
        let deltas = &mut self.deltas;
        let heads = &mut self.heads;
        if additional.is_empty() {
            return Ok(());
        }
        if are_valid(additional) {
            return insert_ascending(deltas, heads, additional);
        }
        deltas.reserve(additional.len())?;
        let pairs = sorted(copy_deletions(*deltas.allocator(), additional)?);
        insert_ascending(deltas, heads, &pairs)
    }

    /// Whether the pairs may be merged: their ends are at most `u64::MAX`, and of any two
    /// deletions, old or additional, one has the lower offset and does not reach past the other's.
    ///
    /// It doesn't allocate. For k pairs and n deltas the work is O(k log n + k) where the pairs
    /// ascend or descend, as a pass over a section makes them, and else O(k log n + p k log k) for
    /// p parts of the pairs: runs of 1,024 or more that ascend, and where no such run begins 1,024
    /// pairs, which are sorted on the stack, in 16 KB.
    pub fn is_mergeable(&self, additional: &[(u64, u32)]) -> bool
        ensures { IsTrue result ↔ AreDisjoint (self.now ++ additional.now) }
    {
        can_be_merged(&self.deltas, additional)
    }

    /// Adds the deletions of all batches, or of none where it runs out of memory.
    ///
    /// What is listed is then as `new` makes it of the old and all additional pairs, sorted. Before
    /// anything changes the list grows, and the heads of its blocks, and all pairs are copied:
    /// memory is allocated at most once for each, and not at all where no batch has a pair. But for
    /// that growth the work is O(k + m) for k pairs in all batches and the m deltas after the first
    /// of them, and O(k log k) more where the pairs don't ascend, from each batch to the next too.
    /// `are_mergeable` tests what it requires.
    pub fn merge_all(&mut self, batches: &[Vec<(u64, u32)>]) -> Result<(), OutOfMemory>
        requires { AreDisjoint (self.old ++ pairs_of batches.now) }
        ensures ok { OnOk result (IsSortedUnion (self.old ++ pairs_of batches.now) self.new) }
        ensures err { OnErr result (self.new ≡ self.old) }
        ensures empty_succeeds { pairs_of batches.now ≡ [] → IsOk result }
    {
        let deltas = &mut self.deltas;
        let heads = &mut self.heads;
        let count = count_pairs(batches);
        if count == 0 {
            return Ok(());
        }
        deltas.reserve(count)?;
        let pairs = sorted(all_pairs(*deltas.allocator(), batches)?);
        insert_ascending(deltas, heads, &pairs)
    }

    /// Whether all batches together may be merged, as `is_mergeable` says of their pairs.
    ///
    /// It doesn't allocate. For k pairs in all batches and n deltas the work is O(k log n + k)
    /// where the pairs ascend, from each batch to the next too, and else O(k log n + p k log k) for
    /// p parts, which `is_mergeable` describes, of the batches: at least one of each batch.
    pub fn are_mergeable(&self, batches: &[Vec<(u64, u32)>]) -> bool
        ensures { IsTrue result ↔ AreDisjoint (self.now ++ pairs_of batches.now) }
    {
        can_batches_be_merged(&self.deltas, batches)
    }

    /// A copy. It allocates as `new` does.
    pub fn clone(&self) -> Result<Self, OutOfMemory>
        ensures ok { IfOk result (λ section. section ≡ self.now) }
        ensures empty_succeeds { self.now ≡ [] → IsOk result }
    {
        let mut deltas = Vec::with_capacity(*self.deltas.allocator(), self.deltas.len())?;
        let mut heads = Vec::with_capacity(*self.heads.allocator(), self.heads.len())?;
        deltas.extend_from_slice(&self.deltas)?;
        heads.extend_from_slice(&self.heads)?;
        Ok(SectionRelaxDeltas { deltas, heads })
    }

    /// The deletions by ascending offset, each with the sum of the bytes up to it.
    pub fn deltas(&self) -> &[RelaxDelta]
        ensures valid { IsValid self.now }
        ensures listing { RecordsDeletions self.now result.now }
    {
        &self.deltas[..]
    }

    /// The deltas, and the heads of their blocks where these are kept, as a slice that translates
    /// offsets too.
    #[inline(always)]
    pub fn as_delta_slice(&self) -> DeltaSlice<'_>
        ensures valid { IsValidView result }
        ensures same { deletions_of result.deltas ≡ self.now }
    {
        DeltaSlice::over(&self.deltas, &self.heads)
    }

    /// Whether a deletion is listed at the offset, be it one of no bytes.
    pub fn has_delta_at(&self, offset: u64) -> bool
        ensures { IsTrue result ↔ Any (λ d. d.0 ≡ offset) self.now }
    {
        self.as_delta_slice().has_delta_at(offset)
    }

    /// The bytes that are deleted at the offset: 0 where no deletion is listed there.
    pub fn delta_bytes_at(&self, offset: u64) -> u32
        ensures listed { All (λ d. d.0 ≡ offset → result ≡ d.1) self.now }
        ensures none { ¬ (Any (λ d. d.0 ≡ offset) self.now) → result ≡ 0 }
    {
        self.as_delta_slice().delta_bytes_at(offset)
    }

    /// Whether nothing is listed. A deletion of no bytes counts as listed.
    pub fn is_empty(&self) -> bool
        ensures { IsTrue result ↔ (self.now ≡ []) }
    {
        self.deltas.is_empty()
    }

    /// The bytes that all deletions take together.
    pub fn total_deleted(&self) -> u64
        ensures { result ≡ bytes_of self.now }
    {
        self.as_delta_slice().total_deleted()
    }

    /// How many kept bytes lie below `input_offset`, which is the offset in the output section of
    /// what is there. For an offset inside a deletion it is that of what follows the deletion.
    /// The search takes O(log n).
    #[inline(never)]
    pub fn input_to_output_offset(&self, input_offset: u64) -> u64
        ensures { result ≡ rank self.now input_offset }
    {
        input_to_output_counted(&mut self.counted(), input_offset)
    }

    /// Whether the offset lies above the first byte of a deletion and below its end.
    pub fn is_inside(&self, input_offset: u64) -> bool
        ensures { IsTrue result ↔ IsInsideDeletion self.now input_offset }
    {
        self.as_delta_slice().is_inside(input_offset)
    }

    /// The output offset of the `len` bytes from `input_offset` on, or none where one of them is
    /// deleted. Two searches, O(log n).
    pub fn kept_output_offset(&self, input_offset: u64, len: u64) -> Option<u64>
        requires { input_offset + len < 2 ^ 64 }
        ensures { MatchOption result (¬ (AreKept self.now input_offset len))
            (λ output. AreKept self.now input_offset len × (output ≡ rank self.now input_offset)) }
    {
        self.as_delta_slice().kept_output_offset(input_offset, len)
    }

    /// The offset in the input section of the kept byte at `output_offset`: that offset and the
    /// bytes of all deletions whose output offset is at most that.
    ///
    /// Requires an offset that `output_fits` accepts. The search takes O(log n).
    #[inline(never)]
    pub fn output_to_input_offset(&self, output_offset: u64) -> u64
        requires { HasInput self.now output_offset }
        ensures { IsSelected self.now output_offset result }
    {
        output_to_input_counted(&mut self.counted(), output_offset)
    }

    /// Whether the input offset of the kept byte at `output_offset` is at most `u64::MAX`.
    pub fn output_fits(&self, output_offset: u64) -> bool
        ensures { IsTrue result ↔ HasInput self.now output_offset }
    {
        self.as_delta_slice().bytes_before(output_offset) <= u64::MAX - output_offset
    }

    /// The deltas, with a count of the looks at them, 0 so far.
    #[inline(always)]
    pub fn counted(&self) -> Counted<'_>
        ensures deletions { deletions_of result.listed ≡ self.now }
        ensures count { result.looked ≡ 0 }
    {
        Counted::new(&self.deltas, &self.heads)
    }

    /// A cursor before the first deletion.
    pub fn cursor(&self) -> RelaxCursor<'_>
        ensures { result ≡ record { deletions = self.now; passed = 0 } }
    {
        RelaxCursor::new(&self.deltas)
    }
}

/// `input_to_output_offset` of the deltas, or `input_offset` itself where there are none.
#[inline]
pub fn opt_input_to_output(deltas: Option<&SectionRelaxDeltas>, input_offset: u64) -> u64
    ensures some { IfSome deltas.entry (λ section. result ≡ rank section.now input_offset) }
    ensures none { IfNone deltas.entry (result ≡ input_offset) }
{
    match deltas {
        Some(section) => section.input_to_output_offset(input_offset),
        None => input_offset,
    }
}
