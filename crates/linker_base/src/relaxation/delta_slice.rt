//! Deltas that anyone owns, and the heads of their blocks.

ghost use Rattle.std.specs.Prelude.{◌≡◌, ◌≢◌, ◌<◌, ◌≤◌, ◌+◌, ◌-◌, ◌*◌, ◌%◌, ◌^◌, ◌++◌, ◌↔◌, IsTrue};
ghost use Rattle.std.specs.Prelude.{MatchOption, Any, All, [], map, length, take, max};
ghost use Rattle.std.specs.List.Sorted.{IsNonDecreasing, IsPartitionPoint};
ghost use Rattle.linker_base.specs.Deletions.{AreDisjoint, AreKept, IsValid, IsSortedUnion};
ghost use Rattle.linker_base.specs.Deletions.{bytes_of, rank, IsInsideDeletion, IsSelected};
ghost use Rattle.linker_base.specs.Deletions.{HasInput};
ghost use Rattle.linker_base.specs.Blocks.{blocks_of, AreHeads, IsValidView};
ghost use Rattle.linker_base.specs.Deltas.{deletions_of, RecordsDeletions};
ghost use Rattle.linker_base.specs.Listed.{AreValidDeltas, AreValidTogether, IsFirstOverlapping};
ghost use Rattle.linker_base.specs.Inner.Search.{view_subject};
ghost use Rattle.linker_base.specs.Inner.Listed.{IsOnlyAt};

use super::RelaxDelta;
use super::blocks::{BLOCK_LEN, BlockHead, count_blocks, write_heads};
use super::overlap::{self, AsDeletion, are_valid, lower, next_of};
use super::search::{Level, Probe, Test, count_passing};
use super::walk::Reached;
use std::alloc::Global;
use std::marker::Model;

/// A borrowed list of deltas, of any contents, and the heads of their blocks, or none.
///
/// Each call is safe for any deltas and heads. What it returns is specified where the deltas are
/// valid: they list deletions as `SectionRelaxDeltas::new` requires them, each with the sum of the
/// bytes up to it. Searches also need the heads to be those that `write_heads` writes, if there
/// are any. Contracts see the lists of deltas and heads.
#[derive(Drop)]
pub struct DeltaSlice<'a> {
    deltas: &'a [RelaxDelta],
    heads: &'a [BlockHead],
}

impl<'a> Model for DeltaSlice<'a> {
    ghost use Rattle.std.specs.Prelude.{◌≡◌, ◌<◌, length};
    ghost use Rattle.linker_base.specs.Blocks.{View, blocks_of};

    ghost Value = { View };

    ghost view = { λ slice. record { deltas = slice.deltas.now; heads = slice.heads.now } };

    ghost invariant = { λ slice. 0 < length slice.heads.now
        → length slice.heads.now ≡ blocks_of (length slice.deltas.now) };
}

impl<'a> Probe for DeltaSlice<'a> {
    ghost state = { λ slice. record { subject = view_subject slice; probes = 0 } };

    #[inline(always)]
    fn len(&self) -> usize {
        self.deltas.len()
    }

    #[inline(always)]
    fn read(&mut self, level: Level, at: usize) -> BlockHead {
        match level {
            Level::Deltas => BlockHead::of(&self.deltas[at]),
            Level::Heads => match self.heads.get(at) {
                Some(head) => *head,
                None => BlockHead::of(&self.deltas[BLOCK_LEN * at]),
            },
        }
    }
}

impl<'a> DeltaSlice<'a> {
    /// The deltas as a slice that translates offsets.
    #[inline(always)]
    pub fn new(deltas: &'a [RelaxDelta]) -> DeltaSlice<'a>
        ensures same { result ≡ record { deltas = deltas.now; heads = [] } }
        ensures valid { AreValidDeltas deltas.now → IsValidView result }
    {
        DeltaSlice { deltas, heads: &[] }
    }

    // Requires as many heads as blocks, or none.
    #[inline(always)]
    pub(super) fn over(deltas: &'a [RelaxDelta], heads: &'a [BlockHead]) -> DeltaSlice<'a>
        requires { 0 < length heads.now → length heads.now ≡ blocks_of (length deltas.now) }
        ensures { result ≡ record { deltas = deltas.now; heads = heads.now } }
    {
        DeltaSlice { deltas, heads }
    }

    // The same lists.
    #[inline(always)]
    fn copy(&self) -> DeltaSlice<'a>
        ensures { result ≡ self.now }
    {
        DeltaSlice {
            deltas: self.deltas,
            heads: self.heads,
        }
    }

    /// The deltas.
    #[inline(always)]
    pub fn deltas(&self) -> &'a [RelaxDelta]
        ensures { result.now ≡ self.now.deltas }
    {
        self.deltas
    }

    /// Whether the deltas are valid: they list deletions as `SectionRelaxDeltas::new` requires
    /// them, each with the sum of the bytes up to it. O(n).
    pub fn has_valid_deltas(&self) -> bool
        ensures { IsTrue result ↔ AreValidDeltas self.now.deltas }
    {
        are_valid(self.deltas) && have_sums(self.deltas)
    }

    /// How many blocks of `BLOCK_LEN` deltas there are; the last may be shorter.
    #[inline]
    pub fn block_count(&self) -> usize
        ensures { result ≡ blocks_of (length self.now.deltas) }
    {
        count_blocks(self.deltas.len())
    }

    /// Writes the head of each block, in order. Requires as many heads as blocks.
    pub fn write_heads(&self, heads: &mut [BlockHead])
        requires { length heads.old ≡ blocks_of (length self.now.deltas) }
        ensures { AreHeads self.now.deltas heads.new }
    {
        write_heads(self.deltas, heads);
    }

    /// The deltas with these heads of their blocks, or none where they aren't as many as blocks.
    #[inline(always)]
    pub fn with_heads(&self, heads: &'a [BlockHead]) -> Option<DeltaSlice<'a>>
        ensures { MatchOption result (length heads.now ≢ blocks_of (length self.now.deltas))
            (λ slice. (length heads.now ≡ blocks_of (length self.now.deltas))
            × (slice ≡ record { deltas = self.now.deltas; heads = heads.now })) }
    {
        if heads.len() != self.block_count() {
            return None;
        }
        Some(DeltaSlice::over(self.deltas(), heads))
    }

    /// How many deltas there are.
    #[inline]
    pub fn len(&self) -> usize
        ensures { result ≡ length self.now.deltas }
    {
        self.deltas.len()
    }

    /// Whether nothing is listed. A deletion of no bytes counts as listed.
    #[inline]
    pub fn is_empty(&self) -> bool
        ensures { IsTrue result ↔ (self.now.deltas ≡ []) }
    {
        self.deltas.is_empty()
    }

    /// The bytes that all deletions take together.
    #[inline]
    pub fn total_deleted(&self) -> u64
        ensures { AreValidDeltas self.now.deltas
            → result ≡ bytes_of (deletions_of self.now.deltas) }
    {
        bytes_of_first(self.deltas(), self.len())
    }

    // How many deltas lie at offsets strictly below `offset`.
    #[inline(always)]
    pub(crate) fn count_below(&self, offset: u64) -> usize
        ensures within { result ≤ length self.now.deltas }
        ensures below { IsValid (deletions_of self.now.deltas)
            → (0 < length self.now.heads → AreHeads self.now.deltas self.now.heads)
            → IsPartitionPoint (λ d. d.0 < offset) (λ d. offset ≤ d.0)
            (deletions_of self.now.deltas) result }
    {
        count_passing(&mut self.copy(), Test::BeginsBelow(offset))
    }

    // The delta at the offset, if one is listed there. By itself: its search is compiled once.
    #[inline(never)]
    fn delta_at(&self, offset: u64) -> Option<RelaxDelta>
        ensures { IsValidView self.now
            → MatchOption result (¬ (Any (λ d. d.0 ≡ offset) (deletions_of self.now.deltas)))
            (λ delta. IsOnlyAt (deletions_of self.now.deltas) offset delta.bytes_deleted) }
    {
        let below = self.count_below(offset);
        let deltas = self.deltas();
        if below < deltas.len() && deltas[below].input_offset == offset {
            Some(deltas[below])
        } else {
            None
        }
    }

    /// Whether a deletion is listed at the offset, be it one of no bytes. O(log n).
    #[inline]
    pub fn has_delta_at(&self, offset: u64) -> bool
        ensures { IsValidView self.now
            → (IsTrue result ↔ Any (λ d. d.0 ≡ offset) (deletions_of self.now.deltas)) }
    {
        self.delta_at(offset).is_some()
    }

    /// The bytes that are deleted at the offset: 0 where no deletion is listed there. O(log n).
    #[inline]
    pub fn delta_bytes_at(&self, offset: u64) -> u32
        ensures listed { IsValidView self.now
            → All (λ d. d.0 ≡ offset → result ≡ d.1) (deletions_of self.now.deltas) }
        ensures none { IsValidView self.now
            → ¬ (Any (λ d. d.0 ≡ offset) (deletions_of self.now.deltas)) → result ≡ 0 }
    {
        match self.delta_at(offset) {
            Some(delta) => delta.bytes_deleted,
            None => 0,
        }
    }

    /// How many kept bytes lie below `input_offset`, which is the offset in the output section of
    /// what is there. For an offset inside a deletion it is that of what follows the deletion.
    /// O(log n).
    #[inline(always)]
    pub fn input_to_output_offset(&self, input_offset: u64) -> u64
        ensures { IsValidView self.now → result ≡ rank (deletions_of self.now.deltas) input_offset }
    {
        rank_past(self.deltas(), self.count_below(input_offset), input_offset)
    }

    /// The output offset of the `len` bytes from `input_offset` on, or none where one of them is
    /// deleted. Two searches, O(log n).
    pub fn kept_output_offset(&self, input_offset: u64, len: u64) -> Option<u64>
        requires { input_offset + len < 2 ^ 64 }
        ensures { IsValidView self.now
            → MatchOption result (¬ (AreKept (deletions_of self.now.deltas) input_offset len))
            (λ output. AreKept (deletions_of self.now.deltas) input_offset len
            × (output ≡ rank (deletions_of self.now.deltas) input_offset)) }
    {
        let first = self.input_to_output_offset(input_offset);
        let past = self.input_to_output_offset(input_offset + len);
        if past.wrapping_sub(first) == len {
            Some(first)
        } else {
            None
        }
    }

    /// Whether the offset lies above the first byte of a deletion and below its end. O(log n).
    pub fn is_inside(&self, input_offset: u64) -> bool
        ensures { IsValidView self.now
            → (IsTrue result ↔ IsInsideDeletion (deletions_of self.now.deltas) input_offset) }
    {
        match self.count_below(input_offset).checked_sub(1) {
            Some(last) => {
                let delta = self.deltas()[last];
                input_offset.wrapping_sub(delta.input_offset) < u64::from(delta.bytes_deleted)
            }
            None => false,
        }
    }

    // The bytes that are deleted before the kept byte at an output offset.
    #[inline(always)]
    pub(super) fn bytes_before(&self, output_offset: u64) -> u64
        ensures selected { IsValidView self.now
            → IsSelected (deletions_of self.now.deltas) output_offset (output_offset + result) }
        ensures fits { IsValidView self.now
            → (HasInput (deletions_of self.now.deltas) output_offset
            ↔ (output_offset + result < 2 ^ 64)) }
    {
        let placed = count_passing(&mut self.copy(), Test::IsPlacedUpTo(output_offset));
        bytes_of_first(self.deltas(), placed)
    }

    /// The offset in the input section of the kept byte at `output_offset`, or none where that is
    /// above `u64::MAX`. O(log n).
    #[inline(always)]
    pub fn output_to_input_offset(&self, output_offset: u64) -> Option<u64>
        ensures { IsValidView self.now
            → MatchOption result (¬ (HasInput (deletions_of self.now.deltas) output_offset))
            (IsSelected (deletions_of self.now.deltas) output_offset) }
    {
        output_offset.checked_add(self.bytes_before(output_offset))
    }

    /// As `input_to_output_offset`, with these heads of the blocks. It ignores them where they
    /// aren't as many as blocks. O(log n).
    #[inline(always)]
    pub fn input_to_output_by_heads(&self, heads: &'a [BlockHead], input_offset: u64) -> u64
        ensures by_heads { IsValidView self.now → AreHeads self.now.deltas heads.now
            → result ≡ rank (deletions_of self.now.deltas) input_offset }
        ensures other_count { IsValidView self.now
            → length heads.now ≢ blocks_of (length self.now.deltas)
            → result ≡ rank (deletions_of self.now.deltas) input_offset }
    {
        match self.with_heads(heads) {
            Some(slice) => slice.input_to_output_offset(input_offset),
            None => self.input_to_output_offset(input_offset),
        }
    }

    /// As `output_to_input_offset`, with these heads of the blocks. It ignores them where they
    /// aren't as many as blocks. O(log n).
    #[inline(always)]
    pub fn output_to_input_by_heads(
        &self,
        heads: &'a [BlockHead],
        output_offset: u64,
    ) -> Option<u64>
        ensures by_heads { IsValidView self.now → AreHeads self.now.deltas heads.now
            → MatchOption result (¬ (HasInput (deletions_of self.now.deltas) output_offset))
            (IsSelected (deletions_of self.now.deltas) output_offset) }
        ensures other_count { IsValidView self.now
            → length heads.now ≢ blocks_of (length self.now.deltas)
            → MatchOption result (¬ (HasInput (deletions_of self.now.deltas) output_offset))
            (IsSelected (deletions_of self.now.deltas) output_offset) }
    {
        match self.with_heads(heads) {
            Some(slice) => slice.output_to_input_offset(output_offset),
            None => self.output_to_input_offset(output_offset),
        }
    }

    /// Writes the output offset of each of the queries, in order, in one walk through the deltas:
    /// O(n + q). What is written is specified where `can_translate_all` accepts the queries.
    #[inline]
    pub fn translate_all(&self, queries: &[u64], out: &mut [u64])
        requires { length queries.now ≡ length out.old }
        ensures { AreValidDeltas self.now.deltas → IsNonDecreasing queries.now
            → out.new ≡ map (rank (deletions_of self.now.deltas)) queries.now }
    {
        Reached::new(self.deltas()).walk(queries, out);
    }

    /// Whether the queries don't decrease.
    #[inline]
    pub fn can_translate_all(queries: &[u64]) -> bool
        ensures { IsTrue result ↔ IsNonDecreasing queries.now }
    {
        queries.is_sorted()
    }

    /// Whether the additional deletions, in any order, may be merged: each ends at `u64::MAX` or
    /// below, and of any two deletions, of the list or additional, one has the lower offset and
    /// does not reach past the other's.
    ///
    /// It doesn't allocate. For k deletions and n deltas the work is O(k log n + k) where the
    /// deletions ascend or descend, as a pass over a section makes them, and else O(k log n + p k
    /// log k) for p parts of them: runs of 1,024 or more that ascend, and where no such run begins
    /// 1,024 deletions, which are sorted on the stack, in 16 KB.
    pub fn can_merge<D: AsDeletion>(&self, additional: &[D]) -> bool
        ensures { IsValid (deletions_of self.now.deltas)
            → (IsTrue result
            ↔ AreDisjoint (deletions_of self.now.deltas ++ map D.deletion additional.now)) }
    {
        overlap::can_be_merged(self.deltas(), additional)
    }

    /// As `can_merge`, in O(k log k + k log n) where there is memory for a copy of the deletions,
    /// which is sorted. Those that ascend or descend, and 1,024 or fewer, aren't copied.
    pub fn can_merge_sorted<D: AsDeletion>(&self, alloc: Global, additional: &[D]) -> bool
        ensures { IsValid (deletions_of self.now.deltas)
            → (IsTrue result
            ↔ AreDisjoint (deletions_of self.now.deltas ++ map D.deletion additional.now)) }
    {
        overlap::can_be_merged_sorted(alloc, self.deltas(), additional)
    }

    /// The index of the first of the additional deletions, in any order, that can't be merged: it
    /// ends above `u64::MAX`, or overlaps a deletion of the list or an earlier additional one. None
    /// where all can be merged.
    ///
    /// Copies of the first deletions are sorted, where there is memory for them: O(k log k + k log
    /// n) where all can be merged, and else log k times as much. Deletions that ascend or descend,
    /// and 1,024 or fewer, aren't copied.
    pub fn first_overlapping_sorted<D: AsDeletion>(
        &self,
        alloc: Global,
        additional: &[D],
    ) -> Option<usize>
        ensures { IsValid (deletions_of self.now.deltas)
            → MatchOption result
            (AreDisjoint (deletions_of self.now.deltas ++ map D.deletion additional.now))
            (IsFirstOverlapping (deletions_of self.now.deltas) (map D.deletion additional.now)) }
    {
        overlap::first_overlapping_sorted(alloc, self.deltas(), additional)
    }

    /// Whether the list's deletions and the additional ones are two valid lists of which no two
    /// deletions overlap, as `merge_ascending` requires them.
    ///
    /// It doesn't allocate. For k deletions and n deltas the work is O(n + k log n).
    pub fn can_merge_ascending<D: AsDeletion>(&self, additional: &[D]) -> bool
        ensures { IsTrue result
            ↔ AreValidTogether (deletions_of self.now.deltas) (map D.deletion additional.now) }
    {
        overlap::are_valid_together(self.deltas(), additional)
    }

    /// Writes the deltas of the list's deletions and the additional ones, sorted, with sums made
    /// anew.
    ///
    /// It doesn't allocate. For k deletions and n deltas the work is O(n + k). Requires
    /// deletions that `can_merge_ascending` accepts, and `merged` as long as both.
    pub fn merge_ascending<D: AsDeletion>(&self, additional: &[D], merged: &mut [RelaxDelta])
        requires places { length merged.old ≡ length self.now.deltas + length additional.now }
        requires valid { AreValidTogether (deletions_of self.now.deltas)
            (map D.deletion additional.now) }
        ensures union { IsSortedUnion
            (deletions_of self.now.deltas ++ map D.deletion additional.now)
            (deletions_of merged.new) }
        ensures listed { AreValidDeltas merged.new }
    {
        let deltas = self.deltas();
        let (mut passed, mut taken, mut bytes) = (0, 0, 0);
        while passed < deltas.len() && taken < additional.len() {
            let (deletion, is_old) = lower(deltas, additional, passed, taken);
            bytes += u64::from(deletion.1);
            merged[passed + taken] = RelaxDelta {
                input_offset: deletion.0,
                cumulative_deleted: bytes,
                bytes_deleted: deletion.1,
            };
            passed += usize::from(is_old);
            taken += usize::from(!is_old);
        }
        while let Some((deletion, is_old)) = next_of(deltas, additional, passed, taken) {
            bytes += u64::from(deletion.1);
            merged[passed + taken] = RelaxDelta {
                input_offset: deletion.0,
                cumulative_deleted: bytes,
                bytes_deleted: deletion.1,
            };
            passed += usize::from(is_old);
            taken += usize::from(!is_old);
        }
    }
}

// Whether each delta has the sum of the bytes of all up to it.
fn have_sums(deltas: &[RelaxDelta]) -> bool
    ensures { IsTrue result ↔ RecordsDeletions (deletions_of deltas.now) deltas.now }
{
    let mut sum = 0;
    for &delta in deltas {
        if delta.cumulative_deleted < sum
            || delta.cumulative_deleted - sum != u64::from(delta.bytes_deleted)
        {
            return false;
        }
        sum = delta.cumulative_deleted;
    }
    true
}

// The bytes that the first `count` deltas delete.
#[inline(always)]
pub(super) fn bytes_of_first(deltas: &[RelaxDelta], count: usize) -> u64
    requires { count ≤ length deltas.now }
    ensures { AreValidDeltas deltas.now
        → result ≡ bytes_of (take count (deletions_of deltas.now)) }
{
    let last = count.wrapping_sub(1);
    if last < deltas.len() {
        deltas[last].cumulative_deleted
    } else {
        0
    }
}

// The rank of an offset by the last delta that begins below it: the greater of the offset and the
// end of that delta, less all bytes that are deleted up to there.
#[inline(always)]
pub(super) fn rank_after(last: RelaxDelta, offset: u64) -> u64
    ensures { result
        ≡ (max offset ((last.input_offset + last.bytes_deleted) % 2 ^ 64)
        + (2 ^ 64 - last.cumulative_deleted)) % 2 ^ 64 }
{
    let end = last
        .input_offset
        .wrapping_add(u64::from(last.bytes_deleted));
    offset.max(end).wrapping_sub(last.cumulative_deleted)
}

// The rank of an offset, where n deltas begin below it.
#[inline(always)]
pub(crate) fn rank_past(deltas: &[RelaxDelta], below: usize, offset: u64) -> u64
    ensures { AreValidDeltas deltas.now → below ≤ length deltas.now
        → IsPartitionPoint (λ d. d.0 < offset) (λ d. offset ≤ d.0) (deletions_of deltas.now) below
        → result ≡ rank (deletions_of deltas.now) offset }
{
    let last = below.wrapping_sub(1);
    if last < deltas.len() {
        rank_after(deltas[last], offset)
    } else {
        offset
    }
}
