//! Merges: the growth of deltas in place, and lists apart.

ghost use Rattle.std.specs.Prelude.{◌≡◌, ◌≤◌, ◌<◌, ◌+◌, ◌-◌, ◌^◌, ◌++◌, ℕ, IfOk, OnOk, OnErr, map};
ghost use Rattle.std.specs.Prelude.{length, min, take, slice_index_or, vec_len, vec_capacity};
ghost use Rattle.linker_base.specs.declared.relaxation.RelaxDelta.{RelaxDelta};
ghost use Rattle.linker_base.specs.Deletions.{AreDisjoint, IsValid, IsSortedUnion, bytes_of};
ghost use Rattle.linker_base.specs.Deltas.{deletion_of, pairs_of, RecordsDeletions};
ghost use Rattle.linker_base.specs.Listed.{AreValidDeltas, AreValidTogether};
ghost use Rattle.linker_base.specs.Inner.Listed.{IsSound};

use super::blocks::{BlockHead, count_blocks, count_heads, fill_heads};
use super::delta_slice::bytes_of_first;
use super::overlap::{AsDeletion, are_valid, pair_at};
use super::{OutOfMemory, RelaxDelta};
use std::alloc::Global;

// How many pairs all batches have, or `usize::MAX` where they are more.
pub(super) fn count_pairs(batches: &[Vec<(u64, u32)>]) -> usize
    ensures { result ≡ min (length (pairs_of batches.now)) (2 ^ 64 - 1) }
{
    let mut count = 0usize;
    for batch in batches {
        count = count.saturating_add(batch.len());
    }
    count
}

// The pairs of all batches, one batch after the other.
pub(super) fn all_pairs(
    alloc: Global,
    batches: &[Vec<(u64, u32)>],
) -> Result<Vec<(u64, u32)>, OutOfMemory>
    ensures { IfOk result (λ pairs. pairs.items ≡ pairs_of batches.now) }
{
    let mut pairs = Vec::with_capacity(alloc, count_pairs(batches))?;
    for batch in batches {
        pairs.extend_from_slice(batch)?;
    }
    Ok(pairs)
}

// The deletions as pairs.
pub(super) fn copy_deletions<D: AsDeletion>(
    alloc: Global,
    deletions: &[D],
) -> Result<Vec<(u64, u32)>, OutOfMemory>
    ensures { IfOk result (λ copy. copy.items ≡ map D.deletion deletions.now) }
{
    let mut copy = Vec::with_capacity(alloc, deletions.len())?;
    for at in 0..deletions.len() {
        copy.push_reserved(pair_at(deletions, at));
    }
    Ok(copy)
}

// The pairs in order.
pub(super) fn sorted(pairs: Vec<(u64, u32)>) -> Vec<(u64, u32)>
    requires { AreDisjoint pairs.items }
    ensures { IsSortedUnion pairs.items result.items }
{
    let mut sorted = pairs;
    if !are_valid(&sorted) {
        sorted.sort_unstable_by_key(|pair| pair.0);
    }
    sorted
}

// Adds pairs that ascend, and writes the heads from the first block on that changes. Both grow
// before anything changes.
pub(super) fn insert_ascending(
    deltas: &mut Vec<RelaxDelta>,
    heads: &mut Vec<BlockHead>,
    pairs: &[(u64, u32)],
) -> Result<(), OutOfMemory>
    requires sound { IsSound deltas.old.items heads.old.items }
    requires ascending { IsValid pairs.now }
    requires disjoint { AreDisjoint (map deletion_of deltas.old.items ++ pairs.now) }
    ensures sound { IsSound deltas.new.items heads.new.items }
    ensures ok { OnOk result (IsSortedUnion (map deletion_of deltas.old.items ++ pairs.now)
        (map deletion_of deltas.new.items)) }
    ensures err { OnErr result (deltas.new.items ≡ deltas.old.items) }
{
    let count = deltas.len();
    deltas.reserve(pairs.len())?;
    heads.reserve(count_heads(count + pairs.len()).saturating_sub(heads.len()))?;
    let bytes = append(deltas, pairs);
    let kept = merge_in_place(deltas, count, pairs, bytes);
    heads.truncate(count_blocks(kept));
    fill_heads(deltas, heads);
    Ok(())
}

// Appends the pairs to the deltas, with sums of their own bytes alone, and returns the last sum.
pub(super) fn append(deltas: &mut Vec<RelaxDelta>, pairs: &[(u64, u32)]) -> u64
    requires { vec_len deltas.old + length pairs.now ≤ vec_capacity deltas.old }
    ensures front { take (vec_len deltas.old) deltas.new.items ≡ deltas.old.items }
    ensures len { vec_len deltas.new ≡ vec_len deltas.old + length pairs.now }
    ensures capacity { vec_capacity deltas.new ≡ vec_capacity deltas.old }
    ensures listing { vec_len deltas.old ≡ 0 → IsValid pairs.now
        → RecordsDeletions pairs.now deltas.new.items }
    ensures sum { IsValid pairs.now → result ≡ bytes_of pairs.now }
{
    let mut cumulative_deleted = 0u64;
    for &(input_offset, bytes_deleted) in pairs {
        cumulative_deleted = cumulative_deleted.wrapping_add(u64::from(bytes_deleted));
        deltas.push_reserved(RelaxDelta {
            input_offset,
            cumulative_deleted,
            bytes_deleted,
        });
    }
    cumulative_deleted
}

// Merges ascending deletions, of `sum` bytes, and the first `count` deltas, from the back, in
// place: the rest of `merged` is room for as many as the additional ones. Returns how many of the
// first deltas are unchanged. Where many are additional, which of both comes next is unpredictable,
// and no branch depends on it.
#[inline(always)]
fn merge_in_place(
    merged: &mut [RelaxDelta],
    count: usize,
    additional: &[(u64, u32)],
    sum: u64,
) -> usize
    requires room { count + length additional.now ≡ length merged.old }
    requires valid { AreValidTogether (map deletion_of (take count merged.old)) additional.now }
    requires listed { AreValidDeltas (take count merged.old) }
    requires sum { sum ≡ bytes_of additional.now }
    ensures within { result ≤ count }
    ensures front { (k : ℕ) (d : RelaxDelta) → k < result
        → slice_index_or merged.new k d ≡ slice_index_or merged.old k d }
    ensures union { IsSortedUnion (map deletion_of (take count merged.old) ++ additional.now)
        (map deletion_of merged.new) }
    ensures listed { AreValidDeltas merged.new }
{
    let mut old = count;
    let mut left = additional.len();
    let mut bytes = sum + bytes_of_first(&merged[..count], count);
    let are_many = left > count / 16;
    while are_many && old > 0 && left > 0 {
        let listed = merged[old - 1].as_deletion();
        let added = additional[left - 1];
        let is_old = added.0 < listed.0;
        let (input_offset, bytes_deleted) = if is_old { listed } else { added };
        merged[old + left - 1] = RelaxDelta {
            input_offset,
            cumulative_deleted: bytes,
            bytes_deleted,
        };
        bytes -= u64::from(bytes_deleted);
        old -= usize::from(is_old);
        left -= usize::from(!is_old);
    }
    while left > 0 {
        let (input_offset, bytes_deleted) = additional[left - 1];
        while old > 0 && input_offset < merged[old - 1].input_offset {
            let delta = merged[old - 1];
            merged[old + left - 1] = RelaxDelta {
                cumulative_deleted: bytes,
                ..delta
            };
            bytes -= u64::from(delta.bytes_deleted);
            old -= 1;
        }
        merged[old + left - 1] = RelaxDelta {
            input_offset,
            cumulative_deleted: bytes,
            bytes_deleted,
        };
        bytes -= u64::from(bytes_deleted);
        left -= 1;
    }
    old
}
