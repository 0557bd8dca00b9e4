//! Deltas in blocks of 64, and translations that look at the head of each block first.

ghost use Rattle.std.specs.Prelude.{◌≡◌, ◌<◌, ◌≤◌, ◌+◌, ◌-◌, ◌*◌, ◌^◌, ℕ, List, length};
ghost use Rattle.std.specs.Prelude.{slice_index_or, vec_len, vec_capacity};
ghost use Rattle.linker_base.specs.declared.relaxation.RelaxDelta.{RelaxDelta};
ghost use Rattle.linker_base.specs.declared.relaxation.blocks.BlockHead.{BlockHead};
ghost use Rattle.linker_base.specs.Blocks.{output_offset_of, blocks_of, head_of, AreHeads};
ghost use Rattle.linker_base.specs.Deletions.{rank, IsSelected, HasInput};
ghost use Rattle.linker_base.specs.Deltas.{deletions_of};
ghost use Rattle.linker_base.specs.Listed.{AreValidDeltas};
ghost use Rattle.linker_base.specs.Inner.Listed.{IsSound, KeepsHeads, heads_of};
ghost use Rattle.linker_base.specs.Inner.Search.{list_subject};

use super::RelaxDelta;
use super::delta_slice::rank_after;
use super::search::{Level, Probe, Test, count_passing};
use std::marker::Model;

/// How many deltas a block has. The last block may have fewer.
pub const BLOCK_LEN: usize = 64;

/// The first delta of a block, as far as a search reads it.
#[repr(C)]
#[derive(Debug, Clone, Copy)]
pub struct BlockHead {
    /// The input offset of the block's first delta.
    pub input_offset: u64,
    /// Its output offset: the input offset less the bytes of all deletions before.
    pub output_offset: u64,
}

impl BlockHead {
    /// The head of a block that begins with the delta.
    #[inline(always)]
    pub(super) fn of(delta: &RelaxDelta) -> BlockHead
        ensures { result ≡ head_of delta.now }
    {
        BlockHead {
            input_offset: delta.input_offset,
            output_offset: delta
                .input_offset
                .wrapping_add(u64::from(delta.bytes_deleted))
                .wrapping_sub(delta.cumulative_deleted),
        }
    }
}

/// A valid list of deltas of which each look is counted.
pub trait Looks {
    /// The list.
    ghost listed: { Self → List RelaxDelta };

    /// How many looks were taken.
    ghost looked: { Self → ℕ };

    /// How many deltas are listed.
    fn len(&self) -> usize
        ensures len { result ≡ length (listed self.now) }
        ensures valid { AreValidDeltas (listed self.now) };

    /// How many looks were taken.
    fn count(&self) -> u64
        ensures { result ≡ looked self.now };

    /// The input offset and the output offset of the first delta of block `block`, delta
    /// `64 * block`. One look.
    ///
    /// Requires that there is such a delta, and a count below `u64::MAX`.
    fn head(&mut self, block: usize) -> (u64, u64)
        requires within { 64 * block < length (listed self.old) }
        requires room { looked self.old + 1 < 2 ^ 64 }
        ensures offset { (d : RelaxDelta)
            → result.0 ≡ (slice_index_or (listed self.old) (64 * block) d).input_offset }
        ensures output { (d : RelaxDelta)
            → result.1 ≡ output_offset_of (slice_index_or (listed self.old) (64 * block) d) }
        ensures same { listed self.new ≡ listed self.old }
        ensures counted { looked self.new ≡ looked self.old + 1 };

    /// Delta `index`. One look.
    ///
    /// Requires that there is such a delta, and a count below `u64::MAX`.
    fn delta(&mut self, index: usize) -> RelaxDelta
        requires within { index < length (listed self.old) }
        requires room { looked self.old + 1 < 2 ^ 64 }
        ensures delta { (d : RelaxDelta) → result ≡ slice_index_or (listed self.old) index d }
        ensures same { listed self.new ≡ listed self.old }
        ensures counted { looked self.new ≡ looked self.old + 1 };
}

impl<K: Looks> Probe for K {
    ghost state = { λ looks. record {
      subject = list_subject (K.listed looks);
      probes = K.looked looks;
    } };

    #[inline(always)]
    fn len(&self) -> usize {
        Looks::len(self)
    }

    #[inline(always)]
    fn read(&mut self, level: Level, at: usize) -> BlockHead {
        match level {
            Level::Heads => {
                let (input_offset, output_offset) = self.head(at);
                BlockHead {
                    input_offset,
                    output_offset,
                }
            }
            Level::Deltas => BlockHead::of(&self.delta(at)),
        }
    }
}

/// The deltas of a section and the heads that it keeps, none of a single block, with a count of the
/// looks at them. Contracts see the list and the count.
#[derive(Drop)]
pub struct Counted<'a> {
    deltas: &'a [RelaxDelta],
    heads: &'a [BlockHead],
    count: u64,
}

impl<'a> Model for Counted<'a> {
    ghost use Rattle.linker_base.specs.Blocks.{Counts};
    ghost use Rattle.linker_base.specs.Inner.Listed.{IsSound};

    ghost Value = { Counts };

    ghost view = { λ counted. record { listed = counted.deltas.now; looked = counted.count } };

    ghost invariant = { λ counted. IsSound counted.deltas.now counted.heads.now };
}

impl<'a> Counted<'a> {
    #[inline(always)]
    pub(super) fn new(deltas: &'a [RelaxDelta], heads: &'a [BlockHead]) -> Counted<'a>
        requires { IsSound deltas.now heads.now }
        ensures { result ≡ record { listed = deltas.now; looked = 0 } }
    {
        Counted {
            deltas,
            heads,
            count: 0,
        }
    }
}

impl<'a> Looks for Counted<'a> {
    ghost listed = { λ counted. counted.listed };

    ghost looked = { λ counted. counted.looked };

    #[inline(always)]
    fn len(&self) -> usize {
        self.deltas.len()
    }

    #[inline(always)]
    fn count(&self) -> u64 {
        self.count
    }

    #[inline(always)]
    fn head(&mut self, block: usize) -> (u64, u64) {
        self.count += 1;
        if self.deltas.len() > BLOCK_LEN {
            let head = self.heads[block];
            return (head.input_offset, head.output_offset);
        }
        // Nothing is deleted before the first delta.
        let first = self.deltas[BLOCK_LEN * block].input_offset;
        (first, first)
    }

    #[inline(always)]
    fn delta(&mut self, index: usize) -> RelaxDelta {
        self.count += 1;
        self.deltas[index]
    }
}

/// Puts the heads of the other blocks after those of the first blocks, if there is more than one.
pub(super) fn fill_heads(deltas: &[RelaxDelta], heads: &mut Vec<BlockHead>)
    requires first { (b : ℕ) (h : BlockHead) (d : RelaxDelta) → b < vec_len heads.old
        → slice_index_or heads.old.items b h ≡ head_of (slice_index_or deltas.now (64 * b) d) }
    requires within { vec_len heads.old ≤ blocks_of (length deltas.now) }
    requires room { heads_of (length deltas.now) ≤ vec_capacity heads.old }
    ensures { KeepsHeads deltas.now heads.new.items }
{
    for block in heads.len()..count_heads(deltas.len()) {
        heads.push_reserved(BlockHead::of(&deltas[BLOCK_LEN * block]));
    }
}

/// Writes the head of each block.
pub(super) fn write_heads(deltas: &[RelaxDelta], heads: &mut [BlockHead])
    requires { length heads.old ≡ blocks_of (length deltas.now) }
    ensures { AreHeads deltas.now heads.new }
{
    for block in 0..heads.len() {
        heads[block] = BlockHead::of(&deltas[BLOCK_LEN * block]);
    }
}

/// How many blocks n deltas take.
#[inline(always)]
pub(super) fn count_blocks(len: usize) -> usize
    ensures { result ≡ blocks_of len }
{
    len / BLOCK_LEN + usize::from(len % BLOCK_LEN > 0)
}

/// How many heads a section keeps of n deltas.
#[inline(always)]
pub(super) fn count_heads(len: usize) -> usize
    ensures { result ≡ heads_of len }
{
    if len > BLOCK_LEN {
        count_blocks(len)
    } else {
        0
    }
}

/// The output offset of `input_offset`, as `SectionRelaxDeltas::input_to_output_offset` returns it.
///
/// Requires a count of at most `u32::MAX`. With B blocks it takes at most as many looks as B has
/// binary digits, and eight.
#[inline(always)]
pub fn input_to_output_counted<K: Looks>(looks: &mut K, input_offset: u64) -> u64
    requires room { K.looked looks.old < 2 ^ 32 }
    ensures output { result ≡ rank (deletions_of (K.listed looks.old)) input_offset }
    ensures same { K.listed looks.new ≡ K.listed looks.old }
    ensures bound { (digits : ℕ) → blocks_of (length (K.listed looks.old)) < 2 ^ digits
        → K.looked looks.new ≤ K.looked looks.old + digits + 8 }
{
    // What it ensures is that the list is valid.
    let _len = looks.len();
    match count_passing(looks, Test::BeginsBelow(input_offset)).checked_sub(1) {
        Some(last) => rank_after(looks.delta(last), input_offset),
        None => input_offset,
    }
}

/// The input offset of the kept byte at `output_offset`, as
/// `SectionRelaxDeltas::output_to_input_offset` returns it.
///
/// Requires an offset that `output_fits` accepts, and a count of at most `u32::MAX`. With B blocks
/// it takes at most as many looks as B has binary digits, and eight.
#[inline(always)]
pub fn output_to_input_counted<K: Looks>(looks: &mut K, output_offset: u64) -> u64
    requires fits { HasInput (deletions_of (K.listed looks.old)) output_offset }
    requires room { K.looked looks.old < 2 ^ 32 }
    ensures input { IsSelected (deletions_of (K.listed looks.old)) output_offset result }
    ensures same { K.listed looks.new ≡ K.listed looks.old }
    ensures bound { (digits : ℕ) → blocks_of (length (K.listed looks.old)) < 2 ^ digits
        → K.looked looks.new ≤ K.looked looks.old + digits + 8 }
{
    // What it ensures is that the list is valid.
    let _len = looks.len();
    match count_passing(looks, Test::IsPlacedUpTo(output_offset)).checked_sub(1) {
        Some(last) => output_offset + looks.delta(last).cumulative_deleted,
        None => output_offset,
    }
}
