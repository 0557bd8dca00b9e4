//! Heads of the blocks of deltas, in arrays of the caller's. Searches in many deltas are faster
//! with them.
//!
//! Each call is safe for any heads. The contract of what it returns requires those that
//! `linker_utils_deltas_heads` wrote of the same deltas, or a number of them that isn't that of the
//! blocks.

ghost use Rattle.std.specs.Prelude.{◌≡◌, ◌≢◌, ◌⊎◌, length};
ghost use Rattle.linker_base.specs.Blocks.{AreHeads, blocks_of};
ghost use Rattle.linker_base.specs.Deletions.{IsSelected, HasInput, rank};
ghost use Rattle.linker_base.specs.Deltas.{deletions_of};
ghost use Rattle.linker_base.specs.Listed.{AreValidDeltas};
ghost use Rattle.linker_utils_c.specs.Status.{code};

use crate::status::{Status, or_return};
use linker_utils::relaxation::{BlockHead, DeltaSlice, RelaxDelta};

/// How many blocks of 64 the deltas have; the last may be shorter.
#[unsafe(no_mangle)]
pub extern "C" fn linker_utils_deltas_block_count_nonnull(deltas: &[RelaxDelta]) -> usize
    ensures { result ≡ blocks_of (length deltas.now) }
{
    DeltaSlice::new(deltas).block_count()
}

/// Writes the heads of the deltas' blocks, as many as `linker_utils_deltas_block_count` returns.
/// The error is `DifferentLengths`.
#[unsafe(no_mangle)]
pub extern "C" fn linker_utils_deltas_heads_nonnull(
    deltas: &[RelaxDelta],
    heads: &mut [BlockHead],
) -> u32
    ensures written { length heads.old ≡ blocks_of (length deltas.now)
        → (result ≡ code Status.Success) × AreHeads deltas.now heads.new }
    ensures different_lengths { length heads.old ≢ blocks_of (length deltas.now)
        → result ≡ code Status.DifferentLengths }
    ensures unchanged { result ≢ code Status.Success → heads.new ≡ heads.old }
{
    let deltas = DeltaSlice::new(deltas);
    if heads.len() != deltas.block_count() {
        return Status::DifferentLengths as u32;
    }
    deltas.write_heads(heads);
    Status::Success as u32
}

/// `linker_utils_deltas_input_to_output` of deltas with the heads of their blocks. Where the heads
/// aren't as many as blocks, it searches only the deltas. O(log n).
#[unsafe(no_mangle)]
pub extern "C" fn linker_utils_deltas_input_to_output_by_heads_nonnull(
    deltas: &[RelaxDelta],
    heads: &[BlockHead],
    input_offset: u64,
) -> u64
    ensures by_heads { AreValidDeltas deltas.now → AreHeads deltas.now heads.now
        → result ≡ rank (deletions_of deltas.now) input_offset }
    ensures other_count { AreValidDeltas deltas.now
        → length heads.now ≢ blocks_of (length deltas.now)
        → result ≡ rank (deletions_of deltas.now) input_offset }
{
    DeltaSlice::new(deltas).input_to_output_by_heads(heads, input_offset)
}

/// `linker_utils_deltas_output_to_input` of deltas with the heads of their blocks. The error is
/// `TooLarge`. Where the heads aren't as many as blocks, it searches only the deltas. O(log n).
#[unsafe(no_mangle)]
pub extern "C" fn linker_utils_deltas_output_to_input_by_heads_nonnull(
    deltas: &[RelaxDelta],
    heads: &[BlockHead],
    output_offset: u64,
    input_offset: &mut u64,
) -> u32
    ensures known { (result ≡ code Status.Success) ⊎ (result ≡ code Status.TooLarge) }
    ensures kept { AreValidDeltas deltas.now → AreHeads deltas.now heads.now
        → HasInput (deletions_of deltas.now) output_offset
        → (result ≡ code Status.Success)
        × IsSelected (deletions_of deltas.now) output_offset input_offset.new }
    ensures too_large { AreValidDeltas deltas.now → AreHeads deltas.now heads.now
        → ¬ HasInput (deletions_of deltas.now) output_offset → result ≡ code Status.TooLarge }
    ensures other_count_kept { AreValidDeltas deltas.now
        → length heads.now ≢ blocks_of (length deltas.now)
        → HasInput (deletions_of deltas.now) output_offset
        → (result ≡ code Status.Success)
        × IsSelected (deletions_of deltas.now) output_offset input_offset.new }
    ensures other_count_too_large { AreValidDeltas deltas.now
        → length heads.now ≢ blocks_of (length deltas.now)
        → ¬ HasInput (deletions_of deltas.now) output_offset → result ≡ code Status.TooLarge }
    ensures unchanged { result ≢ code Status.Success → input_offset.new ≡ input_offset.old }
{
    *input_offset = or_return!(
        DeltaSlice::new(deltas).output_to_input_by_heads(heads, output_offset),
        TooLarge
    );
    Status::Success as u32
}
