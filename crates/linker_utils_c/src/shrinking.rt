//! Which calls of a section can become jumps at once.

ghost use Rattle.std.specs.Prelude.{◌≡◌, ◌≢◌, ◌≤◌, ◌↔◌, ◌⊎◌, All, length};
ghost use Rattle.linker_base.specs.Deltas.{deletions_of};
ghost use Rattle.linker_base.specs.Listed.{AreValidDeltas};
ghost use Rattle.linker_riscv64.specs.Shrinking.{AreShrinkable, IsFirstNotShrinkable, IsGreatest};
ghost use Rattle.linker_utils_c.specs.Status.{code};
ghost use Rattle.linker_utils_c.specs.Packing.{calls_in};
ghost use Rattle.linker_utils_c.specs.Shrinking.{choice_in};

use crate::status::Status;
use linker_utils::relaxation::RelaxDelta;
use linker_utils::riscv64::{Call, first_not_shrinkable, shrink_calls_into};

/// Whether `linker_utils_shrink_calls` accepts the calls: their sites ascend by at least 8, the
/// eight bytes at each site are kept, the four bytes after each call's first instruction may be
/// deleted all together, and no target is strictly inside four such bytes. Else
/// `CallsNotShrinkable`, where `faulty` is the index of the first call that isn't accepted with
/// those before it.
#[unsafe(no_mangle)]
pub extern "C" fn linker_utils_calls_shrinkable_nonnull(
    deltas: &[RelaxDelta],
    calls: &[Call],
    faulty: &mut usize,
) -> u32
    ensures known { (result ≡ code Status.Success) ⊎ (result ≡ code Status.CallsNotShrinkable) }
    ensures shrinkable { AreValidDeltas deltas.now → ((result ≡ code Status.Success)
        ↔ AreShrinkable (deletions_of deltas.now) (calls_in calls.now)) }
    ensures faulty_call { AreValidDeltas deltas.now → result ≡ code Status.CallsNotShrinkable
        → IsFirstNotShrinkable (deletions_of deltas.now) (calls_in calls.now) faulty.new }
    ensures faulty_stays { result ≡ code Status.Success → faulty.new ≡ faulty.old }
{
    match first_not_shrinkable(deltas, calls) {
        Some(index) => {
            *faulty = index;
            Status::CallsNotShrinkable as u32
        }
        None => Status::Success as u32,
    }
}

/// Writes for each call whether it is in the greatest choice of calls that can all become jumps at
/// once: a byte that is 1 or 0. A choice can where each of its calls reaches its target by `jal`
/// once the four bytes after the first instruction of each are deleted.
///
/// The first that applies of `DifferentLengths`, where `chosen` has not as many bytes as there are
/// calls; and `CallsNotShrinkable`, as `linker_utils_calls_shrinkable`. `chosen` is unchanged then.
#[unsafe(no_mangle)]
pub extern "C" fn linker_utils_shrink_calls_nonnull(
    deltas: &[RelaxDelta],
    calls: &[Call],
    chosen: &mut [u8],
    faulty: &mut usize,
) -> u32
    ensures greatest { AreValidDeltas deltas.now → result ≡ code Status.Success
        → IsGreatest (deletions_of deltas.now) (calls_in calls.now) (choice_in chosen.new) }
    ensures bytes { result ≡ code Status.Success → All (λ byte. byte ≤ 1) chosen.new }
    ensures different_lengths { (result ≡ code Status.DifferentLengths)
        ↔ (length chosen.old ≢ length calls.now) }
    ensures not_shrinkable { AreValidDeltas deltas.now → length chosen.old ≡ length calls.now
        → ((result ≡ code Status.CallsNotShrinkable)
        ↔ ¬ AreShrinkable (deletions_of deltas.now) (calls_in calls.now)) }
    ensures accepted { length chosen.old ≡ length calls.now
        → (result ≡ code Status.Success) ⊎ (result ≡ code Status.CallsNotShrinkable) }
    ensures unchanged { result ≢ code Status.Success → chosen.new ≡ chosen.old }
    ensures faulty_call { AreValidDeltas deltas.now → result ≡ code Status.CallsNotShrinkable
        → IsFirstNotShrinkable (deletions_of deltas.now) (calls_in calls.now) faulty.new }
    ensures faulty_stays { result ≢ code Status.CallsNotShrinkable → faulty.new ≡ faulty.old }
{
    if chosen.len() != calls.len() {
        return Status::DifferentLengths as u32;
    }
    if let Some(index) = first_not_shrinkable(deltas, calls) {
        *faulty = index;
        return Status::CallsNotShrinkable as u32;
    }
    shrink_calls_into(deltas, calls, chosen);
    Status::Success as u32
}
