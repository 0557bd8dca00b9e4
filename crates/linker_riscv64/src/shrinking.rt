//! The calls of a section that can become jumps at once.

ghost use Rattle.std.specs.Prelude.{◌≡◌, ◌≤◌, ◌<◌, ◌+◌, ◌-◌, ◌*◌, ◌++◌, ◌∷◌, [], ◌↔◌, ℕ, Bool};
ghost use Rattle.std.specs.Prelude.{false, nat_lt, slice_set, map, take, length, pos, ◌-ℤ◌, All};
ghost use Rattle.std.specs.Prelude.{IsTrue, IsFalse, IfOk, IfSome, MatchOption, ⊤};
ghost use Rattle.linker_base.specs.Deletions.{AreDisjoint, AreKept};
ghost use Rattle.linker_base.specs.Deltas.{deletions_of};
ghost use Rattle.linker_base.specs.Listed.{AreValidDeltas};
ghost use Rattle.linker_riscv64.specs.Inner.Shrinking.{chosen_count, chosen_between, AreEightApart};
ghost use Rattle.linker_riscv64.specs.Inner.Shrinking.{IsSplit, KeepsOthers, IsInReachAt, IsAround};
ghost use Rattle.linker_riscv64.specs.Inner.Shrinking.{HaveShrinkableSites, HaveShrinkableTargets};
ghost use Rattle.linker_riscv64.specs.Inner.Shrinking.{IsApartAt, AreRunsOf, distance_over};
ghost use Rattle.linker_riscv64.specs.RiscVCalls.{IsEven, IsJalDistance};
ghost use Rattle.linker_riscv64.specs.Shrinking.{IsChosen, IsGreatest, AreShrinkable};
ghost use Rattle.linker_riscv64.specs.Shrinking.{IsFirstNotShrinkable, ShrunkCallsAreAccepted};

use super::calls::{AsCall, test_distance};
use linker_base::relaxation::{DeltaSlice, OutOfMemory, RelaxDelta, SectionRelaxDeltas};
use std::alloc::Global;

/// An element of a list of choices, which says whether a call is chosen: a `bool`, or a byte that
/// is 0 or 1.
pub trait AsChoice: Copy {
    /// Whether the call is chosen, in a contract.
    ghost choice: { Self → Bool };

    /// Whether it is one of the two values that are written, in a contract.
    ghost is_written: { Self → Type 0 };

    /// Whether the call is chosen.
    fn as_choice(self) -> bool
        ensures { result ≡ choice self };

    /// The value that says it.
    fn from_choice(chosen: bool) -> Self
        ensures tells { choice result ≡ chosen }
        ensures written { is_written result };
}

impl AsChoice for bool {
    ghost choice = { λ chosen. chosen };

    ghost is_written = { λ _. ⊤ };

    #[inline(always)]
    fn as_choice(self) -> bool {
        self
    }

    #[inline(always)]
    fn from_choice(chosen: bool) -> bool {
        chosen
    }
}

impl AsChoice for u8 {
    ghost choice = { λ byte. nat_lt 0 byte };

    ghost is_written = { λ byte. byte ≤ 1 };

    #[inline(always)]
    fn as_choice(self) -> bool {
        self != 0
    }

    #[inline(always)]
    fn from_choice(chosen: bool) -> u8 {
        u8::from(chosen)
    }
}

/// How many of the calls have their second instruction below an offset.
fn calls_below<C: AsCall>(calls: &[C], offset: u64) -> usize
    ensures within { result ≤ length calls.now }
    ensures split { AreEightApart (map C.call calls.now)
        → IsSplit (map C.call calls.now) offset result }
{
    let bound = offset.saturating_sub(4);
    calls.partition_point(|call| call.as_call().0 < bound)
}

/// How many calls are chosen from an index up to another.
fn count_between<A: AsChoice>(answer: &[A], from: usize, to: usize) -> usize
    requires ascending { from ≤ to }
    requires within { to ≤ length answer.now }
    ensures { result ≡ chosen_between (map A.choice answer.now) from to }
{
    let mut count = 0;
    for choice in &answer[from..to] {
        count += usize::from(choice.as_choice());
    }
    count
}

/// How many runs of calls are counted.
const RUNS: usize = 1024;

/// How many calls are chosen in each run of `len` calls, from the first call on. The run in which
/// the calls end is shorter, and those after it are empty.
#[derive(Drop)]
struct Runs {
    len: usize,
    counts: [usize; RUNS],
}

impl Runs {
    /// The counts of a choice.
    fn of<A: AsChoice>(answer: &[A]) -> Runs
        ensures { AreRunsOf result (map A.choice answer.now) }
    {
        let len = answer.len() / RUNS + 1;
        let mut counts = [0; RUNS];
        let mut start = 0;
        for run in 0..RUNS {
            let end = start + len.min(answer.len() - start);
            counts[run] = count_between(answer, start, end);
            start = end;
        }
        Runs { len, counts }
    }

    /// How many calls are chosen from an index up to another: whole runs are not counted anew.
    fn count_between<A: AsChoice>(&self, answer: &[A], from: usize, to: usize) -> usize
        requires runs { AreRunsOf self.now (map A.choice answer.now) }
        requires ascending { from ≤ to }
        requires within { to ≤ length answer.now }
        ensures { result ≡ chosen_between (map A.choice answer.now) from to }
    {
        let first = from / self.len + 1;
        let last = to / self.len;
        if last <= first {
            return count_between(answer, from, to);
        }
        let mut count = count_between(answer, from, first * self.len);
        for run in first..last {
            count += self.counts[run];
        }
        count + count_between(answer, last * self.len, to)
    }

    /// Drops the call at an index, which is chosen, from the choice.
    fn drop_call<A: AsChoice>(&mut self, answer: &mut [A], index: usize)
        requires runs { AreRunsOf self.old (map A.choice answer.old) }
        requires within { index < length answer.old }
        requires chosen { IsChosen (map A.choice answer.old) index }
        ensures runs { AreRunsOf self.new (map A.choice answer.new) }
        ensures dropped { map A.choice answer.new
            ≡ slice_set (map A.choice answer.old) index false }
        ensures written { All A.is_written answer.old → All A.is_written answer.new }
    {
        answer[index] = A::from_choice(false);
        self.counts[index / self.len] -= 1;
    }
}

/// Whether a `jal` at an output offset reaches another.
fn reaches(from: u64, to: u64) -> bool
    ensures { IsTrue result
        ↔ (IsEven (pos to -ℤ pos from) × IsJalDistance (pos to -ℤ pos from)) }
{
    let distance = to.wrapping_sub(from).cast_signed();
    (from <= to) == (distance >= 0) && test_distance(distance).is_ok()
}

/// Whether a `jal` from the output offset of a call's site to that of its target reaches, once so
/// many calls between the two have lost four bytes each. The site is that of the call at an
/// index, and the calls before `split` lie below the target.
fn reaches_over(from: u64, to: u64, index: usize, split: usize, count: usize) -> bool
    ensures { IsTrue result
        ↔ (IsEven (distance_over from to index split count)
        × IsJalDistance (distance_over from to index split count)) }
{
    let freed = (count as u64).saturating_mul(4);
    if index <= split {
        reaches(from, to.saturating_sub(freed))
    } else {
        reaches(from.saturating_sub(freed), to)
    }
}

/// Whether the call at an index is in reach once the chosen calls have lost their bytes. They are
/// counted only where the call is out of reach with none of them and in reach with all.
fn is_in_reach<C: AsCall, A: AsChoice>(
    deltas: &[RelaxDelta],
    calls: &[C],
    answer: &[A],
    runs: &Runs,
    index: usize,
) -> bool
    requires within { index < length calls.now }
    requires one_each { length answer.now ≡ length calls.now }
    requires runs { AreRunsOf runs.now (map A.choice answer.now) }
    ensures { AreValidDeltas deltas.now
        → AreShrinkable (deletions_of deltas.now) (map C.call calls.now)
        → (IsTrue result ↔ IsInReachAt (deletions_of deltas.now) (map C.call calls.now)
        (map A.choice answer.now) index) }
{
    let (site, target) = calls[index].as_call();
    let deltas = DeltaSlice::new(deltas);
    let from = deltas.input_to_output_offset(site);
    let to = deltas.input_to_output_offset(target);
    if reaches(from, to) {
        return true;
    }
    let split = calls_below(calls, target);
    if !reaches_over(from, to, index, split, index.abs_diff(split)) {
        return false;
    }
    let (first, end) = (index.min(split), index.max(split));
    let count = runs.count_between(answer, first, end);
    reaches_over(from, to, index, split, count)
}

/// Drops from the choice each call that is out of reach, one after the other, up from the first
/// call or down from the last. Whether one was dropped.
fn sweep<C: AsCall, A: AsChoice>(
    deltas: &[RelaxDelta],
    calls: &[C],
    answer: &mut [A],
    runs: &mut Runs,
    down: bool,
) -> bool
    requires one_each { length answer.old ≡ length calls.now }
    requires runs { AreRunsOf runs.old (map A.choice answer.old) }
    ensures runs { AreRunsOf runs.new (map A.choice answer.new) }
    ensures keeps { AreValidDeltas deltas.now
        → AreShrinkable (deletions_of deltas.now) (map C.call calls.now)
        → KeepsOthers (deletions_of deltas.now) (map C.call calls.now)
        (map A.choice answer.old) (map A.choice answer.new) }
    ensures settled { AreValidDeltas deltas.now
        → AreShrinkable (deletions_of deltas.now) (map C.call calls.now)
        → IsFalse result → (i : ℕ) → i < length calls.now → IsChosen (map A.choice answer.new) i
        → IsInReachAt (deletions_of deltas.now) (map C.call calls.now)
        (map A.choice answer.new) i }
    ensures fewer { IsTrue result
        → chosen_count (map A.choice answer.new) < chosen_count (map A.choice answer.old) }
    ensures written { All A.is_written answer.old → All A.is_written answer.new }
{
    let mut dropped = false;
    for turn in 0..calls.len() {
        let index = if down { calls.len() - 1 - turn } else { turn };
        if answer[index].as_choice() && !is_in_reach(deltas, calls, answer, runs, index) {
            runs.drop_call(answer, index);
            dropped = true;
        }
    }
    dropped
}

/// Chooses all calls.
fn choose_all<A: AsChoice>(answer: &mut [A])
    ensures chosen { (i : ℕ) → i < length answer.new → IsChosen (map A.choice answer.new) i }
    ensures written { All A.is_written answer.new }
{
    for choice in answer.iter_mut() {
        *choice = A::from_choice(true);
    }
}

/// Whether a call's eight bytes are kept, and the four that it loses may be deleted.
fn is_shrinkable_site(deltas: &[RelaxDelta], site: u64) -> bool
    ensures { AreValidDeltas deltas.now → (IsTrue result
        ↔ (AreKept (deletions_of deltas.now) site 8
        × AreDisjoint (deletions_of deltas.now ++ (site + 4, 4) ∷ []))) }
{
    let deltas = DeltaSlice::new(deltas);
    site <= u64::MAX - 8
        && deltas.kept_output_offset(site, 8).is_some()
        && deltas.can_merge(&[(site + 4, 4)])
}

/// Whether the site of the call at an index is at least 8 above the one before it, if there is one.
fn is_apart<C: AsCall>(calls: &[C], index: usize) -> bool
    requires { index < length calls.now }
    ensures { IsTrue result ↔ IsApartAt (map C.call calls.now) index }
{
    let Some(before) = index.checked_sub(1) else {
        return true;
    };
    let (site, _) = calls[index].as_call();
    let (site_before, _) = calls[before].as_call();
    site.saturating_sub(site_before) >= 8
}

/// How many of the first calls may be shrunk as far as their sites go.
fn shrinkable_sites_len<C: AsCall>(deltas: &[RelaxDelta], calls: &[C]) -> usize
    ensures within { result ≤ length calls.now }
    ensures sites { AreValidDeltas deltas.now
        → HaveShrinkableSites (deletions_of deltas.now) (take result (map C.call calls.now)) }
    ensures next { AreValidDeltas deltas.now → result < length calls.now
        → ¬ HaveShrinkableSites (deletions_of deltas.now)
        (take (result + 1) (map C.call calls.now)) }
{
    for index in 0..calls.len() {
        let (site, _) = calls[index].as_call();
        if !is_apart(calls, index) || !is_shrinkable_site(deltas, site) {
            return index;
        }
    }
    calls.len()
}

/// The index of the call with an offset strictly inside the four bytes that it loses, if there
/// is one.
fn call_around<C: AsCall>(calls: &[C], offset: u64) -> Option<usize>
    ensures within { IfSome result (λ index. index < length calls.now) }
    ensures around { AreEightApart (map C.call calls.now)
        → MatchOption result ((index : ℕ) → index < length calls.now
        → ¬ IsAround (map C.call calls.now) offset index)
        (IsAround (map C.call calls.now) offset) }
{
    let Some(last) = calls_below(calls, offset).checked_sub(1) else {
        return None;
    };
    let (site, _) = calls[last].as_call();
    if offset.wrapping_sub(site) < 8 {
        Some(last)
    } else {
        None
    }
}

/// How many of the first calls have no target strictly inside what one of them deletes.
fn shrinkable_targets_len<C: AsCall>(calls: &[C]) -> usize
    ensures within { result ≤ length calls.now }
    ensures targets { AreEightApart (map C.call calls.now)
        → HaveShrinkableTargets (take result (map C.call calls.now)) }
    ensures next { AreEightApart (map C.call calls.now) → result < length calls.now
        → ¬ HaveShrinkableTargets (take (result + 1) (map C.call calls.now)) }
{
    let mut first = calls.len();
    for index in 0..calls.len() {
        let (_, target) = calls[index].as_call();
        if let Some(other) = call_around(calls, target) {
            first = first.min(index.max(other));
        }
    }
    first
}

/// The index of the first call that can't be shrunk with those before it: its site is less than 8
/// above the site before it, one of its eight bytes is deleted, the deletion of the last four can't
/// be merged, or one of these calls has a target strictly inside what another, or itself, deletes.
/// None where `shrink_calls` accepts the calls.
///
/// It doesn't allocate. For k calls and n deltas the work is O(k log n + k log k).
pub fn first_not_shrinkable<C: AsCall>(deltas: &[RelaxDelta], calls: &[C]) -> Option<usize>
    ensures { AreValidDeltas deltas.now
        → MatchOption result (AreShrinkable (deletions_of deltas.now) (map C.call calls.now))
        (IsFirstNotShrinkable (deletions_of deltas.now) (map C.call calls.now)) }
{
    let sites = shrinkable_sites_len(deltas, calls);
    let first = shrinkable_targets_len(&calls[..sites]);
    if first < calls.len() {
        Some(first)
    } else {
        None
    }
}

/// Whether `shrink_calls` accepts the calls: their sites ascend by at least 8, the eight bytes at
/// each site are kept, the four bytes after each call's first instruction may be deleted all
/// together, and no target is strictly inside four such bytes.
pub fn calls_shrinkable(deltas: &SectionRelaxDeltas, calls: &[(u64, u64)]) -> bool
    ensures { IsTrue result ↔ AreShrinkable deltas.now calls.now }
{
    first_not_shrinkable(deltas.deltas(), calls).is_none()
}

/// `shrink_calls` into memory of the caller's: an element for each call, `true` or 1 where it is
/// chosen, and else `false` or 0.
///
/// Requires calls that `first_not_shrinkable` accepts, and as many elements as calls. The deltas
/// are as `SectionRelaxDeltas::deltas` lists them (`DeltaSlice::has_valid_deltas`). With others the
/// call is safe, but what it writes isn't specified. It takes 9 KiB of the stack.
///
/// All calls are chosen at first. Sweeps over them, up and down in turn, drop those out of reach
/// until one sweep drops none. Their order doesn't matter, since more deletions never take a call
/// out of reach. Where each drop takes the next call above out of reach, or each the next one
/// below, three sweeps do. A chain that turns around n times may take n sweeps. For k calls and n
/// deltas a test of a call takes O(log n + log k + k / 1024): the chosen calls between a site and
/// its target are counted by runs of k / 1024 calls, and only where the call is in reach with all
/// of them and out of reach with none.
pub fn shrink_calls_into<C: AsCall, A: AsChoice>(
    deltas: &[RelaxDelta],
    calls: &[C],
    answer: &mut [A],
)
    requires one_each { length answer.old ≡ length calls.now }
    requires shrinkable { AreValidDeltas deltas.now
        → AreShrinkable (deletions_of deltas.now) (map C.call calls.now) }
    ensures greatest { AreValidDeltas deltas.now
        → IsGreatest (deletions_of deltas.now) (map C.call calls.now) (map A.choice answer.new) }
    ensures written { All A.is_written answer.new }
{
    choose_all(answer);
    let mut runs = Runs::of(answer);
    let mut down = false;
    while sweep(deltas, calls, answer, &mut runs, down) {
        down = !down;
    }
}

/// Which calls can become jumps at once: for each call whether it is chosen, so that the four bytes
/// after its first instruction go (RISC-V ELF psABI, "Function Call Relaxation").
///
/// A choice of calls is in reach where, once each of them has lost its four bytes and the
/// deltas' bytes are gone too, the distance from each one's site to its target is even and in the
/// range of `jal`. The choice that is returned is the greatest: each choice in reach is part of it.
/// So it deletes the most bytes, and once its deletions (site + 4, 4) are merged, `pack_section`
/// rejects none of its calls for its distance (`shrunk_calls_are_accepted`).
///
/// Requires calls that `calls_shrinkable` accepts. It allocates once, for what it returns, before
/// anything else. `shrink_calls_into` says how long it takes. `relax` of a run, which knows of
/// alignments and of other sites, is the call for a linker.
pub fn shrink_calls(
    alloc: Global,
    deltas: &SectionRelaxDeltas,
    calls: &[(u64, u64)],
) -> Result<Vec<bool>, OutOfMemory>
    requires { AreShrinkable deltas.now calls.now }
    ensures { IfOk result (λ chosen. IsGreatest deltas.now calls.now chosen.items) }
{
    let mut chosen = vec![in alloc; false; calls.len()]?;
    shrink_calls_into(deltas.deltas(), calls, &mut chosen);
    Ok(chosen)
}

/// Once the four bytes of each chosen call of a choice in reach are deleted too, `pack_section` and
/// `pack_into` reject no chosen call with `OddDistance` or `TooFar`.
pub fn shrunk_calls_are_accepted()
    ensures { ShrunkCallsAreAccepted }
{}
