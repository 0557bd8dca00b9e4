//! A walk through deltas, for offsets that don't decrease.

ghost use Rattle.std.specs.Prelude.{◌≡◌, ◌-◌, ◌<◌, ◌^◌, ℕ, List, length, map};
ghost use Rattle.std.specs.Prelude.{slice_index_or};
ghost use Rattle.linker_base.specs.declared.relaxation.RelaxDelta.{RelaxDelta};
ghost use Rattle.linker_base.specs.Deletions.{rank};
ghost use Rattle.linker_base.specs.Deltas.{deletion_of};
ghost use Rattle.linker_base.specs.Listed.{AreValidDeltas};
ghost use Rattle.linker_base.specs.Inner.Listed.{IsWalked, passed_in};
ghost use Rattle.linker_base.specs.Walk.{walk_at, walk_to, walk_through, AreAhead};

use super::RelaxDelta;
use std::slice::Iter;

// How far a walk has come.
#[derive(Drop)]
pub(super) struct Reached<'a> {
    // The deltas that it hasn't passed.
    pub rest: Iter<'a, RelaxDelta>,
    // Where the first of them begins, or `u64::MAX` where there is none.
    pub next: u64,
    // The bytes of those that it has passed.
    pub deleted: u64,
    // Where the last of these ends.
    pub end: u64,
}

// Where the first of some deltas begins, or `u64::MAX` where there is none.
#[inline(always)]
fn first_offset(deltas: &[RelaxDelta]) -> u64
    ensures first { (d : RelaxDelta) → 0 < length deltas.now
        → result ≡ (slice_index_or deltas.now 0 d).input_offset }
    ensures none { length deltas.now ≡ 0 → result ≡ 2 ^ 64 - 1 }
{
    match deltas.first() {
        Some(delta) => delta.input_offset,
        None => u64::MAX,
    }
}

impl<'a> Reached<'a> {
    // Before the first of the deltas.
    #[inline]
    pub(super) fn new(deltas: &'a [RelaxDelta]) -> Reached<'a>
        ensures { IsWalked deltas.now 0 result }
    {
        Reached {
            rest: deltas.iter(),
            next: first_offset(deltas),
            deleted: 0,
            end: 0,
        }
    }

    // Passes the deltas that begin strictly below the offset.
    #[inline]
    pub(super) fn pass(&mut self, offset: u64)
        ensures { (deltas : List RelaxDelta) (k : ℕ) → AreValidDeltas deltas
            → IsWalked deltas k self.old
            → IsWalked deltas (walk_to (walk_at (map deletion_of deltas) k) offset).passed self.new }
    {
        while self.next < offset {
            let Some(delta) = self.rest.next() else {
                break;
            };
            self.deleted = delta.cumulative_deleted;
            self.end = self.next.wrapping_add(u64::from(delta.bytes_deleted));
            self.next = first_offset(self.rest.as_slice());
        }
    }

    // Passes deltas for each query, and writes its output offset.
    #[inline]
    pub(super) fn walk(&mut self, queries: &[u64], out: &mut [u64])
        requires { length queries.now ≡ length out.old }
        ensures walked { (deltas : List RelaxDelta) (k : ℕ) → AreValidDeltas deltas
            → IsWalked deltas k self.old → IsWalked deltas (passed_in deltas self.new) self.new }
        ensures passed { (deltas : List RelaxDelta) (k : ℕ) → AreValidDeltas deltas
            → IsWalked deltas k self.old
            → walk_at (map deletion_of deltas) (passed_in deltas self.new)
            ≡ walk_through (walk_at (map deletion_of deltas) k) queries.now }
        ensures ranks { (deltas : List RelaxDelta) (k : ℕ) → AreValidDeltas deltas
            → IsWalked deltas k self.old
            → AreAhead (walk_at (map deletion_of deltas) k) queries.now
            → out.new ≡ map (rank (map deletion_of deltas)) queries.now }
    {
        for (at, &query) in queries.iter().enumerate() {
            self.pass(query);
            out[at] = query.max(self.end).wrapping_sub(self.deleted);
        }
    }
}
