//! The cursor that translates offsets in one walk through the deletions.

ghost use Rattle.std.specs.Prelude.{◌≡◌, ◌-◌, ◌≤◌, ◌↔◌, IsTrue, length, map};
ghost use Rattle.linker_base.specs.Deletions.{rank};
ghost use Rattle.linker_base.specs.Deltas.{deletion_of};
ghost use Rattle.linker_base.specs.Listed.{AreValidDeltas};
ghost use Rattle.linker_base.specs.Walk.{Walk, passed_bytes, walk_to, walk_through, IsAhead};
ghost use Rattle.linker_base.specs.Walk.{CanTranslate, AreAhead};

use super::RelaxDelta;
use super::delta_slice::DeltaSlice;
use super::walk::Reached;
use std::marker::Model;

/// A walk through the deletions of a section, for offsets that are translated in order.
///
/// A query passes the deltas at offsets strictly below it, and none is passed again: over a whole
/// walk the cost is O(n + q) for n deltas and q queries. Contracts see the list of deletions and
/// how many of them are passed.
#[derive(Drop)]
pub struct RelaxCursor<'a> {
    deltas: &'a [RelaxDelta],
    reached: Reached<'a>,
}

impl<'a> Model for RelaxCursor<'a> {
    ghost use Rattle.std.specs.Prelude.{map};
    ghost use Rattle.linker_base.specs.Deltas.{deletion_of};
    ghost use Rattle.linker_base.specs.Walk.{Walk};
    ghost use Rattle.linker_base.specs.Inner.Listed.{IsWalking, passed_in};

    ghost Value = { Walk };

    ghost view = { λ cursor. record {
      deletions = map deletion_of cursor.deltas.now;
      passed = passed_in cursor.deltas.now cursor.reached;
    } };

    ghost invariant = { λ cursor. IsWalking cursor.deltas.now cursor.reached };
}

impl<'a> RelaxCursor<'a> {
    // A cursor before the first of the deltas.
    pub(super) fn new(deltas: &'a [RelaxDelta]) -> RelaxCursor<'a>
        requires { AreValidDeltas deltas.now }
        ensures { result ≡ record { deletions = map deletion_of deltas.now; passed = 0 } }
    {
        RelaxCursor {
            deltas,
            reached: Reached::new(deltas),
        }
    }

    /// The output offset of `input_offset`, as `SectionRelaxDeltas::input_to_output_offset` returns
    /// it, where all deltas that were passed before begin strictly below it. Of a lower offset, a
    /// step back, it is `input_offset` less the bytes of all passed deltas.
    ///
    /// Requires that a step back is at least these bytes, as `can_translate` tests.
    #[inline]
    pub fn translate(&mut self, input_offset: u64) -> u64
        requires { CanTranslate self.old input_offset }
        ensures walks { self.new ≡ walk_to self.old input_offset }
        ensures keeps { self.new.deletions ≡ self.old.deletions }
        ensures ahead { IsAhead self.old input_offset
            → result ≡ rank self.old.deletions input_offset }
        ensures step_back { ¬ (IsAhead self.old input_offset)
            → result ≡ input_offset - passed_bytes self.new }
    {
        if self.reached.next < input_offset {
            // no step back: what was passed before begins below what is passed now
            self.reached.pass(input_offset);
            return input_offset.max(self.reached.end) - self.reached.deleted;
        }
        if input_offset < self.reached.end && self.is_ahead(input_offset) {
            return self.reached.end - self.reached.deleted;
        }
        input_offset - self.reached.deleted
    }

    /// Whether `input_offset` may be given to `translate`.
    #[inline]
    pub fn can_translate(&self, input_offset: u64) -> bool
        ensures { IsTrue result ↔ CanTranslate self.now input_offset }
    {
        self.is_ahead(input_offset) || self.reached.deleted <= input_offset
    }

    /// Writes the output offset of each of the queries, in order, at its index in `out`.
    ///
    /// Requires `out` as long as `queries`, queries that don't decrease, and that each delta
    /// already passed begins strictly below the first query, as `can_translate_all` tests except
    /// for the lengths. One pass takes O(n + q).
    pub fn translate_all(&mut self, queries: &[u64], out: &mut [u64])
        requires same_length { length queries.now ≡ length out.old }
        requires ahead { AreAhead self.old queries.now }
        ensures ranks { out.new ≡ map (rank self.old.deletions) queries.now }
        ensures walks { self.new ≡ walk_through self.old queries.now }
        ensures keeps { self.new.deletions ≡ self.old.deletions }
    {
        self.reached.walk(queries, out);
    }

    /// Whether the queries may be given to `translate_all`, with as long an `out`.
    pub fn can_translate_all(&self, queries: &[u64]) -> bool
        ensures { IsTrue result ↔ AreAhead self.now queries.now }
    {
        DeltaSlice::can_translate_all(queries) && (queries.is_empty() || self.is_ahead(queries[0]))
    }

    /// How many deltas were passed since the cursor was made: the turns of the loop that passes
    /// them.
    pub fn turns(&self) -> usize
        ensures passed { result ≡ self.now.passed }
        ensures within { result ≤ length self.now.deletions }
    {
        self.deltas.len() - self.reached.rest.as_slice().len()
    }

    // Whether all deltas that are passed begin strictly below the offset: the last one decides, and
    // its end where the offset lies past that.
    #[inline]
    fn is_ahead(&self, input_offset: u64) -> bool
        ensures { IsTrue result ↔ IsAhead self.now input_offset }
    {
        if self.reached.end < input_offset {
            return true;
        }
        match self.turns().checked_sub(1) {
            Some(last) => self.deltas[last].input_offset < input_offset,
            None => true,
        }
    }
}
