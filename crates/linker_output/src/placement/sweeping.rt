//! Stubs are added until each branch reaches what it goes by.

ghost use Rattle.std.specs.Prelude.{◌≡◌, ◌+◌, ◌<◌, ◌≤◌, ◌^◌, ℕ, length, IfOk, MatchOption};
ghost use Rattle.std.specs.Prelude.{true, false};
ghost use Rattle.linker_output.specs.Placement.{HasPart, IsCode, IsLaidOut, at, most_bytes};
ghost use Rattle.linker_output.specs.Placement.{stub_at};
ghost use Rattle.linker_output.specs.Inner.Placement.{IsState, ArePlaces, IsStuckIn};
ghost use Rattle.linker_output.specs.Inner.Placement.{AreServed, Swept, Visited};

use super::laying::lay_out;
use super::{Code, MOST_PASSES, State, Sweep, Visit, Way};
use linker_base::relaxation::OutOfMemory;

impl State {
    /// Has a branch that is lost by a layout go by another stub. If it is `late`, also one that may
    /// be lost by the stubs to come.
    fn visit(
        &mut self,
        code: &Code<'_>,
        before: &[u64],
        places: &[u64],
        late: bool,
        index: usize,
    ) -> Result<Visit, OutOfMemory>
        requires code { IsCode code.now }
        requires state { IsState code.now self.old }
        requires within { index < length code.now.branches.now }
        requires one_more { length before.now ≡ length code.now.boundaries.now + 1 }
        requires fits { (k : ℕ) → at before.now k < 2 ^ 62 }
        requires most { (k : ℕ) → at before.now k ≤ most_bytes code.now }
        ensures state { IfOk result (λ _. IsState code.now self.new) }
        ensures may_share { IfOk result (λ _. self.new.may_share ≡ self.old.may_share) }
        ensures visited { IfOk result
            (λ visit. Visited code.now before.now places.now self.old self.new index visit) }
    {
        let branch = code.branches[index];
        let way = self.ways[index];
        let lost = code.is_lost(before, places, &branch, way);
        if let Way::Near(_) = way {
            self.note(code, index);
            return Ok(Visit::Served);
        }
        if lost {
            if self.raise(code, before, places, index)? {
                return Ok(Visit::Raised);
            }
            return Ok(Visit::Lost);
        }
        if late && !code.has_spare(&branch) {
            if self.raise(code, before, places, index)? {
                return Ok(Visit::Raised);
            }
        }
        self.note(code, index);
        Ok(Visit::Served)
    }

    /// Has the branches that are lost by a layout go by other stubs. If it is `late`, also those
    /// that may be lost by the stubs to come.
    fn sweep(
        &mut self,
        code: &Code<'_>,
        before: &[u64],
        places: &[u64],
        late: bool,
    ) -> Result<Sweep, OutOfMemory>
        requires code { IsCode code.now }
        requires state { IsState code.now self.old }
        requires laid_out { IsLaidOut code.now.shape self.old.groups.items before.now }
        requires fits { (k : ℕ) → at before.now k < 2 ^ 62 }
        requires most { (k : ℕ) → at before.now k ≤ most_bytes code.now }
        requires places { ArePlaces code.now self.old before.now places.now }
        ensures state { IfOk result (λ _. IsState code.now self.new) }
        ensures may_share { IfOk result (λ _. self.new.may_share ≡ self.old.may_share) }
        ensures swept { IfOk result
            (λ sweep. Swept code.now before.now places.now self.old self.new sweep) }
    {
        let mut changed = false;
        for index in 0..code.branches.len() {
            match self.visit(code, before, places, late, index)? {
                Visit::Served => {}
                Visit::Raised => changed = true,
                Visit::Lost => {
                    if !changed {
                        return Ok(Sweep::Stuck(index));
                    }
                }
            }
        }
        if changed {
            Ok(Sweep::Changed)
        } else {
            Ok(Sweep::Settled)
        }
    }

    /// Where each stub is.
    fn find_places(
        &self,
        code: &Code<'_>,
        before: &[u64],
        places: &mut Vec<u64>,
    ) -> Result<(), OutOfMemory>
        requires code { IsCode code.now }
        requires groups { length self.now.groups.items ≡ length code.now.boundaries.now }
        requires parts { (j : ℕ) → j < length self.now.stubs.items
            → HasPart code.now self.now.groups.items (stub_at self.now.stubs.items j) }
        requires laid_out { IsLaidOut code.now.shape self.now.groups.items before.now }
        requires fits { (k : ℕ) → at before.now k < 2 ^ 62 }
        ensures { IfOk result (λ _. ArePlaces code.now self.now before.now places.new.items) }
    {
        places.clear();
        for stub in &self.stubs {
            places.push(code.place_of(&self.groups, before, stub))?;
        }
        Ok(())
    }

    /// Adds stubs until each branch reaches what it goes by. After `MOST_PASSES` passes also those
    /// go by other stubs that may be lost by the stubs to come, so that there are few further
    /// passes. It returns none, or the index of a branch that reaches nothing and no boundary.
    pub(super) fn settle(
        &mut self,
        code: &Code<'_>,
        before: &mut [u64],
        places: &mut Vec<u64>,
    ) -> Result<Option<usize>, OutOfMemory>
        requires code { IsCode code.now }
        requires state { IsState code.now self.old }
        requires one_more { length before.old ≡ length code.now.boundaries.now + 1 }
        ensures state { IfOk result (λ _. IsState code.now self.new) }
        ensures may_share { IfOk result (λ _. self.new.may_share ≡ self.old.may_share) }
        ensures laid_out { IfOk result
            (λ _. IsLaidOut code.now.shape self.new.groups.items before.new) }
        ensures fits { IfOk result (λ _. (k : ℕ) → at before.new k < 2 ^ 62) }
        ensures places { IfOk result
            (λ _. ArePlaces code.now self.new before.new places.new.items) }
        ensures settled { IfOk result (λ stuck.
            MatchOption stuck (AreServed code.now before.new places.new.items self.new.ways.items
            (length code.now.branches.now))
            (λ i. IsStuckIn code.now before.new places.new.items self.new i
            × AreServed code.now before.new places.new.items self.new.ways.items i)) }
    {
        let mut passes = 0;
        loop {
            lay_out(&code.shape, &self.groups, before);
            self.find_places(code, before, places)?;
            let late = if passes < MOST_PASSES {
                passes += 1;
                false
            } else {
                true
            };
            match self.sweep(code, before, places, late)? {
                Sweep::Settled => return Ok(None),
                Sweep::Stuck(index) => return Ok(Some(index)),
                Sweep::Changed => {}
            }
        }
    }
}
