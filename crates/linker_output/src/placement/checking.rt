//! Whether stubs can be placed in code, and whether those that are placed reach their targets.

ghost use Rattle.std.specs.Prelude.{◌≡◌, ◌*◌, ◌<◌, ◌≤◌, ◌^◌, ◌↔◌, ℕ, IsTrue, length, true};
ghost use Rattle.std.specs.Prelude.{false, IfOk, IfErr, IfSome, IfNone};
ghost use Rattle.linker_output.specs.Placement.{branch_at, at, IsAscending, IsCode, IsDescent};
ghost use Rattle.linker_output.specs.Placement.{HasTarget, IsLayout, IsPlaceCause, StubReaches};
ghost use Rattle.linker_output.specs.Placement.{most_bytes};

use super::laying::reaches;
use super::{Code, LIMIT, Layout, PlaceError};

/// Whether numbers are below 2^62.
fn are_low(numbers: &[u64]) -> bool
    ensures low { result ≡ true → (k : ℕ) → at numbers.now k < 2 ^ 62 }
    ensures high { result ≡ false → (k : ℕ) × (2 ^ 62 ≤ at numbers.now k) }
{
    for number in numbers {
        if *number >= LIMIT {
            return false;
        }
    }
    true
}

/// The first index of a boundary that is above the next one.
fn first_descent(boundaries: &[u64]) -> Option<usize>
    ensures none { IfNone result (IsAscending boundaries.now) }
    ensures some { IfSome result (λ k. IsDescent boundaries.now k
        × ((j : ℕ) → j < k → ¬ IsDescent boundaries.now j)) }
{
    for index in 0..boundaries.len() {
        if index > 0 && boundaries[index] < boundaries[index - 1] {
            return Some(index - 1);
        }
    }
    None
}

impl Code<'_> {
    /// Whether the offsets of branches are below 2^62.
    fn has_low_branches(&self) -> bool
        ensures low { result ≡ true
            → (i : ℕ) → (branch_at self.now.branches.now i).offset < 2 ^ 62 }
        ensures high { result ≡ false
            → (i : ℕ) × (2 ^ 62 ≤ (branch_at self.now.branches.now i).offset) }
    {
        for branch in self.branches {
            if branch.offset >= LIMIT {
                return false;
            }
        }
        true
    }

    /// The first branch whose target isn't in the table.
    fn first_without_target(&self) -> Option<usize>
        ensures none { IfNone result
            ((i : ℕ) → i < length self.now.branches.now → HasTarget self.now i) }
        ensures some { IfSome result (λ i. (i < length self.now.branches.now)
            × (¬ HasTarget self.now i) × ((j : ℕ) → j < i → HasTarget self.now j)) }
    {
        for (index, branch) in self.branches.iter().enumerate() {
            if branch.target >= self.targets.len() {
                return Some(index);
            }
        }
        None
    }

    /// Whether the bytes of all stubs that there may be are below 2^62.
    fn has_room(&self) -> bool
        requires { 0 < self.now.shape.len }
        ensures { IsTrue result ↔ most_bytes self.now < 2 ^ 62 }
    {
        let stubs = (self.branches.len() as u64)
            .saturating_mul(2)
            .saturating_add(1);
        let bytes = self.shape.len.saturating_mul(stubs);
        let units = self.shape.unit.saturating_mul(self.boundaries.len() as u64);
        units.saturating_add(bytes) < LIMIT
    }

    /// Whether stubs can be placed in the code.
    pub(super) fn check(&self) -> Result<(), PlaceError>
        ensures ok { IfOk result (λ _. IsCode self.now) }
        ensures err { IfErr result (IsPlaceCause self.now) }
    {
        if self.shape.len == 0 || self.shape.unit == 0 {
            return Err(PlaceError::NoLength);
        }
        if let Some(index) = first_descent(self.boundaries) {
            return Err(PlaceError::NotAscending(index));
        }
        if let Some(index) = self.first_without_target() {
            return Err(PlaceError::NoTarget(index));
        }
        if !self.has_low_branches()
            || !are_low(self.targets)
            || !are_low(self.boundaries)
            || !self.has_room()
        {
            return Err(PlaceError::TooLong);
        }
        Ok(())
    }
}

impl Layout {
    /// Whether a stub reaches its target.
    fn reaches(&self, code: &Code<'_>, index: usize) -> bool
        requires code { IsCode code.now }
        requires layout { IsLayout code.now self.now }
        requires fits { (k : ℕ) → at self.now.before.items k < 2 ^ 62 }
        requires within { index < length self.now.stubs.items }
        ensures { IsTrue result ↔ StubReaches code.now self.now index }
    {
        let shape = code.shape;
        let stub = self.stubs[index];
        let target = code.moved(&self.before, code.targets[stub.target]);
        reaches(
            shape.max_backward,
            shape.max_forward,
            self.places[index],
            target,
        )
    }

    /// The first stub that doesn't reach its target.
    pub(super) fn first_short(&self, code: &Code<'_>) -> Option<usize>
        requires code { IsCode code.now }
        requires layout { IsLayout code.now self.now }
        requires fits { (k : ℕ) → at self.now.before.items k < 2 ^ 62 }
        ensures none { IfNone result ((j : ℕ) → j < length self.now.stubs.items
            → StubReaches code.now self.now j) }
        ensures some { IfSome result (λ j. (j < length self.now.stubs.items)
            × (¬ StubReaches code.now self.now j)
            × ((k : ℕ) → k < j → StubReaches code.now self.now k)) }
    {
        for index in 0..self.stubs.len() {
            if !self.reaches(code, index) {
                return Some(index);
            }
        }
        None
    }
}
