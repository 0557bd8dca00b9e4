//! Where stubs are, and what branches reach, by how many stubs there are at each boundary.

ghost use Rattle.std.specs.Prelude.{◌≡◌, ◌+◌, ◌*◌, ◌<◌, ◌≤◌, ◌^◌, ◌↔◌, ℕ, IsTrue, length, true};
ghost use Rattle.std.specs.Prelude.{false};
ghost use Rattle.std.specs.List.{sum_by};
ghost use Rattle.linker_output.specs.Placement.{Reaches, passed, size_of, stubs_in, IsLaidOut};
ghost use Rattle.linker_output.specs.Placement.{place_of, at, IsAscending, HasPart, ReachesAt};
ghost use Rattle.linker_output.specs.Placement.{moved, most_bytes, HasSpare, IsCode};
ghost use Rattle.linker_output.specs.Inner.Placement.{IsNear, IsLostBy, IsServedBy};
ghost use Rattle.linker_output.specs.declared.placement.Way.TheVariants.{Near, Far};

use super::{Branch, Code, Group, Part, StubAt, StubShape, Way};

/// Whether a target is in reach.
#[inline(always)]
pub(super) fn reaches(max_backward: u64, max_forward: u64, from: u64, to: u64) -> bool
    ensures { IsTrue result ↔ Reaches max_backward max_forward from to }
{
    if from <= to {
        to - from < max_forward
    } else {
        from - to <= max_backward
    }
}

/// How many boundaries are at or below an offset.
pub(super) fn passed(boundaries: &[u64], offset: u64) -> usize
    requires { IsAscending boundaries.now }
    ensures passed { result ≡ passed boundaries.now offset }
    ensures within { result ≤ length boundaries.now }
{
    let mut low = 0;
    let mut high = boundaries.len();
    while low < high {
        let middle = low + (high - low) / 2;
        if boundaries[middle] <= offset {
            low = middle + 1;
        } else {
            high = middle;
        }
    }
    low
}

impl StubShape {
    /// How many bytes the stubs at a boundary take.
    #[inline(always)]
    fn size_of(&self, group: Group) -> u64
        requires unit { 0 < self.now.unit }
        requires len { 0 < self.now.len }
        requires fits { self.now.len * stubs_in group + self.now.unit < 2 ^ 63 }
        ensures { result ≡ size_of self.now group }
    {
        let stubs = group.front + group.middle + group.back;
        let bytes = self.len * stubs;
        bytes + (self.unit - bytes % self.unit) % self.unit
    }
}

/// How many bytes of stubs there are before those at each boundary, and at the end how many in all.
pub(super) fn lay_out(shape: &StubShape, groups: &[Group], before: &mut [u64])
    requires unit { 0 < shape.now.unit }
    requires len { 0 < shape.now.len }
    requires one_more { length before.old ≡ length groups.now + 1 }
    requires fits { shape.now.unit * length groups.now + shape.now.len * sum_by stubs_in groups.now
        < 2 ^ 62 }
    ensures laid_out { IsLaidOut shape.now groups.now before.new }
    ensures fits { (k : ℕ) → at before.new k < 2 ^ 62 }
    ensures most { (k : ℕ) → at before.new k
        ≤ shape.now.unit * length groups.now + shape.now.len * sum_by stubs_in groups.now }
{
    let mut bytes = 0;
    for index in 0..groups.len() {
        before[index] = bytes;
        bytes += shape.size_of(groups[index]);
    }
    before[groups.len()] = bytes;
}

impl Code<'_> {
    /// Where what was at an offset is.
    #[inline(always)]
    pub(super) fn moved(&self, before: &[u64], offset: u64) -> u64
        requires ascending { IsAscending self.now.boundaries.now }
        requires one_more { length before.now ≡ length self.now.boundaries.now + 1 }
        requires offset { offset < 2 ^ 62 }
        requires fits { (k : ℕ) → at before.now k < 2 ^ 62 }
        ensures { result ≡ moved self.now.boundaries.now before.now offset }
    {
        offset + before[passed(self.boundaries, offset)]
    }

    /// Where a stub is.
    pub(super) fn place_of(&self, groups: &[Group], before: &[u64], stub: &StubAt) -> u64
        requires code { IsCode self.now }
        requires groups { length groups.now ≡ length self.now.boundaries.now }
        requires laid_out { IsLaidOut self.now.shape groups.now before.now }
        requires fits { (k : ℕ) → at before.now k < 2 ^ 62 }
        requires part { HasPart self.now groups.now stub.now }
        ensures { result ≡ place_of self.now groups.now before.now stub.now }
    {
        let start = self.boundaries[stub.boundary] + before[stub.boundary];
        let group = groups[stub.boundary];
        match stub.part {
            Part::Front => start + self.shape.len * stub.index,
            Part::Middle => start + self.shape.len * (group.front + stub.index),
            Part::Back => {
                let end = self.boundaries[stub.boundary] + before[stub.boundary + 1];
                end - self.shape.len * (stub.index + 1)
            }
        }
    }

    /// Whether a stub at the boundary next to a branch is in its reach.
    pub(super) fn is_near(&self, branch: &Branch, stub: &StubAt) -> bool
        requires code { IsCode self.now }
        requires offset { branch.now.offset < 2 ^ 62 }
        requires boundary { stub.now.boundary < length self.now.boundaries.now }
        requires index { self.now.shape.len * (stub.now.index + 1) < 2 ^ 62 }
        ensures { IsTrue result ↔ IsNear self.now branch.now stub.now }
    {
        let ahead = passed(self.boundaries, branch.offset);
        let boundary = self.boundaries[stub.boundary];
        match stub.part {
            Part::Front => {
                stub.boundary == ahead
                    && reaches(
                        branch.max_backward,
                        branch.max_forward,
                        branch.offset,
                        boundary + self.shape.len * stub.index,
                    )
            }
            Part::Middle => false,
            Part::Back => {
                stub.boundary + 1 == ahead
                    && reaches(
                        branch.max_backward,
                        branch.max_forward,
                        branch.offset + self.shape.len * (stub.index + 1),
                        boundary,
                    )
            }
        }
    }

    /// Whether a branch reaches an address by a layout.
    pub(super) fn reaches_at(&self, before: &[u64], branch: &Branch, place: u64) -> bool
        requires code { IsCode self.now }
        requires one_more { length before.now ≡ length self.now.boundaries.now + 1 }
        requires fits { (k : ℕ) → at before.now k < 2 ^ 62 }
        requires offset { branch.now.offset < 2 ^ 62 }
        ensures { IsTrue result ↔ ReachesAt self.now before.now branch.now place }
    {
        let from = self.moved(before, branch.offset);
        reaches(branch.max_backward, branch.max_forward, from, place)
    }

    /// Whether a branch reaches neither its target nor the stub by which it goes, if that has a
    /// place.
    pub(super) fn is_lost(&self, before: &[u64], places: &[u64], branch: &Branch, way: Way) -> bool
        requires code { IsCode self.now }
        requires one_more { length before.now ≡ length self.now.boundaries.now + 1 }
        requires fits { (k : ℕ) → at before.now k < 2 ^ 62 }
        requires offset { branch.now.offset < 2 ^ 62 }
        requires target { branch.now.target < length self.now.targets.now }
        ensures lost { result ≡ true → IsLostBy self.now before.now places.now branch.now way }
        ensures served { result ≡ false → IsServedBy self.now before.now places.now branch.now way }
    {
        let target = self.moved(before, self.targets[branch.target]);
        if self.reaches_at(before, branch, target) {
            return false;
        }
        match way {
            Way::Direct => true,
            Way::Far(stub) | Way::Near(stub) => {
                stub < places.len() && !self.reaches_at(before, branch, places[stub])
            }
        }
    }

    /// How many bytes all stubs take that there may be.
    fn most_bytes(&self) -> u64
        requires { IsCode self.now }
        ensures { result ≡ most_bytes self.now }
    {
        let stubs = 2 * self.branches.len() as u64 + 1;
        self.shape.unit * self.boundaries.len() as u64 + self.shape.len * stubs
    }

    /// Whether a branch reaches its target also with the bytes of all stubs in between.
    pub(super) fn has_spare(&self, branch: &Branch) -> bool
        requires code { IsCode self.now }
        requires offset { branch.now.offset < 2 ^ 62 }
        requires target { branch.now.target < length self.now.targets.now }
        ensures { IsTrue result ↔ HasSpare self.now branch.now }
    {
        let target = self.targets[branch.target];
        let most = self.most_bytes();
        target + most < branch.offset.saturating_add(branch.max_forward)
            && branch.offset + most <= target.saturating_add(branch.max_backward)
    }
}
