//! What is tested of the items of a run.

ghost use Rattle.std.specs.Prelude.{◌≡◌, ◌+◌, ◌<◌, ◌≤◌, ◌^◌, ◌↔◌, ℕ, length, IsTrue};
ghost use Rattle.std.specs.Int.{IsPowerOfTwo};
ghost use Rattle.linker_runs.specs.declared.relaxation.faults.Fault.TheVariants.{ShapeTooLong};
ghost use Rattle.linker_runs.specs.declared.relaxation.faults.Fault.TheVariants.{ShapesNotAscending};
ghost use Rattle.linker_runs.specs.declared.relaxation.faults.Fault.TheVariants.{BadGranularity};
ghost use Rattle.linker_runs.specs.declared.relaxation.faults.Fault.TheVariants.{BadReach};
ghost use Rattle.linker_runs.specs.declared.relaxation.faults.Fault.TheVariants.{TooFewNops};
ghost use Rattle.linker_runs.specs.declared.relaxation.faults.Fault.TheVariants.{UnevenNops};
ghost use Rattle.linker_runs.specs.Relaxing.{end_of, short_shape, IsSound, AreInOrder};
ghost use Rattle.linker_runs.specs.Relaxing.{item_at, offset_of};
ghost use Rattle.linker_runs.specs.Choosing.{item_granularity, run_granularity, shapes_granularity};
ghost use Rattle.linker_runs.specs.Choosing.{FreesMultiples, IsAlwaysMultiple, AreAlwaysEnough};
ghost use Rattle.linker_runs.specs.Choosing.{least_len, ShapesFit, IsFormed, IsAnchor, HasItsNops};
ghost use Rattle.linker_runs.specs.Choosing.{HasUnit, IsStill};
ghost use Rattle.linker_runs.specs.Faults.{ShapesMeet, AlignmentMeets};
ghost use Rattle.linker_runs.specs.Inner.Validity.{IsClearRun};

use super::{Alignment, Item, Shapes, remainder};
use crate::items::ItemList;

/// Whether a number is a power of two.
#[inline]
pub(super) fn is_power_of_two(number: u64) -> bool
    ensures { IsTrue result ↔ IsPowerOfTwo number }
{
    number.is_power_of_two()
}

impl Shapes {
    /// Whether no shape keeps more than n bytes.
    #[inline]
    pub(super) fn are_within(&self, len: u64) -> bool
        requires { self.now.count ≤ 2 }
        ensures { IsTrue result ↔ ShapesMeet self.now len ShapeTooLong }
    {
        u64::from(self.longest) <= len
            && (self.count < 1 || u64::from(self.short[0].kept) <= len)
            && (self.count < 2 || u64::from(self.short[1].kept) <= len)
    }

    /// Whether each short shape keeps fewer bytes than the next.
    #[inline]
    pub(super) fn are_ascending(&self) -> bool
        requires { self.now.count ≤ 2 }
        ensures { (len : ℕ) → IsTrue result ↔ ShapesMeet self.now len ShapesNotAscending }
    {
        (self.count < 1 || self.kept_by(0) < self.kept_by(1))
            && (self.count < 2 || self.kept_by(1) < self.kept_by(2))
    }

    /// Whether the short shape at an index, if there is one, has a power of two as its granularity.
    #[inline]
    fn has_granularity(&self, shape: u8) -> bool
        requires { shape < 2 }
        ensures { IsTrue result
            ↔ (shape < self.now.count → HasUnit (short_shape self.now shape)) }
    {
        shape >= self.count
            || is_power_of_two(u64::from(self.short[usize::from(shape)].granularity))
    }

    /// Whether all units are powers of two.
    #[inline]
    fn have_powers(&self) -> bool
        requires { self.now.count ≤ 2 }
        ensures { IsTrue result
            ↔ ((k : ℕ) → k < self.now.count → HasUnit (short_shape self.now k)) }
    {
        self.has_granularity(0) && self.has_granularity(1)
    }

    /// Whether the second granularity, if there is one, is no greater than the first.
    #[inline]
    fn units_descend(&self) -> bool
        requires { self.now.count ≤ 2 }
        ensures { IsTrue result ↔ (1 < self.now.count
            → (short_shape self.now 1).granularity ≤ (short_shape self.now 0).granularity) }
    {
        let [first, second] = &self.short;
        self.count < 2 || second.granularity <= first.granularity
    }

    /// Whether the units are powers of two, none less than the next.
    #[inline]
    pub(super) fn have_units(&self) -> bool
        requires { self.now.count ≤ 2 }
        ensures { (len : ℕ) → IsTrue result ↔ ShapesMeet self.now len BadGranularity }
    {
        self.have_powers() && self.units_descend()
    }

    /// Whether each short shape reaches its own offset, and none farther than the next.
    #[inline]
    pub(super) fn have_reaches(&self) -> bool
        requires { self.now.count ≤ 2 }
        ensures { (len : ℕ) → IsTrue result ↔ ShapesMeet self.now len BadReach }
    {
        let [first, second] = &self.short;
        (self.count < 1 || first.max_forward > 0)
            && (self.count < 2
                || second.max_forward > 0
                    && first.max_backward <= second.max_backward
                    && first.max_forward <= second.max_forward)
    }

    /// Whether each shape of a site of n bytes frees a multiple of a granularity.
    #[inline]
    pub(super) fn are_even(&self, granularity: u64, len: u64) -> bool
        requires granularity { 0 < granularity }
        requires count { self.now.count ≤ 2 }
        requires within { ShapesMeet self.now len ShapeTooLong }
        ensures { IsTrue result ↔ ShapesFit granularity len self.now }
    {
        remainder(len - self.kept_by(0), granularity) == 0
            && remainder(len - self.kept_by(1), granularity) == 0
            && remainder(len - self.kept_by(2), granularity) == 0
    }

    /// The greatest granularity of the short ones, and 1 where there is none.
    #[inline]
    fn granularity(&self) -> u64
        requires { self.now.count ≤ 2 }
        ensures { result ≡ shapes_granularity self.now }
    {
        if self.count > 1 {
            u64::from(self.short[0].granularity.max(self.short[1].granularity))
        } else if self.count > 0 {
            u64::from(self.short[0].granularity)
        } else {
            1
        }
    }
}

impl Alignment {
    /// Whether it is a power of two.
    #[inline]
    pub(super) fn has_power(&self) -> bool
        ensures { IsTrue result ↔ IsPowerOfTwo self.now.alignment }
    {
        is_power_of_two(self.alignment)
    }

    /// Whether it keeps the nops that its input address needs in each layout
    /// of a run of a granularity.
    #[inline]
    pub(super) fn is_still(&self, granularity: u64, start: u64) -> bool
        requires granularity { 0 < granularity }
        requires power { 0 < self.now.alignment }
        requires ends { start + (self.now.offset + self.now.nops) < 2 ^ 64 }
        ensures { IsTrue result ↔ IsStill granularity start self.now }
    {
        let nops = u64::from(self.nops);
        let needed = self.needed_at(start + self.offset);
        granularity % self.alignment == 0
            && self.max_skip.is_none()
            && needed <= nops
            && (nops - needed) % granularity == 0
    }

    /// Whether it has as many nops as it may need in a run of a granularity, if it has a limit.
    #[inline]
    pub(super) fn has_nops(&self, granularity: u64) -> bool
        ensures { (start : ℕ) → IsTrue result
            ↔ AlignmentMeets granularity start self.now TooFewNops }
    {
        let nops = u64::from(self.nops);
        match self.max_skip {
            None => true,
            Some(most) => self.alignment.saturating_sub(nops) <= granularity || most <= nops,
        }
    }

    /// Whether its nops are a multiple of a granularity, if it has a limit.
    #[inline]
    pub(super) fn has_even_nops(&self, granularity: u64) -> bool
        requires { 0 < granularity }
        ensures { (start : ℕ) → IsTrue result
            ↔ AlignmentMeets granularity start self.now UnevenNops }
    {
        match self.max_skip {
            None => true,
            Some(_) => u64::from(self.nops) % granularity == 0,
        }
    }
}

impl Item {
    /// Whether it ends at or below the address 2^64 - 1 in a run at an address.
    #[inline]
    pub(super) fn ends_below(&self, start: u64) -> bool
        ensures { IsTrue result ↔ (start + end_of self.now < 2 ^ 64) }
    {
        let room = u64::MAX - start;
        self.offset() <= room && self.len() <= room - self.offset()
    }

    /// The greatest granularity of its short shapes.
    #[inline]
    fn granularity(&self) -> u64
        requires { IsSound self.now }
        ensures { result ≡ item_granularity self.now }
    {
        match self {
            Item::Site(site) => site.shapes.granularity(),
            Item::Aligned(_) => 1,
        }
    }

    /// Whether it aligns an offset after it to a multiple of a number in every layout.
    #[inline]
    fn is_anchor(&self, number: u64, offset: u64) -> bool
        requires number { 0 < number }
        requires following { end_of self.now ≤ offset }
        ensures { IsTrue result ↔ IsAnchor number offset self.now }
    {
        match self {
            Item::Site(_) => false,
            Item::Aligned(alignment) => {
                alignment.max_skip.is_none()
                    && alignment.alignment % number == 0
                    && (offset - (alignment.offset + u64::from(alignment.nops))) % number == 0
            }
        }
    }

    /// Whether it frees only multiples of a number that divides the address of an offset after it.
    #[inline]
    fn frees_multiples(&self, number: u64, offset: u64) -> bool
        requires number { 0 < number }
        requires sound { IsSound self.now }
        requires following { end_of self.now ≤ offset }
        ensures { IsTrue result ↔ FreesMultiples number offset self.now }
    {
        match self {
            Item::Site(site) => site.shapes.are_even(number, u64::from(site.len)),
            Item::Aligned(alignment) => {
                (offset - alignment.offset) % number == 0
                    && alignment.alignment % number == 0
                    && u64::from(alignment.nops) % number == 0
            }
        }
    }

    /// How many of its bytes stay in each choice.
    #[inline]
    fn least_len(&self) -> u64
        requires { IsSound self.now }
        ensures { result ≡ least_len self.now }
    {
        match self {
            Item::Site(site) => site.shapes.kept_by(0),
            Item::Aligned(_) => 0,
        }
    }
}

/// The greatest granularity of a run.
pub(super) fn run_granularity(items: &ItemList<'_>, start: u64) -> u64
    requires { AreInOrder start items.now }
    ensures granularity { result ≡ run_granularity items.now }
    ensures some { 0 < result }
{
    let mut granularity = 1;
    for index in 0..items.len() {
        let item = items.at(index);
        granularity = granularity.max(item.granularity());
    }
    granularity
}

/// Whether an offset is not inside what an item may lose.
pub(super) fn is_clear(items: &ItemList<'_>, start: u64, offset: u64) -> bool
    requires { AreInOrder start items.now }
    ensures { IsTrue result ↔ IsClearRun items.now offset }
{
    let place = items.place_of(offset);
    if place == items.len() {
        return true;
    }
    let item = items.at(place);
    offset.saturating_sub(item.offset()) <= item.least_len()
}

/// Whether a number divides the output address of the item at an index in every layout.
fn is_always_multiple(items: &ItemList<'_>, start: u64, number: u64, index: usize) -> bool
    requires number { 0 < number }
    requires in_order { AreInOrder start items.now }
    requires within { index < length items.now }
    ensures { IsTrue result
        ↔ IsAlwaysMultiple number start (offset_of (item_at items.now index)) items.now index }
{
    let here = items.at(index);
    let offset = here.offset();
    for following in 0..index {
        let item = items.at(index - 1 - following);
        if item.is_anchor(number, offset) {
            return true;
        }
        if !item.frees_multiples(number, offset) {
            return false;
        }
    }
    (start + offset) % number == 0
}

/// Whether an alignment, the item at an index, has as many nops as it needs in every layout of a
/// run of a granularity.
fn are_always_enough(
    items: &ItemList<'_>,
    start: u64,
    granularity: u64,
    index: usize,
    alignment: &Alignment,
) -> bool
    requires in_order { AreInOrder start items.now }
    requires within { index < length items.now }
    requires is_there { offset_of (item_at items.now index) ≡ alignment.now.offset }
    requires power { IsPowerOfTwo alignment.now.alignment }
    ensures { IsTrue result ↔ AreAlwaysEnough granularity start items.now index alignment.now }
{
    let unfilled = alignment
        .alignment
        .saturating_sub(u64::from(alignment.nops));
    unfilled <= granularity || is_always_multiple(items, start, unfilled.next_power_of_two(), index)
}

/// Whether the item at an index has as many nops as it needs in every layout of a run of a
/// granularity, if it is an alignment without a limit.
pub(super) fn has_its_nops(items: &ItemList<'_>, start: u64, granularity: u64, index: usize) -> bool
    requires in_order { AreInOrder start items.now }
    requires within { index < length items.now }
    requires formed { IsFormed (item_at items.now index) }
    ensures { IsTrue result
        ↔ HasItsNops granularity start items.now index (item_at items.now index) }
{
    match items.at(index) {
        Item::Site(_) => true,
        Item::Aligned(alignment) => {
            alignment.max_skip.is_some()
                || are_always_enough(items, start, granularity, index, &alignment)
        }
    }
}
