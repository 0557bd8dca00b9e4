//! The greatest choice that is in reach where each alignment keeps all of its nops.
//!
//! A sweep tests each site once, with what the choice frees at that time: from the last site to the
//! first, or from the first to the last. Of calls of which each depends on the next one, all are
//! found in a sweep that goes to meet them.

ghost use Rattle.std.specs.Prelude.{◌≡◌, ◌≢◌, ◌+◌, ◌<◌, ◌≤◌, ℕ, length, true, false, sum};
ghost use Rattle.linker_runs.specs.Relaxing.{choice_of, IsSound};
ghost use Rattle.linker_runs.specs.Choosing.{AreItems, freed_cautiously};
ghost use Rattle.linker_runs.specs.Choosing.{IsInReachCautiously, IsGreatestCautious};
ghost use Rattle.linker_runs.specs.Inner.Relaxing.{ArePlaces, AreCautious, AreForced};
ghost use Rattle.linker_runs.specs.Inner.Relaxing.{is_in_reach_cautiously};

use super::Item;
use crate::items::ItemList;

impl Item {
    /// How many bytes it frees with the shape at an index, where alignments keep all.
    #[inline(always)]
    fn freed_cautiously(&self, shape: u8) -> u64
        requires { IsSound self.now }
        ensures { result ≡ freed_cautiously self.now shape }
    {
        match self {
            Item::Site(site) => u64::from(site.len) - site.shapes.kept_by(shape),
            Item::Aligned(_) => 0,
        }
    }
}

/// For each item how many bytes those before it free where alignments keep all, and at the end how
/// many all do.
fn lay_out_cautiously(items: &ItemList<'_>, start: u64, shapes: &[u8], freed: &mut [u64])
    requires items { AreItems start items.now }
    requires shapes { length shapes.now ≡ length items.now }
    requires one_more { length freed.old ≡ length items.now + 1 }
    ensures { AreCautious items.now shapes.now freed.new 0 0 }
{
    let mut before = 0;
    for index in 0..items.len() {
        freed[index] = before;
        let item = items.at(index);
        before += item.freed_cautiously(shapes[index]);
    }
    freed[items.len()] = before;
}

/// Gives the site at an index its next shape if it is out of reach, and returns how many bytes
/// fewer it then frees. What `freed` has after the index is `more` above what the choice frees.
fn lengthen_at(
    items: &ItemList<'_>,
    start: u64,
    places: &[usize],
    freed: &[u64],
    more: u64,
    shapes: &mut [u8],
    index: usize,
) -> u64
    requires items { AreItems start items.now }
    requires within { index < length items.now }
    requires shapes { length shapes.old ≡ length items.now }
    requires places { length places.now ≡ length items.now }
    requires placed { ArePlaces start items.now places.now }
    requires one_more { length freed.now ≡ length items.now + 1 }
    requires freed { AreCautious items.now shapes.old freed.now (index + 1) more }
    requires short { (i : ℕ) → choice_of shapes.old i ≤ 2 }
    ensures freed { AreCautious items.now shapes.new freed.now (index + 1) (more + result) }
    ensures short { (i : ℕ) → choice_of shapes.new i ≤ 2 }
    ensures forced { AreForced items.now shapes.old → AreForced items.now shapes.new }
    ensures same { result ≡ 0 → shapes.new ≡ shapes.old }
    ensures reached { result ≡ 0
        → is_in_reach_cautiously items.now (choice_of shapes.old) index ≡ true }
    ensures next { 0 < result → choice_of shapes.new index ≡ choice_of shapes.old index + 1 }
    ensures others { (i : ℕ) → i ≢ index → choice_of shapes.new i ≡ choice_of shapes.old i }
    ensures longer { 0 < result → sum shapes.old < sum shapes.new }
{
    let place = places[index];
    if place > items.len() {
        return 0;
    }
    let there = if place <= index {
        freed[place]
    } else {
        freed[place] - more
    };
    let item = items.at(index);
    let shape = shapes[index];
    if item.reaches(shape, freed[index], there) {
        return 0;
    }
    shapes[index] = shape + 1;
    item.freed_cautiously(shape) - item.freed_cautiously(shape + 1)
}

/// A sweep from the last site to the first. Whether a shape is longer after it. `freed` is used up.
fn sweep_back(
    items: &ItemList<'_>,
    start: u64,
    places: &[usize],
    freed: &mut [u64],
    shapes: &mut [u8],
) -> bool
    requires items { AreItems start items.now }
    requires shapes { length shapes.old ≡ length items.now }
    requires places { length places.now ≡ length items.now }
    requires placed { ArePlaces start items.now places.now }
    requires one_more { length freed.old ≡ length items.now + 1 }
    requires freed { AreCautious items.now shapes.old freed.old 0 0 }
    requires short { (i : ℕ) → choice_of shapes.old i ≤ 2 }
    requires forced { AreForced items.now shapes.old }
    ensures short { (i : ℕ) → choice_of shapes.new i ≤ 2 }
    ensures forced { AreForced items.now shapes.new }
    ensures reached { result ≡ false → IsInReachCautiously items.now (choice_of shapes.new) }
    ensures longer { result ≡ true → sum shapes.old < sum shapes.new }
{
    let mut more = 0;
    for following in 0..items.len() {
        let index = items.len() - 1 - following;
        more += lengthen_at(items, start, places, freed, more, shapes, index);
        freed[index] += more;
    }
    more > 0
}

/// A sweep from the first site to the last. Each site that was out of reach before it has a longer
/// shape after it. `freed` is used up.
fn sweep_ahead(
    items: &ItemList<'_>,
    start: u64,
    places: &[usize],
    freed: &mut [u64],
    shapes: &mut [u8],
)
    requires items { AreItems start items.now }
    requires shapes { length shapes.old ≡ length items.now }
    requires places { length places.now ≡ length items.now }
    requires placed { ArePlaces start items.now places.now }
    requires one_more { length freed.old ≡ length items.now + 1 }
    requires freed { AreCautious items.now shapes.old freed.old 0 0 }
    requires short { (i : ℕ) → choice_of shapes.old i ≤ 2 }
    requires forced { AreForced items.now shapes.old }
    ensures short { (i : ℕ) → choice_of shapes.new i ≤ 2 }
    ensures forced { AreForced items.now shapes.new }
    ensures longer { sum shapes.old ≤ sum shapes.new }
    ensures lengthened { (i : ℕ) → i < length items.now
        → is_in_reach_cautiously items.now (choice_of shapes.old) i ≡ false
        → choice_of shapes.old i < choice_of shapes.new i }
{
    let mut more = 0;
    for index in 0..items.len() {
        freed[index] -= more;
        more += lengthen_at(items, start, places, freed, more, shapes, index);
    }
}

/// Sweeps until no site is out of reach where alignments keep all.
pub(super) fn choose_cautiously(
    items: &ItemList<'_>,
    start: u64,
    places: &[usize],
    freed: &mut [u64],
    shapes: &mut [u8],
)
    requires items { AreItems start items.now }
    requires shapes { length shapes.old ≡ length items.now }
    requires places { length places.now ≡ length items.now }
    requires placed { ArePlaces start items.now places.now }
    requires one_more { length freed.old ≡ length items.now + 1 }
    requires short { (i : ℕ) → choice_of shapes.old i ≤ 2 }
    requires forced { AreForced items.now shapes.old }
    ensures { IsGreatestCautious items.now shapes.new }
{
    lay_out_cautiously(items, start, shapes, freed);
    while sweep_back(items, start, places, freed, shapes) {
        lay_out_cautiously(items, start, shapes, freed);
        sweep_ahead(items, start, places, freed, shapes);
        lay_out_cautiously(items, start, shapes, freed);
    }
}
