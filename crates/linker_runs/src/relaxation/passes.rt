//! Passes over a run: the places of targets, a layout, and one round.

ghost use Rattle.std.specs.Prelude.{◌≡◌, ◌+◌, ◌<◌, ◌≤◌, ◌^◌, ℕ, length, true, false, sum, List};
ghost use Rattle.linker_runs.specs.Relaxing.{lengthened, is_in_reach, AreInOrder, AreKeptBytes};
ghost use Rattle.linker_runs.specs.Relaxing.{choice_of, AreFreed, kept_by, AreRelaxed};
ghost use Rattle.linker_runs.specs.Choosing.{AreItems, IsInReachExactly, AreTooFewRounds};
ghost use Rattle.linker_runs.specs.Inner.Relaxing.{ArePlaces, AreForced};

use crate::items::ItemList;

/// For each item the place of its target, or `usize::MAX` where its shortest shape reaches that
/// while nothing is freed: then it is always in reach.
pub(super) fn find_places(items: &ItemList<'_>, start: u64, places: &mut [usize])
    requires items { AreItems start items.now }
    requires fewer { length items.now + 1 < 2 ^ 64 }
    requires one_each { length places.old ≡ length items.now }
    ensures { ArePlaces start items.now places.new }
{
    for index in 0..items.len() {
        let item = items.at(index);
        places[index] = if item.reaches(0, 0, 0) {
            usize::MAX
        } else {
            items.place_of(item.target())
        };
    }
}

/// Gives each item its shortest shape.
pub(super) fn shorten(shapes: &mut [u8])
    ensures { (i : ℕ) → choice_of shapes.new i ≡ 0 }
{
    for shape in shapes.iter_mut() {
        *shape = 0;
    }
}

/// For each item how many bytes those before it free, and at the end how many all do.
pub(super) fn lay_out(items: &ItemList<'_>, start: u64, shapes: &[u8], freed: &mut [u64])
    requires in_order { AreInOrder start items.now }
    requires one_each { length shapes.now ≡ length items.now }
    requires one_more { length freed.old ≡ length items.now + 1 }
    ensures { AreFreed start items.now shapes.now freed.new }
{
    let mut before = 0;
    for index in 0..items.len() {
        let item = items.at(index);
        freed[index] = before;
        before += item.len() - item.kept_by(start, shapes[index], before);
    }
    freed[items.len()] = before;
}

/// For each item how many of its bytes stay.
pub(super) fn keep(items: &ItemList<'_>, start: u64, shapes: &[u8], freed: &[u64], kept: &mut [u64])
    requires in_order { AreInOrder start items.now }
    requires shapes { length shapes.now ≡ length items.now }
    requires kept { length kept.old ≡ length items.now }
    requires one_more { length freed.now ≡ length items.now + 1 }
    requires freed { AreFreed start items.now shapes.now freed.now }
    ensures { AreKeptBytes start items.now shapes.now kept.new }
{
    for index in 0..items.len() {
        let item = items.at(index);
        kept[index] = item.kept_by(start, shapes[index], freed[index]);
    }
}

/// Whether the item at an index, which has a shape, is in reach of its target by a layout.
#[inline(always)]
fn is_in_reach(
    items: &ItemList<'_>,
    start: u64,
    places: &[usize],
    freed: &[u64],
    shape: u8,
    index: usize,
) -> bool
    requires in_order { AreInOrder start items.now }
    requires within { index < length items.now }
    requires places { length places.now ≡ length items.now }
    requires placed { ArePlaces start items.now places.now }
    requires one_more { length freed.now ≡ length items.now + 1 }
    ensures reached { (shapes : List ℕ) → choice_of shapes index ≡ shape
        → AreFreed start items.now shapes freed.now
        → result ≡ is_in_reach start items.now (choice_of shapes) index }
    ensures can_grow { result ≡ false → shape < 2 }
{
    let place = places[index];
    let item = items.at(index);
    place > items.len() || item.reaches(shape, freed[index], freed[place])
}

/// Gives each site that is out of reach its next shape. Whether there is one.
pub(super) fn lengthen(
    items: &ItemList<'_>,
    start: u64,
    places: &[usize],
    freed: &[u64],
    shapes: &mut [u8],
) -> bool
    requires in_order { AreInOrder start items.now }
    requires shapes { length shapes.old ≡ length items.now }
    requires places { length places.now ≡ length items.now }
    requires short { (i : ℕ) → choice_of shapes.old i ≤ 2 }
    requires placed { ArePlaces start items.now places.now }
    requires one_more { length freed.now ≡ length items.now + 1 }
    requires freed { AreFreed start items.now shapes.old freed.now }
    ensures lengthened { (i : ℕ) → i < length items.now
        → choice_of shapes.new i ≡ lengthened start items.now (choice_of shapes.old) i }
    ensures short { (i : ℕ) → choice_of shapes.new i ≤ 2 }
    ensures same { result ≡ false → shapes.new ≡ shapes.old }
    ensures reached { result ≡ false → (i : ℕ) → i < length items.now
        → is_in_reach start items.now (choice_of shapes.old) i ≡ true }
    ensures longer { result ≡ true → sum shapes.old < sum shapes.new }
    ensures out { result ≡ true
        → ¬ IsInReachExactly start items.now (choice_of shapes.old) }
{
    let mut longer = false;
    for index in 0..items.len() {
        let shape = shapes[index];
        if !is_in_reach(items, start, places, freed, shape, index) {
            shapes[index] = shape + 1;
            longer = true;
        }
    }
    longer
}

/// How many rounds there are at most. Code has a few; calls of which each is out of reach only once
/// the next one is long take as many rounds as there are.
const MOST_ROUNDS: u32 = 64;

/// Rounds until no site is out of reach. Whether there are few enough.
pub(super) fn settle(
    items: &ItemList<'_>,
    start: u64,
    places: &[usize],
    freed: &mut [u64],
    shapes: &mut [u8],
) -> bool
    requires items { AreItems start items.now }
    requires shapes { length shapes.old ≡ length items.now }
    requires places { length places.now ≡ length items.now }
    requires placed { ArePlaces start items.now places.now }
    requires one_more { length freed.old ≡ length items.now + 1 }
    ensures relaxed { result ≡ true → AreRelaxed start items.now shapes.new
        × AreFreed start items.now shapes.new freed.new }
    ensures too_few { result ≡ false → AreTooFewRounds start items.now }
    ensures forced { AreForced items.now shapes.new }
    ensures short { (i : ℕ) → choice_of shapes.new i ≤ 2 }
{
    shorten(shapes);
    lay_out(items, start, shapes, freed);
    for _round in 0..MOST_ROUNDS + 1 {
        if !lengthen(items, start, places, freed, shapes) {
            return true;
        }
        lay_out(items, start, shapes, freed);
    }
    false
}
