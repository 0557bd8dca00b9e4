//! The items of a run, in an array of the caller's.

ghost use Rattle.std.specs.Prelude.{◌≡◌, ◌<◌, ◌≤◌, length};
ghost use Rattle.linker_runs.specs.Relaxing.{item_at, items_in, place_of, AreApart};

use crate::items::ItemNumbers;
use crate::relaxation::Item;
use std::marker::Model;

/// The items of a run. Contracts see the list of items that the numbers say.
#[derive(Drop)]
pub(crate) struct ItemList<'a> {
    elements: &'a [ItemNumbers],
}

impl<'a> Model for ItemList<'a> {
    ghost use Rattle.std.specs.Prelude.{List};
    ghost use Rattle.linker_runs.specs.Relaxing.{items_in};
    ghost use Rattle.linker_runs.specs.declared.relaxation.Item.{Item as items};

    ghost Value = { List items };

    ghost view = { λ list. items_in list.elements.now };
}

impl<'a> ItemList<'a> {
    /// The items of an array.
    #[inline(always)]
    pub(crate) fn new(elements: &'a [ItemNumbers]) -> ItemList<'a>
        ensures { result ≡ items_in elements.now }
    {
        ItemList { elements }
    }

    /// How many there are.
    #[inline(always)]
    pub(crate) fn len(&self) -> usize
        ensures { result ≡ length self.now }
    {
        self.elements.len()
    }

    /// The item at an index.
    #[inline(always)]
    pub(crate) fn at(&self, index: usize) -> Item
        requires { index < length self.now }
        ensures { result ≡ item_at self.now index }
    {
        let elements = self.elements;
        elements[index].as_item()
    }

    /// How many items end at or below an offset.
    pub(crate) fn place_of(&self, offset: u64) -> usize
        ensures place { AreApart self.now → result ≡ place_of self.now offset }
        ensures within { result ≤ length self.now }
    {
        let (mut low, mut high) = (0, self.len());
        while low < high {
            let middle = low + (high - low) / 2;
            if self.at(middle).ends_by(offset) {
                low = middle + 1;
            } else {
                high = middle;
            }
        }
        low
    }
}
