//! Sites of instructions that can become shorter, alignments between them, and the choice of a
//! shape for each site.

ghost use Rattle.std.specs.Prelude.{◌≡◌, ◌+◌, ◌-◌, ◌%◌, ◌<◌, ◌≤◌, ◌^◌, ℕ};
ghost use Rattle.std.specs.Prelude.{length, true, false, nat_le, IfOk};
ghost use Rattle.linker_runs.specs.Relaxing.{padding_at, short_shape, shape_reaches, item_reaches};
ghost use Rattle.linker_runs.specs.Relaxing.{offset_of, target_of, is_reached, kept_by, AreInOrder};
ghost use Rattle.linker_runs.specs.Relaxing.{len_of, end_of, needed, shape_len, IsSound};
ghost use Rattle.linker_runs.specs.Relaxing.{items_in};
ghost use Rattle.linker_runs.specs.Choosing.{AreItems, IsRelaxation};
ghost use Rattle.linker_runs.specs.Deleting.{deletions_of_run, TranslationsAreExact};

use crate::items::{ItemList, ItemNumbers};
use linker_base::relaxation::{OutOfMemory, SectionRelaxDeltas};
use std::alloc::Global;

mod cautious;
mod faults;
mod passes;
mod validity;

use cautious::choose_cautiously;
pub use faults::{Fault, ItemFault, are_items, first_faulty};
use passes::{find_places, keep, lay_out, settle};
use validity::is_power_of_two;

/// One form of the instructions of a site, as C has it.
#[repr(C)]
#[derive(Default, Clone, Copy, PartialEq, Eq)]
pub struct Shape {
    /// How far below its output offset the target may lie, in bytes.
    pub max_backward: u64,
    /// The target has to lie less than this many bytes above its output offset, or at it.
    pub max_forward: u64,
    /// How many bytes of the site stay, from its first one on.
    pub kept: u32,
    /// The distance has to be a multiple of this number, which is a power of two.
    pub granularity: u32,
}

/// The forms that the instructions of a site can have, by ascending length, as C has them.
#[repr(C)]
#[derive(Default, Clone, Copy, PartialEq, Eq)]
pub struct Shapes {
    /// The short forms, of which the first `count` count.
    pub short: [Shape; 2],
    /// How many bytes stay where no short form reaches the target.
    pub longest: u32,
    /// How many short forms there are, up to two.
    pub count: u8,
}

/// Instructions that can become shorter where they reach their target.
#[derive(Clone, Copy)]
pub struct Site {
    /// The input offset of its first byte.
    pub offset: u64,
    /// How many bytes it has.
    pub len: u32,
    /// The input offset that it jumps to, or the address of which it computes. It means nothing
    /// where there are no short shapes.
    pub target: u64,
    /// What it can become.
    pub shapes: Shapes,
}

/// Nops that align what follows them.
#[derive(Clone, Copy)]
pub struct Alignment {
    /// The input offset of the first nop.
    pub offset: u64,
    /// How many bytes of nops there are.
    pub nops: u32,
    /// What the output address after them is a multiple of: a power of two.
    pub alignment: u64,
    /// How many bytes of nops may stay. Where more are needed, none stay.
    pub max_skip: Option<u64>,
}

/// A part of a run that relaxation may shorten.
#[derive(Clone, Copy)]
pub enum Item {
    /// Instructions.
    Site(Site),
    /// Nops that align what follows them.
    Aligned(Alignment),
}

impl Item {
    /// The input offset of its first byte.
    #[inline(always)]
    pub fn offset(&self) -> u64
        ensures { result ≡ offset_of self.now }
    {
        match self {
            Item::Site(site) => site.offset,
            Item::Aligned(alignment) => alignment.offset,
        }
    }

    /// How many bytes it has.
    #[inline(always)]
    pub fn len(&self) -> u64
        ensures { result ≡ len_of self.now }
    {
        match self {
            Item::Site(site) => u64::from(site.len),
            Item::Aligned(alignment) => u64::from(alignment.nops),
        }
    }
}

/// What a number leaves when it is divided by another one. That is a power of two mostly, where no
/// division is needed.
#[inline(always)]
fn remainder(number: u64, divisor: u64) -> u64
    requires { 0 < divisor }
    ensures { result ≡ number % divisor }
{
    if is_power_of_two(divisor) {
        number & (divisor - 1)
    } else {
        number % divisor
    }
}

impl Shape {
    /// Whether a target is in reach, both given by output offsets.
    #[inline(always)]
    fn reaches(&self, from: u64, to: u64) -> bool
        requires { 0 < self.now.granularity }
        ensures { result ≡ is_reached self.now from to }
    {
        let granularity = u64::from(self.granularity);
        if from <= to {
            let distance = to - from;
            distance < self.max_forward && remainder(distance, granularity) == 0
        } else {
            let distance = from - to;
            distance <= self.max_backward && remainder(distance, granularity) == 0
        }
    }
}

impl Alignment {
    /// How many bytes of nops it takes from an address to the next multiple of the alignment.
    #[inline(always)]
    fn needed_at(&self, address: u64) -> u64
        requires { 0 < self.now.alignment }
        ensures { result ≡ needed self.now.alignment address }
    {
        remainder(
            self.alignment - remainder(address, self.alignment),
            self.alignment,
        )
    }

    /// How many nops stay where the first one has an output address.
    #[inline(always)]
    fn padding_at(&self, address: u64) -> u64
        requires { 0 < self.now.alignment }
        ensures kept { result ≡ padding_at self.now address }
        ensures within { result ≤ self.now.nops }
    {
        let needed = self.needed_at(address);
        let nops = u64::from(self.nops);
        let limit = match self.max_skip {
            Some(most) => most.min(nops),
            None => nops,
        };
        if needed <= limit { needed } else { 0 }
    }
}

impl Item {
    /// Whether it ends at or below an offset.
    #[inline(always)]
    pub(crate) fn ends_by(&self, offset: u64) -> bool
        ensures { result ≡ nat_le (end_of self.now) offset }
    {
        self.offset() <= offset && self.len() <= offset - self.offset()
    }

    /// How many of its bytes go where n stay.
    #[inline(always)]
    fn lost(&self, kept: u64) -> u32
        requires { kept < len_of self.now }
        ensures { result ≡ len_of self.now - kept }
    {
        match self {
            Item::Site(site) => site.len - kept as u32,
            Item::Aligned(alignment) => alignment.nops - kept as u32,
        }
    }

    /// The input offset that it has to reach: its own where it has nothing to reach.
    #[inline(always)]
    fn target(&self) -> u64
        ensures { result ≡ target_of self.now }
    {
        match self {
            Item::Site(site) if site.shapes.count > 0 => site.target,
            _ => self.offset(),
        }
    }

    /// How many of its bytes stay with the shape at an index, where n before it are freed.
    #[inline(always)]
    fn kept_by(&self, start: u64, shape: u8, freed: u64) -> u64
        requires sound { IsSound self.now }
        requires fits { start + end_of self.now < 2 ^ 64 }
        requires freed { freed ≤ offset_of self.now }
        ensures kept { result ≡ kept_by start self.now shape freed }
        ensures within { result ≤ len_of self.now }
    {
        match self {
            Item::Site(site) => site.shapes.kept_by(shape),
            Item::Aligned(alignment) => alignment.padding_at(start + alignment.offset - freed),
        }
    }

    /// Whether it reaches its target with the shape at an index, where n bytes are freed
    /// before it, and n before the target.
    #[inline(always)]
    fn reaches(&self, shape: u8, here: u64, there: u64) -> bool
        requires { IsSound self.now }
        ensures reached { result ≡ item_reaches self.now shape here there }
        ensures can_grow { result ≡ false → shape < 2 }
    {
        match self {
            Item::Site(site) => site.shapes.reaches(
                shape,
                site.offset.saturating_sub(here),
                self.target().saturating_sub(there),
            ),
            Item::Aligned(_) => true,
        }
    }
}

impl Shapes {
    /// How many bytes stay with the shape at an index.
    #[inline(always)]
    fn kept_by(&self, shape: u8) -> u64
        requires { self.now.count ≤ 2 }
        ensures { result ≡ shape_len self.now shape }
    {
        if shape >= self.count {
            u64::from(self.longest)
        } else if shape == 0 {
            u64::from(self.short[0].kept)
        } else {
            u64::from(self.short[1].kept)
        }
    }

    /// Whether the shape at an index reaches a target, both given by output offsets.
    #[inline(always)]
    fn reaches(&self, shape: u8, from: u64, to: u64) -> bool
        requires count { self.now.count ≤ 2 }
        requires units { (k : ℕ) → k < self.now.count → 0 < (short_shape self.now k).granularity }
        ensures reached { result ≡ shape_reaches self.now shape from to }
        ensures can_grow { result ≡ false → shape < 2 }
    {
        if shape < self.count {
            self.short[usize::from(shape)].reaches(from, to)
        } else {
            true
        }
    }
}

/// Chooses a shape for each site, and says what stays of each item.
///
/// Each site has its shortest shape at first. Then the run is laid out, and each site that is out
/// of reach by that layout has its next shape; again, until none is. Where one still is after 64
/// such rounds, each site has the shortest shapes that are in reach where each alignment keeps all
/// of its nops.
///
/// `shapes` and `kept` have an element for each item: the index of the shape that a site has, and
/// how many of the item's bytes stay. `places` and `freed` are room for the work: `places` has an
/// element for each item too, and `freed` one more. Then `freed` has for each item how many bytes
/// those before it free, and at the end how many all do. What the arrays had before means nothing.
///
/// It doesn't allocate. A round is two passes over the items and takes O(n) for n items,
/// and so does a sweep, of which there are only after 64 rounds: one in each direction
/// finds all sites that become long one because of another in one direction. The places of
/// targets take O(n log n) once.
pub fn relax_into(
    items: &[ItemNumbers],
    start: u64,
    shapes: &mut [u8],
    kept: &mut [u64],
    places: &mut [usize],
    freed: &mut [u64],
)
    requires items { AreItems start (items_in items.now) }
    requires shapes { length shapes.old ≡ length items.now }
    requires kept { length kept.old ≡ length items.now }
    requires places { length places.old ≡ length items.now }
    requires freed { length freed.old ≡ length items.now + 1 }
    ensures { IsRelaxation start (items_in items.now) shapes.new kept.new freed.new }
{
    let list = ItemList::new(items);
    find_places(&list, start, places);
    if !settle(&list, start, places, freed, shapes) {
        choose_cautiously(&list, start, places, freed, shapes);
        lay_out(&list, start, shapes, freed);
    }
    keep(&list, start, shapes, freed, kept);
}

/// What `relax` chooses.
#[derive(Drop)]
pub struct Plan {
    /// For each item the index of the shape that it has if it is a site.
    pub shapes: Vec<u8>,
    /// For each item how many of its bytes stay, from its first one on.
    pub kept: Vec<u64>,
    /// For each item how many bytes those before it free, and at the end how many all do.
    pub freed: Vec<u64>,
    /// What the run loses.
    pub deletions: SectionRelaxDeltas,
}

/// What a run loses, where n bytes of each item stay from its first one on: a deletion for
/// each item that loses some. It allocates two times, and once more for more than 1,024 deletions.
pub fn deletions(
    alloc: Global,
    items: &[ItemNumbers],
    start: u64,
    kept: &[u64],
) -> Result<SectionRelaxDeltas, OutOfMemory>
    requires items { AreInOrder start (items_in items.now) }
    requires one_each { length kept.now ≡ length items.now }
    ensures { IfOk result
        (λ deltas. deltas ≡ deletions_of_run (items_in items.now) kept.now) }
{
    let list = ItemList::new(items);
    let mut raw = Vec::with_capacity(alloc, list.len())?;
    for index in 0..list.len() {
        let item = list.at(index);
        if kept[index] < item.len() {
            raw.push((item.offset() + kept[index], item.lost(kept[index])))?;
        }
    }
    SectionRelaxDeltas::new(alloc, &raw)
}

/// `relax_into` in memory of its own, with the deletions. It allocates six times, once for each
/// array and as `deletions` does.
pub fn relax(alloc: Global, items: &[ItemNumbers], start: u64) -> Result<Plan, OutOfMemory>
    requires { AreItems start (items_in items.now) }
    ensures relaxed { IfOk result (λ plan.
        IsRelaxation start (items_in items.now) plan.shapes.items plan.kept.items
        plan.freed.items) }
    ensures deleted { IfOk result
        (λ plan. plan.deletions ≡ deletions_of_run (items_in items.now) plan.kept.items) }
{
    let mut shapes = vec![in alloc; 0; items.len()]?;
    let mut kept = vec![in alloc; 0; items.len()]?;
    let mut places = vec![in alloc; 0; items.len()]?;
    let mut freed = vec![in alloc; 0; kept.len() + 1]?;
    relax_into(
        items,
        start,
        &mut shapes,
        &mut kept,
        &mut places,
        &mut freed,
    );
    let lost = deletions(alloc, items, start, &kept)?;
    Ok(Plan {
        shapes,
        kept,
        freed,
        deletions: lost,
    })
}

/// The deletions of a relaxed run, as `deletions` lists them, translate the offset of each item and
/// of each target to what the layout leaves below it. So each distance that a shape reaches is one
/// of output offsets.
pub fn translations_are_exact()
    ensures { TranslationsAreExact }
{}
