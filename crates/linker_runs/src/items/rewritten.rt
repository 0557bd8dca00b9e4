//! The items of a section that was rewritten.

ghost use Rattle.std.specs.Prelude.{◌≡◌, ◌≢◌, ◌+◌, ◌-◌, ◌≤◌, ◌<◌, ◌^◌, ◌↔◌, ◌⊎◌, ℕ, List, IsTrue};
ghost use Rattle.std.specs.Prelude.{IfSome, IfNone, IfOk, IfErr, MatchOption, All, length, map};
ghost use Rattle.std.specs.Prelude.{take, drop};
ghost use Rattle.linker_runs.specs.declared.items.Relocation.{Relocation as relocations};
ghost use Rattle.linker_runs.specs.declared.packing.Machine.{Machine as machines};
ghost use Rattle.linker_runs.specs.declared.items.rewritten.RewrittenItemsError.TheVariants as why;
ghost use Rattle.linker_runs.specs.Relaxing.{end_of, item_of, items_in, offset_of, HasKind};
ghost use Rattle.linker_runs.specs.Relocations.{AreWellFormed};
ghost use Rattle.linker_runs.specs.RewrittenItems.{deleted_at, deleted_end, ArePlaced};
ghost use Rattle.linker_runs.specs.RewrittenItems.{IsFirstMisplaced, IsDeleted, AreRewrittenItems};
ghost use Rattle.linker_runs.specs.RewrittenItems.{IsOverlapping, IsRewrittenCause};
ghost use Rattle.linker_runs.specs.SectionItems.{Makes, IsFormed};
ghost use Rattle.linker_runs.specs.Inner.Listed.{AreListedIn, rewritten_of};

use super::{AsRelocation, ItemNumbers, ahead, first_malformed, has_bytes, item_at};
use crate::packing::Machine;
use crate::relaxation::{Item, Site};
use crate::shapes::fixed;
use linker_base::relaxation::AsDeletion;

/// Why no items are made of a section that was rewritten.
#[derive(Clone, Copy)]
pub enum RewrittenItemsError {
    /// The index of the first relocation that isn't what the psABI allows.
    Malformed(usize),
    /// The index of the first deletion that begins below the end of the one before it, or doesn't
    /// lie in the section.
    Misplaced(usize),
    /// The index of a relocation whose item begins below the end of that of an earlier relocation,
    /// or has deleted bytes.
    Overlaps(usize),
}

/// The deletion at an index.
#[inline(always)]
fn deletion_at<L: AsDeletion>(deleted: &[L], index: usize) -> (u64, u32)
    requires { index < length deleted.now }
    ensures { result ≡ deleted_at (map L.deletion deleted.now) index }
{
    deleted[index].as_deletion()
}

/// The index of the first deletion that begins below the end of the one before it, or doesn't lie
/// in the section.
fn first_misplaced<L: AsDeletion>(section: &[u8], deleted: &[L]) -> Option<usize>
    ensures { MatchOption result
        (ArePlaced (length section.now) (map L.deletion deleted.now) (length deleted.now))
        (IsFirstMisplaced (length section.now) (map L.deletion deleted.now)) }
{
    let mut end = 0;
    for index in 0..deleted.len() {
        let (offset, bytes) = deletion_at(deleted, index);
        if offset < end || !has_bytes(section, offset, u64::from(bytes)) {
            return Some(index);
        }
        end = offset + u64::from(bytes);
    }
    None
}

/// How many items are listed, how many of them are deletions, and where the last one ends.
#[derive(Clone, Copy)]
struct Listed {
    count: usize,
    gone: usize,
    end: u64,
}

/// The item of a deletion.
#[inline(always)]
fn deletion(base: u64, offset: u64, bytes: u32) -> Item
    requires { base + offset < 2 ^ 64 }
    ensures deleted { IsDeleted base (offset, bytes) result }
    ensures place { offset_of result ≡ base + offset }
    ensures end { end_of result ≡ base + (offset + bytes) }
{
    Item::Site(Site {
        offset: base + offset,
        len: bytes,
        target: base + offset,
        shapes: fixed(0),
    })
}

/// Lists the deletions that begin at or below an offset of the run, of those
/// that aren't listed yet.
fn list_deletions<L: AsDeletion>(
    base: u64,
    relocations_len: usize,
    deleted: &[L],
    offset: u64,
    listed: Listed,
    out: &mut [ItemNumbers],
    makers: &mut [usize],
) -> Listed
    requires gone { listed.gone ≤ length deleted.now }
    requires fit { (k : ℕ) → k < length deleted.now
        → base + deleted_end (map L.deletion deleted.now) k < 2 ^ 64 }
    requires apart { (k : ℕ) → k + 1 < length deleted.now
        → deleted_end (map L.deletion deleted.now) k
        ≤ (deleted_at (map L.deletion deleted.now) (k + 1)).0 }
    requires few { listed.count ≤ relocations_len + listed.gone }
    requires room { length out.old ≡ relocations_len + length deleted.now }
    requires makers { length makers.old ≡ relocations_len + length deleted.now }
    ensures range { (listed.gone ≤ result.gone) × (result.gone ≤ length deleted.now) }
    ensures count { result.count + listed.gone ≡ listed.count + result.gone }
    ensures stops { result.gone < length deleted.now
        → offset < base + (deleted_at (map L.deletion deleted.now) result.gone).0 }
    ensures last { (result ≡ listed) ⊎ ((g : ℕ) × (g < length deleted.now)
        × (base + (deleted_at (map L.deletion deleted.now) g).0 ≤ offset)
        × (result.end ≡ base + deleted_end (map L.deletion deleted.now) g)) }
    ensures listed { (machine : machines) (section : List ℕ) (rs : List relocations) (i : ℕ)
        → length rs ≡ relocations_len → i ≤ relocations_len
        → AreListedIn item_of HasKind
        (rewritten_of machine section base rs (map L.deletion deleted.now)) i
        listed.gone listed.count listed.end out.old makers.old
        → AreListedIn item_of HasKind
        (rewritten_of machine section base rs (map L.deletion deleted.now)) i
        result.gone result.count result.end out.new makers.new }
    ensures others_stay { (drop result.count out.new ≡ drop result.count out.old)
        × (drop result.count makers.new ≡ drop result.count makers.old) }
{
    let mut count = listed.count;
    let mut end = listed.end;
    for gone in listed.gone..deleted.len() {
        let (start, bytes) = deletion_at(deleted, gone);
        if base + start > offset {
            return Listed { count, gone, end };
        }
        out[count] = ItemNumbers::from_item(deletion(base, start, bytes));
        makers[count] = relocations_len + gone;
        count += 1;
        end = base + (start + u64::from(bytes));
    }
    Listed {
        count,
        gone: deleted.len(),
        end,
    }
}

/// Whether the deletion at an index, if there is one, begins below the end of an item.
#[inline(always)]
fn is_cut<L: AsDeletion>(base: u64, deleted: &[L], index: usize, item: &Item) -> bool
    requires fit { (k : ℕ) → k < length deleted.now
        → base + deleted_end (map L.deletion deleted.now) k < 2 ^ 64 }
    requires end { end_of item.now < 2 ^ 64 }
    ensures { IsTrue result ↔ ((index < length deleted.now)
        × (base + (deleted_at (map L.deletion deleted.now) index).0 < end_of item.now)) }
{
    if index >= deleted.len() {
        return false;
    }
    let (start, _bytes) = deletion_at(deleted, index);
    base + start < item.offset() + item.len()
}

/// Lists the item of the relocation at an index after the deletions that begin at or below it.
/// None where it overlaps one of them or of the items before it.
#[inline]
fn list_item<L: AsDeletion>(
    base: u64,
    relocations_len: usize,
    deleted: &[L],
    index: usize,
    item: &Item,
    listed: Listed,
    out: &mut [ItemNumbers],
    makers: &mut [usize],
) -> Option<Listed>
    requires index { index < relocations_len }
    requires gone { listed.gone ≤ length deleted.now }
    requires fit { (k : ℕ) → k < length deleted.now
        → base + deleted_end (map L.deletion deleted.now) k < 2 ^ 64 }
    requires apart { (k : ℕ) → k + 1 < length deleted.now
        → deleted_end (map L.deletion deleted.now) k
        ≤ (deleted_at (map L.deletion deleted.now) (k + 1)).0 }
    requires few { listed.count ≤ index + listed.gone }
    requires room { length out.old ≡ relocations_len + length deleted.now }
    requires makers { length makers.old ≡ relocations_len + length deleted.now }
    requires some { offset_of item.now < end_of item.now }
    requires end { end_of item.now < 2 ^ 64 }
    ensures range { IfSome result (λ more. (listed.count ≤ more.count)
        × (more.gone ≤ length deleted.now) × (more.end ≡ end_of item.now)) }
    ensures listed { IfSome result (λ more. (machine : machines) (section : List ℕ)
        (rs : List relocations) → length rs ≡ relocations_len
        → Makes machine section base rs index item.now
        → AreListedIn item_of HasKind
        (rewritten_of machine section base rs (map L.deletion deleted.now)) index
        listed.gone listed.count listed.end out.old makers.old
        → AreListedIn item_of HasKind
        (rewritten_of machine section base rs (map L.deletion deleted.now)) (index + 1)
        more.gone more.count more.end out.new makers.new) }
    ensures others_stay { IfSome result (λ more.
        (drop more.count out.new ≡ drop more.count out.old)
        × (drop more.count makers.new ≡ drop more.count makers.old)) }
    ensures overlaps { IfNone result ((offset_of item.now < listed.end)
        ⊎ ((g : ℕ) × (g < length deleted.now)
        × (base + (deleted_at (map L.deletion deleted.now) g).0 < end_of item.now)
        × (offset_of item.now < base + deleted_end (map L.deletion deleted.now) g))) }
{
    if item.offset() < listed.end {
        return None;
    }
    let all = list_deletions(
        base,
        relocations_len,
        deleted,
        item.offset(),
        listed,
        out,
        makers,
    );
    if item.offset() < all.end || is_cut(base, deleted, all.gone, item) {
        return None;
    }
    out[all.count] = ItemNumbers::from_item(*item);
    makers[all.count] = index;
    Some(Listed {
        count: all.count + 1,
        gone: all.gone,
        end: item.offset() + item.len(),
    })
}

/// Lists the items of a section whose relocations and deletions are tested, and returns how many
/// they are. The error is the index of a relocation that overlaps.
#[inline]
fn list_items<R: AsRelocation, L: AsDeletion>(
    machine: Machine,
    section: &[u8],
    base: u64,
    relocations: &[R],
    deleted: &[L],
    out: &mut [ItemNumbers],
    makers: &mut [usize],
) -> Result<usize, usize>
    requires base { base + length section.now < 2 ^ 64 }
    requires formed { AreWellFormed (IsFormed machine section.now)
        (map R.relocation relocations.now) (length relocations.now) }
    requires placed { ArePlaced (length section.now) (map L.deletion deleted.now)
        (length deleted.now) }
    requires room { length out.old ≡ length relocations.now + length deleted.now }
    requires makers { length makers.old ≡ length relocations.now + length deleted.now }
    ensures listed { IfOk result (λ count. AreRewrittenItems machine section.now base
        (map R.relocation relocations.now) (map L.deletion deleted.now)
        (items_in (take count out.new)) (take count makers.new)) }
    ensures form { IfOk result (λ count. All HasKind (take count out.new)) }
    ensures others_stay { IfOk result (λ count. (drop count out.new ≡ drop count out.old)
        × (drop count makers.new ≡ drop count makers.old)) }
    ensures overlaps { IfErr result (λ at. (at < length relocations.now)
        × IsOverlapping (Makes machine section.now base (map R.relocation relocations.now)) base
        (map L.deletion deleted.now) at) }
{
    let len = relocations.len();
    let mut listed = Listed {
        count: 0,
        gone: 0,
        end: 0,
    };
    let mut next = 0;
    for index in 0..len {
        next = ahead(machine, relocations, index, next);
        if let Some(item) = item_at(machine, section, base, relocations, index, next) {
            match list_item(base, len, deleted, index, &item, listed, out, makers) {
                Some(more) => listed = more,
                None => return Err(index),
            }
        }
    }
    Ok(list_deletions(base, len, deleted, u64::MAX, listed, out, makers).count)
}

/// The items of a section that was rewritten, into memory of the caller's: those that its
/// relocations make, as `section_items`, and what rewrites delete. The section begins at the input
/// offset `base` of the run. Its bytes and relocations are as `rewrite_section` and
/// `rewrite_placed_section` of `linker_rewriting::sections` left them; a relocation that has gone
/// has the type 0 and makes no item. `deleted` is what the latter lists: offsets in the section,
/// ascending, whose bytes are still there.
///
/// Each deletion is a site of which no byte stays (`fixed`). So `relax` counts distances over it,
/// `deletions` lists it, and `pack_run` leaves its bytes out.
///
/// The items ascend, and none begins below the end of the one before it. `out` and `makers` have an
/// element for each relocation and each deletion. The maker of an item is the index of its
/// relocation, or that of its deletion and as many more as there are relocations. Returns how many
/// items there are; the elements from there on are unchanged.
///
/// Whether code may be compressed is taken from `may_compress`, so from the `e_flags` of the
/// relocation's object: those of an output say that of all code.
///
/// # Errors
///
/// The first that applies. `Malformed` names the relocation that `first_malformed` returns.
/// `Misplaced` names the first deletion that begins below the end of the one before it, or
/// doesn't lie in the section. Nothing is written then. `Overlaps` names a relocation whose
/// item begins below the end of that of an earlier relocation, or has deleted bytes: what is
/// written then isn't specified.
///
/// A target inside deleted bytes is no error here, since it may be another section's: `relax` says
/// `TargetInside` of the item. It doesn't allocate.
pub fn rewritten_items_into<R: AsRelocation, L: AsDeletion>(
    machine: Machine,
    section: &[u8],
    base: u64,
    relocations: &[R],
    deleted: &[L],
    out: &mut [ItemNumbers],
    makers: &mut [usize],
) -> Result<usize, RewrittenItemsError>
    requires base { base + length section.now < 2 ^ 64 }
    requires room { length out.old ≡ length relocations.now + length deleted.now }
    requires makers { length makers.old ≡ length relocations.now + length deleted.now }
    ensures listed { IfOk result (λ count. AreRewrittenItems machine section.now base
        (map R.relocation relocations.now) (map L.deletion deleted.now)
        (items_in (take count out.new)) (take count makers.new)) }
    ensures form { IfOk result (λ count. All HasKind (take count out.new)) }
    ensures others_stay { IfOk result (λ count. (drop count out.new ≡ drop count out.old)
        × (drop count makers.new ≡ drop count makers.old)) }
    ensures cause { IfErr result (IsRewrittenCause machine section.now base
        (map R.relocation relocations.now) (map L.deletion deleted.now)) }
    ensures unchanged { IfErr result (λ error. ((at : ℕ) → error ≢ why.Overlaps at)
        → (out.new ≡ out.old) × (makers.new ≡ makers.old)) }
{
    if let Some(index) = first_malformed(machine, section, relocations) {
        return Err(RewrittenItemsError::Malformed(index));
    }
    if let Some(index) = first_misplaced(section, deleted) {
        return Err(RewrittenItemsError::Misplaced(index));
    }
    match list_items(machine, section, base, relocations, deleted, out, makers) {
        Ok(count) => Ok(count),
        Err(index) => Err(RewrittenItemsError::Overlaps(index)),
    }
}
