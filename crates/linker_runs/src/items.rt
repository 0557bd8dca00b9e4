//! The items of a run that the relocations of a section make, and why none can be made.

ghost use Rattle.std.specs.Prelude.{◌≡◌, ◌≢◌, ◌+◌, ◌≤◌, ◌<◌, ◌^◌, ◌↔◌, ℕ, IsTrue, length};
ghost use Rattle.std.specs.Prelude.{IfSome, IfNone, IfOk, IfErr, OnOk, OnErr};
ghost use Rattle.std.specs.Prelude.{MatchOption, pos, map, take, drop, All};
ghost use Rattle.linker_runs.specs.declared.items.Relocation.{Relocation as relocations};
ghost use Rattle.linker_runs.specs.declared.relaxation.Item.{Item as items};
ghost use Rattle.linker_runs.specs.Relaxing.{items_in, HasKind};
ghost use Rattle.linker_runs.specs.Relocations.{relocation_at, IsMarked, AreMade, AreWellFormed};
ghost use Rattle.linker_runs.specs.Relocations.{IsItemsCause, IsFirstMalformed};
ghost use Rattle.linker_runs.specs.SectionItems.{Makes, IsFormed};
ghost use Rattle.linker_runs.specs.Inner.Ahead.{IsAhead, MayBeAhead};

mod list;
mod numbers;
mod rewritten;

use crate::packing::Machine;
use crate::relaxation::Item;
use crate::{loongarch64, riscv64};
pub(crate) use list::ItemList;
pub use numbers::ItemNumbers;
pub use rewritten::{RewrittenItemsError, rewritten_items_into};
use std::alloc::{AllocError, AllocFailed, Global};

/// A relocation of a section.
#[derive(Clone, Copy)]
pub struct Relocation {
    /// Its place, `r_offset`: an offset in the section.
    pub offset: u64,
    /// Its `r_type` in ELF files.
    pub r_type: u32,
    /// Whether it has a symbol: `r_sym` isn't 0.
    pub has_symbol: bool,
    /// Its addend, `r_addend`.
    pub addend: i64,
    /// The input offset in the run that it refers to: S + A, or the PLT entry. None where that
    /// isn't in the run, where bytes between S and S + A may be deleted, or where the linker wants
    /// the instructions to stay as they are.
    pub target: Option<u64>,
    /// The code there may use instructions of RISC-V's C extension: its object's `e_flags` have
    /// `EF_RISCV_RVC`. It means nothing for other architectures.
    pub may_compress: bool,
}

/// A relocation of a section: a `Relocation`, or an element of the caller's own array that says as
/// much.
pub trait AsRelocation: Copy {
    /// The relocation, in a contract.
    ghost relocation: { Self → relocations };

    /// The relocation.
    fn as_relocation(self) -> Relocation
        ensures { result ≡ relocation self };
}

impl AsRelocation for Relocation {
    ghost relocation = { λ r. r };

    #[inline(always)]
    fn as_relocation(self) -> Relocation {
        self
    }
}

/// Why no items are made of relocations.
#[derive(Clone, Copy)]
pub enum ItemsError {
    /// Out of memory for the items.
    OutOfMemory,
    /// The index of the first relocation that isn't what the psABI allows.
    Malformed(usize),
}

impl From<AllocError> for ItemsError {
    ghost use Rattle.linker_runs.specs.declared.items.ItemsError.TheVariants.{OutOfMemory};

    ghost from_gives = { λ _ e. e ≡ OutOfMemory };

    fn from(_error: AllocError) -> ItemsError {
        ItemsError::OutOfMemory
    }
}

impl<T: Drop> From<AllocFailed<T>> for ItemsError {
    ghost use Rattle.linker_runs.specs.declared.items.ItemsError.TheVariants.{OutOfMemory};

    ghost from_gives = { λ _ e. e ≡ OutOfMemory };

    fn from(_error: AllocFailed<T>) -> ItemsError {
        ItemsError::OutOfMemory
    }
}

/// The relocation at an index.
#[inline(always)]
pub(crate) fn relocation_at<R: AsRelocation>(relocations: &[R], index: usize) -> Relocation
    requires { index < length relocations.now }
    ensures { result ≡ relocation_at (map R.relocation relocations.now) index }
{
    relocations[index].as_relocation()
}

/// Whether n bytes from an offset on lie in the section.
#[inline(always)]
pub(crate) fn has_bytes(section: &[u8], offset: u64, len: u64) -> bool
    ensures { IsTrue result ↔ (offset + len ≤ length section.now) }
{
    let section_len = section.len() as u64;
    offset <= section_len && len <= section_len - offset
}

/// Whether the relocation after the one at an index has an `r_type` and is at the same place.
#[inline(always)]
pub(crate) fn is_marked<R: AsRelocation>(relocations: &[R], index: usize, r_type: u32) -> bool
    requires { index < length relocations.now }
    ensures { IsTrue result ↔ IsMarked r_type (map R.relocation relocations.now) index }
{
    if index + 1 >= relocations.len() {
        return false;
    }
    let mark = relocation_at(relocations, index + 1);
    mark.r_type == r_type && mark.offset == relocation_at(relocations, index).offset
}

/// The addend of a relocation, if it isn't below 0.
#[inline(always)]
pub(crate) fn unsigned_addend(relocation: &Relocation) -> Option<u64>
    ensures some { IfSome result
        (λ addend. (relocation.now.addend ≡ pos addend) × (addend < 2 ^ 63)) }
    ensures none { IfNone result ((addend : ℕ) → relocation.now.addend ≢ pos addend) }
{
    if relocation.addend < 0 {
        None
    } else {
        Some(relocation.addend as u64)
    }
}

/// Whether a relocation is what the psABI allows.
#[inline(always)]
fn is_formed(machine: Machine, section: &[u8], relocation: &Relocation) -> bool
    ensures { IsTrue result ↔ IsFormed machine section.now relocation.now }
{
    match machine {
        Machine::RiscV(_) => riscv64::is_formed(section, relocation),
        Machine::LoongArch64 => loongarch64::is_formed(section, relocation),
    }
}

/// The index of the first relocation that isn't what the psABI allows: one that lies
/// after the section's end, one of a call where less than eight bytes are there
/// (`R_RISCV_CALL`, `R_RISCV_CALL_PLT`, `R_LARCH_CALL36`), or one of an alignment whose
/// nops the addend doesn't tell.
///
/// The addend of `R_RISCV_ALIGN` is a multiple of 2 from 0 up, below 2^32, of bytes in the section.
/// That of `R_LARCH_ALIGN` isn't below 0, its exponent is from 2 to 32, and its nops are a multiple
/// of 4 below 2^32, of bytes in the section.
pub fn first_malformed<R: AsRelocation>(
    machine: Machine,
    section: &[u8],
    relocations: &[R],
) -> Option<usize>
    ensures { MatchOption result
        (AreWellFormed (IsFormed machine section.now) (map R.relocation relocations.now)
        (length relocations.now))
        (IsFirstMalformed (IsFormed machine section.now) (map R.relocation relocations.now)) }
{
    for index in 0..relocations.len() {
        if !is_formed(machine, section, &relocation_at(relocations, index)) {
            return Some(index);
        }
    }
    None
}

/// What a walk that stands at a relocation has to know of those after it: on RISC-V the index of
/// the next alignment. `known` is what it knew before.
#[inline(always)]
fn ahead<R: AsRelocation>(machine: Machine, relocations: &[R], index: usize, known: usize) -> usize
    requires index { index < length relocations.now }
    requires known { MayBeAhead machine (map R.relocation relocations.now) index known }
    ensures { IsAhead machine (map R.relocation relocations.now) index result }
{
    match machine {
        Machine::RiscV(_) => {
            if known <= index {
                riscv64::next_alignment(relocations, index)
            } else {
                known
            }
        }
        Machine::LoongArch64 => known,
    }
}

/// The item that the relocation at an index makes, if it makes one.
#[inline(always)]
fn item_at<R: AsRelocation>(
    machine: Machine,
    section: &[u8],
    base: u64,
    relocations: &[R],
    index: usize,
    ahead: usize,
) -> Option<Item>
    requires index { index < length relocations.now }
    requires base { base + length section.now < 2 ^ 64 }
    requires formed { IsFormed machine section.now
        (relocation_at (map R.relocation relocations.now) index) }
    requires ahead { IsAhead machine (map R.relocation relocations.now) index ahead }
    ensures { MatchOption result ((item : items)
        → ¬ Makes machine section.now base (map R.relocation relocations.now) index item)
        (Makes machine section.now base (map R.relocation relocations.now) index) }
{
    match machine {
        Machine::RiscV(_) => { riscv64::item_at(machine, section, base, relocations, index, ahead) }
        Machine::LoongArch64 => loongarch64::item_at(section, base, relocations, index),
    }
}

/// The items of a section, and which relocation makes each.
#[derive(Drop)]
pub struct SectionItems {
    /// The items, in the order of the relocations.
    pub items: Vec<ItemNumbers>,
    /// The index of the relocation that makes each.
    pub makers: Vec<usize>,
}

/// The items that the relocations of a section make, in the relocations' order, and the index of
/// the relocation that makes each. The section begins at the input offset `base` of the run. The
/// other relocations make none.
///
/// **RISC-V.** `R_RISCV_CALL` and `R_RISCV_CALL_PLT` make a site where `R_RISCV_RELAX` is the next
/// relocation, at the same offset, the target is in the run, and the bytes are `auipc` and `jalr`
/// of one register. Its shapes are `TAIL_C` where the `jalr` links x0, or x1 on RV32, and the
/// relocation's `may_compress` is set, and else `CALL`. `R_RISCV_ALIGN` makes an alignment without
/// a limit, if there are nops: the addend is how many bytes they have, and the next power of two
/// above it what they align to (RISC-V ELF psABI, "Linker Relaxation").
///
/// Where fewer nops stand before an alignment than it may need at any even address, as the 12 bytes
/// that assemblers write for `.balign 16` in code without the C extension, the calls between it and
/// the alignment before it free only multiples of what has to divide its address: then no call
/// there has `TAIL_C`, and none is a site if that is more than 4.
///
/// **LoongArch.** Where `R_LARCH_RELAX` is the next relocation, at the same offset, and the target
/// is in the run, `R_LARCH_CALL36` makes a `CALL36` if the bytes are `pcaddu18i` and `jirl` of one
/// register and the `jirl` links `ra` or none. `R_LARCH_PCALA_HI20` makes a `PCALA` if after its
/// `R_LARCH_RELAX` are `R_LARCH_PCALA_LO12` of the next instruction, with the same target, and an
/// `R_LARCH_RELAX` there, and the bytes are `pcalau12i` and `addi.d` of one register.
///
/// `R_LARCH_ALIGN` makes an alignment, if there are nops. Without a symbol its addend is how many
/// bytes the nops have, and what they align to is the next power of two above it. With a symbol the
/// addend's lowest 8 bits are the exponent of two of what they align to, whose nops are 4 bytes
/// fewer. The other bits are its limit, the most bytes that may stay, if they are above 0 and below
/// the nops (LoongArch ELF psABI, "Relocations").
///
/// `Malformed` names the relocation that `first_malformed` returns. The vectors grow as items are
/// added. `are_items` returns whether the run can be relaxed.
pub fn section_items<R: AsRelocation>(
    alloc: Global,
    machine: Machine,
    section: &[u8],
    base: u64,
    relocations: &[R],
) -> Result<SectionItems, ItemsError>
    requires { base + length section.now < 2 ^ 64 }
    ensures made { IfOk result (λ made.
        AreMade (Makes machine section.now base (map R.relocation relocations.now))
        (length relocations.now) (items_in made.items.items) made.makers.items) }
    ensures form { IfOk result (λ made. All HasKind made.items.items) }
    ensures formed { OnOk result (AreWellFormed (IsFormed machine section.now)
        (map R.relocation relocations.now) (length relocations.now)) }
    ensures cause { IfErr result
        (IsItemsCause (IsFormed machine section.now) (map R.relocation relocations.now)) }
{
    if let Some(index) = first_malformed(machine, section, relocations) {
        return Err(ItemsError::Malformed(index));
    }
    let mut items = Vec::new(alloc);
    let mut makers = Vec::new(alloc);
    let mut next = 0;
    for index in 0..relocations.len() {
        next = ahead(machine, relocations, index, next);
        if let Some(item) = item_at(machine, section, base, relocations, index, next) {
            items.push(ItemNumbers::from_item(item))?;
            makers.push(index)?;
        }
    }
    Ok(SectionItems { items, makers })
}

/// `section_items` into memory of the caller's, which has an element of `out` and of `makers` for
/// each relocation, since each makes one item at most. It returns how many items there are; the
/// elements from there on are unchanged.
///
/// The error is the index that `first_malformed` returns, and nothing is written then. It doesn't
/// allocate.
pub fn section_items_into<R: AsRelocation>(
    machine: Machine,
    section: &[u8],
    base: u64,
    relocations: &[R],
    out: &mut [ItemNumbers],
    makers: &mut [usize],
) -> Result<usize, usize>
    requires base { base + length section.now < 2 ^ 64 }
    requires one_each { length out.old ≡ length relocations.now }
    requires makers { length makers.old ≡ length relocations.now }
    ensures made { IfOk result (λ count.
        AreMade (Makes machine section.now base (map R.relocation relocations.now))
        (length relocations.now) (items_in (take count out.new)) (take count makers.new)) }
    ensures form { IfOk result (λ count. All HasKind (take count out.new)) }
    ensures others_stay { IfOk result (λ count. (drop count out.new ≡ drop count out.old)
        × (drop count makers.new ≡ drop count makers.old)) }
    ensures formed { OnOk result (AreWellFormed (IsFormed machine section.now)
        (map R.relocation relocations.now) (length relocations.now)) }
    ensures malformed { IfErr result
        (IsFirstMalformed (IsFormed machine section.now) (map R.relocation relocations.now)) }
    ensures unchanged { OnErr result ((out.new ≡ out.old) × (makers.new ≡ makers.old)) }
{
    if let Some(index) = first_malformed(machine, section, relocations) {
        return Err(index);
    }
    let mut count = 0;
    let mut next = 0;
    for index in 0..relocations.len() {
        next = ahead(machine, relocations, index, next);
        if let Some(item) = item_at(machine, section, base, relocations, index, next) {
            out[count] = ItemNumbers::from_item(item);
            makers[count] = index;
            count += 1;
        }
    }
    Ok(count)
}
