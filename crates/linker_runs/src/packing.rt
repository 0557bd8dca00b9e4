//! A section of a relaxed run, packed.

ghost use Rattle.std.specs.Prelude.{◌≡◌, ◌+◌, ◌-◌, ◌≤◌, ◌<◌, ◌^◌, ◌++◌, ◌↔◌, ◌*◌};
ghost use Rattle.std.specs.Prelude.{◌%◌, ℕ, length, take, drop, true, false};
ghost use Rattle.std.specs.Prelude.{List, IsTrue, IfOk, IfErr, OnOk, OnErr, IfSome, IfNone};
ghost use Rattle.linker_base.specs.Deletions.{rank};
ghost use Rattle.linker_base.specs.Deltas.{deletions_of};
ghost use Rattle.linker_base.specs.Listed.{AreValidDeltas};
ghost use Rattle.linker_runs.specs.Machines.{machine_of};
ghost use Rattle.linker_runs.specs.Moved.{AreMoved};
ghost use Rattle.linker_runs.specs.Relaxing.{offset_of, end_of};
ghost use Rattle.linker_runs.specs.Packing.{kept_len, packed_offset, IsFirstRejected, IsUnwritable};
ghost use Rattle.linker_runs.specs.Packing.{IsPackedRun, SiteBecomes, SiteAccepts, ItemBecomes};
ghost use Rattle.linker_runs.specs.Packing.{section_of, nops, KeepsFirst, ItemAccepts, IsWritable};
ghost use Rattle.linker_runs.specs.Packing.{is_fixed, IsInside, StayWhole, SiteCause, ItemCause};
ghost use Rattle.linker_runs.specs.Packing.{KeepsEnd, nop_len, repeated};
ghost use Rattle.linker_runs.specs.Relaxing.{items_in};
ghost use Rattle.linker_runs.specs.Origins.{HasItsInstructions};
ghost use Rattle.linker_runs.specs.Inner.Pieces.{code_bytes, piece_bytes, IsWhole, IsPieceOf};
ghost use Rattle.linker_base.specs.Inner.Packing.{IsFilled, IsPosition};
ghost use Rattle.linker_runs.specs.Inner.Packing.{AreReady};

mod code;
mod loongarch64;
mod moved;
mod riscv32;
mod riscv64;

use crate::items::{ItemList, ItemNumbers, has_bytes};
use crate::packing::code::Code;
use crate::packing::moved::move_relocations;
pub use crate::packing::riscv32::Isa;
use crate::relaxation::{Item, Site};
use linker_base::packing::{Position, copy_kept, position_from, position_of};
use linker_base::relaxation::{DeltaSlice, RelaxDelta};
use linker_base::rewrite::overwrite;
use linker_utils::elf::Architecture;

/// The architecture of a section's code.
#[derive(Clone, Copy)]
pub enum Machine {
    /// RISC-V.
    RiscV(Isa),
    /// LoongArch of 64 bits.
    LoongArch64,
}

impl Machine {
    /// The machine of an architecture, if its code can become shorter.
    #[inline]
    pub fn of(architecture: Architecture) -> Option<Machine>
        ensures { result ≡ machine_of architecture }
    {
        match architecture {
            Architecture::RiscV => Some(Machine::RiscV(Isa::Rv64)),
            Architecture::LoongArch64 => Some(Machine::LoongArch64),
            Architecture::AArch64 | Architecture::Ppc64 | Architecture::X86_64 => None,
        }
    }
}

/// Why an item isn't written.
#[derive(Clone, Copy)]
pub enum ItemError {
    /// It begins below the end of the item before it.
    Overlaps,
    /// It doesn't lie in the section.
    OutOfSection,
    /// Bytes between the item before it, or the section's begin, and it are deleted, so that an
    /// item is missing. The index is that after the last item where bytes between that and the
    /// section's end are.
    DeletedOutside,
    /// N bytes of it stay, but they aren't its first ones.
    NotItsFirstBytes,
    /// The instructions of the site aren't those that its shapes stand for.
    NotItsInstructions,
    /// No instruction, or no nops, have as many bytes as stay.
    NoShape,
    /// The instructions don't reach the target: it is too far, or the distance isn't a multiple of
    /// what the instruction counts in.
    OutOfReach,
}

/// The first item of a section that can't be written.
#[derive(Clone, Copy)]
pub struct RejectedItem {
    /// Its index among the items, or how many there are.
    pub index: usize,
    /// Why it can't.
    pub error: ItemError,
}

/// What is written in place of the bytes of an item that stay.
#[derive(Clone, Copy)]
pub(crate) enum Piece {
    /// Nothing: they stay as they are.
    Nothing,
    /// N bytes of nops.
    Nops(u64),
    /// An instruction.
    Code(Code),
}

/// Whether the item at an index begins at or above a position after the one before it.
#[inline(always)]
fn is_apart(index: usize, following: &Position, item: &Item) -> bool
    ensures { IsTrue result
        ↔ (0 < index → following.now.input_offset ≤ offset_of item.now) }
{
    index == 0 || following.input_offset <= item.offset()
}

/// Whether an item lies in a section that begins at the input offset `base`.
#[inline(always)]
fn is_inside(section: &[u8], base: u64, item: &Item) -> bool
    ensures { (deletions : List (ℕ × ℕ)) (start : ℕ)
        → IsTrue result ↔ IsInside (section_of section.now base deletions start) item.now }
{
    item.offset() >= base && has_bytes(section, item.offset() - base, item.len())
}

/// Whether all bytes between two positions stay.
#[inline(always)]
fn stay_whole(from: &Position, to: &Position) -> bool
    requires { from.now.input_offset ≤ to.now.input_offset }
    ensures { (deltas : List RelaxDelta) → AreValidDeltas deltas
        → IsPosition deltas from.now → IsPosition deltas to.now
        → (IsTrue result
        ↔ StayWhole (deletions_of deltas) from.now.input_offset to.now.input_offset) }
{
    to.output_offset.saturating_sub(from.output_offset) == to.input_offset - from.input_offset
}

/// What the instructions of a site become of which n bytes stay.
#[inline(always)]
fn code_of_site(
    machine: Machine,
    section: &[u8],
    base: u64,
    deltas: &[RelaxDelta],
    at: &Position,
    start: u64,
    site: &Site,
    kept: u64,
) -> Result<Code, ItemError>
    requires at { at.now.input_offset ≡ site.now.offset }
    requires from { base ≤ site.now.offset }
    requires to { site.now.offset + site.now.len ≤ base + length section.now }
    ensures becomes { AreValidDeltas deltas.now → IsPosition deltas.now at.now
        → IfOk result (λ code.
        SiteBecomes machine (section_of section.now base (deletions_of deltas.now) start) site.now
        (code_bytes code)) }
    ensures len { IfOk result (λ code. length (code_bytes code) ≡ kept) }
    ensures accepts { AreValidDeltas deltas.now → IsPosition deltas.now at.now
        → OnOk result
        (SiteAccepts machine (section_of section.now base (deletions_of deltas.now) start) site.now
        kept) }
    ensures rejected { AreValidDeltas deltas.now → IsPosition deltas.now at.now
        → IfErr result
        (SiteCause machine (section_of section.now base (deletions_of deltas.now) start) site.now
        kept) }
{
    if site.len != 8 {
        return Err(ItemError::NotItsInstructions);
    }
    let place = start.wrapping_add(at.output_offset);
    let target = start.wrapping_add(position_of(deltas, site.target).output_offset);
    match machine {
        Machine::RiscV(_) => {
            riscv64::code_of(machine, section, site.offset - base, kept, place, target)
        }
        Machine::LoongArch64 => {
            loongarch64::code_of(section, site.offset - base, kept, place, target)
        }
    }
}

/// How many bytes the shortest nop has.
#[inline(always)]
fn nop_len(machine: Machine) -> u64
    ensures len { result ≡ nop_len machine }
    ensures some { 0 < result }
{
    match machine {
        Machine::RiscV(_) => 2,
        Machine::LoongArch64 => 4,
    }
}

/// Whether the linker has decided what stays of an item.
#[inline(always)]
fn is_fixed(item: &Item) -> bool
    ensures { result ≡ is_fixed item.now }
{
    match item {
        Item::Site(site) => site.shapes.count == 0,
        Item::Aligned(_) => false,
    }
}

/// How many bytes of an item between two positions stay, if they are its first ones.
#[inline(always)]
fn kept_of(deltas: &[RelaxDelta], at: &Position, end: &Position, item: &Item) -> Option<u64>
    requires small { end_of item.now < 2 ^ 64 }
    requires at { at.now.input_offset ≡ offset_of item.now }
    requires end { end.now.input_offset ≡ end_of item.now }
    ensures some { AreValidDeltas deltas.now → IsPosition deltas.now at.now
        → IsPosition deltas.now end.now
        → IfSome result (λ kept. (kept ≡ kept_len (deletions_of deltas.now) item.now)
        × KeepsFirst (deletions_of deltas.now) item.now) }
    ensures none { AreValidDeltas deltas.now → IsPosition deltas.now at.now
        → IsPosition deltas.now end.now
        → IfNone result (¬ KeepsFirst (deletions_of deltas.now) item.now) }
{
    let kept = end.output_offset.saturating_sub(at.output_offset);
    if kept > item.len() {
        return None;
    }
    let following = position_from(deltas, at, at.input_offset + kept);
    if following.output_offset == at.output_offset + kept {
        Some(kept)
    } else {
        None
    }
}

/// What is written of an item of which n bytes stay.
#[inline(always)]
fn piece_for(
    machine: Machine,
    section: &[u8],
    base: u64,
    deltas: &[RelaxDelta],
    at: &Position,
    start: u64,
    item: &Item,
    kept: u64,
) -> Result<Piece, ItemError>
    requires at { at.now.input_offset ≡ offset_of item.now }
    requires from { base ≤ offset_of item.now }
    requires to { end_of item.now ≤ base + length section.now }
    ensures becomes { AreValidDeltas deltas.now → IsPosition deltas.now at.now
        → IfOk result (λ piece.
        ItemBecomes machine (section_of section.now base (deletions_of deltas.now) start) item.now
        (piece_bytes machine piece)) }
    ensures len { IfOk result (λ piece. length (piece_bytes machine piece) ≡ kept) }
    ensures whole { IfOk result (IsWhole machine) }
    ensures accepts { AreValidDeltas deltas.now → IsPosition deltas.now at.now
        → OnOk result
        (ItemAccepts machine (section_of section.now base (deletions_of deltas.now) start) item.now
        kept) }
    ensures rejected { AreValidDeltas deltas.now → IsPosition deltas.now at.now
        → IfErr result
        (ItemCause machine (section_of section.now base (deletions_of deltas.now) start) item.now
        kept) }
{
    match item {
        Item::Aligned(_) => {
            if kept % nop_len(machine) == 0 {
                Ok(Piece::Nops(kept))
            } else {
                Err(ItemError::NoShape)
            }
        }
        Item::Site(site) => {
            let code = code_of_site(machine, section, base, deltas, at, start, site, kept)?;
            Ok(Piece::Code(code))
        }
    }
}

/// What is written in place of an item's bytes that stay.
#[inline(always)]
fn piece_of(
    machine: Machine,
    section: &[u8],
    base: u64,
    deltas: &[RelaxDelta],
    at: &Position,
    end: &Position,
    start: u64,
    item: &Item,
) -> Result<Piece, ItemError>
    requires small { base + length section.now < 2 ^ 64 }
    requires at { at.now.input_offset ≡ offset_of item.now }
    requires end { end.now.input_offset ≡ end_of item.now }
    requires from { base ≤ offset_of item.now }
    requires to { end_of item.now ≤ base + length section.now }
    ensures piece { AreValidDeltas deltas.now → IsPosition deltas.now at.now
        → IsPosition deltas.now end.now → IfOk result
        (IsPieceOf machine (section_of section.now base (deletions_of deltas.now) start) item.now) }
    ensures writable { AreValidDeltas deltas.now → IsPosition deltas.now at.now
        → IsPosition deltas.now end.now → OnOk result (is_fixed item.now ≡ false
        → IsWritable machine (section_of section.now base (deletions_of deltas.now) start)
        item.now) }
    ensures rejected { AreValidDeltas deltas.now → IsPosition deltas.now at.now
        → IsPosition deltas.now end.now → IfErr result (λ error. (is_fixed item.now ≡ false)
        × IsUnwritable machine (section_of section.now base (deletions_of deltas.now) start)
        item.now error) }
{
    if is_fixed(item) {
        return Ok(Piece::Nothing);
    }
    match kept_of(deltas, at, end, item) {
        Some(kept) => piece_for(machine, section, base, deltas, at, start, item, kept),
        None => Err(ItemError::NotItsFirstBytes),
    }
}

/// Whether each item can be written; the error is that of the first that can't.
fn test_items(
    machine: Machine,
    section: &[u8],
    base: u64,
    items: &ItemList<'_>,
    deltas: &[RelaxDelta],
    start: u64,
    begin: &Position,
) -> Result<(), RejectedItem>
    requires small { base + length section.now < 2 ^ 64 }
    requires begin { begin.now.input_offset ≡ base }
    ensures ok { AreValidDeltas deltas.now → IsPosition deltas.now begin.now
        → OnOk result
        (AreReady machine (section_of section.now base (deletions_of deltas.now) start) items.now
        (length items.now)
        × KeepsEnd (section_of section.now base (deletions_of deltas.now) start) items.now) }
    ensures err { AreValidDeltas deltas.now → IsPosition deltas.now begin.now
        → IfErr result
        (IsFirstRejected machine (section_of section.now base (deletions_of deltas.now) start)
        items.now) }
{
    let count = items.len();
    let mut following = *begin;
    for index in 0..count {
        let item = items.at(index);
        if !is_apart(index, &following, &item) {
            return Err(RejectedItem {
                index,
                error: ItemError::Overlaps,
            });
        }
        if !is_inside(section, base, &item) {
            return Err(RejectedItem {
                index,
                error: ItemError::OutOfSection,
            });
        }
        let at = position_from(deltas, &following, item.offset());
        if !stay_whole(&following, &at) {
            return Err(RejectedItem {
                index,
                error: ItemError::DeletedOutside,
            });
        }
        let past = position_from(deltas, &at, item.offset().saturating_add(item.len()));
        if let Err(error) = piece_of(machine, section, base, deltas, &at, &past, start, &item) {
            return Err(RejectedItem { index, error });
        }
        following = past;
    }
    let end = position_from(deltas, &following, base + section.len() as u64);
    if stay_whole(&following, &end) {
        Ok(())
    } else {
        Err(RejectedItem {
            index: count,
            error: ItemError::DeletedOutside,
        })
    }
}

/// Puts bytes at an offset, where they fit there.
#[inline(always)]
fn put_bytes(packed: &mut [u8], at: u64, bytes: &[u8])
    ensures { at + length bytes.now ≤ length packed.old
        → packed.new ≡ take at packed.old ++ bytes.now ++ drop (at + length bytes.now) packed.old }
{
    if !has_bytes(packed, at, bytes.len() as u64) {
        return;
    }
    overwrite(packed, at, bytes);
}

/// Puts n of the same four bytes at an offset, where they fit there.
fn put_words(packed: &mut [u8], at: u64, word: [u8; 4], count: u64)
    ensures { at + 4 * count ≤ length packed.old
        → packed.new
        ≡ take at packed.old ++ repeated word count ++ drop (at + 4 * count) packed.old }
{
    let len = packed.len() as u64;
    if count > len / 4 || at > len - 4 * count {
        return;
    }
    for index in 0..count {
        put_bytes(packed, at + 4 * index, &word);
    }
}

/// Puts n bytes of nops at an offset, where they fit there.
fn put_nops(machine: Machine, packed: &mut [u8], at: u64, len: u64)
    ensures { at + len ≤ length packed.old → len % nop_len machine ≡ 0
        → packed.new ≡ take at packed.old ++ nops machine len ++ drop (at + len) packed.old }
{
    match machine {
        Machine::RiscV(_) => {
            put_words(packed, at, [0x13, 0x00, 0x00, 0x00], len / 4);
            if len % 4 == 2 {
                put_bytes(packed, at.wrapping_add(len - 2), &[0x01, 0x00]);
            }
        }
        Machine::LoongArch64 => put_words(packed, at, [0x00, 0x00, 0x40, 0x03], len / 4),
    }
}

/// Puts what is written of an item at an offset, where it fits there.
#[inline(always)]
fn put_piece(machine: Machine, packed: &mut [u8], at: u64, piece: Piece)
    ensures { at + length (piece_bytes machine piece) ≤ length packed.old
        → IsWhole machine piece
        → packed.new ≡ take at packed.old ++ piece_bytes machine piece
        ++ drop (at + length (piece_bytes machine piece)) packed.old }
{
    match piece {
        Piece::Nothing => {}
        Piece::Nops(len) => put_nops(machine, packed, at, len),
        Piece::Code(code) => match code {
            Code::Half(bytes) => put_bytes(packed, at, &bytes),
            Code::Word(bytes) => put_bytes(packed, at, &bytes),
            Code::Pair(bytes) => put_bytes(packed, at, &bytes),
        },
    }
}

/// Puts what is written of each item, where it can be written.
fn put_items(
    machine: Machine,
    section: &[u8],
    base: u64,
    items: &ItemList<'_>,
    deltas: &[RelaxDelta],
    start: u64,
    begin: &Position,
    packed: &mut [u8],
)
    requires small { base + length section.now < 2 ^ 64 }
    requires begin { begin.now.input_offset ≡ base }
    ensures { AreValidDeltas deltas.now → IsPosition deltas.now begin.now
        → length packed.old
        ≡ packed_offset (section_of section.now base (deletions_of deltas.now) start)
        (base + length section.now)
        → AreReady machine (section_of section.now base (deletions_of deltas.now) start) items.now
        (length items.now)
        → KeepsEnd (section_of section.now base (deletions_of deltas.now) start) items.now
        → IsFilled (deletions_of deltas.now) base section.now packed.old
        → IsPackedRun machine (section_of section.now base (deletions_of deltas.now) start)
        items.now packed.new }
{
    let mut at = *begin;
    let before = at.output_offset;
    for index in 0..items.len() {
        let item = items.at(index);
        if !is_inside(section, base, &item) {
            return;
        }
        at = position_from(deltas, &at, item.offset());
        let past = position_from(deltas, &at, item.offset().saturating_add(item.len()));
        match piece_of(machine, section, base, deltas, &at, &past, start, &item) {
            Err(_error) => return,
            Ok(piece) => {
                let place = at.output_offset.saturating_sub(before);
                put_piece(machine, packed, place, piece);
            }
        }
    }
}

/// How many bytes of a section stay: as many as it takes when it is packed. The section has `len`
/// bytes, and begins at the input offset `base` of the run that loses what the deltas list.
pub fn packed_run_len(base: u64, len: usize, deltas: &[RelaxDelta]) -> usize
    requires { base + len < 2 ^ 64 }
    ensures { AreValidDeltas deltas.now
        → result
        ≡ rank (deletions_of deltas.now) (base + len) - rank (deletions_of deltas.now) base }
{
    let run = DeltaSlice::new(deltas);
    let end = run.input_to_output_offset(base + len as u64);
    end.saturating_sub(run.input_to_output_offset(base)) as usize
}

/// Whether a site is eight bytes of a section, of instructions that can have its shapes: of RISC-V
/// `auipc` and `jalr` with `CALL`, or with `TAIL_C` where they link x0, or x1 on RV32; of LoongArch
/// `pcaddu18i` and `jirl` with `CALL36`, or `pcalau12i` and `addi.d` of one register with `PCALA`.
/// The section begins at the input offset `base` of the run. A site of which the linker has decided
/// has none of these shapes; an alignment has no instructions to be tested.
///
/// Where this is so of a site that `relax` made shorter, `pack_run` can write it: the instruction
/// reaches its target.
pub fn has_its_instructions(machine: Machine, section: &[u8], base: u64, item: &Item) -> bool
    ensures { IsTrue result ↔ HasItsInstructions machine section.now base item.now }
{
    let Item::Site(site) = item else {
        return true;
    };
    if site.len != 8 || !is_inside(section, base, item) {
        return false;
    }
    let offset = site.offset - base;
    match machine {
        Machine::RiscV(_) => riscv64::has_shapes(machine, section, offset, &site.shapes),
        Machine::LoongArch64 => loongarch64::has_shapes(section, offset, &site.shapes),
    }
}

/// Packs a section of a relaxed run into memory of the caller's: the bytes that stay, in order,
/// with the instructions of its sites and the nops of its alignments written anew.
///
/// The section begins at the input offset `base` of the run. The run begins at the address `start`
/// and loses what `deltas` list, as `relax` returns it; addresses are modulo 2^64. `items` are all
/// of the run's items that lie in the section and lose bytes, in their order, and any others there.
/// Targets may lie anywhere in the run.
///
/// How many bytes of an item stay, which have to be its first ones, says what is written:
/// - of RISC-V two bytes of `c.j` for a call that links x0, or on RV32 of `c.jal` for one that
///   links x1, `jal` of four with the link register of the `jalr`, and of eight the call as it is,
///   with `R_RISCV_CALL_PLT` applied (RISC-V ELF psABI, "Function Call Relaxation");
/// - of LoongArch four bytes of `b` for a call whose `jirl` links none, of `bl` for one that links
///   `ra`, and of `pcaddi`, with the `addi.d`'s register, for an address; of eight the instructions
///   as they are, with `R_LARCH_CALL36`, or `R_LARCH_PCALA_HI20` and `R_LARCH_PCALA_LO12`, applied
///   (LoongArch ELF psABI, "Linker Relaxation"). The instructions tell which of both a site is;
/// - of an alignment nops: of RISC-V `nop`, and at most one `c.nop` at the end; of LoongArch
///   `andi zero, zero, 0`.
///
/// A site without short shapes, as `fixed` has it, is left as it is.
///
/// `relocations` are those of the section, as ELF files have them. Each goes to the offset where
/// its place goes, with its symbol and addend. That of a site which became shorter has the type of
/// the one instruction then: `R_RISCV_JAL` or `R_RISCV_RVC_JUMP` in place of `R_RISCV_CALL_PLT` and
/// `R_RISCV_CALL`, `R_LARCH_B26` in place of `R_LARCH_CALL36`, and `R_LARCH_PCREL20_S2` in place of
/// `R_LARCH_PCALA_HI20`. So `relocate_section` writes its value, and an output can keep it. The
/// others at such a site's begin, those of alignments among the items, and those whose byte is
/// deleted, as `R_LARCH_PCALA_LO12`, have the type 0. Any other keeps its type. One after the
/// section's end stays as it is, and so do bytes after the last whole relocation.
///
/// Requires an output of `packed_run_len` bytes. The deltas are as `SectionRelaxDeltas::deltas`
/// lists them (`DeltaSlice::has_valid_deltas`). With others the call is safe, but what it writes
/// isn't specified. The error names the first item that can't be written, or before which bytes are
/// deleted that are of no item, and nothing is written then.
///
/// It doesn't allocate. It takes O(section + deltas + items log deltas), and O(log deltas +
/// log items) for each relocation.
pub fn pack_run(
    machine: Machine,
    section: &[u8],
    base: u64,
    items: &[ItemNumbers],
    deltas: &[RelaxDelta],
    start: u64,
    relocations: &mut [u8],
    out: &mut [u8],
) -> Result<(), RejectedItem>
    requires small { base + length section.now < 2 ^ 64 }
    requires room { AreValidDeltas deltas.now
        → length out.old
        ≡ packed_offset (section_of section.now base (deletions_of deltas.now) start)
        (base + length section.now) }
    ensures packed { AreValidDeltas deltas.now
        → OnOk result
        (IsPackedRun machine (section_of section.now base (deletions_of deltas.now) start)
        (items_in items.now) out.new) }
    ensures moved { AreValidDeltas deltas.now
        → OnOk result
        (AreMoved machine (section_of section.now base (deletions_of deltas.now) start)
        (items_in items.now) relocations.old relocations.new) }
    ensures rejected { AreValidDeltas deltas.now
        → IfErr result
        (IsFirstRejected machine (section_of section.now base (deletions_of deltas.now) start)
        (items_in items.now)) }
    ensures unchanged { OnErr result
        ((out.new ≡ out.old) × (relocations.new ≡ relocations.old)) }
{
    let list = ItemList::new(items);
    let begin = position_of(deltas, base);
    test_items(machine, section, base, &list, deltas, start, &begin)?;
    copy_kept(section, base, deltas, out);
    put_items(machine, section, base, &list, deltas, start, &begin, out);
    move_relocations(machine, section, base, &list, deltas, &begin, relocations);
    Ok(())
}
