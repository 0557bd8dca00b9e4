//! LoongArch: what a call and an address become.

ghost use Rattle.std.specs.Prelude.{◌≡◌, ◌+◌, ◌≤◌, ◌<◌, ◌*◌, ◌^◌, ◌↔◌, ⊤, Some, IsTrue, length};
ghost use Rattle.std.specs.Prelude.{IfOk, IfErr, OnOk, IfSome, MatchOption, IsSomeAnd};
ghost use Rattle.std.specs.Int.{w32, to_le_bytes};
ghost use Rattle.linker_elf.specs.LoongArchRelocations.{loongarch_row};
ghost use Rattle.linker_runs.specs.LoongArchSites.{IsSiteAt, IsAddressOutOfReach, LoongArchBecomes};
ghost use Rattle.linker_runs.specs.LoongArchSites.{ArePagesNear, LoongArchAccepts, LoongArchCause};
ghost use Rattle.linker_runs.specs.LoongArchSites.{destination, short_template, IsLongOutOfReach};
ghost use Rattle.linker_runs.specs.LoongArchSites.{IsKindAt};
ghost use Rattle.linker_runs.specs.Inner.LoongArch.{AreRelocated, IsLongOf};
ghost use Rattle.linker_runs.specs.Origins.{HasLoongArchShapes};
ghost use Rattle.linker_runs.specs.Inner.Pieces.{template_is, code_bytes};

use crate::loongarch64::{is_address, is_call};
use crate::packing::ItemError;
use crate::packing::code::{Code, Template, operands_of, pair_at, relocated};
use crate::relaxation::Shapes;
use crate::shapes::loongarch64::{CALL36, PCALA};
use linker_base::utils::u32_from_slice;
use linker_elf::elf::{AllowedRange, Row, Sign};
use linker_utils::loongarch64::{self, LoongArch64Relocation};

/// The instructions of a site.
#[derive(Clone, Copy)]
pub(crate) enum Kind {
    /// `pcaddu18i`, and a `jirl` that links `ra` or none.
    Call,
    /// `pcalau12i` and `addi.d` of one register.
    Address,
}

/// What a relocation means that has a row.
#[inline(always)]
fn row_of(name: LoongArch64Relocation) -> Row
    requires { IsSomeAnd (loongarch_row name) (λ _. ⊤) }
    ensures { loongarch_row name ≡ Some result }
{
    match linker_utils::loongarch64::row(name) {
        Some(row) => row,
        None => unreachable!(),
    }
}

/// The site's instructions at an offset. None where other ones are there.
#[inline(always)]
fn kind_at(section: &[u8], offset: u64) -> Option<Kind>
    ensures { MatchOption result (¬ IsSiteAt section.now offset)
        (λ kind. IsKindAt section.now offset kind) }
{
    if is_call(section, offset) {
        Some(Kind::Call)
    } else if is_address(section, offset) {
        Some(Kind::Address)
    } else {
        None
    }
}

/// The destination register of the second instruction at an offset.
#[inline(always)]
fn destination(section: &[u8], offset: u64) -> u32
    requires { offset + 8 ≤ length section.now }
    ensures { result ≡ destination section.now offset }
{
    u32_from_slice(&section[offset as usize + 4..]) & 0x1f
}

/// `b` of distance 0, or `bl` where register 1, `ra`, is linked.
#[inline(always)]
fn branch(link: u32) -> [u8; 4]
    requires { link < 2 }
    ensures { result ≡ to_le_bytes w32 (0x50000000 + link * 2 ^ 26) }
{
    (0x5000_0000 + link * 0x0400_0000).to_le_bytes()
}

/// `pcaddi` of distance 0 into a register.
#[inline(always)]
fn pcaddi(register: u32) -> [u8; 4]
    requires { register < 32 }
    ensures { result ≡ to_le_bytes w32 (0x18000000 + register) }
{
    (0x1800_0000 + register).to_le_bytes()
}

/// The short instruction of a site.
#[inline(always)]
fn short_of(section: &[u8], offset: u64, kind: Kind) -> Template
    requires inside { offset + 8 ≤ length section.now }
    requires kind { IsKindAt section.now offset kind }
    ensures template { template_is result ≡ short_template section.now offset kind }
    ensures len { length (code_bytes result.code) ≡ 4 }
{
    let register = destination(section, offset);
    match kind {
        Kind::Call => Template {
            row: row_of(LoongArch64Relocation::R_LARCH_B26),
            code: Code::Word(branch(register)),
        },
        Kind::Address => Template {
            row: row_of(LoongArch64Relocation::R_LARCH_PCREL20_S2),
            code: Code::Word(pcaddi(register)),
        },
    }
}

/// Whether the distance of the pages is a number of 32 bits.
#[inline(always)]
fn are_pages_near(row: &Row, place: u64, target: u64) -> bool
    requires { loongarch_row LoongArch64Relocation.R_LARCH_PCALA_HI20 ≡ Some row.now }
    ensures { IsTrue result ↔ ArePagesNear place target }
{
    match row.formula_value(&operands_of(place, target)) {
        Some(distance) => AllowedRange::from_bit_size(32, Sign::Signed).contains(distance),
        None => false,
    }
}

/// The `pcalau12i` and `addi.d` at an offset with their relocations applied. None where they can't
/// compute the target, or a relocation's value is rejected.
#[inline(always)]
fn address_of(section: &[u8], offset: u64, place: u64, target: u64) -> Option<[u8; 8]>
    requires { offset + 8 ≤ length section.now }
    ensures { MatchOption result (IsAddressOutOfReach section.now offset place target)
        (λ pair. AreRelocated section.now offset place target pair) }
{
    let row = row_of(LoongArch64Relocation::R_LARCH_PCALA_HI20);
    if !are_pages_near(&row, place, target) {
        return None;
    }
    let mut pair = pair_at(section, offset);
    if !row.apply_formula(&operands_of(place, target), &mut pair[..4]) {
        return None;
    }
    let row = row_of(LoongArch64Relocation::R_LARCH_PCALA_LO12);
    if !row.apply_formula(&operands_of(place.wrapping_add(4), target), &mut pair[4..]) {
        return None;
    }
    Some(pair)
}

/// The instructions of a site as they are, with their relocations applied. None where they can't
/// reach the target.
#[inline(always)]
fn long_of(section: &[u8], offset: u64, kind: Kind, place: u64, target: u64) -> Option<Code>
    requires { offset + 8 ≤ length section.now }
    ensures long { MatchOption result (IsLongOutOfReach section.now offset kind place target)
        (λ code. IsLongOf section.now offset kind place target (code_bytes code)) }
    ensures len { IfSome result (λ code. length (code_bytes code) ≡ 8) }
{
    match kind {
        Kind::Call => {
            let template = Template {
                row: row_of(LoongArch64Relocation::R_LARCH_CALL36),
                code: Code::Pair(pair_at(section, offset)),
            };
            relocated(template, place, target)
        }
        Kind::Address => match address_of(section, offset, place, target) {
            Some(pair) => Some(Code::Pair(pair)),
            None => None,
        },
    }
}

/// What a site becomes of which n bytes stay, at an address and for a target's.
#[inline(always)]
pub(crate) fn code_of(
    section: &[u8],
    offset: u64,
    kept: u64,
    place: u64,
    target: u64,
) -> Result<Code, ItemError>
    requires { offset + 8 ≤ length section.now }
    ensures becomes { IfOk result
        (λ code. LoongArchBecomes section.now offset place target (code_bytes code)) }
    ensures len { IfOk result (λ code. length (code_bytes code) ≡ kept) }
    ensures accepts { OnOk result (LoongArchAccepts section.now offset kept place target) }
    ensures rejected { IfErr result (LoongArchCause section.now offset kept place target) }
{
    let Some(kind) = kind_at(section, offset) else {
        return Err(ItemError::NotItsInstructions);
    };
    linker_laws::relocations::loongarch64();
    match kept {
        4 => match relocated(short_of(section, offset, kind), place, target) {
            Some(code) => Ok(code),
            None => Err(ItemError::OutOfReach),
        },
        8 => match long_of(section, offset, kind, place, target) {
            Some(code) => Ok(code),
            None => Err(ItemError::OutOfReach),
        },
        _ => Err(ItemError::NoShape),
    }
}

/// Whether a site at an offset has the shapes.
pub(crate) fn has_shapes(section: &[u8], offset: u64, shapes: &Shapes) -> bool
    ensures { IsTrue result ↔ HasLoongArchShapes section.now offset shapes.now }
{
    match kind_at(section, offset) {
        Some(Kind::Call) => *shapes == CALL36,
        Some(Kind::Address) => *shapes == PCALA,
        None => false,
    }
}
