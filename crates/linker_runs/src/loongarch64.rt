//! LoongArch: the items that relocations make.

ghost use Rattle.std.specs.Prelude.{◌≡◌, ◌+◌, ◌≤◌, ◌<◌, ◌^◌, ◌↔◌, ◌⊎◌, ℕ, IsTrue, length};
ghost use Rattle.std.specs.Prelude.{IfSome, IfNone, MatchOption, map};
ghost use Rattle.linker_runs.specs.declared.relaxation.Item.{Item as items};
ghost use Rattle.linker_runs.specs.declared.relaxation.Site.{Site as sites};
ghost use Rattle.linker_runs.specs.declared.relaxation.Alignment.{Alignment as alignments};
ghost use Rattle.linker_runs.specs.Relocations.{relocation_at};
ghost use Rattle.linker_runs.specs.LoongArchSites.{IsCall36At, IsPcalaAt};
ghost use Rattle.linker_runs.specs.LoongArchItems.{IsLoongArchAlignment, IsLoongArchFormed};
ghost use Rattle.linker_runs.specs.LoongArchItems.{HasLoongArchName, AreLoongArchNops, IsRelaxable};
ghost use Rattle.linker_runs.specs.LoongArchItems.{stated_limit, IsLoongArchSite, LoongArchMakes};
ghost use Rattle.linker_runs.specs.LoongArchItems.{AreStated, IsCall36, IsPcala};

use crate::items::{
    AsRelocation, Relocation, has_bytes, is_marked, relocation_at, unsigned_addend,
};
use crate::relaxation::{Alignment, Item, Shapes, Site};
use crate::shapes::loongarch64::{CALL36, PCALA};
use linker_utils::loongarch64::{LoongArch64Relocation, RewriteKind};

/// Whether a relocation has a name.
#[inline(always)]
fn has_name(relocation: &Relocation, name: LoongArch64Relocation) -> bool
    ensures { IsTrue result ↔ HasLoongArchName name relocation.now }
{
    relocation.r_type == name.r_type()
}

/// How many bytes of nops an addend stands for, and what they align to. None where these are no
/// numbers of 32 and 64 bits, or where nothing is aligned to less than an instruction.
#[inline]
fn stated(has_symbol: bool, addend: u64) -> Option<(u64, u64)>
    requires { addend < 2 ^ 63 }
    ensures some { IfSome result (λ stated. AreStated has_symbol addend stated.0 stated.1) }
    ensures none { IfNone result
        ((nops power : ℕ) → nops < 2 ^ 32 → ¬ AreStated has_symbol addend nops power) }
{
    if !has_symbol {
        return Some((addend, (addend + 1).next_power_of_two()));
    }
    let exponent = addend % 256;
    if exponent < 2 || exponent > 32 {
        return None;
    }
    let power = 1 << exponent;
    Some((power - 4, power))
}

/// How many bytes of nops may stay at most, by an addend.
#[inline]
fn limit_of(has_symbol: bool, addend: u64, nops: u64) -> Option<u64>
    ensures { result ≡ stated_limit has_symbol addend nops }
{
    let most = addend / 256;
    if has_symbol && 0 < most && most < nops {
        Some(most)
    } else {
        None
    }
}

/// The alignment of an `R_LARCH_ALIGN` at an offset of the run. None where its nops aren't what the
/// psABI allows.
#[inline]
fn stated_alignment(section: &[u8], relocation: &Relocation, offset: u64) -> Option<Alignment>
    ensures place { IfSome result (λ alignment. alignment.offset ≡ offset) }
    ensures some { IfSome result (λ alignment. (addend : ℕ)
        × AreLoongArchNops section.now relocation.now addend alignment.nops alignment.alignment
        × (alignment.max_skip ≡ stated_limit relocation.now.has_symbol addend alignment.nops)) }
    ensures none { IfNone result ((addend nops power : ℕ)
        → ¬ AreLoongArchNops section.now relocation.now addend nops power) }
{
    let addend = unsigned_addend(relocation)?;
    let (nops, power) = stated(relocation.has_symbol, addend)?;
    if nops % 4 != 0 || nops > u64::from(u32::MAX) || !has_bytes(section, relocation.offset, nops) {
        return None;
    }
    Some(Alignment {
        offset,
        nops: nops as u32,
        alignment: power,
        max_skip: limit_of(relocation.has_symbol, addend, nops),
    })
}

/// The item of an `R_LARCH_ALIGN`, if it has nops.
#[inline]
fn alignment_at(section: &[u8], base: u64, relocation: &Relocation) -> Option<Alignment>
    requires base { base + length section.now < 2 ^ 64 }
    requires inside { relocation.now.offset ≤ length section.now }
    requires name { HasLoongArchName LoongArch64Relocation.R_LARCH_ALIGN relocation.now }
    ensures { MatchOption result
        ((alignment : alignments) → ¬ IsLoongArchAlignment section.now base relocation.now
        alignment)
        (IsLoongArchAlignment section.now base relocation.now) }
{
    let alignment = stated_alignment(section, relocation, base + relocation.offset)?;
    if alignment.nops == 0 {
        None
    } else {
        Some(alignment)
    }
}

/// Whether the relocation at an index has a name, and the instruction may be relaxed.
#[inline]
fn is_relaxable<R: AsRelocation>(
    relocations: &[R],
    index: usize,
    name: LoongArch64Relocation,
) -> bool
    requires { index < length relocations.now }
    ensures { IsTrue result ↔ IsRelaxable name (map R.relocation relocations.now) index }
{
    has_name(&relocation_at(relocations, index), name)
        && is_marked(
            relocations,
            index,
            LoongArch64Relocation::R_LARCH_RELAX.r_type(),
        )
}

/// Whether a call that can become `b` or `bl` is at an offset: `pcaddu18i`, and a `jirl` that links
/// `ra` or none.
#[inline]
pub(crate) fn is_call(section: &[u8], offset: u64) -> bool
    ensures { IsTrue result ↔ IsCall36At section.now offset }
{
    RewriteKind::CallToBl.matches(section, offset) || RewriteKind::CallToB.matches(section, offset)
}

/// Whether a pair that can become `pcaddi` is at an offset: `pcalau12i` and
/// `addi.d` of one register.
#[inline]
pub(crate) fn is_address(section: &[u8], offset: u64) -> bool
    ensures { IsTrue result ↔ IsPcalaAt section.now offset }
{
    RewriteKind::PcalaToPcaddi.matches(section, offset)
        && RewriteKind::AddiToLd.matches(section, offset + 4)
}

/// Whether such a call is at a relocation.
#[inline]
fn is_call36<R: AsRelocation>(section: &[u8], relocations: &[R], index: usize) -> bool
    requires { index < length relocations.now }
    ensures { IsTrue result
        ↔ IsCall36 section.now (map R.relocation relocations.now) index }
{
    is_relaxable(relocations, index, LoongArch64Relocation::R_LARCH_CALL36)
        && is_call(section, relocation_at(relocations, index).offset)
}

/// Whether the low part of an address is two relocations after the high part.
#[inline]
fn has_low_part<R: AsRelocation>(relocations: &[R], index: usize) -> bool
    requires { index + 2 < length relocations.now }
    ensures { IsTrue result ↔ (IsRelaxable LoongArch64Relocation.R_LARCH_PCALA_LO12
        (map R.relocation relocations.now) (index + 2)
        × ((relocation_at (map R.relocation relocations.now) (index + 2)).offset
        ≡ (relocation_at (map R.relocation relocations.now) index).offset + 4)
        × ((relocation_at (map R.relocation relocations.now) (index + 2)).target
        ≡ (relocation_at (map R.relocation relocations.now) index).target)) }
{
    let high = relocation_at(relocations, index);
    let low = relocation_at(relocations, index + 2);
    is_relaxable(
        relocations,
        index + 2,
        LoongArch64Relocation::R_LARCH_PCALA_LO12,
    ) && high.offset <= low.offset
        && low.offset - high.offset == 4
        && low.target == high.target
}

/// Whether such a pair is at a relocation.
#[inline]
fn is_pcala<R: AsRelocation>(section: &[u8], relocations: &[R], index: usize) -> bool
    requires { index < length relocations.now }
    ensures { IsTrue result ↔ IsPcala section.now (map R.relocation relocations.now) index }
{
    relocations.len() - index > 2
        && is_relaxable(
            relocations,
            index,
            LoongArch64Relocation::R_LARCH_PCALA_HI20,
        )
        && has_low_part(relocations, index)
        && is_address(section, relocation_at(relocations, index).offset)
}

/// What the instructions at a relocation can become.
#[inline]
fn shapes_at<R: AsRelocation>(section: &[u8], relocations: &[R], index: usize) -> Option<Shapes>
    requires { index < length relocations.now }
    ensures some { IfSome result (λ shapes.
        (IsCall36 section.now (map R.relocation relocations.now) index × (shapes ≡ CALL36))
        ⊎ (IsPcala section.now (map R.relocation relocations.now) index × (shapes ≡ PCALA))) }
    ensures none { IfNone result (¬ IsCall36 section.now (map R.relocation relocations.now) index
        × ¬ IsPcala section.now (map R.relocation relocations.now) index) }
{
    if is_call36(section, relocations, index) {
        Some(CALL36)
    } else if is_pcala(section, relocations, index) {
        Some(PCALA)
    } else {
        None
    }
}

/// The item that a relocation other than `R_LARCH_ALIGN` makes, if it makes one.
#[inline]
fn site_at<R: AsRelocation>(
    section: &[u8],
    base: u64,
    relocations: &[R],
    index: usize,
) -> Option<Site>
    requires index { index < length relocations.now }
    requires base { base + length section.now < 2 ^ 64 }
    requires inside { (relocation_at (map R.relocation relocations.now) index).offset
        ≤ length section.now }
    ensures { MatchOption result
        ((here : sites)
        → ¬ IsLoongArchSite section.now base (map R.relocation relocations.now) index here)
        (IsLoongArchSite section.now base (map R.relocation relocations.now) index) }
{
    let relocation = relocation_at(relocations, index);
    let shapes = shapes_at(section, relocations, index)?;
    let target = relocation.target?;
    Some(Site {
        offset: base + relocation.offset,
        len: 8,
        target,
        shapes,
    })
}

/// Whether a relocation is what the psABI allows.
#[inline(always)]
pub(crate) fn is_formed(section: &[u8], relocation: &Relocation) -> bool
    ensures { IsTrue result ↔ IsLoongArchFormed section.now relocation.now }
{
    if !has_bytes(section, relocation.offset, 0) {
        return false;
    }
    if has_name(relocation, LoongArch64Relocation::R_LARCH_ALIGN) {
        stated_alignment(section, relocation, relocation.offset).is_some()
    } else if has_name(relocation, LoongArch64Relocation::R_LARCH_CALL36) {
        has_bytes(section, relocation.offset, 8)
    } else {
        true
    }
}

/// The item that the relocation at an index makes, if it makes one.
#[inline]
pub(crate) fn item_at<R: AsRelocation>(
    section: &[u8],
    base: u64,
    relocations: &[R],
    index: usize,
) -> Option<Item>
    requires index { index < length relocations.now }
    requires base { base + length section.now < 2 ^ 64 }
    requires formed { IsLoongArchFormed section.now
        (relocation_at (map R.relocation relocations.now) index) }
    ensures { MatchOption result ((item : items)
        → ¬ LoongArchMakes section.now base (map R.relocation relocations.now) index item)
        (LoongArchMakes section.now base (map R.relocation relocations.now) index) }
{
    let relocation = relocation_at(relocations, index);
    if has_name(&relocation, LoongArch64Relocation::R_LARCH_ALIGN) {
        let alignment = alignment_at(section, base, &relocation)?;
        return Some(Item::Aligned(alignment));
    }
    let site = site_at(section, base, relocations, index)?;
    Some(Item::Site(site))
}
