//! Whether a relocation may be rewritten in a phase, by its `r_type`, and whether a survey looks
//! for its rewrite. Loops that ask this are compiled for each architecture and phase by itself:
//! LLVM makes a few comparisons of it then. Most calls stay as they are before addresses are known,
//! so that is tested before what else a rewrite is chosen by.

ghost use Rattle.std.specs.Prelude.{◌≡◌, ◌/◌, length, false, slice_get};
ghost use Rattle.linker_rewriting.specs.Inner.Calls as calls;
ghost use Rattle.linker_rewriting.specs.Inner.RelocationTypes.{AreUnlisted, IsListed};
ghost use Rattle.linker_rewriting.specs.Inner.RelocationTypes.{IsUngroupedUnless};

use crate::facts::{SymbolFacts, may_change_toc};
use crate::groups::{Scope, scope_in};
use crate::phases::Phase;
use crate::relocations::relocation_in;
use linker_section::relocations::{Rela, relocations_len};
use linker_utils::aarch64::AArch64Relocation;
use linker_utils::elf::Architecture;
use linker_utils::ppc64::Ppc64Relocation;

/// A call for an architecture and a phase, which is compiled for each pair by itself.
macro_rules! of_each {
    ($architecture:expr, $phase:expr, $call:ident $given:tt) => {
        linker_elf::elf::architecture::by_architecture!($architecture, of_each($phase, $call $given))
    };
    ($of:ident $module:ident $names:ident ($phase:expr, $call:ident $given:tt)) => {
        match $phase {
            Phase::PreLayout => of_each!(in $of, PreLayout, $call $given),
            Phase::TlsLocalExec => of_each!(in $of, TlsLocalExec, $call $given),
            Phase::GotToPcRel => of_each!(in $of, GotToPcRel, $call $given),
            Phase::ShortPcRel => of_each!(in $of, ShortPcRel, $call $given),
        }
    };
    (in $of:ident, $in:ident, $call:ident($($given:expr),*)) => {
        $call(Architecture::$of, Phase::$in, $($given),*)
    };
}

pub(crate) use of_each;

/// Whether a relocation with an `r_type` may be rewritten in a phase.
#[inline(always)]
pub(crate) fn is_listed(architecture: Architecture, phase: Phase, r_type: u32) -> bool
    ensures { IsListed architecture phase r_type result }
{
    !matches!(scope_in(architecture, phase, r_type), Scope::NotRelaxable)
}

/// Whether a survey of a phase looks for the rewrite of a relocation with an `r_type`, since it is
/// of a group.
#[inline(always)]
pub(crate) fn is_surveyed(architecture: Architecture, phase: Phase, r_type: u32) -> bool
    ensures { IsUngroupedUnless architecture phase r_type result }
{
    matches!(
        scope_in(architecture, phase, r_type),
        Scope::Grouped(_) | Scope::IfGroupMatches(_)
    )
}

/// Whether one of the relocations may be rewritten in a phase, by its `r_type`.
#[inline(always)]
pub(crate) fn lists_any(architecture: Architecture, phase: Phase, relocations: &[u8]) -> bool
    ensures { result ≡ false → AreUnlisted architecture phase relocations.now
        (length relocations.now / 24) }
{
    for index in 0..relocations_len(relocations) {
        let r_type = relocation_in(relocations, index).r_type;
        if is_listed(architecture, phase, r_type) {
            return true;
        }
    }
    false
}

/// Whether a relocation is of a call that stays as it is, by its symbol: of AArch64 a branch, but
/// for those to what is undefined and weak, which become a `nop`; of PowerPC64 a call that returns
/// with the same TOC pointer.
#[inline(always)]
pub(crate) fn keeps_call(
    architecture: Architecture,
    phase: Phase,
    symbols: &[SymbolFacts],
    relocation: &Rela,
) -> bool
    ensures { result ≡ calls.keeps_call phase architecture
        (slice_get symbols.now relocation.now.symbol) relocation.now.r_type }
{
    let r_type = relocation.r_type;
    match (phase, architecture) {
        (Phase::PreLayout, Architecture::AArch64) => {
            let is_call = r_type == AArch64Relocation::R_AARCH64_CALL26.r_type();
            let is_branch = is_call || r_type == AArch64Relocation::R_AARCH64_JUMP26.r_type();
            if !is_branch {
                return false;
            }
            match symbols.get(relocation.symbol as usize) {
                Some(symbol) => !symbol.is_undefined_weak,
                None => true,
            }
        }
        (Phase::PreLayout, Architecture::Ppc64) => {
            if r_type != Ppc64Relocation::R_PPC64_REL24.r_type() {
                return false;
            }
            match symbols.get(relocation.symbol as usize) {
                Some(symbol) => !may_change_toc(symbol),
                None => true,
            }
        }
        _ => false,
    }
}
