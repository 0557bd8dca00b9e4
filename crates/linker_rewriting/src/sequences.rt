//! Sequences whose relocations are next to each other, and marks of what may be relaxed.

ghost use Rattle.std.specs.Prelude.{◌≡◌, ◌+◌, ◌≤◌, length};
ghost use Rattle.linker_rewriting.specs.Sequences as spec;

use crate::phases::Phase;
use crate::relocations::Site;
use linker_section::relocations::{Rela, relocation_at};
use linker_utils::aarch64::AArch64Relocation;
use linker_utils::elf::Architecture;
use linker_utils::loongarch64::LoongArch64Relocation;
use linker_utils::ppc64::Ppc64Relocation;
use linker_utils::riscv64::RiscVRelocation;

/// The `r_type` of the mark of an instruction that may be relaxed.
#[inline(always)]
fn mark_r_type(architecture: Architecture) -> Option<u32>
    ensures { result ≡ spec.mark_r_type architecture }
{
    match architecture {
        Architecture::RiscV => Some(RiscVRelocation::R_RISCV_RELAX.r_type()),
        Architecture::LoongArch64 => Some(LoongArch64Relocation::R_LARCH_RELAX.r_type()),
        _ => None,
    }
}

#[inline(always)]
fn is_mark_of(r_type: Option<u32>, offset: u64, relocation: Option<Rela>) -> bool
    ensures { result ≡ spec.is_mark_of r_type offset relocation }
{
    match (r_type, relocation) {
        (Some(r_type), Some(mark)) => mark.offset == offset && mark.r_type == r_type,
        _ => false,
    }
}

/// Whether a mark stands after a relocation with an index.
#[inline(always)]
pub(crate) fn is_marked_at(
    architecture: Architecture,
    relocations: &[u8],
    index: usize,
    relocation: &Rela,
) -> bool
    requires { index + 1 ≤ usize.MAX }
    ensures { result ≡ spec.is_marked_at architecture relocations.now index relocation.now }
{
    let next = relocation_at(relocations, index + 1);
    is_mark_of(mark_r_type(architecture), relocation.offset, next)
}

/// The `r_type` of what is marked in a phase: before addresses are known a call of PowerPC64's
/// prefixed `r_type`, whose own relocation stands after its mark.
#[inline(always)]
fn mark_r_type_in(phase: Phase, architecture: Architecture) -> Option<u32>
    ensures { result ≡ spec.mark_r_type_in phase architecture }
{
    match (phase, architecture) {
        (Phase::PreLayout, Architecture::Ppc64) => {
            Some(Ppc64Relocation::R_PPC64_REL24_NOTOC.r_type())
        }
        (Phase::PreLayout, _) => None,
        _ => mark_r_type(architecture),
    }
}

/// Whether what is marked in a phase stands after a relocation with an index.
#[inline(always)]
pub(crate) fn is_marked_in(phase: Phase, architecture: Architecture, site: &Site<'_>) -> bool
    requires { site.now.index + 1 ≤ usize.MAX }
    ensures { result ≡ spec.is_marked_in phase architecture site.now.relocations.now site.now.index
        site.now.relocation }
{
    let next = relocation_at(site.relocations, site.index + 1);
    let r_type = mark_r_type_in(phase, architecture);
    is_mark_of(r_type, site.relocation.offset, next)
}

/// What ties a relocation to the others of its sequence.
#[derive(Clone, Copy)]
pub(crate) enum Tie {
    /// It is of their symbol and addend.
    Subject,
    /// The same, and the addend is 0.
    Symbol,
    /// It marks that the instruction may be relaxed, whatever it is of.
    Mark,
}

/// A relocation of a sequence.
#[derive(Clone, Copy)]
pub(crate) struct Member {
    pub r_type: u32,
    /// How many bytes it is after the first one.
    pub distance: u64,
    pub tie: Tie,
}

#[inline(always)]
fn is_tied(tie: Tie, relocation: &Rela, found: &Rela) -> bool
    ensures { result ≡ spec.is_tied tie relocation.now found.now }
{
    let is_same = found.symbol == relocation.symbol && found.addend == relocation.addend;
    match tie {
        Tie::Subject => is_same,
        Tie::Symbol => is_same && relocation.addend == 0,
        Tie::Mark => true,
    }
}

/// Whether a relocation is a member of a sequence at an offset, tied to another one.
#[inline(always)]
fn is_member(member: Member, offset: u64, relocation: &Rela, found: Option<Rela>) -> bool
    ensures { result ≡ spec.is_member member offset relocation.now found }
{
    let Some(found) = found else {
        return false;
    };
    found.offset.checked_sub(offset) == Some(member.distance)
        && found.r_type == member.r_type
        && is_tied(member.tie, relocation, &found)
}

/// Whether the relocations from an index on are the members of a sequence at an offset.
#[inline(always)]
fn are_members(
    members: &[Member],
    relocations: &[u8],
    first: usize,
    offset: u64,
    relocation: &Rela,
) -> bool
    requires { first + length members.now ≤ usize.MAX + 1 }
    ensures { result ≡ spec.are_members members.now relocations.now first 0 offset relocation.now }
{
    for (place, &member) in members.iter().enumerate() {
        let found = relocation_at(relocations, first + place);
        if !is_member(member, offset, relocation, found) {
            return false;
        }
    }
    true
}

/// Whether all of a sequence are there, of which the relocation is at a place, `distance` bytes
/// after the first one.
#[inline(always)]
fn is_among(members: &[Member], place: usize, distance: u64, site: &Site<'_>) -> bool
    requires { site.now.index + length members.now ≤ usize.MAX + 1 }
    ensures { result ≡ spec.is_among members.now place distance site.now.relocations.now
        site.now.index site.now.relocation }
{
    let relocation = &site.relocation;
    if site.index < place || relocation.offset < distance {
        return false;
    }
    let (first, offset) = (site.index - place, relocation.offset - distance);
    are_members(members, site.relocations, first, offset, relocation)
}

/// Whether a relocation with a type may be a member, and isn't its mark.
#[inline(always)]
fn is_place(member: Member, r_type: u32) -> bool
    ensures { result ≡ spec.is_place member r_type }
{
    member.r_type == r_type && !matches!(member.tie, Tie::Mark)
}

/// Whether the relocation with an index is at no place of a sequence, or all of it are there.
#[inline(always)]
fn is_whole_in(members: &[Member], site: &Site<'_>) -> bool
    requires { site.now.index + length members.now ≤ usize.MAX + 1 }
    ensures { result ≡ spec.is_whole_in members.now members.now 0 site.now.relocations.now
        site.now.index site.now.relocation }
{
    for (place, &member) in members.iter().enumerate() {
        if is_place(member, site.relocation.r_type) {
            return is_among(members, place, member.distance, site);
        }
    }
    true
}

/// Whether a relocation is whole in each of these sequences, whose members are a name, how many
/// bytes it is after the first one, and its tie.
macro_rules! sequences {
    (
        $site:ident: $names:ident
        $([$($name:ident $distance:literal $tie:ident),+])+
    ) => {
        $(is_whole_in(
            &[$(Member {
                r_type: $names::$name.r_type(),
                distance: $distance,
                tie: Tie::$tie,
            }),+],
            $site,
        ))&&+
    };
}

/// Whether a relocation with an index is of no sequence whose relocations are next to each other,
/// or all of its sequence are.
#[inline(always)]
pub(crate) fn is_whole(architecture: Architecture, site: &Site<'_>) -> bool
    requires { site.now.index + 3 ≤ usize.MAX }
    ensures { result ≡ spec.is_whole architecture site.now.relocations.now site.now.index
        site.now.relocation }
{
    match architecture {
        Architecture::AArch64 => sequences! {
            site: AArch64Relocation
            [R_AARCH64_TLSDESC_ADR_PAGE21 0 Subject, R_AARCH64_TLSDESC_LD64_LO12 4 Subject,
                R_AARCH64_TLSDESC_ADD_LO12 8 Subject, R_AARCH64_TLSDESC_CALL 12 Subject]
            [R_AARCH64_ADR_GOT_PAGE 0 Symbol, R_AARCH64_LD64_GOT_LO12_NC 4 Symbol]
            [R_AARCH64_ADR_PREL_PG_HI21 0 Symbol, R_AARCH64_ADD_ABS_LO12_NC 4 Symbol]
        },
        Architecture::LoongArch64 => sequences! {
            site: LoongArch64Relocation
            [R_LARCH_GOT_PC_HI20 0 Subject, R_LARCH_RELAX 0 Mark,
                R_LARCH_GOT_PC_LO12 4 Subject, R_LARCH_RELAX 4 Mark]
        },
        _ => true,
    }
}
