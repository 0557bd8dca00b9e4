//! The rewrites that a linker of AArch64 chooses.

ghost use Rattle.std.specs.Prelude.{◌==◌, ◌≡◌, ◌↔◌, ◌<◌, ◌+◌, ◌^◌, IsTrue};
ghost use Rattle.linker_base.specs.Rewrite.{CanRewrite};
ghost use Rattle.linker_utils.specs.AArch64Rewrites as rewrites;
ghost use Rattle.linker_utils.specs.Inner.AArch64Choices.{MatchesPattern, aarch64_tables};
ghost use Rattle.linker_utils.specs.declared.aarch64.rewrites.RewriteKind.TheVariants as kinds;
ghost use Rattle.linker_elf.specs.Choices.{Fits, choice, operands_after};
ghost use Rattle.linker_elf.proofs.SameNames.{equalities, exact_r_type};
ghost use Rattle.linker_elf.specs.contracts.aarch64.relocations.AArch64Relocation.{enum as names};

use super::rewrites::{RewriteKind, test, tests};
use crate::rewrite_rows::WordTest::{AreSame, Is, IsNot};
use crate::rewrite_rows::{Words, all_hold, are_at, bits, top, word_at};
use linker_base::rewrite::has_window;
use linker_elf::aarch64::{AArch64Relocation, AArch64Relocation as Names};
use linker_elf::elf::choice_table::{
    ChoiceTable, Chosen, RewriteSet, Table, by_table, choice_by, conditions,
};
use linker_elf::elf::{Choice, LinkFacts, Operands};

/// Whether the sequence of a TLS descriptor is at an offset of the section: `adrp x0`,
/// `ldr xT, [x0, #imm]`, `add x0, x0, #imm` and `blr xT`, where xT is neither x0 nor x31. Compilers
/// emit it as it is, so that a linker may rewrite it (ELF for the Arm 64-bit Architecture, the
/// sequences of thread-local storage).
#[inline]
pub fn is_tls_descriptor_sequence(section: &[u8], offset: u64) -> bool
    ensures { IsTrue result ↔ rewrites.IsDescriptorSequence section.now offset }
{
    if !has_window(section, offset, 0, 16) {
        return false;
    }
    let (adrp, ldr) = (word_at(section, offset), word_at(section, offset + 4));
    let (add, blr) = (word_at(section, offset + 8), word_at(section, offset + 12));
    all_hold(
        &tests![adrp, into 0, add_64 at 4, from 0 at 4, into 0 at 4],
        Words {
            first: adrp,
            second: add,
        },
    ) && all_hold(
        &tests![ldr_64, from 0, not_into 0, not_into 31, blr at 4, from_first at 4],
        Words {
            first: ldr,
            second: blr,
        },
    ) && test!(0, into 0).holds(Words {
        first: blr,
        second: 0,
    })
}

/// The instructions that an entry is for: what its rewrite is meant for, or others.
pub enum Pattern {
    /// What the rewrite is meant for.
    OfRewrite,
    /// The `adrp` of a pair `adrp xN`, `ldr xN, [xN, #imm]`.
    AdrpOfPair,
    /// The `ldr` of such a pair.
    LdrOfPair,
    /// The one n bytes after the start of the sequence of a TLS descriptor.
    OfDescriptor(u64),
    /// `bl`.
    Bl,
    /// `b`.
    B,
}

impl RewriteSet for RewriteKind {
    type Relocation = Names;

    type Originals = Pattern;

    ghost are_at = { MatchesPattern };

    ghost tables = { aarch64_tables };

    ghost laws = { equalities kinds.NoOp names (λ x y. x.0 == y.0, tt) (exact_r_type, tt) };

    #[inline(always)]
    fn matches_at(self, originals: &Pattern, section: &[u8], offset: u64) -> bool {
        match *originals {
            Pattern::OfRewrite => self.matches(section, offset),
            Pattern::AdrpOfPair => are_at(&tests![pair_with ldr_64], section, offset, 8),
            Pattern::LdrOfPair => {
                4 <= offset && are_at(&tests![pair_with ldr_64], section, offset - 4, 8)
            }
            Pattern::OfDescriptor(back) => {
                back <= offset && is_tls_descriptor_sequence(section, offset - back)
            }
            Pattern::Bl => are_at(&tests![bl], section, offset, 4),
            Pattern::B => are_at(&tests![b], section, offset, 4),
        }
    }

    #[inline(always)]
    fn operands_after(self, offset: u64, operands: &Operands) -> Operands
        ensures same { result ≡ operands.now }
        ensures rewrite { operands.now.place < 2 ^ 64
            → result ≡ operands_after (rewrites.aarch64_rewrite self) offset operands.now }
    {
        let _ = offset;
        *operands
    }
}

/// The conditions of entries, by the names that the definition has for them.
macro_rules! when {
    // the address itself in place of that of the GOT entry: `adrp` is n bytes before
    (to_address $back:literal) => {
        conditions!(BOUND + FIXED_DISTANCE, InReachIfKnown(R_AARCH64_ADR_PREL_PG_HI21, $back))
    };
    // by `adr` alone, which reaches 1 MiB
    (to_adr) => { conditions!(FIXED_DISTANCE, InReach(R_AARCH64_ADR_PREL_LO21)) };
    // the offset from the thread pointer in the instructions; with `GROUP_FITS` by halves that may
    // stand apart
    (to_local_exec $($fact:ident)?) => {
        conditions!(
            BOUND + EXECUTABLE $(+ $fact)?,
            InReachIfKnown(R_AARCH64_TLSLE_MOVW_TPREL_G1)
        )
    };
    // that offset in the GOT: `adrp` is n bytes before
    (to_initial_exec $back:literal) => {
        conditions!(EXECUTABLE, InReachIfKnown(R_AARCH64_TLSIE_ADR_GOTTPREL_PAGE21, $back))
    };
    // the address of the symbol is 0
    (to_next) => { conditions!(WEAK_ZERO) };
}

/// The entries of each relocation.
macro_rules! choices {
    ($make:ident $arguments:tt) => {
        $make! {
            $arguments
            R_AARCH64_ADR_GOT_PAGE: [
                NoOp at AdrpOfPair => R_AARCH64_ADR_PREL_PG_HI21, to_address(0);
            ]
            R_AARCH64_LD64_GOT_LO12_NC: [
                LdrToAdd at LdrOfPair => R_AARCH64_ADD_ABS_LO12_NC, to_address(4);
            ]
            R_AARCH64_ADD_ABS_LO12_NC: [AdrpAddToNopAdr => R_AARCH64_ADR_PREL_LO21, to_adr]
            R_AARCH64_TLSIE_ADR_GOTTPREL_PAGE21: [
                MovzXnLsl16 => R_AARCH64_TLSLE_MOVW_TPREL_G1, to_local_exec(GROUP_FITS);
            ]
            R_AARCH64_TLSIE_LD64_GOTTPREL_LO12_NC: [
                MovkXn => R_AARCH64_TLSLE_MOVW_TPREL_G0_NC, to_local_exec(GROUP_FITS);
            ]
            R_AARCH64_TLSDESC_ADR_PAGE21: [
                MovzX0Lsl16 at OfDescriptor(0) => R_AARCH64_TLSLE_MOVW_TPREL_G1, to_local_exec;
                AdrpX0 at OfDescriptor(0)
                    => R_AARCH64_TLSIE_ADR_GOTTPREL_PAGE21, to_initial_exec(0);
            ]
            R_AARCH64_TLSDESC_LD64_LO12: [
                MovkX0 at OfDescriptor(4) => R_AARCH64_TLSLE_MOVW_TPREL_G0_NC, to_local_exec;
                LdrX0 at OfDescriptor(4)
                    => R_AARCH64_TLSIE_LD64_GOTTPREL_LO12_NC, to_initial_exec(4);
            ]
            R_AARCH64_TLSDESC_ADD_LO12: [
                ReplaceWithNop at OfDescriptor(8) => R_AARCH64_NONE, to_local_exec;
                ReplaceWithNop at OfDescriptor(8) => R_AARCH64_NONE, to_initial_exec(8);
            ]
            R_AARCH64_TLSDESC_CALL: [
                ReplaceWithNop at OfDescriptor(12) => R_AARCH64_NONE, to_local_exec;
                ReplaceWithNop at OfDescriptor(12) => R_AARCH64_NONE, to_initial_exec(12);
            ]
            R_AARCH64_CALL26: [ReplaceWithNop at Bl => R_AARCH64_NONE, to_next]
            R_AARCH64_JUMP26: [ReplaceWithNop at B => R_AARCH64_NONE, to_next]
        }
    };
}

impl ChoiceTable for RewriteKind {
    ghost sampled = { λ name none section o. none };

    #[inline(always)]
    fn entries(name: Names, _section: &[u8], _offset: u64) -> Table<Self> {
        choices!(by_table(when, name, table => table))
    }

    #[inline(never)]
    fn choose_listed(name: Names, section: &[u8], offset: u64, facts: &LinkFacts) -> Chosen<Self> {
        choices!(by_table(when, name, table => choice_by(table, name, section, offset, facts)))
    }
}

/// The rewrite that a linker chooses for a relocation at an offset of a section, and the relocation
/// after it (ELF for the Arm 64-bit Architecture, "Relocation optimization" and the sequences of
/// thread-local storage).
///
/// ```
/// use linker_utils::aarch64::{AArch64Relocation, RewriteKind, choose};
/// use linker_utils::elf::LinkFacts;
///
/// // `adrp x3, :got:v` and `ldr x3, [x3, :got_lo12:v]`, where v is defined in the output
/// let mut section = [0x03, 0, 0, 0x90, 0x63, 0, 0x40, 0xf9];
/// let mut facts = LinkFacts { is_local: true, ..LinkFacts::default() };
/// facts.is_pcrel_link_time_constant = true;
/// let page = choose(AArch64Relocation::R_AARCH64_ADR_GOT_PAGE, &section, 0, &facts);
/// assert_eq!(page.kind, RewriteKind::NoOp);
/// assert_eq!(page.relocation, AArch64Relocation::R_AARCH64_ADR_PREL_PG_HI21);
/// let low = choose(AArch64Relocation::R_AARCH64_LD64_GOT_LO12_NC, &section, 4, &facts);
/// assert_eq!(low.relocation, AArch64Relocation::R_AARCH64_ADD_ABS_LO12_NC);
/// let (mut offset, mut addend) = (4, 0);
/// low.kind.apply(&mut section, &mut offset, &mut addend);
/// assert_eq!(section, [0x03, 0, 0, 0x90, 0x63, 0, 0, 0x91]);
/// ```
#[inline]
pub fn choose(
    name: AArch64Relocation,
    section: &[u8],
    offset: u64,
    facts: &LinkFacts,
) -> Choice<RewriteKind, AArch64Relocation>
    ensures chosen { rewrites.IsAArch64Choice name section.now offset facts.now result }
    ensures matches { rewrites.aarch64_matches result.kind section.now offset }
    ensures rewritable { CanRewrite (rewrites.aarch64_rewrite result.kind) section.now offset }
{
    RewriteKind::choose(name, section, offset, facts)
}

/// Whether a relocation can be rewritten, if all others of its sequence can: whether `choose` with
/// `group_fits` changes it. `architecture::fits` has an example.
pub fn fits(name: AArch64Relocation, section: &[u8], offset: u64, facts: &LinkFacts) -> bool
    ensures { IsTrue result
        ↔ Fits (rewrites.IsAArch64Choice name section.now offset)
        (choice kinds.NoOp name) facts.now }
{
    RewriteKind::fits(name, section, offset, facts)
}

/// With the same facts, except that each has its own place, both relocations of a load of a GOT
/// entry are rewritten or neither is; so are a high and a low half of initial-exec, wherever they
/// are, at instructions that their rewrites are meant for; and of the four of a TLS descriptor all
/// are rewritten for local-exec, all for initial-exec, or none is.
pub fn relocations_are_chosen_alike()
    ensures got { rewrites.GotPairIsChosenAlike }
    ensures initial_exec { rewrites.InitialExecIsChosenAlike }
    ensures descriptor { rewrites.DescriptorIsChosenAlike }
{}
