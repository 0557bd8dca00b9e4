//! PowerPC64: which rewrite a linker chooses for a relocation.

ghost use Rattle.std.specs.Prelude.{◌==◌, ◌↔◌, IsTrue};
ghost use Rattle.linker_base.specs.Rewrite.{CanRewrite};
ghost use Rattle.linker_elf.specs.Choices.{Fits, choice};
ghost use Rattle.linker_elf.proofs.SameNames.{equalities, exact_r_type};
ghost use Rattle.linker_elf.specs.contracts.ppc64.relocations.Ppc64Relocation.{enum as names};
ghost use Rattle.linker_utils.specs.Inner.Ppc64Choices.{MatchesPattern, ppc64_tables};
ghost use Rattle.linker_utils.specs.Ppc64Rewrites as rewrites;
ghost use Rattle.linker_utils.specs.declared.ppc64.rewrites.RewriteKind.TheVariants as kinds;

use super::rewrites::RewriteKind;
use linker_elf::elf::choice_table::{
    ChoiceTable, Chosen, RewriteSet, Table, by_table, choice_by, conditions,
};
use linker_elf::elf::{Choice, LinkFacts, Operands};
use linker_elf::ppc64::{Ppc64Relocation, Ppc64Relocation as Names};

/// The instructions that an entry is for.
pub enum Pattern {
    /// Those that its rewrite is meant for.
    OfRewrite,
}

impl RewriteSet for RewriteKind {
    type Relocation = Names;

    type Originals = Pattern;

    ghost are_at = { MatchesPattern };

    ghost tables = { ppc64_tables };

    ghost laws = { equalities kinds.NoOp names (λ x y. x.0 == y.0, tt) (exact_r_type, tt) };

    #[inline(always)]
    fn matches_at(self, originals: &Pattern, section: &[u8], offset: u64) -> bool {
        self.matches(section, offset)
    }

    #[inline(always)]
    fn operands_after(self, _offset: u64, operands: &Operands) -> Operands {
        *operands
    }
}

/// The conditions of entries, by the names that the definition has for them. A further fact makes
/// those that it calls `called_to_`.
macro_rules! when {
    // the high part of the distance from the TOC pointer is 0
    (without_high_part) => { conditions!(EXCLUSIVE_TOC_BASE, InReach(R_PPC64_TOC16)) };
    // the high part of the offset from the thread pointer is 0
    (without_high_offset) => {
        conditions!(BOUND + EXECUTABLE + EXCLUSIVE_TOC_BASE + GROUP_FITS, InReach(R_PPC64_TPREL16))
    };
    // the address by its distance from the TOC pointer or the instruction
    (to_distance $name:ident) => { conditions!(BOUND + FIXED_DISTANCE, InReachIfKnown($name)) };
    // the offset from the thread pointer in the instructions
    (to_local_exec) => {
        conditions!(BOUND + EXECUTABLE + GROUP_FITS, InReachIfKnown(R_PPC64_TPREL16_HA))
    };
    // the same of an access of whole words
    (to_local_exec_words) => {
        conditions!(
            BOUND + EXECUTABLE + GROUP_FITS,
            InReachIfKnown(R_PPC64_TPREL16_HA),
            InReachIfKnown(R_PPC64_TPREL16_LO_DS)
        )
    };
    // the offset from the thread pointer in the GOT
    (to_initial_exec) => {
        conditions!(EXECUTABLE + GROUP_FITS, InReachIfKnown(R_PPC64_GOT_TPREL16_HA))
    };
    // the same in an entry near the TOC pointer
    (to_near_initial_exec) => {
        conditions!(EXECUTABLE + GROUP_FITS, InReachIfKnown(R_PPC64_GOT_TPREL16_DS))
    };
    // the offset from the thread pointer in a prefixed instruction; with `RELAXABLE` at a call of
    // prefixed code, which has `R_PPC64_REL24_NOTOC`, as of the two below
    (to_prefixed_local_exec $($fact:ident)?) => {
        conditions!(
            BOUND + EXECUTABLE + GROUP_FITS $(+ $fact)?,
            InReachIfKnown(R_PPC64_TPREL34)
        )
    };
    // the same in the GOT, at any distance from the instruction
    (to_prefixed_initial_exec $($fact:ident)?) => { when!(to_module $($fact)?) };
    // the module's block from the thread pointer
    (to_module $($fact:ident)?) => { conditions!(EXECUTABLE + GROUP_FITS $(+ $fact)?) };
    // the address in place of the distance from a function's entry, by the `addis` and by the
    // `addi` after it, which have the addends 0 and 4
    (to_address $addend:literal) => {
        conditions!(
            BOUND + FIXED_ADDRESS + GROUP_FITS,
            Some($addend),
            InReachIfKnown(R_PPC64_ADDR16_HA)
        )
    };
    // a call may change the TOC pointer
    (after_call) => { conditions!(CHANGED_TOC) };
}

/// The entries of each relocation.
macro_rules! choices {
    ($make:ident $arguments:tt) => {
        $make! {
            $arguments
            R_PPC64_TOC16_HA: [AddisToNop => R_PPC64_NONE, without_high_part]
            R_PPC64_TOC16_LO: [BaseToToc => R_PPC64_TOC16, without_high_part]
            R_PPC64_TOC16_LO_DS: [BaseToToc => R_PPC64_TOC16_DS, without_high_part]
            R_PPC64_GOT16_HA: [KeepAddis => R_PPC64_TOC16_HA, to_distance(R_PPC64_TOC16_HA)]
            R_PPC64_GOT16_LO_DS: [LdToAddi => R_PPC64_TOC16_LO, to_distance(R_PPC64_TOC16_HA)]
            R_PPC64_GOT_PCREL34: [PldToPaddi => R_PPC64_PCREL34, to_distance(R_PPC64_PCREL34)]
            R_PPC64_GOT_TPREL16_HA: [AddisToNop => R_PPC64_NONE, to_local_exec]
            R_PPC64_GOT_TPREL16_LO_DS: [LdToAddisThread => R_PPC64_TPREL16_HA, to_local_exec]
            R_PPC64_GOT_TPREL16_DS: [LdToAddisThread => R_PPC64_TPREL16_HA, to_local_exec]
            R_PPC64_GOT_TPREL_PCREL34: [
                PldToPaddiThread => R_PPC64_TPREL34, to_prefixed_local_exec
            ]
            R_PPC64_TLS: [
                AddToAddi => R_PPC64_TPREL16_LO, to_local_exec;
                IndexedToD => R_PPC64_TPREL16_LO, to_local_exec;
                IndexedToDs => R_PPC64_TPREL16_LO_DS, to_local_exec_words;
                AddToMove => R_PPC64_NONE, to_prefixed_local_exec;
                IndexedToDirect => R_PPC64_NONE, to_prefixed_local_exec;
            ]
            R_PPC64_GOT_TLSGD16_HA: [
                AddisToNop => R_PPC64_NONE, to_local_exec;
                KeepAddis => R_PPC64_GOT_TPREL16_HA, to_initial_exec;
            ]
            R_PPC64_GOT_TLSGD16_LO: [
                AddiToAddisThread => R_PPC64_TPREL16_HA, to_local_exec;
                AddiToLd => R_PPC64_GOT_TPREL16_LO_DS, to_initial_exec;
            ]
            R_PPC64_GOT_TLSGD16: [
                AddiToAddisThread => R_PPC64_TPREL16_HA, to_local_exec;
                AddiToLd => R_PPC64_GOT_TPREL16_DS, to_near_initial_exec;
            ]
            R_PPC64_GOT_TLSGD_PCREL34: [
                PaddiToPaddiThread => R_PPC64_TPREL34, to_prefixed_local_exec;
                PaddiToPld => R_PPC64_GOT_TPREL_PCREL34, to_prefixed_initial_exec;
            ]
            R_PPC64_TLSGD: [
                BranchToNop => R_PPC64_NONE, to_prefixed_local_exec(RELAXABLE);
                BranchToAdd => R_PPC64_NONE, to_prefixed_initial_exec(RELAXABLE);
                CallToAddi => R_PPC64_TPREL16_LO, to_local_exec;
                CallToAdd => R_PPC64_NONE, to_initial_exec;
            ]
            R_PPC64_GOT_TLSLD16_HA: [AddisToNop => R_PPC64_NONE, to_module]
            R_PPC64_GOT_TLSLD16_LO: [AddiToAddisThread => R_PPC64_NONE, to_module]
            R_PPC64_GOT_TLSLD16: [AddiToAddisThread => R_PPC64_NONE, to_module]
            R_PPC64_GOT_TLSLD_PCREL34: [PaddiToPaddi4096 => R_PPC64_NONE, to_module]
            R_PPC64_TLSLD: [
                BranchToNop => R_PPC64_NONE, to_module(RELAXABLE);
                CallToAddi4096 => R_PPC64_NONE, to_module;
            ]
            R_PPC64_REL24: [NopToRestoreToc => R_PPC64_REL24, after_call]
            R_PPC64_REL16_HA: [AddisToLis => R_PPC64_ADDR16_HA, to_address(0)]
            R_PPC64_REL16_LO: [AddiAfterLis => R_PPC64_ADDR16_LO, to_address(4)]
            R_PPC64_TPREL16_HA: [AddisThreadToNop => R_PPC64_NONE, without_high_offset]
            R_PPC64_TPREL16_LO: [BaseToThread => R_PPC64_TPREL16, without_high_offset]
            R_PPC64_TPREL16_LO_DS: [BaseToThread => R_PPC64_TPREL16_DS, without_high_offset]
        }
    };
}

impl ChoiceTable for RewriteKind {
    ghost sampled = { λ name none section o. none };

    #[inline(always)]
    fn entries(name: Names, _section: &[u8], _offset: u64) -> Table<Self> {
        choices!(by_table(when, name, table => table))
    }

    #[inline(never)]
    fn choose_listed(name: Names, section: &[u8], offset: u64, facts: &LinkFacts) -> Chosen<Self> {
        choices!(by_table(when, name, table => choice_by(table, name, section, offset, facts)))
    }
}

/// Which rewrite a linker may make of the instruction at a relocation's offset, and the relocation
/// whose value is then written (64-bit ELF V2 ABI for Power, "TOC Optimizations" and "TLS Linkage
/// Optimizations"). Where TLS becomes initial-exec, `got_entry` has to be the address of the entry
/// for initial-exec.
///
/// At `R_PPC64_TLSGD` and `R_PPC64_TLSLD` the fact `is_relaxable` says that the call, whose own
/// relocation is the next one, has `R_PPC64_REL24_NOTOC`. Such a call is of prefixed code, which
/// has the address complete before it. After one with `R_PPC64_REL24` stands a `nop`, in whose
/// place the address is completed. The bytes don't distinguish them: a `nop` after a call of
/// prefixed code may align the next instruction.
///
/// The sequence of `R_PPC64_REL16_HA` and `R_PPC64_REL16_LO` is the pair at the entry of a function
/// that computes the TOC pointer from the function's address, which register 12 has there (the
/// same, "Function Prologue"): the second stands 4 bytes after the first. A linker sets
/// `group_fits` only where both are there, with the same symbol.
///
/// That of `R_PPC64_TPREL16_HA`, `R_PPC64_TPREL16_LO` and `R_PPC64_TPREL16_LO_DS` is all of these
/// in a section of the same symbol and addend: the first becomes a `nop`, and the others don't read
/// its register then.
///
/// ```
/// use linker_utils::elf::LinkFacts;
/// use linker_utils::ppc64::{Ppc64Relocation, RewriteKind, choose};
///
/// // addis 9,2,x@got@tprel@ha; ld 9,x@got@tprel@l(9); lwzx 3,9,13, in an executable that defines x
/// let words = [0x3d22_0000u32, 0xe929_0000, 0x7c69_682e];
/// let facts = LinkFacts {
///     is_local: true,
///     is_executable: true,
///     group_fits: true,
///     ..LinkFacts::default()
/// };
/// let chosen = |name, word: u32| choose(name, &word.to_le_bytes(), 0, &facts);
/// let high = chosen(Ppc64Relocation::R_PPC64_GOT_TPREL16_HA, words[0]);
/// assert_eq!(high.kind, RewriteKind::AddisToNop);
/// let low = chosen(Ppc64Relocation::R_PPC64_GOT_TPREL16_LO_DS, words[1]);
/// assert_eq!(low.relocation, Ppc64Relocation::R_PPC64_TPREL16_HA);
/// let load = chosen(Ppc64Relocation::R_PPC64_TLS, words[2]);
/// assert_eq!(load.kind, RewriteKind::IndexedToD);
/// ```
#[inline]
pub fn choose(
    name: Ppc64Relocation,
    section: &[u8],
    offset: u64,
    facts: &LinkFacts,
) -> Choice<RewriteKind, Ppc64Relocation>
    ensures chosen { rewrites.IsPpc64Choice name section.now offset facts.now result }
    ensures matches { rewrites.ppc64_matches result.kind section.now offset }
    ensures rewritable { CanRewrite (rewrites.ppc64_rewrite result.kind) section.now offset }
{
    RewriteKind::choose(name, section, offset, facts)
}

/// Whether a relocation can be rewritten, if all others of its sequence can: whether `choose` with
/// `group_fits` changes it. `architecture::fits` has an example.
pub fn fits(name: Ppc64Relocation, section: &[u8], offset: u64, facts: &LinkFacts) -> bool
    ensures { IsTrue result
        ↔ Fits (rewrites.IsPpc64Choice name section.now offset) (choice kinds.NoOp name) facts.now }
{
    RewriteKind::fits(name, section, offset, facts)
}

/// With the same facts, except that each has its own place, and each at an instruction that its
/// rewrites are meant for, both relocations of a pair are rewritten alike or neither is: of an
/// address near the TOC or the thread pointer, of a GOT entry, and of the entry for initial-exec.
/// And so are those of general-dynamic TLS, all for local-exec, all for initial-exec or none, and
/// those of local-dynamic TLS, also of the small code model: of TOC code where `is_relaxable` is
/// false, and of prefixed code where it is true. Of `R_PPC64_TLS` it is said for prefixed code: in
/// TOC code an indexed access of whole words is left where the offset isn't a multiple of 4. And
/// nothing is said of `R_PPC64_GOT_TLSGD16`, which is left where the entry of initial-exec isn't
/// near the TOC pointer.
pub fn relocations_are_chosen_alike()
    ensures toc { rewrites.TocPairsAreChosenAlike }
    ensures local_exec { rewrites.ThreadPairsAreChosenAlike }
    ensures got { rewrites.GotPairIsChosenAlike }
    ensures initial_exec { rewrites.InitialExecPairIsChosenAlike }
    ensures prefixed { rewrites.PrefixedInitialExecIsChosenAlike }
    ensures general_dynamic { rewrites.GeneralDynamicIsChosenAlike }
    ensures local_dynamic { rewrites.LocalDynamicIsChosenAlike }
{}
