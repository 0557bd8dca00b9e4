//! The calls that the laws are about, one after the other.

ghost use Rattle.std.specs.Prelude.{◌≤◌, ◌/◌, ℕ, List, [], ◌∷◌, length, IfErr, OnOk};
ghost use Rattle.linker_final.specs.Final.{IsLinked, IsLinkCause, linked_by};
ghost use Rattle.linker_final.specs.Final.{AreLinked, AreListed, IsPhaseCause, rewriting_phase};
ghost use Rattle.linker_rewriting.specs.Facts.{pre_layout, context};
ghost use Rattle.linker_rewriting.specs.Numbers.{decisions_in};

use linker_rewriting::decisions::{DecisionNumbers, Deletion, RewritingError};
use linker_rewriting::facts::{OutputFacts, RelaxContext, SymbolFacts};
use linker_rewriting::groups::UnrelaxableGroups;
use linker_rewriting::kept::{FactsSnapshot, WritingError, relocate_rewritten_section};
use linker_rewriting::phases::Phase;
use linker_rewriting::sections::{rewrite_placed_section, rewrite_section};
use linker_section::facts::{Addresses, Symbol};
use linker_utils::elf::Architecture;

/// Why a section isn't linked.
#[derive(Clone, Copy)]
pub enum LinkError {
    /// Its instructions aren't rewritten.
    Rewriting(RewritingError),
    /// They are, but its values aren't written.
    Writing(WritingError),
}

/// Rewrites the instructions of a section by `rewrite_section`, and then writes its values by
/// `relocate_rewritten_section`. What it leaves is what the laws are about (`IsLinked`). A linker
/// that makes its GOT by what was rewritten calls both itself.
///
/// # Errors
///
/// `Rewriting`: the section and its relocations are as before. `Writing`: its instructions are
/// rewritten and no value is written.
pub fn link_section(
    architecture: Architecture,
    output: &OutputFacts,
    facts: &[SymbolFacts],
    groups: &[UnrelaxableGroups],
    kept: &[FactsSnapshot],
    addresses: &Addresses,
    symbols: &[Symbol],
    relocations: &mut [u8],
    section: &mut [u8],
    decisions: &mut [DecisionNumbers],
    memory: &mut [u64],
) -> Result<(), LinkError>
    requires memory { length relocations.old / 24 ≤ length memory.old }
    ensures linked { OnOk result ((rewritten : List ℕ) × IsLinked (linked_by (rewriting_phase
        (pre_layout architecture output.now facts.now) groups.now relocations.old section.old
        (decisions_in decisions.new) relocations.new rewritten) [] relocations.new rewritten
        addresses.now symbols.now section.new)) }
    ensures cause { IfErr result (IsLinkCause (rewriting_phase (pre_layout architecture output.now
        facts.now) groups.now relocations.old section.old (decisions_in decisions.new)
        relocations.new section.new) kept.now addresses.now symbols.now) }
{
    let context = RelaxContext {
        architecture,
        phase: Phase::PreLayout,
        output,
        symbols: facts,
        addresses,
        values: symbols,
    };
    if let Err(error) = rewrite_section(
        architecture,
        output,
        facts,
        groups,
        relocations,
        section,
        decisions,
    ) {
        return Err(LinkError::Rewriting(error));
    }
    match relocate_rewritten_section(&context, kept, relocations, section, memory) {
        Ok(()) => Ok(()),
        Err(error) => Err(LinkError::Writing(error)),
    }
}

/// Why a section isn't linked in two phases.
#[derive(Clone, Copy)]
pub enum PhaseError {
    /// Its instructions aren't rewritten before addresses are known.
    First(RewritingError),
    /// They are, but aren't in the phase after that.
    Second(RewritingError),
    /// They are in both, but its values aren't written.
    Writing(WritingError),
}

/// Rewrites the instructions of a section by `rewrite_section`, then in another phase by
/// `rewrite_placed_section`, and writes its values last. Each phase is one that the laws are about,
/// and the second takes what the first left (`AreLinked`). Bytes that it deletes are listed from
/// the begin of `deleted` on: they are still in the section. A linker makes its GOT in between, and
/// calls all three itself.
///
/// # Errors
///
/// `First`: the section, its relocations and `deleted` are as before. `Second`: the section and its
/// relocations are as the first phase left them. `Writing`: all three are as the second left them,
/// and no value is written.
pub fn link_section_in_two_phases(
    architecture: Architecture,
    phase: Phase,
    output: &OutputFacts,
    facts: &[SymbolFacts],
    groups: &[UnrelaxableGroups],
    placed_groups: &[UnrelaxableGroups],
    kept: &[FactsSnapshot],
    addresses: &Addresses,
    symbols: &[Symbol],
    relocations: &mut [u8],
    section: &mut [u8],
    decisions: &mut [DecisionNumbers],
    placed_decisions: &mut [DecisionNumbers],
    deleted: &mut [Deletion],
    memory: &mut [u64],
) -> Result<(), PhaseError>
    requires memory { length relocations.old / 24 ≤ length memory.old }
    ensures linked { OnOk result ((relocations_between : List ℕ) × (between : List ℕ)
        × (rewritten : List ℕ) × AreLinked
        (rewriting_phase (pre_layout architecture output.now facts.now) groups.now relocations.old
        section.old (decisions_in decisions.new) relocations_between between
        ∷ rewriting_phase (context architecture phase output.now facts.now addresses.now
        symbols.now) placed_groups.now relocations_between between
        (decisions_in placed_decisions.new) relocations.new rewritten ∷ [])
        relocations.old section.old relocations.new rewritten
        addresses.now symbols.now section.new
        × AreListed (rewriting_phase (context architecture phase output.now facts.now addresses.now
        symbols.now) placed_groups.now relocations_between between
        (decisions_in placed_decisions.new) relocations.new rewritten) deleted.old deleted.new) }
    ensures cause { IfErr result (λ error. (relocations_between : List ℕ) × (between : List ℕ)
        × IsPhaseCause (rewriting_phase (pre_layout architecture output.now facts.now) groups.now
        relocations.old section.old (decisions_in decisions.new) relocations_between between)
        (rewriting_phase (context architecture phase output.now facts.now addresses.now symbols.now)
        placed_groups.now relocations_between between (decisions_in placed_decisions.new)
        relocations.new section.new) kept.now addresses.now symbols.now deleted.old deleted.new
        error) }
{
    if let Err(error) = rewrite_section(
        architecture,
        output,
        facts,
        groups,
        relocations,
        section,
        decisions,
    ) {
        return Err(PhaseError::First(error));
    }
    let context = RelaxContext {
        architecture,
        phase,
        output,
        symbols: facts,
        addresses,
        values: symbols,
    };
    if let Err(error) = rewrite_placed_section(
        &context,
        placed_groups,
        relocations,
        section,
        placed_decisions,
        deleted,
    ) {
        return Err(PhaseError::Second(error));
    }
    match relocate_rewritten_section(&context, kept, relocations, section, memory) {
        Ok(()) => Ok(()),
        Err(error) => Err(PhaseError::Writing(error)),
    }
}
