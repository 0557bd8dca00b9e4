//! Groups of one label of RISC-V: a high part, and the low parts whose symbol is the label at it.

ghost use Rattle.std.specs.Prelude.{◌≡◌, ◌+◌, ◌<◌, ◌≤◌, ◌/◌, length, IfSome, slice_get};
ghost use Rattle.linker_section.specs.Relocations.{relocation_in};
ghost use Rattle.linker_section.specs.Values.{IsAscending};
ghost use Rattle.linker_rewriting.specs.Decisions.{EachIs, RestStays};
ghost use Rattle.linker_rewriting.specs.Numbers.{decisions_in, IsWrittenDecision};
ghost use Rattle.linker_rewriting.specs.Facts.{context_of};
ghost use Rattle.linker_rewriting.specs.RiscVPcrelGroups as spec;
ghost use Rattle.linker_rewriting.specs.Inner.Passed.{AreAllHighsNoted, AreAllLabelsNoted, AreSet};
ghost use Rattle.linker_rewriting.specs.Inner.Passed.{CanBeRewritten, at_site};
ghost use Rattle.linker_rewriting.specs.Notes.{is_note, IsNoteOf};

use crate::candidates::{Chosen, candidate_by};
use crate::decisions::{Decision, DecisionNumbers, decision_in};
use crate::facts::{OutputFacts, RelaxContext, SymbolFacts, link_facts};
use crate::groups::{Scope, scope_in};
use crate::phases::Phase;
use crate::relocations::{Site, relocation_in, site};
use crate::sequences::is_marked_at;
use linker_section::facts::{Addresses, Symbol};
use linker_section::relocations::{Rela, first_from, is_ascending, relocations_len};
use linker_utils::architecture::Relaxation;
use linker_utils::elf::{Architecture, Choice, LinkFacts, Operands};
use linker_utils::riscv64::RiscVRelocation;

/// The `r_type` of the high parts whose groups a phase rewrites.
fn high_r_type(phase: Phase) -> u32
    ensures { result ≡ spec.high_r_type phase }
{
    match phase {
        Phase::TlsLocalExec => RiscVRelocation::R_RISCV_TLSDESC_HI20.r_type(),
        _ => RiscVRelocation::R_RISCV_GOT_HI20.r_type(),
    }
}

/// How many relocations at one offset are searched for a high part.
const SEARCHED: usize = 16;

/// Whether as many others at an offset are before the relocation with an index, among relocations
/// that ascend.
pub(crate) fn is_beyond(relocations: &[u8], at: u64, index: usize) -> bool
    requires { index < length relocations.now / 24 }
    ensures { result ≡ spec.is_beyond relocations.now at index }
{
    SEARCHED <= index && relocation_in(relocations, index - SEARCHED).offset == at
}

/// The index of the first relocation with an `r_type` at an offset, among those that are searched
/// of relocations that ascend. So it takes O(log n).
pub(crate) fn high_at(relocations: &[u8], r_type: u32, at: u64) -> Option<usize>
    ensures within { IfSome result (λ high. high < length relocations.now / 24) }
    ensures high { IsAscending relocations.now → spec.IsHighAt relocations.now r_type at result }
{
    let first = first_from(relocations, at);
    for index in first..relocations_len(relocations).min(first + SEARCHED) {
        let relocation = relocation_in(relocations, index);
        if relocation.offset != at {
            return None;
        }
        if relocation.r_type == r_type {
            return Some(index);
        }
    }
    None
}

/// Where the label is in the section that is a relocation's symbol.
pub(crate) fn label_at(context: &RelaxContext<'_>, relocation: &Rela) -> Option<u64>
    ensures { result ≡ spec.offset_of_label context.now.addresses.now
        (slice_get context.now.values.now relocation.now.symbol) }
{
    let label = context.values.get(relocation.symbol as usize)?;
    Some(label.address.wrapping_sub(context.addresses.section))
}

fn label_offset(context: &RelaxContext<'_>, relocation: &Rela) -> Option<u64>
    ensures { result ≡ spec.label_offset context.now.phase context.now.addresses.now
        context.now.values.now relocation.now }
{
    if relocation.r_type == high_r_type(context.phase) {
        Some(relocation.offset)
    } else {
        label_at(context, relocation)
    }
}

/// The index of the high part at the label of a relocation, among relocations that ascend.
pub(crate) fn high_of(
    context: &RelaxContext<'_>,
    relocations: &[u8],
    relocation: &Rela,
) -> Option<usize>
    ensures within { IfSome result (λ high. high < length relocations.now / 24) }
    ensures high { IsAscending relocations.now
        → spec.IsHighIn (context_of context.now) relocations.now relocation.now result }
{
    let at = label_offset(context, relocation)?;
    high_at(relocations, high_r_type(context.phase), at)
}

/// Whether a relocation with an `r_type` is rewritten with its label.
#[inline(always)]
pub(crate) fn is_in_label(architecture: Architecture, phase: Phase, r_type: u32) -> bool
    ensures { spec.IsInLabel architecture phase r_type result }
{
    matches!(scope_in(architecture, phase, r_type), Scope::Labelled)
}

/// Whether the mark is there that counts for a relocation with a high part.
fn is_label_marked(context: &RelaxContext<'_>, site: &Site<'_>, high: usize) -> bool
    requires index { site.now.index + 3 ≤ usize.MAX }
    requires high { high < length site.now.relocations.now / 24 }
    ensures { result ≡ spec.is_label_marked context.now.architecture context.now.phase
        site.now.relocations.now site.now.index site.now.relocation high }
{
    let (architecture, relocations) = (context.architecture, site.relocations);
    match context.phase {
        Phase::TlsLocalExec => {
            let part = relocation_in(relocations, high);
            is_marked_at(architecture, relocations, high, &part)
        }
        _ => is_marked_at(architecture, relocations, site.index, &site.relocation),
    }
}

/// The same facts, where no entry of the GOT is in reach: G + A is 2^63 bytes from the place.
fn without_entry(facts: Option<LinkFacts>) -> Option<LinkFacts>
    ensures { result ≡ spec.without_entry facts }
{
    let facts = facts?;
    let addend = facts.operands.addend.cast_unsigned();
    let far = facts.operands.place.wrapping_add(0x8000_0000_0000_0000);
    Some(LinkFacts {
        operands: Operands {
            got_entry: far.wrapping_sub(addend),
            ..facts.operands
        },
        ..facts
    })
}

/// The rewrite of the instruction of the relocation with an index, by the facts of its label's high
/// part.
pub(crate) fn label_candidate(
    context: &RelaxContext<'_>,
    site: &Site<'_>,
    high: usize,
) -> Option<Chosen>
    requires index { site.now.index + 3 ≤ usize.MAX }
    requires high { high < length site.now.relocations.now / 24 }
    ensures candidate { at_site spec.IsLabelCandidate context.now site.now high result }
    ensures there { CanBeRewritten site.now result }
{
    let part = relocation_in(site.relocations, high);
    let marked = is_label_marked(context, site, high);
    let facts = without_entry(link_facts(context, &part, &part, marked));
    candidate_by(context, site, &facts)
}

/// The index of the high part whose group stays, since this relocation is of it and has no rewrite.
fn lacking(context: &RelaxContext<'_>, site: &Site<'_>) -> Option<usize>
    requires { site.now.index + 3 ≤ usize.MAX }
    ensures within { IfSome result (λ high. high < length site.now.relocations.now / 24) }
    ensures lacking { IsAscending site.now.relocations.now
        → at_site spec.IsLacking context.now site.now result }
{
    if !is_in_label(context.architecture, context.phase, site.relocation.r_type) {
        return None;
    }
    let high = high_of(context, site.relocations, &site.relocation)?;
    match label_candidate(context, site, high) {
        Some(_) => None,
        None => Some(high),
    }
}

/// Whether a decision is the note that a group stays.
#[inline(always)]
pub(crate) fn is_note(decision: &Decision) -> bool
    ensures { result ≡ is_note decision.now }
{
    matches!(decision, Decision::Consumed)
}

pub(crate) fn set_all(relocations: &[u8], decision: Decision, decisions: &mut [DecisionNumbers])
    requires { length relocations.now / 24 ≤ length decisions.old }
    ensures set { AreSet relocations.now decision decisions.new }
    ensures form { EachIs IsWrittenDecision relocations.now decisions.new }
    ensures others { RestStays relocations.now decisions.old decisions.new }
{
    let made = DecisionNumbers::from_decision(decision);
    for index in 0..relocations_len(relocations) {
        decisions[index] = made;
    }
}

/// Notes at each high part of a section whether its group stays.
fn note_highs(
    context: &RelaxContext<'_>,
    relocations: &[u8],
    section: &[u8],
    decisions: &mut [DecisionNumbers],
)
    requires ascending { IsAscending relocations.now }
    requires enough { length relocations.now / 24 ≤ length decisions.old }
    requires clear { AreSet relocations.now Decision.Kept decisions.old }
    ensures noted { AreAllHighsNoted context.now relocations.now section.now decisions.new }
    ensures others { RestStays relocations.now decisions.old decisions.new }
{
    for index in 0..relocations_len(relocations) {
        let site = site!(relocations, section, index);
        let Some(high) = lacking(context, &site) else {
            continue;
        };
        decisions[high] = DecisionNumbers::from_decision(Decision::Consumed);
    }
}

/// What is noted of the group of a relocation: at its high part; it stays where there is none.
fn note_of(
    context: &RelaxContext<'_>,
    relocations: &[u8],
    decisions: &[DecisionNumbers],
    relocation: &Rela,
) -> Decision
    requires ascending { IsAscending relocations.now }
    requires enough { length relocations.now / 24 ≤ length decisions.now }
    ensures { IsNoteOf context.now.phase context.now.addresses.now context.now.values.now
        relocations.now (decisions_in decisions.now) relocation.now result }
{
    match high_of(context, relocations, relocation) {
        Some(high) => decision_in(decisions, high),
        None => Decision::Consumed,
    }
}

/// Notes at each relocation of a label what is noted at its high part.
fn copy_notes(
    context: &RelaxContext<'_>,
    relocations: &[u8],
    section: &[u8],
    decisions: &mut [DecisionNumbers],
)
    requires ascending { IsAscending relocations.now }
    requires enough { length relocations.now / 24 ≤ length decisions.old }
    requires noted { AreAllHighsNoted context.now relocations.now section.now decisions.old }
    ensures noted { AreAllLabelsNoted context.now relocations.now section.now decisions.new }
    ensures others { RestStays relocations.now decisions.old decisions.new }
{
    for index in 0..relocations_len(relocations) {
        let relocation = relocation_in(relocations, index);
        if !is_in_label(context.architecture, context.phase, relocation.r_type) {
            continue;
        }
        let note = note_of(context, relocations, decisions, &relocation);
        decisions[index] = DecisionNumbers::from_decision(note);
    }
}

fn has_labels(architecture: Architecture, phase: Phase) -> bool
    ensures { result ≡ spec.has_labels architecture phase }
{
    match architecture {
        Architecture::RiscV => matches!(phase, Phase::TlsLocalExec | Phase::GotToPcRel),
        _ => false,
    }
}

/// Notes at each relocation of a label of RISC-V whether its group stays, in place of its decision.
pub(crate) fn note_labels(
    context: &RelaxContext<'_>,
    relocations: &[u8],
    section: &[u8],
    decisions: &mut [DecisionNumbers],
)
    requires enough { length relocations.now / 24 ≤ length decisions.old }
    ensures noted { AreAllLabelsNoted context.now relocations.now section.now decisions.new }
    ensures others { RestStays relocations.now decisions.old decisions.new }
{
    if !has_labels(context.architecture, context.phase) {
        return;
    }
    if !is_ascending(relocations) {
        set_all(relocations, Decision::Consumed, decisions);
        return;
    }
    set_all(relocations, Decision::Kept, decisions);
    note_highs(context, relocations, section, decisions);
    copy_notes(context, relocations, section, decisions);
}
