//! What becomes of each relocation of a section and of its instruction.

ghost use Rattle.std.specs.Prelude.{◌≡◌, ◌<◌, ◌≤◌, ◌+◌, ◌-◌, ◌/◌, length, IfErr};
ghost use Rattle.std.specs.Prelude.{OnOk, IfNone, IfOk, IfSome, true, false};
ghost use Rattle.linker_rewriting.specs.declared.decisions.Decision.{Decision as decisions};
ghost use Rattle.linker_rewriting.specs.Numbers.{decisions_in, IsWrittenDecision};
ghost use Rattle.linker_section.specs.Relocations.{relocation_in, relocation_at};
ghost use Rattle.linker_rewriting.specs.Decisions as spec;
ghost use Rattle.linker_rewriting.specs.Facts.{context_of};
ghost use Rattle.linker_rewriting.specs.Inner.Calls.{IsLeft};
ghost use Rattle.linker_rewriting.specs.Inner.Passed.{CanStand, StayUnless, at_site};
ghost use Rattle.linker_rewriting.specs.RiscVPcrelGroups.{IsInLabel, IsLabelNote};
ghost use Rattle.linker_rewriting.specs.TocIndirection.{subject_of};

use crate::candidates::{Chosen, candidate};
use crate::facts::{OutputFacts, RelaxContext, SymbolFacts};
use crate::groups::{Scope, UnrelaxableGroups, group_stays, scope_in};
use crate::phases::Phase;
use crate::r_types::{is_listed, keeps_call, lists_any, of_each};
use crate::relocations::{Site, relocation_in};
use crate::riscv_pcrel_groups::{high_of, label_candidate, note_labels, set_all};
use crate::rules::{Rule, decide_by};
use linker_base::rewrite::DeletedBytes;
use linker_section::facts::{Addresses, Symbol};
use linker_section::relocations::{Rela, relocation_at, relocations_len};
use linker_utils::architecture::Relaxation;
use linker_utils::elf::{Architecture, Choice, InstructionRewrite, RewriteWindow};
use linker_utils::relaxation::AsDeletion;
use linker_utils::riscv64::RiscVRelocation;

mod numbers;

pub use numbers::DecisionNumbers;

/// What a relocation is of once its instruction is rewritten.
#[derive(Clone, Copy)]
pub struct Subject {
    /// The index of its symbol.
    pub symbol: u32,
    /// Its addend, before what the rewrite makes of it.
    pub addend: i64,
}

/// What becomes of a relocation and of its instruction.
#[derive(Clone, Copy)]
pub enum Decision {
    /// Both stay as they are.
    Kept,
    /// The instruction is rewritten by this, and the relocation becomes the one after it.
    Rewritten(Choice<Relaxation, u32>),
    /// The same, but the relocation after it is of another symbol and addend: those of RISC-V's
    /// high part, whose label was its symbol, of a TLS descriptor or of a load of an address from
    /// the GOT, or those of the word that was loaded.
    RewrittenWithSymbol(Choice<Relaxation, u32>, Subject),
    /// The relocation goes, since the rewrite at the one before or at the next one takes it along.
    Consumed,
}

#[inline(always)]
pub(crate) fn decision_in(decisions: &[DecisionNumbers], index: usize) -> Decision
    requires { index < length decisions.now }
    ensures { result ≡ spec.decision_at (decisions_in decisions.now) index }
{
    decisions[index].as_decision()
}

/// Some bytes of a section that are deleted, as C has them.
#[repr(C)]
#[derive(Clone, Copy)]
pub struct Deletion {
    /// The offset in the section of the first deleted byte.
    pub offset: u64,
    /// How many bytes are deleted.
    pub bytes: u32,
}

impl AsDeletion for Deletion {
    ghost use Rattle.linker_rewriting.specs.Decisions.{pair_of};

    ghost deletion = { pair_of };

    #[inline(always)]
    fn as_deletion(self) -> (u64, u32) {
        (self.offset, self.bytes)
    }
}

/// Why a section isn't rewritten.
#[derive(Clone, Copy)]
pub enum RewritingError {
    /// There are fewer decisions than relocations, or less room for deletions than there are.
    TooShort,
    /// The relocation with this index can't be rewritten, though its group doesn't stay: the
    /// section wasn't surveyed into the table, or with other facts.
    NotSurveyed(usize),
    /// Bytes that would be rewritten or deleted at the relocation with this index are also
    /// rewritten or deleted at one before it, or lie below such bytes. Where no other error is, it
    /// is the first whose field, where no rewrite takes it along, has a byte that the rewrite at
    /// another one writes or deletes.
    Overlaps(usize),
    /// The tables of facts and of addresses contradict each other about the symbol with this index:
    /// it is local, and undefined and weak, or `other` isn't the same in both. That a thread-local
    /// symbol which nothing defines is local is no contradiction: it is at the thread pointer.
    Contradiction(usize),
}

/// Why decisions aren't made.
#[derive(Clone, Copy)]
pub enum DecisionError {
    /// There are fewer decisions than relocations.
    TooShort,
    /// The bytes that the rewrite at the relocation with this index overwrites have another number
    /// than is kept, or the instructions aren't those that it is meant for, as
    /// `Relaxation::matches` says, or what it deletes isn't in the section.
    Changed(usize),
    /// Bytes that would be rewritten or deleted at the relocation with this index are also
    /// rewritten or deleted at one before it, or lie below such bytes.
    Overlaps(usize),
}

impl Decision {
    /// Whether the next relocation goes, since the rewrite takes it along.
    #[inline(always)]
    pub fn takes_next(&self) -> bool
        ensures { result ≡ spec.takes_next self.now }
    {
        match self {
            Decision::Rewritten(choice) => choice.kind.skipped_offset().is_some(),
            Decision::RewrittenWithSymbol(choice, _) => choice.kind.skipped_offset().is_some(),
            _ => false,
        }
    }

    /// The bytes that are rewritten, beside the relocation's offset. One that isn't rewritten has
    /// none.
    #[inline(always)]
    pub fn window(&self) -> RewriteWindow
        ensures { result ≡ spec.window_of self.now }
    {
        match self {
            Decision::Rewritten(choice) => choice.kind.window(),
            Decision::RewrittenWithSymbol(choice, _) => choice.kind.window(),
            _ => RewriteWindow { back: 0, len: 0 },
        }
    }

    /// The bytes that are deleted after the rewrite, beside the relocation's offset.
    #[inline(always)]
    pub fn deleted(&self) -> Option<DeletedBytes>
        ensures { result ≡ spec.deleted_of self.now }
    {
        match self {
            Decision::Rewritten(choice) => choice.kind.deleted(),
            Decision::RewrittenWithSymbol(choice, _) => choice.kind.deleted(),
            _ => None,
        }
    }
}

/// Whether the next relocation, if there is one, is alone and is rewritten.
fn is_next_rewritten(context: &RelaxContext<'_>, site: &Site<'_>) -> bool
    requires { site.now.index + 4 ≤ usize.MAX }
    ensures { spec.IsRewrittenAt (context_of context.now) site.now.relocations.now
        site.now.section.now (site.now.index + 1)
        (relocation_at site.now.relocations.now (site.now.index + 1)) result }
{
    let index = site.index + 1;
    let Some(relocation) = relocation_at(site.relocations, index) else {
        return false;
    };
    let next = Site {
        index,
        relocation,
        ..*site
    };
    match scope_in(context.architecture, context.phase, relocation.r_type) {
        Scope::Independent => candidate(context, &next).is_some(),
        _ => false,
    }
}

/// Whether a relocation of a label gets the symbol and the addend of its high part, by its `r_type`
/// after the rewrite.
#[inline(always)]
fn takes_symbol(phase: Phase, r_type: u32) -> bool
    ensures { result ≡ spec.takes_symbol phase r_type }
{
    match phase {
        Phase::TlsLocalExec => true,
        _ => r_type == RiscVRelocation::R_RISCV_LO12_I.r_type(),
    }
}

#[inline(always)]
pub(crate) fn subject_of(relocation: &Rela) -> Subject
    ensures { result ≡ subject_of relocation.now }
{
    Subject {
        symbol: relocation.symbol,
        addend: relocation.addend,
    }
}

#[inline(always)]
fn label_decision(phase: Phase, chosen: Chosen, high: &Rela) -> Decision
    ensures { result ≡ spec.label_decision phase chosen high.now }
{
    if takes_symbol(phase, chosen.relocation) {
        Decision::RewrittenWithSymbol(chosen, subject_of(high))
    } else {
        Decision::Rewritten(chosen)
    }
}

/// What becomes of a relocation of a label whose group stays or doesn't.
fn decide_label(stays: bool, context: &RelaxContext<'_>, site: &Site<'_>) -> Decision
    requires index { site.now.index + 3 ≤ usize.MAX }
    requires within { site.now.index < length site.now.relocations.now / 24 }
    requires there { site.now.relocation ≡ relocation_in site.now.relocations.now site.now.index }
    requires in_label { IsInLabel context.now.architecture context.now.phase
        site.now.relocation.r_type true }
    requires noted { IsLabelNote (context_of context.now) site.now.relocations.now
        site.now.section.now site.now.relocation stays }
    ensures decision { at_site spec.IsLabelDecision context.now site.now result }
    ensures there { spec.IsThere result site.now.section.now site.now.relocation.offset }
{
    if stays {
        return Decision::Kept;
    }
    let Some(high) = high_of(context, site.relocations, &site.relocation) else {
        return Decision::Kept;
    };
    match label_candidate(context, site, high) {
        Some(chosen) => {
            let part = relocation_in(site.relocations, high);
            label_decision(context.phase, chosen, &part)
        }
        None => Decision::Kept,
    }
}

/// What becomes of a relocation that no other takes along. `stays` is what was noted of its label.
/// None if its group doesn't stay, but it can't be rewritten.
fn decide(rule: &Groups<'_>, stays: bool, site: &Site<'_>) -> Option<Decision>
    requires index { site.now.index + 4 ≤ usize.MAX }
    requires within { site.now.index < length site.now.relocations.now / 24 }
    requires there { site.now.relocation ≡ relocation_in site.now.relocations.now site.now.index }
    requires noted { IsInLabel rule.now.context.now.architecture rule.now.context.now.phase
        site.now.relocation.r_type true → IsLabelNote (context_of rule.now.context.now)
        site.now.relocations.now site.now.section.now site.now.relocation stays }
    ensures decided { IfSome result (at_site (λ s. spec.IsDecidedAlone s rule.now.kept.now)
        rule.now.context.now site.now) }
    ensures lacking { IfNone result (at_site (λ s. spec.IsNotSurveyed s rule.now.kept.now)
        rule.now.context.now site.now) }
    ensures there { CanStand site.now result }
{
    let (context, symbol) = (rule.context, site.relocation.symbol);
    let is_grouped = match scope_in(context.architecture, context.phase, site.relocation.r_type) {
        Scope::NotRelaxable => return Some(Decision::Kept),
        Scope::Labelled => return Some(decide_label(stays, context, site)),
        Scope::FirstOfPair => {
            if is_next_rewritten(context, site) {
                return Some(Decision::Consumed);
            }
            return Some(Decision::Kept);
        }
        Scope::Grouped(group) => {
            if group_stays(rule.kept, group, symbol) {
                return Some(Decision::Kept);
            }
            true
        }
        Scope::IfGroupMatches(group) => {
            if group_stays(rule.kept, group, symbol) {
                return Some(Decision::Kept);
            }
            false
        }
        Scope::Independent => false,
    };
    match candidate(context, site) {
        Some(choice) => Some(Decision::Rewritten(choice)),
        None if is_grouped => None,
        None => Some(Decision::Kept),
    }
}

/// Where what is deleted ends; 0 if nothing is.
#[inline(always)]
fn deleted_end(offset: u64, deleted: Option<DeletedBytes>) -> u64
    requires { spec.deleted_end offset deleted ≤ u64.MAX }
    ensures { result ≡ spec.deleted_end offset deleted }
{
    match deleted {
        Some(deleted) => offset + (deleted.start + u64::from(deleted.count)),
        None => 0,
    }
}

/// Where the bytes begin that a decision rewrites, and where those end that it rewrites or deletes.
#[inline(always)]
pub(crate) fn span_of(decision: &Decision, offset: u64) -> (u64, u64)
    requires { spec.end_by decision.now offset ≤ u64.MAX }
    ensures { result ≡ (spec.start_by decision.now offset, spec.end_by decision.now offset) }
{
    let window = decision.window();
    let start = offset.saturating_sub(window.back);
    let end = start + window.len;
    let deleted = deleted_end(offset, decision.deleted());
    (start, if end < deleted { deleted } else { end })
}

/// Where the bytes end that are rewritten or deleted up to some from a start to an end, by where
/// those before them do. None if they aren't after those.
#[inline(always)]
pub(crate) fn end_after(start: u64, own: u64, end: u64) -> Option<u64>
    ensures { spec.IsEndAfter start own end result }
{
    if own <= start {
        return Some(end);
    }
    if start < end {
        return None;
    }
    Some(own)
}

/// The rule of groups: all of a group are rewritten, or none is. Architecture and phase are those
/// of the context, known to the compiler.
#[derive(Clone, Copy)]
struct Groups<'a> {
    architecture: Architecture,
    phase: Phase,
    context: &'a RelaxContext<'a>,
    kept: &'a [UnrelaxableGroups],
}

/// Whether no other relocation takes along the one with an index, and it stays as it is by its
/// `r_type`, or as a call by its symbol. The scope is for the proof alone: the compiler leaves it
/// out.
#[inline(always)]
fn is_left(rule: &Groups<'_>, is_taken: bool, relocations: &[u8], index: usize) -> bool
    requires { index < length relocations.now / 24 }
    ensures not_taken { result ≡ true → is_taken ≡ false }
    ensures left { result ≡ true → IsLeft rule.now.architecture rule.now.phase
        rule.now.context.now.symbols.now (relocation_in relocations.now index) }
{
    let (architecture, phase) = (rule.architecture, rule.phase);
    let relocation = relocation_in(relocations, index);
    let scope = scope_in(architecture, phase, relocation.r_type);
    let listed = is_listed(architecture, phase, relocation.r_type);
    !is_taken && (!listed || keeps_call(architecture, phase, rule.context.symbols, &relocation))
}

impl Rule for Groups<'_> {
    ghost decides = { λ s. spec.IsDecided (context_of s.context.now) s.kept.now };

    ghost lacks = { λ s. spec.IsNotSurveyed (context_of s.context.now) s.kept.now };

    ghost is_valid = { λ s bytes. (s.architecture ≡ s.context.now.architecture)
        × (s.phase ≡ s.context.now.phase) };

    ghost is_noted = { λ s bytes section n stays. IsInLabel s.context.now.architecture
        s.context.now.phase (relocation_in bytes n).r_type true
        → IsLabelNote (context_of s.context.now) bytes section (relocation_in bytes n) stays };

    ghost start = { spec.start_by };

    ghost end = { spec.end_by };

    #[inline(always)]
    fn leaves(&self, is_taken: bool, relocations: &[u8], index: usize) -> bool {
        is_left(self, is_taken, relocations, index)
    }

    #[inline(always)]
    fn decide(&self, is_taken: bool, stays: bool, site: &Site<'_>) -> Option<Decision> {
        if is_taken {
            return Some(Decision::Consumed);
        }
        decide(self, stays, site)
    }

    #[inline(always)]
    fn span(&self, decision: &Decision, offset: u64) -> (u64, u64) {
        span_of(decision, offset)
    }
}

/// The same as `decide_section`, for an architecture and a phase.
#[inline(always)]
fn decide_all(
    architecture: Architecture,
    phase: Phase,
    context: &RelaxContext<'_>,
    kept: &[UnrelaxableGroups],
    relocations: &[u8],
    section: &[u8],
    decisions: &mut [DecisionNumbers],
) -> Result<bool, RewritingError>
    requires architecture { architecture ≡ context.now.architecture }
    requires phase { phase ≡ context.now.phase }
    ensures enough { OnOk result (length relocations.now / 24 ≤ length decisions.old) }
    ensures decided { OnOk result (spec.AreAllDecided (spec.IsDecidedAfter (context_of context.now)
        kept.now relocations.now section.now) spec.start_by spec.end_by context.now.architecture
        relocations.now section.now (decisions_in decisions.new)) }
    ensures left { IfOk result (λ changes. StayUnless changes relocations.now decisions.new) }
    ensures form { OnOk result (spec.EachIs IsWrittenDecision relocations.now decisions.new) }
    ensures others_stay { spec.RestStays relocations.now decisions.old decisions.new }
    ensures rejected { IfErr result (spec.IsRejectedIn (context_of context.now) kept.now
        relocations.now section.now (decisions_in decisions.new)) }
{
    if decisions.len() < relocations_len(relocations) {
        return Err(RewritingError::TooShort);
    }
    if !lists_any(architecture, phase, relocations) {
        set_all(relocations, Decision::Kept, decisions);
        return Ok(false);
    }
    note_labels(context, relocations, section, decisions);
    let rule = Groups {
        architecture,
        phase,
        context,
        kept,
    };
    decide_by(&rule, context.architecture, relocations, section, decisions)?;
    Ok(true)
}

/// Decides what becomes of each relocation of a section and of its instruction. Nothing is
/// rewritten. False if all stay as they are by their types. It is compiled for each architecture
/// and phase.
pub(crate) fn decide_section(
    context: &RelaxContext<'_>,
    kept: &[UnrelaxableGroups],
    relocations: &[u8],
    section: &[u8],
    decisions: &mut [DecisionNumbers],
) -> Result<bool, RewritingError>
    ensures enough { OnOk result (length relocations.now / 24 ≤ length decisions.old) }
    ensures decided { OnOk result (spec.AreAllDecided (spec.IsDecidedAfter (context_of context.now)
        kept.now relocations.now section.now) spec.start_by spec.end_by context.now.architecture
        relocations.now section.now (decisions_in decisions.new)) }
    ensures left { IfOk result (λ changes. StayUnless changes relocations.now decisions.new) }
    ensures form { OnOk result (spec.EachIs IsWrittenDecision relocations.now decisions.new) }
    ensures others_stay { spec.RestStays relocations.now decisions.old decisions.new }
    ensures rejected { IfErr result (spec.IsRejectedIn (context_of context.now) kept.now
        relocations.now section.now (decisions_in decisions.new)) }
{
    of_each!(
        context.architecture,
        context.phase,
        decide_all(context, kept, relocations, section, decisions)
    )
}
