//! The loop that decides what becomes of a section's relocations and of their instructions, by any
//! rule.

ghost use Rattle.std.specs.Prelude.{◌≡◌, ◌<◌, ◌≤◌, ◌+◌, ◌/◌, ℕ, List, Bool, length};
ghost use Rattle.std.specs.Prelude.{IfErr, IfNone, IfSome, OnOk, true, false};
ghost use Rattle.linker_rewriting.specs.Numbers.{decisions_in, IsWrittenDecision};
ghost use Rattle.linker_rewriting.specs.declared.decisions.Decision.{Decision as decisions};
ghost use Rattle.linker_rewriting.specs.Decisions.{AreAllDecided, Bound, IsMadeBy, IsRejectedBy};
ghost use Rattle.linker_rewriting.specs.Decisions.{EachIs, IsWithin, RestStays, by_index};
ghost use Rattle.linker_rewriting.specs.Decisions.{decision_at};
ghost use Rattle.linker_rewriting.specs.Inner.Passed.{CanStand};
ghost use Rattle.linker_rewriting.specs.Notes.{is_note};
ghost use Rattle.linker_section.specs.Relocations.{relocation_in};
ghost use Rattle.linker_section.specs.declared.relocations.Rela.{Rela as relas};

use crate::covered::first_covered;
use crate::decisions::{Decision, DecisionNumbers, RewritingError, decision_in, end_after};
use crate::relocations::{Site, relocation_in, site};
use crate::riscv_pcrel_groups::is_note;
use linker_section::relocations::relocations_len;
use linker_utils::elf::Architecture;

/// A rule by which relocations are decided: all of a group are rewritten, or none is.
pub(crate) trait Rule {
    /// What it decides of the relocation with an index, which another one takes along or doesn't,
    /// in a contract.
    ghost decides: { Self → List ℕ → List ℕ → ℕ → Bool → relas → decisions → Type 0 };

    /// That the group of a relocation doesn't stay, but it has no rewrite, in a contract.
    ghost lacks: { Self → List ℕ → List ℕ → ℕ → relas → Type 0 };

    /// What it takes as given of a section's relocations, in a contract.
    ghost is_valid: { Self → List ℕ → Type 0 };

    /// Whether what is noted of a relocation before is so, in a contract: that its group stays.
    ghost is_noted: { Self → List ℕ → List ℕ → ℕ → Bool → Type 0 };

    /// Where those bytes of a decision begin that no other one may have, in a contract.
    ghost start: { Bound };

    /// Where they end, in a contract.
    ghost end: { Bound };

    /// Whether no other relocation takes along the one with an index, and it stays whatever its
    /// instruction is. Unless a rule says so, no test is made before `decide`.
    #[inline(always)]
    fn leaves(&self, _is_taken: bool, _relocations: &[u8], _index: usize) -> bool
        requires within { _index < length _relocations.now / 24 }
        requires valid { is_valid self.now _relocations.now }
        ensures not_taken { result ≡ true → _is_taken ≡ false }
        ensures left { result ≡ true → (section : List ℕ) → IsMadeBy (by_index _relocations.now
            (decides self.now _relocations.now section)) start end _relocations.now section _index
            false decisions.Kept }
        ensures none { result ≡ true
            → end decisions.Kept (relocation_in _relocations.now _index).offset
            ≤ start decisions.Kept (relocation_in _relocations.now _index).offset }
    {
        false
    }

    /// What becomes of the relocation with an index. None if its group doesn't stay, but it can't
    /// be rewritten. `stays` is what was noted of it.
    fn decide(&self, is_taken: bool, stays: bool, site: &Site<'_>) -> Option<Decision>
        requires index { site.now.index + 4 ≤ usize.MAX }
        requires within { site.now.index < length site.now.relocations.now / 24 }
        requires there { site.now.relocation
            ≡ relocation_in site.now.relocations.now site.now.index }
        requires valid { is_valid self.now site.now.relocations.now }
        requires noted { is_noted self.now site.now.relocations.now site.now.section.now
            site.now.index stays }
        ensures decided { IfSome result (decides self.now site.now.relocations.now
            site.now.section.now site.now.index is_taken site.now.relocation) }
        ensures lacking { IfNone result (lacks self.now site.now.relocations.now
            site.now.section.now site.now.index site.now.relocation) }
        ensures there { CanStand site.now result }
        ensures within { IfSome result (IsWithin start end site.now.relocation.offset) }
        ensures ends { IfSome result (λ d. (limit : ℕ) → site.now.relocation.offset ≤ limit
            → length site.now.section.now ≤ limit → end d site.now.relocation.offset ≤ limit) };

    /// Where those bytes of a decision begin and end that no other one may have.
    fn span(&self, decision: &Decision, offset: u64) -> (u64, u64)
        requires { end decision.now offset ≤ u64.MAX }
        ensures { result ≡ (start decision.now offset, end decision.now offset) };
}

/// Decides what becomes of each relocation of a section and of its instruction by a rule, in the
/// caller's memory. Nothing is rewritten.
#[inline(always)]
pub(crate) fn decide_by<R: Rule>(
    rule: &R,
    architecture: Architecture,
    relocations: &[u8],
    section: &[u8],
    decisions: &mut [DecisionNumbers],
) -> Result<(), RewritingError>
    requires enough { length relocations.now / 24 ≤ length decisions.old }
    requires valid { R.is_valid rule.now relocations.now }
    requires noted { (n : ℕ) → n < length relocations.now / 24
        → R.is_noted rule.now relocations.now section.now n
        (is_note (decision_at (decisions_in decisions.old) n)) }
    ensures decided { OnOk result (AreAllDecided (by_index relocations.now
        (R.decides rule.now relocations.now section.now)) R.start R.end architecture
        relocations.now section.now (decisions_in decisions.new)) }
    ensures form { OnOk result (EachIs IsWrittenDecision relocations.now decisions.new) }
    ensures others_stay { RestStays relocations.now decisions.old decisions.new }
    ensures rejected { IfErr result (IsRejectedBy (by_index relocations.now
        (R.decides rule.now relocations.now section.now))
        (λ n. R.lacks rule.now relocations.now section.now n (relocation_in relocations.now n))
        R.start R.end architecture relocations.now section.now (decisions_in decisions.new)) }
{
    let mut end = 0;
    let mut is_taken = false;
    for index in 0..relocations_len(relocations) {
        if rule.leaves(is_taken, relocations, index) {
            decisions[index] = DecisionNumbers::from_decision(Decision::Kept);
            continue;
        }
        let site = site!(relocations, section, index);
        let stays = is_note(&decision_in(decisions, index));
        let Some(decision) = rule.decide(is_taken, stays, &site) else {
            return Err(RewritingError::NotSurveyed(index));
        };
        let (start, own) = rule.span(&decision, site.relocation.offset);
        let Some(new_end) = end_after(start, own, end) else {
            return Err(RewritingError::Overlaps(index));
        };
        end = new_end;
        is_taken = decision.takes_next();
        decisions[index] = DecisionNumbers::from_decision(decision);
    }
    match first_covered(architecture, relocations, section, decisions) {
        Some(index) => Err(RewritingError::Overlaps(index)),
        None => Ok(()),
    }
}
