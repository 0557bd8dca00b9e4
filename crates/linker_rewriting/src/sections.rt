//! The rewrites of a section, made in one call for each phase.
//!
//! What became of each relocation is in `decisions`, which needs room for each of them. One that
//! goes, with its instruction or since another's rewrite takes it along, gets the type 0, so that
//! indexes stay. After an error the section and its relocations are as before.

ghost use Rattle.std.specs.Prelude.{◌≡◌, ◌↔◌, ◌<◌, ◌≤◌, ◌+◌, ◌/◌, ℕ, length, drop};
ghost use Rattle.std.specs.Prelude.{IfErr, IfOk, IfSome, IfNone, IsTrue, OnOk, OnErr, true};
ghost use Rattle.linker_section.specs.Relocations.{relocation_in};
ghost use Rattle.linker_rewriting.specs.Numbers.{AreListed, AreMakeable, IsKeptDecision};
ghost use Rattle.linker_rewriting.specs.Numbers.{IsWrittenDecision, decisions_in, numbers_in};
ghost use Rattle.linker_rewriting.specs.Agreement.{Agree, of_tables};
ghost use Rattle.linker_rewriting.specs.Facts.{pre_layout, context_of};
ghost use Rattle.linker_rewriting.specs.Inner.Passed.{AreAllApart};
ghost use Rattle.linker_rewriting.specs.Inner.Passed.{StayUnless};
ghost use Rattle.linker_rewriting.specs.Rewritten.{section_after, relocation_after, AreDone};
ghost use Rattle.linker_rewriting.specs.Rewritten.{AreRelocationsAfter, OthersStay, IsRewrittenAs};
ghost use Rattle.linker_rewriting.specs.Rewritten.{AreDecidedAs, AreMadeAs, LabelsAreWhole};
ghost use Rattle.linker_rewriting.specs.Surveys.{MeansUnsurveyed};
ghost use Rattle.linker_base.specs.Rewrite.{CanRewrite};
ghost use Rattle.linker_base.specs.RewriteWindow.{window_of_rewrite};
ghost use Rattle.linker_utils.specs.Relaxations.{relaxation_rewrite, relaxation_deleted};
ghost use Rattle.linker_utils.specs.Relaxations.{relaxation_matches};
ghost use Rattle.linker_rewriting.specs.Candidates.{deletes_within};
ghost use Rattle.linker_rewriting.specs.Decisions as spec;

use crate::candidates::deletes_within;
use crate::decisions::{
    Decision, DecisionError, DecisionNumbers, Deletion, RewritingError, decide_section,
    decision_in, end_after, span_of,
};
use crate::facts::{OutputFacts, RelaxContext, SymbolFacts, contradiction, pre_layout};
use crate::groups::UnrelaxableGroups;
use crate::phases::Phase;
use crate::relocations::relocation_in;
use linker_section::relocations::{Rela, relocations_len, set_relocation};
use linker_utils::architecture::Relaxation;
use linker_utils::elf::{Architecture, InstructionRewrite};

/// A number of the bytes of a section from a place on, which is another where one of them is.
fn bytes_number(section: &[u8], start: u64, len: u64) -> u32
    requires { start + len ≤ length section.now }
    ensures { result ≡ spec.bytes_number section.now start len }
{
    let mut number: u32 = 0;
    for index in 0..len {
        let turned = number % (1 << 24) * (1 << 8) + number / (1 << 24);
        number = turned.wrapping_add(u32::from(section[(start + index) as usize]));
    }
    number
}

/// That of the bytes that a rewrite at an offset writes.
#[inline(always)]
fn window_number(kind: Relaxation, section: &[u8], offset: u64) -> u32
    requires { CanRewrite (relaxation_rewrite kind) section.now offset }
    ensures { result ≡ spec.window_number (window_of_rewrite (relaxation_rewrite kind)) section.now
        offset }
{
    let window = kind.window();
    if window.len == 0 {
        return 0;
    }
    bytes_number(section, offset - window.back, window.len)
}

/// Whether a rewrite's instructions are at an offset, and what it deletes is in the section.
#[inline(always)]
fn is_there(kind: Relaxation, section: &[u8], offset: u64) -> bool
    ensures exactly { IsTrue result ↔ (relaxation_matches kind section.now offset
        × (deletes_within section.now offset (relaxation_deleted kind) ≡ true)) }
    ensures rewritable { IsTrue result → CanRewrite (relaxation_rewrite kind) section.now offset }
{
    kind.matches(section, offset) && deletes_within(section, offset, kind.deleted())
}

/// Whether a decision can be made at an offset, of instructions that its rewrite is meant for and
/// of bytes with a number.
#[inline(always)]
fn fits(decision: &Decision, number: u32, section: &[u8], offset: u64) -> bool
    ensures { IsTrue result ↔ spec.StillFits decision.now number section.now offset }
{
    match decision {
        Decision::Rewritten(choice) => {
            is_there(choice.kind, section, offset)
                && window_number(choice.kind, section, offset) == number
        }
        Decision::RewrittenWithSymbol(choice, _) => is_there(choice.kind, section, offset),
        _ => true,
    }
}

/// Keeps a number of the bytes that each decision rewrites, if anything changes.
fn keep_bytes(changes: bool, relocations: &[u8], section: &[u8], decisions: &mut [DecisionNumbers])
    requires left { StayUnless changes relocations.now decisions.old }
    requires enough { length relocations.now / 24 ≤ length decisions.old }
    requires made { AreMakeable relocations.now section.now decisions.old }
    requires form { spec.EachIs IsWrittenDecision relocations.now decisions.old }
    ensures decisions { decisions_in decisions.new ≡ decisions_in decisions.old }
    ensures bytes { spec.AllKeepBytes relocations.now section.now (decisions_in decisions.new)
        (numbers_in decisions.new) (length relocations.now / 24) }
    ensures form { spec.EachIs IsKeptDecision relocations.now decisions.new }
    ensures others_stay { spec.RestStays relocations.now decisions.old decisions.new }
{
    if !changes {
        return;
    }
    for index in 0..relocations_len(relocations) {
        let Decision::Rewritten(choice) = decision_in(decisions, index) else {
            continue;
        };
        let offset = relocation_in(relocations, index).offset;
        let number = window_number(choice.kind, section, offset);
        decisions[index] = DecisionNumbers::from_choice(choice, number);
    }
}

/// Tests that decisions can be made of a section as it is.
fn check_decisions(
    relocations: &[u8],
    section: &[u8],
    decisions: &[DecisionNumbers],
) -> Result<(), DecisionError>
    ensures enough { OnOk result (length relocations.now / 24 ≤ length decisions.now) }
    ensures fit { OnOk result (spec.AllStillFit relocations.now section.now
        (decisions_in decisions.now) (numbers_in decisions.now)
        (length relocations.now / 24)) }
    ensures apart { OnOk result (AreAllApart relocations.now decisions.now) }
    ensures unmade { IfErr result (spec.IsUnmade relocations.now section.now
        (decisions_in decisions.now) (numbers_in decisions.now)) }
{
    let len = relocations_len(relocations);
    if decisions.len() < len {
        return Err(DecisionError::TooShort);
    }
    let mut end = 0;
    for index in 0..len {
        let decision = decision_in(decisions, index);
        if let Decision::Kept = decision {
            continue;
        }
        let offset = relocation_in(relocations, index).offset;
        if !fits(&decision, decisions[index].bytes(), section, offset) {
            return Err(DecisionError::Changed(index));
        }
        let (start, own) = span_of(&decision, offset);
        let Some(new_end) = end_after(start, own, end) else {
            return Err(DecisionError::Overlaps(index));
        };
        end = new_end;
    }
    Ok(())
}

#[inline(always)]
fn make(decision: Decision, relocation: &mut Rela, section: &mut [u8])
    requires { spec.CanBeMade decision section.old relocation.old.offset }
    ensures section { section.new ≡ section_after decision relocation.old.offset section.old }
    ensures relocation { relocation.new ≡ relocation_after decision relocation.old }
{
    match decision {
        Decision::Kept => {}
        Decision::Consumed => relocation.r_type = 0,
        Decision::Rewritten(choice) => {
            choice
                .kind
                .apply(section, &mut relocation.offset, &mut relocation.addend);
            relocation.r_type = choice.relocation;
        }
        Decision::RewrittenWithSymbol(choice, subject) => {
            relocation.symbol = subject.symbol;
            relocation.addend = subject.addend;
            choice
                .kind
                .apply(section, &mut relocation.offset, &mut relocation.addend);
            relocation.r_type = choice.relocation;
        }
    }
}

/// Makes what was decided, if anything changes.
pub(crate) fn make_all(
    changes: bool,
    decisions: &[DecisionNumbers],
    relocations: &mut [u8],
    section: &mut [u8],
)
    requires left { StayUnless changes relocations.old decisions.now }
    requires made { AreMakeable relocations.old section.old decisions.now }
    requires apart { AreAllApart relocations.old decisions.now }
    requires enough { length relocations.old / 24 ≤ length decisions.now }
    ensures relocations { AreRelocationsAfter (decisions_in decisions.now) relocations.old
        relocations.new (length relocations.old / 24) }
    ensures done { AreDone relocations.old (decisions_in decisions.now) section.old section.new
        (length relocations.old / 24) }
    ensures others { OthersStay relocations.old (decisions_in decisions.now) section.old
        section.new (length relocations.old / 24) }
{
    if !changes {
        return;
    }
    for index in 0..relocations_len(relocations) {
        let decision = decision_in(decisions, index);
        if let Decision::Kept = decision {
            continue;
        }
        let mut relocation = relocation_in(relocations, index);
        make(decision, &mut relocation, section);
        set_relocation(relocations, index, &relocation);
    }
}

/// Rewrites the instructions of a section of code as `choose` says before addresses are known, and
/// turns its relocations into those after it. It decides by all of the section's bytes before it
/// rewrites one.
///
/// An instruction whose relocation is `Scope::Independent` is rewritten where it can be. Those of a
/// group are all rewritten, or none is where the group stays by `kept`, which `survey` made of all
/// sections of code of the object with the same facts. One whose relocation's symbol isn't in the
/// table isn't rewritten. Nothing is deleted.
///
/// Since no address is known, a value after a rewrite may turn out to be out of reach. What this
/// call doesn't rewrite, a linker may rewrite by `choose`.
///
/// A value out of reach is an error of `relocate_section`, with two exceptions, both of LoongArch.
/// What its load from the GOT becomes takes any distance (`R_LARCH_PCALA_HI20`), and what its
/// initial-exec TLS and descriptors become takes any offset from the thread pointer
/// (`R_LARCH_TLS_LE_HI20`). Nothing tests that 32 signed bits hold these. So a load from the GOT
/// becomes a distance only by `has_near_symbols` of the output, and that of an absolute symbol
/// never does. Where 32 bits may not hold the offset of a thread-local symbol, note its
/// `initial_exec`, `general_dynamic` and `descriptor` in `kept` before the rewrite.
///
/// # Errors
///
/// Relocations of instructions that can be rewritten have to ascend by offset (`Overlaps`). All
/// others may be in any order.
pub fn rewrite_section(
    architecture: Architecture,
    output: &OutputFacts,
    symbols: &[SymbolFacts],
    kept: &[UnrelaxableGroups],
    relocations: &mut [u8],
    section: &mut [u8],
    decisions: &mut [DecisionNumbers],
) -> Result<(), RewritingError>
    ensures rewritten { OnOk result (IsRewrittenAs (pre_layout architecture output.now symbols.now)
        kept.now relocations.old relocations.new section.old section.new
        (decisions_in decisions.new)) }
    ensures form { OnOk result (spec.EachIs IsWrittenDecision relocations.old decisions.new) }
    ensures others_stay { spec.RestStays relocations.old decisions.old decisions.new }
    ensures rejected { IfErr result (spec.IsRejected architecture output.now symbols.now kept.now
        relocations.old section.old (decisions_in decisions.new)) }
    ensures surveyed { IfErr result (MeansUnsurveyed (pre_layout architecture output.now
        symbols.now) relocations.old section.old kept.now) }
    ensures section { OnErr result (section.new ≡ section.old) }
    ensures entries { OnErr result (relocations.new ≡ relocations.old) }
{
    let context = pre_layout!(architecture, output, symbols);
    let changes = decide_section(&context, kept, relocations, section, decisions)?;
    make_all(changes, decisions, relocations, section);
    Ok(())
}

/// Decides what `rewrite_section` would do, and writes nothing but `decisions`. So a linker can
/// decide while it scans inputs that it maps read-only, once all sections of code of the object are
/// surveyed, and other sections may be decided by other threads at the same time. `make_rewrites`
/// makes the decisions, once the section is copied to the output.
///
/// What a relocation still requires is that of its type afterwards: the choice's `relocation`, and
/// nothing of one that is `Decision::Consumed`. None is `Decision::RewrittenWithSymbol`.
///
/// No decision depends on an address. A branch is rewritten by its symbol's facts alone: AArch64's
/// to an undefined weak symbol becomes a `nop`. The `nop` after PowerPC64's call restores the TOC
/// pointer where its function may change it. So a linker may still choose a stub as the target of a
/// branch that keeps its relocation.
///
/// # Errors
///
/// Those of `rewrite_section`.
///
/// ```
/// use linker_rewriting::decisions::{Decision, DecisionError, DecisionNumbers};
/// use linker_rewriting::facts::{OutputFacts, SymbolFacts};
/// use linker_rewriting::groups::UnrelaxableGroups;
/// use linker_rewriting::sections::{decide_rewrites, make_rewrites};
/// use linker_utils::elf::Architecture;
///
/// // call *f@GOTPCREL(%rip), with R_X86_64_GOTPCRELX of symbol 1 at 2, becomes addr32 call f
/// let input = [0xff, 0x15, 0, 0, 0, 0];
/// let mut relocations = [0; 24];
/// (relocations[0], relocations[8], relocations[12]) = (2, 41, 1);
/// relocations[16..].copy_from_slice(&(-4i64).to_le_bytes());
/// let mut decisions = [DecisionNumbers::from_decision(Decision::Kept)];
/// decide_rewrites(
///     Architecture::X86_64,
///     &OutputFacts { is_executable: true, is_fixed: false, has_near_symbols: true },
///     &[SymbolFacts { is_local: true, ..SymbolFacts::default() }; 2],
///     &[UnrelaxableGroups::default(); 2],
///     &relocations,
///     &input,
///     &mut decisions,
/// )
/// .unwrap();
/// let mut section = input;
/// assert_eq!(make_rewrites(&mut relocations, &mut section, &decisions), Ok(()));
/// assert_eq!(section, [0x67, 0xe8, 0, 0, 0, 0]);
/// // R_X86_64_PC32, whose instruction isn't the one that was decided on
/// assert_eq!(relocations[8], 2);
/// let again = make_rewrites(&mut relocations, &mut section, &decisions);
/// assert_eq!(again, Err(DecisionError::Changed(0)));
/// ```
pub fn decide_rewrites(
    architecture: Architecture,
    output: &OutputFacts,
    symbols: &[SymbolFacts],
    kept: &[UnrelaxableGroups],
    relocations: &[u8],
    section: &[u8],
    decisions: &mut [DecisionNumbers],
) -> Result<(), RewritingError>
    ensures decided { OnOk result (AreDecidedAs (pre_layout architecture output.now symbols.now)
        kept.now relocations.now section.now (decisions_in decisions.new)
        (numbers_in decisions.new)) }
    ensures form { OnOk result (spec.EachIs IsKeptDecision relocations.now decisions.new) }
    ensures others_stay { spec.RestStays relocations.now decisions.old decisions.new }
    ensures rejected { IfErr result (spec.IsRejected architecture output.now symbols.now kept.now
        relocations.now section.now (decisions_in decisions.new)) }
    ensures surveyed { IfErr result (MeansUnsurveyed (pre_layout architecture output.now
        symbols.now) relocations.now section.now kept.now) }
{
    let context = pre_layout!(architecture, output, symbols);
    let changes = decide_section(&context, kept, relocations, section, decisions)?;
    keep_bytes(changes, relocations, section, decisions);
    Ok(())
}

/// Makes decisions of `decide_rewrites`: rewrites the instructions of a section, or of a copy, and
/// turns its relocations into those after it. Section and relocations then are what
/// `rewrite_section` leaves.
///
/// The relocations have to be those that were decided on, with their offsets in this section: it is
/// called before values are written, and before the section is packed. Where these and the section
/// are unchanged, it returns no error. Each byte that a rewrite overwrites is tested, by a number
/// of 32 bits that is kept with the decision. It is another one where one of the bytes is, and of
/// up to four bytes it is those bytes (`laws::decisions_are_made`).
///
/// Any decisions are accepted that pass the tests below, whoever made them. With
/// `Decision::RewrittenWithSymbol`, which `decide_rewrites` never decides, no number is kept. What
/// isn't tested is what is decided by other relocations: that a group is whole, and that no rewrite
/// changes another relocation's field.
///
/// # Errors
///
/// `TooShort`, or else the error of the first relocation that has one.
pub fn make_rewrites(
    relocations: &mut [u8],
    section: &mut [u8],
    decisions: &[DecisionNumbers],
) -> Result<(), DecisionError>
    ensures made { OnOk result (AreMadeAs relocations.old relocations.new section.old section.new
        (decisions_in decisions.now) (numbers_in decisions.now)) }
    ensures unmade { IfErr result (spec.IsUnmade relocations.old section.old
        (decisions_in decisions.now) (numbers_in decisions.now)) }
    ensures section { OnErr result (section.new ≡ section.old) }
    ensures entries { OnErr result (relocations.new ≡ relocations.old) }
{
    check_decisions(relocations, section, decisions)?;
    make_all(true, decisions, relocations, section);
    Ok(())
}

/// Lists what decisions delete, if anything changes. Returns how many there are; none where there
/// is less room.
pub(crate) fn list_deletions(
    changes: bool,
    relocations: &[u8],
    decisions: &[DecisionNumbers],
    deleted: &mut [Deletion],
) -> Option<usize>
    requires left { StayUnless changes relocations.now decisions.now }
    requires enough { length relocations.now / 24 ≤ length decisions.now }
    requires fit { (n : ℕ) → n < length relocations.now / 24
        → spec.deleted_end (relocation_in relocations.now n).offset
        (spec.deleted_of (spec.decision_at (decisions_in decisions.now) n)) ≤ u64.MAX }
    ensures listed { IfSome result (AreListed relocations.now decisions.now deleted.new) }
    ensures others_stay { IfSome result (λ len. drop len deleted.new ≡ drop len deleted.old) }
    ensures short { IfNone result (length deleted.old
        < length (spec.deletions_by relocations.now (decisions_in decisions.now)
        (length relocations.now / 24))) }
{
    if !changes {
        return Some(0);
    }
    let mut len = 0;
    for index in 0..relocations_len(relocations) {
        let Some(bytes) = decision_in(decisions, index).deleted() else {
            continue;
        };
        if deleted.len() <= len {
            return None;
        }
        let relocation = relocation_in(relocations, index);
        deleted[len] = Deletion {
            offset: relocation.offset + bytes.start,
            bytes: bytes.count,
        };
        len += 1;
    }
    Some(len)
}

/// Rewrites the instructions of a section of code in a phase, once addresses are known, and turns
/// its relocations into those after it, as `rewrite_section` does before. What is in the way of a
/// group, as a distance out of reach or a missing mark, keeps all of it, by the table that
/// `survey_placed_section` made of all sections of code of the object for the phase with the same
/// facts and addresses.
///
/// Each address has to be that by which values are written later, or differ from it by less than
/// the reach that is left: a linker that deletes bytes afterwards makes distances shorter, never
/// longer.
///
/// Bytes that are to be deleted are listed in `deleted`, ascending, as `SectionRelaxDeltas::new` of
/// `linker_base::relaxation` takes their pairs. They are in the section, apart from each other and
/// from all that is rewritten, and still there. `Phase::TlsLocalExec` alone has any. Returns how
/// many there are.
///
/// - `TlsLocalExec`: where an offset from the thread pointer has 12 bits, RISC-V's and LoongArch's
///   `lui` and `add` of it are deleted, and loads and stores are over the thread pointer; where it
///   has 16 bits, PowerPC64's `addis` becomes a `nop`. An instruction of RISC-V and LoongArch has
///   to be marked for that. RISC-V's TLS descriptors become such offsets too, all of a label or
///   none: what is left out is deleted where the high part is marked, and a `nop` elsewhere. Their
///   relocations are then of the symbol and the addend of the high part
///   (`Decision::RewrittenWithSymbol`).
/// - `GotToPcRel`: AArch64's loads of an address from the GOT become `adrp` and `add`, where both
///   relocations are next to each other and have no addend. RISC-V's become `auipc` and `addi`,
///   where all of a label are marked, or of an address that is fixed while the distance isn't `lui`
///   and `addi`, whose low parts are then of the symbol and the addend of the high part.
/// - `ShortPcRel`: AArch64's `adrp` and `add` next to each other become `nop` and `adr`. Where a
///   distance from the TOC pointer has 16 bits, PowerPC64's `addis` becomes a `nop`, and what reads
///   it is over the TOC pointer.
///
/// # Errors
///
/// Those of `rewrite_section`, and before them `Contradiction`, of the first such symbol; an
/// undefined weak symbol that the dynamic linker may define is none.
pub fn rewrite_placed_section(
    context: &RelaxContext<'_>,
    kept: &[UnrelaxableGroups],
    relocations: &mut [u8],
    section: &mut [u8],
    decisions: &mut [DecisionNumbers],
    deleted: &mut [Deletion],
) -> Result<usize, RewritingError>
    ensures agree { OnOk result (of_tables Agree context.now relocations.old) }
    ensures rewritten { OnOk result (IsRewrittenAs (context_of context.now) kept.now relocations.old
        relocations.new section.old section.new (decisions_in decisions.new)) }
    ensures within { OnOk result (AreMakeable relocations.old section.old decisions.new) }
    ensures listed { IfOk result (AreListed relocations.old decisions.new deleted.new) }
    ensures labels { OnOk result (LabelsAreWhole (context_of context.now) relocations.old
        (decisions_in decisions.new) (length relocations.old / 24)) }
    ensures form { OnOk result (spec.EachIs IsWrittenDecision relocations.old decisions.new) }
    ensures others_stay { spec.RestStays relocations.old decisions.old decisions.new }
    ensures deletions_stay { IfOk result (λ len. drop len deleted.new ≡ drop len deleted.old) }
    ensures rejected { IfErr result (spec.IsRejectedPlaced (context_of context.now) kept.now
        relocations.old section.old (decisions_in decisions.new) (length deleted.old)) }
    ensures surveyed { IfErr result (MeansUnsurveyed (context_of context.now) relocations.old
        section.old kept.now) }
    ensures section { OnErr result (section.new ≡ section.old) }
    ensures entries { OnErr result (relocations.new ≡ relocations.old) }
{
    if let Some(symbol) = contradiction(context.symbols, context.values, relocations) {
        return Err(RewritingError::Contradiction(symbol));
    }
    let changes = decide_section(context, kept, relocations, section, decisions)?;
    let Some(len) = list_deletions(changes, relocations, decisions, deleted) else {
        return Err(RewritingError::TooShort);
    };
    make_all(changes, decisions, relocations, section);
    Ok(len)
}
