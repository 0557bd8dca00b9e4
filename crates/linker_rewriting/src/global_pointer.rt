//! RISC-V's addresses within 2 KiB of the global pointer, from 2,048 below it to 2,047 above it, or
//! of 0 (RISC-V ELF psABI, "Global-pointer Relaxation" and "Zero-page Relaxation"). They need no
//! `lui` and no `auipc`: each low part takes x3 or x0 as its base, all of a symbol or none. `gp` is
//! the address of `__global_pointer$`. For other architectures nothing is noted or rewritten.

ghost use Rattle.std.specs.Prelude.{◌≡◌, ◌↔◌, ◌+◌, ◌<◌, ◌≤◌, ◌/◌, length, drop};
ghost use Rattle.std.specs.Prelude.{IfSome, IfErr, IfOk, OnOk, OnErr, IsTrue, ◌&&◌};
ghost use Rattle.std.specs.Prelude.{◌==◌, true, MatchOption, None, Some, take, ⊤};
ghost use Rattle.std.specs.Int.{w32, from_le_bytes};
ghost use Rattle.linker_rewriting.specs.Numbers.{AreListed, AreMakeable, IsWrittenDecision};
ghost use Rattle.linker_rewriting.specs.Numbers.{decisions_in};
ghost use Rattle.linker_rewriting.specs.Agreement.{Agree, IsContradiction, of_tables};
ghost use Rattle.linker_rewriting.specs.Decisions.{EachIs, IsRejectedFirst, RestStays};
ghost use Rattle.linker_rewriting.specs.Facts.{context_of};
ghost use Rattle.linker_rewriting.specs.Inner.Passed.{at_site};
ghost use Rattle.linker_rewriting.specs.Inner.Passed.{by_bases};
ghost use Rattle.linker_riscv64.specs.RiscVCalls.{word_at};
ghost use Rattle.linker_utils.specs.RiscVRewrites.{with_rs1};
ghost use Rattle.linker_section.specs.Relocations.{relocation_in};
ghost use Rattle.linker_section.specs.Values.{IsAscending};
ghost use Rattle.linker_rewriting.specs.GlobalPointer as spec;

use crate::decisions::{
    Decision, DecisionNumbers, Deletion, RewritingError, decision_in, subject_of,
};
use crate::facts::{OutputFacts, RelaxContext, SymbolFacts, address_in, contradiction};
use crate::relocations::{Site, relocation_in, site};
use crate::riscv_pcrel_groups::{high_at, is_beyond, label_at};
use crate::rules::{Rule, decide_by};
use crate::sections::list_deletions;
use crate::sequences::is_marked_at;
use crate::toc_indirection::{keep_word, word_stays};
use linker_base::rewrite::overwrite;
use linker_section::facts::{Addresses, Symbol};
use linker_section::relocations::{Rela, is_ascending, relocations_len, set_relocation};
use linker_utils::architecture::Relaxation;
use linker_utils::elf::{Architecture, Choice};
use linker_utils::riscv64::fields::{base, destination, opcode, stores_base, word_at};
use linker_utils::riscv64::{RewriteKind, RiscVRelocation};
use linker_utils::utils::u32_from_slice;

/// What the instruction of a relocation is of an address.
#[derive(Clone, Copy, PartialEq, Eq)]
pub(crate) enum Part {
    /// A high part, with its opcode.
    High(u32),
    /// A low part whose relocation is of the symbol, with the type that it gets.
    Low(u32),
    /// A low part whose relocation is of the label of its high part, with the type that it gets.
    Labelled(u32),
}

/// The type of a low part of the I format until its base is known, `R_RISCV_GPREL_I` of `elf.h`.
pub const GPREL_I: u32 = 47;

/// The same of the S format, `R_RISCV_GPREL_S`.
pub const GPREL_S: u32 = 48;

fn part_of(architecture: Architecture, r_type: u32) -> Option<Part>
    ensures { result ≡ spec.part_of architecture r_type }
{
    match architecture {
        Architecture::RiscV => {
            if RiscVRelocation::R_RISCV_HI20.r_type() == r_type {
                Some(Part::High(0x37))
            } else if RiscVRelocation::R_RISCV_PCREL_HI20.r_type() == r_type {
                Some(Part::High(0x17))
            } else if RiscVRelocation::R_RISCV_LO12_I.r_type() == r_type {
                Some(Part::Low(GPREL_I))
            } else if RiscVRelocation::R_RISCV_LO12_S.r_type() == r_type {
                Some(Part::Low(GPREL_S))
            } else if RiscVRelocation::R_RISCV_PCREL_LO12_I.r_type() == r_type {
                Some(Part::Labelled(GPREL_I))
            } else if RiscVRelocation::R_RISCV_PCREL_LO12_S.r_type() == r_type {
                Some(Part::Labelled(GPREL_S))
            } else {
                None
            }
        }
        _ => None,
    }
}

/// The high part at the label of a low part.
fn labelled(context: &RelaxContext<'_>, relocations: &[u8], relocation: &Rela) -> Option<Rela>
    ensures { spec.IsLabelled context.now.addresses.now context.now.values.now relocations.now
        relocation.now result }
{
    let at = label_at(context, relocation)?;
    let r_type = RiscVRelocation::R_RISCV_PCREL_HI20.r_type();
    let high = high_at(relocations, r_type, at)?;
    Some(relocation_in(relocations, high))
}

/// What a relocation is of an address, and the relocation whose symbol and addend are its own.
fn member_of(
    context: &RelaxContext<'_>,
    relocations: &[u8],
    relocation: &Rela,
) -> Option<(Part, Rela)>
    ensures { spec.IsMember (context_of context.now) relocations.now relocation.now result }
{
    let part = part_of(context.architecture, relocation.r_type)?;
    match part {
        Part::Labelled(_) => Some((part, labelled(context, relocations, relocation)?)),
        Part::High(_) | Part::Low(_) => Some((part, *relocation)),
    }
}

/// Whether 12 signed bits hold the distance of an address from another one.
fn is_near(base: u64, address: u64) -> bool
    ensures { result ≡ spec.is_near base address }
{
    address.wrapping_sub(base).wrapping_add(0x800) < 0x1000
}

/// S + A.
fn address_of(addresses: &Addresses, relocation: &Rela, value: &Symbol) -> u64
    ensures { result ≡ spec.address_of addresses.now relocation.now value.now }
{
    let addend = relocation.addend.cast_unsigned();
    address_in(addresses, value).wrapping_add(addend)
}

/// Whether x3 or x0 reaches what a relocation refers to: data or code, which nothing replaces at
/// run time.
fn is_reached(context: &RelaxContext<'_>, gp: u64, relocation: &Rela) -> bool
    ensures { result ≡ spec.is_reached (context_of context.now) gp relocation.now }
{
    let index = relocation.symbol as usize;
    match (context.symbols.get(index), context.values.get(index)) {
        (Some(symbol), Some(value)) => {
            let stays_here = symbol.is_local || symbol.is_undefined_weak;
            let is_bound = stays_here && !symbol.is_ifunc && !value.is_thread_local;
            let address = address_of(context.addresses, relocation, value);
            is_bound && (is_near(gp, address) || is_near(0, address))
        }
        _ => false,
    }
}

/// Whether four bytes from an offset on are in the section.
fn has_word(section: &[u8], offset: u64) -> bool
    ensures { result ≡ spec.has_word section.now offset }
{
    let section_len = section.len() as u64;
    4 <= section_len && offset <= section_len - 4
}

/// The instruction at an offset of the section, by its four bytes alone.
fn window_at(section: &[u8], offset: u64) -> u32
    requires { offset + 4 ≤ length section.now }
    ensures { result ≡ from_le_bytes w32 (take 4 (drop offset section.now)) }
{
    u32_from_slice(&section[offset as usize..])
}

/// Whether an instruction adds 12 bits to another register than x0, doesn't store what that holds,
/// and doesn't write x3.
fn is_low_at(section: &[u8], offset: u64) -> bool
    requires { offset + 4 ≤ length section.now }
    ensures { result ≡ spec.is_low_word (word_at section.now offset) }
{
    let word = word_at(section, offset);
    // a store, or a load of a number of floating point
    let writes_none = opcode(word) == 0x23 || opcode(word) == 0x27 || opcode(word) == 0x07;
    RewriteKind::Lo12Rs1ToZero.matches(section, offset)
        && base(word) != 0
        && !stores_base(word)
        && (writes_none || destination(word) != 3)
}

/// Whether the instruction of a relocation is one of such a part. A high part writes another
/// register than x0 and x3.
fn is_expected(section: &[u8], relocation: &Rela, part: Part, subject: &Rela) -> bool
    ensures { result ≡ spec.is_expected section.now relocation.now part subject.now }
{
    let offset = relocation.offset;
    if !has_word(section, offset) {
        return false;
    }
    match part {
        Part::High(expected) => {
            let word = word_at(section, offset);
            opcode(word) == expected && destination(word) != 0 && destination(word) != 3
        }
        Part::Low(_) => is_low_at(section, offset),
        Part::Labelled(_) => {
            is_low_at(section, offset)
                && has_word(section, subject.offset)
                && base(word_at(section, offset)) == destination(word_at(section, subject.offset))
        }
    }
}

/// What parts are chosen by. As a rule all of a symbol are rewritten, or none is.
#[derive(Clone, Copy)]
struct Parts<'a> {
    context: &'a RelaxContext<'a>,
    gp: u64,
    /// Whether the relocations ascend.
    ascends: bool,
    /// Which symbols stay.
    kept: &'a [bool],
}

/// Whether a part can be rewritten, if all of its symbol can.
#[inline(always)]
fn fits(parts: &Parts<'_>, site: &Site<'_>, member: &(Part, Rela)) -> bool
    requires { site.now.index < length site.now.relocations.now / 24 }
    ensures { result ≡ at_site (λ s. spec.fits s parts.now.gp parts.now.ascends)
        parts.now.context.now site.now member.now }
{
    let (context, relocation) = (parts.context, &site.relocation);
    let (relocations, index) = (site.relocations, site.index);
    parts.ascends
        && !is_beyond(relocations, relocation.offset, index)
        && context.output.is_executable
        && context.output.is_fixed
        && is_marked_at(context.architecture, relocations, index, relocation)
        && is_reached(context, parts.gp, &member.1)
        && is_expected(site.section, relocation, member.0, &member.1)
}

/// The symbol that a relocation keeps, since it is of an address and doesn't fit.
fn keeping_symbol(parts: &Parts<'_>, site: &Site<'_>) -> Option<usize>
    requires index { site.now.index < length site.now.relocations.now / 24 }
    requires ascending { IsTrue parts.now.ascends ↔ IsAscending site.now.relocations.now }
    ensures { at_site (λ s. spec.IsKeepingSymbol s parts.now.gp) parts.now.context.now site.now
        result }
{
    let member = member_of(parts.context, site.relocations, &site.relocation)?;
    if fits(parts, site, &member) {
        None
    } else {
        Some(member.1.symbol as usize)
    }
}

/// Notes which symbols of an object keep the `lui` and `auipc` of their address, since a relocation
/// of this section of code is of such an instruction, or of a low part, and can't be rewritten: it
/// isn't marked by `R_RISCV_RELAX`, its instruction is another one, or S + A is near neither the
/// global pointer nor 0. All symbols of a section stay whose relocations don't ascend, and all
/// where the output isn't an executable that is always loaded at the address that it is linked for.
///
/// As with `survey` there is one table, with an element for each symbol of the object, all of which
/// are false at first. A symbol without an element stays.
///
/// # Errors
///
/// `kept` is as before. The index of the first symbol that is a `RewritingError::Contradiction`.
pub fn survey_global_pointer(
    context: &RelaxContext<'_>,
    gp: u64,
    relocations: &[u8],
    section: &[u8],
    kept: &mut [bool],
) -> Result<(), usize>
    ensures surveyed { OnOk result (spec.AreSymbolsSurveyed (context_of context.now) gp
        relocations.now section.now kept.old kept.new (length relocations.now / 24)) }
    ensures agree { OnOk result (of_tables Agree context.now relocations.now) }
    ensures contradiction { IfErr result (of_tables IsContradiction context.now relocations.now) }
    ensures unchanged { OnErr result (kept.new ≡ kept.old) }
{
    if let Some(symbol) = contradiction(context.symbols, context.values, relocations) {
        return Err(symbol);
    }
    let parts = Parts {
        context,
        gp,
        ascends: is_ascending(relocations),
        kept: &[],
    };
    for index in 0..relocations_len(relocations) {
        let site = site!(relocations, section, index);
        keep_word(kept, keeping_symbol(&parts, &site));
    }
    Ok(())
}

fn part_decision(part: Part, subject: &Rela) -> Decision
    ensures { result ≡ spec.part_decision part subject.now }
{
    match part {
        Part::High(_) => Decision::Rewritten(Choice {
            kind: Relaxation::RiscV(RewriteKind::Delete),
            relocation: 0,
        }),
        Part::Low(relocation) | Part::Labelled(relocation) => Decision::RewrittenWithSymbol(
            Choice {
                kind: Relaxation::RiscV(RewriteKind::NoOp),
                relocation,
            },
            subject_of(subject),
        ),
    }
}

impl Rule for Parts<'_> {
    ghost decides = { λ s bytes section n taken r d. spec.IsPartDecided (context_of s.context.now)
        s.gp s.kept.now bytes section n r (Some d) };

    ghost lacks = { λ s bytes section n r. spec.IsPartDecided (context_of s.context.now) s.gp
        s.kept.now bytes section n r None };

    ghost is_valid = { λ s bytes. IsTrue s.ascends ↔ IsAscending bytes };

    ghost is_noted = { λ s bytes section n stays. ⊤ };

    ghost start = { spec.part_start };

    ghost end = { spec.part_end };

    #[inline(always)]
    fn decide(&self, _is_taken: bool, _stays: bool, site: &Site<'_>) -> Option<Decision> {
        let Some(member) = member_of(self.context, site.relocations, &site.relocation) else {
            return Some(Decision::Kept);
        };
        if word_stays(self.kept, member.1.symbol as usize) {
            return Some(Decision::Kept);
        }
        if fits(self, site, &member) {
            Some(part_decision(member.0, &member.1))
        } else {
            None
        }
    }

    /// A part that stays has no bytes here.
    #[inline(always)]
    fn span(&self, decision: &Decision, offset: u64) -> (u64, u64) {
        match decision {
            Decision::Rewritten(_) | Decision::RewrittenWithSymbol(_, _) => (offset, offset + 4),
            Decision::Kept | Decision::Consumed => (offset, offset),
        }
    }
}

/// A relocation after what became of it, where no bytes are rewritten.
fn relocation_by(decision: &Decision, relocation: &Rela) -> Rela
    ensures { result ≡ spec.relocation_by decision.now relocation.now }
{
    match decision {
        Decision::Kept => *relocation,
        Decision::Consumed => Rela {
            r_type: 0,
            ..*relocation
        },
        Decision::Rewritten(choice) => Rela {
            r_type: choice.relocation,
            ..*relocation
        },
        Decision::RewrittenWithSymbol(choice, subject) => Rela {
            offset: relocation.offset,
            r_type: choice.relocation,
            symbol: subject.symbol,
            addend: subject.addend,
        },
    }
}

fn turn_all(decisions: &[DecisionNumbers], relocations: &mut [u8])
    requires { length relocations.old / 24 ≤ length decisions.now }
    ensures { spec.AreRelocationsBy (decisions_in decisions.now) relocations.old relocations.new
        (length relocations.old / 24) }
{
    for index in 0..relocations_len(relocations) {
        let decision = decision_in(decisions, index);
        let relocation = relocation_by(&decision, &relocation_in(relocations, index));
        set_relocation(relocations, index, &relocation);
    }
}

/// Has each `lui` and `auipc` of an address go whose symbol doesn't stay by `kept`, once addresses
/// are known and before code gets shorter: `survey_global_pointer` made it of all sections of code
/// of the object with the same facts and addresses. The bytes stay as they are until what is listed
/// in `deleted`, each instruction of four bytes, is deleted: by their offset in the section and how
/// many they are, in the order of their relocations, which ascend. Returns how many there are.
///
/// The relocation of such an instruction gets the type 0. Those of the low parts of these symbols
/// get the symbol and the addend of the address and the type `GPREL_I` or `GPREL_S`, which no other
/// call knows: `finish_gp_relaxation` writes the base of their instruction once all addresses are
/// final, and gives them the type whose value is then written. The `decisions` are as
/// `rewrite_section` has them.
///
/// The premise is that x3 is the address of `__global_pointer$` wherever the code of the section
/// runs, and never changes: what sets it isn't marked. An instruction that is deleted leaves its
/// register as it was, so that only low parts of the same symbol may read what it wrote.
///
/// # Errors
///
/// The relocations are as before. `Contradiction` comes first. `Overlaps`: low parts count as four
/// bytes that are rewritten, too.
///
/// ```
/// use linker_rewriting::decisions::{Decision, DecisionNumbers, Deletion};
/// use linker_rewriting::facts::{OutputFacts, RelaxContext, SymbolFacts};
/// use linker_rewriting::global_pointer::{GPREL_I, rewrite_global_pointer};
/// use linker_rewriting::phases::Phase;
/// use linker_section::facts::{Addresses, Symbol};
/// use linker_utils::elf::Architecture;
///
/// // lui a0, %hi(x) and lw a0, %lo(x)(a0), both marked, where x is 2,047 above gp
/// let mut relocations = [0; 96];
/// for (at, offset, r_type) in [(0, 0, 26), (24, 0, 51), (48, 4, 27), (72, 4, 51)] {
///     (relocations[at], relocations[at + 8]) = (offset, r_type);
///     relocations[at + 12] = u8::from(r_type < 51);
/// }
/// let mut deleted = [Deletion { offset: 0, bytes: 0 }];
/// let context = RelaxContext {
///     architecture: Architecture::RiscV,
///     phase: Phase::ShortPcRel,
///     output: &OutputFacts { is_executable: true, is_fixed: true, has_near_symbols: true },
///     symbols: &[SymbolFacts { is_local: true, ..SymbolFacts::default() }; 2],
///     addresses: &Addresses { section: 0x1_0000, ..Addresses::default() },
///     values: &[0, 0x2_0fff].map(|address| Symbol { address, ..Symbol::default() }),
/// };
/// let rewritten = rewrite_global_pointer(
///     &context,
///     0x2_0800,
///     &[false; 2],
///     &mut relocations,
///     &[0x37, 0x05, 0, 0, 0x03, 0x25, 0x05, 0],
///     &mut [DecisionNumbers::from_decision(Decision::Kept); 4],
///     &mut deleted,
/// );
/// assert_eq!((rewritten, deleted[0].bytes), (Ok(1), 4));
/// assert_eq!((relocations[8], u32::from(relocations[56])), (0, GPREL_I));
/// ```
pub fn rewrite_global_pointer(
    context: &RelaxContext<'_>,
    gp: u64,
    kept: &[bool],
    relocations: &mut [u8],
    section: &[u8],
    decisions: &mut [DecisionNumbers],
    deleted: &mut [Deletion],
) -> Result<usize, RewritingError>
    ensures agree { OnOk result (of_tables Agree context.now relocations.old) }
    ensures rewritten { OnOk result (spec.ArePartsRewrittenAs (context_of context.now) gp kept.now
        relocations.old relocations.new section.now (decisions_in decisions.new)) }
    ensures within { OnOk result (AreMakeable relocations.old section.now decisions.new) }
    ensures listed { IfOk result (AreListed relocations.old decisions.new deleted.new) }
    ensures form { OnOk result (EachIs IsWrittenDecision relocations.old decisions.new) }
    ensures others_stay { RestStays relocations.old decisions.old decisions.new }
    ensures deletions_stay { IfOk result (λ len. drop len deleted.new ≡ drop len deleted.old) }
    ensures rejected { IfErr result (of_tables IsRejectedFirst context.now relocations.old
        (spec.ArePartsRejected (context_of context.now) gp kept.now relocations.old section.now
        (decisions_in decisions.new) (length deleted.old))) }
    ensures surveyed { IfErr result (spec.MeansSymbolsUnsurveyed (context_of context.now) gp
        relocations.old section.now kept.now) }
    ensures entries { OnErr result (relocations.new ≡ relocations.old) }
{
    if let Some(symbol) = contradiction(context.symbols, context.values, relocations) {
        return Err(RewritingError::Contradiction(symbol));
    }
    if decisions.len() < relocations_len(relocations) {
        return Err(RewritingError::TooShort);
    }
    let parts = Parts {
        context,
        gp,
        ascends: is_ascending(relocations),
        kept,
    };
    decide_by(
        &parts,
        context.architecture,
        relocations,
        section,
        decisions,
    )?;
    let Some(len) = list_deletions(true, relocations, decisions, deleted) else {
        return Err(RewritingError::TooShort);
    };
    turn_all(decisions, relocations);
    Ok(len)
}

/// The type that the relocation of a low part without a base gets.
fn low_r_type(r_type: u32) -> Option<u32>
    ensures { result ≡ spec.low_r_type r_type }
{
    if r_type == GPREL_I {
        Some(RiscVRelocation::R_RISCV_LO12_I.r_type())
    } else if r_type == GPREL_S {
        Some(RiscVRelocation::R_RISCV_LO12_S.r_type())
    } else {
        None
    }
}

#[derive(Clone, Copy)]
struct Bases<'a> {
    addresses: &'a Addresses,
    values: &'a [Symbol],
    gp: u64,
}

/// The base register that reaches what a relocation refers to, x0 or x3, and the address that it
/// has.
fn base_of(bases: &Bases<'_>, relocation: &Rela) -> Option<(u32, u64)>
    ensures base { result ≡ by_bases spec.base_of bases.now relocation.now }
    ensures register { IfSome result (λ base. base.0 ≤ 3) }
{
    let value = bases.values.get(relocation.symbol as usize)?;
    let address = address_of(bases.addresses, relocation, value);
    if is_near(0, address) {
        Some((0, 0))
    } else if is_near(bases.gp, address) {
        Some((3, bases.gp))
    } else {
        None
    }
}

/// Whether a relocation is of no low part without a base, or its instruction is in the section and
/// a base reaches what it refers to.
fn is_placed(bases: &Bases<'_>, section: &[u8], relocation: &Rela) -> bool
    ensures { result ≡ by_bases spec.is_placed bases.now section.now relocation.now }
{
    match low_r_type(relocation.r_type) {
        Some(_) => has_word(section, relocation.offset) && base_of(bases, relocation).is_some(),
        None => true,
    }
}

fn first_unplaced(bases: &Bases<'_>, relocations: &[u8], section: &[u8]) -> Option<usize>
    ensures { MatchOption result (by_bases spec.ArePlaced bases.now relocations.now section.now)
        (by_bases spec.IsFirstUnplaced bases.now relocations.now section.now) }
{
    for index in 0..relocations_len(relocations) {
        let relocation = relocation_in(relocations, index);
        if !is_placed(bases, section, &relocation) {
            return Some(index);
        }
    }
    None
}

fn with_base(register: u32, word: u32) -> u32
    requires { register ≤ 3 }
    ensures { result ≡ with_rs1 register word }
{
    word - base(word) * 0x8000 + register * 0x8000
}

/// Writes the base of a low part. Returns its relocation after it.
fn set_base(bases: &Bases<'_>, section: &mut [u8], relocation: &Rela) -> Rela
    requires { by_bases spec.is_placed bases.now section.old relocation.now ≡ true }
    ensures section { section.new ≡ by_bases spec.based_section bases.now section.old
        relocation.now }
    ensures relocation { result ≡ by_bases spec.based_relocation bases.now relocation.now }
{
    let Some(r_type) = low_r_type(relocation.r_type) else {
        return *relocation;
    };
    let Some((register, address)) = base_of(bases, relocation) else {
        return *relocation;
    };
    let word = with_base(register, window_at(section, relocation.offset));
    overwrite(section, relocation.offset, &word.to_le_bytes());
    let addend = relocation.addend.cast_unsigned().wrapping_sub(address);
    Rela {
        r_type,
        addend: addend.cast_signed(),
        ..*relocation
    }
}

fn set_bases(bases: &Bases<'_>, relocations: &mut [u8], section: &mut [u8])
    requires { by_bases spec.ArePlaced bases.now relocations.old section.old }
    ensures relocations { by_bases spec.AreBased bases.now relocations.old relocations.new
        (length relocations.old / 24) }
    ensures section { section.new ≡ by_bases spec.section_based bases.now relocations.old
        section.old (length relocations.old / 24) }
{
    for index in 0..relocations_len(relocations) {
        let relocation = relocation_in(relocations, index);
        let based = set_base(bases, section, &relocation);
        set_relocation(relocations, index, &based);
    }
}

/// Writes the base of each low part that `rewrite_global_pointer` left without one, once all
/// addresses are final and nothing else of the section will be deleted, and before its values are
/// written: x0 where 12 bits hold S + A, and else x3. The relocation gets the type `R_RISCV_LO12_I`
/// or `R_RISCV_LO12_S`, and an addend that is less by what the base has, so that its value is the
/// distance from the base. Other relocations and other bytes stay.
///
/// # Errors
///
/// The section and its relocations are as before. The index of the first relocation whose S + A is
/// near neither `gp` nor 0, whose symbol isn't in the table, or whose instruction isn't in the
/// section.
pub fn finish_gp_relaxation(
    addresses: &Addresses,
    values: &[Symbol],
    gp: u64,
    relocations: &mut [u8],
    section: &mut [u8],
) -> Result<(), usize>
    ensures relocations { OnOk result (spec.AreBased addresses.now values.now gp relocations.old
        relocations.new (length relocations.old / 24)) }
    ensures section { OnOk result (section.new ≡ spec.section_based addresses.now values.now gp
        relocations.old section.old (length relocations.old / 24)) }
    ensures placed { OnOk result
        (spec.ArePlaced addresses.now values.now gp relocations.old section.old) }
    ensures first { IfErr result
        (spec.IsFirstUnplaced addresses.now values.now gp relocations.old section.old) }
    ensures bytes { OnErr result (section.new ≡ section.old) }
    ensures entries { OnErr result (relocations.new ≡ relocations.old) }
{
    let bases = Bases {
        addresses,
        values,
        gp,
    };
    if let Some(index) = first_unplaced(&bases, relocations, section) {
        return Err(index);
    }
    set_bases(&bases, relocations, section);
    Ok(())
}
