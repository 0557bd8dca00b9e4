//! RISC-V's addresses near the global pointer or 0, without their high part.

ghost use Rattle.std.specs.Prelude.{◌≡◌, ◌/◌, ℕ, length};
ghost use Rattle.linker_rewriting.specs.Agreement.{Agree, IsContradiction};
ghost use Rattle.linker_rewriting.specs.Facts.{context};
ghost use Rattle.linker_rewriting.specs.GlobalPointer.{AreSymbolsSurveyed};
ghost use Rattle.linker_utils_c.specs.GlobalPointer.{ArePartsReturned, AreBasesReturned};
ghost use Rattle.linker_utils_c.specs.Rewriting.{IsSurveyReturned};
ghost use Rattle.linker_utils_c.specs.Status.{OfMachine};

use crate::rewriting::{put_error, survey_status};
use crate::status::{Status, at_fault, or_return};
use linker_rewriting::decisions::{DecisionNumbers, Deletion};
use linker_rewriting::facts::{OutputFacts, RelaxContext, SymbolFacts};
use linker_rewriting::global_pointer::{
    finish_gp_relaxation, rewrite_global_pointer, survey_global_pointer,
};
use linker_rewriting::phases::Phase;
use linker_section::facts::{Addresses, Symbol};
use linker_utils::elf::Architecture;

/// Notes which symbols of an object keep the high part of their address, by one of its sections of
/// code, as `survey_global_pointer` of `linker_rewriting`. `UnknownArchitecture`;
/// `FactsContradict`.
#[unsafe(no_mangle)]
pub extern "C" fn linker_utils_survey_global_pointer_nonnull(
    machine: u16,
    output: &OutputFacts,
    symbols: &[SymbolFacts],
    addresses: &Addresses,
    values: &[Symbol],
    global_pointer: u64,
    relocations: &[u8],
    section: &[u8],
    kept: &mut [bool],
) -> u32
    ensures { OfMachine machine (kept.new ≡ kept.old) result (λ architecture.
        IsSurveyReturned (AreSymbolsSurveyed (context architecture Phase.ShortPcRel output.now
        symbols.now addresses.now values.now) global_pointer relocations.now section.now kept.old
        kept.new (length relocations.now / 24) × Agree symbols.now values.now relocations.now)
        ((symbol : ℕ) × IsContradiction symbols.now values.now relocations.now symbol)
        (kept.new ≡ kept.old) result) }
{
    let architecture = or_return!(Architecture::from_machine(machine), UnknownArchitecture);
    let context = RelaxContext {
        architecture,
        phase: Phase::ShortPcRel,
        output,
        symbols,
        addresses,
        values,
    };
    survey_status(survey_global_pointer(&context, global_pointer, relocations, section, kept))
}

/// Has the high parts of addresses near the global pointer or 0 go, and turns the relocations of a
/// section of code into those without them, as `rewrite_global_pointer` of `linker_rewriting`. What
/// became of each relocation is in `decisions`, and what is to be deleted in the first
/// `deleted_used` elements of `deleted`; the elements after these are unchanged.
///
/// The first that applies of `UnknownArchitecture`; `FactsContradict`, of the symbol at `faulty`;
/// `ShortMemory`, where there are fewer decisions than relocations; `NotSurveyed` or `Overlaps`, of
/// the relocation at `faulty`; and `ShortMemory`, where there are fewer elements of `deleted` than
/// deletions. Then the relocations and `deleted_used` are unchanged.
#[unsafe(no_mangle)]
pub extern "C" fn linker_utils_rewrite_global_pointer_nonnull(
    machine: u16,
    output: &OutputFacts,
    symbols: &[SymbolFacts],
    addresses: &Addresses,
    values: &[Symbol],
    global_pointer: u64,
    kept: &[bool],
    relocations: &mut [u8],
    section: &[u8],
    decisions: &mut [DecisionNumbers],
    deleted: &mut [Deletion],
    deleted_used: &mut usize,
    faulty: &mut usize,
) -> u32
    ensures { OfMachine machine ((relocations.new ≡ relocations.old)
        × (decisions.new ≡ decisions.old) × (deleted.new ≡ deleted.old)
        × (deleted_used.new ≡ deleted_used.old) × (faulty.new ≡ faulty.old)) result (λ architecture.
        ArePartsReturned (context architecture Phase.ShortPcRel output.now symbols.now addresses.now
        values.now) global_pointer kept.now relocations.old relocations.new section.now
        decisions.old decisions.new deleted.old deleted.new deleted_used.old deleted_used.new
        faulty.old faulty.new result) }
{
    let architecture = or_return!(Architecture::from_machine(machine), UnknownArchitecture);
    let context = RelaxContext {
        architecture,
        phase: Phase::ShortPcRel,
        output,
        symbols,
        addresses,
        values,
    };
    match rewrite_global_pointer(
        &context,
        global_pointer,
        kept,
        relocations,
        section,
        decisions,
        deleted,
    ) {
        Ok(len) => {
            *deleted_used = len;
            Status::Success as u32
        }
        Err(error) => put_error(error, faulty),
    }
}

/// Writes the base of each low part of a section that has none, as `finish_gp_relaxation` of
/// `linker_rewriting`.
///
/// `OutOfReach`, where no base reaches what the relocation at `faulty` refers to, its symbol isn't
/// in the table, or its instruction isn't in the section. Then the section and its relocations are
/// unchanged.
#[unsafe(no_mangle)]
pub extern "C" fn linker_utils_finish_gp_relaxation_nonnull(
    addresses: &Addresses,
    values: &[Symbol],
    global_pointer: u64,
    relocations: &mut [u8],
    section: &mut [u8],
    faulty: &mut usize,
) -> u32
    ensures { AreBasesReturned addresses.now values.now global_pointer relocations.old
        relocations.new section.old section.new faulty.old faulty.new result }
{
    match finish_gp_relaxation(addresses, values, global_pointer, relocations, section) {
        Ok(()) => Status::Success as u32,
        Err(index) => at_fault(Status::OutOfReach as u32, index, faulty),
    }
}
