//! What choices of rewrites read of symbols, kept until values are written.

ghost use Rattle.std.specs.Prelude.{◌≡◌, ◌≢◌, length};
ghost use Rattle.linker_rewriting.specs.Kept.{AreKept};
ghost use Rattle.linker_utils_c.specs.Kept.{IsRewrittenReturned};
ghost use Rattle.linker_utils_c.specs.Status.{code, OfMachine};

use crate::sections::status_of_error;
use crate::status::{Status, at_fault, or_return};
use linker_rewriting::facts::{OutputFacts, RelaxContext, SymbolFacts};
use linker_rewriting::kept::{
    FactsSnapshot, WritingError, relocate_rewritten_section, snapshot_facts,
};
use linker_rewriting::phases::Phase;
use linker_section::facts::{Addresses, Symbol};
use linker_section::sections::memory_len;
use linker_utils::elf::Architecture;

/// Keeps what choices of rewrites read of an object's symbols and of the output, as
/// `snapshot_facts` of `linker_rewriting`. The error is `DifferentLengths`.
#[unsafe(no_mangle)]
pub extern "C" fn linker_utils_snapshot_facts_nonnull(
    output: &OutputFacts,
    symbols: &[SymbolFacts],
    kept: &mut [FactsSnapshot],
) -> u32
    ensures kept { length kept.old ≡ length symbols.now
        → (result ≡ code Status.Success) × AreKept output.now symbols.now kept.new }
    ensures different_lengths { length kept.old ≢ length symbols.now
        → (result ≡ code Status.DifferentLengths) × (kept.new ≡ kept.old) }
{
    if kept.len() != symbols.len() {
        return Status::DifferentLengths as u32;
    }
    snapshot_facts(output, symbols, kept);
    Status::Success as u32
}

/// Writes the values of a section whose instructions were rewritten, as
/// `relocate_rewritten_section` of `linker_rewriting`, or none of them. The first that applies of
/// `UnknownArchitecture`; `ShortMemory`, where `memory` has fewer elements than
/// `linker_utils_relocate_memory`; `FactsContradict`, with the symbol at `faulty`; `FactsChanged`,
/// with the first such relocation at `faulty`; `NeedsStub`, likewise; and why the relocation at
/// `faulty` can't be written.
#[unsafe(no_mangle)]
pub extern "C" fn linker_utils_relocate_rewritten_section_nonnull(
    machine: u16,
    output: &OutputFacts,
    facts: &[SymbolFacts],
    kept: &[FactsSnapshot],
    addresses: &Addresses,
    relocations: &[u8],
    symbols: &[Symbol],
    section: &mut [u8],
    memory: &mut [u64],
    faulty: &mut usize,
) -> u32
    ensures { OfMachine machine ((section.new ≡ section.old) × (faulty.new ≡ faulty.old)) result
        (λ architecture.
        IsRewrittenReturned architecture output.now facts.now kept.now addresses.now relocations.now
        symbols.now section.old section.new memory.old faulty.old faulty.new result) }
{
    let architecture = or_return!(Architecture::from_machine(machine), UnknownArchitecture);
    if memory.len() < memory_len(relocations) {
        return Status::ShortMemory as u32;
    }
    let context = RelaxContext {
        architecture,
        phase: Phase::PreLayout,
        output,
        symbols: facts,
        addresses,
        values: symbols,
    };
    match relocate_rewritten_section(&context, kept, relocations, section, memory) {
        Ok(()) => Status::Success as u32,
        Err(WritingError::Contradiction(symbol)) => at_fault(
            Status::FactsContradict as u32,
            symbol,
            faulty,
        ),
        Err(WritingError::Changed(index)) => at_fault(Status::FactsChanged as u32, index, faulty),
        Err(WritingError::NeedsStub(index)) => at_fault(Status::NeedsStub as u32, index, faulty),
        Err(WritingError::Section(error)) => at_fault(
            status_of_error(error.error),
            error.index,
            faulty,
        ),
    }
}
