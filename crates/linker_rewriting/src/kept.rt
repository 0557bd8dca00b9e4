//! What choices of rewrites read of symbols, kept until values are written: then the same has to
//! hold.

ghost use Rattle.std.specs.Prelude.{◌≡◌, ◌≤◌, ◌<◌, ◌*◌, ◌/◌, ◌^◌, ◌↔◌, length, IsTrue, IfErr};
ghost use Rattle.std.specs.Prelude.{IfSome, IfNone, OnOk, MatchOption};
ghost use Rattle.linker_rewriting.specs.Agreement.{Agree, of_tables};
ghost use Rattle.linker_rewriting.specs.Kept as spec;
ghost use Rattle.linker_section.specs.Sections.{AreAllRelocated};
ghost use Rattle.linker_section.specs.Relocations.{relocation_in};
ghost use Rattle.linker_section.specs.WrittenFields.{AreWritten};

use crate::facts::{OutputFacts, RelaxContext, SymbolFacts, contradiction};
use crate::relocations::relocation_in;
use linker_section::facts::{Addresses, Symbol};
use linker_section::relocations::{Rela, relocations_len};
use linker_section::sections::{SectionError, relocate_section};
use linker_utils::elf::Architecture;
use linker_utils::ppc64::Ppc64Relocation;

/// What choices read of a symbol and of the output, a bit for each fact; 0 where nothing is kept. A
/// table of these has those of an object at the indexes that its relocations name (`r_sym`).
#[repr(C)]
#[derive(Default, Clone, Copy)]
pub struct FactsSnapshot {
    /// The bits, as `kept_bits` says.
    pub bits: u16,
}

/// Why the values of a section whose instructions were rewritten aren't written.
#[derive(Clone, Copy)]
pub enum WritingError {
    /// The tables of facts and of addresses contradict each other about the symbol with this index,
    /// as `RewritingError::Contradiction` says.
    Contradiction(usize),
    /// Of the symbol of the relocation with this index other facts hold than those that are kept,
    /// or none are kept.
    Changed(usize),
    /// The relocation with this index is an `R_PPC64_REL24` of a function of another file, which
    /// may return with another TOC pointer, and whose symbol has no stub that keeps the caller's.
    NeedsStub(usize),
    /// A value isn't written, as `relocate_section` says.
    Section(SectionError),
}

#[inline(always)]
fn bit_if(worth: u16, is_set: bool) -> u16
    ensures bit { result ≡ spec.bit_if worth is_set }
    ensures most { result ≤ worth }
{
    if is_set { worth } else { 0 }
}

/// The bits of `st_other` that say what a call does with PowerPC64's TOC pointer.
#[inline(always)]
fn toc_bits(other: u8) -> u16
    ensures bits { result ≡ other / 32 * 32 }
    ensures most { result < 2 ^ 8 }
{
    u16::from(other / 32) * 32
}

#[inline(always)]
fn facts_snapshot(output: &OutputFacts, symbol: &SymbolFacts) -> FactsSnapshot
    ensures { result ≡ spec.facts_snapshot output.now symbol.now }
{
    let of_output = bit_if(1 << 10, output.has_near_symbols)
        + bit_if(1 << 9, output.is_fixed)
        + bit_if(1 << 8, output.is_executable);
    let toc = toc_bits(symbol.other);
    let of_symbol = bit_if(16, symbol.is_tls_get_addr)
        + bit_if(8, symbol.is_undefined_weak)
        + bit_if(4, symbol.is_absolute)
        + bit_if(2, symbol.is_ifunc)
        + bit_if(1, symbol.is_local);
    FactsSnapshot {
        bits: (1 << 15) + of_output + toc + of_symbol,
    }
}

/// Keeps what choices read of an object's symbols and of the output. A linker calls this when it
/// chooses rewrites, with the facts that it passes to `survey` and `rewrite_section`, and passes
/// what is kept to `relocate_rewritten_section`.
pub fn snapshot_facts(output: &OutputFacts, symbols: &[SymbolFacts], kept: &mut [FactsSnapshot])
    requires room { length symbols.now ≡ length kept.old }
    ensures { spec.AreKept output.now symbols.now kept.new }
{
    for index in 0..symbols.len() {
        kept[index] = facts_snapshot(output, &symbols[index]);
    }
}

/// Whether what is kept of a relocation's symbol is what holds now.
fn is_as_kept(
    output: &OutputFacts,
    symbols: &[SymbolFacts],
    kept: &[FactsSnapshot],
    relocation: &Rela,
) -> bool
    ensures { IsTrue result ↔ spec.IsAsKept output.now symbols.now kept.now relocation.now }
{
    let index = relocation.symbol as usize;
    match (kept.get(index), symbols.get(index)) {
        (Some(before), Some(symbol)) => before.bits == facts_snapshot(output, symbol).bits,
        (None, None) => true,
        _ => false,
    }
}

/// The index of the first relocation of whose symbol other facts hold than those that are kept;
/// none where all are the same. A relocation that a rewrite took along counts too: the facts of its
/// symbol were read.
pub fn first_changed(
    output: &OutputFacts,
    symbols: &[SymbolFacts],
    kept: &[FactsSnapshot],
    relocations: &[u8],
) -> Option<usize>
    ensures some { IfSome result (spec.IsFirstChanged output.now symbols.now kept.now
        relocations.now) }
    ensures none { IfNone result (spec.AreAsKept output.now symbols.now kept.now relocations.now
        (length relocations.now / 24)) }
{
    for index in 0..relocations_len(relocations) {
        if !is_as_kept(output, symbols, kept, &relocation_in(relocations, index)) {
            return Some(index);
        }
    }
    None
}

/// Whether a relocation is a call of PowerPC64 of a function of another file, without a stub that
/// keeps its caller's TOC pointer. A call of what is undefined and weak needs none.
fn lacks_stub(context: &RelaxContext<'_>, relocation: &Rela) -> bool
    ensures { result ≡ spec.lacks_stub context.now.architecture context.now.symbols.now
        context.now.values.now relocation.now }
{
    let call = Ppc64Relocation::R_PPC64_REL24.r_type();
    if !matches!(context.architecture, Architecture::Ppc64) || relocation.r_type != call {
        return false;
    }
    let index = relocation.symbol as usize;
    match (context.symbols.get(index), context.values.get(index)) {
        (Some(facts), Some(symbol)) => {
            let is_imported = !(facts.is_local || facts.is_undefined_weak);
            is_imported && symbol.stub == 0 && !symbol.is_undefined_weak
        }
        _ => false,
    }
}

/// The index of the first such relocation.
fn first_without_stub(context: &RelaxContext<'_>, relocations: &[u8]) -> Option<usize>
    ensures { MatchOption result (spec.HaveStubs context.now.architecture context.now.symbols.now
        context.now.values.now relocations.now (length relocations.now / 24))
        (spec.IsFirstWithoutStub context.now.architecture context.now.symbols.now
        context.now.values.now relocations.now) }
{
    for index in 0..relocations_len(relocations) {
        if lacks_stub(context, &relocation_in(relocations, index)) {
            return Some(index);
        }
    }
    None
}

/// Writes the values of a section whose instructions were rewritten, as `relocate_section` does,
/// where choices would still read the same facts: those of `context` hold now, and `kept` are those
/// of `snapshot_facts` when rewrites were chosen. So a symbol that was bound then and isn't any
/// more doesn't get code that bypasses its GOT entry. A relocation that needs an entry which the
/// linker hasn't made is an error of `relocate_section` (`NoEntry`). `memory` is that call's, and
/// the phase isn't read.
///
/// # Errors
///
/// The section is as before. The first of the list that applies, with the first such index.
///
/// ```
/// use linker_rewriting::facts::{OutputFacts, RelaxContext, SymbolFacts};
/// use linker_rewriting::kept::{FactsSnapshot, WritingError};
/// use linker_rewriting::kept::{relocate_rewritten_section, snapshot_facts};
/// use linker_rewriting::phases::Phase;
/// use linker_section::facts::{Addresses, Symbol};
/// use linker_utils::elf::Architecture;
///
/// // addr32 call f, with R_X86_64_PC32 of symbol 1 at 2, which was call *f@GOTPCREL(%rip)
/// let mut section = [0x67, 0xe8, 0, 0, 0, 0];
/// let mut relocations = [0; 24];
/// (relocations[0], relocations[8], relocations[12]) = (2, 2, 1);
/// relocations[16..].copy_from_slice(&(-4i64).to_le_bytes());
/// let output = OutputFacts { is_executable: true, is_fixed: false, has_near_symbols: true };
/// let mut facts = [
///     SymbolFacts::default(),
///     SymbolFacts { is_local: true, ..SymbolFacts::default() },
/// ];
/// let mut kept = [FactsSnapshot::default(); 2];
/// snapshot_facts(&output, &facts, &mut kept);
/// // another definition replaces f
/// facts[1].is_local = false;
/// let context = RelaxContext {
///     architecture: Architecture::X86_64,
///     phase: Phase::PreLayout,
///     output: &output,
///     symbols: &facts,
///     addresses: &Addresses { section: 0x1000, ..Addresses::default() },
///     values: &[0, 0x2000].map(|address| Symbol { address, ..Symbol::default() }),
/// };
/// let written =
///     relocate_rewritten_section(&context, &kept, &relocations, &mut section, &mut [0; 1]);
/// assert_eq!(written, Err(WritingError::Changed(0)));
/// assert_eq!(section, [0x67, 0xe8, 0, 0, 0, 0]);
/// ```
pub fn relocate_rewritten_section(
    context: &RelaxContext<'_>,
    kept: &[FactsSnapshot],
    relocations: &[u8],
    section: &mut [u8],
    memory: &mut [u64],
) -> Result<(), WritingError>
    requires memory { length relocations.now / 24 ≤ length memory.old }
    ensures agree { OnOk result (of_tables Agree context.now relocations.now) }
    ensures stubs { OnOk result (spec.HaveStubs context.now.architecture context.now.symbols.now
        context.now.values.now relocations.now (length relocations.now / 24)) }
    ensures kept { OnOk result (spec.AreAsKept context.now.output.now context.now.symbols.now
        kept.now relocations.now (length relocations.now / 24)) }
    ensures ok { OnOk result (AreAllRelocated context.now.architecture context.now.addresses.now
        relocations.now context.now.values.now section.old section.new) }
    ensures fields { OnOk result (AreWritten context.now.architecture context.now.addresses.now
        relocations.now context.now.values.now section.old section.new) }
    ensures rejected { IfErr result (spec.IsRejectedOrChanged context.now.architecture
        context.now.addresses.now relocations.now context.now.values.now section.old) }
    ensures cause { IfErr result (spec.IsWritingCause context.now.architecture
        context.now.output.now context.now.symbols.now kept.now context.now.addresses.now
        relocations.now context.now.values.now section.old) }
    ensures unchanged { IfErr result (λ _. section.new ≡ section.old) }
{
    let (facts, symbols) = (context.symbols, context.values);
    if let Some(symbol) = contradiction(facts, symbols, relocations) {
        return Err(WritingError::Contradiction(symbol));
    }
    if let Some(index) = first_changed(context.output, facts, kept, relocations) {
        return Err(WritingError::Changed(index));
    }
    if let Some(index) = first_without_stub(context, relocations) {
        return Err(WritingError::NeedsStub(index));
    }
    let (architecture, addresses) = (context.architecture, context.addresses);
    relocate_section(
        architecture,
        addresses,
        relocations,
        symbols,
        section,
        memory,
    )
    .map_err(WritingError::Section)
}
