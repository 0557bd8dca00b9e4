//! Which groups of an object stay as they are, since one of their instructions can't be rewritten.

ghost use Rattle.std.specs.Prelude.{◌≡◌, ◌+◌, ◌<◌, ◌≤◌, ◌/◌, length, slice_get, OnOk, IfErr};
ghost use Rattle.std.specs.Prelude.{OnErr};
ghost use Rattle.linker_section.specs.Relocations.{relocation_in};
ghost use Rattle.linker_rewriting.specs.Agreement.{Agree, IsContradiction, of_tables};
ghost use Rattle.linker_rewriting.specs.Facts.{context_of};
ghost use Rattle.linker_rewriting.specs.Inner.RelocationTypes.{IsNextKeeping};
ghost use Rattle.linker_rewriting.specs.Inner.Passed.{at_site};
ghost use Rattle.linker_rewriting.specs.Surveys as spec;

use crate::candidates::{candidate, is_matched, is_tls_get_addr};
use crate::facts::{OutputFacts, RelaxContext, SymbolFacts, contradiction, pre_layout};
use crate::groups::{Group, Scope, UnrelaxableGroups, scope_in, symbol_of_group};
use crate::phases::Phase;
use crate::r_types::{is_surveyed, of_each};
use crate::relocations::{Site, relocation_in, site};
use linker_section::relocations::{Rela, relocations_len};
use linker_utils::elf::Architecture;
use linker_utils::ppc64::Ppc64Relocation;

#[inline(always)]
fn keep(kept: &mut [UnrelaxableGroups], group: Group, symbol: u32)
    ensures { spec.AreKeptToo kept.old kept.new (spec.IsGroup group symbol) }
{
    let index = symbol as usize;
    if index < kept.len() {
        kept[index] = kept[index].with_kept(group);
    }
}

#[inline(always)]
fn keep_group(kept: &mut [UnrelaxableGroups], group: Option<Group>, symbol: u32)
    ensures { spec.AreKeptToo kept.old kept.new (spec.IsGroupOf group symbol) }
{
    if let Some(group) = group {
        keep(kept, group, symbol_of_group(group, symbol));
    }
}

/// Notes that all groups of thread-local storage in the object stay, if `stay`.
#[inline(always)]
fn keep_threads(kept: &mut [UnrelaxableGroups], stay: bool)
    ensures { spec.AreKeptToo kept.old kept.new (spec.IsOfThreads stay) }
{
    if stay {
        keep(kept, Group::InitialExec, 0);
        keep(kept, Group::GeneralDynamic, 0);
        keep(kept, Group::LocalDynamic, 0);
    }
}

/// The kind of the groups that a relocation keeps, since it has no rewrite, though it is of one.
#[inline(always)]
fn keeping(context: &RelaxContext<'_>, site: &Site<'_>) -> Option<Group>
    requires { site.now.index + 3 ≤ usize.MAX }
    ensures { at_site spec.IsKeeping context.now site.now result }
{
    match scope_in(context.architecture, context.phase, site.relocation.r_type) {
        Scope::Grouped(group) => match candidate(context, site) {
            Some(_) => None,
            None => Some(group),
        },
        Scope::IfGroupMatches(group) => {
            if is_matched(context, site) {
                None
            } else {
                Some(group)
            }
        }
        _ => None,
    }
}

/// Whether the relocation before is a mark of PowerPC64 of the call of `__tls_get_addr` at the same
/// place.
#[inline(always)]
fn is_marked(site: &Site<'_>) -> bool
    requires { site.now.index ≤ length site.now.relocations.now / 24 }
    ensures { result ≡ spec.is_marked site.now.relocations.now site.now.index site.now.relocation }
{
    if site.index < 1 {
        return false;
    }
    let mark = relocation_in(site.relocations, site.index - 1);
    let is_mark = mark.r_type == Ppc64Relocation::R_PPC64_TLSGD.r_type()
        || mark.r_type == Ppc64Relocation::R_PPC64_TLSLD.r_type();
    is_mark && mark.offset == site.relocation.offset
}

/// Whether a relocation is one whose mark a survey looks for: a use of `__tls_get_addr` on
/// PowerPC64.
#[inline(always)]
fn needs_mark(
    architecture: Architecture,
    phase: Phase,
    symbols: &[SymbolFacts],
    relocation: &Rela,
) -> bool
    ensures { result ≡ spec.needs_mark phase architecture
        (slice_get symbols.now relocation.now.symbol) }
{
    match (phase, architecture) {
        (Phase::PreLayout, Architecture::Ppc64) => is_tls_get_addr(symbols, relocation.symbol),
        _ => false,
    }
}

/// Whether a relocation keeps all thread-local storage of its object: it needs a mark, and has
/// none.
#[inline(always)]
fn is_unmarked(context: &RelaxContext<'_>, site: &Site<'_>) -> bool
    requires { site.now.index ≤ length site.now.relocations.now / 24 }
    ensures { result ≡ spec.is_unmarked (context_of context.now) site.now.relocations.now
        site.now.index site.now.relocation }
{
    let (architecture, phase) = (context.architecture, context.phase);
    needs_mark(architecture, phase, context.symbols, &site.relocation) && !is_marked(site)
}

/// The index of the first relocation from an index on that may keep a group, or how many
/// relocations there are.
#[inline(always)]
fn next_in(
    architecture: Architecture,
    phase: Phase,
    context: &RelaxContext<'_>,
    relocations: &[u8],
    from: usize,
) -> usize
    requires architecture { architecture ≡ context.now.architecture }
    requires phase { phase ≡ context.now.phase }
    requires from { from ≤ length relocations.now / 24 }
    ensures { IsNextKeeping context.now relocations.now from result }
{
    let len = relocations_len(relocations);
    for index in from..len {
        let relocation = relocation_in(relocations, index);
        if is_surveyed(architecture, phase, relocation.r_type) {
            return index;
        }
        if needs_mark(architecture, phase, context.symbols, &relocation) {
            return index;
        }
    }
    len
}

/// The same, compiled for each architecture and phase.
fn next_keeping(context: &RelaxContext<'_>, relocations: &[u8], from: usize) -> usize
    requires from { from ≤ length relocations.now / 24 }
    ensures { IsNextKeeping context.now relocations.now from result }
{
    of_each!(
        context.architecture,
        context.phase,
        next_in(context, relocations, from)
    )
}

/// Notes which groups stay in a phase, by a section, as `survey` and `survey_placed_section` say.
#[inline(always)]
fn survey_in(
    context: &RelaxContext<'_>,
    relocations: &[u8],
    section: &[u8],
    kept: &mut [UnrelaxableGroups],
)
    ensures { spec.IsSurveyedIn (context_of context.now) relocations.now section.now kept.old
        kept.new (length relocations.now / 24) }
{
    let len = relocations_len(relocations);
    let mut index = next_keeping(context, relocations, 0);
    while index < len {
        let site = site!(relocations, section, index);
        let group = keeping(context, &site);
        keep_group(kept, group, site.relocation.symbol);
        let unmarked = is_unmarked(context, &site);
        keep_threads(kept, unmarked);
        index = next_keeping(context, relocations, index + 1);
    }
}

/// Notes which groups of an object stay as they are, since a relocation of this section is of them
/// and has no rewrite: its instruction is none that a rewrite is meant for, its symbol may be of
/// another file, or what the rewrite takes along isn't there. `rewrite_section` rewrites all of a
/// group or none by these notes, so survey each section of code of an object before one of them is
/// rewritten, with one table for the object, whose entries are `UnrelaxableGroups::default()` at
/// first. What is noted there already is kept. A group is unrelaxable too where the table has no
/// entry for its symbol.
///
/// An offset in the module's TLS block that stands in data counts from the block, also where code
/// no longer does. Where data of the object has one that is loaded, as `R_X86_64_DTPOFF64`, note
/// `local_dynamic` at index 0.
///
/// ```
/// use linker_rewriting::facts::{OutputFacts, SymbolFacts};
/// use linker_rewriting::groups::UnrelaxableGroups;
/// use linker_rewriting::surveys::survey;
/// use linker_utils::elf::Architecture;
///
/// // nop, with R_X86_64_TLSDESC_CALL of symbol 1: not a call by a descriptor
/// let mut relocations = [0; 24];
/// (relocations[8], relocations[12]) = (35, 1);
/// let output = OutputFacts { is_executable: true, is_fixed: true, has_near_symbols: true };
/// let symbols = [SymbolFacts::default(); 2];
/// let mut kept = [UnrelaxableGroups::default(); 2];
/// survey(Architecture::X86_64, &output, &symbols, &relocations, &[0x90], &mut kept);
/// let none = UnrelaxableGroups::default();
/// assert_eq!(kept, [none, UnrelaxableGroups { descriptor: true, ..none }]);
/// ```
pub fn survey(
    architecture: Architecture,
    output: &OutputFacts,
    symbols: &[SymbolFacts],
    relocations: &[u8],
    section: &[u8],
    kept: &mut [UnrelaxableGroups],
)
    ensures { spec.IsSurveyed architecture output.now symbols.now relocations.now section.now
        kept.old kept.new (length relocations.now / 24) }
{
    let context = pre_layout!(architecture, output, symbols);
    survey_in(&context, relocations, section, kept);
}

/// Notes which groups of an object stay in a phase once addresses are known, by a section, as
/// `survey` does before, for `rewrite_placed_section`: there is one table for the object and the
/// phase. A group stays too where `symbols` or `values` has no entry for its symbol. Relocations of
/// a label of RISC-V aren't surveyed: all of a label are in one section.
///
/// # Errors
///
/// `kept` is as before. The index of the first symbol that is a `RewritingError::Contradiction`.
pub fn survey_placed_section(
    context: &RelaxContext<'_>,
    relocations: &[u8],
    section: &[u8],
    kept: &mut [UnrelaxableGroups],
) -> Result<(), usize>
    ensures surveyed { OnOk result (spec.IsSurveyedIn (context_of context.now) relocations.now
        section.now kept.old kept.new (length relocations.now / 24)) }
    ensures agree { OnOk result (of_tables Agree context.now relocations.now) }
    ensures contradiction { IfErr result (of_tables IsContradiction context.now relocations.now) }
    ensures unchanged { OnErr result (kept.new ≡ kept.old) }
{
    if let Some(symbol) = contradiction(context.symbols, context.values, relocations) {
        return Err(symbol);
    }
    survey_in(context, relocations, section, kept);
    Ok(())
}
