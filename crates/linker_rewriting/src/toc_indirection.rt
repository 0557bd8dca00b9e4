//! Instructions that load addresses from the words of a section, as from those of PowerPC64's
//! `.toc`. Nothing changes such a word, so that once addresses are known the instructions may
//! compute its address: all that load it, or none. Only PowerPC64 has such words: of other
//! architectures nothing is noted or rewritten.
//!
//! A context's phase is `ShortPcRel`, as in the calls from C. `TlsLocalExec` and `GotToPcRel` do
//! the same. In `PreLayout` no load is tested to be in reach, and `has_near_symbols` of the output
//! decides in its place.

ghost use Rattle.std.specs.Prelude.{◌≡◌, ◌⊎◌, ◌↔◌, ◌+◌, ◌<◌, ◌≤◌, ◌/◌, ℕ, length};
ghost use Rattle.std.specs.Prelude.{IfSome, IfErr, OnOk, OnErr, true, ⊤};
ghost use Rattle.linker_rewriting.specs.Numbers.{decisions_in, IsWrittenDecision};
ghost use Rattle.linker_rewriting.specs.Agreement.{Agree, IsContradiction, of_tables};
ghost use Rattle.linker_rewriting.specs.Decisions.{start_by, end_by, EachIs, RestStays};
ghost use Rattle.linker_rewriting.specs.Facts.{context_of};
ghost use Rattle.linker_rewriting.specs.Inner.Passed.{CanBeRewritten, IsThatWord, at_site};
ghost use Rattle.linker_rewriting.specs.Inner.Passed.{with_r_type};
ghost use Rattle.linker_rewriting.specs.TocIndirection as spec;
ghost use Rattle.linker_section.specs.Relocations.{relocation_in};

use crate::candidates::{Chosen, candidate_by};
use crate::decisions::{Decision, DecisionNumbers, RewritingError, span_of, subject_of};
use crate::facts::{OutputFacts, RelaxContext, SymbolFacts, address_in, contradiction, link_facts};
use crate::phases::Phase;
use crate::relocations::{Site, relocation_in, site};
use crate::riscv_pcrel_groups::high_at;
use crate::rules::{Rule, decide_by};
use crate::sections::make_all;
use linker_section::facts::{Addresses, Symbol};
use linker_section::relocations::{Rela, relocations_len};
use linker_utils::architecture::Relaxation;
use linker_utils::elf::{Architecture, Choice};
use linker_utils::ppc64::Ppc64Relocation;

/// The `r_type` of a relocation for an entry of the GOT in place of one for a word.
#[inline(always)]
fn entry_r_type(architecture: Architecture, r_type: u32) -> Option<u32>
    ensures { result ≡ spec.entry_r_type architecture r_type }
{
    match architecture {
        Architecture::Ppc64 => {
            if Ppc64Relocation::R_PPC64_TOC16_HA.r_type() == r_type {
                Some(Ppc64Relocation::R_PPC64_GOT16_HA.r_type())
            } else if Ppc64Relocation::R_PPC64_TOC16_LO.r_type() == r_type {
                Some(Ppc64Relocation::R_PPC64_GOT16_LO.r_type())
            } else if Ppc64Relocation::R_PPC64_TOC16_LO_DS.r_type() == r_type {
                Some(Ppc64Relocation::R_PPC64_GOT16_LO_DS.r_type())
            } else {
                None
            }
        }
        _ => None,
    }
}

/// How far what a relocation refers to is after the start of the section of words.
#[inline(always)]
fn word_offset(context: &RelaxContext<'_>, start: u64, relocation: &Rela) -> Option<u64>
    ensures { result ≡ spec.word_offset context.now.addresses.now context.now.values.now start
        relocation.now }
{
    let value = context.values.get(relocation.symbol as usize)?;
    let addend = relocation.addend.cast_unsigned();
    let address = address_in(context.addresses, value).wrapping_add(addend);
    Some(address.wrapping_sub(start))
}

/// The words of an object's section of addresses, and what loads of them are chosen by. As a rule
/// all loads of a word are rewritten, or none is.
#[derive(Clone, Copy)]
struct Words<'a> {
    context: &'a RelaxContext<'a>,
    /// The address of their section.
    start: u64,
    relocations: &'a [u8],
    /// Which of them stay.
    kept: &'a [bool],
}

/// What a relocation loads: the `r_type` for an entry of the GOT, and the index of the word's
/// relocation.
fn load_of(words: &Words<'_>, relocation: &Rela) -> Option<(u32, usize)>
    ensures within { IfSome result (λ load. load.1 < length words.now.relocations.now / 24) }
    ensures load { spec.IsLoad (context_of words.now.context.now) words.now.start
        words.now.relocations.now relocation.now result }
{
    let context = words.context;
    let entry = entry_r_type(context.architecture, relocation.r_type)?;
    let at = word_offset(context, words.start, relocation)?;
    let r_type = Ppc64Relocation::R_PPC64_ADDR64.r_type();
    let word = high_at(words.relocations, r_type, at)?;
    Some((entry, word))
}

#[inline(always)]
fn with_r_type(r_type: u32, relocation: &Rela) -> Rela
    ensures { result ≡ with_r_type r_type relocation.now }
{
    Rela {
        r_type,
        ..*relocation
    }
}

/// The rewrite of a load, if each other one of the word is rewritten.
#[inline(always)]
fn load_candidate(words: &Words<'_>, site: &Site<'_>, load: (u32, usize)) -> Option<Chosen>
    requires index { site.now.index + 3 ≤ usize.MAX }
    requires within { load.1 < length words.now.relocations.now / 24 }
    ensures candidate { at_site (λ s. spec.IsLoadCandidate s words.now.relocations.now)
        words.now.context.now site.now load result }
    ensures there { CanBeRewritten site.now result }
{
    let (entry, word) = load;
    let word = relocation_in(words.relocations, word);
    let facts = link_facts(words.context, &site.relocation, &word, false);
    let site = Site {
        relocation: with_r_type(entry, &site.relocation),
        ..*site
    };
    candidate_by(words.context, &site, &facts)
}

#[inline(always)]
pub(crate) fn word_stays(kept: &[bool], word: usize) -> bool
    ensures { result ≡ spec.word_stays kept.now word }
{
    match kept.get(word) {
        Some(stays) => *stays,
        None => true,
    }
}

#[inline(always)]
pub(crate) fn keep_word(kept: &mut [bool], word: Option<usize>)
    ensures { (w : ℕ) → (spec.word_stays kept.new w ≡ true)
        ↔ ((spec.word_stays kept.old w ≡ true) ⊎ IsThatWord word w) }
{
    if let Some(word) = word {
        if word < kept.len() {
            kept[word] = true;
        }
    }
}

/// The word that a relocation keeps, since it loads it and has no rewrite.
#[inline(always)]
fn keeping_word(words: &Words<'_>, site: &Site<'_>) -> Option<usize>
    requires { site.now.index + 3 ≤ usize.MAX }
    ensures { at_site (λ s. spec.IsKeepingWord s words.now.start words.now.relocations.now)
        words.now.context.now site.now result }
{
    let load = load_of(words, &site.relocation)?;
    match load_candidate(words, site, load) {
        Some(_) => None,
        None => Some(load.1),
    }
}

/// Notes which words of an object's section of addresses stay, since a relocation of this section
/// of code is of an instruction that loads one and can't compute its address: it is none that the
/// rewrite is meant for, the address may be of another file or in another place each time, or it is
/// out of reach. As with `survey` there is one table, for the section of addresses, all of whose
/// elements are false at first. A word without an element stays.
///
/// `words` are the relocations of the section of addresses, as `linker_output`'s description names
/// it, and have to ascend by offset; `kept` has an element for each. `words_start` is its address.
/// A relocation is of a word where it refers to its address, whichever its symbol.
///
/// # Errors
///
/// `kept` is as before. The index of the first symbol that is a `RewritingError::Contradiction`.
/// Those of words are compared by the call that writes the words' values by both tables.
pub fn survey_toc_loads(
    context: &RelaxContext<'_>,
    words_start: u64,
    words: &[u8],
    relocations: &[u8],
    section: &[u8],
    kept: &mut [bool],
) -> Result<(), usize>
    ensures surveyed { OnOk result (spec.AreLoadsSurveyed (context_of context.now) words_start
        words.now relocations.now section.now kept.old kept.new (length relocations.now / 24)) }
    ensures agree { OnOk result (of_tables Agree context.now relocations.now) }
    ensures contradiction { IfErr result (of_tables IsContradiction context.now relocations.now) }
    ensures unchanged { OnErr result (kept.new ≡ kept.old) }
{
    if let Some(symbol) = contradiction(context.symbols, context.values, relocations) {
        return Err(symbol);
    }
    let words = Words {
        context,
        start: words_start,
        relocations: words,
        kept: &[],
    };
    for index in 0..relocations_len(relocations) {
        let site = site!(relocations, section, index);
        keep_word(kept, keeping_word(&words, &site));
    }
    Ok(())
}

impl Rule for Words<'_> {
    ghost decides = { λ s bytes section n taken. spec.IsLoadDecision (context_of s.context.now)
        s.start s.relocations.now s.kept.now bytes section n };

    ghost lacks = { λ s. spec.IsLoadNotSurveyed (context_of s.context.now) s.start
        s.relocations.now s.kept.now };

    ghost is_valid = { λ s bytes. ⊤ };

    ghost is_noted = { λ s bytes section n stays. ⊤ };

    ghost start = { start_by };

    ghost end = { end_by };

    #[inline(always)]
    fn decide(&self, _is_taken: bool, _stays: bool, site: &Site<'_>) -> Option<Decision> {
        let Some(load) = load_of(self, &site.relocation) else {
            return Some(Decision::Kept);
        };
        if word_stays(self.kept, load.1) {
            return Some(Decision::Kept);
        }
        let chosen = load_candidate(self, site, load)?;
        let subject = subject_of(&relocation_in(self.relocations, load.1));
        Some(Decision::RewrittenWithSymbol(chosen, subject))
    }

    #[inline(always)]
    fn span(&self, decision: &Decision, offset: u64) -> (u64, u64) {
        span_of(decision, offset)
    }
}

/// Has the instructions of a section of code compute the addresses that they load from the words of
/// an object's section of addresses, and turns their relocations into those after it, once
/// addresses are known. They are then of the symbol and the addend of the word's relocation
/// (`Decision::RewrittenWithSymbol`). All loads of a word are rewritten, or none is where the word
/// stays by `kept`, which `survey_toc_loads` made of all sections of code of the object with the
/// same context and `words`. It decides by all of the section's bytes before it rewrites one.
/// Nothing is deleted, and `decisions` are as `rewrite_section` has them.
///
/// # Errors
///
/// The section and its relocations are as before. `Contradiction` comes first.
///
/// ```
/// use linker_rewriting::decisions::{Decision, DecisionNumbers};
/// use linker_rewriting::facts::{OutputFacts, RelaxContext, SymbolFacts};
/// use linker_rewriting::phases::Phase;
/// use linker_rewriting::toc_indirection::rewrite_toc_loads;
/// use linker_section::facts::{Addresses, Symbol};
/// use linker_utils::elf::Architecture;
///
/// // addis 3,2,.toc@toc@ha and ld 3,.toc@toc@l(3), where the word at the start of `.toc` is that
/// // of symbol 2, become addis 3,2,x@toc@ha and addi 3,3,x@toc@l
/// let relocation = |offset: u8, r_type: u8, symbol: u8| {
///     let mut bytes = [0; 24];
///     (bytes[0], bytes[8], bytes[12]) = (offset, r_type, symbol);
///     bytes
/// };
/// let mut section = [0, 0, 0x62, 0x3c, 0, 0, 0x63, 0xe8];
/// let mut relocations = [relocation(0, 50, 1), relocation(4, 64, 1)].concat();
/// let context = RelaxContext {
///     architecture: Architecture::Ppc64,
///     phase: Phase::ShortPcRel,
///     output: &OutputFacts { is_executable: true, is_fixed: true, has_near_symbols: true },
///     symbols: &[SymbolFacts { is_local: true, ..SymbolFacts::default() }; 3],
///     addresses: &Addresses { section: 0x1000, got_base: 0x1_8000, ..Addresses::default() },
///     values: &[0, 0x1_0000, 0x1_2345].map(|address| Symbol { address, ..Symbol::default() }),
/// };
/// rewrite_toc_loads(
///     &context,
///     0x1_0000,
///     &relocation(0, 38, 2),
///     &[false],
///     &mut relocations,
///     &mut section,
///     &mut [DecisionNumbers::from_decision(Decision::Kept); 2],
/// )
/// .unwrap();
/// assert_eq!(section, [0, 0, 0x62, 0x3c, 0, 0, 0x63, 0x38]);
/// // R_PPC64_TOC16_HA and R_PPC64_TOC16_LO, both of symbol 2
/// assert_eq!((relocations[8], relocations[12]), (50, 2));
/// assert_eq!((relocations[32], relocations[36]), (48, 2));
/// ```
pub fn rewrite_toc_loads(
    context: &RelaxContext<'_>,
    words_start: u64,
    words: &[u8],
    kept: &[bool],
    relocations: &mut [u8],
    section: &mut [u8],
    decisions: &mut [DecisionNumbers],
) -> Result<(), RewritingError>
    ensures agree { OnOk result (of_tables Agree context.now relocations.old) }
    ensures rewritten { OnOk result (spec.AreLoadsRewrittenAs (context_of context.now) words_start
        words.now kept.now relocations.old relocations.new section.old section.new
        (decisions_in decisions.new)) }
    ensures form { OnOk result (EachIs IsWrittenDecision relocations.old decisions.new) }
    ensures others_stay { RestStays relocations.old decisions.old decisions.new }
    ensures rejected { IfErr result (spec.AreLoadsRejectedFirst (context_of context.now) words_start
        words.now kept.now relocations.old section.old (decisions_in decisions.new)) }
    ensures surveyed { IfErr result (spec.MeansWordsUnsurveyed (context_of context.now) words_start
        words.now relocations.old section.old kept.now) }
    ensures section { OnErr result (section.new ≡ section.old) }
    ensures entries { OnErr result (relocations.new ≡ relocations.old) }
{
    if let Some(symbol) = contradiction(context.symbols, context.values, relocations) {
        return Err(RewritingError::Contradiction(symbol));
    }
    if decisions.len() < relocations_len(relocations) {
        return Err(RewritingError::TooShort);
    }
    let words = Words {
        context,
        start: words_start,
        relocations: words,
        kept,
    };
    decide_by(
        &words,
        context.architecture,
        relocations,
        section,
        decisions,
    )?;
    make_all(true, decisions, relocations, section);
    Ok(())
}
