//! What a relocation requires of a linker before addresses are known.

ghost use Rattle.std.specs.Prelude.{◌≡◌, Option};
ghost use Rattle.linker_elf.specs.declared.elf.RowInfo.{RowInfo};
ghost use Rattle.linker_section.specs.Inner.Facts.{class_by, entry_by, requirements_by};
ghost use Rattle.linker_section.specs.Needed.{needs_in};
ghost use Rattle.linker_elf.specs.Architectures.{IsRow};

use linker_elf::elf::{Architecture, EntryUse, RowFacts};

/// What an entry of the GOT holds.
#[derive(Clone, Copy)]
pub enum EntryClass {
    /// A word: the address S, or S + A.
    Address,
    /// A word: the offset from the thread pointer, of initial-exec TLS.
    ThreadOffset,
    /// Two words: the module's number and the offset in its TLS block, of general-dynamic TLS.
    ModuleOffset,
    /// Two words: the module's number and 0, of local-dynamic TLS. One serves the whole output.
    Module,
    /// Two words: a TLS descriptor.
    Descriptor,
}

/// An entry of the GOT that a relocation requires.
#[derive(Clone, Copy)]
pub struct Entry {
    /// What it holds.
    pub class: EntryClass,
    /// The addend of its address or offset: it is of S + `addend`. Other than 0 only for AArch64
    /// and PowerPC64, whose psABIs have an entry for each S + A. 0 of a module's entry.
    pub addend: i64,
}

/// What a relocation requires.
#[derive(Clone, Copy)]
pub struct Requirements {
    /// The entry of the GOT whose address its value depends on. Of PowerPC64's calls that load the
    /// function's address themselves, as `R_PPC64_PLT16_LO_DS`, it is a word with that address.
    pub entry: Option<Entry>,
    /// Whether its value goes into a branch, conditional or not.
    pub is_branch: bool,
    /// Whether a stub or an entry of the PLT may serve as its target: it is that of a branch, or
    /// its formula has L. False of PowerPC64's calls that load the function's address themselves.
    pub may_use_stub: bool,
    /// Whether a linker makes an entry of the PLT for it only if the output doesn't define the
    /// symbol. Else it goes to the definition, also where another file may replace that, or to the
    /// entry that another relocation made. It is one of the branches with a short reach of AArch64
    /// (`R_AARCH64_CONDBR19`, `R_AARCH64_TSTBR14`) and RISC-V (`R_RISCV_BRANCH`, `R_RISCV_JAL`,
    /// `R_RISCV_RVC_BRANCH`, `R_RISCV_RVC_JUMP`).
    pub stub_only_if_undefined: bool,
    /// Whether it is a word of 8 bytes with S + A, which a dynamic linker can write too.
    pub is_word: bool,
    /// Whether what is written depends on where the output is loaded, if that is a multiple of
    /// 4 KiB beside where it was linked for. Of both halves of a difference of symbols, as
    /// `R_RISCV_ADD32` and `R_RISCV_SUB32`, it doesn't.
    pub depends_on_load: bool,
}

/// The class of the entry that a formula has.
#[inline(always)]
fn class_by(entry: EntryUse, is_thread_local: bool) -> Option<EntryClass>
    ensures { result ≡ class_by is_thread_local entry }
{
    let entry = match entry {
        EntryUse::LowHalf if is_thread_local => EntryUse::ModuleOffset,
        _ => entry,
    };
    // LLVM makes a table of constants alone
    match entry {
        EntryUse::Without => None,
        EntryUse::Address | EntryUse::LowHalf => Some(EntryClass::Address),
        EntryUse::ThreadOffset => Some(EntryClass::ThreadOffset),
        EntryUse::ModuleOffset => Some(EntryClass::ModuleOffset),
        EntryUse::Module => Some(EntryClass::Module),
        EntryUse::Descriptor => Some(EntryClass::Descriptor),
    }
}

/// The entry that a row requires.
#[inline(always)]
pub(crate) fn entry_by(facts: &RowFacts, addend: i64, is_thread_local: bool) -> Option<Entry>
    ensures { result ≡ entry_by facts.now addend (class_by is_thread_local facts.now.entry) }
{
    match class_by(facts.entry, is_thread_local) {
        Some(class) => Some(Entry {
            class,
            addend: if facts.entry_has_addend { addend } else { 0 },
        }),
        None => None,
    }
}

/// What the facts of a row say.
#[inline(always)]
fn requirements_by(facts: &RowFacts, addend: i64, is_thread_local: bool) -> Requirements
    ensures { result ≡ requirements_by facts.now addend is_thread_local }
{
    Requirements {
        entry: entry_by(facts, addend, is_thread_local),
        is_branch: facts.is_branch,
        may_use_stub: facts.may_use_stub,
        stub_only_if_undefined: facts.stub_only_if_undefined,
        is_word: facts.is_word,
        depends_on_load: facts.depends_on_load,
    }
}

/// What a relocation with an `r_type` and an addend requires of a linker, by whether its symbol is
/// thread-local (`STT_TLS`). None of one without a row, which no object's relocation has. Its
/// `entry` is what the value of `Operands::got_entry` is the address of.
///
/// Where a relocation is rewritten, those of the one that it becomes count.
///
/// ```
/// use linker_section::needed::{Entry, EntryClass, needs};
/// use linker_utils::elf::Architecture;
///
/// // R_X86_64_GOTTPOFF
/// let load = needs(Architecture::X86_64, 22, -4, true).unwrap();
/// let entry = Entry { class: EntryClass::ThreadOffset, addend: 0 };
/// assert_eq!(load.entry, Some(entry));
/// // R_AARCH64_CALL26
/// let call = needs(Architecture::AArch64, 283, 0, false).unwrap();
/// assert!(call.is_branch && call.may_use_stub && !call.depends_on_load);
/// ```
#[inline(always)]
pub fn needs(
    architecture: Architecture,
    r_type: u32,
    addend: i64,
    is_thread_local: bool,
) -> Option<Requirements>
    ensures { (row : Option RowInfo) × IsRow architecture r_type row
        × (result ≡ needs_in row addend is_thread_local) }
{
    match architecture.row(r_type) {
        Some(row) => Some(requirements_by(row.facts(), addend, is_thread_local)),
        None => None,
    }
}
