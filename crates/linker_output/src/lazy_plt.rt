//! A lazy PLT: entries through which calls go to functions of other outputs, and a header through
//! which the first call of each goes to the dynamic linker.
//!
//! An entry jumps to the address that its word of `.got.plt` has. Before the dynamic linker has
//! looked up the function, that word leads on to the header, which jumps to the dynamic linker's
//! resolver. Its address is in a word at the begin of `.got.plt`, where the dynamic linker puts it.

ghost use Rattle.std.specs.Prelude.{◌≡◌, ◌+◌, ◌≤◌, length, min, IfOk, OnOk, IfErr};
ghost use Rattle.std.specs.Prelude.{Some, None, IfSome, IfNone};
ghost use Rattle.linker_output.specs.LazyPlt.{view_plt, WritesPieces, RejectsPieces, header_places};
ghost use Rattle.linker_output.specs.LazyPlt.{operands_at, pieces_len, RejectsPiece, RejectsCode};
ghost use Rattle.linker_output.specs.LazyPlt.{word_by, word_in, piece_len, capped_len, WritesCode};
ghost use Rattle.linker_output.specs.LazyPlt.{IsPiece};
ghost use Rattle.linker_output.specs.LazyPlts.{lazy_plt_of, plt_of_form};

use crate::lazy_plts;
use crate::stubs::{StubError, StubField, write_field};
use linker_base::rewrite::overwrite;
use linker_utils::elf::{Architecture, Operands, RelocateError};

/// What a field of a lazy PLT's code is computed from.
#[derive(Clone, Copy)]
pub enum LazyTarget {
    /// The address of the entry's word, and in the header that of the first word of `.got.plt`.
    Word,
    /// The address of the header.
    Header,
    /// The entry's index.
    Index,
}

/// A field of a lazy PLT's code.
#[derive(Clone, Copy)]
pub struct LazyField {
    /// Its place in the piece of code, and the relocation whose value it takes.
    pub field: StubField,
    /// The address, or the number, that the value is computed from.
    pub target: LazyTarget,
    /// The offset, in the header or the entry, of the address that the value is relative to.
    pub origin: u64,
    /// The addend.
    pub addend: i64,
}

/// A piece of code with at most one field.
#[derive(Clone, Copy)]
pub struct LazyPiece {
    /// The code, in which the field is 0, and zeros after it.
    pub code: [u8; 8],
    /// How many bytes of code there are, at most 8.
    pub len: usize,
    /// The field.
    pub field: Option<LazyField>,
}

/// What a word of `.got.plt` holds before the dynamic linker changes it.
#[derive(Clone, Copy)]
pub enum LazyWord {
    /// 0.
    Zero,
    /// The address of `.dynamic`.
    Dynamic,
    /// The address of the header.
    Header,
    /// The address so far above that of the entry.
    Entry(u64),
}

/// The lazy PLT of an architecture.
///
/// The fields are public, so that a linker can describe one by a value of its own.
#[derive(Clone, Copy)]
pub struct LazyPlt {
    /// The architecture whose relocations the fields have.
    pub instructions: Architecture,
    /// What the addresses of the header and of its entries are multiples of.
    pub alignment: u64,
    /// The header's code.
    pub header: &'static [LazyPiece],
    /// An entry's code.
    pub entry: &'static [LazyPiece],
    /// The first words of `.got.plt`, before those of the entries.
    pub header_words: &'static [LazyWord],
    /// The word of an entry. PowerPC64's the dynamic linker puts there itself, from
    /// `DT_PPC64_GLINK`, which is 32 below the first entry: in an output its section has no
    /// contents.
    pub word: LazyWord,
}

/// A form of a lazy PLT, by how code is protected: where indirect branches may go, and whether
/// addresses in words are authenticated.
///
/// AArch64's entries have 24 bytes in all forms but `Plain`, as ld.lld's. GNU ld's have 16 with
/// `-z force-bti` in outputs whose load address isn't fixed, and in others all begin with `bti c`.
#[derive(Clone, Copy)]
pub enum LazyForm {
    /// For code that isn't protected: that of `LazyPlt::of`.
    Plain,
    /// What the words lead to at first begins with an instruction to which indirect branches may
    /// go. On AArch64 it is the header, with `bti c` (ld.lld's `-z force-bti`). On x86-64 it is the
    /// entry, with `endbr64` (`-z force-ibt`): calls go to a stub of the kind `LandingLoad`, to
    /// the word that belongs to the entry. That stub is the entry of `.plt.sec`.
    Landing,
    /// AArch64: the same, and the entry begins with `bti c`. So do ld.lld's whose address is the
    /// function's in other outputs, those of indirect functions, and those that a stub goes to.
    LandingEntry,
    /// AArch64: the entry authenticates the address that its word has by the word's address, with
    /// `autia1716` (`-z pac-plt`). `DT_AARCH64_PAC_PLT` has to tell the dynamic linker.
    Authenticated,
    /// AArch64: `Authenticated`, with the header of `Landing`.
    AuthenticatedLanding,
    /// AArch64: `Authenticated`, with `bti c` as `LandingEntry`.
    AuthenticatedLandingEntry,
}

/// What an entry is written from.
#[repr(C)]
#[derive(Clone, Copy)]
pub struct LazyEntry {
    /// Its address.
    pub address: u64,
    /// The address of its word in `.got.plt`.
    pub word: u64,
    /// The address of the header.
    pub header: u64,
    /// The index of its relocation in `.rela.plt`.
    pub index: u64,
}

impl LazyPiece {
    /// How many bytes of code there are.
    #[inline]
    fn len(&self) -> usize
        ensures { result ≡ piece_len self.now }
    {
        self.len.min(8)
    }
}

impl LazyField {
    /// What the value of the field is computed from.
    #[inline]
    fn operands(&self, places: &LazyEntry) -> Operands
        ensures { result ≡ operands_at self.now places.now }
    {
        let origin = places.address.wrapping_add(self.origin);
        let target = match self.target {
            LazyTarget::Word => places.word,
            LazyTarget::Header => places.header,
            LazyTarget::Index => places.index,
        };
        Operands {
            got_entry: target,
            got_base: origin,
            tls_base: origin,
            has_got_entry: true,
            has_tls_base: true,
            ..Operands::new(target, self.addend, origin)
        }
    }
}

/// The bytes of a piece with its field.
fn piece_bytes(
    architecture: Architecture,
    piece: &LazyPiece,
    places: &LazyEntry,
) -> Result<[u8; 8], RelocateError>
    ensures ok { IfOk result (IsPiece architecture piece.now places.now) }
    ensures err { IfErr result (RejectsPiece architecture piece.now places.now) }
{
    let mut code = piece.code;
    if let Some(field) = &piece.field {
        write_field(
            architecture,
            field.field,
            &field.operands(places),
            &mut code,
        )?;
    }
    Ok(code)
}

/// How many bytes pieces have, or `u64::MAX` if those are more.
fn len_of(pieces: &[LazyPiece]) -> u64
    ensures { result ≡ capped_len pieces.now }
{
    let Some((piece, others)) = pieces.split_first() else {
        return 0;
    };
    len_of(others).saturating_add(piece.len() as u64)
}

/// Writes pieces one after the other.
fn write_pieces(
    architecture: Architecture,
    pieces: &[LazyPiece],
    places: &LazyEntry,
    at: u64,
    out: &mut [u8],
) -> Result<(), RelocateError>
    requires { at + pieces_len pieces.now ≤ length out.old }
    ensures ok { OnOk result
        (WritesPieces architecture pieces.now places.now at out.old out.new) }
    ensures err { IfErr result (RejectsPieces architecture pieces.now places.now) }
    ensures unchanged { IfErr result (λ _. out.new ≡ out.old) }
{
    let Some((piece, others)) = pieces.split_first() else {
        return Ok(());
    };
    let code = piece_bytes(architecture, piece, places)?;
    write_pieces(architecture, others, places, at + piece.len() as u64, out)?;
    overwrite(out, at, &code[..piece.len()]);
    Ok(())
}

/// Writes a header or an entry.
fn write_code(
    architecture: Architecture,
    pieces: &[LazyPiece],
    places: &LazyEntry,
    out: &mut [u8],
) -> Result<(), StubError>
    ensures ok { OnOk result (WritesCode architecture pieces.now places.now out.old out.new) }
    ensures err { IfErr result (RejectsCode architecture pieces.now places.now out.old) }
    ensures unchanged { IfErr result (λ _. out.new ≡ out.old) }
{
    if (out.len() as u64) < len_of(pieces) {
        return Err(StubError::TooShort);
    }
    write_pieces(architecture, pieces, places, 0, out).map_err(StubError::Field)
}

impl LazyPlt {
    /// The lazy PLT of an architecture, for code that isn't protected.
    ///
    /// ```
    /// use linker_output::lazy_plt::LazyPlt;
    /// use linker_utils::elf::Architecture;
    ///
    /// let plt = LazyPlt::of(Architecture::X86_64);
    /// assert_eq!((plt.header_len(), plt.entry_len(), plt.alignment), (16, 16, 16));
    /// assert_eq!(plt.header_words.len(), 3);
    /// ```
    pub fn of(architecture: Architecture) -> &'static LazyPlt
        ensures { view_plt result.now ≡ lazy_plt_of architecture }
    {
        match architecture {
            Architecture::AArch64 => &lazy_plts::AARCH64,
            Architecture::RiscV => &lazy_plts::RISCV64,
            Architecture::LoongArch64 => &lazy_plts::LOONGARCH64,
            Architecture::Ppc64 => &lazy_plts::PPC64,
            Architecture::X86_64 => &lazy_plts::X86_64,
        }
    }

    /// The lazy PLT of an architecture in a form. None where the architecture has none of the form.
    ///
    /// ```
    /// use linker_output::lazy_plt::{LazyEntry, LazyForm, LazyPlt};
    /// use linker_utils::elf::Architecture;
    ///
    /// // `endbr64`, `push $2`, `jmp header`, `xchg %ax,%ax`
    /// let plt = LazyPlt::of_form(Architecture::X86_64, LazyForm::Landing).unwrap();
    /// let (address, header) = (0x13f0, 0x13c0);
    /// let mut code = [0; 16];
    /// plt.write_entry(&LazyEntry { address, word: 0x3508, header, index: 2 }, &mut code)?;
    /// assert_eq!(code[..9], [0xf3, 0x0f, 0x1e, 0xfa, 0x68, 2, 0, 0, 0]);
    /// assert_eq!(code[9..], [0xe9, 0xc2, 0xff, 0xff, 0xff, 0x66, 0x90]);
    /// assert_eq!(plt.entry_word(address, header, 0x2430), address);
    /// assert_eq!(LazyPlt::of_form(Architecture::RiscV, LazyForm::Landing), None);
    /// # Ok::<(), linker_output::stubs::StubError>(())
    /// ```
    pub fn of_form(architecture: Architecture, form: LazyForm) -> Option<&'static LazyPlt>
        ensures some { IfSome result
            (λ plt. plt_of_form architecture form ≡ Some (view_plt plt.now)) }
        ensures none { IfNone result (plt_of_form architecture form ≡ None) }
    {
        match (architecture, form) {
            (_, LazyForm::Plain) => Some(LazyPlt::of(architecture)),
            (Architecture::X86_64, LazyForm::Landing) => Some(&lazy_plts::X86_64_LANDING),
            (Architecture::AArch64, LazyForm::Landing) => Some(&lazy_plts::AARCH64_LANDING),
            (Architecture::AArch64, LazyForm::LandingEntry) => {
                Some(&lazy_plts::AARCH64_LANDING_ENTRY)
            }
            (Architecture::AArch64, LazyForm::Authenticated) => {
                Some(&lazy_plts::AARCH64_AUTHENTICATED)
            }
            (Architecture::AArch64, LazyForm::AuthenticatedLanding) => {
                Some(&lazy_plts::AARCH64_AUTHENTICATED_LANDING)
            }
            (Architecture::AArch64, LazyForm::AuthenticatedLandingEntry) => {
                Some(&lazy_plts::AARCH64_AUTHENTICATED_LANDING_ENTRY)
            }
            _ => None,
        }
    }

    /// How many bytes the header has, or `u64::MAX` if those are more.
    pub fn header_len(&self) -> u64
        ensures { result ≡ capped_len (view_plt self.now).header }
    {
        len_of(self.header)
    }

    /// How many bytes an entry has, or `u64::MAX` if those are more.
    pub fn entry_len(&self) -> u64
        ensures { result ≡ capped_len (view_plt self.now).entry }
    {
        len_of(self.entry)
    }

    /// Writes the header that stands at an address, of the `.got.plt` at `words`. Bytes after the
    /// header are left, and with an error all are.
    pub fn write_header(&self, header: u64, words: u64, out: &mut [u8]) -> Result<(), StubError>
        ensures ok { OnOk result (WritesCode self.now.instructions (view_plt self.now).header
            (header_places header words) out.old out.new) }
        ensures err { IfErr result (RejectsCode self.now.instructions (view_plt self.now).header
            (header_places header words) out.old) }
        ensures unchanged { IfErr result (λ _. out.new ≡ out.old) }
    {
        let places = LazyEntry {
            address: header,
            word: words,
            header,
            index: 0,
        };
        write_code(self.instructions, self.header, &places, out)
    }

    /// Writes an entry. Bytes after it are left, and with an error all are.
    ///
    /// ```
    /// use linker_output::lazy_plt::{LazyEntry, LazyPlt};
    /// use linker_utils::elf::Architecture;
    ///
    /// // `jmp *word(%rip)`, `push $2`, `jmp header`
    /// let plt = LazyPlt::of(Architecture::X86_64);
    /// let (address, header) = (0x1360, 0x1330);
    /// let mut code = [0; 16];
    /// plt.write_entry(&LazyEntry { address, word: 0x3448, header, index: 2 }, &mut code)?;
    /// assert_eq!(code[..6], [0xff, 0x25, 0xe2, 0x20, 0, 0]);
    /// assert_eq!(code[6..], [0x68, 2, 0, 0, 0, 0xe9, 0xc0, 0xff, 0xff, 0xff]);
    /// assert_eq!(plt.entry_word(address, header, 0x2370), 0x1366);
    /// # Ok::<(), linker_output::stubs::StubError>(())
    /// ```
    pub fn write_entry(&self, entry: &LazyEntry, out: &mut [u8]) -> Result<(), StubError>
        ensures ok { OnOk result (WritesCode self.now.instructions (view_plt self.now).entry
            entry.now out.old out.new) }
        ensures err { IfErr result (RejectsCode self.now.instructions (view_plt self.now).entry
            entry.now out.old) }
        ensures unchanged { IfErr result (λ _. out.new ≡ out.old) }
    {
        write_code(self.instructions, self.entry, entry, out)
    }

    /// What a word at the begin of `.got.plt` holds, by the address of `.dynamic` and that of the
    /// header. None for an index of a word after those.
    pub fn header_word(&self, index: usize, dynamic: u64, header: u64) -> Option<u64>
        ensures { result ≡ word_in (view_plt self.now).header_words index dynamic header }
    {
        let word = self.header_words.get(index)?;
        Some(word.value(header, header, dynamic))
    }

    /// What the word of the entry at an address holds until the function has been looked up, by the
    /// address of the header and that of `.dynamic`.
    pub fn entry_word(&self, entry: u64, header: u64, dynamic: u64) -> u64
        ensures { result ≡ word_by self.now.word entry header dynamic }
    {
        self.word.value(entry, header, dynamic)
    }
}

impl LazyWord {
    /// What it is at the addresses.
    #[inline]
    fn value(&self, entry: u64, header: u64, dynamic: u64) -> u64
        ensures { result ≡ word_by self.now entry header dynamic }
    {
        match *self {
            LazyWord::Zero => 0,
            LazyWord::Dynamic => dynamic,
            LazyWord::Header => header,
            LazyWord::Entry(offset) => entry.wrapping_add(offset),
        }
    }
}
