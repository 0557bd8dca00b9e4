//! The vocabulary of relocations, the forms of instructions that hold a value, the interfaces of
//! forms and of rewrites, the architectures, and what a linker knows when it chooses a rewrite.

pub mod architecture;
mod choice;
pub mod choice_table;
pub(crate) mod engine;
mod entries;
mod facts;
mod instruction;
mod numbers;
mod relocate;
pub(crate) mod rows;
pub(crate) mod value;

ghost use Rattle.std.specs.Prelude.{◌≡◌, ◌≤◌, ◌<◌, ◌*◌, ◌-◌, ◌↔◌, ◌==◌, IsTrue, Option, Some, None};
ghost use Rattle.std.specs.Prelude.{if◌then◌else◌, length, drop, ℕ};
ghost use Rattle.std.specs.Int.{byte_len, cast_unsigned, w64};
ghost use Rattle.linker_base.specs.Form.{Form, window_of, Fits, Written, MachineReads, IsReadBack};
ghost use Rattle.linker_base.specs.Form.{WriteKeepsOtherBits, WriteBackChangesNothing};
ghost use Rattle.linker_base.specs.Rewrite.{Rewrite, CanRewrite, rewritten, offset_after};
ghost use Rattle.linker_base.specs.Rewrite.{addend_after};
ghost use Rattle.linker_base.specs.RewriteWindow.{window_of_rewrite};
ghost use Rattle.linker_base.specs.declared.relaxation.RelocationModifier.{RelocationModifier};
ghost use Rattle.linker_elf.specs.Elf.{relocation_form, bit_bounds, IsAllowed};
ghost use Rattle.linker_elf.specs.Inner.FormLaws.{relocation_keeps, relocation_restored};

pub use crate::aarch64::AArch64Instruction;
pub use crate::loongarch64::LoongArch64Instruction;
pub use crate::ppc64::Ppc64Form;
pub use crate::riscv64::RiscVInstruction;
pub use architecture::{Architecture, HANDLE_UNIT, Uleb128PairError};
pub use choice::{Choice, LinkFacts, OtherRelocation};
pub use facts::{EntryUse, Length, RowFacts, Way};
use linker_base::bit_misc::BitRange;
use linker_base::relaxation::RelocationModifier;
pub use linker_base::rewrite::RewriteWindow;
pub use numbers::RelocationNumbers;
pub use relocate::{ApplyError, RelocateError, WriteError};
pub use rows::Row;
use std::marker::Model;
pub use value::{FormulaError, Operands};

/// 2 KiB: half a page.
pub const SIZE_2KB: u64 = 0x800;

/// 4 KiB: a page.
pub const SIZE_4KB: u64 = 0x1000;

/// 2 GiB.
pub const SIZE_2GB: u64 = 1 << 31;

/// 4 GiB.
pub const SIZE_4GB: u64 = 1 << 32;

/// The bits of an address within its page of 4 KiB.
pub const PAGE_MASK_4KB: u64 = 0xfff;

/// `e_machine` in the ELF header of AArch64's files (ELF specification, "ELF Header").
pub const EM_AARCH64: u16 = 183;

/// `e_machine` of RISC-V's files.
pub const EM_RISCV: u16 = 243;

/// `e_machine` of LoongArch's files.
pub const EM_LOONGARCH: u16 = 258;

/// `e_machine` of files of 64-bit Power.
pub const EM_PPC64: u16 = 21;

/// `e_machine` of x86-64's files.
pub const EM_X86_64: u16 = 62;

/// The formula of a relocation's value. The letters are those of the psABIs: S is the symbol's
/// address, A the addend, P the place (the address of the field), V the number in the field, and Z
/// the symbol's size.
#[derive(Debug, Clone, Copy, PartialEq, Eq)]
pub enum RelocationKind {
    /// No value; nothing is written.
    None,
    /// S + A.
    Absolute,
    /// S + A, of which bits of the offset in a page are taken.
    AbsoluteLowPart,
    /// S + A, in place of V.
    AbsoluteSet,
    /// S + A, in the low 6 bits of a byte.
    AbsoluteSetWord6,
    /// V + S + A.
    AbsoluteAddition,
    /// V + S + A, in the low 6 bits of a byte.
    AbsoluteAdditionWord6,
    /// V - S - A.
    AbsoluteSubtraction,
    /// V - S - A, in the low 6 bits of a byte.
    AbsoluteSubtractionWord6,
    /// The second of a pair of RISC-V relocations that set a ULEB128 number to a difference of
    /// symbols.
    PairSubtractionULEB128RiscV,
    /// The second of a pair of LoongArch relocations that add a difference of symbols to a ULEB128
    /// number.
    PairSubtractionULEB128LoongArch,
    /// S + A - P.
    Relative,
    /// The low 12 bits of the value of the high part that the symbol labels.
    RelativeRiscVLow12,
    /// The high 32 bits of a LoongArch address relative to the place.
    RelativeLoongArchHigh,
    /// The GOT entry's address relative to the place.
    GotRelative,
    /// The high 32 bits of that, of LoongArch.
    GotRelativeLoongArch64,
    /// The GOT entry's address relative to the GOT.
    GotRelGotBase,
    /// The GOT entry's address.
    Got,
    /// The symbol's address relative to the GOT.
    SymRelGotBase,
    /// The PLT entry's address relative to the GOT.
    PltRelGotBase,
    /// The PLT entry's address relative to the place.
    PltRelative,
    /// Z + A.
    SymbolSize,
    /// Padding that aligns what follows; no value.
    Alignment,
    /// The address of the pair of GOT entries of general-dynamic TLS, relative to the place.
    TlsGd,
    /// The address of that pair.
    TlsGdGot,
    /// The address of that pair relative to the GOT.
    TlsGdGotBase,
    /// The address of the pair of GOT entries of local-dynamic TLS, relative to the place.
    TlsLd,
    /// The address of that pair.
    TlsLdGot,
    /// The address of that pair relative to the GOT.
    TlsLdGotBase,
    /// The offset in the module's TLS block.
    DtpOff,
    /// The address of the GOT entry of the offset from the thread pointer, relative to the place.
    GotTpOff,
    /// The address of that entry.
    GotTpOffGot,
    /// The address of that entry relative to the GOT.
    GotTpOffGotBase,
    /// The high 32 bits of that entry's address relative to the place, of LoongArch.
    GotTpOffLoongArch64,
    /// The offset from the thread pointer.
    TpOff,
    /// The address of the TLS descriptor, relative to the place.
    TlsDesc,
    /// The address of the TLS descriptor.
    TlsDescGot,
    /// The address of the TLS descriptor relative to the GOT.
    TlsDescGotBase,
    /// The high 32 bits of the descriptor's address relative to the place, of LoongArch.
    TlsDescLoongArch64,
    /// The call through a TLS descriptor; no value.
    TlsDescCall,
}

/// What a relocation of a ULEB128 number does with its value, S + A. Two of them are at one
/// number. `utils::write_uleb128` writes the result of both: that of the first may
/// need more bytes than there are.
#[derive(Clone, Copy)]
pub enum Uleb128Role {
    /// The value is the number that the next one subtracts from.
    Sets,
    /// The value is added to the existing number.
    Adds,
    /// The value is subtracted from what the one before it has made.
    Subtracts,
}

/// Whether a bit field is read in two's complement.
#[derive(Debug, Clone, Copy, PartialEq, Eq)]
pub enum Sign {
    Signed,
    Unsigned,
}

/// Where a relocation's value is written.
#[derive(Debug, Clone, Copy, PartialEq, Eq)]
pub enum RowSize {
    /// This number of whole bytes.
    ByteSize(u8),
    /// A bit range of the value into an instruction of a form.
    BitMasking { range: BitRange, insn: AnyForm },
}

/// An instruction form of one of the architectures.
#[derive(Debug, Clone, Copy, PartialEq, Eq)]
pub enum AnyForm {
    AArch64(AArch64Instruction),
    RiscV(RiscVInstruction),
    Ppc64(Ppc64Form),
    LoongArch64(LoongArch64Instruction),
}

/// The size of the pages of a page mask.
#[derive(Debug, Clone, Copy, PartialEq, Eq)]
pub enum PageMaskPattern {
    /// 4 KiB.
    Size4KB,
}

/// The addresses whose offset in the page is cleared before a difference is taken.
#[derive(Debug, Clone, Copy, PartialEq, Eq)]
pub enum PageMask {
    /// The symbol's address plus the addend, and the place.
    SymbolPlusAddendAndPosition(PageMaskPattern),
    /// The GOT entry's address, and the place.
    GotEntryAndPosition(PageMaskPattern),
    /// The GOT's address.
    GotBase(PageMaskPattern),
}

/// A number, not 0, that is added to the symbol's address or the GOT entry's address. It is added
/// before the page mask is applied, and before the bit range is taken.
#[derive(Debug, Clone, Copy, PartialEq, Eq)]
pub struct Bias {
    value: u64,
}

impl Model for Bias {
    ghost Value = { ℕ };

    ghost view = { λ b. b.value };

    ghost inverse = { λ n. record { value = n } };
}

impl Bias {
    /// A bias of `value`; `None` for 0.
    pub fn from_value(value: u64) -> Option<Bias>
        ensures { result ≡ (if value == 0 then None else Some value) }
    {
        if value == 0 {
            None
        } else {
            Some(Bias { value })
        }
    }

    /// The number.
    pub fn value(self) -> u64
        ensures { result ≡ self }
    {
        self.value
    }
}

/// The allowed values of a relocation: from the first bound up to, and not including, the second;
/// or every value.
///
/// ```
/// use linker_utils::elf::{AllowedRange, Sign};
///
/// let branch = AllowedRange::from_bit_size(28, Sign::Signed);
/// assert!(branch.contains(-(1 << 27)));
/// assert!(!branch.contains(1 << 27));
/// ```
#[derive(Debug, Clone, Copy, PartialEq, Eq)]
pub struct AllowedRange {
    /// The least allowed value, and the first above all; `None` if every value is allowed.
    pub bounds: Option<(i64, i64)>,
}

impl AllowedRange {
    /// From `min` up to, and not including, `max`.
    pub fn new(min: i64, max: i64) -> AllowedRange
        ensures { result.bounds ≡ Some (min, max) }
    {
        AllowedRange {
            bounds: Some((min, max)),
        }
    }

    /// Every value.
    pub fn no_check() -> AllowedRange
        ensures { result.bounds ≡ None }
    {
        AllowedRange { bounds: None }
    }

    /// The numbers of `n` bits: signed from -2^(n-1) to 2^(n-1) - 1, or unsigned below 2^n.
    pub fn from_bit_size(n: u32, sign: Sign) -> AllowedRange
        requires some { 1 ≤ n }
        requires short { n ≤ 62 }
        ensures { result.bounds ≡ Some (bit_bounds n sign) }
    {
        match sign {
            Sign::Signed => AllowedRange::new(-(1i64 << (n - 1)), 1i64 << (n - 1)),
            Sign::Unsigned => AllowedRange::new(0, 1i64 << n),
        }
    }

    /// The numbers of `k` bytes; for eight bytes, every value.
    pub fn from_byte_size(k: u32, sign: Sign) -> AllowedRange
        requires some { 1 ≤ k }
        requires short { k ≤ 8 }
        ensures { result.bounds ≡ (if k == 8 then None else Some (bit_bounds (8 * k) sign)) }
    {
        if k == 8 {
            AllowedRange::no_check()
        } else {
            AllowedRange::from_bit_size(8 * k, sign)
        }
    }

    /// Whether a value is in the range. Where two instructions hold the value, a row's range may be
    /// wider than what they reach: see `Row::reach`.
    pub fn contains(self, v: i64) -> bool
        ensures { IsTrue result ↔ IsAllowed self v }
    {
        match self.bounds {
            Some((min, max)) => min <= v && v < max,
            None => true,
        }
    }
}

/// What a relocation means.
#[derive(Debug, Clone, Copy, PartialEq, Eq)]
pub struct RowInfo {
    /// The formula of its value.
    pub kind: RelocationKind,
    /// Where its value is written.
    pub size: RowSize,
    /// The addresses whose offset in the page is cleared.
    pub mask: Option<PageMask>,
    /// The allowed values.
    pub range: AllowedRange,
    /// The value is a multiple of this.
    pub alignment: u64,
    /// Added before the page mask is applied.
    pub bias: Option<Bias>,
    /// Whether a thunk may replace a target that is out of range.
    pub thunkable: bool,
    /// Whether the addend is in the section, and not in the relocation.
    pub implicit_addend: bool,
}

/// An instruction form: where the bits of an immediate are in an instruction, and which number
/// they are.
///
/// ```
/// use linker_utils::elf::{InstructionForm, RiscVInstruction};
///
/// let mut jal = 0x0000_00efu32.to_le_bytes();
/// RiscVInstruction::JType.write(8, false, &mut jal);
/// assert_eq!(u32::from_le_bytes(jal), 0x0080_00ef);
/// assert_eq!(RiscVInstruction::JType.read(&jal), (8, false));
/// ```
pub trait InstructionForm: Copy {
    // what defines the form
    ghost form: { Self → Form };

    /// The length in bytes of the window that the form reads and writes.
    fn window(self) -> usize
        ensures { result ≡ byte_len (form self).window };

    /// Whether a value can be written to the instruction that `bytes` begins with.
    fn fits(self, value: u64, bytes: &[u8]) -> bool
        requires { byte_len (form self).window ≤ length bytes.now }
        ensures { IsTrue result ↔ Fits (form self) value (window_of (form self) bytes.now) };

    /// Writes a value and its sign into the instruction that `dest` begins with. Only the form's
    /// bits change.
    fn write(self, value: u64, negative: bool, dest: &mut [u8])
        requires room { byte_len (form self).window ≤ length dest.old }
        requires fits { Fits (form self) value (window_of (form self) dest.old) }
        ensures written { Written (form self) value negative (window_of (form self) dest.old)
            (window_of (form self) dest.new) }
        ensures rest { drop (byte_len (form self).window) dest.new
            ≡ drop (byte_len (form self).window) dest.old }
        ensures machine { MachineReads (form self) value negative (window_of (form self) dest.old)
            (window_of (form self) dest.new) }
        ensures restored { IsReadBack (form self) value negative (window_of (form self) dest.old)
            → dest.new ≡ dest.old };

    /// The value in the instruction that `bytes` begins with, modulo 2^64, and the form's flag.
    fn read(self, bytes: &[u8]) -> (u64, bool)
        requires { byte_len (form self).window ≤ length bytes.now }
        ensures number { result.0
            ≡ cast_unsigned w64 ((form self).reading (window_of (form self) bytes.now)) }
        ensures flag { result.1 ≡ (form self).flag (window_of (form self) bytes.now) };

    // a write keeps each bit that is neither at a place nor in an opcode that the form sets
    ghost keeps: { (f : Self) → WriteKeepsOtherBits (form f) };

    // writing back what was read changes nothing
    ghost restores: { (f : Self) → WriteBackChangesNothing (form f) };
}

/// A rewrite of the instruction at an offset of a section, as relaxations apply it: which bytes it
/// changes, and what becomes of the relocation there and of the next one.
pub trait InstructionRewrite: Copy {
    // what the rewrite does; none changes nothing
    ghost rewrite: { Self → Option Rewrite };

    // what becomes of the next relocation
    ghost modifier: { Self → RelocationModifier };

    // it leaves the instruction as it is
    ghost no_op: { Self → Type 0 };

    // what leaves the instruction changes no byte and no other relocation
    ghost stays: { (k : Self) → no_op k
        → (rewrite k ≡ None) × (modifier k ≡ RelocationModifier.Normal) };

    /// Rewrites the instruction at an offset of a section. The offset and the addend become those
    /// of the relocation after it; all other bytes are unchanged.
    fn apply(self, section: &mut [u8], offset: &mut u64, addend: &mut i64)
        requires { CanRewrite (rewrite self) section.old offset.old }
        ensures bytes { section.new ≡ rewritten (rewrite self) section.old offset.old }
        ensures offset { offset.new ≡ offset_after (rewrite self) offset.old }
        ensures addend { addend.new ≡ addend_after (rewrite self) addend.old };

    /// Whether `apply` may be called at an offset of a section: the bytes that it writes lie in the
    /// section, and the instruction meets what the rewrite requires of it. Most rewrites require
    /// nothing; then the instruction isn't tested, as `matches` of the library's rewrites tests it.
    fn can_apply(self, section: &[u8], offset: u64) -> bool
        ensures { IsTrue result ↔ CanRewrite (rewrite self) section.now offset };

    /// The bytes that `apply` writes: from how far before the offset, and how many. `NoOp`,
    /// `Delete` and other rewrites that leave the instruction write none. On x86-64 the field whose
    /// value is written afterwards lies after them, but for `JmpIndirectToRelative` and
    /// `TlsGdToLocalExecLarge`, which write 0 to it.
    fn window(self) -> RewriteWindow
        ensures { result ≡ window_of_rewrite (rewrite self) };

    /// What becomes of the relocation after the rewritten one. It is skipped where it is that of
    /// the call in a TLS sequence, which the rewrite removes, or the mark `R_RISCV_RELAX` of a call
    /// that becomes a jump or of a `lui` that `Hi20Delete` deletes. Else it is applied as usual.
    /// `skipped_offset` of the library's rewrites says where it is.
    fn next_modifier(&self) -> RelocationModifier
        ensures { result ≡ modifier self.now };

    /// Whether it is `NoOp`, which leaves the instruction and all other relocations as they are.
    /// `Delete`, which writes no bytes either, isn't.
    fn is_no_op(self) -> bool
        ensures { IsTrue result ↔ no_op self };
}

/// What is made of a form, whichever architecture it is of.
macro_rules! of_form {
    ($insn:expr, $form:ident => $made:expr) => {
        match $insn {
            AnyForm::AArch64($form) => $made,
            AnyForm::RiscV($form) => $made,
            AnyForm::Ppc64($form) => $made,
            AnyForm::LoongArch64($form) => $made,
        }
    };
}

pub(crate) use of_form;

impl InstructionForm for AnyForm {
    ghost form = { relocation_form };

    ghost keeps = { relocation_keeps };

    ghost restores = { relocation_restored };

    #[inline]
    fn window(self) -> usize {
        of_form!(self, insn => insn.window())
    }

    #[inline]
    fn fits(self, value: u64, bytes: &[u8]) -> bool {
        of_form!(self, insn => insn.fits(value, bytes))
    }

    #[inline]
    fn write(self, value: u64, negative: bool, dest: &mut [u8]) {
        of_form!(self, insn => insn.write(value, negative, dest))
    }

    #[inline]
    fn read(self, bytes: &[u8]) -> (u64, bool) {
        of_form!(self, insn => insn.read(bytes))
    }
}
