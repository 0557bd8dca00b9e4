//! PowerPC64 instructions that hold a value.

ghost use Rattle.std.specs.Prelude.{slice_get, ◌≡◌, ◌≤◌, length, drop, IsTrue};
ghost use Rattle.std.specs.Int.{byte_len, cast_unsigned, w64};
ghost use Rattle.linker_elf.specs.Ppc64.{ppc64_forms, ppc64_form};
ghost use Rattle.linker_base.specs.Form.{window_of, Written, MachineReads, IsReadBack};
ghost use Rattle.linker_elf.specs.Inner.FormLaws.{ppc64_keeps, ppc64_restored};
ghost use Rattle.linker_elf.specs.Inner.Runs.{code_of, moves_places};
ghost use Rattle.linker_elf.specs.Entries.{is_ppc64_branch};
ghost use Rattle.linker_elf.specs.Forms.{ppc64_mask, is_dq_at, immediate_of};
ghost use Rattle.linker_elf.specs.Relocate.{number_placed};

use crate::elf::engine::{self, Encoding, Step, Window, form};
use crate::elf::{AnyForm, InstructionForm};
use linker_base::bit_misc::BitRange;

/// PowerPC64 instructions that hold a displacement. The window is 4 bytes, and 8 for `Prefixed`.
/// Every value fits: except for `Prefixed` its bits are in the word where they are in the value,
/// and all other bits are unchanged.
/// Bits are numbered from the least significant one.
#[derive(Debug, Clone, Copy, PartialEq, Eq)]
pub enum Ppc64Form {
    /// D-form, as `addi`: value bits 0 to 15 at bit 0 and up. A signed number of 16 bits (Power
    /// ISA, "D-Form").
    D,
    /// DS-form, as `ld`: value bits 2 to 15 at bit 2 and up. A signed number of 16 bits, whose
    /// lowest two are 0 (Power ISA, "DS-Form").
    Ds,
    /// B-form, as `bc`: value bits 2 to 15 at bit 2 and up. A signed distance of 16 bits, whose
    /// lowest two are 0 (Power ISA, "B-Form").
    Branch14,
    /// I-form, as `b`: value bits 2 to 25 at bit 2 and up. A signed distance of 26 bits, whose
    /// lowest two are 0 (Power ISA, "I-Form").
    Branch24,
    /// A prefixed instruction, as `paddi` and `pld`: value bits 16 to 33 at bit 0 and up of word
    /// one, the prefix, and 0 to 15 at bit 0 and up of word two. A signed number of 34 bits (Power
    /// ISA 3.1, "8LS:D-Form" and "MLS:D-Form").
    Prefixed,
    /// D-form with an unsigned immediate, as `oris`: value bits 0 to 15 at bit 0 and up. A number
    /// of 16 bits without a sign (Power ISA, "D-Form", the field UI).
    DUnsigned,
}

/// A form by its name, or with `each` all in the order of their enum.
macro_rules! form_of {
    (D $part:tt) => { form!($part (D Four, 0..16, [0, 0, 16])) };
    (Ds $part:tt) => { form!($part (Ds Four, 2..16, [2, 2, 14])) };
    (Branch14 $part:tt) => { form!($part (Branch14 Four, 2..16, [2, 2, 14])) };
    (Branch24 $part:tt) => { form!($part (Branch24 Four, 2..26, [2, 2, 24])) };
    (Prefixed $part:tt) => { form!($part (Prefixed Eight, 0..34, [0, 32, 16] [16, 0, 18])) };
    (DUnsigned $part:tt) => { form!($part (DUnsigned Four, 0..16, [0, 0, 16])) };
    (each $($part:tt)+) => { form_of!(@ [$($part)+] D Ds Branch14 Branch24 Prefixed DUnsigned) };
    (@ $part:tt $($name:ident)+) => { [$(form_of!($name $part)),+] };
}

pub(super) use form_of;

// Tables, since with a match LLVM would jump by the form.
const CODES: [Encoding; 6] = form_of!(each code);

const STEPS: [[Step; 2]; 6] = form_of!(each 2 steps);

/// The forms by their numbers. A table, since a match becomes a jump by the number where what
/// follows differs by the form.
const FORMS: &[Ppc64Form] = &form_of!(each variant Ppc64Form);

/// The unit of the displacements of DQ-form: the lowest four bits of such a word are others.
pub const DQ_UNIT: u64 = 16;

impl Ppc64Form {
    /// What the form is beside its steps.
    #[inline(always)]
    fn code(self) -> &'static Encoding
        ensures { result.now ≡ (code_of (AnyForm.Ppc64 self)).0 }
    {
        &CODES[self as usize]
    }

    /// How its bits move.
    #[inline(always)]
    fn steps(self) -> &'static [Step; 2]
        ensures moves { result.now ≡ (code_of (AnyForm.Ppc64 self)).1 }
        ensures places { IsTrue (moves_places (AnyForm.Ppc64 self) result.now) }
    {
        &STEPS[self as usize]
    }

    /// Writes a value into the instruction that `dest` begins with. Only the form's bits change.
    /// `negative` is ignored.
    #[inline(always)]
    pub fn write_to_value(self, extracted_value: u64, negative: bool, dest: &mut [u8])
        requires { byte_len (ppc64_form self).window ≤ length dest.old }
        ensures written { Written (ppc64_form self) extracted_value negative
            (window_of (ppc64_form self) dest.old) (window_of (ppc64_form self) dest.new) }
        ensures rest { drop (byte_len (ppc64_form self).window) dest.new
            ≡ drop (byte_len (ppc64_form self).window) dest.old }
        ensures machine { MachineReads (ppc64_form self) extracted_value negative
            (window_of (ppc64_form self) dest.old) (window_of (ppc64_form self) dest.new) }
        ensures restored { IsReadBack (ppc64_form self) extracted_value negative
            (window_of (ppc64_form self) dest.old)
            → dest.new ≡ dest.old }
    {
        let insn = AnyForm::Ppc64(self);
        let (code, steps) = (self.code(), self.steps());
        engine::write(insn, code, steps, extracted_value, negative, dest);
    }

    /// The value in the instruction that `bytes` begins with, unsigned: bits of the value that the
    /// form does not hold are 0. The flag is always false.
    #[inline]
    pub fn read_value(self, bytes: &[u8]) -> (u64, bool)
        requires { byte_len (ppc64_form self).window ≤ length bytes.now }
        ensures number { result.0
            ≡ cast_unsigned w64
            ((ppc64_form self).reading (window_of (ppc64_form self) bytes.now)) }
        ensures flag { result.1 ≡ (ppc64_form self).flag (window_of (ppc64_form self) bytes.now) }
    {
        let insn = AnyForm::Ppc64(self);
        engine::read(insn, self.code(), self.steps(), bytes)
    }

    /// The form with a number, its place in the enum. None above the last.
    #[inline(always)]
    pub fn from_number(number: u32) -> Option<Ppc64Form>
        ensures { result ≡ slice_get ppc64_forms number }
    {
        FORMS.get(number as usize).copied()
    }

    /// Whether an instruction of DQ-form (Power ISA, "DQ-Form") is where one of DS-form is
    /// expected: `lq`, `lxvp`, `stxvp`, `lxv` or `stxv`.
    #[inline(always)]
    pub fn is_dq_form(self, bytes: &[u8]) -> bool
        requires { byte_len (ppc64_form self).window ≤ length bytes.now }
        ensures { result ≡ is_dq_at self (window_of (ppc64_form self) bytes.now) }
    {
        match self {
            Ppc64Form::Ds => {
                let word = Window::Four.load(bytes);
                let opcode = word >> 26;
                opcode == 56 || opcode == 6 || (opcode == 61 && word % 4 == 1)
            }
            _ => false,
        }
    }

    /// The bits that a write of the form may change in the instruction that `bytes` begins with.
    #[inline]
    pub fn field_mask(self, bytes: &[u8]) -> u64
        requires { byte_len (ppc64_form self).window ≤ length bytes.now }
        ensures { result ≡ ppc64_mask self (window_of (ppc64_form self) bytes.now) }
    {
        let mask = self.code().replaced;
        if self.is_dq_form(bytes) {
            mask & !(DQ_UNIT - 1)
        } else {
            mask
        }
    }

    /// Which bits of its number the immediate has.
    #[inline]
    pub fn value_bits(self) -> BitRange
        ensures { result ≡ immediate_of (AnyForm.Ppc64 self) }
    {
        self.code().bits
    }

    /// Whether the form is that of a branch.
    #[inline(always)]
    pub(crate) fn is_branch(self) -> bool
        ensures { result ≡ is_ppc64_branch self }
    {
        matches!(self, Ppc64Form::Branch14 | Ppc64Form::Branch24)
    }

    /// The number that an instruction gets. The lowest four bits of one of DQ-form are kept: they
    /// aren't its displacement's.
    #[inline(always)]
    pub(crate) fn number_placed(self, number: u64, dest: &[u8]) -> u64
        requires { byte_len (ppc64_form self).window ≤ length dest.now }
        ensures { result ≡ number_placed (AnyForm.Ppc64 self)
            (window_of (ppc64_form self) dest.now) number }
    {
        if let Ppc64Form::Ds = self {
            if self.is_dq_form(dest) {
                let word = Window::Four.load(dest);
                return number - number % DQ_UNIT + word % DQ_UNIT;
            }
        }
        number
    }
}

impl InstructionForm for Ppc64Form {
    ghost form = { ppc64_form };

    ghost keeps = { ppc64_keeps };

    ghost restores = { ppc64_restored };

    #[inline]
    fn window(self) -> usize {
        match self {
            Ppc64Form::Prefixed => 8,
            _ => 4,
        }
    }

    #[inline]
    fn fits(self, _value: u64, _bytes: &[u8]) -> bool {
        true
    }

    #[inline]
    fn write(self, value: u64, negative: bool, dest: &mut [u8]) {
        self.write_to_value(value, negative, dest);
    }

    #[inline]
    fn read(self, bytes: &[u8]) -> (u64, bool) {
        self.read_value(bytes)
    }
}
