//! The forms of PowerPC64's instructions that the crate `linker-utils` has.

ghost use Rattle.std.specs.Prelude.{◌≡◌, ◌≤◌, IfSome, drop, is_some, length};
ghost use Rattle.std.specs.Int.{byte_len, cast_unsigned, w64};
ghost use Rattle.linker_base.specs.Form.{IsReadBack, MachineReads, Written, window_of};
ghost use Rattle.linker_elf.specs.Inner.FormLaws.{ppc64_keeps, ppc64_restored};
ghost use Rattle.linker_elf.specs.declared.elf.AnyForm.TheVariants as forms;
ghost use Rattle.linker_utils.specs.Upstream.{is_upstream_form, ppc64_instruction, ppc64_of};

use linker_elf::elf::InstructionForm;
use linker_elf::ppc64::Ppc64Form;

/// The forms of `Ppc64Form` that the crate `linker-utils` has too. No variants are added, so that a
/// match of all needs no last arm.
#[derive(Debug, Clone, Copy, PartialEq, Eq)]
pub enum Ppc64Instruction {
    /// As `addi`.
    D,
    /// As `ld`.
    Ds,
    /// As `bc`.
    Branch14,
    /// As `b`.
    Branch24,
}

impl Ppc64Instruction {
    /// The same among all forms.
    #[inline(always)]
    pub fn form(self) -> Ppc64Form
        ensures { result ≡ ppc64_of self }
    {
        match self {
            Ppc64Instruction::D => Ppc64Form::D,
            Ppc64Instruction::Ds => Ppc64Form::Ds,
            Ppc64Instruction::Branch14 => Ppc64Form::Branch14,
            Ppc64Instruction::Branch24 => Ppc64Form::Branch24,
        }
    }

    /// A form, if the crate `linker-utils` has it.
    #[inline(always)]
    pub fn of(form: Ppc64Form) -> Option<Ppc64Instruction>
        ensures form { IfSome result (λ insn. ppc64_of insn ≡ form) }
        ensures known { is_some result ≡ is_upstream_form (forms.Ppc64 form) }
    {
        match form {
            Ppc64Form::D => Some(Ppc64Instruction::D),
            Ppc64Form::Ds => Some(Ppc64Instruction::Ds),
            Ppc64Form::Branch14 => Some(Ppc64Instruction::Branch14),
            Ppc64Form::Branch24 => Some(Ppc64Instruction::Branch24),
            Ppc64Form::Prefixed | Ppc64Form::DUnsigned => None,
        }
    }

    /// Writes a value into the instruction that `dest` begins with. Only the form's bits change.
    /// `negative` is ignored.
    #[inline(always)]
    pub fn write_to_value(self, extracted_value: u64, negative: bool, dest: &mut [u8])
        requires { byte_len (ppc64_instruction self).window ≤ length dest.old }
        ensures written { Written (ppc64_instruction self) extracted_value negative
            (window_of (ppc64_instruction self) dest.old)
            (window_of (ppc64_instruction self) dest.new) }
        ensures rest { drop (byte_len (ppc64_instruction self).window) dest.new
            ≡ drop (byte_len (ppc64_instruction self).window) dest.old }
        ensures machine { MachineReads (ppc64_instruction self) extracted_value negative
            (window_of (ppc64_instruction self) dest.old)
            (window_of (ppc64_instruction self) dest.new) }
        ensures restored { IsReadBack (ppc64_instruction self) extracted_value negative
            (window_of (ppc64_instruction self) dest.old)
            → dest.new ≡ dest.old }
    {
        self.form().write_to_value(extracted_value, negative, dest);
    }

    /// The value in the instruction that `bytes` begins with, unsigned: bits of the value that the
    /// form does not hold are 0. The flag is always false.
    #[inline]
    pub fn read_value(self, bytes: &[u8]) -> (u64, bool)
        requires { byte_len (ppc64_instruction self).window ≤ length bytes.now }
        ensures number { result.0 ≡ cast_unsigned w64
            ((ppc64_instruction self).reading (window_of (ppc64_instruction self) bytes.now)) }
        ensures flag { result.1
            ≡ (ppc64_instruction self).flag (window_of (ppc64_instruction self) bytes.now) }
    {
        self.form().read_value(bytes)
    }
}

impl InstructionForm for Ppc64Instruction {
    ghost form = { ppc64_instruction };

    ghost keeps = { λ insn. ppc64_keeps (ppc64_of insn) };

    ghost restores = { λ insn. ppc64_restored (ppc64_of insn) };

    #[inline]
    fn window(self) -> usize {
        self.form().window()
    }

    #[inline]
    fn fits(self, value: u64, bytes: &[u8]) -> bool {
        self.form().fits(value, bytes)
    }

    #[inline]
    fn write(self, value: u64, negative: bool, dest: &mut [u8]) {
        self.write_to_value(value, negative, dest);
    }

    #[inline]
    fn read(self, bytes: &[u8]) -> (u64, bool) {
        self.read_value(bytes)
    }
}
