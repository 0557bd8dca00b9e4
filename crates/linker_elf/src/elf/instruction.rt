//! What a form says of an instruction, for all architectures.

ghost use Rattle.std.specs.Prelude.{◌≡◌, ◌≤◌, length};
ghost use Rattle.std.specs.Int.{byte_len};
ghost use Rattle.linker_base.specs.Form.{window_of};
ghost use Rattle.linker_elf.specs.Elf.{relocation_form};
ghost use Rattle.linker_elf.specs.Entries.{is_branch_insn};
ghost use Rattle.linker_elf.specs.Forms.{instruction_mask, immediate_of};

use crate::elf::{AnyForm, InstructionForm, of_form};
use linker_base::bit_misc::BitRange;

impl AnyForm {
    /// The bits that a write of a row may change in the instruction that `bytes` begins with, where
    /// those of a range are taken.
    #[inline]
    pub fn field_mask(self, range: BitRange, bytes: &[u8]) -> u64
        requires { byte_len (relocation_form self).window ≤ length bytes.now }
        ensures { result
            ≡ instruction_mask self range (window_of (relocation_form self) bytes.now) }
    {
        match self {
            AnyForm::AArch64(insn) => insn.field_mask(),
            AnyForm::RiscV(insn) => insn.field_mask(),
            AnyForm::Ppc64(insn) => insn.field_mask(bytes),
            AnyForm::LoongArch64(insn) => insn.field_mask(range),
        }
    }

    /// Which bits of its number an instruction has.
    #[inline]
    pub fn value_bits(self) -> BitRange
        ensures { result ≡ immediate_of self }
    {
        of_form!(self, insn => insn.value_bits())
    }

    /// Whether the value goes into a branch.
    #[inline(always)]
    pub(crate) fn is_branch(self, range: BitRange) -> bool
        ensures { result ≡ is_branch_insn self range }
    {
        match self {
            AnyForm::AArch64(insn) => insn.is_branch(),
            AnyForm::RiscV(insn) => insn.is_branch(),
            AnyForm::Ppc64(insn) => insn.is_branch(),
            AnyForm::LoongArch64(insn) => insn.is_branch(range),
        }
    }
}
