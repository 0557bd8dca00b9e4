//! What an instruction of AArch64 holds.

ghost use Rattle.std.specs.Prelude.{◌≡◌, ◌≤◌, length};
ghost use Rattle.std.specs.Int.{byte_len, cast_unsigned, w64};
ghost use Rattle.linker_base.specs.Form.{window_of};
ghost use Rattle.linker_elf.specs.AArch64.{aarch64_form};
ghost use Rattle.linker_reading.specs.Reading.{number_held};

use linker_base::bit_misc::BitExtraction;
use linker_elf::elf::{AArch64Instruction, AnyForm, InstructionForm};

/// What an instruction holds.
#[inline(always)]
pub(super) fn number(insn: AArch64Instruction, bytes: &[u8]) -> u64
    requires { byte_len (aarch64_form insn).window ≤ length bytes.now }
    ensures { result ≡ cast_unsigned w64
        (number_held (AnyForm.AArch64 insn)
        (window_of (aarch64_form insn) bytes.now)) }
{
    let (number, _) = insn.read(bytes);
    match insn {
        // the machine reads these without a sign
        AArch64Instruction::Movkz => number.low_bits(16),
        AArch64Instruction::LdSt => number.low_bits(12),
        _ => number,
    }
}
