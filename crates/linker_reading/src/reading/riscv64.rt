//! What an instruction of RISC-V holds.

ghost use Rattle.std.specs.Prelude.{◌≡◌, ◌≤◌, length};
ghost use Rattle.std.specs.Int.{byte_len, cast_unsigned, w64};
ghost use Rattle.linker_base.specs.Form.{window_of};
ghost use Rattle.linker_elf.specs.RiscV.{riscv_form};
ghost use Rattle.linker_reading.specs.Reading.{number_held};

use linker_elf::elf::{AnyForm, InstructionForm, RiscVInstruction};

/// What an instruction holds, its value rounded.
#[inline(always)]
pub(super) fn number(insn: RiscVInstruction, bytes: &[u8]) -> u64
    requires { byte_len (riscv_form insn).window ≤ length bytes.now }
    ensures { result ≡ cast_unsigned w64
        (number_held (AnyForm.RiscV insn) (window_of (riscv_form insn) bytes.now)) }
{
    let (number, _) = insn.read(bytes);
    match insn {
        RiscVInstruction::UType => number.wrapping_add(0x800),
        RiscVInstruction::CluiType => number.wrapping_add(0x800),
        _ => number,
    }
}
