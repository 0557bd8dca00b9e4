//! What an instruction of PowerPC64 holds.

ghost use Rattle.std.specs.Prelude.{◌≡◌, ◌≤◌, length};
ghost use Rattle.std.specs.Int.{byte_len, cast_unsigned, w64};
ghost use Rattle.linker_base.specs.Form.{window_of};
ghost use Rattle.linker_elf.specs.Ppc64.{ppc64_form};
ghost use Rattle.linker_elf.specs.Relocate.{ppc64_reads};

use linker_base::bit_misc::BitExtraction;
use linker_elf::elf::{InstructionForm, Ppc64Form};
use linker_elf::ppc64::DQ_UNIT;

/// What an instruction holds, in two's complement.
#[inline(always)]
pub(super) fn number(insn: Ppc64Form, bytes: &[u8]) -> u64
    requires { byte_len (ppc64_form insn).window ≤ length bytes.now }
    ensures { result ≡ cast_unsigned w64
        (ppc64_reads insn (window_of (ppc64_form insn) bytes.now)) }
{
    let (number, _) = insn.read(bytes);
    match insn {
        Ppc64Form::Ds => {
            if insn.is_dq_form(bytes) {
                (number - number % DQ_UNIT).low_bits_signed(16)
            } else {
                number.low_bits_signed(16)
            }
        }
        Ppc64Form::D => number.low_bits_signed(16),
        Ppc64Form::Branch14 => number.low_bits_signed(16),
        Ppc64Form::Branch24 => number.low_bits_signed(26),
        Ppc64Form::Prefixed => number.low_bits_signed(34),
        Ppc64Form::DUnsigned => number,
    }
}
