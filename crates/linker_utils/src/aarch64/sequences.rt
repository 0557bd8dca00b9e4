//! Moves that load a number of 64 bits.

ghost use Rattle.std.specs.Prelude.{◌++◌, Some, ◌≡◌, ◌≤◌, ◌<◌, ◌+◌};
ghost use Rattle.std.specs.Prelude.{length, take, drop};
ghost use Rattle.std.specs.Int.{w32, to_le_bytes};
ghost use Rattle.linker_utils.specs.AArch64Rewrites.{mov_word, mov_words, mov4};

use linker_base::bit_misc::BitExtraction;
use linker_base::rewrite::overwrite;

/// Writes an instruction at an offset of a section.
#[inline(always)]
fn put_word(section: &mut [u8], offset: u64, word: u32)
    requires { offset + 4 ≤ length section.old }
    ensures { section.new
        ≡ take offset section.old ++ to_le_bytes w32 word ++ drop (offset + 4) section.old }
{
    overwrite(section, offset, &word.to_le_bytes());
}

/// A move of 16 bits into a register.
#[inline(always)]
fn mov(opcode: u32, rd: u32, bits: u64) -> u32
    requires opcode { opcode ≤ 0xf2e00000 }
    requires register { rd ≤ 30 }
    requires bits { bits < 65536 }
    ensures { result ≡ mov_word opcode rd bits }
{
    opcode + ((bits as u32) << 5) + rd
}

/// Writes the four instructions that load a number into register `rd`: `movz` of bits 0 to 15, and
/// `movk` of bits 16 to 31, 32 to 47 and 48 to 63 (DDI 0487, "MOVZ" and "MOVK"). Requires 16 bytes
/// and a register from 0 to 30. The following bytes are unchanged.
#[inline]
pub fn write_mov_sequence(dest: &mut [u8], rd: u32, value: u64)
    requires room { 16 ≤ length dest.old }
    requires register { rd ≤ 30 }
    ensures words { dest.new ≡ mov_words rd value ++ drop 16 dest.old }
    ensures loads { mov4 rd dest.new ≡ Some value }
{
    put_word(
        dest,
        0,
        mov(0xd280_0000, rd, value.extract_bit_range(0..16)),
    );
    put_word(
        dest,
        4,
        mov(0xf2a0_0000, rd, value.extract_bit_range(16..32)),
    );
    put_word(
        dest,
        8,
        mov(0xf2c0_0000, rd, value.extract_bit_range(32..48)),
    );
    put_word(
        dest,
        12,
        mov(0xf2e0_0000, rd, value.extract_bit_range(48..64)),
    );
}
