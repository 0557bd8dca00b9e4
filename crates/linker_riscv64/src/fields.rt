//! RISC-V: the fields of an instruction of four bytes, as its base formats have them (RISC-V
//! unprivileged ISA, "Base Instruction Formats").
//!
//! ```
//! use linker_utils::riscv64::fields::{base, destination, function, opcode, source};
//!
//! let ld = 0x0085b503; // ld a0, 8(a1)
//! assert_eq!((opcode(ld), function(ld), destination(ld), base(ld)), (0x03, 3, 10, 11));
//! let sd = 0x00a5b423; // sd a0, 8(a1)
//! assert_eq!((opcode(sd), function(sd), source(sd), base(sd)), (0x23, 3, 10, 11));
//! ```

ghost use Rattle.std.specs.Prelude.{◌≡◌, ◌≤◌, ◌+◌, length};
ghost use Rattle.linker_riscv64.specs.RiscVCalls.{word_at};
ghost use Rattle.linker_riscv64.specs.RiscVFields.{opcode_of, funct3_of, rd_of, rs1_of, rs2_of};
ghost use Rattle.linker_riscv64.specs.RiscVFields.{stores_base};

use linker_base::utils::u32_from_slice;

/// The instruction at an offset of a section. Requires its four bytes in the section.
#[inline(always)]
pub fn word_at(section: &[u8], offset: u64) -> u32
    requires { offset + 4 ≤ length section.now }
    ensures { result ≡ word_at section.now offset }
{
    u32_from_slice(&section[offset as usize..])
}

/// The opcode: bits 0 to 6.
#[inline(always)]
pub fn opcode(word: u32) -> u32
    ensures { result ≡ opcode_of word }
{
    word % 0x80
}

/// The register that an instruction of the formats R, I, U and J writes, rd: bits 7 to 11. Those of
/// the formats S and B have bits of their immediate there.
#[inline(always)]
pub fn destination(word: u32) -> u32
    ensures { result ≡ rd_of word }
{
    (word >> 7) % 0x20
}

/// The function of an instruction of the formats R, I, S and B, funct3: bits 12 to 14.
#[inline(always)]
pub fn function(word: u32) -> u32
    ensures { result ≡ funct3_of word }
{
    (word >> 12) % 8
}

/// The first register that an instruction of the formats R, I, S and B reads, rs1: bits 15 to 19.
/// It is the base of loads, of stores and of `jalr`.
#[inline(always)]
pub fn base(word: u32) -> u32
    ensures { result ≡ rs1_of word }
{
    (word >> 15) % 0x20
}

/// The second register that an instruction of the formats R, S and B reads, rs2: bits 20 to 24. It
/// is the one that a store stores.
#[inline(always)]
pub fn source(word: u32) -> u32
    ensures { result ≡ rs2_of word }
{
    (word >> 20) % 0x20
}

/// Whether an instruction is a store of the register that is its base: `sb`, `sh`, `sw` or `sd`.
#[inline(always)]
pub fn stores_base(word: u32) -> bool
    ensures { result ≡ stores_base word }
{
    opcode(word) == 0x23 && source(word) == base(word)
}
