//! RISC-V: the rewrites of the crate `linker-utils`.

ghost use Rattle.std.specs.Prelude.{◌≡◌, ◌≢◌, ◌↔◌, IsTrue};
ghost use Rattle.linker_base.specs.Bits.{signed};
ghost use Rattle.linker_base.specs.Rewrite.{CanRewrite, rewritten, offset_after, addend_after};
ghost use Rattle.linker_elf.specs.Agrees.{RowFits};
ghost use Rattle.linker_elf.specs.Readings.{RowReadsNoOther};
ghost use Rattle.linker_elf.specs.RiscVRelocations.{clui_row};
ghost use Rattle.linker_utils.specs.RiscVRewrites.{riscv_rewrite_kind, riscv_rewrite};
ghost use Rattle.linker_utils.specs.RiscVRewrites.{riscv_modifier, hi20, lo12, IsSigned32};
ghost use Rattle.linker_utils.specs.RiscVRewrites.{FitsClui, HoldsHigh};
ghost use Rattle.linker_utils.specs.Upstream.{row_of};

use super::RewriteKind;
use crate::elf::{RelocationKindInfo, RelocationSize};
use crate::rewrite_rows::same_name;
use linker_base::bit_misc::BitExtraction;
use linker_base::relaxation::RelocationModifier;
use linker_elf::elf::{InstructionRewrite, RiscVInstruction};
use linker_elf::riscv64 as relocations;

/// A rewrite that the crate `linker-utils` 0.11.0 has too: the `RewriteKind` of the same name. No
/// variants are added, so that a match of all needs no last arm.
#[derive(Debug, Default, Clone, Copy, PartialEq, Eq)]
pub enum RelaxationKind {
    #[default]
    NoOp,
    ReplaceWithNop,
    CallToJal,
    Hi20ToCLui,
    Hi20Delete,
    Lo12Rs1ToZero,
}

impl RelaxationKind {
    /// The rewrite of the same name, of all that the library has.
    #[inline(always)]
    pub fn rewrite_kind(self) -> RewriteKind
        ensures { result ≡ riscv_rewrite_kind self }
    {
        same_name!(self => NoOp ReplaceWithNop CallToJal Hi20ToCLui Hi20Delete Lo12Rs1ToZero)
    }

    /// Rewrites the instruction at an offset of a section, as `RewriteKind::apply` says.
    #[inline(always)]
    pub fn apply(self, section_bytes: &mut [u8], offset_in_section: &mut u64, addend: &mut i64)
        requires { CanRewrite (riscv_rewrite (riscv_rewrite_kind self)) section_bytes.old
            offset_in_section.old }
        ensures bytes { section_bytes.new
            ≡ rewritten (riscv_rewrite (riscv_rewrite_kind self)) section_bytes.old
            offset_in_section.old }
        ensures offset { offset_in_section.new
            ≡ offset_after (riscv_rewrite (riscv_rewrite_kind self)) offset_in_section.old }
        ensures addend { addend.new
            ≡ addend_after (riscv_rewrite (riscv_rewrite_kind self)) addend.old }
    {
        self.rewrite_kind()
            .apply(section_bytes, offset_in_section, addend);
    }

    /// Whether `apply` may be called at an offset of a section.
    #[inline(always)]
    pub fn can_apply(self, section: &[u8], offset: u64) -> bool
        ensures { IsTrue result
            ↔ CanRewrite (riscv_rewrite (riscv_rewrite_kind self)) section.now offset }
    {
        self.rewrite_kind().can_apply(section, offset)
    }

    /// What happens to the next relocation.
    #[inline(always)]
    pub fn next_modifier(&self) -> RelocationModifier
        ensures { result ≡ riscv_modifier (riscv_rewrite_kind self.now) }
    {
        self.rewrite_kind().next_modifier()
    }

    /// Whether the high part of a value is 0: bits 12 to 31 of the value plus 0x800, modulo 2^64.
    /// If so, a value of 32 signed bits equals its signed low 12 bits, and `Hi20Delete` with
    /// `Lo12Rs1ToZero` computes it.
    #[inline]
    pub fn hi20_is_zero(value: u64) -> bool
        ensures exactly { IsTrue result ↔ (hi20 value ≡ 0) }
        ensures low { IsTrue result → IsSigned32 (signed 64 value) → signed 64 value ≡ lo12 value }
    {
        value.wrapping_add(0x800).extract_bit_range(12..32) == 0
    }

    /// Whether `c.lui` holds the high part of a value: the value plus 0x800, modulo 2^64 and read
    /// signed, divided by 4096 and rounded down, is from -32 to 31 and is not 0. If so, the
    /// immediate of `CluiType`, and also that of `UType`, makes the value with its signed low 12
    /// bits.
    #[inline]
    pub fn hi20_fits_clui(value: u64) -> bool
        ensures exactly { IsTrue result ↔ FitsClui value }
        ensures compressed { IsTrue result → HoldsHigh RiscVInstruction.CluiType value }
        ensures whole { IsTrue result → HoldsHigh RiscVInstruction.UType value }
    {
        // above the least such value, with the bit flipped that parts those below 0 from the others
        let flipped = value.wrapping_add(0x2_0800) ^ 0x2_0000;
        flipped.wrapping_sub(0x1000) < 0x3_f000
    }

    /// Whether a register can be the destination of `c.lui`: neither x0 nor x2, the stack pointer.
    #[inline]
    pub fn rd_valid_for_clui(rd: u32) -> bool
        ensures { IsTrue result ↔ ((rd ≢ 0) × (rd ≢ 2)) }
    {
        rd != 0 && rd != 2
    }

    /// What `R_RISCV_HI20` means once its `lui` has become a `c.lui` (`Hi20ToCLui`). Its range is
    /// wider than what `c.lui` holds: `hi20_fits_clui` is the test.
    #[inline]
    pub fn clui_rel_info() -> RelocationKindInfo
        ensures row { row_of result ≡ clui_row }
        ensures others { RowReadsNoOther (row_of result) }
        ensures fits { RowFits (row_of result) }
    {
        let row = relocations::clui_row().info();
        let bits = RelocationSize::bit_mask_riscv(0, 32, RiscVInstruction::CluiType);
        RelocationKindInfo::of_size(row, bits)
    }
}
