//! Sequences of instructions that load a number or make an address.

ghost use Rattle.std.specs.Prelude.{◌≡◌, ◌≢◌, ◌<◌, ◌≤◌, ◌++◌, ◌⊎◌, Some, length, drop};
ghost use Rattle.std.specs.Int.{from_le_bytes, w32};
ghost use Rattle.linker_utils.specs.AArch64Rewrites.{mov_words, mov4};
ghost use Rattle.linker_elf.specs.LoongArch.{MakesAddress, high_distance};
ghost use Rattle.linker_elf.specs.Ppc64.{PairHolds, KeepsHigh};
ghost use Rattle.linker_utils_c.specs.Status.{code, HasRoom};

use crate::status::Status;
use linker_utils::{aarch64, loongarch64, ppc64};

/// AArch64: writes the four instructions that load a number into register `rd`. The error is the
/// first that applies of `TooShort` with fewer than 16 bytes, and `BadRegister` for one above 30.
#[unsafe(no_mangle)]
pub extern "C" fn linker_utils_write_mov_sequence_nonnull(
    dest: &mut [u8],
    rd: u32,
    value: u64,
) -> u32
    ensures short { length dest.old < 16 → result ≡ code Status.TooShort }
    ensures bad_register { 16 ≤ length dest.old → 30 < rd → result ≡ code Status.BadRegister }
    ensures written { 16 ≤ length dest.old → rd ≤ 30
        → (result ≡ code Status.Success) × (dest.new ≡ mov_words rd value ++ drop 16 dest.old) }
    ensures loads { result ≡ code Status.Success → mov4 rd dest.new ≡ Some value }
    ensures unchanged { result ≢ code Status.Success → dest.new ≡ dest.old }
{
    if dest.len() < 16 {
        return Status::TooShort as u32;
    }
    if rd > 30 {
        return Status::BadRegister as u32;
    }
    aarch64::write_mov_sequence(dest, rd, value);
    Status::Success as u32
}

/// LoongArch: makes the five instructions compute the address `target`, with the first at
/// `pc`. The error is `TooShort` with fewer than 20 bytes.
#[unsafe(no_mangle)]
pub extern "C" fn linker_utils_write_address_sequence_nonnull(
    dest: &mut [u8],
    pc: u64,
    target: u64,
) -> u32
    ensures room { HasRoom 20 dest.old result }
    ensures makes { result ≡ code Status.Success → MakesAddress dest.old dest.new pc target }
    ensures unchanged { result ≢ code Status.Success → dest.new ≡ dest.old }
{
    if dest.len() < 20 {
        return Status::TooShort as u32;
    }
    loongarch64::write_address_sequence(dest, pc, target);
    Status::Success as u32
}

/// LoongArch: the number whose bits 32 to 51 and 52 to 63 complete the address `s`, relative to
/// `pc`.
#[unsafe(no_mangle)]
pub extern "C" fn linker_utils_highest_relocation_with_bias(s: u64, pc: u64) -> u64
    ensures { result ≡ high_distance s pc }
{
    loongarch64::highest_relocation_with_bias(s, pc)
}

/// PowerPC64: writes a value into a pair of D-form instructions, its adjusted high half into `ha`
/// and its low half into `lo`. The error is `TooShort` where one has fewer than 4 bytes.
#[unsafe(no_mangle)]
pub extern "C" fn linker_utils_write_ha_lo_nonnull(ha: &mut [u8], lo: &mut [u8], value: u64) -> u32
    ensures short { (length ha.old < 4) ⊎ (length lo.old < 4) → result ≡ code Status.TooShort }
    ensures room { 4 ≤ length ha.old → 4 ≤ length lo.old → result ≡ code Status.Success }
    ensures pair { result ≡ code Status.Success
        → PairHolds (from_le_bytes w32 ha.new) (from_le_bytes w32 lo.new) value }
    ensures ha_kept { result ≡ code Status.Success → KeepsHigh ha.old ha.new }
    ensures lo_kept { result ≡ code Status.Success → KeepsHigh lo.old lo.new }
    ensures ha_unchanged { result ≢ code Status.Success → ha.new ≡ ha.old }
    ensures lo_unchanged { result ≢ code Status.Success → lo.new ≡ lo.old }
{
    if ha.len() < 4 || lo.len() < 4 {
        return Status::TooShort as u32;
    }
    ppc64::write_ha_lo(ha, lo, value);
    Status::Success as u32
}
