//! Bits and bit ranges of a 64-bit number. Bit 0 is the least significant one.
ghost use Rattle.std.specs.Prelude.{◌≡◌, ℕ, ◌+◌, ◌-◌, ◌%◌, ◌^◌, ◌<◌, ◌≤◌};
ghost use Rattle.std.specs.Int.{bit_at, cast_unsigned, w64};
ghost use Rattle.linker_base.specs.Bits.{field, signed, TwosComplementKeepsFields};

use std::ops::Range;

/// A half-open bit range: bits `start` up to, and not including, `end`.
#[derive(Debug, Clone, Copy, PartialEq, Eq)]
pub struct BitRange {
    /// The first bit.
    pub start: u8,
    /// The first bit above the range.
    pub end: u8,
}

/// Reads bits of a 64-bit number. Positions and counts are in bits.
///
/// ```
/// use linker_utils::bit_misc::BitExtraction;
///
/// assert_eq!(0b1100_0000u64.extract_bit_range(3..8), 0b11000);
/// assert_eq!(0xffeu64.low_bits_signed(12), 2u64.wrapping_neg());
/// ```
pub trait BitExtraction {
    // the number whose bits are read
    ghost number: { Self → ℕ };

    /// The bit at `position`: 0 or 1.
    fn extract_bit(self, position: u32) -> u64
        requires { position < 64 }
        ensures { result ≡ bit_at (number self) position };

    /// Bits `range.start` up to, and not including, `range.end`, shifted down to bit 0.
    fn extract_bit_range(self, range: Range<u32>) -> u64
        requires not_empty { range.start < range.end }
        requires in_word { range.end ≤ 64 }
        ensures { result ≡ field (number self) range.start range.end };

    /// The lowest `num_bits` bits.
    fn low_bits(self, num_bits: u32) -> u64
        requires { num_bits < 64 }
        ensures { result ≡ number self % 2 ^ num_bits };

    /// The lowest `num_bits` bits in two's complement, modulo 2^64.
    fn low_bits_signed(self, num_bits: u32) -> u64
        requires not_empty { 0 < num_bits }
        requires in_word { num_bits < 64 }
        ensures { result ≡ cast_unsigned w64 (signed num_bits (number self % 2 ^ num_bits)) };

    /// If bit `sign_bit` is set, the number with every bit above it set too. If it is clear, the
    /// number itself, even if higher bits are set.
    fn sign_extend(self, sign_bit: u32) -> u64
        requires { sign_bit < 64 }
        ensures clear { bit_at (number self) sign_bit ≡ 0 → result ≡ number self }
        ensures set { bit_at (number self) sign_bit ≡ 1
            → result ≡ number self % 2 ^ (sign_bit + 1) + (2 ^ 64 - 2 ^ (sign_bit + 1)) };
}

impl BitExtraction for u64 {
    ghost number = { λ n. n };

    fn extract_bit(self, position: u32) -> u64 {
        (self >> position) & 1
    }

    #[tactic(auto, using(crate::proofs::Bits::high_mask_keeps))]
    fn extract_bit_range(self, range: Range<u32>) -> u64 {
        (self >> range.start) & (u64::MAX >> (64 - (range.end - range.start)))
    }

    #[tactic(auto, using(crate::proofs::Bits::low_mask_keeps))]
    fn low_bits(self, num_bits: u32) -> u64 {
        self & ((1 << num_bits) - 1)
    }

    fn low_bits_signed(self, num_bits: u32) -> u64 {
        self.low_bits(num_bits).sign_extend(num_bits - 1)
    }

    #[tactic(auto, using(crate::proofs::Bits::set_above, crate::proofs::Bits::tested_clear, crate::proofs::Bits::tested_set))]
    fn sign_extend(self, sign_bit: u32) -> u64 {
        if self & (1 << sign_bit) != 0 {
            self | (u64::MAX << sign_bit)
        } else {
            self
        }
    }
}

/// A law: the bits of a number's two's complement, as `extract_bit_range` reads them, are those of
/// the number.
#[tactic(auto, using(crate::proofs::TwosComplement::fields_kept))]
pub fn twos_complement_keeps_fields()
    ensures { TwosComplementKeepsFields }
{}
