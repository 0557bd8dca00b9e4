//! Known bits of a number: of a relocation's value, or of an address.

ghost use Rattle.std.specs.Prelude.{◌≡◌, ◌<◌, ◌^◌, ◌↔◌, ℕ, IfSome, IsTrue};
ghost use Rattle.linker_base.specs.Bits.{field};
ghost use Rattle.linker_reading.specs.Fields.{FieldHolds, IsProper, whole_number};

use linker_base::bit_misc::BitRange;

/// Some bits of a number of 64 bits, a relocation's value or an address.
#[derive(Clone, Copy)]
pub struct FieldValue {
    /// Which bits of the sum of the number and `rounding` are known. Bit 0 is the lowest.
    pub known: BitRange,
    /// Those bits, the first of them at bit 0.
    pub bits: u64,
    /// What was added to the number, modulo 2^64, before its bits were taken.
    pub rounding: u64,
}

/// Bits `start` and up, below `end`, of a number of 64 bits; 0 where there are none.
#[inline(always)]
pub(crate) fn bits_of(number: u64, start: u8, end: u8) -> u64
    ensures { result ≡ field number start end }
{
    if start >= end {
        return 0;
    }
    if start > 63 {
        return 0;
    }
    let above = number >> start;
    if end > 63 {
        above
    } else {
        above % (1 << (end - start))
    }
}

/// 2 to a power.
#[inline(always)]
pub(crate) fn power_of_two(exponent: u8) -> u64
    requires { exponent < 64 }
    ensures { result ≡ 2 ^ exponent }
{
    1 << exponent
}

impl FieldValue {
    /// Whether some bits are known, none above bit 63, and `bits` has no others. What `read`,
    /// `solve` and `join` return is so, and the latter two require it.
    pub fn is_proper(&self) -> bool
        ensures { IsTrue result ↔ IsProper self.now }
    {
        if self.known.start >= self.known.end || self.known.end > 64 {
            return false;
        }
        let (bits, count) = (self.bits, self.known.end - self.known.start);
        count == 64 || bits < power_of_two(count)
    }

    /// Whether a number has the known bits. Of a value, its 64 bits in two's complement are meant.
    pub fn is_of(&self, number: u64) -> bool
        ensures { IsTrue result ↔ FieldHolds self.now number }
    {
        let sum = number.wrapping_add(self.rounding);
        bits_of(sum, self.known.start, self.known.end) == self.bits
    }

    /// The number, if all of its bits are known. `None` where some are not, or none is.
    pub fn number(&self) -> Option<u64>
        ensures value { result ≡ whole_number self.now }
        ensures known { (n : ℕ) → n < 2 ^ 64 → FieldHolds self.now n → IfSome result (λ m. m ≡ n) }
    {
        if self.known.start == 0 && self.known.end == 64 {
            Some(self.bits.wrapping_sub(self.rounding))
        } else {
            None
        }
    }
}
