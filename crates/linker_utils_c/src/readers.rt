//! Numbers that bytes begin with.

ghost use Rattle.std.specs.Prelude.{ℕ, List, ◌≤◌, ◌≡◌, ◌≢◌, ◌↔◌, ◌-◌, length, drop};
ghost use Rattle.std.specs.Int.{from_le_bytes, w32, w64};
ghost use Rattle.linker_base.specs.Uleb.{Uleb, UlebEnded, UlebTooLarge};
ghost use Rattle.linker_utils_c.specs.Status.{code, HasRoom};

use crate::status::Status;
use linker_utils::utils;

/// The little-endian number of the first four bytes, into `value`. The error is `TooShort`.
#[unsafe(no_mangle)]
pub extern "C" fn linker_utils_u32_from_slice_nonnull(bytes: &[u8], value: &mut u32) -> u32
    ensures room { HasRoom 4 bytes.now result }
    ensures number { result ≡ code Status.Success → value.new ≡ from_le_bytes w32 bytes.now }
    ensures unchanged { result ≢ code Status.Success → value.new ≡ value.old }
{
    if bytes.len() < 4 {
        return Status::TooShort as u32;
    }
    *value = utils::u32_from_slice(bytes);
    Status::Success as u32
}

/// The little-endian number of the first eight bytes, into `value`. The error is `TooShort`.
#[unsafe(no_mangle)]
pub extern "C" fn linker_utils_u64_from_slice_nonnull(bytes: &[u8], value: &mut u64) -> u32
    ensures room { HasRoom 8 bytes.now result }
    ensures number { result ≡ code Status.Success → value.new ≡ from_le_bytes w64 bytes.now }
    ensures unchanged { result ≢ code Status.Success → value.new ≡ value.old }
{
    if bytes.len() < 8 {
        return Status::TooShort as u32;
    }
    *value = utils::u64_from_slice(bytes);
    Status::Success as u32
}

/// The little-endian number of the first four bytes, into `value`, and how many bytes it took, into
/// `consumed`. The error is `TooShort`.
#[unsafe(no_mangle)]
pub extern "C" fn linker_utils_read_u32_nonnull(
    bytes: &[u8],
    value: &mut u32,
    consumed: &mut usize,
) -> u32
    ensures room { HasRoom 4 bytes.now result }
    ensures number { result ≡ code Status.Success → value.new ≡ from_le_bytes w32 bytes.now }
    ensures taken { result ≡ code Status.Success → consumed.new ≡ 4 }
    ensures value_stays { result ≢ code Status.Success → value.new ≡ value.old }
    ensures count_stays { result ≢ code Status.Success → consumed.new ≡ consumed.old }
{
    let mut content: &[u8] = bytes;
    match utils::read_u32(&mut content) {
        Ok(number) => {
            *value = number;
            *consumed = bytes.len() - content.len();
            Status::Success as u32
        }
        Err(_) => Status::TooShort as u32,
    }
}

/// The ULEB128 number that the bytes begin with, into `value`, and how many bytes it took, into
/// `consumed`. The errors are `Uleb128Ended` and `Uleb128TooLarge`.
#[unsafe(no_mangle)]
pub extern "C" fn linker_utils_read_uleb128_nonnull(
    bytes: &[u8],
    value: &mut u64,
    consumed: &mut usize,
) -> u32
    ensures number { result ≡ code Status.Success
        → Uleb bytes.now value.new (drop consumed.new bytes.now) }
    ensures taken { result ≡ code Status.Success → consumed.new ≤ length bytes.now }
    ensures accepted { (n : ℕ) (rest : List ℕ) → Uleb bytes.now n rest
        → (result ≡ code Status.Success) × (value.new ≡ n) × (drop consumed.new bytes.now ≡ rest) }
    ensures ended { (result ≡ code Status.Uleb128Ended) ↔ UlebEnded bytes.now }
    ensures too_large { (result ≡ code Status.Uleb128TooLarge) ↔ UlebTooLarge bytes.now }
    ensures value_stays { result ≢ code Status.Success → value.new ≡ value.old }
    ensures count_stays { result ≢ code Status.Success → consumed.new ≡ consumed.old }
{
    let mut content: &[u8] = bytes;
    match utils::read_uleb128(&mut content) {
        Ok(number) => {
            *value = number;
            *consumed = bytes.len() - content.len();
            Status::Success as u32
        }
        Err(_) if bytes.len() < 10 => Status::Uleb128Ended as u32,
        Err(_) => Status::Uleb128TooLarge as u32,
    }
}
