//! Little-endian words, byte masks, and readers of words, strings and ULEB128 numbers.
ghost use Rattle.std.specs.Prelude.{◌≡◌, ℕ, ◌<◌, ◌≤◌, ◌==◌, ◌⊎◌, List, length, drop, slice_index};
ghost use Rattle.std.specs.Prelude.{EachIndex, bit_and, bit_or, codes, Contains, IsErr, IfOk, OnOk};
ghost use Rattle.std.specs.Prelude.{IfErr, OnErr};
ghost use Rattle.std.specs.Int.{from_le_bytes, w32, w64};
ghost use Rattle.std.specs.Str.{encode_utf8_all};
ghost use Rattle.std.specs.String.{string_bytes};
ghost use Rattle.bstr.specs.Utf8.{lossy_chars};
ghost use Rattle.linker_base.specs.ErrorTexts.{FailsExactly};
ghost use Rattle.linker_base.specs.Text.{text_before_nul, after_nul};
ghost use Rattle.linker_base.specs.Uleb.{AllContinue, Uleb, UlebEnded, UlebTooLarge};
ghost use Rattle.linker_base.specs.Uleb.{HasOneReading, IsUlebWritten, IsUlebCause};

use anyhow::{Result, bail, ensure};
use bstr::ByteSlice;
use std::alloc::{AllocError, Global};

/// The first four bytes as a little-endian number.
#[inline]
pub fn u32_from_slice(bytes: &[u8]) -> u32
    requires { 4 ≤ length bytes.now }
    ensures { result ≡ from_le_bytes w32 bytes.now }
{
    // a copy of a known length is one load
    let mut word = [0u8; 4];
    word.copy_from_slice(&bytes[..4]);
    u32::from_le_bytes(word)
}

/// The first eight bytes as a little-endian number.
#[inline]
pub fn u64_from_slice(bytes: &[u8]) -> u64
    requires { 8 ≤ length bytes.now }
    ensures { result ≡ from_le_bytes w64 bytes.now }
{
    let mut word = [0u8; 8];
    word.copy_from_slice(&bytes[..8]);
    u64::from_le_bytes(word)
}

/// ORs the mask into the first bytes of `dest`. The following bytes are unchanged.
pub fn or_from_slice(dest: &mut [u8], mask_bytes: &[u8])
    requires { length mask_bytes.now ≤ length dest.old }
    ensures masked { EachIndex mask_bytes.now (λ k.
        slice_index dest.new k ≡ bit_or (slice_index dest.old k) (slice_index mask_bytes.now k)) }
    ensures rest { drop (length mask_bytes.now) dest.new ≡ drop (length mask_bytes.now) dest.old }
{
    for (i, mask) in mask_bytes.iter().enumerate() {
        dest[i] |= *mask;
    }
}

/// ANDs the mask into the first bytes of `dest`. The following bytes are unchanged.
pub fn and_from_slice(dest: &mut [u8], mask_bytes: &[u8])
    requires { length mask_bytes.now ≤ length dest.old }
    ensures masked { EachIndex mask_bytes.now (λ k.
        slice_index dest.new k ≡ bit_and (slice_index dest.old k) (slice_index mask_bytes.now k)) }
    ensures rest { drop (length mask_bytes.now) dest.new ≡ drop (length mask_bytes.now) dest.old }
{
    for (i, mask) in mask_bytes.iter().enumerate() {
        dest[i] &= *mask;
    }
}

/// Reads a little-endian number of four bytes, and advances the content past it.
///
/// # Errors
///
/// "Not enough bytes to read u32" with fewer than four bytes. The content is then unchanged.
#[inline]
pub fn read_u32(content: &mut &[u8]) -> Result<u32>
    ensures value { IfOk result (λ n. n ≡ from_le_bytes w32 content.old.now) }
    ensures rest { OnOk result (content.new.now ≡ drop 4 content.old.now) }
    ensures short { FailsExactly (codes "Not enough bytes to read u32")
        (length content.old.now < 4) result }
    ensures errors { OnErr result (length content.old.now < 4) }
    ensures unchanged { OnErr result (content.new.now ≡ content.old.now) }
{
    let bytes: &[u8] = *content;
    ensure!(bytes.len() >= 4, "Not enough bytes to read u32");
    *content = &bytes[4..];
    Ok(u32_from_slice(bytes))
}

/// Reads a NUL-terminated string, and advances the content past the NUL. Each sequence of bytes
/// that is not UTF-8 becomes U+FFFD.
///
/// # Errors
///
/// "No null terminator found in string", and "Out of memory". The content is then unchanged.
#[tactic(auto, using(crate::proofs::TextLemmas::first_nul, crate::proofs::TextLemmas::after_first_nul))]
pub fn read_string(alloc: Global, content: &mut &[u8]) -> Result<String>
    ensures text { IfOk result (λ text. string_bytes text ≡ text_before_nul content.old.now) }
    ensures rest { OnOk result (content.new.now ≡ after_nul content.old.now) }

    ensures no_nul { FailsExactly (codes "No null terminator found in string")
        (¬ Contains content.old.now 0) result }
    // with a NUL the only error is out of memory
    ensures memory { FailsExactly (codes "Out of memory")
        (Contains content.old.now 0 × IsErr result) result }
    ensures unchanged { OnErr result (content.new.now ≡ content.old.now) }
{
    let bytes: &[u8] = *content;
    let Some(end) = bytes.find_byte(0) else {
        bail!("No null terminator found in string");
    };
    let Ok(text) = lossy_text(alloc, &bytes[..end]) else {
        bail!("Out of memory");
    };
    *content = &bytes[end + 1..];
    Ok(text)
}

fn lossy_text(alloc: Global, bytes: &[u8]) -> Result<String, AllocError>
    ensures { IfOk result (λ text. string_bytes text ≡ encode_utf8_all (lossy_chars bytes.now)) }
{
    bytes.to_str_lossy(alloc)?.into_owned(alloc)
}

/// Reads a ULEB128 number, and advances the content past it. A number has at most ten bytes: seven
/// bits a byte, the lowest first, and each byte but the last is at least 0x80. The tenth is 0 or 1.
/// Padding zeros are accepted.
///
/// ```
/// let mut content: &[u8] = &[0xe5, 0x8e, 0x26, 0x07];
/// assert_eq!(linker_utils::utils::read_uleb128(&mut content).unwrap(), 624485);
/// assert_eq!(content, &[0x07]);
/// ```
///
/// # Errors
///
/// "Failed to read ULEB128 value: ended" if the content ends first, and ".. too large" if the tenth
/// byte is neither 0 nor 1. The content is then unchanged.
#[inline]
pub fn read_uleb128(content: &mut &[u8]) -> Result<u64>
    ensures number { IfOk result (λ n. Uleb content.old.now n content.new.now) }
    ensures accepted { (n : ℕ) (rest : List ℕ) → Uleb content.old.now n rest
        → (result ≡ Ok n) × (content.new.now ≡ rest) }

    ensures ended { FailsExactly (codes "Failed to read ULEB128 value: ended")
        (UlebEnded content.old.now) result }
    ensures too_large { FailsExactly (codes "Failed to read ULEB128 value: too large")
        (UlebTooLarge content.old.now) result }
    ensures errors { OnErr result (UlebEnded content.old.now ⊎ UlebTooLarge content.old.now) }
    ensures unchanged { OnErr result (content.new.now ≡ content.old.now) }
{
    let bytes: &[u8] = *content;
    let mut value = 0;
    for (i, byte) in bytes.iter().enumerate() {
        if i == 9 && *byte > 1 {
            bail!("Failed to read ULEB128 value: too large");
        }
        value |= u64::from(*byte & 0x7f) << (7 * i as u64);
        if *byte < 0x80 {
            *content = &bytes[i + 1..];
            return Ok(value);
        }
    }
    bail!("Failed to read ULEB128 value: ended");
}

/// Why a ULEB128 number isn't written.
#[derive(Clone, Copy, PartialEq, Eq)]
pub enum Uleb128Error {
    /// The bytes end before the existing number does.
    Ended,
    /// The tenth byte of the existing number is neither 0 nor 1.
    TooLarge,
    /// The value needs more bytes than the existing number has.
    DoesNotFit,
}

/// The index of the last byte of the ULEB128 number that bytes begin with.
fn last_of_uleb128(bytes: &[u8]) -> Result<usize, Uleb128Error>
    ensures there { IfOk result (λ last. last < length bytes.now) }
    ensures within_ten { IfOk result (λ last. last < 10) }
    ensures before { IfOk result (λ last. AllContinue last bytes.now) }
    ensures ends { IfOk result (λ last. slice_index bytes.now last < 0x80) }
    ensures tenth { IfOk result (λ last. last ≡ 9 → slice_index bytes.now last ≤ 1) }
    ensures err { IfErr result (λ error. IsUlebCause bytes.now 0 error) }
{
    for (i, byte) in bytes.iter().enumerate() {
        if i == 9 && *byte >= 2 {
            return Err(Uleb128Error::TooLarge);
        }
        if *byte < 0x80 {
            return Ok(i);
        }
    }
    Err(Uleb128Error::Ended)
}

/// Writes a value over the ULEB128 number that `dest` begins with, in as many bytes: all but the
/// last are at least 0x80, so that a smaller value is padded with zeros. `read_uleb128` then
/// returns the value; what follows is unchanged. Relocations of ULEB128 numbers are written like
/// this, since what follows the number can't move.
///
/// ```
/// let mut bytes = [0xe5, 0x8e, 0x26, 0x07];
/// linker_utils::utils::write_uleb128(&mut bytes, 5).unwrap();
/// assert_eq!(bytes, [0x85, 0x80, 0x00, 0x07]);
/// ```
///
/// # Errors
///
/// The first that applies of `Ended`, `TooLarge` and `DoesNotFit`. Nothing is written then.
pub fn write_uleb128(dest: &mut [u8], value: u64) -> Result<(), Uleb128Error>
    ensures ok { OnOk result (IsUlebWritten dest.old value dest.new) }
    ensures err { IfErr result (λ error. IsUlebCause dest.old value error × (dest.new ≡ dest.old)) }
{
    let last = last_of_uleb128(dest)?;
    if last < 9 && value >> (7 * last as u64 + 7) != 0 {
        return Err(Uleb128Error::DoesNotFit);
    }
    for i in 0..last {
        dest[i] = 0x80 | (value >> (7 * i as u64) & 0x7f) as u8;
    }
    dest[last] = (value >> (7 * last as u64)) as u8;
    Ok(())
}

/// Bytes begin with at most one ULEB128 number, and the rest after it is determined.
pub fn uleb128_has_one_reading()
    ensures { HasOneReading }
{}
