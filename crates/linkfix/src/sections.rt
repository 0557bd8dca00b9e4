//! Sections as lines of hexadecimal digits.
ghost use Rattle.std.specs.Prelude.{◌≡◌, ◌%◌, length, IfOk};
ghost use Rattle.std.specs.String.{string_bytes};
ghost use Rattle.hex.specs.Hex.{encode_lower};
ghost use Rattle.linkfix.specs.DecodedHex.{decoded_hex};

use hex::FromHexError;
use std::alloc::{AllocError, Global};

/// An error of `read_section`.
#[derive(Debug, Clone, Copy, PartialEq, Eq)]
pub enum LineFault {
    /// The line is not an even number of hexadecimal digits.
    BadSection,
    /// Out of memory for the bytes.
    OutOfMemory,
}

/// Decodes a line of hexadecimal digits of either case: two digits a byte, the upper four bits
/// first. An empty line gives no bytes.
///
/// # Errors
///
/// `BadSection` if the length is odd or a byte of the line is no hexadecimal digit; `OutOfMemory`.
pub fn read_section(alloc: Global, line: &[u8]) -> Result<Vec<u8>, LineFault>
    ensures ok { IfOk result (λ section. decoded_hex line.now ≡ Some section.items) }
    ensures bad { result ≡ Err LineFault.BadSection → decoded_hex line.now ≡ None }
    ensures odd { length line.now % 2 ≡ 1 → result ≡ Err LineFault.BadSection }
{
    match hex::decode(alloc, line) {
        Ok(section) => Ok(section),
        Err(FromHexError::OutOfMemory) => Err(LineFault::OutOfMemory),
        Err(_) => Err(LineFault::BadSection),
    }
}

/// Encodes the bytes of a section as hexadecimal digits in lower case: two digits a byte, the upper
/// four bits first.
///
/// # Errors
///
/// Out of memory.
pub fn show_section(alloc: Global, section: &[u8]) -> Result<String, AllocError>
    ensures lower_case { IfOk result (λ text. string_bytes text ≡ encode_lower section.now) }
    ensures read_back { IfOk result (λ text. decoded_hex (string_bytes text) ≡ Some section.now) }
{
    hex::encode(alloc, section)
}
