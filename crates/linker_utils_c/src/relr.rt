//! The words of packed relative relocations.

ghost use Rattle.std.specs.Prelude.{◌≡◌};
ghost use Rattle.linker_utils_c.specs.Relr.{relr_status, needed_by, IsPackedReturned};
ghost use Rattle.linker_utils_c.specs.Relr.{AreReadReturned};
ghost use Rattle.linker_utils_c.specs.Status.{code};

use crate::status::Status;
use linker_output::relr::{RelrError, read_relr, write_relr};

/// The status of a call, which also writes how many words or addresses there are, or are needed.
fn status_of(written: Result<usize, RelrError>, needed: &mut usize) -> u32
    ensures status { result ≡ code (relr_status written) }
    ensures needed { needed.new ≡ needed_by written needed.old }
{
    match written {
        Ok(count) => {
            *needed = count;
            Status::Success as u32
        }
        Err(RelrError::Unaligned) => Status::UnalignedAddress as u32,
        Err(RelrError::NotAscending) => Status::NotAscending as u32,
        Err(RelrError::NoAddress) => Status::NoAddress as u32,
        Err(RelrError::Wraps) => Status::TooLarge as u32,
        Err(RelrError::TooShort(count)) => {
            *needed = count;
            Status::TooShort as u32
        }
    }
}

/// Writes the words that relocate addresses to the beginning of `words`, as `write_relr`, and how
/// many they are to `needed`, with `TooShort` too. The first that applies of `UnalignedAddress` and
/// `NotAscending`, of an address; `TooShort`. Then `words` are unchanged.
#[unsafe(no_mangle)]
pub extern "C" fn linker_utils_write_relr_nonnull(
    addresses: &[u64],
    words: &mut [u64],
    needed: &mut usize,
) -> u32
    ensures { IsPackedReturned addresses.now words.old words.new needed.old needed.new result }
{
    status_of(write_relr(addresses, words), needed)
}

/// Writes the addresses that words relocate to the beginning of `addresses`, as `read_relr`, and
/// how many they are to `needed`, with `TooShort` too, `usize::MAX` if those are more. The first
/// that applies of `NoAddress`; `UnalignedAddress` and `TooLarge`, of a word; `TooShort`. Then
/// `addresses` are unchanged.
#[unsafe(no_mangle)]
pub extern "C" fn linker_utils_read_relr_nonnull(
    words: &[u64],
    addresses: &mut [u64],
    needed: &mut usize,
) -> u32
    ensures { AreReadReturned words.now addresses.old addresses.new needed.old needed.new result }
{
    status_of(read_relr(words, addresses), needed)
}
