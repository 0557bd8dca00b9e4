//! Packed relative relocations: the words of a section of type `SHT_RELR` (generic ABI), each of 8
//! bytes. The dynamic linker adds the load address to the word of 8 bytes at each address that they
//! relocate.
//!
//! An even word is an address. An odd word is a bitmap of the 63 words of 8 bytes that begin 8
//! bytes above the address before it, or after those of the bitmap before it; bit 1 is that of the
//! first.

ghost use Rattle.std.specs.Prelude.{◌≡◌, ◌≤◌, ◌+◌, ◌*◌, ◌^◌, true, false, Some, None, IfOk, IfErr};
ghost use Rattle.std.specs.Prelude.{set, length};
ghost use Rattle.linker_output.specs.Relr.{marked, relocated, are_addresses, relr_fault};
ghost use Rattle.linker_output.specs.Relr.{Unpacks, RejectsWords, address_fault, WritesPacked};
ghost use Rattle.linker_output.specs.Relr.{RejectsAddresses};
ghost use Rattle.linker_output.specs.Inner.Relr.{words_of, put_all, capped};

/// Why addresses aren't packed, or words aren't read.
#[derive(Clone, Copy)]
pub enum RelrError {
    /// An address isn't a multiple of 8.
    Unaligned,
    /// An address isn't above the one before it. Of `write_relr` only.
    NotAscending,
    /// The first word is a bitmap, so that no address is before it. Of `read_relr` only.
    NoAddress,
    /// A bitmap has the bit of an address of 2^64 or more. Of `read_relr` only.
    Wraps,
    /// The slice is too short. It has how many words are needed, or how many addresses, which is
    /// `usize::MAX` if those are more.
    TooShort(usize),
}

/// Writes a number at an index, if the slice has it, and returns the next index.
#[inline]
fn put(numbers: &mut [u64], index: usize, number: u64) -> usize
    ensures written { numbers.new ≡ set numbers.old index number }
    ensures next { result ≡ capped (index + 1) }
{
    if index < numbers.len() {
        numbers[index] = number;
    }
    index.saturating_add(1)
}

/// Writes as many words as the slice has, and returns how many are needed.
fn encode(addresses: &[u64], words: &mut [u64]) -> Result<usize, RelrError>
    ensures ok { IfOk result (λ needed. (address_fault 0 addresses.now ≡ None)
        × (needed ≡ capped (length (words_of addresses.now)))
        × (words.new ≡ put_all 0 (words_of addresses.now) words.old)) }
    ensures err { IfErr result (λ error. address_fault 0 addresses.now ≡ Some error) }
{
    let Some((first, others)) = addresses.split_first() else {
        return Ok(0);
    };
    if *first % 8 != 0 {
        return Err(RelrError::Unaligned);
    }
    let mut last = *first;
    // bit n of the bitmap is that of the address 8 * n above the base; bit 0 makes it a bitmap
    let mut base = *first;
    let mut bitmap: u64 = 1;
    let mut count = put(words, 0, *first);
    for address in others {
        let address = *address;
        if address % 8 != 0 {
            return Err(RelrError::Unaligned);
        }
        if address <= last {
            return Err(RelrError::NotAscending);
        }
        last = address;
        if bitmap != 1 && address - base >= 64 * 8 {
            count = put(words, count, bitmap);
            base += 63 * 8;
            bitmap = 1;
        }
        let distance = (address - base) / 8;
        if distance < 64 {
            bitmap |= 1 << distance;
        } else {
            count = put(words, count, address);
            base = address;
        }
    }
    if bitmap != 1 {
        count = put(words, count, bitmap);
    }
    Ok(count)
}

/// Writes the words that relocate these addresses to the beginning of a slice, and returns how many
/// they are: no fewer words relocate the same addresses. Words after those are left, and with an
/// error all are.
///
/// The addresses ascend, and each is a multiple of 8. `Unaligned` and `NotAscending` are of the
/// first address that isn't so. `TooShort` has how many words are needed: with an empty slice the
/// call counts them.
///
/// ```
/// use linker_output::relr::write_relr;
///
/// let mut words = [0; 3];
/// let used = write_relr(&[0x1_0000, 0x1_0008, 0x1_0018, 0x2_0000], &mut words)?;
/// // bits 1 and 3 are those of 0x10008 and 0x10018
/// assert_eq!(words[..used], [0x1_0000, 0b1011, 0x2_0000]);
/// # Ok::<(), linker_output::relr::RelrError>(())
/// ```
pub fn write_relr(addresses: &[u64], words: &mut [u64]) -> Result<usize, RelrError>
    ensures ok { IfOk result (WritesPacked addresses.now words.old words.new) }
    ensures err { IfErr result (RejectsAddresses addresses.now (length words.old)) }
    ensures unchanged { IfErr result (λ _. words.new ≡ words.old) }
{
    let needed = encode(addresses, &mut [])?;
    if words.len() < needed {
        return Err(RelrError::TooShort(needed));
    }
    encode(addresses, words)
}

/// Writes the addresses of a bitmap, as many as the slice has from an index on, and returns the
/// next index.
fn put_marked(
    base: u128,
    bitmap: u64,
    addresses: &mut [u64],
    index: usize,
) -> Result<usize, RelrError>
    requires { base ≤ 2 ^ 64 + 504 * 2 ^ 64 }
    ensures ok { IfOk result (λ next. (are_addresses (marked 63 base bitmap) ≡ true)
        × (next ≡ capped (index + length (marked 63 base bitmap)))
        × (addresses.new ≡ put_all index (marked 63 base bitmap) addresses.old)) }
    ensures err { IfErr result (λ error. (error ≡ RelrError.Wraps)
        × (are_addresses (marked 63 base bitmap) ≡ false)) }
{
    let mut next = index;
    for bit in 0..63_u32 {
        if (bitmap >> (bit + 1)) & 1 == 1 {
            let address = base + 8 * u128::from(bit);
            if address >= 1 << 64 {
                return Err(RelrError::Wraps);
            }
            next = put(addresses, next, address as u64);
        }
    }
    Ok(next)
}

/// Writes as many addresses as the slice has, and returns how many the words relocate.
fn decode(words: &[u64], addresses: &mut [u64]) -> Result<usize, RelrError>
    ensures ok { IfOk result (λ needed. (relr_fault words.now ≡ None)
        × (needed ≡ capped (length (relocated 0 words.now)))
        × (addresses.new ≡ put_all 0 (relocated 0 words.now) addresses.old)) }
    ensures err { IfErr result (λ error. relr_fault words.now ≡ Some error) }
{
    if let Some(first) = words.first() {
        if *first % 2 != 0 {
            return Err(RelrError::NoAddress);
        }
    }
    let mut base: u128 = 0;
    let mut count = 0;
    for word in words {
        let word = *word;
        if word % 2 == 0 {
            if word % 8 != 0 {
                return Err(RelrError::Unaligned);
            }
            count = put(addresses, count, word);
            base = u128::from(word) + 8;
        } else {
            count = put_marked(base, word, addresses, count)?;
            base += 63 * 8;
        }
    }
    Ok(count)
}

/// Writes the addresses that words relocate to the beginning of a slice, in their order, and
/// returns how many they are. Addresses after those are left, and with an error all are.
///
/// `NoAddress`, `Unaligned` and `Wraps` are of the first word that isn't well-formed. `TooShort`
/// has how many addresses there are: with an empty slice the call counts them.
///
/// ```
/// use linker_output::relr::read_relr;
///
/// let mut addresses = [0; 4];
/// let count = read_relr(&[0x1_0000, 0b1011, 0x2_0000], &mut addresses)?;
/// assert_eq!(addresses[..count], [0x1_0000, 0x1_0008, 0x1_0018, 0x2_0000]);
/// # Ok::<(), linker_output::relr::RelrError>(())
/// ```
pub fn read_relr(words: &[u64], addresses: &mut [u64]) -> Result<usize, RelrError>
    ensures ok { IfOk result (Unpacks words.now addresses.old addresses.new) }
    ensures err { IfErr result (RejectsWords words.now (length addresses.old)) }
    ensures unchanged { IfErr result (λ _. addresses.new ≡ addresses.old) }
{
    let needed = decode(words, &mut [])?;
    if addresses.len() < needed {
        return Err(RelrError::TooShort(needed));
    }
    decode(words, addresses)
}
