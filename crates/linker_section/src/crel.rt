//! Compact relocations: sections of type `SHT_CREL` (0x40000014, generic ABI, "CREL relocation
//! format"), which clang writes with `-Wa,--crel`.
//!
//! A section begins with a ULEB128 number: its bits from bit 3 up count the relocations, bit 2 says
//! that they have addends, and bits 0 and 1 are the shift of offsets. Then each relocation has what
//! it adds to the one before it. Before the first one all is 0.
//!
//! The flags of a relocation are the lowest bits of its first byte, three with addends and two
//! without. Above them are the low bits of what the offset grows by, shifted right by the shift. If
//! bit 7 is set, a ULEB128 number has the bits from there on. Then come the SLEB128 numbers of the
//! symbol, the type and the addend whose flags, bits 0, 1 and 2, are set.

ghost use Rattle.std.specs.Prelude.{◌≡◌, ◌+◌, ◌<◌, ◌≤◌, ◌/◌, IfOk, IfErr, Ok, Err, ℕ, length};
ghost use Rattle.linker_section.specs.Relocations.{relocation_in};
ghost use Rattle.linker_section.specs.Crel.{number_at, delta_at, header_of, next_of, after};
ghost use Rattle.linker_section.specs.Crel.{relocation_of_place, ReadsCrel, RejectsCrel};

use crate::relocations::{RELA_LEN, Rela, relocations_len, set_relocation};

/// Why a section of compact relocations isn't read.
#[derive(Clone, Copy)]
pub enum CrelError {
    /// The section ends in the number at the offset, or there before all its relocations.
    CutOff(usize),
    /// The number at the offset has more than 64 bits or ten bytes.
    TooLarge(usize),
    /// The slice is too short. It has how many relocations there are.
    TooShort(usize),
}

/// What a section of compact relocations has.
#[derive(Clone, Copy)]
pub struct Crel {
    /// How many relocations.
    pub count: usize,
    /// Whether they have addends. Else an addend is in the bytes that its relocation is at, as with
    /// relocations of type `SHT_REL`.
    pub has_addends: bool,
}

/// A number of a section, modulo 2^64, and the offset after it.
#[derive(Clone, Copy)]
struct Number {
    value: u64,
    next: usize,
}

/// The LEB128 number at an offset. An error has the offset.
fn number_at(section: &[u8], at: usize, is_signed: bool) -> Result<Number, CrelError>
    requires { at ≤ length section.now }
    ensures is { result ≡ number_at is_signed section.now at }
    ensures within { IfOk result (λ number. number.next ≤ length section.now) }
{
    let bytes = &section[at..];
    let mut low: u64 = 0;
    for i in 0..9_usize {
        if i >= bytes.len() {
            return Err(CrelError::CutOff(at));
        }
        let byte = bytes[i];
        low |= u64::from(byte & 0x7f) << (7 * i as u64);
        if byte < 0x80 {
            let value = if is_signed && byte >= 0x40 {
                low.wrapping_sub(1 << (7 * i as u64 + 7))
            } else {
                low
            };
            return Ok(Number {
                value,
                next: at + i + 1,
            });
        }
    }
    if bytes.len() < 10 {
        return Err(CrelError::CutOff(at));
    }
    // bit 63, and above it the sign
    let last = bytes[9];
    let most = if is_signed { 0x7f } else { 1 };
    if last != 0 && last != most {
        return Err(CrelError::TooLarge(at));
    }
    Ok(Number {
        value: low | u64::from(last & 1) << 63,
        next: at + 10,
    })
}

/// The number at an offset, if there is one. Else it is 0.
fn delta_at(section: &[u8], at: usize, is_signed: bool, is_there: bool) -> Result<Number, CrelError>
    requires { at ≤ length section.now }
    ensures is { result ≡ delta_at is_signed is_there section.now at }
    ensures within { IfOk result (λ number. number.next ≤ length section.now) }
{
    if is_there {
        number_at(section, at, is_signed)
    } else {
        Ok(Number { value: 0, next: at })
    }
}

/// What a section's header says.
#[derive(Clone, Copy)]
struct Header {
    count: usize,
    has_addends: bool,
    /// What offsets are multiples of.
    scale: u64,
    /// The offset after the header.
    next: usize,
}

/// Reads a header.
fn header_of(section: &[u8]) -> Result<Header, CrelError>
    ensures is { result ≡ header_of section.now }
    ensures within { IfOk result (λ header. header.next ≤ length section.now) }
{
    let header = number_at(section, 0, false)?;
    let count = (header.value / 8) as usize;
    if count > section.len() - header.next {
        return Err(CrelError::CutOff(section.len()));
    }
    Ok(Header {
        count,
        has_addends: header.value / 4 % 2 == 1,
        scale: 1 << (header.value % 4),
        next: header.next,
    })
}

/// A relocation, its addend modulo 2^64, and the offset after it.
#[derive(Clone, Copy)]
struct Place {
    next: usize,
    offset: u64,
    r_type: u32,
    symbol: u32,
    addend: u64,
}

/// Reads the relocation after another one.
fn next_of(section: &[u8], header: &Header, prior: &Place) -> Result<Place, CrelError>
    requires { prior.now.next ≤ length section.now }
    ensures is { result ≡ next_of header.now section.now prior.now }
    ensures within { IfOk result (λ place. place.next ≤ length section.now) }
{
    if prior.next >= section.len() {
        return Err(CrelError::CutOff(prior.next));
    }
    let first = u64::from(section[prior.next]);
    let flags = if header.has_addends { 8 } else { 4 };
    let high = delta_at(section, prior.next + 1, false, first >= 128)?;
    let symbol = delta_at(section, high.next, true, first % 2 == 1)?;
    let r_type = delta_at(section, symbol.next, true, first / 2 % 2 == 1)?;
    let has_addend = header.has_addends && first / 4 % 2 == 1;
    let addend = delta_at(section, r_type.next, true, has_addend)?;
    let delta = high
        .value
        .wrapping_mul(128 / flags)
        .wrapping_add(first % 128 / flags);
    Ok(Place {
        next: addend.next,
        offset: prior.offset.wrapping_add(delta.wrapping_mul(header.scale)),
        r_type: prior.r_type.wrapping_add((r_type.value % (1 << 32)) as u32),
        symbol: prior.symbol.wrapping_add((symbol.value % (1 << 32)) as u32),
        addend: prior.addend.wrapping_add(addend.value),
    })
}

/// Reads all relocations, and writes as many as the slice has.
fn decode(section: &[u8], header: &Header, relocations: &mut [u8]) -> Result<(), CrelError>
    requires { header.now.next ≤ length section.now }
    ensures ok { IfOk result (λ _. (k : ℕ) → k < header.now.count → (place : Place)
        × (after (k + 1) header.now section.now ≡ Ok place)
        × (k < length relocations.old / 24
        → relocation_in relocations.new k ≡ relocation_of_place place)) }
    ensures err { IfErr result (λ error.
        after header.now.count header.now section.now ≡ Err error) }
    ensures same_length { length relocations.new ≡ length relocations.old }
{
    let mut place = Place {
        next: header.next,
        offset: 0,
        r_type: 0,
        symbol: 0,
        addend: 0,
    };
    for index in 0..header.count {
        place = next_of(section, header, &place)?;
        if index < relocations_len(relocations) {
            let relocation = Rela {
                offset: place.offset,
                r_type: place.r_type,
                symbol: place.symbol,
                addend: place.addend.cast_signed(),
            };
            set_relocation(relocations, index, &relocation);
        }
    }
    Ok(())
}

/// Writes the relocations of a section of type `SHT_CREL` to the beginning of a slice, each in the
/// 24 bytes of an `Elf64_Rela`, as other calls read them. Bytes after those are left, and with an
/// error all are. Without addends each is 0. Bytes after the last relocation count for nothing.
///
/// First come `CutOff` and `TooLarge` of the header; `CutOff` is also of one that counts more
/// relocations than bytes follow, at the section's end. Then `TooShort`, which has how many
/// relocations there are: with an empty slice the call counts them, and reads the header only.
/// Then `CutOff` and `TooLarge` of the first relocation that isn't well-formed.
///
/// ```
/// use linker_section::crel::{CrelError, read_crel};
/// use linker_section::relocations::relocation_at;
///
/// // R_X86_64_PC32 at 0x10, of symbol 5, with the addend -4, and again at 0x18
/// let section = [0x17, 0x17, 0x05, 0x02, 0x7c, 0x08];
/// assert!(matches!(read_crel(&section, &mut []), Err(CrelError::TooShort(2))));
/// let mut relocations = [0; 48];
/// let crel = read_crel(&section, &mut relocations)?;
/// assert!(crel.count == 2 && crel.has_addends);
/// let last = relocation_at(&relocations, 1).unwrap();
/// assert_eq!((last.offset, last.r_type, last.symbol, last.addend), (0x18, 2, 5, -4));
/// # Ok::<(), CrelError>(())
/// ```
pub fn read_crel(section: &[u8], relocations: &mut [u8]) -> Result<Crel, CrelError>
    ensures ok { IfOk result (ReadsCrel section.now relocations.old relocations.new) }
    ensures err { IfErr result (RejectsCrel section.now (length relocations.old)) }
    ensures unchanged { IfErr result (λ _. relocations.new ≡ relocations.old) }
{
    let header = header_of(section)?;
    if relocations_len(relocations) < header.count {
        return Err(CrelError::TooShort(header.count));
    }
    decode(section, &header, &mut [])?;
    decode(
        section,
        &header,
        &mut relocations[..header.count * RELA_LEN],
    )?;
    Ok(Crel {
        count: header.count,
        has_addends: header.has_addends,
    })
}
