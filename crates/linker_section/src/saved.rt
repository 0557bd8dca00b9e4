//! Bytes of a section that are kept until all values are written, and put back otherwise.

ghost use Rattle.std.specs.Prelude.{◌≡◌, ◌≤◌, ◌<◌, ◌+◌, ◌/◌, List, ℕ, length, IfNone, IfSome, drop};
ghost use Rattle.std.specs.Int.{w64, from_le_bytes};
ghost use Rattle.linker_section.specs.Inner.Saved.{IsSavedAt, with_word, saved_place, Restores};

use crate::fields::ends_pair;
use crate::relocations::relocation_in;
use linker_base::utils::u64_from_slice;
use linker_elf::elf::{Architecture, Row};

/// The 8 bytes from an offset on as a word; none where there are fewer.
#[inline(always)]
pub(crate) fn whole_word_at(section: &[u8], offset: u64) -> Option<u64>
    ensures some { IfSome result (IsSavedAt offset section.now) }
    ensures word { IfSome result (λ word. word ≡ from_le_bytes w64 (drop offset section.now)) }
    ensures none { IfNone result (length section.now < offset + 8) }
{
    if section.len() as u64 <= offset {
        return None;
    }
    let rest = &section[offset as usize..];
    if rest.len() < 8 {
        None
    } else {
        Some(u64_from_slice(rest))
    }
}

/// The 8 bytes from an offset on, or fewer at the end of the section, as a word.
#[inline(always)]
pub(crate) fn word_at(section: &[u8], offset: u64) -> u64
    ensures { IsSavedAt offset section.now result }
{
    match whole_word_at(section, offset) {
        Some(word) => word,
        None => last_word_at(section, offset),
    }
}

/// The bytes from an offset on, of which there are fewer than 8, as a word.
fn last_word_at(section: &[u8], offset: u64) -> u64
    requires { length section.now < offset + 8 }
    ensures { IsSavedAt offset section.now result }
{
    if section.len() as u64 <= offset {
        return 0;
    }
    let rest = &section[offset as usize..];
    let mut word = [0u8; 8];
    word[..rest.len()].copy_from_slice(rest);
    u64::from_le_bytes(word)
}

/// Puts a word's bytes in place of those from an offset on.
fn put_word(word: u64, offset: u64, section: &mut [u8])
    ensures { section.new ≡ with_word offset word section.old }
{
    if (section.len() as u64) < offset {
        return;
    }
    let start = offset as usize;
    let len = (section.len() - start).min(8);
    section[start..start + len].copy_from_slice(&word.to_le_bytes()[..len]);
}

/// The offset from which the bytes of a relocation are kept, by its row and its offset.
fn saved_place(row: Option<Row>, offset: u64) -> u64
    ensures { result ≡ saved_place row offset }
{
    match row {
        Some(row) => {
            let info = row.info();
            if ends_pair(info.size, info.kind) {
                offset.wrapping_add(8)
            } else {
                offset
            }
        }
        None => offset,
    }
}

/// Puts the words back that were kept of the relocations below an index, the last first.
pub(crate) fn restore(
    architecture: Architecture,
    relocations: &[u8],
    count: usize,
    memory: &[u64],
    section: &mut [u8],
)
    requires within { count ≤ length relocations.now / 24 }
    requires kept { count ≤ length memory.now }
    ensures { (before : List ℕ)
        → Restores architecture relocations.now memory.now count section.old before
        → section.new ≡ before }
{
    let mut index = count;
    while index > 0 {
        index -= 1;
        let relocation = relocation_in(relocations, index);
        let place = saved_place(architecture.row(relocation.r_type), relocation.offset);
        put_word(memory[index], place, section);
    }
}
