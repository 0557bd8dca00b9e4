//! The values of most relocations, by the facts of their rows.
//!
//! Few tests find them, so that a section's values take little more time than the formulas. Where
//! these return nothing, `value_of` says what the value is, and why there is none.

ghost use Rattle.std.specs.Prelude.{◌≡◌, ◌⊎◌, ◌<◌, ◌/◌, ◌&&◌, not, true, false, Some, IfSome};
ghost use Rattle.std.specs.Prelude.{length};
ghost use Rattle.linker_section.specs.Conditions.{needs_upper};
ghost use Rattle.linker_section.specs.Inner.Facts.{class_by, entry_by, is_high, is_plain};
ghost use Rattle.linker_section.specs.Inner.Facts.{is_offset_way, is_plain_way};
ghost use Rattle.linker_section.specs.Inner.Facts.{SaysBranch, SaysNeeds, SaysWay};
ghost use Rattle.linker_section.specs.Inner.Quick.{IsHighValue, IsPlainValue, IsQuickValue};
ghost use Rattle.linker_section.specs.Inner.Quick.{IsValueAt};
ghost use Rattle.linker_section.specs.Known.{known_operands};
ghost use Rattle.linker_section.specs.Needed.{entry_of};
ghost use Rattle.linker_section.specs.Relocations.{relocation_in};
ghost use Rattle.linker_section.specs.Values.{address_of, entry_address, is_of_got};
ghost use Rattle.linker_section.specs.Values.{operands_with, target_of};
ghost use Rattle.linker_elf.specs.Architectures.{IsRow};

use crate::conditions::{lacks_stub, needs_upper};
use crate::facts::{Addresses, Symbol};
use crate::needed::entry_by;
use crate::relocations::Rela;
use crate::symbols::{Known, Symbols};
use crate::values::{entry_address, is_of_got, local_entry, target_of};
use linker_elf::elf::{Architecture, EntryUse, Operands, Row, RowFacts, Way};

/// A high part of RISC-V, whose value low parts take.
#[derive(Clone, Copy)]
pub(crate) struct HighPart {
    /// Its offset.
    pub(crate) offset: u64,
    /// Its value.
    pub(crate) value: i64,
}

/// The address of a symbol's entry that a row requires. By itself, since most relocations have
/// none.
#[inline(never)]
fn address_of_entry(
    addresses: &Addresses,
    symbol: &Symbol,
    facts: &RowFacts,
    addend: i64,
) -> Option<u64>
    ensures { result ≡ entry_address addresses.now symbol.now
        (entry_by facts.now addend (class_by symbol.now.is_thread_local facts.now.entry)) }
{
    entry_address(
        addresses,
        symbol,
        entry_by(facts, addend, symbol.is_thread_local),
    )
}

/// The address of the entry that a relocation requires; 0 where it requires none.
#[inline(always)]
pub(crate) fn required_address(
    addresses: &Addresses,
    symbol: &Symbol,
    row: &Row,
    relocation: &Rela,
) -> Option<u64>
    requires { SaysNeeds row.now }
    ensures { result ≡ entry_address addresses.now symbol.now
        (entry_of row.now relocation.now.addend symbol.now.is_thread_local) }
{
    if matches!(row.facts().entry, EntryUse::Without) {
        Some(0)
    } else {
        address_of_entry(addresses, symbol, row.facts(), relocation.addend)
    }
}

/// A symbol's address, or where PowerPC64's branches go.
#[inline(always)]
fn own_address(architecture: Architecture, row: &Row, symbol: &Symbol) -> u64
    requires { SaysBranch architecture row.now }
    ensures { result ≡ address_of row.now symbol.now }
{
    if matches!(architecture, Architecture::Ppc64) && row.facts().is_branch {
        symbol.address.wrapping_add(local_entry(symbol.other))
    } else {
        symbol.address
    }
}

/// `target_of`, where a symbol has a stub or may be undefined. By itself, since most have none.
#[inline(never)]
fn other_target<K: Known>(
    architecture: Architecture,
    addresses: &Addresses,
    row: &Row,
    known: &K,
    place: u64,
) -> u64
    requires { SaysNeeds row.now }
    ensures { result ≡ target_of architecture addresses.now row.now (K.known known.now).symbol
        place }
{
    target_of(architecture, addresses, row, &known.symbol(), place)
}

/// The same of any symbol.
#[inline(always)]
fn quick_target<K: Known>(
    architecture: Architecture,
    addresses: &Addresses,
    row: &Row,
    known: &K,
    place: u64,
) -> u64
    requires needs { SaysNeeds row.now }
    requires branch { SaysBranch architecture row.now }
    ensures { result ≡ target_of architecture addresses.now row.now (K.known known.now).symbol
        place }
{
    let symbol = known.symbol();
    if symbol.stub != 0 || symbol.is_undefined_weak {
        other_target(architecture, addresses, row, known, place)
    } else {
        own_address(architecture, row, &symbol)
    }
}

/// The operands of a plain relocation's formula, with the address of the entry that it requires.
#[inline(always)]
fn plain_operands<K: Known>(
    architecture: Architecture,
    addresses: &Addresses,
    row: &Row,
    known: &K,
    relocation: &Rela,
    entry: u64,
) -> Operands
    requires needs { SaysNeeds row.now }
    requires way { SaysWay architecture row.now }
    requires plain { is_plain row.now ≡ true }
    requires symbol { is_of_got architecture relocation.now.r_type ≡ false }
    ensures { result ≡ operands_with architecture addresses.now row.now
        (K.known known.now).symbol relocation.now entry }
{
    let place = addresses.section.wrapping_add(relocation.offset);
    let target = quick_target(architecture, addresses, row, known, place);
    Operands {
        symbol: target,
        addend: relocation.addend,
        place,
        got_entry: entry,
        got_base: addresses.got_base,
        plt_entry: target,
        symbol_size: known.symbol().size,
        tls_base: addresses.module_origin,
        has_got_entry: true,
        has_plt_entry: true,
        has_tls_base: addresses.has_tls,
    }
}

/// The value of a plain relocation. None where its entry is missing or its formula has no value.
#[inline(always)]
fn plain_value<K: Known>(
    architecture: Architecture,
    addresses: &Addresses,
    row: &Row,
    relocation: &Rela,
    known: &K,
) -> Option<i64>
    requires needs { SaysNeeds row.now }
    requires way { SaysWay architecture row.now }
    requires plain { is_plain row.now ≡ true }
    requires symbol { is_of_got architecture relocation.now.r_type ≡ false }
    ensures { IfSome result (IsPlainValue (known_operands architecture addresses.now row.now
        relocation.now (Some (K.known known.now))) row.now) }
{
    let Some(entry) = known.entry(addresses, row, relocation) else {
        return None;
    };
    let operands = plain_operands(architecture, addresses, row, known, relocation, entry);
    row.formula_value(&operands)
}

/// The value of a high part, if it is at an offset.
#[inline(always)]
fn value_at(at: u64, high: Option<HighPart>) -> Option<i64>
    ensures { IfSome result (IsValueAt at high) }
{
    let Some(high) = high else {
        return None;
    };
    if at == high.offset {
        Some(high.value)
    } else {
        None
    }
}

/// Whether the value is that of the row's own formula: of a high part only on RISC-V, and of an
/// offset in a TLS block only where the output has one.
#[inline(always)]
fn has_plain_way(architecture: Architecture, addresses: &Addresses, way: Way) -> bool
    ensures plain { result ≡ true → is_plain_way way ≡ true }
    ensures origin { result ≡ true
        → (is_offset_way way && not addresses.now.has_tls) ≡ false }
{
    match way {
        Way::Plain => true,
        Way::ModuleOffset => addresses.has_tls,
        Way::High => matches!(architecture, Architecture::RiscV),
        Way::Low | Way::Other => false,
    }
}

/// The value of a relocation of whose symbol something is known. None where it has no plain way,
/// its entry is missing or its formula has no value.
/// Only the contract uses `_relocations`, `_symbols` and `_index`.
#[inline(always)]
fn found_value<S: Symbols>(
    architecture: Architecture,
    addresses: &Addresses,
    _relocations: &[u8],
    _symbols: S,
    row: &Row,
    _index: usize,
    relocation: &Rela,
    known: &S::Found,
    high: Option<HighPart>,
) -> Option<i64>
    requires within { _index < length _relocations.now / 24 }
    requires is { relocation.now ≡ relocation_in _relocations.now _index }
    requires row { IsRow architecture relocation.now.r_type (Some row.now) }
    requires known { S.knowledge _symbols _index relocation.now
        ≡ Some (S.Found.known known.now) }
    requires high { IfSome high
        (IsHighValue architecture addresses.now _relocations.now (S.knowledge _symbols)) }
    ensures { IfSome result (λ v. needs_upper architecture relocation.now v ≡ false
        → IsQuickValue architecture addresses.now _relocations.now (S.values _symbols)
        (S.knowledge _symbols) _index row.now v) }
{
    if known.is_left_out()
        || lacks_stub(architecture, relocation, Some(*known))
        || is_of_got(architecture, relocation.r_type)
    {
        return None;
    }
    let way = row.facts().way;
    if has_plain_way(architecture, addresses, way) {
        return plain_value(architecture, addresses, row, relocation, known);
    }
    match way {
        Way::Low if matches!(architecture, Architecture::RiscV) => {
            let label = known.symbol().address;
            value_at(label.wrapping_sub(addresses.section), high)
        }
        _ => None,
    }
}

/// The value of a relocation, if it is found with few tests, and its own instructions reach it.
#[inline(always)]
pub(crate) fn quick_value<S: Symbols>(
    architecture: Architecture,
    addresses: &Addresses,
    relocations: &[u8],
    symbols: S,
    row: &Row,
    index: usize,
    relocation: &Rela,
    high: Option<HighPart>,
) -> Option<i64>
    requires within { index < length relocations.now / 24 }
    requires is { relocation.now ≡ relocation_in relocations.now index }
    requires row { IsRow architecture relocation.now.r_type (Some row.now) }
    requires high { IfSome high
        (IsHighValue architecture addresses.now relocations.now (S.knowledge symbols)) }
    ensures { IfSome result (IsQuickValue architecture addresses.now relocations.now
        (S.values symbols) (S.knowledge symbols) index row.now) }
{
    let Some(known) = symbols.find(index, relocation) else {
        return None;
    };
    let Some(value) = found_value(
        architecture,
        addresses,
        relocations,
        symbols,
        row,
        index,
        relocation,
        &known,
        high,
    ) else {
        return None;
    };
    if needs_upper(architecture, relocation, value) {
        return None;
    }
    Some(value)
}

/// A high part. By itself, so that nothing is copied where there is none.
#[inline(never)]
fn new_high(offset: u64, value: i64) -> HighPart
    ensures { result ≡ record { offset = offset; value = value } }
{
    HighPart { offset, value }
}

/// The last high part after a relocation with a value.
#[inline(always)]
pub(crate) fn high_after(
    architecture: Architecture,
    row: &Row,
    offset: u64,
    value: i64,
    high: Option<HighPart>,
) -> Option<HighPart>
    ensures { (result ≡ high) ⊎ ((is_high row.now ≡ true)
        × (result ≡ Some (record { offset = offset; value = value }))) }
{
    if matches!(row.facts().way, Way::High) && matches!(architecture, Architecture::RiscV) {
        Some(new_high(offset, value))
    } else {
        high
    }
}
