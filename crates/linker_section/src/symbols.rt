//! What is known of the symbols that a section's relocations name, by a table or by a look-up.

ghost use Rattle.std.specs.Prelude.{◌≡◌, ℕ, List, Option, option_map};
ghost use Rattle.linker_elf.specs.declared.elf.architecture.Architecture.{Architecture as machine};
ghost use Rattle.linker_section.specs.Inner.Facts.{SaysNeeds};
ghost use Rattle.linker_section.specs.Inner.Tables.{by_index_is, known_in, known_symbol};
ghost use Rattle.linker_section.specs.Known.{Known as about, Knowledge, by_known};
ghost use Rattle.linker_section.specs.Needed.{entry_of};
ghost use Rattle.linker_section.specs.Sections.{Outcome, Values, by_index};
ghost use Rattle.linker_section.specs.declared.facts.Addresses.{Addresses as output};

use crate::facts::{Addresses, Symbol};
use crate::quick::required_address;
use crate::relocations::Rela;
use linker_elf::elf::Row;

/// What is known of the symbol of a relocation.
pub(crate) trait Known: Copy {
    /// The same in a contract.
    ghost known: { Self → about };

    /// The symbol. Its entries aren't read.
    fn symbol(&self) -> Symbol
        ensures { result ≡ (known self.now).symbol };

    /// The address of the entry that a relocation of a row requires; 0 where it requires none, and
    /// none where there isn't one.
    fn entry(&self, addresses: &Addresses, row: &Row, relocation: &Rela) -> Option<u64>
        requires { SaysNeeds row.now }
        ensures { result ≡ (known self.now).entry addresses.now
            (entry_of row.now relocation.now.addend (known self.now).symbol.is_thread_local) };

    /// Whether the value isn't written.
    fn is_left_out(&self) -> bool
        ensures { result ≡ (known self.now).is_left_out };
}

/// What finds the symbol of each of a section's relocations.
pub(crate) trait Symbols: Copy {
    /// What is known of a relocation's symbol.
    type Found: Known;

    /// What is known of the symbol of the relocation with an index, in a contract.
    ghost knowledge: { Self → Knowledge };

    /// The row and the value of the relocation with an index, or none, or why there is none, in a
    /// contract.
    ghost values: { Self → Values };

    /// What is known of the symbol of the relocation with an index. None if there is no such
    /// symbol.
    fn find(self, index: usize, relocation: &Rela) -> Option<Self::Found>
        ensures { option_map Self.Found.known result ≡ knowledge self index relocation.now };

    // the values are those by what is known
    ghost are_values: { (symbols : Self) (architecture : machine) (addresses : output)
        (bytes : List ℕ) (i : ℕ) (outcome : Outcome)
        → by_known (knowledge symbols) architecture addresses bytes i outcome
        → values symbols architecture addresses bytes i outcome };
}

/// A symbol of a table.
#[derive(Clone, Copy)]
pub(crate) struct Listed<'a> {
    /// The symbol.
    pub(crate) symbol: &'a Symbol,
}

impl Known for Listed<'_> {
    ghost known = { λ s. known_symbol s.symbol.now };

    #[inline(always)]
    fn symbol(&self) -> Symbol {
        *self.symbol
    }

    #[inline(always)]
    fn entry(&self, addresses: &Addresses, row: &Row, relocation: &Rela) -> Option<u64> {
        required_address(addresses, self.symbol, row, relocation)
    }

    #[inline(always)]
    fn is_left_out(&self) -> bool {
        false
    }
}

/// A table of symbols at the indexes that relocations name.
#[derive(Clone, Copy)]
pub(crate) struct ByIndex<'a> {
    /// The table.
    pub(crate) symbols: &'a [Symbol],
}

impl<'a> Symbols for ByIndex<'a> {
    type Found = Listed<'a>;

    ghost knowledge = { λ s. known_in s.symbols.now };

    ghost values = { λ s. by_index s.symbols.now };

    #[inline(always)]
    fn find(self, _index: usize, relocation: &Rela) -> Option<Listed<'a>> {
        match self.symbols.get(relocation.symbol as usize) {
            Some(symbol) => Some(Listed { symbol }),
            None => None,
        }
    }

    ghost are_values = { λ s. by_index_is s.symbols.now };
}
