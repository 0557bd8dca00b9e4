//! The deltas of several sections.

ghost use Rattle.std.specs.Prelude.{◌≡◌, ◌<◌, ◌↔◌, ℕ, IsTrue, IsOk, IfSome, IfOk, IfErr, OnOk};
ghost use Rattle.std.specs.Prelude.{OnErr, None, MatchOption, option_map, option_copied};
ghost use Rattle.std.specs.Borrow.{LendsIf, sem};
ghost use Rattle.std.specs.FinMap as finite;
ghost use Rattle.linker_base.specs.Sections.{IsAboveAll, IsLast, IndicesRise, IsAt, IsGap};
ghost use Rattle.linker_base.specs.contracts.relaxation.SectionRelaxDeltas.{the_row as deltas_row};
ghost use Rattle.linker_base.specs.contracts.relaxation.map.RelaxDeltaMap.{the_row};

use super::{OutOfMemory, SectionRelaxDeltas};
use std::alloc::Global;
use std::marker::Model;

/// The deltas of the sections of a file that have any, by section index.
///
/// It is a vector sorted by index: linkers usually insert in that order, and look up far more often
/// than they insert. Contracts see the finite map from index to deletions.
#[derive(Debug, Drop)]
pub struct RelaxDeltaMap {
    entries: Vec<(usize, SectionRelaxDeltas)>,
}

impl Model for RelaxDeltaMap {
    ghost use Rattle.std.specs.FinMap as finite;
    ghost use Rattle.std.specs.Coded.{coded_ℕ, coded_list, coded×};
    ghost use Rattle.linker_base.specs.Sections.{Sections, IndicesRise};

    ghost Value = { Sections };

    ghost coded = { finite.code coded_ℕ (coded_list (coded× coded_ℕ coded_ℕ)) };

    ghost view = { λ sections. finite.from_entries sections.entries.items };

    ghost invariant = { λ sections. IndicesRise sections.entries.items };
}

impl RelaxDeltaMap {
    /// An empty map. It does not allocate.
    pub fn new(alloc: Global) -> Self
        ensures { result ≡ finite.empty }
    {
        RelaxDeltaMap {
            entries: Vec::new(alloc),
        }
    }

    /// Adds a section. Requires that its index is above `last_index`.
    ///
    /// # Errors
    ///
    /// Out of memory: the deltas come back, and the map is unchanged.
    pub fn insert(
        &mut self,
        section_index: usize,
        deltas: SectionRelaxDeltas,
    ) -> Result<(), SectionRelaxDeltas>
        requires { IsAboveAll self.old section_index }
        ensures ok { OnOk result (self.new ≡ finite.insert self.old section_index deltas) }
        ensures err { OnErr result (self.new ≡ self.old) }
        ensures handed_back { IfErr result (λ back. back ≡ deltas) }
    {
        self.entries
            .push((section_index, deltas))
            .map_err(|failed| failed.value.1)
    }

    /// Adds a section in order. Requires that `get` finds no such section. The sections above it
    /// move up by one entry, so it takes O(n) where `insert` takes O(1).
    ///
    /// # Errors
    ///
    /// Out of memory: the deltas come back, and the map is unchanged.
    pub fn insert_sorted(
        &mut self,
        section_index: usize,
        deltas: SectionRelaxDeltas,
    ) -> Result<(), SectionRelaxDeltas>
        requires { finite.get self.old section_index ≡ None }
        ensures ok { OnOk result (self.new ≡ finite.insert self.old section_index deltas) }
        ensures err { OnErr result (self.new ≡ self.old) }
        ensures handed_back { IfErr result (λ back. back ≡ deltas) }
    {
        let (Ok(at) | Err(at)) = search(&self.entries, section_index);
        self.entries
            .insert(at, (section_index, deltas))
            .map_err(|failed| failed.value.1)
    }

    /// The deltas of the section, if it is there. The search takes O(log n).
    pub fn get(&self, section_index: usize) -> Option<&SectionRelaxDeltas>
        ensures { option_copied result ≡ finite.get self.now section_index }
    {
        match search(&self.entries, section_index) {
            Ok(at) => Some(&self.entries[at].1),
            Err(_) => None,
        }
    }

    /// The deltas of the section to change, if it is there. The others are unchanged. The search
    /// takes O(log n).
    pub fn get_mut(&mut self, section_index: usize) -> Option<&mut SectionRelaxDeltas>
        ensures* lends { sem 𝓛 (LendsIf the_row deltas_row self.entry result
            (λ left. finite.insert self.old section_index left) self.old) }
        ensures value { option_map (λ deltas. deltas.now) result
            ≡ finite.get self.old section_index }
    {
        match search(&self.entries, section_index) {
            Ok(at) => Some(&mut self.entries[at].1),
            Err(_) => None,
        }
    }

    /// Whether no section is there.
    pub fn is_empty(&self) -> bool
        ensures { IsTrue result ↔ (self.now ≡ finite.empty) }
    {
        self.entries.is_empty()
    }

    /// The highest section index that is there. Any index above it may be given to `insert`.
    pub fn last_index(&self) -> Option<usize>
        ensures last { MatchOption result (self.now ≡ finite.empty) (IsLast self.now) }
        ensures above { (index : ℕ) → IfSome result (λ last. last < index)
            → IsAboveAll self.now index }
    {
        self.entries.last().map(|entry| entry.0)
    }

    /// A copy of the map and of the deltas of each section. It allocates once for the entries, as
    /// `SectionRelaxDeltas::clone` for each section, and not at all for an empty map.
    pub fn clone(&self) -> Result<Self, OutOfMemory>
        ensures ok { IfOk result (λ sections. sections ≡ self.now) }
        ensures empty_succeeds { self.now ≡ finite.empty → IsOk result }
    {
        let sections = self.entries.as_slice();
        let mut entries = Vec::with_capacity(*self.entries.allocator(), sections.len())?;
        for (section_index, deltas) in sections {
            entries.push_reserved((*section_index, deltas.clone()?));
        }
        Ok(RelaxDeltaMap { entries })
    }
}

// Where the section is, or where it would go.
fn search(entries: &[(usize, SectionRelaxDeltas)], section_index: usize) -> Result<usize, usize>
    requires { IndicesRise entries.now }
    ensures found { IfOk result (IsAt entries.now section_index) }
    ensures absent { IfErr result (IsGap entries.now section_index) }
{
    entries.binary_search_by_key(&section_index, |entry| entry.0)
}
