//! Sections of objects in which compilers keep addresses, as the GOT does.

ghost use Rattle.std.specs.Prelude.{◌≡◌};
ghost use Rattle.linker_output.specs.Addresses.{entry_in, entry_r_type_of};
ghost use Rattle.linker_output.specs.View.{view};

use crate::description::Target;

/// The relocations of an instruction that loads an address, or of a half of it.
#[derive(Clone, Copy)]
pub struct WordLoad {
    /// The `r_type` in ELF files, where the address is in a word of the section.
    pub word: u32,
    /// The `r_type` where it is in an entry of the GOT.
    pub entry: u32,
}

/// A section of objects whose words are addresses that nothing changes. A linker may have
/// instructions compute such an address, as it may with one that the GOT has.
#[derive(Clone, Copy)]
pub struct AddressSection {
    /// Its name.
    pub name: &'static str,
    /// The instructions that refer to its words, and that a linker may rewrite or has to look at.
    pub loads: &'static [WordLoad],
}

/// The `r_type` for an entry of the GOT in place of one for a word.
fn entry_in(loads: &[WordLoad], r_type: u32) -> Option<u32>
    ensures { result ≡ entry_in loads.now r_type }
{
    for load in loads {
        if load.word == r_type {
            return Some(load.entry);
        }
    }
    None
}

impl Target {
    /// The `r_type` of the relocation that an instruction would have if the address were in an
    /// entry of the GOT, by its `r_type` where that is in a word of `address_section`. With it
    /// `choose` says whether the instruction can compute the address. None of other types.
    ///
    /// ```
    /// use linker_output::description::Target;
    /// use linker_utils::elf::Architecture;
    ///
    /// // R_PPC64_TOC16_HA and R_PPC64_GOT16_HA
    /// assert_eq!(Target::of(Architecture::Ppc64).entry_r_type(50), Some(17));
    /// assert_eq!(Target::of(Architecture::Ppc64).entry_r_type(10), None);
    /// ```
    pub fn entry_r_type(&self, r_type: u32) -> Option<u32>
        ensures { result ≡ entry_r_type_of (view self.now).addresses r_type }
    {
        match &self.address_section {
            Some(section) => entry_in(section.loads, r_type),
            None => None,
        }
    }
}
