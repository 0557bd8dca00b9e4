//! For which relocations a linker makes an entry of the GOT or of the PLT.

ghost use Rattle.std.specs.Prelude.{◌≡◌};
ghost use Rattle.linker_elf.specs.Entries.{is_of_high_part, is_branch};
ghost use Rattle.linker_elf.specs.Value.{names_got_entry, names_plt_entry};

use crate::elf::{AnyForm, RelocationKind, RiscVInstruction, RowSize};

/// Whether the formula names the address of a PLT entry.
#[inline(always)]
pub(crate) fn names_plt_entry(kind: RelocationKind) -> bool
    ensures { result ≡ names_plt_entry kind }
{
    matches!(
        kind,
        RelocationKind::PltRelGotBase | RelocationKind::PltRelative
    )
}

/// Whether the symbol labels a high part, whose value is taken.
#[inline(always)]
pub(crate) fn is_of_high_part(size: RowSize) -> bool
    ensures { result ≡ is_of_high_part size }
{
    matches!(
        size,
        RowSize::BitMasking {
            insn: AnyForm::RiscV(RiscVInstruction::IType | RiscVInstruction::SType),
            ..
        }
    )
}

impl RelocationKind {
    /// Whether the formula has the address of an entry of the GOT.
    #[inline(always)]
    pub fn names_got_entry(self) -> bool
        ensures { result ≡ names_got_entry self }
    {
        matches!(
            self,
            RelocationKind::GotRelative
                | RelocationKind::GotRelativeLoongArch64
                | RelocationKind::GotRelGotBase
                | RelocationKind::Got
                | RelocationKind::TlsGd
                | RelocationKind::TlsGdGot
                | RelocationKind::TlsGdGotBase
                | RelocationKind::TlsLd
                | RelocationKind::TlsLdGot
                | RelocationKind::TlsLdGotBase
                | RelocationKind::GotTpOff
                | RelocationKind::GotTpOffGot
                | RelocationKind::GotTpOffGotBase
                | RelocationKind::GotTpOffLoongArch64
                | RelocationKind::TlsDesc
                | RelocationKind::TlsDescGot
                | RelocationKind::TlsDescGotBase
                | RelocationKind::TlsDescLoongArch64
        )
    }
}

impl RowSize {
    /// Whether the value goes into a branch, conditional or not. False for whole bytes.
    #[inline(always)]
    pub fn is_branch(self) -> bool
        ensures { result ≡ is_branch self }
    {
        match self {
            RowSize::ByteSize(_) => false,
            RowSize::BitMasking { range, insn } => insn.is_branch(range),
        }
    }
}
