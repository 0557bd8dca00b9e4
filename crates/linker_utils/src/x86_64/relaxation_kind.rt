//! x86-64: the rewrites of the crate `linker-utils`.

ghost use Rattle.std.specs.Prelude.{◌≡◌, ◌↔◌, IsTrue};
ghost use Rattle.linker_base.specs.Rewrite.{CanRewrite, rewritten, offset_after, addend_after};
ghost use Rattle.linker_utils.specs.X86Rewrites.{x86_64_rewrite_kind, x86_64_rewrite};
ghost use Rattle.linker_utils.specs.X86Rewrites.{x86_64_modifier, KeepsRegister};

use super::RewriteKind;
use crate::rewrite_rows::same_name;
use linker_base::relaxation::RelocationModifier;
use linker_elf::elf::InstructionRewrite;

/// A rewrite that the crate `linker-utils` 0.11.0 has too: the `RewriteKind` of the same name. No
/// variants are added, so that a match of all needs no last arm.
#[derive(Debug, Default, Clone, Copy, PartialEq, Eq)]
pub enum RelaxationKind {
    MovIndirectToLea,
    MovIndirectToAbsolute,
    RexMovIndirectToAbsolute(u8),
    RexAddIndirectToAbsolute(u8),
    RexSubIndirectToAbsolute(u8),
    RexCmpIndirectToAbsolute(u8),
    CallIndirectToRelative,
    JmpIndirectToRelative,
    #[default]
    NoOp,
    TlsGdToLocalExec,
    TlsGdToLocalExecLarge,
    TlsLdToLocalExec,
    TlsLdToLocalExecNoPlt,
    TlsLdToLocalExec64,
    TlsGdToInitialExec,
    TlsDescToLocalExec(u8),
    TlsDescToInitialExec,
    SkipTlsDescCall,
}

impl RelaxationKind {
    /// The rewrite of the same name, of all that the library has.
    #[inline(always)]
    pub fn rewrite_kind(self) -> RewriteKind
        ensures { result ≡ x86_64_rewrite_kind self }
    {
        same_name!(self =>
            MovIndirectToLea MovIndirectToAbsolute RexMovIndirectToAbsolute(n)
            RexAddIndirectToAbsolute(n) RexSubIndirectToAbsolute(n)
            RexCmpIndirectToAbsolute(n) CallIndirectToRelative JmpIndirectToRelative
            NoOp TlsGdToLocalExec TlsGdToLocalExecLarge TlsLdToLocalExec
            TlsLdToLocalExecNoPlt TlsLdToLocalExec64 TlsGdToInitialExec
            TlsDescToLocalExec(n) TlsDescToInitialExec SkipTlsDescCall
        )
    }

    /// Rewrites the instruction at an offset of a section, as `RewriteKind::apply` says.
    #[inline(always)]
    pub fn apply(self, section_bytes: &mut [u8], offset_in_section: &mut u64, addend: &mut i64)
        requires { CanRewrite (x86_64_rewrite (x86_64_rewrite_kind self)) section_bytes.old
            offset_in_section.old }
        ensures bytes { section_bytes.new
            ≡ rewritten (x86_64_rewrite (x86_64_rewrite_kind self)) section_bytes.old
            offset_in_section.old }
        ensures offset { offset_in_section.new
            ≡ offset_after (x86_64_rewrite (x86_64_rewrite_kind self)) offset_in_section.old }
        ensures addend { addend.new
            ≡ addend_after (x86_64_rewrite (x86_64_rewrite_kind self)) addend.old }
        ensures register { self ≡ RelaxationKind.RexMovIndirectToAbsolute 3
            → KeepsRegister section_bytes.old section_bytes.new offset_in_section.old }
    {
        self.rewrite_kind()
            .apply(section_bytes, offset_in_section, addend);
    }

    /// Whether `apply` may be called at an offset of a section.
    #[inline(always)]
    pub fn can_apply(self, section: &[u8], offset: u64) -> bool
        ensures { IsTrue result
            ↔ CanRewrite (x86_64_rewrite (x86_64_rewrite_kind self)) section.now offset }
    {
        self.rewrite_kind().can_apply(section, offset)
    }

    /// What happens to the next relocation.
    #[inline(always)]
    pub fn next_modifier(&self) -> RelocationModifier
        ensures { result ≡ x86_64_modifier (x86_64_rewrite_kind self.now) }
    {
        self.rewrite_kind().next_modifier()
    }
}
