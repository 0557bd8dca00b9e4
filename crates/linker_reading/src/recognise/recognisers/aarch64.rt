//! What is recognised of AArch64.

ghost use Rattle.std.specs.Prelude.{refl};
ghost use Rattle.linker_utils.proofs.AArch64Choices.{chosen_matches as aarch64_chosen};
ghost use Rattle.linker_utils.specs.contracts.aarch64.rewrites.RewriteKind as aarch64_kind;
ghost use Rattle.linker_elf.specs.contracts.aarch64.relocations.AArch64Relocation as aarch64_name;
ghost use Rattle.linker_reading.specs.AArch64Recogniser.{aarch64};
ghost use Rattle.linker_reading.specs.Inner.Equality.{bare_is_equality, enum_is_equality, numbers};
ghost use Rattle.linker_reading.specs.Inner.Laws.{laws};

use crate::recognise::engine::RecognisedName;
use linker_utils::aarch64::{AArch64Relocation, RewriteKind};
use linker_utils::architecture::Relaxation;

impl RecognisedName for AArch64Relocation {
    type Kind = RewriteKind;

    ghost how = { aarch64 };

    ghost laws = { laws refl (λ name s o. refl) (λ name s o facts c is. is)
        (bare_is_equality aarch64_kind.the_type tt)
        (enum_is_equality aarch64_name.enum _ refl (numbers 1)) aarch64_chosen };

    fn elf_type(self) -> u32 {
        self.r_type()
    }

    fn relaxation(kind: Self::Kind) -> Relaxation {
        Relaxation::AArch64(kind)
    }
}
