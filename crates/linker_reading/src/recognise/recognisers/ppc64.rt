//! What is recognised of PowerPC64.

ghost use Rattle.std.specs.Prelude.{refl};
ghost use Rattle.linker_elf.specs.contracts.ppc64.relocations.Ppc64Relocation as ppc64_name;
ghost use Rattle.linker_utils.proofs.Ppc64Choices.{chosen_matches as ppc64_chosen};
ghost use Rattle.linker_utils.specs.contracts.ppc64.rewrites.RewriteKind as ppc64_kind;
ghost use Rattle.linker_reading.specs.Inner.Equality.{bare_is_equality, enum_is_equality, numbers};
ghost use Rattle.linker_reading.specs.Inner.Laws.{laws};
ghost use Rattle.linker_reading.specs.Ppc64Recogniser.{ppc64};

use crate::recognise::engine::RecognisedName;
use linker_utils::architecture::Relaxation;
use linker_utils::ppc64::{Ppc64Relocation, RewriteKind};

impl RecognisedName for Ppc64Relocation {
    type Kind = RewriteKind;

    ghost how = { ppc64 };

    ghost laws = { laws refl (λ name s o. refl) (λ name s o facts c is. is)
        (bare_is_equality ppc64_kind.the_type tt)
        (enum_is_equality ppc64_name.enum _ refl (numbers 1)) ppc64_chosen };

    fn elf_type(self) -> u32 {
        self.r_type()
    }

    fn relaxation(kind: Self::Kind) -> Relaxation {
        Relaxation::Ppc64(kind)
    }
}
