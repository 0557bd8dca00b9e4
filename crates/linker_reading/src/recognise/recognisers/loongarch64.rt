//! What is recognised of LoongArch.

ghost use Rattle.std.specs.Prelude.{refl};
ghost use Rattle.linker_elf.specs.contracts.loongarch64.relocations.LoongArch64Relocation as loongarch_name;
ghost use Rattle.linker_utils.proofs.LoongArchChoices.{chosen_matches as loongarch_chosen};
ghost use Rattle.linker_utils.specs.contracts.loongarch64.rewrites.RewriteKind as loongarch_kind;
ghost use Rattle.linker_reading.specs.Inner.Equality.{bare_is_equality, enum_is_equality, numbers};
ghost use Rattle.linker_reading.specs.Inner.Laws.{laws};
ghost use Rattle.linker_reading.specs.LoongArchRecogniser.{loongarch};

use crate::recognise::engine::RecognisedName;
use linker_utils::architecture::Relaxation;
use linker_utils::loongarch64::{LoongArch64Relocation, RewriteKind};

impl RecognisedName for LoongArch64Relocation {
    type Kind = RewriteKind;

    ghost how = { loongarch };

    ghost laws = { laws refl (λ name s o. refl) (λ name s o facts c is. is)
        (bare_is_equality loongarch_kind.the_type tt)
        (enum_is_equality loongarch_name.enum _ refl (numbers 1)) loongarch_chosen };

    fn elf_type(self) -> u32 {
        self.r_type()
    }

    fn relaxation(kind: Self::Kind) -> Relaxation {
        Relaxation::LoongArch64(kind)
    }
}
