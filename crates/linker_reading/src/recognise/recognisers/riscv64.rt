//! What is recognised of RISC-V.

ghost use Rattle.std.specs.Prelude.{refl};
ghost use Rattle.linker_elf.specs.contracts.riscv64.relocations.RiscVRelocation as riscv_name;
ghost use Rattle.linker_reading.specs.Inner.Equality.{bare_is_equality, enum_is_equality, numbers};
ghost use Rattle.linker_reading.specs.Inner.Laws.{laws};
ghost use Rattle.linker_reading.specs.RiscVRecogniser.{riscv};
ghost use Rattle.linker_utils.proofs.RiscVChoices.{chosen_matches as riscv_chosen};
ghost use Rattle.linker_utils.specs.contracts.riscv64.rewrites.RewriteKind as riscv_kind;

use crate::recognise::engine::RecognisedName;
use linker_utils::architecture::Relaxation;
use linker_utils::riscv64::{RewriteKind, RiscVRelocation};

impl RecognisedName for RiscVRelocation {
    type Kind = RewriteKind;

    ghost how = { riscv };

    ghost laws = { laws refl (λ name s o. refl) (λ name s o facts c is. is)
        (bare_is_equality riscv_kind.the_type tt)
        (enum_is_equality riscv_name.enum _ refl (numbers 1)) riscv_chosen };

    fn elf_type(self) -> u32 {
        self.r_type()
    }

    fn relaxation(kind: Self::Kind) -> Relaxation {
        Relaxation::RiscV(kind)
    }
}
