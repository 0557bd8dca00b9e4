//! What is recognised of x86-64.

ghost use Rattle.std.specs.Prelude.{refl};
ghost use Rattle.linker_elf.specs.contracts.x86_64.relocations.X86_64Relocation as x86_64_name;
ghost use Rattle.linker_reading.specs.Inner.Equality.{enum_is_equality, numbers};
ghost use Rattle.linker_reading.specs.Inner.Laws.{laws};
ghost use Rattle.linker_reading.specs.X86Recogniser.{x86_64, x86_64_table_at};
ghost use Rattle.linker_utils.proofs.X86Choices.{chosen_matches as x86_64_chosen};
ghost use Rattle.linker_utils.specs.contracts.x86_64.rewrites.RewriteKind as x86_64_kind;

use crate::recognise::engine::RecognisedName;
use linker_utils::architecture::Relaxation;
use linker_utils::x86_64::{RewriteKind, X86_64Relocation};

impl RecognisedName for X86_64Relocation {
    type Kind = RewriteKind;

    ghost how = { x86_64 };

    ghost laws = { laws refl (λ name s o. refl) (λ name s o facts c is. is)
        (enum_is_equality x86_64_kind.enum _ refl (numbers 11))
        (enum_is_equality x86_64_name.enum _ refl (numbers 1))
        (λ name s o. x86_64_chosen (x86_64_table_at name s o) name s o) };

    fn elf_type(self) -> u32 {
        self.r_type()
    }

    fn relaxation(kind: Self::Kind) -> Relaxation {
        Relaxation::X86_64(kind)
    }
}
