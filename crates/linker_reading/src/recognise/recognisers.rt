//! What is recognised of each architecture.

mod aarch64;
mod loongarch64;
mod ppc64;
mod riscv64;
mod x86_64;

ghost use Rattle.linker_reading.specs.AArch64Recogniser.{aarch64};
ghost use Rattle.linker_reading.specs.LoongArchRecogniser.{loongarch};
ghost use Rattle.linker_reading.specs.Ppc64Recogniser.{ppc64};
ghost use Rattle.linker_reading.specs.RiscVRecogniser.{riscv};
ghost use Rattle.linker_reading.specs.X86WrittenFields.{X86WrittenIsLeft};
ghost use Rattle.linker_reading.specs.WrittenRows.{WrittenIsLeft};

/// Where a rewrite is applied, the value of the relocation after it is written, and the deleted
/// bytes are taken out, the choice of both leaves the bytes that stay. So `recognise` returns what
/// `choose` chose, after `apply` and `write`.
pub fn written_choices_are_left()
    ensures aarch64 { WrittenIsLeft aarch64 }
    ensures riscv { WrittenIsLeft riscv }
    ensures loongarch { WrittenIsLeft loongarch }
    ensures ppc64 { WrittenIsLeft ppc64 }
    ensures x86_64 { X86WrittenIsLeft }
{}
