//! Decisions in numbers.

ghost use Rattle.std.specs.Prelude.{◌≡◌, Some};
ghost use Rattle.linker_elf.specs.Machines.{machine_of};
ghost use Rattle.linker_rewriting.specs.Numbers as spec;
ghost use Rattle.linker_utils.specs.Relaxations.{relaxation_architecture};

use super::{Decision, Subject};
use crate::candidates::Chosen;
use linker_utils::architecture::Relaxation;
use linker_utils::elf::{Architecture, Choice};

/// What becomes of a relocation and of its instruction, in numbers, as C has it. Any numbers are a
/// decision.
#[repr(C)]
#[derive(Default, Clone, Copy)]
pub struct DecisionNumbers {
    /// The addend that the relocation gets before the rewrite, if its fate is 3; else 0.
    pub addend: i64,
    /// The index of the symbol that the relocation gets, if its fate is 3. With the fate 1 a number
    /// of the bytes that the rewrite was decided on, if it is kept; else 0.
    pub symbol: u32,
    /// The rewrite's number; 0 of a relocation whose instruction isn't rewritten, as the fields
    /// below but `fate`.
    pub rewrite: u32,
    /// The relocation's `r_type` after it.
    pub relocation: u32,
    /// `e_machine` of the rewrite's architecture.
    pub machine: u16,
    /// 0 where both stay as they are, 1 where the instruction is rewritten, 2 where the relocation
    /// goes, since the rewrite at another one takes it along, 3 where the instruction is rewritten
    /// and the relocation gets another symbol and addend.
    pub fate: u8,
    /// The rewrite's count of bytes before the field; 0 if it has none.
    pub opcode_len: u8,
}

/// One that rewrites nothing.
#[inline(always)]
fn of_fate(fate: u8) -> DecisionNumbers
    ensures { result ≡ spec.of_fate fate }
{
    DecisionNumbers {
        fate,
        ..DecisionNumbers::default()
    }
}

#[inline(always)]
fn machine_of(kind: Relaxation) -> u16
    ensures { result ≡ machine_of (relaxation_architecture kind) }
{
    match kind {
        Relaxation::AArch64(_) => Architecture::AArch64.machine(),
        Relaxation::RiscV(_) => Architecture::RiscV.machine(),
        Relaxation::LoongArch64(_) => Architecture::LoongArch64.machine(),
        Relaxation::Ppc64(_) => Architecture::Ppc64.machine(),
        Relaxation::X86_64(_) => Architecture::X86_64.machine(),
    }
}

/// One that rewrites an instruction.
#[inline(always)]
fn of_choice(fate: u8, choice: Chosen, subject: Subject) -> DecisionNumbers
    ensures fate { result.fate ≡ fate }
    ensures choice { spec.choice_in result ≡ Some choice }
    ensures subject { spec.subject_in result ≡ subject }
{
    let (rewrite, opcode_len) = choice.kind.number();
    DecisionNumbers {
        addend: subject.addend,
        symbol: subject.symbol,
        rewrite,
        relocation: choice.relocation,
        machine: machine_of(choice.kind),
        fate,
        opcode_len,
    }
}

impl DecisionNumbers {
    /// The rewrite and the relocation after it, if its machine has a rewrite of these numbers.
    #[inline(always)]
    fn choice(self) -> Option<Chosen>
        ensures { result ≡ spec.choice_in self }
    {
        let architecture = Architecture::from_machine(self.machine)?;
        let kind = Relaxation::from_number(architecture, self.rewrite, self.opcode_len)?;
        Some(Choice {
            kind,
            relocation: self.relocation,
        })
    }

    /// The decision, `Decision::Kept` where the machine has no rewrite of these numbers.
    #[inline(always)]
    pub fn as_decision(self) -> Decision
        ensures { result ≡ spec.decision_in self }
    {
        if self.fate == 0 {
            return Decision::Kept;
        }
        if self.fate == 2 {
            return Decision::Consumed;
        }
        let Some(choice) = self.choice() else {
            return Decision::Kept;
        };
        if self.fate == 1 {
            return Decision::Rewritten(choice);
        }
        let subject = Subject {
            symbol: self.symbol,
            addend: self.addend,
        };
        Decision::RewrittenWithSymbol(choice, subject)
    }

    /// The numbers of a decision.
    #[inline(always)]
    pub fn from_decision(made: Decision) -> DecisionNumbers
        ensures decision { spec.decision_in result ≡ made }
        ensures form { spec.IsWrittenDecision result }
    {
        match made {
            Decision::Kept => of_fate(0),
            Decision::Consumed => of_fate(2),
            Decision::Rewritten(choice) => of_choice(
                1,
                choice,
                Subject {
                    symbol: 0,
                    addend: 0,
                },
            ),
            Decision::RewrittenWithSymbol(choice, subject) => of_choice(3, choice, subject),
        }
    }

    /// The number of the bytes that it rewrites, if it is kept.
    #[inline(always)]
    pub(crate) fn bytes(self) -> u32
        ensures { result ≡ spec.number_of self }
    {
        self.symbol
    }

    /// The numbers of a rewrite that is kept, with a number of the bytes that it rewrites.
    #[inline(always)]
    pub(crate) fn from_choice(choice: Chosen, number: u32) -> DecisionNumbers
        ensures decision { spec.decision_in result ≡ Decision.Rewritten choice }
        ensures bytes { spec.number_of result ≡ number }
        ensures form { spec.IsKeptDecision result }
    {
        let bytes = Subject {
            symbol: number,
            addend: 0,
        };
        of_choice(1, choice, bytes)
    }
}
