//! The vocabulary of relocations, the forms of instructions that hold a value, the interfaces of
//! forms and of rewrites, the architectures, and what a linker knows when it chooses a rewrite.

ghost use Rattle.std.specs.Prelude.{◌≡◌, IfSome, is_some};
ghost use Rattle.std.specs.Option.{option_map};
ghost use Rattle.linker_elf.specs.Inner.FormLaws.{relocation_keeps, relocation_restored};
ghost use Rattle.linker_utils.specs.Upstream.{any_instruction, any_of, row_of, row_size};
ghost use Rattle.linker_utils.specs.Upstream.{IsUpstream, is_upstream, is_upstream_form};

pub use crate::ppc64::Ppc64Instruction;
use linker_base::bit_misc::BitRange;
pub use linker_elf::elf::{
    AArch64Instruction, AllowedRange, AnyForm, ApplyError, Architecture, Bias, Choice, EM_AARCH64,
    EM_LOONGARCH, EM_PPC64, EM_RISCV, EM_X86_64, EntryUse, FormulaError, HANDLE_UNIT,
    InstructionForm, InstructionRewrite, Length, LinkFacts, LoongArch64Instruction, Operands,
    OtherRelocation, PAGE_MASK_4KB, PageMask, PageMaskPattern, Ppc64Form, RelocateError,
    RelocationKind, RelocationNumbers, RewriteWindow, RiscVInstruction, Row, RowFacts, RowInfo,
    RowSize, SIZE_2GB, SIZE_2KB, SIZE_4GB, SIZE_4KB, Sign, Uleb128PairError, Uleb128Role, Way,
    WriteError,
};

/// The forms of `AnyForm` that the crate `linker-utils` has too. No variants are added, nor any
/// forms of PowerPC64, so that a match of all needs no last arm.
#[derive(Debug, Clone, Copy, PartialEq, Eq)]
pub enum RelocationInstruction {
    AArch64(AArch64Instruction),
    RiscV(RiscVInstruction),
    Ppc64(Ppc64Instruction),
    LoongArch64(LoongArch64Instruction),
}

impl RelocationInstruction {
    /// The same among all forms.
    #[inline(always)]
    pub fn form(self) -> AnyForm
        ensures { result ≡ any_of self }
    {
        match self {
            RelocationInstruction::AArch64(insn) => AnyForm::AArch64(insn),
            RelocationInstruction::RiscV(insn) => AnyForm::RiscV(insn),
            RelocationInstruction::Ppc64(insn) => AnyForm::Ppc64(insn.form()),
            RelocationInstruction::LoongArch64(insn) => AnyForm::LoongArch64(insn),
        }
    }

    /// A form, if the crate `linker-utils` has it.
    #[inline(always)]
    pub fn of(form: AnyForm) -> Option<RelocationInstruction>
        ensures form { IfSome result (λ insn. any_of insn ≡ form) }
        ensures known { is_some result ≡ is_upstream_form form }
    {
        match form {
            AnyForm::AArch64(insn) => Some(RelocationInstruction::AArch64(insn)),
            AnyForm::RiscV(insn) => Some(RelocationInstruction::RiscV(insn)),
            AnyForm::Ppc64(form) => match Ppc64Instruction::of(form) {
                Some(insn) => Some(RelocationInstruction::Ppc64(insn)),
                None => None,
            },
            AnyForm::LoongArch64(insn) => Some(RelocationInstruction::LoongArch64(insn)),
        }
    }
}

impl InstructionForm for RelocationInstruction {
    ghost form = { any_instruction };

    ghost keeps = { λ insn. relocation_keeps (any_of insn) };

    ghost restores = { λ insn. relocation_restored (any_of insn) };

    #[inline]
    fn window(self) -> usize {
        self.form().window()
    }

    #[inline]
    fn fits(self, value: u64, bytes: &[u8]) -> bool {
        self.form().fits(value, bytes)
    }

    #[inline]
    fn write(self, value: u64, negative: bool, dest: &mut [u8]) {
        self.form().write(value, negative, dest);
    }

    #[inline]
    fn read(self, bytes: &[u8]) -> (u64, bool) {
        self.form().read(bytes)
    }
}

/// Where a relocation's value is written.
#[derive(Debug, Clone, Copy, PartialEq, Eq)]
pub enum RelocationSize {
    /// This number of whole bytes.
    ByteSize(u8),
    /// A bit range of the value into an instruction of a form.
    BitMasking {
        range: BitRange,
        insn: RelocationInstruction,
    },
}

impl RelocationSize {
    /// Bits `start` and up, below `end`, into an AArch64 instruction.
    pub fn bit_mask_aarch64(start: u8, end: u8, insn: AArch64Instruction) -> RelocationSize
        ensures { result
            ≡ RelocationSize.BitMasking (record { start = start; end = end })
            (RelocationInstruction.AArch64 insn) }
    {
        RelocationSize::BitMasking {
            range: BitRange { start, end },
            insn: RelocationInstruction::AArch64(insn),
        }
    }

    /// Bits `start` and up, below `end`, into a RISC-V instruction.
    pub fn bit_mask_riscv(start: u8, end: u8, insn: RiscVInstruction) -> RelocationSize
        ensures { result
            ≡ RelocationSize.BitMasking (record { start = start; end = end })
            (RelocationInstruction.RiscV insn) }
    {
        RelocationSize::BitMasking {
            range: BitRange { start, end },
            insn: RelocationInstruction::RiscV(insn),
        }
    }

    /// Bits `start` and up, below `end`, into a PowerPC64 instruction.
    pub fn bit_mask_ppc64(start: u8, end: u8, insn: Ppc64Instruction) -> RelocationSize
        ensures { result
            ≡ RelocationSize.BitMasking (record { start = start; end = end })
            (RelocationInstruction.Ppc64 insn) }
    {
        RelocationSize::BitMasking {
            range: BitRange { start, end },
            insn: RelocationInstruction::Ppc64(insn),
        }
    }

    /// Bits `start` and up, below `end`, into a LoongArch instruction.
    pub fn bit_mask_loongarch64(start: u8, end: u8, insn: LoongArch64Instruction) -> RelocationSize
        ensures { result
            ≡ RelocationSize.BitMasking (record { start = start; end = end })
            (RelocationInstruction.LoongArch64 insn) }
    {
        RelocationSize::BitMasking {
            range: BitRange { start, end },
            insn: RelocationInstruction::LoongArch64(insn),
        }
    }

    /// A row's, if the crate `linker-utils` has its form.
    #[inline(always)]
    fn of(size: RowSize) -> Option<RelocationSize>
        ensures size { IfSome result (λ found. row_size found ≡ size) }
        ensures known { is_some result ≡ is_upstream size }
    {
        match size {
            RowSize::ByteSize(bytes) => Some(RelocationSize::ByteSize(bytes)),
            RowSize::BitMasking { range, insn } => match RelocationInstruction::of(insn) {
                Some(insn) => Some(RelocationSize::BitMasking { range, insn }),
                None => None,
            },
        }
    }
}

/// What a relocation means, as the crate `linker-utils` says it: a `RowInfo` of a form that it has.
#[derive(Debug, Clone, Copy, PartialEq, Eq)]
pub struct RelocationKindInfo {
    /// The formula of its value.
    pub kind: RelocationKind,
    /// Where its value is written.
    pub size: RelocationSize,
    /// The addresses whose offset in the page is cleared.
    pub mask: Option<PageMask>,
    /// The allowed values.
    pub range: AllowedRange,
    /// The value is a multiple of this.
    pub alignment: u64,
    /// Added before the page mask is applied.
    pub bias: Option<Bias>,
    /// Whether a thunk may replace a target that is out of range.
    pub thunkable: bool,
    /// Whether the addend is in the section, and not in the relocation.
    pub implicit_addend: bool,
}

impl RelocationKindInfo {
    /// What a row says, if the crate `linker-utils` has its form.
    #[inline(always)]
    pub fn of(row: RowInfo) -> Option<RelocationKindInfo>
        ensures row { IfSome result (λ info. row_of info ≡ row) }
        ensures known { is_some result ≡ is_upstream row.size }
    {
        match RelocationSize::of(row.size) {
            Some(size) => Some(RelocationKindInfo::of_size(row, size)),
            None => None,
        }
    }

    /// What a row says, with a size.
    #[inline(always)]
    pub(crate) fn of_size(row: RowInfo, size: RelocationSize) -> RelocationKindInfo
        ensures { row_of result ≡ record row { size = row_size size } }
    {
        RelocationKindInfo {
            kind: row.kind,
            size,
            mask: row.mask,
            range: row.range,
            alignment: row.alignment,
            bias: row.bias,
            thunkable: row.thunkable,
            implicit_addend: row.implicit_addend,
        }
    }
}

/// What a row says, if there is one. The crate `linker-utils` has its form.
#[inline(always)]
pub(crate) fn upstream(row: Option<RowInfo>) -> Option<RelocationKindInfo>
    requires { IfSome row IsUpstream }
    ensures { option_map row_of result ≡ row }
{
    match row {
        Some(row) => RelocationKindInfo::of(row),
        None => None,
    }
}
