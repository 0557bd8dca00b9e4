//! What relocations mean, and their names, by `e_machine` and `r_type` of ELF files.

ghost use Rattle.std.specs.Prelude.{◌≡◌, ◌≢◌, ◌≤◌, Option, MatchOption, length, false};
ghost use Rattle.linker_elf.specs.Entries.{IsAnswerOf, IsGotAnswer, IsPltAnswer};
ghost use Rattle.linker_elf.specs.declared.elf.RowInfo.{RowInfo};
ghost use Rattle.linker_elf.specs.Architectures.{IsRow, IsElfName};
ghost use Rattle.linker_utils.specs.Relaxations.{IsSkippable};
ghost use Rattle.linker_elf.specs.Machines.{architecture_of};
ghost use Rattle.linker_elf.specs.ElfNames.{ElfName};
ghost use Rattle.linker_elf.specs.RiscVRelocations.{clui_row};
ghost use Rattle.linker_utils_c.specs.Relocations.{InNumbers, IsNameCopied};
ghost use Rattle.linker_utils_c.specs.Status.{code, OfMachine, IsGivenBy};

use crate::status::{Status, or_return};
use linker_utils::architecture::may_be_skipped;
use linker_utils::elf::{Architecture, RelocationNumbers};
use linker_utils::riscv64;

/// What the relocation with `r_type` means in files with `e_machine` `machine`.
/// `UnknownArchitecture`; `UnknownRelocation` where the library knows no meaning.
#[unsafe(no_mangle)]
pub extern "C" fn linker_utils_relocation(
    machine: u16,
    r_type: u32,
    info: &mut RelocationNumbers,
) -> u32
    ensures { OfMachine machine (info.new ≡ info.old) result (λ architecture.
        (meaning : Option RowInfo) × IsRow architecture r_type meaning × IsGivenBy InNumbers meaning
        Status.UnknownRelocation info.old info.new result) }
{
    let architecture = or_return!(Architecture::from_machine(machine), UnknownArchitecture);
    let row = or_return!(architecture.row(r_type), UnknownRelocation);
    *info = *row.numbers();
    Status::Success as u32
}

/// What a relocation of the high part of a value means once its `lui` has become a `c.lui`.
#[unsafe(no_mangle)]
pub extern "C" fn linker_utils_clui_rel_info(info: &mut RelocationNumbers)
    ensures { InNumbers clui_row info.new }
{
    *info = *riscv64::clui_row().numbers();
}

/// Whether the relocation with `r_type` requires a GOT entry in files with `e_machine` `machine`.
/// False where either is unknown.
#[unsafe(no_mangle)]
pub extern "C" fn linker_utils_asks_for_got(machine: u16, r_type: u32) -> bool
    ensures { MatchOption (architecture_of machine)
        (result ≡ false)
        (λ architecture. (meaning : Option RowInfo)
        × IsRow architecture r_type meaning × IsAnswerOf IsGotAnswer meaning result) }
{
    match Architecture::from_machine(machine) {
        Some(architecture) => architecture.asks_for_got(r_type),
        None => false,
    }
}

/// Whether an entry of the PLT may serve as the target of the relocation with `r_type` in files
/// with `e_machine` `machine`. False where either is unknown.
#[unsafe(no_mangle)]
pub extern "C" fn linker_utils_may_use_plt(machine: u16, r_type: u32) -> bool
    ensures { MatchOption (architecture_of machine)
        (result ≡ false)
        (λ architecture. (meaning : Option RowInfo)
        × IsRow architecture r_type meaning × IsAnswerOf IsPltAnswer meaning result) }
{
    match Architecture::from_machine(machine) {
        Some(architecture) => architecture.may_use_plt(r_type),
        None => false,
    }
}

/// Whether the relocation with `r_type` has a type that one skipped after a rewrite has in files
/// with `e_machine` `machine`. False where either is unknown.
#[unsafe(no_mangle)]
pub extern "C" fn linker_utils_may_be_skipped(machine: u16, r_type: u32) -> bool
    ensures { MatchOption (architecture_of machine)
        (result ≡ false)
        (λ architecture. IsSkippable architecture r_type result) }
{
    match Architecture::from_machine(machine) {
        Some(architecture) => may_be_skipped(architecture, r_type),
        None => false,
    }
}

/// Writes the ELF name of a relocation, as "R_AARCH64_CALL26", to the beginning of `name`, without
/// a NUL after it, and its length to `name_used`. No name is longer than 64 bytes.
/// `UnknownArchitecture`; `UnknownRelocation` of a type without a name; `TooShort` where `name` has
/// too few bytes.
#[unsafe(no_mangle)]
pub extern "C" fn linker_utils_relocation_name_nonnull(
    machine: u16,
    r_type: u32,
    name: &mut [u8],
    name_used: &mut usize,
) -> u32
    ensures outcome { OfMachine machine ((name.new ≡ name.old) × (name_used.new ≡ name_used.old))
        result
        (λ architecture.
        (elf : ElfName) × IsElfName architecture r_type elf × IsNameCopied elf name.old name.new
        name_used.old name_used.new result) }
    ensures room { 64 ≤ length name.old → result ≢ code Status.TooShort }
{
    let architecture = or_return!(Architecture::from_machine(machine), UnknownArchitecture);
    let text = or_return!(architecture.name(r_type), UnknownRelocation);
    let len = text.len();
    if name.len() < len {
        return Status::TooShort as u32;
    }
    name[..len].copy_from_slice(text.as_bytes());
    *name_used = len;
    Status::Success as u32
}
