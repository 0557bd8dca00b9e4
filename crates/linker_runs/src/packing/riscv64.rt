//! RISC-V: what a call becomes.

ghost use Rattle.std.specs.Prelude.{Some, None, IfErr, length, IsTrue, IsSomeAnd, IfSome, IfNone};
ghost use Rattle.std.specs.Prelude.{◌≡◌, ◌↔◌, ◌+◌, ◌≤◌, ◌<◌, ◌*◌, ◌^◌, true, IfOk, OnOk, ◌⊎◌, ⊤};
ghost use Rattle.std.specs.Int.{w32, to_le_bytes};
ghost use Rattle.linker_elf.specs.RiscVRelocations.{riscv_relocation};
ghost use Rattle.linker_riscv64.specs.RiscVCalls.{link_register};
ghost use Rattle.linker_riscv64.specs.declared.calls.LinkRegister.TheVariants.{OfJalr};
ghost use Rattle.linker_runs.specs.RiscVSites.{riscv_template, RiscVBecomes, RiscVAccepts};
ghost use Rattle.linker_runs.specs.RiscVSites.{short_bytes, RiscVCause};
ghost use Rattle.linker_runs.specs.Origins.{HasRiscVShapes};
ghost use Rattle.linker_runs.specs.RiscV32.{links_short};
ghost use Rattle.linker_runs.specs.Inner.Pieces.{template_is, code_bytes};

use crate::packing::code::{Code, Template, pair_at, relocated};
use crate::packing::{ItemError, Machine};
use crate::relaxation::Shapes;
use crate::riscv64::link_at;
use crate::shapes::riscv64::{CALL, TAIL_C};
use linker_elf::elf::Row;
use linker_utils::riscv64::{self, RiscVRelocation};

/// What a relocation means that has a row.
#[inline(always)]
fn row_of(name: RiscVRelocation) -> Row
    requires { IsSomeAnd ((riscv_relocation name).row) (λ _. ⊤) }
    ensures { (riscv_relocation name).row ≡ Some result }
{
    match linker_utils::riscv64::row(name) {
        Some(row) => row,
        None => unreachable!(),
    }
}

/// `jal` of distance 0 that links a register.
#[inline(always)]
fn jal(link: u32) -> [u8; 4]
    requires { link < 32 }
    ensures { result ≡ to_le_bytes w32 (0x6f + link * 2 ^ 7) }
{
    (0x6f + link * 128).to_le_bytes()
}

/// `c.j` of distance 0, or `c.jal`, which links x1.
#[inline(always)]
fn short_jump(link: u32) -> [u8; 2]
    ensures { result ≡ short_bytes link }
{
    if link == 0 {
        [0x01, 0xa0]
    } else {
        [0x01, 0x20]
    }
}

/// The instruction of which n bytes stay of a call that links a register.
#[inline(always)]
fn template_of(
    machine: Machine,
    section: &[u8],
    offset: u64,
    link: u32,
    kept: u64,
) -> Option<Template>
    requires inside { offset + 8 ≤ length section.now }
    requires link { link ≡ link_register OfJalr section.now offset }
    ensures none { IfNone result (riscv_template machine section.now offset kept ≡ None) }
    ensures some { IfSome result (λ template.
        (riscv_template machine section.now offset kept ≡ Some (template_is template))
        × (length (code_bytes template.code) ≡ kept)) }
{
    match kept {
        2 if machine.links_short(link) => Some(Template {
            row: row_of(RiscVRelocation::R_RISCV_RVC_JUMP),
            code: Code::Half(short_jump(link)),
        }),
        4 => Some(Template {
            row: row_of(RiscVRelocation::R_RISCV_JAL),
            code: Code::Word(jal(link)),
        }),
        8 => Some(Template {
            row: row_of(RiscVRelocation::R_RISCV_CALL_PLT),
            code: Code::Pair(pair_at(section, offset)),
        }),
        _ => None,
    }
}

/// What a call becomes of which n bytes stay, at an address and for a target's.
#[inline(always)]
pub(crate) fn code_of(
    machine: Machine,
    section: &[u8],
    offset: u64,
    kept: u64,
    place: u64,
    target: u64,
) -> Result<Code, ItemError>
    requires { offset + 8 ≤ length section.now }
    ensures becomes { IfOk result
        (λ code. RiscVBecomes machine section.now offset place target (code_bytes code)) }
    ensures len { IfOk result (λ code. length (code_bytes code) ≡ kept) }
    ensures accepts { OnOk result (RiscVAccepts machine section.now offset kept place target) }
    ensures rejected { IfErr result (RiscVCause machine section.now offset kept place target) }
{
    let Some(link) = link_at(section, offset) else {
        return Err(ItemError::NotItsInstructions);
    };
    let Some(template) = template_of(machine, section, offset, link, kept) else {
        return Err(ItemError::NoShape);
    };
    linker_laws::relocations::riscv64();
    match relocated(template, place, target) {
        Some(code) => Ok(code),
        None => Err(ItemError::OutOfReach),
    }
}

/// Whether a call that links a register can have the shapes.
fn are_of_link(machine: Machine, link: u32, shapes: &Shapes) -> bool
    ensures { IsTrue result ↔ ((shapes.now ≡ CALL)
        ⊎ ((shapes.now ≡ TAIL_C) × (links_short machine link ≡ true))) }
{
    *shapes == CALL || (machine.links_short(link) && *shapes == TAIL_C)
}

/// Whether a call at an offset can have the shapes.
pub(crate) fn has_shapes(machine: Machine, section: &[u8], offset: u64, shapes: &Shapes) -> bool
    requires { offset + 8 ≤ length section.now }
    ensures { IsTrue result ↔ HasRiscVShapes machine section.now offset shapes.now }
{
    match link_at(section, offset) {
        Some(link) => are_of_link(machine, link, shapes),
        None => false,
    }
}
