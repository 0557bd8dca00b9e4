//! Programs that the calls link, by the words of which every premise of the laws of runs holds.
//!
//! `linker_laws::simulation` has worked programs, of which both runs are computed to the end. The
//! functions here have an object's section and its relocations, as an assembler makes them. Each
//! returns true only if the worked program's words are those of that section: old's with the values
//! of its relocations, and new's once the calls have linked it. `tools/test_worked` runs them.

ghost use Rattle.std.specs.Prelude.{IsTrue, IfOk};
ghost use Rattle.linker_final.specs.Worked.{HasGroups, IsLinkedAs, IsOfCalls, IsOfShorterCalls};
ghost use Rattle.linker_final.specs.Worked.{IsRewrittenAs, halves};
ghost use Rattle.linker_section.specs.WrittenFields.{AreWritten};
ghost use Rattle.linker_final.specs.AArch64Section as aarch64_section;
ghost use Rattle.linker_final.specs.Ppc64Section as ppc64_section;
ghost use Rattle.linker_final.specs.X86Section as x86_64_section;
ghost use Rattle.linker_laws.specs.Ppc64GroupsWorked as ppc64_worked;
ghost use Rattle.linker_laws.specs.RiscVGroupsWorked as riscv_worked;
ghost use Rattle.linker_laws.specs.X86GroupsWorked as x86_worked;

use crate::sections::link_section_in_two_phases;
use linker_base::relaxation::{DeltaSlice, OutOfMemory};
use linker_rewriting::decisions::{Decision, DecisionNumbers, Deletion};
use linker_rewriting::facts::{OutputFacts, RelaxContext, SymbolFacts};
use linker_rewriting::global_pointer::{
    finish_gp_relaxation, rewrite_global_pointer, survey_global_pointer,
};
use linker_rewriting::groups::UnrelaxableGroups;
use linker_rewriting::kept::{FactsSnapshot, snapshot_facts};
use linker_rewriting::phases::Phase;
use linker_rewriting::sections::rewrite_placed_section;
use linker_runs::items::{ItemNumbers, Relocation, rewritten_items_into};
use linker_runs::packing::{Isa, Machine, pack_run, packed_run_len};
use linker_runs::relaxation::{Item, Site, are_items, relax};
use linker_runs::shapes::riscv64::CALL;
use linker_section::facts::{Addresses, Symbol};
use linker_section::relocations::{relocation_at, relocations_len};
use linker_section::sections::relocate_section;
use linker_utils::elf::Architecture;
use std::alloc::Global;

/// The most relocations of a section, and the most symbols.
const MOST: usize = 12;

/// The most items of a section from which one instruction is deleted.
const ITEMS: usize = 13;

/// An executable at a fixed address.
const OUTPUT: OutputFacts = OutputFacts {
    is_executable: true,
    is_fixed: true,
    has_near_symbols: true,
};

/// The entry of a table where an object has no symbol.
const NO_SYMBOL: Symbol = Symbol {
    address: 0,
    size: 0,
    stub: 0,
    address_entry: 0,
    thread_entry: 0,
    module_entry: 0,
    descriptor: 0,
    entry_addend: 0,
    other: 0,
    is_thread_local: false,
    is_undefined_weak: false,
};

/// The facts of an object's symbols, all of which the output defines.
fn facts() -> [SymbolFacts; MOST] {
    let local = SymbolFacts {
        is_local: true,
        ..SymbolFacts::default()
    };
    [local; MOST]
}

/// What a linker knows of an object's section.
#[derive(Clone, Copy)]
struct Known<'a> {
    /// The architecture of its code.
    architecture: Architecture,
    /// The phase in which it is rewritten once addresses are known.
    phase: Phase,
    /// Where it is.
    addresses: Addresses,
    /// The object's symbols.
    symbols: &'a [Symbol],
}

/// Whether `relocate_section` makes some bytes of the object's.
fn is_relocated(known: &Known<'_>, relocations: &[u8], section: &mut [u8], bytes: &[u8]) -> bool
    ensures { IsTrue result → AreWritten known.now.architecture known.now.addresses relocations.now
        known.now.symbols.now section.old bytes.now }
{
    if relocations_len(relocations) > MOST {
        return false;
    }
    match relocate_section(
        known.architecture,
        &known.addresses,
        relocations,
        known.symbols,
        section,
        &mut [0; MOST],
    ) {
        Ok(()) => &*section == bytes,
        Err(_) => false,
    }
}

/// Whether the calls make some bytes of the object's.
fn is_linked(known: &Known<'_>, relocations: &mut [u8], section: &mut [u8], bytes: &[u8]) -> bool
    ensures { IsTrue result → IsLinkedAs known.now.architecture known.now.phase known.now.addresses
        known.now.symbols.now relocations.old section.old bytes.now }
{
    if relocations_len(relocations) > MOST {
        return false;
    }
    let facts = facts();
    let mut kept = [FactsSnapshot::default(); MOST];
    snapshot_facts(&OUTPUT, &facts, &mut kept);
    match link_section_in_two_phases(
        known.architecture,
        known.phase,
        &OUTPUT,
        &facts,
        &[UnrelaxableGroups::default(); MOST],
        &[UnrelaxableGroups::default(); MOST],
        &kept,
        &known.addresses,
        known.symbols,
        relocations,
        section,
        &mut [DecisionNumbers::from_decision(Decision::Kept); MOST],
        &mut [DecisionNumbers::from_decision(Decision::Kept); MOST],
        &mut [],
        &mut [0; MOST],
    ) {
        Ok(()) => &*section == bytes,
        Err(_) => false,
    }
}

/// Whether the object's section is rewritten in the phase.
fn is_rewritten(known: &Known<'_>, relocations: &mut [u8], section: &mut [u8]) -> bool
    ensures { IsTrue result → IsRewrittenAs known.now.architecture relocations.old section.old
        relocations.new section.new }
{
    let facts = facts();
    let context = RelaxContext {
        architecture: known.architecture,
        phase: known.phase,
        output: &OUTPUT,
        symbols: &facts,
        addresses: &known.addresses,
        values: known.symbols,
    };
    match rewrite_placed_section(
        &context,
        &[UnrelaxableGroups::default(); MOST],
        relocations,
        section,
        &mut [DecisionNumbers::from_decision(Decision::Kept); MOST],
        &mut [],
    ) {
        Ok(_) => true,
        Err(_) => false,
    }
}

/// What aarch64-linux-gnu-as 2.40 makes, where x is symbol 5 and y is symbol 6.
const AARCH64_OBJECT: [u8; 20] = [
    0x00, 0x00, 0x00, 0x90, // adrp x0, :got:x
    0x00, 0x00, 0x40, 0xf9, // ldr x0, [x0, :got_lo12:x]
    0x01, 0x00, 0x00, 0x90, // adrp x1, :gottprel:y
    0xe2, 0x03, 0x01, 0xaa, // mov x2, x1
    0x42, 0x00, 0x40, 0xf9, // ldr x2, [x2, :gottprel_lo12:y]
];

/// Its relocations.
const AARCH64_RELOCATIONS: [u8; 96] = *b"\
    \x00\0\0\0\0\0\0\0\x37\x01\0\0\x05\0\0\0\0\0\0\0\0\0\0\0\
    \x04\0\0\0\0\0\0\0\x38\x01\0\0\x05\0\0\0\0\0\0\0\0\0\0\0\
    \x08\0\0\0\0\0\0\0\x1d\x02\0\0\x06\0\0\0\0\0\0\0\0\0\0\0\
    \x10\0\0\0\0\0\0\0\x1e\x02\0\0\x06\0\0\0\0\0\0\0\0\0\0\0";

/// AArch64: whether the program of three groups, `halves` of
/// `linker_laws::simulation::aarch64_worked`, is what the calls make of an object. Before layout
/// the halves of initial-exec become moves, and in the phase `GotToPcRel` the load becomes a sum.
/// Then each of the three is a group, as `laws::aarch64_sections` has them: all that its law
/// requires is so.
pub fn aarch64() -> bool
    ensures { IsTrue result → (of : IsOfCalls aarch64_section.rewriting AARCH64_OBJECT
        AARCH64_RELOCATIONS halves.old halves.new) × HasGroups of.section }
{
    let mut symbols = [NO_SYMBOL; MOST];
    symbols[5].address = 0x42_0120;
    symbols[5].address_entry = 0x41_1010;
    symbols[6].address = 0x43_2344;
    symbols[6].thread_entry = 0x41_1018;
    symbols[6].is_thread_local = true;
    let known = Known {
        architecture: Architecture::AArch64,
        phase: Phase::GotToPcRel,
        addresses: Addresses {
            section: 0x40_0000,
            got_base: 0,
            thread_origin: 0x42_0000,
            module_origin: 0,
            module_entry: 0,
            has_tls: true,
        },
        symbols: &symbols,
    };
    let old = [
        0x80, 0x00, 0x00, 0xb0, // adrp x0, 0x411000
        0x00, 0x08, 0x40, 0xf9, // ldr x0, [x0, 0x10]
        0x81, 0x00, 0x00, 0xb0, // adrp x1, 0x411000
        0xe2, 0x03, 0x01, 0xaa, // mov x2, x1
        0x42, 0x0c, 0x40, 0xf9, // ldr x2, [x2, 0x18]
    ];
    let new = [
        0x00, 0x01, 0x00, 0x90, // adrp x0, 0x420000
        0x00, 0x80, 0x04, 0x91, // add x0, x0, 0x120
        0x21, 0x00, 0xa0, 0xd2, // movz x1, 1, lsl 16
        0xe2, 0x03, 0x01, 0xaa, // mov x2, x1
        0x82, 0x68, 0x84, 0xf2, // movk x2, 0x2344
    ];
    let mut section = AARCH64_OBJECT;
    if !is_relocated(&known, &AARCH64_RELOCATIONS, &mut section, &old) {
        return false;
    }
    let (mut section, mut relocations) = (AARCH64_OBJECT, AARCH64_RELOCATIONS);
    is_linked(&known, &mut relocations, &mut section, &new)
}

/// What powerpc64le-linux-gnu-as 2.40 makes, where x is symbol 1 and y is symbol 2.
const PPC64_OBJECT: [u8; 20] = [
    0x00, 0x00, 0x62, 0x3c, // addis 3, 2, x@toc@ha
    0x00, 0x00, 0x63, 0x38, // addi 3, 3, x@toc@l
    0x00, 0x00, 0x82, 0x3c, // addis 4, 2, y@got@tprel@ha
    0x00, 0x00, 0x84, 0xe8, // ld 4, y@got@tprel@l(4)
    0x14, 0x6a, 0xa4, 0x7c, // add 5, 4, y@tls
];

/// Its relocations.
const PPC64_RELOCATIONS: [u8; 120] = *b"\
    \x00\0\0\0\0\0\0\0\x32\0\0\0\x01\0\0\0\0\0\0\0\0\0\0\0\
    \x04\0\0\0\0\0\0\0\x30\0\0\0\x01\0\0\0\0\0\0\0\0\0\0\0\
    \x08\0\0\0\0\0\0\0\x5a\0\0\0\x02\0\0\0\0\0\0\0\0\0\0\0\
    \x0c\0\0\0\0\0\0\0\x58\0\0\0\x02\0\0\0\0\0\0\0\0\0\0\0\
    \x10\0\0\0\0\0\0\0\x43\0\0\0\x02\0\0\0\0\0\0\0\0\0\0\0";

/// PowerPC64: whether the program of five groups, `linker_laws::simulation::ppc64_worked`, is what
/// the calls make of an object. Before layout initial-exec becomes local-exec, and in the phase
/// `ShortPcRel` the address is over the TOC pointer.
pub fn ppc64() -> bool
    ensures { IsTrue result → IsOfCalls ppc64_section.rewriting PPC64_OBJECT
        PPC64_RELOCATIONS ppc64_worked.code.old ppc64_worked.code.new }
{
    let mut symbols = [NO_SYMBOL; MOST];
    symbols[1].address = 0x2_0120;
    symbols[2].address = 0x8_4344;
    symbols[2].thread_entry = 0x2_0010;
    symbols[2].is_thread_local = true;
    let known = Known {
        architecture: Architecture::Ppc64,
        phase: Phase::ShortPcRel,
        addresses: Addresses {
            section: 0x1_0000,
            got_base: 0x2_0000,
            thread_origin: 0x3_0000,
            has_tls: true,
            ..Addresses::default()
        },
        symbols: &symbols,
    };
    let old = [
        0x00, 0x00, 0x62, 0x3c, // addis r3, r2, 0
        0x20, 0x01, 0x63, 0x38, // addi r3, r3, 0x120
        0x00, 0x00, 0x82, 0x3c, // addis r4, r2, 0
        0x10, 0x00, 0x84, 0xe8, // ld r4, 0x10(r4)
        0x14, 0x6a, 0xa4, 0x7c, // add r5, r4, r13
    ];
    let new = [
        0x00, 0x00, 0x00, 0x60, // nop
        0x20, 0x01, 0x62, 0x38, // addi r3, r2, 0x120
        0x00, 0x00, 0x00, 0x60, // nop
        0x05, 0x00, 0x8d, 0x3c, // addis r4, r13, 5
        0x44, 0x43, 0xa4, 0x38, // addi r5, r4, 0x4344
    ];
    let mut section = PPC64_OBJECT;
    if !is_relocated(&known, &PPC64_RELOCATIONS, &mut section, &old) {
        return false;
    }
    let (mut section, mut relocations) = (PPC64_OBJECT, PPC64_RELOCATIONS);
    is_linked(&known, &mut relocations, &mut section, &new)
}

/// The relocations of a section as `rewritten_items_into` takes them. Those of one symbol are calls
/// of what is at an offset.
fn as_items_take_them(relocations: &[u8], function: u32, target: u64) -> [Relocation; MOST] {
    let none = Relocation {
        offset: 0,
        r_type: 0,
        has_symbol: false,
        addend: 0,
        target: None,
        may_compress: false,
    };
    let mut taken = [none; MOST];
    for index in 0..MOST {
        if let Some(found) = relocation_at(relocations, index) {
            taken[index] = Relocation {
                offset: found.offset,
                r_type: found.r_type,
                has_symbol: found.symbol != 0,
                addend: found.addend,
                target: if found.symbol == function {
                    Some(target)
                } else {
                    None
                },
                may_compress: false,
            };
        }
    }
    taken
}

/// What riscv64-linux-gnu-as 2.40 makes with -march=rv64g, where f is symbol 5, the label 8, x 10
/// and y 11. `.reloc 1b, R_RISCV_RELAX` marks the `auipc`.
const RISCV64_OBJECT: [u8; 36] = [
    0xb7, 0x07, 0x00, 0x00, // lui a5, %hi(x)
    0x13, 0x85, 0x07, 0x00, // addi a0, a5, %lo(x)
    0x23, 0xb4, 0xa7, 0x00, // sd a0, %lo(x + 8)(a5)
    0x97, 0x05, 0x00, 0x00, // 1: auipc a1, %got_pcrel_hi(y)
    0x83, 0xb5, 0x05, 0x00, // ld a1, %pcrel_lo(1b)(a1)
    0x97, 0x00, 0x00, 0x00, 0xe7, 0x80, 0x00, 0x00, // call f
    0x00, 0x00, 0x00, 0x00, // .word 0
    0x67, 0x80, 0x00, 0x00, // f: ret
];

/// Its relocations.
const RISCV64_RELOCATIONS: [u8; 288] = *b"\
    \x00\0\0\0\0\0\0\0\x1a\0\0\0\x0a\0\0\0\0\0\0\0\0\0\0\0\
    \x00\0\0\0\0\0\0\0\x33\0\0\0\0\0\0\0\0\0\0\0\0\0\0\0\
    \x04\0\0\0\0\0\0\0\x1b\0\0\0\x0a\0\0\0\0\0\0\0\0\0\0\0\
    \x04\0\0\0\0\0\0\0\x33\0\0\0\0\0\0\0\0\0\0\0\0\0\0\0\
    \x08\0\0\0\0\0\0\0\x1c\0\0\0\x0a\0\0\0\x08\0\0\0\0\0\0\0\
    \x08\0\0\0\0\0\0\0\x33\0\0\0\0\0\0\0\x08\0\0\0\0\0\0\0\
    \x0c\0\0\0\0\0\0\0\x14\0\0\0\x0b\0\0\0\0\0\0\0\0\0\0\0\
    \x0c\0\0\0\0\0\0\0\x33\0\0\0\0\0\0\0\0\0\0\0\0\0\0\0\
    \x10\0\0\0\0\0\0\0\x18\0\0\0\x08\0\0\0\0\0\0\0\0\0\0\0\
    \x10\0\0\0\0\0\0\0\x33\0\0\0\0\0\0\0\0\0\0\0\0\0\0\0\
    \x14\0\0\0\0\0\0\0\x13\0\0\0\x05\0\0\0\0\0\0\0\0\0\0\0\
    \x14\0\0\0\0\0\0\0\x33\0\0\0\0\0\0\0\0\0\0\0\0\0\0\0";

/// RISC-V: whether the program of five groups, `linker_laws::simulation::riscv64_worked`, is what
/// the calls make of an object. In the phase `GotToPcRel` the load becomes a sum,
/// `rewrite_global_pointer` has the `lui` go, and `relax` and `pack_run` make the call a jump.
pub fn riscv64(alloc: Global) -> Result<bool, OutOfMemory>
    ensures { IfOk result (λ is_so. IsTrue is_so
        → IsOfShorterCalls RISCV64_OBJECT RISCV64_RELOCATIONS riscv_worked.code.old
        riscv_worked.code.new) }
{
    let start = 0x1_0000;
    let addresses = Addresses {
        section: start,
        ..Addresses::default()
    };
    let mut symbols = [NO_SYMBOL; MOST];
    symbols[5].address = 0x1_0020;
    symbols[8].address = 0x1_000c;
    symbols[10].address = 0x120;
    symbols[11].address = 0x1_3000;
    symbols[11].address_entry = 0x1_2010;
    let old = [
        0xb7, 0x07, 0x00, 0x00, // lui a5, 0
        0x13, 0x85, 0x07, 0x12, // addi a0, a5, 0x120
        0x23, 0xb4, 0xa7, 0x12, // sd a0, 0x128(a5)
        0x97, 0x25, 0x00, 0x00, // auipc a1, 2
        0x83, 0xb5, 0x45, 0x00, // ld a1, 4(a1)
        0x97, 0x00, 0x00, 0x00, 0xe7, 0x80, 0xc0, 0x00, // auipc ra, 0 and jalr ra, 12(ra)
        0x00, 0x00, 0x00, 0x00, //
        0x67, 0x80, 0x00, 0x00, // jalr zero, 0(ra)
    ];
    let new = [
        0x13, 0x05, 0x00, 0x12, // addi a0, zero, 0x120
        0x23, 0x34, 0xa0, 0x12, // sd a0, 0x128(zero)
        0x97, 0x35, 0x00, 0x00, // auipc a1, 3
        0x93, 0x85, 0x85, 0xff, // addi a1, a1, -8
        0xef, 0x00, 0x80, 0x00, // jal ra, 8
        0x00, 0x00, 0x00, 0x00, //
        0x67, 0x80, 0x00, 0x00, // jalr zero, 0(ra)
    ];
    let known = Known {
        architecture: Architecture::RiscV,
        phase: Phase::GotToPcRel,
        addresses,
        symbols: &symbols,
    };
    let mut section = RISCV64_OBJECT;
    if !is_relocated(&known, &RISCV64_RELOCATIONS, &mut section, &old) {
        return Ok(false);
    }
    let (mut section, mut relocations) = (RISCV64_OBJECT, RISCV64_RELOCATIONS);
    if !is_rewritten(&known, &mut relocations, &mut section) {
        return Ok(false);
    }
    let gp = 0x2_0000;
    let mut kept = [false; MOST];
    let facts = facts();
    let context = RelaxContext {
        architecture: Architecture::RiscV,
        phase: Phase::ShortPcRel,
        output: &OUTPUT,
        symbols: &facts,
        addresses: &addresses,
        values: &symbols,
    };
    if survey_global_pointer(&context, gp, &relocations, &section, &mut kept).is_err() {
        return Ok(false);
    }
    let mut deleted = [Deletion {
        offset: 0,
        bytes: 0,
    }];
    let Ok(1) = rewrite_global_pointer(
        &context,
        gp,
        &kept,
        &mut relocations,
        &section,
        &mut [DecisionNumbers::from_decision(Decision::Kept); MOST],
        &mut deleted,
    ) else {
        return Ok(false);
    };
    let taken = as_items_take_them(&relocations, 5, 0x20);
    let site = ItemNumbers::from_item(Item::Site(Site {
        offset: 0,
        len: 0,
        target: 0,
        shapes: CALL,
    }));
    let mut items = [site; ITEMS];
    let Ok(2) = rewritten_items_into(
        Machine::RiscV(Isa::Rv64),
        &section,
        0,
        &taken,
        &deleted,
        &mut items,
        &mut [0; ITEMS],
    ) else {
        return Ok(false);
    };
    let items = &items[..2];
    if !are_items(items, start) {
        return Ok(false);
    }
    let plan = relax(alloc, items, start)?;
    let deltas = plan.deletions.deltas();
    if packed_run_len(0, section.len(), deltas) != new.len() {
        return Ok(false);
    }
    let mut packed = [0; 28];
    let Ok(()) = pack_run(
        Machine::RiscV(Isa::Rv64),
        &section,
        0,
        items,
        deltas,
        start,
        &mut relocations,
        &mut packed,
    ) else {
        return Ok(false);
    };
    let lost = DeltaSlice::new(deltas);
    let mut moved = symbols;
    moved[5].address = lost.input_to_output_offset(0x20).wrapping_add(start);
    moved[8].address = lost.input_to_output_offset(0xc).wrapping_add(start);
    let Ok(()) = finish_gp_relaxation(&addresses, &moved, gp, &mut relocations, &mut packed) else {
        return Ok(false);
    };
    let final_known = Known {
        symbols: &moved,
        ..known
    };
    Ok(is_relocated(&final_known, &relocations, &mut packed, &new))
}

/// What x86_64-linux-gnu-as 2.40 makes, where a is symbol 2, x is symbol 3 and f is symbol 4.
const X86_64_OBJECT: [u8; 29] = [
    0x48, 0x8b, 0x15, 0x00, 0x00, 0x00, 0x00, // mov a@GOTPCREL(%rip), %rdx
    0x48, 0x03, 0x0d, 0x00, 0x00, 0x00, 0x00, // add x@gottpoff(%rip), %rcx
    0x48, 0x8d, 0x05, 0x00, 0x00, 0x00, 0x00, // lea x@tlsdesc(%rip), %rax
    0xff, 0x10, // call *x@tlscall(%rax)
    0xff, 0x15, 0x00, 0x00, 0x00, 0x00, // call *f@GOTPCREL(%rip)
];

/// Its relocations.
const X86_64_RELOCATIONS: [u8; 120] = *b"\
    \x03\0\0\0\0\0\0\0\x2a\0\0\0\x02\0\0\0\xfc\xff\xff\xff\xff\xff\xff\xff\
    \x0a\0\0\0\0\0\0\0\x16\0\0\0\x03\0\0\0\xfc\xff\xff\xff\xff\xff\xff\xff\
    \x11\0\0\0\0\0\0\0\x22\0\0\0\x03\0\0\0\xfc\xff\xff\xff\xff\xff\xff\xff\
    \x15\0\0\0\0\0\0\0\x23\0\0\0\x03\0\0\0\0\0\0\0\0\0\0\0\
    \x19\0\0\0\0\0\0\0\x29\0\0\0\x04\0\0\0\xfc\xff\xff\xff\xff\xff\xff\xff";

/// x86-64: whether the program of five groups, `worked` of
/// `linker_laws::simulation::x86_64_worked`, is what the calls make of an object. The descriptor's
/// function isn't of the object.
pub fn x86_64() -> bool
    ensures { IsTrue result → IsOfCalls x86_64_section.rewriting X86_64_OBJECT
        X86_64_RELOCATIONS x86_worked.code.old x86_worked.code.new }
{
    let mut symbols = [NO_SYMBOL; MOST];
    symbols[2].address = 0x40_4030;
    symbols[2].address_entry = 0x40_4000;
    symbols[3].address = 0x40_4ff0;
    symbols[3].thread_entry = 0x40_4008;
    symbols[3].descriptor = 0x40_4018;
    symbols[3].is_thread_local = true;
    symbols[4].address = 0x40_1020;
    symbols[4].address_entry = 0x40_4010;
    let known = Known {
        architecture: Architecture::X86_64,
        phase: Phase::GotToPcRel,
        addresses: Addresses {
            section: 0x40_1000,
            thread_origin: 0x40_5000,
            has_tls: true,
            ..Addresses::default()
        },
        symbols: &symbols,
    };
    let old = [
        0x48, 0x8b, 0x15, 0xf9, 0x2f, 0x00, 0x00, // mov a@GOTPCREL(%rip), %rdx
        0x48, 0x03, 0x0d, 0xfa, 0x2f, 0x00, 0x00, // add x@gottpoff(%rip), %rcx
        0x48, 0x8d, 0x05, 0x03, 0x30, 0x00, 0x00, // lea x@tlsdesc(%rip), %rax
        0xff, 0x10, // call *x@tlscall(%rax)
        0xff, 0x15, 0xf3, 0x2f, 0x00, 0x00, // call *f@GOTPCREL(%rip)
    ];
    let new = [
        0x48, 0x8d, 0x15, 0x29, 0x30, 0x00, 0x00, // lea a(%rip), %rdx
        0x48, 0x81, 0xc1, 0xf0, 0xff, 0xff, 0xff, // add $x@tpoff, %rcx
        0x48, 0xc7, 0xc0, 0xf0, 0xff, 0xff, 0xff, // mov $x@tpoff, %rax
        0x66, 0x90, // xchg %ax, %ax
        0x67, 0xe8, 0x03, 0x00, 0x00, 0x00, // addr32 call f
    ];
    let mut section = X86_64_OBJECT;
    if !is_relocated(&known, &X86_64_RELOCATIONS, &mut section, &old) {
        return false;
    }
    let (mut section, mut relocations) = (X86_64_OBJECT, X86_64_RELOCATIONS);
    is_linked(&known, &mut relocations, &mut section, &new)
}
