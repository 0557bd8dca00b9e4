//! Immediates, sequences and relocations of all architectures, worked by hand from their manuals.

use crate::poke::{poke, write_back};
use crate::rows::{expect, expect_eq};
use linker_utils::elf::RelocationInstruction::{AArch64, LoongArch64, Ppc64, RiscV};
use linker_utils::elf::{
    AArch64Instruction, AllowedRange, Architecture, Bias, InstructionForm, LoongArch64Instruction,
    Ppc64Instruction, RelocationInstruction, RelocationSize, RiscVInstruction, Sign,
};
use linker_utils::utils::u32_from_slice;
use linker_utils::{aarch64, loongarch64, ppc64, riscv64, x86_64};

/// An instruction, a value, and whether it is negative.
type Word = (u64, i64, bool);

/// A form, the instruction with what is written, and the instruction then with what is read of it.
static WORDS: [(RelocationInstruction, Word, Word); 32] = [
    (
        RiscV(RiscVInstruction::UType),
        (0x0000_0537, 0x800, false),
        (0x0000_1537, 0x800, false),
    ),
    (
        RiscV(RiscVInstruction::IType),
        (0x0005_0513, 0x800, false),
        (0x8005_0513, -2048, true),
    ),
    (
        RiscV(RiscVInstruction::BType),
        (0x0000_0063, -4096, true),
        (0x8000_0063, -4096, true),
    ),
    (
        RiscV(RiscVInstruction::BType),
        (0x0000_0063, 4094, false),
        (0x7e00_0fe3, 4094, false),
    ),
    (
        RiscV(RiscVInstruction::JType),
        (0x6f, -1048576, true),
        (0x8000_006f, -1048576, true),
    ),
    (
        RiscV(RiscVInstruction::JType),
        (0x6f, 1048574, false),
        (0x7fff_f06f, 1048574, false),
    ),
    (
        RiscV(RiscVInstruction::CbType),
        (0xc001, 254, false),
        (0xcc7d, 254, false),
    ),
    (
        RiscV(RiscVInstruction::CjType),
        (0xa001, -2, true),
        (0xbffd, -2, true),
    ),
    (
        RiscV(RiscVInstruction::CluiType),
        (0x6501, -0x1000, true),
        (0x757d, -0x1800, true),
    ),
    (
        RiscV(RiscVInstruction::UType),
        (0, -0x801, false),
        (0xffff_f000, -0x1800, false),
    ),
    (
        RiscV(RiscVInstruction::IType),
        (0, -1, true),
        (0xfff0_0000, -1, true),
    ),
    (
        RiscV(RiscVInstruction::SType),
        (0, -1, true),
        (0xfe00_0f80, -1, true),
    ),
    (
        RiscV(RiscVInstruction::BType),
        (0, -1, true),
        (0xfe00_0f80, -2, true),
    ),
    (
        RiscV(RiscVInstruction::JType),
        (0, -1, true),
        (0xffff_f000, -2, true),
    ),
    (
        RiscV(RiscVInstruction::CbType),
        (0, 0xffff, false),
        (0x1c7c, -2, true),
    ),
    (
        RiscV(RiscVInstruction::CjType),
        (0, 0xffff, false),
        (0x1ffc, -2, true),
    ),
    (
        RiscV(RiscVInstruction::UType),
        (0, 0xffff_fff6, true),
        (0, -0x800, false),
    ),
    (
        RiscV(RiscVInstruction::IType),
        (0, 0xffff_fff6, true),
        (0xff60_0000, -10, true),
    ),
    (
        RiscV(RiscVInstruction::UType),
        (0x37, 0x7fff_f7ff, false),
        (0x7fff_f037, 0x7fff_e800, false),
    ),
    (
        RiscV(RiscVInstruction::UiType),
        (0, 0x800, false),
        (0x8000_0000_0000_1000, 0x800, false),
    ),
    (
        AArch64(AArch64Instruction::Movnz),
        (0xd2a0_0003, 0xfffe, true),
        (0x92a0_0023, -2, true),
    ),
    (
        AArch64(AArch64Instruction::Adr),
        (0x1000_0000, 0x1f_ffff, false),
        (0x70ff_ffe0, -1, false),
    ),
    (
        AArch64(AArch64Instruction::MachOLow12),
        (0x3dc0_0000, 0x120, false),
        (0x3dc0_4800, 0x120, false),
    ),
    (
        AArch64(AArch64Instruction::LdSt),
        (0, 0xfff, false),
        (0x003f_fc00, -1, false),
    ),
    (
        LoongArch64(LoongArch64Instruction::Call36),
        (0, 0x7_ffff_7fff, false),
        (0x01ff_fc00_00ff_ffe0, 0x7_ffff_7fff, false),
    ),
    (
        LoongArch64(LoongArch64Instruction::Call36),
        (0, 0x7_ffff_8000, false),
        (0x0200_0000_0100_0000, 0x7_ffff_8000, false),
    ),
    (
        LoongArch64(LoongArch64Instruction::Call36),
        (0, (1 << 36) - 1, false),
        (0x03ff_fc00_0000_0000, (1 << 36) - 1, false),
    ),
    (
        LoongArch64(LoongArch64Instruction::Call30),
        (0, 0xf_ffff, false),
        (0x0007_fc00_01ff_c000, 0xf_ffff, false),
    ),
    (
        LoongArch64(LoongArch64Instruction::Branch21),
        (0x4000_0000, 0x1f_ffff, false),
        (0x43ff_fc1f, -1, true),
    ),
    (
        LoongArch64(LoongArch64Instruction::Shift10),
        (0x02c0_0000, 0x800, false),
        (0x02e0_0000, 0x800, false),
    ),
    (
        Ppc64(Ppc64Instruction::D),
        (0xabcd_0000, 0x12345, false),
        (0xabcd_2345, 0x2345, false),
    ),
    (
        Ppc64(Ppc64Instruction::Branch24),
        (0x4800_0001, 0x3ff_ffff, false),
        (0x4bff_fffd, 0x3ff_fffc, false),
    ),
];

/// A form, an instruction, a value, and whether it fits.
static FITS: [(AArch64Instruction, u32, u64, bool); 4] = [
    (AArch64Instruction::Movkz, 0, 0x10000, false),
    (AArch64Instruction::Movkz, 0, 0xffff, true),
    (AArch64Instruction::MachOLow12, 0x3dc0_0000, 0x10000, false),
    (AArch64Instruction::MachOLow12, 0x3dc0_0000, 0xffff, true),
];

#[test]
fn immediates_are_written_and_read(rt: HostRuntime) {
    for (form, (before, value, negative), after) in &WORDS {
        let (row, mut bytes) = ((form, value), before.to_le_bytes());
        let value = value.cast_unsigned();
        expect(&rt, row, form.window() <= 8 && form.fits(value, &bytes));
        form.write(value, *negative, &mut bytes);
        let (number, flag) = form.read(&bytes);
        let found = (u64::from_le_bytes(bytes), number.cast_signed(), flag);
        expect_eq(&rt, row, found, *after);
    }
    for (form, word, value, fits) in &FITS {
        let bytes = word.to_le_bytes();
        expect(&rt, form, form.window() <= 4);
        expect_eq(&rt, (form, value), form.fits(*value, &bytes), *fits);
    }
}

/// A word of 0, and `jal x0, 0`.
const JUMP: [u8; 8] = *b"\0\0\0\0\x6f\0\0\0";

/// A form, a value and whether it is negative, a section, an offset there, and the section with the
/// value, if it is written.
static POKED: [(
    RelocationInstruction,
    (u64, bool),
    ([u8; 8], usize),
    Option<[u8; 8]>,
); 7] = [
    (
        RiscV(RiscVInstruction::JType),
        (8, false),
        (JUMP, 4),
        Some(*b"\0\0\0\0\x6f\0\x80\0"),
    ),
    (RiscV(RiscVInstruction::JType), (8, false), (JUMP, 5), None),
    (RiscV(RiscVInstruction::JType), (8, false), (JUMP, 8), None),
    (RiscV(RiscVInstruction::JType), (8, false), (JUMP, 9), None),
    (
        RiscV(RiscVInstruction::JType),
        (8, false),
        (JUMP, usize::MAX),
        None,
    ),
    (
        AArch64(AArch64Instruction::Adr),
        (1 << 21, false),
        ([0; 8], 0),
        None,
    ),
    (
        AArch64(AArch64Instruction::Movnz),
        (0xfffe, true),
        (*b"\x03\0\xa0\xd2\0\0\0\0", 0),
        Some(*b"\x23\0\xa0\x92\0\0\0\0"),
    ),
];

/// `b.eq` by -4 bytes, whose 19 bits are all 1.
const BRANCH: [u8; 8] = *b"\0\0\0\0\xe0\xff\xff\x54";

/// A form, a section, an offset there, whether a value is written back, and the section then.
static WRITTEN_BACK: [(RelocationInstruction, [u8; 8], usize, bool, [u8; 8]); 3] = [
    (AArch64(AArch64Instruction::Bcond), BRANCH, 4, true, BRANCH),
    (AArch64(AArch64Instruction::Bcond), BRANCH, 5, false, BRANCH),
    // bit 5 of word one is cleared
    (
        LoongArch64(LoongArch64Instruction::Call30),
        *b"\x20\0\0\0\0\0\0\0",
        0,
        true,
        [0; 8],
    ),
];

#[test]
fn values_are_poked_where_they_fit(rt: HostRuntime) {
    for (form, (value, negative), (before, offset), after) in &POKED {
        let (row, mut section) = ((form, value, offset), *before);
        let is_poked = poke(*form, *value, *negative, &mut section, *offset);
        let expected = (after.is_some(), after.unwrap_or(*before));
        expect_eq(&rt, row, (is_poked, section), expected);
    }
    for (form, before, offset, is_written, after) in &WRITTEN_BACK {
        let mut section = *before;
        let found = (write_back(*form, &mut section, *offset), section);
        expect_eq(&rt, (form, offset), found, (*is_written, *after));
    }
}

/// An address of the first instruction, a target, and the five instructions.
static ADDRESSES: [(u64, u64, [u32; 5]); 2] = [
    (0, 0x800, [0x20, 0x0020_0000, 0x01ff_ffe0, 0x003f_fc00, 0]),
    (
        0x1000,
        0xffff_ffff_8000_0000,
        [0x00ff_ffe0, 0, 0x01ff_ffe0, 0x003f_fc00, 0],
    ),
];

/// A value, and the two halves of its address.
static HALVES: [(i64, u32, u32); 2] = [
    (0x8000, 0x3c00_0001, 0x3800_8000),
    (-1, 0x3c00_0000, 0x3800_ffff),
];

/// A symbol, an address, and the highest address of a relocation.
static HIGHEST: [(u64, u64, u64); 2] = [
    (0x800, 8, 0xffff_ffff_8000_1000),
    (0xffff_ffff_8000_0000, 0x1008, 0xffff_ffff_ffff_f000),
];

#[test]
fn sequences_hold_their_number(rt: HostRuntime) {
    for (pc, target, words) in &ADDRESSES {
        let mut bytes = [0; 20];
        loongarch64::write_address_sequence(&mut bytes, *pc, *target);
        for at in 0..5 {
            let found = u32_from_slice(&bytes[4 * at..]);
            expect_eq(&rt, (target, at), found, words[at]);
        }
    }
    for (symbol, pc, high) in &HIGHEST {
        let found = loongarch64::highest_relocation_with_bias(*symbol, *pc);
        expect_eq(&rt, symbol, found, *high);
    }
}

#[test]
fn halves_hold_their_number(rt: HostRuntime) {
    let (mut moves, words) = (
        [0; 16],
        [0xd299_bde5, 0xf2b1_3565, 0xf2c8_ace5, 0xf2e0_2465],
    );
    aarch64::write_mov_sequence(&mut moves, 5, 0x0123_4567_89ab_cdef);
    for at in 0..4 {
        expect_eq(&rt, at, u32_from_slice(&moves[4 * at..]), words[at]);
    }
    for (value, high, low) in &HALVES {
        let mut ha = 0x3c00_0000u32.to_le_bytes();
        let mut lo = 0x3800_0000u32.to_le_bytes();
        ppc64::write_ha_lo(&mut ha, &mut lo, value.cast_unsigned());
        let words = (u32::from_le_bytes(ha), u32::from_le_bytes(lo));
        expect_eq(&rt, value, words, (*high, *low));
    }
}

/// A range, a number, and whether the range contains it.
fn ranges() -> [(AllowedRange, i64, bool); 5] {
    let signed = AllowedRange::from_bit_size(17, Sign::Signed);
    let jal = AllowedRange::new(-1_048_576, 1_048_575);
    [
        (signed, -65536, true),
        (signed, 65535, true),
        (signed, 65536, false),
        (jal, 1_048_574, true),
        (jal, 1_048_575, false),
    ]
}

#[test]
fn relocations_have_the_meaning_of_the_original(rt: HostRuntime) {
    for (range, number, is_contained) in ranges() {
        expect_eq(&rt, (range, number), range.contains(number), is_contained);
    }
    let jal = riscv64::relocation_type_from_raw(riscv64::RiscVRelocation::R_RISCV_JAL);
    let got = aarch64::relocation_type_from_raw(aarch64::AArch64Relocation::R_AARCH64_GOTREL64);
    expect(&rt, 0, Bias::from_value(0).is_none());
    if let (Some(jal), Some(got)) = (jal, got) {
        let range = AllowedRange::new(-1_048_576, 1_048_575);
        let expected = (range, RelocationSize::ByteSize(8));
        expect_eq(&rt, (17, 307), (jal.range, got.size), expected);
    } else {
        expect(&rt, (17, 307), false);
    }
    // MOVN for -65537, of bits 16 to 31
    let mut bytes = 0xd2a0_0003u32.to_le_bytes();
    if let Some(row) = aarch64::row(aarch64::AArch64Relocation::R_AARCH64_MOVW_SABS_G1) {
        expect(&rt, 271, row.write(-65537, &mut bytes).is_ok());
    }
    expect_eq(&rt, 271, u32::from_le_bytes(bytes), 0x92a0_0023);
}

#[test]
fn other_names_have_no_row(rt: HostRuntime) {
    let found = [
        aarch64::relocation_type_from_raw(aarch64::AArch64Relocation::Other(7)),
        riscv64::relocation_type_from_raw(riscv64::RiscVRelocation::Other(7)),
        loongarch64::relocation_type_from_raw(loongarch64::LoongArch64Relocation::Other(7)),
        ppc64::relocation_type_from_raw(ppc64::Ppc64Relocation::Other(7)),
        x86_64::relocation_from_raw(x86_64::X86_64Relocation::Other(7)),
        riscv64::relocation_type_from_raw(riscv64::RiscVRelocation::R_RISCV_TLSDESC_CALL),
        x86_64::relocation_from_raw(x86_64::X86_64Relocation::R_X86_64_TPOFF64),
    ];
    expect_eq(&rt, "in order", found, [None; 7]);
    for &r_type in &[0, 4, 5, 6, 47, 56, 57, 63, 116, 123, 132, 133] {
        let name = ppc64::Ppc64Relocation::from_elf(r_type);
        let found = (
            ppc64::relocation_type_from_raw(name),
            Architecture::Ppc64.row(r_type).is_some(),
        );
        expect_eq(&rt, r_type, found, (None, true));
    }
}
