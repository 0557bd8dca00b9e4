//! The `r_type`s of the relocations that fields of stubs and lazy PLTs have, and that loads from
//! PowerPC64's `.toc` have.

/// The `r_type` of a name.
macro_rules! r_type {
    (R_AARCH64_ABS64) => { 257 };
    (R_AARCH64_PREL64) => { 260 };
    (R_AARCH64_ADR_PREL_PG_HI21) => { 275 };
    (R_AARCH64_ADD_ABS_LO12_NC) => { 277 };
    (R_AARCH64_LDST64_ABS_LO12_NC) => { 286 };
    (R_LARCH_GOT_PC_HI20) => { 75 };
    (R_LARCH_GOT_PC_LO12) => { 76 };
    (R_LARCH_CALL36) => { 110 };
    (R_LARCH_TLS_LE_HI20_R) => { 121 };
    (R_LARCH_TLS_LE_LO12_R) => { 123 };
    (R_PPC64_REL24) => { 10 };
    (R_PPC64_GOT16_LO) => { 15 };
    (R_PPC64_GOT16_HA) => { 17 };
    (R_PPC64_REL64) => { 44 };
    (R_PPC64_TOC16_LO) => { 48 };
    (R_PPC64_TOC16_HA) => { 50 };
    (R_PPC64_GOT16_LO_DS) => { 59 };
    (R_PPC64_TOC16_LO_DS) => { 64 };
    (R_PPC64_PCREL34) => { 132 };
    (R_RISCV_PCREL_HI20) => { 23 };
    (R_RISCV_PCREL_LO12_I) => { 24 };
    (R_X86_64_PC32) => { 2 };
    (R_X86_64_32S) => { 11 };
}

pub(crate) use r_type;
