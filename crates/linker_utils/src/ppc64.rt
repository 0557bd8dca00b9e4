//! PowerPC64: instruction forms, what relocations mean, rewrites and their choice, and addresses in
//! two halves.

mod choices;
mod instruction;
mod relaxation_kind;
mod rewrites;

ghost use Rattle.std.specs.Prelude.{◌≡◌, IfSome};
ghost use Rattle.std.specs.Option.{option_map};
ghost use Rattle.linker_elf.specs.Agrees.{RowAgrees, RowFits};
ghost use Rattle.linker_elf.specs.Ppc64Relocations.{ppc64_relocation};
ghost use Rattle.linker_elf.specs.Readings.{RowReadsNoOther};
ghost use Rattle.linker_elf.specs.Rows.{raw_row};
ghost use Rattle.linker_utils.specs.Upstream.{row_of};

use crate::elf::{RelocationKindInfo, upstream};
pub use choices::{choose, fits, relocations_are_chosen_alike};
pub use instruction::Ppc64Instruction;
use linker_elf::ppc64 as relocations;
pub use linker_elf::ppc64::{Ppc64Form, Ppc64Relocation, row, write_ha_lo};
pub use relaxation_kind::RelaxationKind;
pub use rewrites::{RewriteKind, may_be_skipped};

/// What a relocation means, as `row` says, or `None` for those that the crate `linker-utils` has no
/// row for: `R_PPC64_NONE`, absolute addresses (`R_PPC64_ADDR24`, `R_PPC64_ADDR14` and the
/// `R_PPC64_ADDR16` with what follows it), the parts of 64 bits (`_HIGH`, `_HIGHER`, `_HIGHEST` and
/// those with an A), `R_PPC64_TOC16`, `R_PPC64_TOC16_HI`, `R_PPC64_TOC16_DS`, `R_PPC64_REL16`,
/// `R_PPC64_REL16_HI`, `R_PPC64_REL24_NOTOC`, the GOT and PLT entries (`R_PPC64_GOT16` and
/// `R_PPC64_PLT16` with what follows), marks (`R_PPC64_ENTRY`, `R_PPC64_PLTSEQ`, `R_PPC64_PLTCALL`,
/// their `_NOTOC`, and `R_PPC64_PCREL_OPT`), and all prefixed instructions (`R_PPC64_D34`,
/// `R_PPC64_PCREL34` and their like).
#[inline(always)]
pub fn relocation_type_from_raw(name: Ppc64Relocation) -> Option<RelocationKindInfo>
    ensures row { option_map row_of result ≡ raw_row (ppc64_relocation name) }
    ensures agrees { IfSome result (λ info. RowAgrees (row_of info)) }
    ensures others { IfSome result (λ info. RowReadsNoOther (row_of info)) }
    ensures fits { IfSome result (λ info. RowFits (row_of info)) }
{
    upstream(relocations::upstream_row(name))
}
