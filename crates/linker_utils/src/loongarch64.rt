//! LoongArch: instruction forms, relaxation rewrites, what relocations mean, and addresses made by
//! five instructions.

mod choices;
mod relaxation_kind;
mod rewrites;

ghost use Rattle.std.specs.Prelude.{◌≡◌, IfSome};
ghost use Rattle.std.specs.Option.{option_map};
ghost use Rattle.linker_elf.specs.Agrees.{LoongArchRowAgrees, RowFits};
ghost use Rattle.linker_elf.specs.LoongArchRelocations.{loongarch_raw_row};
ghost use Rattle.linker_elf.specs.Readings.{LoongArchRowReadsNoOther};
ghost use Rattle.linker_utils.specs.Upstream.{row_of};

use crate::elf::{RelocationKindInfo, upstream};
pub use choices::{choose, fits, relocations_are_chosen_alike};
use linker_elf::loongarch64 as relocations;
pub use linker_elf::loongarch64::{
    LoongArch64Instruction, LoongArch64Relocation, highest_relocation_with_bias, row,
    write_address_sequence,
};
pub use relaxation_kind::RelaxationKind;
pub use rewrites::RewriteKind;

/// What a relocation means, as `row` says, or `None` for those that the crate `linker-utils` has no
/// row for: `R_LARCH_MARK_LA`, and the GOT entries for TLS by `pcaddi`,
/// `R_LARCH_TLS_LD_PCREL20_S2`, `R_LARCH_TLS_GD_PCREL20_S2` and `R_LARCH_TLS_DESC_PCREL20_S2`. The
/// kind of `R_LARCH_ALIGN` is `None` there, and here.
#[inline(always)]
pub fn relocation_type_from_raw(name: LoongArch64Relocation) -> Option<RelocationKindInfo>
    ensures row { option_map row_of result ≡ loongarch_raw_row name }
    // not of pairs: `reaches` of `write_to_value` says what `Call36` holds
    ensures agrees { IfSome result (λ info. LoongArchRowAgrees name (row_of info)) }
    ensures others { IfSome result (λ info. LoongArchRowReadsNoOther name (row_of info)) }
    ensures fits { IfSome result (λ info. RowFits (row_of info)) }
{
    upstream(relocations::upstream_row(name))
}
