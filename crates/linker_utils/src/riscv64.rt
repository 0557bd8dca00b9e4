//! RISC-V: instruction forms, fields of instructions, relaxation rewrites, what relocations mean,
//! and calls that become jumps.

mod choices;
mod relaxation_kind;
mod rewrites;

ghost use Rattle.std.specs.Prelude.{◌≡◌, IfSome};
ghost use Rattle.std.specs.Option.{option_map};
ghost use Rattle.linker_elf.specs.Agrees.{RowAgrees, RowFits};
ghost use Rattle.linker_elf.specs.RiscVRelocations.{riscv_row};
ghost use Rattle.linker_elf.specs.Readings.{RowReadsNoOther};
ghost use Rattle.linker_utils.specs.Upstream.{row_of};

use crate::elf::{RelocationKindInfo, upstream};
pub use choices::{choose, fits, relocations_are_chosen_alike};
pub use linker_base::rewrite::DeletedBytes;
use linker_elf::riscv64 as relocations;
pub use linker_elf::riscv64::{RiscVInstruction, RiscVRelocation, clui_row, row};
pub use linker_riscv64::{
    AsChoice, Call, CallError, JAL_MAX, JAL_MIN, JumpError, LinkRegister, PackError, RejectedCall,
    calls_apart, calls_shrinkable, distance_fits_jal, fields, first_not_apart,
    first_not_shrinkable, is_plain_call, jal_site, jal_site_with, pack_into, pack_section,
    packed_calls_reach_targets, packed_len, relax_call, relax_call_over, shrink_calls,
    shrink_calls_into, shrunk_calls_are_accepted,
};
pub use relaxation_kind::RelaxationKind;
pub use rewrites::{RewriteKind, may_be_skipped};

/// What a relocation means, as `row` says, or `None` for the four of TLS descriptors and for
/// `R_RISCV_RVC_LUI`.
#[inline(always)]
pub fn relocation_type_from_raw(name: RiscVRelocation) -> Option<RelocationKindInfo>
    ensures row { option_map row_of result ≡ riscv_row name }
    // only of branches and jumps: `pair` of `write_to_value` says what pairs hold
    ensures agrees { IfSome result (λ info. RowAgrees (row_of info)) }
    ensures others { IfSome result (λ info. RowReadsNoOther (row_of info)) }
    ensures fits { IfSome result (λ info. RowFits (row_of info)) }
{
    upstream(relocations::upstream_row(name))
}
