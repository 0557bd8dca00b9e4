//! AArch64: instruction forms, relaxation rewrites, and the moves that load a number of 64 bits.

mod choices;
mod rewrites;
mod sequences;

ghost use Rattle.std.specs.Prelude.{◌≡◌, IfSome};
ghost use Rattle.std.specs.Option.{option_map};
ghost use Rattle.linker_elf.specs.Agrees.{RowAgrees, RowFits};
ghost use Rattle.linker_elf.specs.AArch64Relocations.{aarch64_row};
ghost use Rattle.linker_elf.specs.Readings.{RowReadsNoOther};
ghost use Rattle.linker_utils.specs.Upstream.{row_of};

use crate::elf::{RelocationKindInfo, upstream};
pub use choices::{choose, fits, is_tls_descriptor_sequence, relocations_are_chosen_alike};
use linker_elf::aarch64 as relocations;
pub use linker_elf::aarch64::{AArch64Instruction, AArch64Relocation, row};
pub use rewrites::{RewriteKind, RewriteKind as RelaxationKind, is_adrp_pair};
pub use sequences::write_mov_sequence;

/// The distance in bytes from the thread pointer to the first TLS block: the thread control block's
/// two words (System V ABI for the Arm 64-bit Architecture, "Thread-local storage").
pub const TLS_TCB_SIZE: u64 = 16;

const _: () = prove!(TLS_TCB_SIZE == 2 * size_of::<u64>() as u64);

/// What a relocation means, as `row` says.
#[inline(always)]
pub fn relocation_type_from_raw(name: AArch64Relocation) -> Option<RelocationKindInfo>
    ensures row { option_map row_of result ≡ aarch64_row name }
    ensures agrees { IfSome result (λ info. RowAgrees (row_of info)) }
    ensures others { IfSome result (λ info. RowReadsNoOther (row_of info)) }
    ensures fits { IfSome result (λ info. RowFits (row_of info)) }
{
    upstream(relocations::upstream_row(name))
}
