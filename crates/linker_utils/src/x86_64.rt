//! x86-64: relaxation rewrites, and what relocations mean.

mod choices;
mod relaxation_kind;
mod rewrites;

ghost use Rattle.std.specs.Prelude.{◌≡◌};
ghost use Rattle.std.specs.Option.{option_map};
ghost use Rattle.linker_elf.specs.Rows.{raw_row};
ghost use Rattle.linker_elf.specs.X86Relocations.{x86_64_relocation};
ghost use Rattle.linker_utils.specs.Upstream.{row_of};

use crate::elf::{RelocationKindInfo, upstream};
pub use choices::{choose, fits};
use linker_elf::x86_64 as relocations;
pub use linker_elf::x86_64::{X86_64Relocation, row};
pub use relaxation_kind::RelaxationKind;
pub use rewrites::{RewriteKind, may_be_skipped};

/// What a relocation means, as `row` says, or `None` for `R_X86_64_TPOFF64`, which the crate
/// `linker-utils` has no row for.
#[inline(always)]
pub fn relocation_from_raw(name: X86_64Relocation) -> Option<RelocationKindInfo>
    ensures { option_map row_of result ≡ raw_row (x86_64_relocation name) }
{
    upstream(relocations::upstream_row(name))
}
