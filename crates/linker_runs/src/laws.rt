//! Laws of runs: of `relax`, `shrink_calls`, `section_items` and `pack_run` together.

ghost use Rattle.std.specs.Prelude.{◌≡◌};
ghost use Rattle.linker_runs.specs.Calls.{call_shapes, CallsAreShrunkAlike};
ghost use Rattle.linker_runs.specs.FirstBytes.{FirstBytesAreKept};
ghost use Rattle.linker_runs.specs.RewrittenLaws.{RewrittenSitesHaveInstructions, DeletedBytesGo};
ghost use Rattle.linker_runs.specs.Writable.{ShortSitesAreWritable, NearCallsAreWritable};
ghost use Rattle.linker_runs.specs.Writable.{NearCalls36AreWritable, NearAddressesAreWritable};
ghost use Rattle.linker_runs.specs.Writable.{NoneIsOutOfReach, MadeSitesHaveInstructions};

use crate::relaxation::Shapes;
use crate::shapes::riscv64::CALL;

/// The shapes of a RISC-V call, of which `calls_are_shrunk_alike` speaks.
pub fn call_shapes() -> Shapes
    ensures { result ≡ call_shapes }
{
    CALL
}

/// For calls between which nothing is aligned, with earlier deletions as items of one shape,
/// `relax` gives those their `jal` that `shrink_calls` chooses beside these deletions.
pub fn calls_are_shrunk_alike()
    ensures { CallsAreShrunkAlike }
{}

/// As many bytes of each item stay as `relax` says, where a run is packed with the
/// deletions that it returns, and they are the item's first ones. So `pack_run` never
/// returns `NotItsFirstBytes` then.
pub fn first_bytes_are_kept()
    ensures { FirstBytesAreKept }
{}

/// What `relax` made shorter, `pack_run` can write with the deletions that it returns: the written
/// instruction reaches the target. So where the bytes of a site are those that it was made of
/// (`has_its_instructions` of `linker_runs`), and the site has a short shape, `pack_run` never
/// returns `OutOfReach` for it, nor any other error that is about the site alone.
pub fn short_sites_are_writable()
    ensures { ShortSitesAreWritable }
{}

/// Each call of RISC-V that has its instructions, `pack_run` can write where it and its target lie
/// in the first 2 GiB less 2 KiB of the run, also where it stays long. So `pack_run` never returns
/// `OutOfReach` for such a run.
pub fn near_calls_are_writable()
    ensures { NearCallsAreWritable }
{}

/// The same of each `R_LARCH_CALL36` that has its instructions, where it and its target lie in the
/// first 128 GiB less 128 KiB of the run.
pub fn near_calls_36_are_writable()
    ensures { NearCalls36AreWritable }
{}

/// The same of each `R_LARCH_PCALA_HI20` and `R_LARCH_PCALA_LO12` that have their instructions,
/// where they and their target lie in the first 2 GiB less 8 KiB of the run.
pub fn near_addresses_are_writable()
    ensures { NearAddressesAreWritable }
{}

/// With the deletions that `relax` returns, `pack_run` never returns `OutOfReach` where the
/// items that it is given are of the run and each of their sites that has short shapes has
/// its instructions (`has_its_instructions` of `linker_runs`), and where the site stays
/// long, is near its target:
/// - of RISC-V both lie in the first 2 GiB less 2 KiB of the run;
/// - of `R_LARCH_CALL36` in the first 128 GiB less 128 KiB;
/// - of `R_LARCH_PCALA_HI20` and `R_LARCH_PCALA_LO12` in the first 2 GiB less 8 KiB.
pub fn none_is_out_of_reach()
    ensures { NoneIsOutOfReach }
{}

/// The sites that `section_items` returns have their instructions, as
/// `short_sites_are_writable` requires.
pub fn made_sites_have_instructions()
    ensures { MadeSitesHaveInstructions }
{}

/// The same of the sites that `rewritten_items_into` lists, but for its deletions, which have no
/// instructions to be tested.
pub fn rewritten_sites_have_instructions()
    ensures { RewrittenSitesHaveInstructions }
{}

/// Of what rewrites delete, as `rewritten_items_into` lists it, no byte stays where a run is packed
/// with the deletions that `relax` returns.
pub fn deleted_bytes_go()
    ensures { DeletedBytesGo }
{}
