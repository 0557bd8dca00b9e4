//! The kept bytes of a section, with its calls made jumps.

ghost use Rattle.std.specs.Prelude.{◌≡◌, ◌↔◌, map, length, All, IsTrue};
ghost use Rattle.std.specs.Prelude.{IfOk, IfErr, OnOk, OnErr, MatchOption};
ghost use Rattle.linker_base.specs.Deletions.{rank};
ghost use Rattle.linker_base.specs.Deltas.{deletions_of};
ghost use Rattle.linker_base.specs.Blocks.{IsValidView};
ghost use Rattle.linker_base.specs.Listed.{AreValidDeltas};
ghost use Rattle.linker_base.specs.Inner.Packing.{IsFilled};
ghost use Rattle.linker_riscv64.specs.Packing.{AreApart, IsFirstNotApart, CanJump, IsRejected};
ghost use Rattle.linker_riscv64.specs.Packing.{IsFirstRejected, IsFirstFailing, IsPacked};
ghost use Rattle.linker_riscv64.specs.Packing.{PackedCallsReachTargets};
ghost use Rattle.linker_riscv64.specs.RiscVCalls.{JumpsAndLinks, link_register, output_distance};
ghost use Rattle.linker_riscv64.specs.declared.packing.PackError.{PackError};

use super::calls::{AsCall, CallError, JumpError, LinkRegister, jal_site, jump_of, test_distance};
use linker_base::packing::copy_kept;
use linker_base::relaxation::{DeltaSlice, RelaxDelta, SectionRelaxDeltas};
use linker_base::rewrite::{has_window, overwrite};
use std::alloc::{AllocError, AllocFailed, Global};

/// The first of some calls that can't become a jump.
#[derive(Debug, Clone, Copy, PartialEq, Eq)]
pub struct RejectedCall {
    /// Its index among the calls.
    pub index: usize,
    /// Why it can't.
    pub error: JumpError,
}

/// Why a section isn't packed.
#[derive(Debug, Clone, Copy, PartialEq, Eq)]
pub enum PackError {
    /// Out of memory for the packed section.
    OutOfMemory,
    /// The first call that can't become a jump.
    Call {
        /// Its index among the calls.
        index: usize,
        /// Why it can't.
        error: CallError,
    },
}

impl From<AllocError> for PackError {
    ghost from_gives = { λ _ e. e ≡ PackError.OutOfMemory };

    fn from(_error: AllocError) -> PackError {
        PackError::OutOfMemory
    }
}

impl<T: Drop> From<AllocFailed<T>> for PackError {
    ghost from_gives = { λ _ e. e ≡ PackError.OutOfMemory };

    fn from(_error: AllocFailed<T>) -> PackError {
        PackError::OutOfMemory
    }
}

/// The index of the first call whose site is less than 4 above the site before it. None where the
/// sites ascend by at least 4.
#[inline]
pub fn first_not_apart<C: AsCall>(calls: &[C]) -> Option<usize>
    ensures { MatchOption result (AreApart (map C.call calls.now))
        (IsFirstNotApart (map C.call calls.now)) }
{
    for index in 1..calls.len() {
        let (before, _) = calls[index - 1].as_call();
        let (site, _) = calls[index].as_call();
        if site.saturating_sub(before) < 4 {
            return Some(index);
        }
    }
    None
}

/// Whether the sites of calls, each a site and a target, ascend by at least 4.
pub fn calls_apart(calls: &[(u64, u64)]) -> bool
    ensures { IsTrue result ↔ AreApart calls.now }
{
    first_not_apart(calls).is_none()
}

/// Tests a call, and puts its jump into a packed section that has room for it. The errors are those
/// of `CallError` in their order, with `NotACall` after `SiteDeleted`.
fn put_call(
    section: &[u8],
    deltas: &DeltaSlice<'_>,
    site: u64,
    target: u64,
    link: LinkRegister,
    packed: &mut [u8],
) -> Result<(), JumpError>
    ensures accepted { IsValidView deltas.now → OnOk result
        (CanJump link (deletions_of deltas.now.deltas) section.now (site, target)) }
    ensures rejected { IsValidView deltas.now → IfErr result
        (IsRejected link (deletions_of deltas.now.deltas) section.now (site, target)) }
    ensures jumps { IsValidView deltas.now
        → length packed.old ≡ rank (deletions_of deltas.now.deltas) (length section.now)
        → OnOk result (JumpsAndLinks packed.old packed.new
        (rank (deletions_of deltas.now.deltas) site) (link_register link section.now site)
        (output_distance (deletions_of deltas.now.deltas) site target)) }
{
    let jump = jump_of(section, deltas, site, target, link)?;
    let Some(_register) = link.named_at(section, site) else {
        return Err(JumpError::NotACall);
    };
    if !has_window(packed, jump.output_offset, 0, 4) {
        test_distance(jump.distance)?;
        return Ok(());
    }
    // `jal_site` links the register of the instruction that it replaces.
    let start = (site + link.call_len() - 4) as usize;
    overwrite(packed, jump.output_offset, &section[start..start + 4]);
    jal_site(packed, jump.output_offset, jump.distance)?;
    Ok(())
}

/// Tests all calls, and puts their jumps into a packed section. The error is that of the first call
/// that can't become a jump. Into no bytes no jump is put: then the calls are only tested.
fn put_calls<C: AsCall>(
    section: &[u8],
    deltas: &DeltaSlice<'_>,
    calls: &[C],
    link: LinkRegister,
    packed: &mut [u8],
) -> Result<(), RejectedCall>
    ensures accepted { IsValidView deltas.now → OnOk result
        (All (CanJump link (deletions_of deltas.now.deltas) section.now) (map C.call calls.now)) }
    ensures rejected { IsValidView deltas.now → IfErr result (λ rejected.
        IsFirstRejected link (deletions_of deltas.now.deltas) section.now (map C.call calls.now)
        rejected.index rejected.error) }
    ensures packed { IsValidView deltas.now
        → length packed.old ≡ rank (deletions_of deltas.now.deltas) (length section.now)
        → AreApart (map C.call calls.now)
        → IsFilled (deletions_of deltas.now.deltas) 0 section.now packed.old
        → OnOk result (IsPacked link (deletions_of deltas.now.deltas) section.now
        (map C.call calls.now) packed.new) }
{
    for index in 0..calls.len() {
        let (site, target) = calls[index].as_call();
        if let Err(error) = put_call(section, deltas, site, target, link, packed) {
            return Err(RejectedCall { index, error });
        }
    }
    Ok(())
}

/// How many bytes of a section are kept: as many as it takes when it is packed.
#[inline]
pub fn packed_len(section: &[u8], deltas: &[RelaxDelta]) -> usize
    ensures { AreValidDeltas deltas.now
        → result ≡ rank (deletions_of deltas.now) (length section.now) }
{
    DeltaSlice::new(deltas).input_to_output_offset(section.len() as u64) as usize
}

/// Packs a section into memory of the caller's: its kept bytes in order, and at each call's site,
/// in place of the `auipc`, a `jal` to where the target goes, which links the register that is
/// chosen. A deletion that reaches past the section's end deletes up to there, and one past it
/// nothing.
///
/// Requires sites that ascend by at least 4 (`calls_apart`), and an output of `packed_len` bytes.
/// The deltas are as `SectionRelaxDeltas::deltas` lists them (`DeltaSlice::has_valid_deltas`). With
/// others the call is safe, but what it writes isn't specified. The error names the first call that
/// can't become a jump, and nothing is written then. It takes O(section + deltas + calls log
/// deltas).
pub fn pack_into<C: AsCall>(
    section: &[u8],
    deltas: &[RelaxDelta],
    calls: &[C],
    link: LinkRegister,
    out: &mut [u8],
) -> Result<(), RejectedCall>
    requires apart { AreApart (map C.call calls.now) }
    requires room { AreValidDeltas deltas.now
        → length out.old ≡ rank (deletions_of deltas.now) (length section.now) }
    ensures packed { AreValidDeltas deltas.now
        → OnOk result (IsPacked link (deletions_of deltas.now) section.now (map C.call calls.now)
        out.new) }
    ensures accepted { AreValidDeltas deltas.now
        → OnOk result (All (CanJump link (deletions_of deltas.now) section.now)
        (map C.call calls.now)) }
    ensures rejected { AreValidDeltas deltas.now
        → IfErr result (λ rejected.
        IsFirstRejected link (deletions_of deltas.now) section.now (map C.call calls.now)
        rejected.index rejected.error) }
    ensures unchanged { OnErr result (out.new ≡ out.old) }
{
    let view = DeltaSlice::new(deltas);
    put_calls(section, &view, calls, link, &mut [])?;
    copy_kept(section, 0, deltas, out);
    let _accepted = put_calls(section, &view, calls, link, out);
    Ok(())
}

/// A section packed: its kept bytes in order, and at each call's site, in place of the `auipc`, a
/// `jal` to where the target goes, with the `auipc`'s destination register.
/// A deletion that reaches past the section's end deletes up to there, and one past it nothing.
///
/// Requires sites that ascend by at least 4 (`calls_apart`). It allocates once, before it looks
/// at the calls, and O(section + deltas + calls log deltas). `pack_into` links the register of the
/// `jalr`, which `tail f` and `call t0, f` need.
pub fn pack_section(
    alloc: Global,
    section: &[u8],
    deltas: &SectionRelaxDeltas,
    calls: &[(u64, u64)],
) -> Result<Vec<u8>, PackError>
    requires { AreApart calls.now }
    ensures packed { IfOk result
        (λ packed. IsPacked LinkRegister.OfAuipc deltas.now section.now calls.now packed.items) }
    ensures accepted { OnOk result
        (All (CanJump LinkRegister.OfAuipc deltas.now section.now) calls.now) }
    ensures rejected { IfErr result (IsFirstFailing deltas.now section.now calls.now) }
{
    let view = deltas.as_delta_slice();
    let len = view.input_to_output_offset(section.len() as u64) as usize;
    let mut packed = vec![in alloc; 0; len]?;
    copy_kept(section, 0, view.deltas(), &mut packed);
    match put_calls(section, &view, calls, LinkRegister::OfAuipc, &mut packed) {
        Ok(()) => Ok(packed),
        Err(rejected) => match rejected.error {
            JumpError::Call(error) => Err(PackError::Call {
                index: rejected.index,
                error,
            }),
            JumpError::NotACall => unreachable!(),
        },
    }
}

/// In a packed section each call that was listed is a jump from where its site goes to where its
/// target goes.
pub fn packed_calls_reach_targets()
    ensures { PackedCallsReachTargets }
{}
