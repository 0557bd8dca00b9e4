//! RISC-V calls that become jumps, and tests for shorter instructions.

ghost use Rattle.std.specs.Prelude.{◌≡◌, ◌≢◌, ◌↔◌, ◌<◌, ◌≤◌, ◌+◌, IsTrue, IsOk, IsNone, IfSome};
ghost use Rattle.std.specs.Prelude.{IfErr, length};
ghost use Rattle.linker_base.specs.Bits.{signed};
ghost use Rattle.linker_base.specs.Deltas.{deletions_of};
ghost use Rattle.linker_base.specs.Listed.{AreValidDeltas};
ghost use Rattle.linker_riscv64.specs.RiscVCalls.{IsEven, IsJalDistance, JumpsAt, JumpsAndLinks};
ghost use Rattle.linker_riscv64.specs.RiscVCalls.{link_register, call_len, NamesRegister};
ghost use Rattle.linker_riscv64.specs.RiscVCalls.{IsPlainCall};
ghost use Rattle.linker_riscv64.specs.RiscVCalls.{IsInSection, IsSiteKept, output_distance};
ghost use Rattle.linker_utils.specs.RiscVRewrites.{FitsClui};
ghost use Rattle.linker_utils.specs.RiscVRewrites.{HoldsHigh, IsSigned32, hi20, lo12};
ghost use Rattle.linker_utils_c.specs.Status.{code, IsOneOf};
ghost use Rattle.linker_utils_c.specs.Packing.{error_status, named_link, relax_statuses};
ghost use Rattle.linker_riscv64.specs.declared.calls.JumpError.{JumpError};

use crate::status::Status;
use linker_utils::elf::RiscVInstruction;
use linker_utils::relaxation::{DeltaSlice, RelaxDelta};
use linker_utils::riscv64::{self, CallError, JumpError, LinkRegister, RelaxationKind};

/// Turns the `auipc` at a site of a section into a `jal` by a distance in bytes, with the `auipc`'s
/// destination register. The first that applies of `OutOfSection`, `OddDistance`, `TooFar`.
#[unsafe(no_mangle)]
pub extern "C" fn linker_utils_jal_site_nonnull(section: &mut [u8], site: u64, distance: i64) -> u32
    ensures jumps { result ≡ code Status.Success → JumpsAt section.old section.new site distance }
    ensures out_of_section { (result ≡ code Status.OutOfSection) ↔ (length section.old < site + 4) }
    ensures odd_distance { (result ≡ code Status.OddDistance)
        ↔ ((site + 4 ≤ length section.old) × ¬ IsEven distance) }
    ensures too_far { (result ≡ code Status.TooFar)
        ↔ ((site + 4 ≤ length section.old) × IsEven distance × ¬ IsJalDistance distance) }
    ensures accepted { (result ≡ code Status.Success)
        ↔ ((site + 4 ≤ length section.old) × IsEven distance × IsJalDistance distance) }
    ensures unchanged { result ≢ code Status.Success → section.new ≡ section.old }
{
    call_status(riscv64::jal_site(section, site, distance))
}

/// Turns the call at a site of a section into a `jal` by a distance in bytes. It links the register
/// of the `auipc` (`link` 0) or, as linkers do, of the `jalr` (1), which takes the eight bytes of a
/// call. The first that applies of `UnknownLinkRegister`, `OutOfSection`, `NotACall`,
/// `OddDistance`, `TooFar`.
#[unsafe(no_mangle)]
pub extern "C" fn linker_utils_jal_site_with_nonnull(
    section: &mut [u8],
    site: u64,
    distance: i64,
    link: u32,
) -> u32
    ensures unknown_link { (result ≡ code Status.UnknownLinkRegister) ↔ IsNone (named_link link) }
    ensures jumps { IfSome (named_link link) (λ register. result ≡ code Status.Success
        → JumpsAndLinks section.old section.new site (link_register register section.old site)
        distance) }
    ensures out_of_section { IfSome (named_link link) (λ register.
        (result ≡ code Status.OutOfSection)
        ↔ (length section.old < site + call_len register)) }
    ensures not_a_call { IfSome (named_link link) (λ register. (result ≡ code Status.NotACall)
        ↔ ((site + call_len register ≤ length section.old)
        × ¬ NamesRegister register section.old site)) }
    ensures odd_distance { IfSome (named_link link) (λ register. (result ≡ code Status.OddDistance)
        ↔ ((site + call_len register ≤ length section.old)
        × NamesRegister register section.old site × ¬ IsEven distance)) }
    ensures too_far { IfSome (named_link link) (λ register. (result ≡ code Status.TooFar)
        ↔ ((site + call_len register ≤ length section.old)
        × NamesRegister register section.old site × IsEven distance × ¬ IsJalDistance distance)) }
    ensures accepted { IfSome (named_link link) (λ register. (result ≡ code Status.Success)
        ↔ ((site + call_len register ≤ length section.old)
        × NamesRegister register section.old site × IsEven distance × IsJalDistance distance)) }
    ensures unchanged { result ≢ code Status.Success → section.new ≡ section.old }
{
    match chosen_register(link) {
        Some(register) => { jump_status(riscv64::jal_site_with(section, site, distance, register)) }
        None => Status::UnknownLinkRegister as u32,
    }
}

// The register that a number chooses.
pub(crate) fn chosen_register(link: u32) -> Option<LinkRegister>
    ensures { result ≡ named_link link }
{
    match link {
        0 => Some(LinkRegister::OfAuipc),
        1 => Some(LinkRegister::OfJalr),
        _ => None,
    }
}

// The status of a call that has become a jump, or of why it hasn't.
pub(crate) fn jump_status(outcome: Result<(), JumpError>) -> u32
    ensures known { result ≢ code Status.UnknownLinkRegister }
    ensures success { (result ≡ code Status.Success) ↔ IsOk outcome }
    ensures out_of_section { (result ≡ code Status.OutOfSection)
        ↔ (outcome ≡ Err (JumpError.Call CallError.OutOfSection)) }
    ensures site_deleted { (result ≡ code Status.SiteDeleted)
        ↔ (outcome ≡ Err (JumpError.Call CallError.SiteDeleted)) }
    ensures not_a_call { (result ≡ code Status.NotACall)
        ↔ (outcome ≡ Err JumpError.NotACall) }
    ensures odd_distance { (result ≡ code Status.OddDistance)
        ↔ (outcome ≡ Err (JumpError.Call CallError.OddDistance)) }
    ensures too_far { (result ≡ code Status.TooFar)
        ↔ (outcome ≡ Err (JumpError.Call CallError.TooFar)) }
    ensures numbered { IfErr outcome (λ error. result ≡ code (error_status error)) }
{
    match outcome {
        Ok(()) => Status::Success as u32,
        Err(JumpError::NotACall) => Status::NotACall as u32,
        Err(JumpError::Call(CallError::OutOfSection)) => Status::OutOfSection as u32,
        Err(JumpError::Call(CallError::SiteDeleted)) => Status::SiteDeleted as u32,
        Err(JumpError::Call(CallError::OddDistance)) => Status::OddDistance as u32,
        Err(JumpError::Call(CallError::TooFar)) => Status::TooFar as u32,
    }
}

/// Replaces the call at a site by a jump to a target, in a section whose bytes are where they
/// stood before the deletions. The first that applies of `OutOfSection`, `SiteDeleted`,
/// `OddDistance` and `TooFar`.
#[unsafe(no_mangle)]
pub extern "C" fn linker_utils_relax_call_nonnull(
    section: &mut [u8],
    deltas: &[RelaxDelta],
    site: u64,
    target: u64,
) -> u32
    ensures listed { IsOneOf relax_statuses result }
    ensures jumps { AreValidDeltas deltas.now → result ≡ code Status.Success
        → JumpsAt section.old section.new site
        (output_distance (deletions_of deltas.now) site target) }
    ensures out_of_section { (result ≡ code Status.OutOfSection)
        ↔ ¬ IsInSection section.old site target }
    ensures site_deleted { AreValidDeltas deltas.now → (result ≡ code Status.SiteDeleted)
        ↔ (IsInSection section.old site target × ¬ IsSiteKept (deletions_of deltas.now) site) }
    ensures odd_distance { AreValidDeltas deltas.now → (result ≡ code Status.OddDistance)
        ↔ (IsInSection section.old site target × IsSiteKept (deletions_of deltas.now) site
        × ¬ IsEven (output_distance (deletions_of deltas.now) site target)) }
    ensures too_far { AreValidDeltas deltas.now → (result ≡ code Status.TooFar)
        ↔ (IsInSection section.old site target × IsSiteKept (deletions_of deltas.now) site
        × IsEven (output_distance (deletions_of deltas.now) site target)
        × ¬ IsJalDistance (output_distance (deletions_of deltas.now) site target)) }
    ensures accepted { AreValidDeltas deltas.now → (result ≡ code Status.Success)
        ↔ (IsInSection section.old site target × IsSiteKept (deletions_of deltas.now) site
        × IsEven (output_distance (deletions_of deltas.now) site target)
        × IsJalDistance (output_distance (deletions_of deltas.now) site target)) }
    ensures unchanged { result ≢ code Status.Success → section.new ≡ section.old }
{
    call_status(riscv64::relax_call_over(section, &DeltaSlice::new(deltas), site, target))
}

// The status of a call that has become a jump, or of why it hasn't for a cause that any choice of
// the register has.
#[inline(always)]
fn call_status(outcome: Result<(), CallError>) -> u32
    ensures listed { IsOneOf relax_statuses result }
    ensures success { (result ≡ code Status.Success) ↔ IsOk outcome }
    ensures out_of_section { (result ≡ code Status.OutOfSection)
        ↔ (outcome ≡ Err CallError.OutOfSection) }
    ensures site_deleted { (result ≡ code Status.SiteDeleted)
        ↔ (outcome ≡ Err CallError.SiteDeleted) }
    ensures odd_distance { (result ≡ code Status.OddDistance)
        ↔ (outcome ≡ Err CallError.OddDistance) }
    ensures too_far { (result ≡ code Status.TooFar) ↔ (outcome ≡ Err CallError.TooFar) }
{
    match outcome {
        Ok(()) => Status::Success as u32,
        Err(error) => jump_status(Err(JumpError::Call(error))),
    }
}

/// Whether the eight bytes at the site are a plain call: `auipc` and then `jalr` with the same
/// register as source and as both destinations.
#[unsafe(no_mangle)]
pub extern "C" fn linker_utils_is_plain_call_nonnull(section: &[u8], site: u64) -> bool
    ensures { IsTrue result ↔ IsPlainCall section.now site }
{
    riscv64::is_plain_call(section, site)
}

/// Whether a distance in bytes lies in the range of `jal`.
#[unsafe(no_mangle)]
pub extern "C" fn linker_utils_distance_fits_jal(distance: i64) -> bool
    ensures { IsTrue result ↔ IsJalDistance distance }
{
    riscv64::distance_fits_jal(distance)
}

/// Whether the high part of a value is 0.
#[unsafe(no_mangle)]
pub extern "C" fn linker_utils_hi20_is_zero(value: u64) -> bool
    ensures exactly { IsTrue result ↔ (hi20 value ≡ 0) }
    ensures low { IsTrue result → IsSigned32 (signed 64 value) → signed 64 value ≡ lo12 value }
{
    RelaxationKind::hi20_is_zero(value)
}

/// Whether `c.lui` holds the high part of a value.
#[unsafe(no_mangle)]
pub extern "C" fn linker_utils_hi20_fits_clui(value: u64) -> bool
    ensures exactly { IsTrue result ↔ FitsClui value }
    ensures compressed { IsTrue result → HoldsHigh RiscVInstruction.CluiType value }
    ensures whole { IsTrue result → HoldsHigh RiscVInstruction.UType value }
{
    RelaxationKind::hi20_fits_clui(value)
}

/// Whether a register can be the destination of `c.lui`.
#[unsafe(no_mangle)]
pub extern "C" fn linker_utils_rd_valid_for_clui(rd: u32) -> bool
    ensures { IsTrue result ↔ ((rd ≢ 0) × (rd ≢ 2)) }
{
    RelaxationKind::rd_valid_for_clui(rd)
}
