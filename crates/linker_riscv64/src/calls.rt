//! RISC-V: calls that become jumps.

ghost use Rattle.std.specs.Prelude.{◌≡◌, ◌≤◌, ◌<◌, ◌+◌, ◌↔◌, ◌⊎◌, ℕ, IsTrue, IsOk, OnOk};
ghost use Rattle.std.specs.Prelude.{OnErr, IfOk, IfErr, IsNone, IfSome, length};
ghost use Rattle.linker_base.specs.Deltas.{deletions_of};
ghost use Rattle.linker_base.specs.Blocks.{IsValidView};
ghost use Rattle.linker_riscv64.specs.Inner.Packing.{IsJumpOf};
ghost use Rattle.linker_riscv64.specs.Packing.{call_of, IsCallInSection};
ghost use Rattle.linker_riscv64.specs.RiscVCalls.{IsEven, IsJalDistance, JumpsAndLinks, JumpsAt};
ghost use Rattle.linker_riscv64.specs.RiscVCalls.{IsInSection, IsSiteKept, output_distance};
ghost use Rattle.linker_riscv64.specs.RiscVCalls.{IsCallPair, IsPlainCall, NamesRegister};
ghost use Rattle.linker_riscv64.specs.RiscVCalls.{call_len, link_register};
ghost use Rattle.linker_riscv64.specs.declared.calls.JumpError.{JumpError};

use super::fields::{base, destination, function, opcode};
use linker_base::relaxation::{DeltaSlice, SectionRelaxDeltas};
use linker_base::rewrite::{has_window, overwrite};
use linker_base::utils::u32_from_slice;
use linker_elf::elf::RiscVInstruction;

/// The least distance that `distance_fits_jal` accepts, in bytes.
pub const JAL_MIN: i64 = -1048576;

/// The greatest distance that `distance_fits_jal` accepts, in bytes. The J-immediate holds even
/// distances, so that the greatest that `jal` reaches is one less.
pub const JAL_MAX: i64 = 1048575;

/// Whether a distance in bytes lies in the range of `jal`'s signed 21 bits, both ends included
/// (RISC-V unprivileged ISA, "Unconditional Jumps").
#[inline]
pub fn distance_fits_jal(distance: i64) -> bool
    ensures { IsTrue result ↔ IsJalDistance distance }
{
    JAL_MIN <= distance && distance <= JAL_MAX
}

/// Whether the eight bytes at a site of a section are a call that `CallToJal` makes a jump
/// that links the same register: `auipc` and then `jalr` with the same register as base and as
/// both destinations. (RISC-V ELF psABI, "Function Call Relaxation"; linkers take the register of
/// the `jalr`, `CallToJal` that of the `auipc`.)
#[inline(always)]
pub fn is_plain_call(section: &[u8], site: u64) -> bool
    ensures { IsTrue result ↔ IsPlainCall section.now site }
{
    if !has_window(section, site, 0, 8) {
        return false;
    }
    let start = site as usize;
    let auipc = u32_from_slice(&section[start..]);
    let jalr = u32_from_slice(&section[start + 4..]);
    is_call_pair(auipc, jalr) && destination(jalr) == destination(auipc)
}

/// Whether the words are an `auipc` and a `jalr` whose base is the register of the `auipc`.
#[inline(always)]
pub fn is_call_pair(auipc: u32, jalr: u32) -> bool
    ensures { IsTrue result ↔ IsCallPair auipc jalr }
{
    opcode(auipc) == 0x17
        && opcode(jalr) == 0x67
        && function(jalr) == 0
        && base(jalr) == destination(auipc)
}

/// A call in a section, as C has it.
#[repr(C)]
#[derive(Debug, Clone, Copy, PartialEq, Eq)]
pub struct Call {
    /// The offset in the input section of the `auipc`.
    pub site: u64,
    /// The offset in the input section of what it calls.
    pub target: u64,
}

/// A call in a section: a `Call`, or a pair of its site and its target. Others can't implement it.
pub trait AsCall: Copy {
    /// The call as a pair, in a contract.
    ghost call: { Self → ℕ × ℕ };

    /// The offsets of the call's first instruction and of what it calls.
    fn as_call(self) -> (u64, u64)
        ensures { result ≡ call self };
}

impl AsCall for Call {
    ghost call = { call_of };

    #[inline(always)]
    fn as_call(self) -> (u64, u64) {
        (self.site, self.target)
    }
}

impl AsCall for (u64, u64) {
    ghost call = { λ c. c };

    #[inline(always)]
    fn as_call(self) -> (u64, u64) {
        self
    }
}

/// Which register the jump of a call links: the destination of one of the call's instructions,
/// bits 7 to 11.
#[derive(Debug, Clone, Copy, PartialEq, Eq)]
pub enum LinkRegister {
    /// The register of the `auipc`, as `RewriteKind::CallToJal` takes it. The call itself links
    /// it only where `is_plain_call` holds.
    OfAuipc,
    /// The register of the `jalr`, which is the one that the call links and that linkers take:
    /// x0 for `tail f`, t0 for `call t0, f`.
    OfJalr,
}

impl LinkRegister {
    /// How many bytes of a call say which register it is: 4 for `OfAuipc`, 8 for `OfJalr`.
    #[inline(always)]
    pub fn call_len(self) -> u64
        ensures { result ≡ call_len self }
    {
        match self {
            LinkRegister::OfAuipc => 4,
            LinkRegister::OfJalr => 8,
        }
    }

    /// The register, where a call at a site of a section names it: any `auipc` does, a `jalr` only
    /// where its base is the register of an `auipc` before it. Requires `call_len` bytes at the
    /// site.
    #[inline(always)]
    pub fn named_at(self, section: &[u8], site: u64) -> Option<u32>
        requires { site + call_len self ≤ length section.now }
        ensures none { IsNone result ↔ ¬ NamesRegister self section.now site }
        ensures some { IfSome result
            (λ register. NamesRegister self section.now site
            × (register ≡ link_register self section.now site)) }
    {
        let start = site as usize;
        let auipc = u32_from_slice(&section[start..]);
        match self {
            LinkRegister::OfAuipc => Some(destination(auipc)),
            LinkRegister::OfJalr => {
                let jalr = u32_from_slice(&section[start + 4..]);
                is_call_pair(auipc, jalr).then_some(destination(jalr))
            }
        }
    }
}

/// Why a call doesn't become a jump.
#[derive(Debug, Clone, Copy, PartialEq, Eq)]
pub enum CallError {
    /// The four bytes at the site, or eight where the `jalr` says which register is linked, don't
    /// lie in the section, or the target is past its end.
    OutOfSection,
    /// One of the four bytes at the site is deleted.
    SiteDeleted,
    /// The distance is odd.
    OddDistance,
    /// The distance is out of the range of `jal`.
    TooFar,
}

/// Why a call doesn't become a jump that links the register that was chosen.
#[derive(Debug, Clone, Copy, PartialEq, Eq)]
pub enum JumpError {
    /// For a cause that any choice has.
    Call(CallError),
    /// The register is that of the `jalr`, and the eight bytes at the site aren't an `auipc` and a
    /// `jalr`, with 0 in its bits 12 to 14, whose base is the register of the `auipc`.
    NotACall,
}

impl From<CallError> for JumpError {
    ghost from_gives = { λ error e. e ≡ JumpError.Call error };

    fn from(error: CallError) -> JumpError {
        JumpError::Call(error)
    }
}

/// Whether a `jal` jumps by a distance in bytes. The errors are `OddDistance` and `TooFar`, the
/// first of them that applies.
#[inline(always)]
pub(super) fn test_distance(distance: i64) -> Result<(), CallError>
    ensures accepted { IsOk result ↔ (IsEven distance × IsJalDistance distance) }
    ensures odd_distance { (result ≡ Err CallError.OddDistance) ↔ ¬ IsEven distance }
    ensures too_far { (result ≡ Err CallError.TooFar)
        ↔ (IsEven distance × ¬ IsJalDistance distance) }
    ensures listed { IfErr result
        (λ error. (error ≡ CallError.OddDistance) ⊎ (error ≡ CallError.TooFar)) }
{
    if distance.cast_unsigned() % 2 != 0 {
        return Err(CallError::OddDistance);
    }
    if !distance_fits_jal(distance) {
        return Err(CallError::TooFar);
    }
    Ok(())
}

/// Turns the `auipc` at a site of a section into a `jal` by a distance in bytes, with the `auipc`'s
/// destination register: `CallToJal` and then the J-immediate. `is_plain_call` returns whether the
/// call links that register; `jal_site_with` takes the `jalr`'s.
///
/// On an error the section is unchanged. The errors are `OutOfSection`, `OddDistance` and `TooFar`,
/// the first of them that applies.
pub fn jal_site(section: &mut [u8], site: u64, distance: i64) -> Result<(), CallError>
    ensures jumps { OnOk result (JumpsAt section.old section.new site distance) }
    ensures accepted { IsOk result
        ↔ ((site + 4 ≤ length section.old) × IsEven distance × IsJalDistance distance) }
    ensures out_of_section { (result ≡ Err CallError.OutOfSection)
        ↔ (length section.old < site + 4) }
    ensures odd_distance { (result ≡ Err CallError.OddDistance)
        ↔ ((site + 4 ≤ length section.old) × ¬ IsEven distance) }
    ensures too_far { (result ≡ Err CallError.TooFar)
        ↔ ((site + 4 ≤ length section.old) × IsEven distance × ¬ IsJalDistance distance) }
    ensures unchanged { OnErr result (section.new ≡ section.old) }
{
    match jal_site_with(section, site, distance, LinkRegister::OfAuipc) {
        Ok(()) => Ok(()),
        Err(JumpError::Call(error)) => Err(error),
        Err(JumpError::NotACall) => unreachable!(),
    }
}

/// Replaces the call at a site of a section by a `jal` over a distance in bytes. The jump is in
/// place of the `auipc`, links the register that is chosen, and leaves all other bytes as they
/// were. Linkers take the register of the `jalr`, which `tail f` and `call t0, f` need (RISC-V ELF
/// psABI, "Function Call Relaxation").
///
/// On an error the section is unchanged. The errors are `OutOfSection`, `NotACall`, `OddDistance`
/// and `TooFar`, the first of them that applies. With `OfAuipc` four bytes have to lie in the
/// section, and any four are taken; with `OfJalr` it is eight, and they have to be a call.
pub fn jal_site_with(
    section: &mut [u8],
    site: u64,
    distance: i64,
    link: LinkRegister,
) -> Result<(), JumpError>
    ensures jumps { OnOk result
        (JumpsAndLinks section.old section.new site (link_register link section.old site)
        distance) }
    ensures accepted { IsOk result
        ↔ ((site + call_len link ≤ length section.old) × NamesRegister link section.old site
        × IsEven distance × IsJalDistance distance) }

    ensures out_of_section { (result ≡ Err (JumpError.Call CallError.OutOfSection))
        ↔ (length section.old < site + call_len link) }
    ensures not_a_call { (result ≡ Err JumpError.NotACall)
        ↔ ((site + call_len link ≤ length section.old) × ¬ NamesRegister link section.old site) }
    ensures odd_distance { (result ≡ Err (JumpError.Call CallError.OddDistance))
        ↔ ((site + call_len link ≤ length section.old) × NamesRegister link section.old site
        × ¬ IsEven distance) }
    ensures too_far { (result ≡ Err (JumpError.Call CallError.TooFar))
        ↔ ((site + call_len link ≤ length section.old) × NamesRegister link section.old site
        × IsEven distance
        × ¬ IsJalDistance distance) }
    ensures unchanged { OnErr result (section.new ≡ section.old) }
{
    if !has_window(section, site, 0, link.call_len()) {
        return Err(JumpError::Call(CallError::OutOfSection));
    }
    let Some(register) = link.named_at(section, site) else {
        return Err(JumpError::NotACall);
    };
    test_distance(distance)?;
    let jal = 0x6f | register << 7;
    overwrite(section, site, &jal.to_le_bytes());
    let jal = &mut section[site as usize..];
    RiscVInstruction::JType.write_to_value(distance.cast_unsigned(), distance < 0, jal);
    Ok(())
}

/// Where a call stands once the deleted bytes are gone, and how far its jump goes then.
#[derive(Clone, Copy)]
pub(super) struct Jump {
    pub(super) output_offset: u64,
    pub(super) distance: i64,
}

/// The jump that a call becomes. The bytes that say which register it links have to lie in the
/// section. The errors are `OutOfSection` and `SiteDeleted`, the first of them that applies.
pub(super) fn jump_of(
    section: &[u8],
    deltas: &DeltaSlice<'_>,
    site: u64,
    target: u64,
    link: LinkRegister,
) -> Result<Jump, CallError>
    ensures inside { OnOk result (IsCallInSection link section.now (site, target)) }
    ensures jump { IsValidView deltas.now → IfOk result
        (IsJumpOf (deletions_of deltas.now.deltas) site target) }
    ensures out_of_section { (result ≡ Err CallError.OutOfSection)
        ↔ ¬ IsCallInSection link section.now (site, target) }
    ensures site_deleted { IsValidView deltas.now → ((result ≡ Err CallError.SiteDeleted)
        ↔ (IsCallInSection link section.now (site, target)
        × ¬ IsSiteKept (deletions_of deltas.now.deltas) site)) }
    ensures listed { IfErr result
        (λ error. (error ≡ CallError.OutOfSection) ⊎ (error ≡ CallError.SiteDeleted)) }
{
    if !has_window(section, site, 0, link.call_len()) || target > section.len() as u64 {
        return Err(CallError::OutOfSection);
    }
    let Some(output_offset) = deltas.kept_output_offset(site, 4) else {
        return Err(CallError::SiteDeleted);
    };
    let to = deltas.input_to_output_offset(target);
    let distance = to.wrapping_sub(output_offset).cast_signed();
    Ok(Jump {
        output_offset,
        distance,
    })
}

/// Replaces a call by a jump as `jal_site` does, in a section whose bytes are where they were
/// before the deletions: the distance is that from the site's output offset to the target's, so
/// that the jump is right once the deleted bytes are gone. A target inside a deletion is what
/// follows the deletion. The target may be the section's end.
///
/// On an error the section is unchanged. The errors are `OutOfSection`, `SiteDeleted`,
/// `OddDistance` and `TooFar`, the first of them that applies.
///
/// The jump links the register of the `auipc`, which for a plain call is the `jalr`'s too:
/// `is_plain_call` distinguishes these from others, as `tail f`.
pub fn relax_call(
    section: &mut [u8],
    deltas: &SectionRelaxDeltas,
    site: u64,
    target: u64,
) -> Result<(), CallError>
    ensures jumps { OnOk result
        (JumpsAt section.old section.new site (output_distance deltas.now site target)) }
    ensures accepted { IsOk result
        ↔ (IsInSection section.old site target × IsSiteKept deltas.now site
        × IsEven (output_distance deltas.now site target)
        × IsJalDistance (output_distance deltas.now site target)) }

    ensures out_of_section { (result ≡ Err CallError.OutOfSection)
        ↔ ¬ IsInSection section.old site target }
    ensures site_deleted { (result ≡ Err CallError.SiteDeleted)
        ↔ (IsInSection section.old site target × ¬ IsSiteKept deltas.now site) }
    ensures odd_distance { (result ≡ Err CallError.OddDistance)
        ↔ (IsInSection section.old site target × IsSiteKept deltas.now site
        × ¬ IsEven (output_distance deltas.now site target)) }
    ensures too_far { (result ≡ Err CallError.TooFar)
        ↔ (IsInSection section.old site target × IsSiteKept deltas.now site
        × IsEven (output_distance deltas.now site target)
        × ¬ IsJalDistance (output_distance deltas.now site target)) }
    ensures unchanged { OnErr result (section.new ≡ section.old) }
{
    relax_call_over(section, &deltas.as_delta_slice(), site, target)
}

/// `relax_call` over deltas that anyone owns. It is safe for any deltas, and does what `relax_call`
/// does where they are valid. It takes three searches.
pub fn relax_call_over(
    section: &mut [u8],
    deltas: &DeltaSlice<'_>,
    site: u64,
    target: u64,
) -> Result<(), CallError>
    ensures jumps { IsValidView deltas.now
        → OnOk result (JumpsAt section.old section.new site
        (output_distance (deletions_of deltas.now.deltas) site target)) }
    ensures accepted { IsValidView deltas.now → (IsOk result
        ↔ (IsInSection section.old site target × IsSiteKept (deletions_of deltas.now.deltas) site
        × IsEven (output_distance (deletions_of deltas.now.deltas) site target)
        × IsJalDistance (output_distance (deletions_of deltas.now.deltas) site target))) }

    ensures out_of_section { (result ≡ Err CallError.OutOfSection)
        ↔ ¬ IsInSection section.old site target }
    ensures site_deleted { IsValidView deltas.now → ((result ≡ Err CallError.SiteDeleted)
        ↔ (IsInSection section.old site target × ¬ IsSiteKept (deletions_of deltas.now.deltas)
        site)) }
    ensures odd_distance { IsValidView deltas.now → ((result ≡ Err CallError.OddDistance)
        ↔ (IsInSection section.old site target × IsSiteKept (deletions_of deltas.now.deltas) site
        × ¬ IsEven (output_distance (deletions_of deltas.now.deltas) site target))) }
    ensures too_far { IsValidView deltas.now → ((result ≡ Err CallError.TooFar)
        ↔ (IsInSection section.old site target × IsSiteKept (deletions_of deltas.now.deltas) site
        × IsEven (output_distance (deletions_of deltas.now.deltas) site target)
        × ¬ IsJalDistance (output_distance (deletions_of deltas.now.deltas) site target))) }
    ensures unchanged { OnErr result (section.new ≡ section.old) }
{
    let jump = jump_of(section, deltas, site, target, LinkRegister::OfAuipc)?;
    jal_site(section, site, jump.distance)
}
