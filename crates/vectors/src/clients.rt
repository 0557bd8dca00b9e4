//! What a user of the library writes over it, proved from the public contracts of `linker_utils`
//! alone: no function here has a proof of its own.

ghost use Rattle.std.specs.Prelude.{◌≡◌, ◌<◌, ◌≤◌, ◌+◌, ◌-◌, ◌*◌, ◌^◌, ◌%◌, ◌↔◌, ◌++◌, IsTrue};
ghost use Rattle.std.specs.Prelude.{IfOk, IfErr, OnOk, OnErr, MatchOption, length, pos, ◌+ℤ◌, drop};
ghost use Rattle.std.specs.Prelude.{[], ◌∷◌, false};
ghost use Rattle.std.specs.Int.{byte_len, cast_unsigned, w64};
ghost use Rattle.linker_utils.specs.Bits.{field};
ghost use Rattle.linker_utils.specs.Deletions.{AreDisjoint, AreKept, HasInput, IsSortedUnion};
ghost use Rattle.linker_utils.specs.Deletions.{IsValid, rank};
ghost use Rattle.linker_utils.specs.Form.{Written, window_of};
ghost use Rattle.linker_utils.specs.Forms.{immediate_of};
ghost use Rattle.linker_utils.specs.Packing.{IsFirstFailing, IsPacked};
ghost use Rattle.linker_utils.specs.RiscV.{riscv_form};
ghost use Rattle.linker_utils.specs.RiscVCalls.{word_at};
ghost use Rattle.linker_utils.specs.Shrinking.{AreShrinkable};
ghost use Rattle.linker_utils.specs.RiscVInstruction.TheVariants.{JType};
ghost use Rattle.linker_utils.specs.LinkRegister.TheVariants.{OfAuipc};
ghost use Rattle.linker_utils.specs.AnyForm.TheVariants.{Ppc64};
ghost use Rattle.linker_utils.specs.Upstream.{ppc64_of};

use linker_utils::bit_misc::{BitExtraction, BitRange};
use linker_utils::elf::{InstructionForm, Ppc64Instruction};
use linker_utils::relaxation::{
    OutOfMemory, PackError, SectionRelaxDeltas, laws, pack_section, shrink_calls,
};
use linker_utils::riscv64::{CallError, jal_site, relax_call};
use std::alloc::Global;

/// Makes the call at a site of a section a jump to another offset of the same section, from which
/// no byte is deleted.
pub fn jump_to(section: &mut [u8], site: u64, target: u64) -> Result<(), CallError>
    requires site_is_inside { site < length section.old }
    requires target_is_inside { target ≤ length section.old }
    requires short { length section.old < 2 ^ 63 }
    ensures jumps { OnOk result
        (pos site +ℤ (riscv_form JType).machine (word_at section.new site) ≡ pos target) }
    ensures unchanged { OnErr result (section.new ≡ section.old) }
{
    jal_site(section, site, target.wrapping_sub(site).cast_signed())
}

/// Writes a number into an instruction and reads it back.
pub fn written_and_read<F: InstructionForm>(form: F, value: u64, insn: &mut [u8]) -> (u64, bool)
    requires room { byte_len (F.form form).window ≤ length insn.old }
    requires fits { value < 2 ^ (F.form form).width (window_of (F.form form) insn.old) }
    ensures written { Written (F.form form) value false (window_of (F.form form) insn.old)
        (window_of (F.form form) insn.new) }
    ensures read { result.0
        ≡ cast_unsigned w64 ((F.form form).reading (window_of (F.form form) insn.new)) }
    ensures rest { drop (byte_len (F.form form).window) insn.new
        ≡ drop (byte_len (F.form form).window) insn.old }
{
    form.write(value, false, insn);
    form.read(insn)
}

/// The output offset and the size of what stands in a section at an offset, as a symbol has them.
pub fn moved_symbol(deltas: &SectionRelaxDeltas, offset: u64, size: u64) -> (u64, u64)
    requires { offset + size < 2 ^ 64 }
    ensures offset { result.0 ≡ rank deltas.now offset }
    ensures size { result.1 ≡ rank deltas.now (offset + size) - rank deltas.now offset }
{
    laws::output_offsets_never_decrease();
    let start = deltas.input_to_output_offset(offset);
    (start, deltas.input_to_output_offset(offset + size) - start)
}

/// Whether a relocation's field is still there, so that its value has to be written.
pub fn is_field_kept(deltas: &SectionRelaxDeltas, offset: u64, size: u64) -> bool
    requires { offset + size < 2 ^ 64 }
    ensures { IsTrue result ↔ AreKept deltas.now offset size }
{
    deltas.kept_output_offset(offset, size).is_some()
}

/// To the input section and back.
pub fn there_and_back(deltas: &SectionRelaxDeltas, output_offset: u64) -> Option<u64>
    ensures { MatchOption result (¬ HasInput deltas.now output_offset)
        (λ back. back ≡ output_offset) }
{
    laws::in_after_out_returns();
    if !deltas.output_fits(output_offset) {
        return None;
    }
    let input = deltas.output_to_input_offset(output_offset);
    Some(deltas.input_to_output_offset(input))
}

/// How many bytes of a section of a length are left.
pub fn packed_len(alloc: Global, deletions: &[(u64, u32)], len: u64) -> Result<u64, OutOfMemory>
    requires { IsValid deletions.now }
    ensures { IfOk result (λ left. left ≡ rank deletions.now len) }
{
    let deltas = SectionRelaxDeltas::new(alloc, deletions)?;
    Ok(deltas.input_to_output_offset(len))
}

/// Deletes further bytes if they overlap none that are deleted.
pub fn delete(deltas: &mut SectionRelaxDeltas, offset: u64, bytes: u32) -> Result<bool, OutOfMemory>
    ensures deleted { IfOk result (λ is_deleted. IsTrue is_deleted
        → IsSortedUnion (deltas.old ++ ((offset, bytes) ∷ [])) deltas.new) }
    ensures rejected { IfOk result
        (λ is_deleted. IsTrue is_deleted ↔ AreDisjoint (deltas.old ++ ((offset, bytes) ∷ []))) }
    ensures unchanged { OnErr result (deltas.new ≡ deltas.old) }
{
    let further = [(offset, bytes)];
    if !deltas.is_mergeable(&further) {
        return Ok(false);
    }
    deltas.merge_additional(&further)?;
    Ok(true)
}

/// The bytes of a section that stay, with one call made a jump.
pub fn pack_call(
    alloc: Global,
    section: &[u8],
    deltas: &SectionRelaxDeltas,
    site: u64,
    target: u64,
) -> Result<Vec<u8>, PackError>
    ensures packed { IfOk result (λ packed. IsPacked OfAuipc deltas.now section.now
        ((site, target) ∷ []) packed.items) }
    ensures len { IfOk result (λ packed. length packed.items ≡ rank deltas.now (length section.now)) }
    ensures rejected { IfErr result
        (IsFirstFailing deltas.now section.now ((site, target) ∷ [])) }
{
    pack_section(alloc, section, deltas, &[(site, target)])
}

/// The jump at a site, made where the bytes still stand as in the input.
pub fn relaxed_distance(
    section: &mut [u8],
    deltas: &SectionRelaxDeltas,
    site: u64,
    target: u64,
) -> Result<(), CallError>
    ensures lands { OnOk result (pos (rank deltas.now site)
        +ℤ (riscv_form JType).machine (word_at section.new site) ≡ pos (rank deltas.now target)) }
    ensures unchanged { OnErr result (section.new ≡ section.old) }
{
    relax_call(section, deltas, site, target)
}

/// How many calls become jumps.
pub fn count_shrunk(
    alloc: Global,
    deltas: &SectionRelaxDeltas,
    calls: &[(u64, u64)],
) -> Result<usize, OutOfMemory>
    requires { AreShrinkable deltas.now calls.now }
    ensures { IfOk result (λ count. count ≤ length calls.now) }
{
    let chosen = shrink_calls(alloc, deltas, calls)?;
    Ok(chosen.iter().filter(|is_chosen| **is_chosen).count())
}

/// The high 20 and low 12 bits of a value, as LoongArch's absolute addresses have them.
pub fn halves(value: u64) -> (u64, u64)
    ensures high { result.0 ≡ field value 12 32 }
    ensures low { result.1 ≡ field value 0 12 }
    ensures whole { 2 ^ 12 * result.0 + result.1 ≡ value % 2 ^ 32 }
{
    (
        value.extract_bit_range(12..32),
        value.extract_bit_range(0..12),
    )
}

/// Which bits of a displacement a PowerPC64 instruction holds: a match of the forms of the original
/// crate needs no last arm.
pub fn displacement_bits(insn: Ppc64Instruction) -> BitRange
    ensures { result ≡ immediate_of (Ppc64 (ppc64_of insn)) }
{
    let (start, end) = match insn {
        Ppc64Instruction::D => (0, 16),
        Ppc64Instruction::Ds => (2, 16),
        Ppc64Instruction::Branch14 => (2, 16),
        Ppc64Instruction::Branch24 => (2, 26),
    };
    BitRange { start, end }
}
