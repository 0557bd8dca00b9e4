//! Which choices of a table leave the linked bytes, and what then stands in the field.

ghost use Rattle.std.specs.Prelude.{◌≡◌, ℕ, ◌-◌, ◌^◌, ◌<◌, ◌≤◌, ◌↔◌, IsTrue, IfSome, IfNone};
ghost use Rattle.std.specs.Prelude.{length, min, slice_get, slice_set, take, Option, Some};
ghost use Rattle.linker_base.specs.declared.rewrite.DeletedBytes.{DeletedBytes};
ghost use Rattle.linker_elf.specs.Choices.{choice};
ghost use Rattle.linker_elf.specs.ElfNames.{r_type_of};
ghost use Rattle.linker_elf.specs.declared.elf.choice.Choice.{Choice};
ghost use Rattle.linker_elf.specs.declared.elf.choice.LinkFacts.{LinkFacts};
ghost use Rattle.linker_reading.specs.FieldsOfBytes.{is_in, is_in_field};
ghost use Rattle.linker_reading.specs.Inner.Found.{IsMeant, IsRepeated, choices_in};
ghost use Rattle.linker_reading.specs.Inner.Laws.{AreLawsOf};
ghost use Rattle.linker_reading.specs.Recognised.{HasField, DifferOnlyInFields, deleted_start};
ghost use Rattle.linker_reading.specs.Recognised.{deleted_count};
ghost use Rattle.linker_reading.specs.Recognised.{linked_offset, value_at, Recogniser, choices_at};
ghost use Rattle.linker_reading.specs.Recognised.{IsChosen, IsMade, IsFound, IsOneOf, AreExactly};
ghost use Rattle.linker_reading.specs.Recognised.{ArePlaced, AreDistinct};

use crate::fields::FieldValue;
use crate::reading::read;
use crate::recognise::fields::{FieldBits, are_same_but};
use linker_elf::elf::choice_table::{ChoiceEntry, ChoiceTable, RelocationName, RewriteSet};
use linker_elf::elf::{InstructionRewrite, Row};
use linker_utils::architecture::Relaxation;
use linker_utils::elf::{Choice, LinkFacts};
use linker_utils::riscv64::DeletedBytes;

/// How many choices a relocation may have.
pub const CANDIDATES: usize = 6;

/// How long the windows of original bytes may be.
pub const MAX_WINDOW: usize = 64;

/// The choices of a table, in its order, and how many they are.
pub type Choices<K, R> = ([Choice<K, R>; CANDIDATES], usize);

/// A choice that leaves the linked bytes, and what stands in the field of its relocation there.
#[derive(Clone, Copy)]
pub struct Recognised<K, R> {
    /// The rewrite, and the relocation after it.
    pub choice: Choice<K, R>,
    /// The field's offset in the linked bytes: the relocation's after the rewrite, less the deleted
    /// bytes before it.
    pub offset: u64,
    /// What is known of the value of the relocation after the rewrite from the linked bytes at the
    /// offset, as `reading::read` returns it. None of a relocation without a row, and of one whose
    /// field isn't its value. `solve` makes the address of it, with the addend that `apply` leaves:
    /// of x86-64's absolute rewrites it is 4 more than before.
    pub value: Option<FieldValue>,
}

/// The bits of a relocation's field at an offset, if its window is there. A relocation without a
/// row has no bits.
#[inline(always)]
#[tactic(auto, using(crate::proofs::Same::in_none))]
fn field_at(row: &Option<Row>, at: u64, bytes: &[u8]) -> Option<FieldBits>
    ensures some { IfSome result (λ field. HasField row.now at bytes.now
        × ((i j : ℕ) → is_in field i j ≡ is_in_field row.now at bytes.now i j)) }
    ensures none { IfNone result (HasField row.now at bytes.now → ⊥) }
{
    match row {
        Some(row) => FieldBits::of_row(row, at, bytes).ok(),
        None => Some(FieldBits { offset: 0, bits: 0 }),
    }
}

/// Where the deleted bytes begin, at most 2^64 - 1, and how many they are.
#[inline(always)]
pub(crate) fn deleted_at(deleted: Option<DeletedBytes>, offset: u64) -> (u64, u64)
    ensures start { result.0 ≡ min (deleted_start deleted offset) (2 ^ 64 - 1) }
    ensures count { result.1 ≡ deleted_count deleted }
{
    match deleted {
        Some(bytes) => (offset.saturating_add(bytes.start), u64::from(bytes.count)),
        None => (0, 0),
    }
}

/// Whether the linked bytes are those after a rewrite, without the deleted ones, but for the field
/// of a row and some other bits.
#[inline(always)]
fn are_left(
    after: &[u8],
    at: u64,
    row: &Option<Row>,
    deleted: Option<DeletedBytes>,
    offset: u64,
    others: &[FieldBits],
    linked: &[u8],
) -> bool
    ensures { IsTrue result ↔ DifferOnlyInFields after.now at row.now deleted offset others.now linked.now }
{
    let (start, count) = deleted_at(deleted, offset);
    let linked_len = linked.len() as u64;
    if linked_len < start || linked_len + count != after.len() as u64 {
        return false;
    }
    match field_at(row, at, after) {
        Some(field) => are_same_but(&field, others, start, count, after, linked),
        None => false,
    }
}

/// The offset in the linked bytes of what is at an offset after a rewrite.
#[inline(always)]
fn linked_offset(deleted: Option<DeletedBytes>, offset: u64, at: u64) -> u64
    ensures { result ≡ linked_offset deleted offset at }
{
    let (start, count) = deleted_at(deleted, offset);
    at - count.min(at.saturating_sub(start))
}

/// What stands in the field of a relocation at an offset of the linked bytes.
#[inline(always)]
fn value_at(row: &Option<Row>, at: u64, linked: &[u8]) -> Option<FieldValue>
    ensures { result ≡ value_at row.now at linked.now }
{
    let Some(row) = row else {
        return None;
    };
    let start = at.min(linked.len() as u64);
    read(row, &linked[start as usize..])
}

/// A relocation's name, with the table of its choices.
pub trait RecognisedName: RelocationName + PartialEq + 'static {
    /// The rewrites.
    type Kind: ChoiceTable<Relocation = Self, Originals: 'static> + PartialEq + 'static;

    // the tables and relocations
    ghost how: { Recogniser Self.Kind Self };

    /// The `r_type` in ELF files.
    fn elf_type(self) -> u32
        ensures { result ≡ r_type_of (how.elf_name self) };

    /// A rewrite as one of all architectures'.
    fn relaxation(kind: Self::Kind) -> Relaxation
        ensures { result ≡ how.relaxation kind };

    /// The choice by what a linker knows.
    #[inline]
    fn choose(self, original: &[u8], offset: u64, facts: &LinkFacts) -> Choice<Self::Kind, Self>
        ensures { IsChosen Self.how self original.now offset facts.now result }
    {
        Self::Kind::choose(self, original, offset, facts)
    }

    /// The choices of its table. The last of them changes nothing.
    fn listed(self, section: &[u8], at: u64) -> Choices<Self::Kind, Self>
        ensures choices { take result.1 result.0 ≡ choices_at Self.how self section.now at }
        ensures few { result.1 ≤ 6 }
    {
        choices_of(
            Self::Kind::entries(self, section, at),
            Self::Kind::none(),
            self,
        )
    }

    ghost laws: { AreLawsOf Self.how Self.Kind.tables Self.row_of Self.Kind.eq Self.eq };
}

/// Sets the choice at an index. Beside the entries the prover finds no bound for the array's bytes.
#[inline(always)]
pub(crate) fn put<K: Copy, R: Copy>(
    choices: &mut [Choice<K, R>; CANDIDATES],
    index: usize,
    choice: Choice<K, R>,
)
    requires { index < 6 }
    ensures { choices.new ≡ slice_set choices.old index choice }
{
    choices[index] = choice;
}

/// The choices of entries, and after these another.
#[inline(always)]
fn choices_of<O, K: Copy, R: Copy>(
    entries: &'static [ChoiceEntry<O, K, R>],
    kind: K,
    relocation: R,
) -> Choices<K, R>
    requires { length entries.now ≤ 5 }
    ensures choices { take result.1 result.0 ≡ choices_in entries.now (choice kind relocation) }
    ensures few { result.1 ≤ 6 }
{
    let mut choices = [Choice { kind, relocation }; CANDIDATES];
    for index in 0..entries.len() {
        let ChoiceEntry {
            kind,
            relocation,
            ..
        } = entries[index];
        put(&mut choices, index, Choice { kind, relocation });
    }
    (choices, entries.len() + 1)
}

/// A choice with what stands in its field, if its rewrite is meant for what is at the offset and it
/// leaves the linked bytes, as `recognise` says. In a loop LLVM would compute for every rewrite
/// what some need.
#[inline(never)]
fn recognise_one<N: RecognisedName>(
    choice: Choice<N::Kind, N>,
    original: &[u8],
    offset: u64,
    others: &[FieldBits],
    linked: &[u8],
) -> Option<Recognised<N::Kind, N>>
    requires { length original.now ≤ 64 }
    ensures { (m : Recognised N.Kind N) → (result ≡ Some m)
        ↔ ((m.choice ≡ choice) × IsMeant N.how original.now offset others.now linked.now m) }
{
    let kind = N::relaxation(choice.kind);
    if !kind.matches(original, offset) {
        return None;
    }
    let mut buffer = [0u8; MAX_WINDOW];
    let after = &mut buffer[..original.len()];
    after.copy_from_slice(original);
    let (mut at, mut addend) = (offset, 0);
    kind.apply(after, &mut at, &mut addend);
    let row = choice.relocation.find_row();
    let deleted = kind.deleted();
    if !are_left(after, at, &row, deleted, offset, others, linked) {
        return None;
    }
    let field_offset = linked_offset(deleted, offset, at);
    Some(Recognised {
        choice,
        offset: field_offset,
        value: value_at(&row, field_offset, linked),
    })
}

/// The choice at an index, if it has no place before it.
#[inline(always)]
fn first_at<N: RecognisedName>(
    choices: &[Choice<N::Kind, N>; CANDIDATES],
    index: usize,
) -> Option<Choice<N::Kind, N>>
    requires { index < 6 }
    ensures some { IfSome result (λ choice. (slice_get choices.now index ≡ Some choice)
        × (IsRepeated choices.now index → ⊥)) }
    ensures none { IfNone result (IsRepeated choices.now index) }
{
    for earlier in 0..index {
        if choices[earlier] == choices[index] {
            return None;
        }
    }
    Some(choices[index])
}

/// Which rewrites, and relocations after them, a linker may have made at the relocation with a
/// name, whose offset in the original bytes is given: those after which the original bytes differ
/// from the linked ones only in the field of the relocation after it and in `others`. They have
/// their places in the table of `choose`, after which is `NoOp` and the same name. A choice that
/// is listed twice has the first one, so that none is returned twice.
///
/// - Both windows may begin before the relocation, at the same place. The original one has at most
///   `MAX_WINDOW` bytes. After a rewrite that deletes bytes the linked window is shorter by these,
///   and empty if they are all of the original one.
/// - A window that is wider than the rewrite has to name in `others` what else differs in it. The
///   least one has the bytes of each rewrite (`window` of its kind) and the field of the relocation
///   after it. A window without the relocation's field has no choice, and an empty one has none.
/// - `others` are bits of the original window that other relocations write, as
///   `FieldBits::of_row` gives them, among them those of a relocation that the choice skips. Of an
///   instruction that another relocation rewrites or deletes they are all bits. Where a skipped
///   relocation isn't named, its field is compared with what the rewrite left, since it isn't
///   applied.
/// - Nothing needs to be known of the symbol. So several choices are returned where their bytes are
///   the same, as where only the relocation changes. Each comes with the offset of its field in the
///   linked bytes and with what `reading::read` returns there.
/// - A choice is returned only if its rewrite is meant for what is at the offset, as `matches`
///   says, and the field is in the window. Each that `choose` makes, whatever the linker knows, is
///   one of them if it leaves the linked bytes so.
///
/// ```
/// use linker_reading::recognise::recognise;
/// use linker_utils::riscv64::RiscVRelocation;
/// use linker_utils::x86_64::{RewriteKind, X86_64Relocation};
///
/// // mov x@GOTPCREL(%rip), %rdi became lea x(%rip), %rdi
/// let original = [0x48, 0x8b, 0x3d, 0, 0, 0, 0];
/// let linked = [0x48, 0x8d, 0x3d, 0x10, 0x20, 0, 0];
/// let name = X86_64Relocation::R_X86_64_REX_GOTPCRELX;
/// let mut choices = recognise(name, &original, 3, &[], &linked).into_iter().flatten();
/// let made = choices.next().unwrap();
/// assert_eq!(made.choice.kind, RewriteKind::MovIndirectToLea);
/// assert_eq!(made.value.unwrap().number(), Some(0x2010));
/// assert!(choices.next().is_none());
///
/// // `auipc ra, 0` and `jalr ra, 0(ra)` became `jal ra, 256`
/// let original = [0x97, 0, 0, 0, 0xe7, 0x80, 0, 0];
/// let linked = [0xef, 0, 0, 0x10];
/// let name = RiscVRelocation::R_RISCV_CALL_PLT;
/// let mut choices = recognise(name, &original, 0, &[], &linked).into_iter().flatten();
/// assert_eq!(choices.next().unwrap().choice.relocation, RiscVRelocation::R_RISCV_JAL);
/// ```
pub fn recognise<N: RecognisedName>(
    name: N,
    original: &[u8],
    offset: u64,
    others: &[FieldBits],
    linked: &[u8],
) -> [Option<Recognised<N::Kind, N>>; CANDIDATES]
    requires { length original.now ≤ 64 }
    ensures found { AreExactly (IsFound N.how name original.now offset others.now linked.now)
        result }
    ensures any { (facts : LinkFacts) (m : Recognised N.Kind N)
        → IsChosen N.how name original.now offset facts m.choice
        → IsMade N.how original.now offset others.now linked.now m → IsOneOf (Some m) result }
    ensures placed { ArePlaced (choices_at N.how name original.now offset) result }
    ensures once { AreDistinct result }
{
    let (choices, count) = name.listed(original, offset);
    let mut found = [None; CANDIDATES];
    for index in 0..count {
        if let Some(choice) = first_at(&choices, index) {
            found[index] = recognise_one(choice, original, offset, others, linked);
        }
    }
    found
}

/// The choice that `choose` makes by what the linker knows, if it leaves the linked bytes, as
/// `recognise` says.
pub fn recognise_chosen<N: RecognisedName>(
    name: N,
    original: &[u8],
    offset: u64,
    others: &[FieldBits],
    linked: &[u8],
    facts: &LinkFacts,
) -> Option<Recognised<N::Kind, N>>
    requires { length original.now ≤ 64 }
    ensures { (m : Recognised N.Kind N) → (result ≡ Some m)
        ↔ (IsChosen N.how name original.now offset facts.now m.choice
        × IsMade N.how original.now offset others.now linked.now m) }
{
    let chosen = name.choose(original, offset, facts);
    recognise_one(chosen, original, offset, others, linked)
}
