//! What a linker made of a relocation, by its architecture and its `r_type`.

ghost use Rattle.std.specs.Prelude.{◌≡◌, ◌≤◌, ℕ, length, map};
ghost use Rattle.linker_reading.specs.FoundByType.{by_type, AreFound, IsFoundBy, IsFoundChosen};
ghost use Rattle.linker_reading.specs.Windows.{IsWindowOf};
ghost use Rattle.linker_elf.specs.Architectures.{of_some};
ghost use Rattle.linker_elf.specs.ElfNames.{IsNameOf};

use crate::recognise::engine::{self, CANDIDATES, Recognised, RecognisedName};
use crate::recognise::fields::FieldBits;
use crate::windows;
pub use crate::windows::{Destination, destination_of};
use linker_elf::elf::architecture::by_architecture;
use linker_utils::architecture::Relaxation;
use linker_utils::elf::{Architecture, Choice, LinkFacts, RewriteWindow};

/// What is found of the relocation's name that an architecture has for an `r_type`.
macro_rules! found_of {
    ($of:ident $module:ident $names:ident ($r_type:expr, $name:ident => $found:expr)) => {{
        let $name = linker_utils::$module::$names::from_elf($r_type);
        $found
    }};
}

/// The same with the rewrite as one of all architectures', and the relocation's `r_type`.
#[inline(always)]
fn typed<N: RecognisedName>(
    found: Option<Recognised<N::Kind, N>>,
) -> Option<Recognised<Relaxation, u32>>
    ensures { result ≡ of_some (by_type N.how) found }
{
    let made = found?;
    Some(Recognised {
        choice: Choice {
            kind: N::relaxation(made.choice.kind),
            relocation: made.choice.relocation.elf_type(),
        },
        offset: made.offset,
        value: made.value,
    })
}

/// The same of each.
fn all_by_type<N: RecognisedName>(
    found: [Option<Recognised<N::Kind, N>>; CANDIDATES],
) -> [Option<Recognised<Relaxation, u32>>; CANDIDATES]
    requires { length found ≡ 6 }
    ensures { result ≡ map (of_some (by_type N.how)) found }
{
    let mut by_type = [None; CANDIDATES];
    for index in 0..CANDIDATES {
        if found[index].is_some() {
            by_type[index] = typed(found[index]);
        }
    }
    by_type
}

/// The choice that `choose` makes for a name, as `recognise_chosen` of this crate says, so.
#[inline(always)]
fn chosen_by_type<N: RecognisedName>(
    name: N,
    original: &[u8],
    offset: u64,
    others: &[FieldBits],
    linked: &[u8],
    facts: &LinkFacts,
) -> Option<Recognised<Relaxation, u32>>
    requires { length original.now ≤ 64 }
    ensures { (r_type : ℕ) → IsNameOf N.how.elf_name r_type name
        → IsFoundBy N.how r_type original.now offset others.now linked.now facts.now result }
{
    typed(engine::recognise_chosen(name, original, offset, others, linked, facts))
}

/// Which rewrites, and relocations after them, a linker may have made at the relocation with an
/// `r_type`, as `recognise` of this crate says. `window_of` returns the window that it wants, and
/// `destination_of` the address that one of them leads to.
///
/// ```
/// use linker_reading::recognise::architecture::recognise;
/// use linker_utils::architecture::Relaxation;
/// use linker_utils::elf::Architecture;
/// use linker_utils::x86_64::RewriteKind;
///
/// // mov x@GOTPCREL(%rip), %rdi, with R_X86_64_REX_GOTPCRELX, became lea x(%rip), %rdi
/// let original = [0x48, 0x8b, 0x3d, 0, 0, 0, 0];
/// let linked = [0x48, 0x8d, 0x3d, 0x10, 0x20, 0, 0];
/// let found = recognise(Architecture::X86_64, 42, &original, 3, &[], &linked);
/// let made = found.into_iter().flatten().next().unwrap();
/// assert_eq!(made.choice.kind, Relaxation::X86_64(RewriteKind::MovIndirectToLea));
/// assert_eq!(Architecture::X86_64.name(made.choice.relocation), Some("R_X86_64_PC32"));
/// assert_eq!(made.value.unwrap().number(), Some(0x2010));
/// ```
pub fn recognise(
    architecture: Architecture,
    r_type: u32,
    original: &[u8],
    offset: u64,
    others: &[FieldBits],
    linked: &[u8],
) -> [Option<Recognised<Relaxation, u32>>; CANDIDATES]
    requires { length original.now ≤ 64 }
    ensures found { AreFound architecture r_type original.now offset others.now linked.now result }
{
    by_architecture!(architecture, found_of(r_type, name => {
        all_by_type(engine::recognise(name, original, offset, others, linked))
    }))
}

/// The choice that `choose` makes by what the linker knows, if it leaves the linked bytes, as
/// `recognise_chosen` of this crate says.
pub fn recognise_chosen(
    architecture: Architecture,
    r_type: u32,
    original: &[u8],
    offset: u64,
    others: &[FieldBits],
    linked: &[u8],
    facts: &LinkFacts,
) -> Option<Recognised<Relaxation, u32>>
    requires { length original.now ≤ 64 }
    ensures found { IsFoundChosen architecture r_type original.now offset others.now linked.now
        facts.now result }
{
    by_architecture!(architecture, found_of(r_type, name => {
        chosen_by_type(name, original, offset, others, linked, facts)
    }))
}

/// The window that `recognise` wants, in bytes of an object around the relocation with an `r_type`
/// at an offset of them. It begins at the last byte, and ends at the first one, with which
/// `recognise` finds each choice that it finds in all of these bytes. So it has the bytes that
/// their rewrites write and delete, those that `matches` reads, and the fields of the relocations
/// after them. What other relocations write there is to be named in `others`. It begins `back`
/// bytes before the offset.
///
/// A choice whose bytes aren't all given isn't counted: give 16 before the offset and 44 from there
/// on, or those that there are. On PowerPC64 the first byte has to be at a multiple of 4 in its
/// section, since `matches` tests where an instruction begins.
pub fn window_of(
    architecture: Architecture,
    r_type: u32,
    original: &[u8],
    offset: u64,
) -> RewriteWindow
    requires { length original.now ≤ 64 }
    ensures { IsWindowOf architecture r_type original.now offset result }
{
    by_architecture!(architecture, found_of(r_type, name => {
        let there = windows::those_there(name, original, offset);
        windows::least_window(name, &there, original, offset)
    }))
}
