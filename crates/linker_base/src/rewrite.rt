//! What the rewrites of all architectures share.

ghost use Rattle.linker_base.specs.RewriteWindow.{IsWindowIn};
ghost use Rattle.std.specs.Prelude.{◌≡◌, ◌≤◌, ◌+◌, ◌-◌, ◌++◌, ◌↔◌, IsTrue, length, take, drop};

/// The bytes that a linker deletes after a rewrite.
#[derive(Clone, Copy)]
pub struct DeletedBytes {
    /// Where they begin, in bytes from the rewrite's offset.
    pub start: u64,
    /// How many they are.
    pub count: u32,
}

/// The window of a rewrite: the bytes that it writes at an offset of a section. It writes none
/// where `len` is 0. All bytes outside the window stay as they are.
///
/// ```
/// use linker_utils::elf::RewriteWindow;
/// use linker_utils::x86_64::RewriteKind;
///
/// // jmp *x@GOTPCREL(%rip), with its field at offset 2, becomes jmp x; nop
/// let window = RewriteKind::JmpIndirectToRelative.window();
/// assert_eq!(window, RewriteWindow { back: 2, len: 6 });
/// ```
#[repr(C)]
#[derive(Default, Clone, Copy)]
pub struct RewriteWindow {
    /// How many bytes before the rewrite's offset the window begins.
    pub back: u64,
    /// How many bytes it has.
    pub len: u64,
}

/// Whether the `len` bytes that begin `back` bytes below `offset` lie in the section.
#[inline(always)]
pub fn has_window(section: &[u8], offset: u64, back: u64, len: u64) -> bool
    ensures { IsTrue result ↔ ((back ≤ offset) × (offset - back + len ≤ length section.now)) }
{
    let section_len = section.len() as u64;
    back <= offset && len <= section_len && offset - back <= section_len - len
}

/// Whether the window of a rewrite at an offset lies in the section. One of 0 bytes does anywhere.
#[inline(always)]
pub fn window_is_in(section: &[u8], offset: u64, window: RewriteWindow) -> bool
    ensures { IsTrue result ↔ IsWindowIn window section.now offset }
{
    window.len == 0 || has_window(section, offset, window.back, window.len)
}

/// Overwrites bytes at an offset of the section.
#[inline(always)]
pub fn overwrite(section: &mut [u8], at: u64, bytes: &[u8])
    requires { at + length bytes.now ≤ length section.old }
    ensures { section.new
        ≡ take at section.old ++ bytes.now ++ drop (at + length bytes.now) section.old }
{
    let start = at as usize;
    section[start..start + bytes.len()].copy_from_slice(bytes);
}
