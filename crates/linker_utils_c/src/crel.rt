//! Compact relocations.

ghost use Rattle.std.specs.Prelude.{◌≡◌};
ghost use Rattle.linker_utils_c.specs.Crel.{crel_status, number_by, addends_by, IsCrelReturned};
ghost use Rattle.linker_utils_c.specs.Status.{code};

use crate::status::Status;
use linker_section::crel::{Crel, CrelError, read_crel};

/// The status of a call, which also writes how many relocations there are, or what an error is
/// about, and whether they have addends.
fn status_of(read: Result<Crel, CrelError>, number: &mut usize, has_addends: &mut u8) -> u32
    ensures status { result ≡ code (crel_status read) }
    ensures number { number.new ≡ number_by read }
    ensures has_addends { has_addends.new ≡ addends_by read has_addends.old }
{
    let (status, value) = match read {
        Ok(crel) => {
            *has_addends = u8::from(crel.has_addends);
            (Status::Success as u32, crel.count)
        }
        Err(CrelError::CutOff(at)) => (Status::CutOff as u32, at),
        Err(CrelError::TooLarge(at)) => (Status::TooLarge as u32, at),
        Err(CrelError::TooShort(needed)) => (Status::TooShort as u32, needed),
    };
    *number = value;
    status
}

/// Writes the relocations of a section of type `SHT_CREL` to the beginning of `relas`, as
/// `read_crel`, how many they are to `number`, and whether they have addends. The first that
/// applies of `CutOff` and `TooLarge` of the header, with an offset in `number`; `TooShort`, with
/// how many there are; `CutOff` and `TooLarge` of a relocation. Then `relas` and `has_addends` are
/// unchanged.
#[unsafe(no_mangle)]
pub extern "C" fn linker_utils_read_crel_nonnull(
    crel: &[u8],
    relas: &mut [u8],
    number: &mut usize,
    has_addends: &mut u8,
) -> u32
    ensures { IsCrelReturned crel.now relas.old relas.new number.new has_addends.old
        has_addends.new result }
{
    status_of(read_crel(crel, relas), number, has_addends)
}
