//! Comparisons that name the row at fault, and deltas, for tests. A call that has failed is tried
//! again.

ghost use Rattle.std.specs.Prelude.{IsTrue};

use linker_utils::relaxation::SectionRelaxDeltas;
use std::alloc::Global;
use std::fmt::Debug;
use std::process::Abort;

/// Requires equal values in the row.
pub fn expect_eq<R: Copy + Debug, T: Copy + PartialEq + Debug>(
    rt: &impl Abort,
    row: R,
    found: T,
    expected: T,
) {
    assert_eq!(rt; found, expected, "{row:?}");
}

/// Requires that a condition holds in the row.
pub fn expect<R: Copy + Debug>(rt: &impl Abort, row: R, condition: bool)
    ensures { IsTrue condition }
{
    assert!(rt; condition, "{row:?}");
}

/// The deltas of deletions, which have to be valid.
pub fn deltas_of(rt: &impl Abort, alloc: Global, raw: &[(u64, u32)]) -> SectionRelaxDeltas {
    expect(rt, raw, SectionRelaxDeltas::is_valid(raw));
    match SectionRelaxDeltas::new(alloc, raw) {
        Ok(deltas) => deltas,
        Err(_) => SectionRelaxDeltas::new(alloc, raw).expect(rt, "no memory"),
    }
}

/// A copy of deltas.
pub fn copy_of(rt: &impl Abort, deltas: &SectionRelaxDeltas) -> SectionRelaxDeltas {
    match deltas.clone() {
        Ok(copy) => copy,
        Err(_) => deltas.clone().expect(rt, "no memory"),
    }
}
