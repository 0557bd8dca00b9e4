//! The shapes that the instructions of an architecture can have.

ghost use Rattle.std.specs.Prelude.{◌≡◌, ℕ, true};
ghost use Rattle.linker_runs.specs.Relaxing.{shape_len, shape_reaches};

use crate::relaxation::{Shape, Shapes};

pub mod loongarch64;
pub mod riscv64;

/// No short shape.
const NONE: Shape = Shape {
    kept: 0,
    max_backward: 0,
    max_forward: 0,
    granularity: 1,
};

/// A deletion that is decided already: n bytes stay wherever the target is.
pub fn fixed(kept: u32) -> Shapes
    ensures none { result.count ≡ 0 }
    ensures longest { result.longest ≡ kept }
    ensures len { (k : ℕ) → shape_len result k ≡ kept }
    ensures reached { (k from to : ℕ) → shape_reaches result k from to ≡ true }
{
    Shapes {
        short: [NONE, NONE],
        count: 0,
        longest: kept,
    }
}
