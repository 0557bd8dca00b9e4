//! RV32: its short calls.

ghost use Rattle.std.specs.Prelude.{◌≡◌};
ghost use Rattle.linker_runs.specs.RiscV32.{links_short};

use crate::packing::Machine;

/// The base instruction set of RISC-V code.
#[derive(Clone, Copy)]
pub enum Isa {
    /// RV32, whose C extension has `c.jal`.
    Rv32,
    /// RV64.
    Rv64,
}

impl Machine {
    /// Whether a jump of two bytes links a register: `c.j` none, and RV32's `c.jal` x1. It is
    /// asked of RISC-V alone.
    #[inline(always)]
    pub(crate) fn links_short(self, link: u32) -> bool
        ensures { result ≡ links_short self link }
    {
        match self {
            Machine::RiscV(Isa::Rv32) => link == 0 || link == 1,
            Machine::RiscV(Isa::Rv64) | Machine::LoongArch64 => link == 0,
        }
    }
}
