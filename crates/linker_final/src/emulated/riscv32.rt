//! RV32, compared with an emulator.

ghost use Rattle.linker_final.specs.RiscV32Executed.{Agrees32};

/// What `lui`, `auipc`, `jal`, `addi`, `jalr`, `add`, `c.j`, `c.jal`, `c.lui` and `c.li` do.
pub fn steps()
    ensures steps { Agrees32 }
{}
