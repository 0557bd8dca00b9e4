//! `e_flags` of an output.

ghost use Rattle.std.specs.Prelude.{◌≡◌, ℕ, bit_or};
ghost use Rattle.linker_output.specs.Flags.{joined_flags, JoinsAlike, KeepsItself};

use crate::description::Target;

/// How `e_flags` of objects go together.
#[derive(Clone, Copy)]
pub struct FlagRules {
    /// The bits that are equal in all objects of an output.
    pub same: u32,
    /// The bits that an output has if one of its objects has them.
    pub joined: u32,
    /// The bits that each output has, among those of `joined`.
    pub own: u32,
}

impl Target {
    /// `e_flags` of two objects that are linked, from those of each. None where the psABI keeps the
    /// two apart, or where one of them has a bit that the psABI doesn't define. The order of
    /// objects doesn't matter.
    ///
    /// ```
    /// use linker_output::description::Target;
    /// use linker_utils::elf::Architecture;
    ///
    /// let target = Target::of(Architecture::RiscV);
    /// // code with C instructions and code without, both for lp64d
    /// assert_eq!(target.join_flags(5, 4), Some(5));
    /// // lp64d and lp64
    /// assert_eq!(target.join_flags(5, 1), None);
    /// ```
    #[tactic(auto, using(crate::proofs::JoinedFlags::commutes, crate::proofs::JoinedFlags::associates, crate::proofs::JoinedFlags::keeps_itself))]
    pub fn join_flags(&self, first: u32, second: u32) -> Option<u32>
        ensures joined { result ≡ joined_flags self.now.flags first second }
        ensures commutative { joined_flags self.now.flags first second
            ≡ joined_flags self.now.flags second first }
        ensures associative { (third : ℕ) → JoinsAlike self.now.flags first second third }
        ensures idempotent { KeepsItself self.now.flags first }
    {
        let rules = &self.flags;
        let others = !(rules.same | rules.joined);
        if (first | second) & others == 0 && first & rules.same == second & rules.same {
            Some(first | second)
        } else {
            None
        }
    }

    /// `e_flags` of an output, from those that `join_flags` made of its objects.
    ///
    /// PowerPC64's objects may leave the version of the ABI open, and an output says that it is 2.
    ///
    /// ```
    /// use linker_output::description::Target;
    /// use linker_utils::elf::Architecture;
    ///
    /// assert_eq!(Target::of(Architecture::Ppc64).output_flags(0), 2);
    /// ```
    pub fn output_flags(&self, joined: u32) -> u32
        ensures { result ≡ bit_or joined self.now.flags.own }
    {
        joined | self.flags.own
    }
}
