//! The calls that were made jumps.

ghost use Rattle.std.specs.Prelude.{◌≡◌, ◌↔◌, ◌++◌, ◌∷◌, [], ℕ, List};
ghost use Rattle.std.specs.Prelude.{All, IsTrue, IfOk, OnOk, OnErr};
ghost use Rattle.linker_utils.specs.Packing.{AreApart};
ghost use Rattle.linkfix.specs.AcceptedCalls.{AreBySite, IsFarFrom, placed};

use std::alloc::{AllocError, Global};
use std::collections::BTreeMap;
use std::marker::Model;

/// The bytes of a jump: the sites of two accepted calls are at least so far apart.
const JUMP_LEN: u64 = 4;

/// Calls, each a site and a target, whose sites are at least 4 apart. Contracts see them by site.
#[derive(Drop)]
pub struct AcceptedCalls {
    targets: BTreeMap<u64, u64>,
}

impl Model for AcceptedCalls {
    ghost use Rattle.std.specs.Prelude.{ℕ, List};
    ghost use Rattle.linker_utils.specs.Packing.{AreApart};

    ghost Value = { List (ℕ × ℕ) };

    ghost view = { λ accepted. accepted.targets.entries };

    ghost invariant = { λ accepted. AreApart accepted.targets.entries };
}

impl AcceptedCalls {
    /// No calls. It doesn't allocate.
    pub fn new(alloc: Global) -> AcceptedCalls
        ensures { result ≡ [] }
    {
        AcceptedCalls {
            targets: BTreeMap::new(alloc),
        }
    }

    /// The calls by site.
    pub fn to_vec(&self, alloc: Global) -> Result<Vec<(u64, u64)>, AllocError>
        ensures calls { IfOk result (λ calls. calls.items ≡ self.now) }
        ensures apart { AreApart self.now }
    {
        let mut calls = Vec::with_capacity(alloc, self.targets.len())?;
        for (site, target) in &self.targets {
            calls.push((*site, *target))?;
        }
        Ok(calls)
    }

    /// Whether the site is at least 4 from that of each call. The search takes O(log n).
    pub fn are_far_from(&self, site: u64) -> bool
        ensures { IsTrue result ↔ All (IsFarFrom site) self.now }
    {
        let first = site.saturating_sub(JUMP_LEN - 1);
        match self.targets.range(first..).next() {
            Some((next, _)) => next.saturating_sub(site) >= JUMP_LEN,
            None => true,
        }
    }

    /// Adds a call in O(log n). It changes nothing where it runs out of memory.
    pub fn insert(&mut self, site: u64, target: u64) -> Result<(), AllocError>
        requires { All (IsFarFrom site) self.old }
        ensures ok { OnOk result (AreBySite (self.old ++ (site, target) ∷ []) self.new) }
        ensures placed { OnOk result (self.new ≡ placed (site, target) self.old) }
        ensures err { OnErr result (self.new ≡ self.old) }
    {
        let _ = self.targets.insert(site, target)?;
        Ok(())
    }

    /// Takes out the call at `site` that was added last, in O(log n).
    pub fn remove(&mut self, site: u64)
        ensures { (target : ℕ) (calls : List (ℕ × ℕ)) → All (IsFarFrom site) calls
            → self.old ≡ placed (site, target) calls → self.new ≡ calls }
    {
        let _ = self.targets.remove(&site);
    }
}
