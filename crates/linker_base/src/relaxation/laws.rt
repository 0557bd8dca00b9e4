//! Laws of deletions: each function does nothing, and its contract is a law.
ghost use Rattle.linker_base.specs.Laws.{InAfterOutReturns, OutAfterInIsFirstKept};
ghost use Rattle.linker_base.specs.Laws.{OutAfterInReturnsKept, RankNeverDecreases};
ghost use Rattle.linker_base.specs.Laws.{MergeOrderIsFree, CursorGivesRanks};
ghost use Rattle.linker_base.specs.Laws.{MergesShortenDistances, OtherSectionsStay};

/// Back to the output: the input offset of an output offset `y` isn't strictly inside a deletion,
/// and its output offset is `y`.
#[tactic(auto, using(crate::proofs::Laws::in_after_out))]
pub fn in_after_out_returns()
    ensures { InAfterOutReturns }
{}

/// Back to the input: the input offset of the output offset of `i` is the first kept position at
/// or after `i`, where `i` lies inside a deletion too. So it is `i` where `i` is kept, and then it
/// is always there.
#[tactic(auto, using(crate::proofs::Laws::out_after_in, crate::proofs::Laws::out_after_kept))]
pub fn out_after_in_returns()
    ensures first_kept { OutAfterInIsFirstKept }
    ensures kept { OutAfterInReturnsKept }
{}

/// Of two input offsets the later one has no lower output offset.
pub fn output_offsets_never_decrease()
    ensures { RankNeverDecreases }
{}

/// Two batches of deletions may be merged in either order, and also at once: where one order is
/// allowed so are the other and both at once, and the lists that are left are equal.
pub fn merge_order_is_free()
    ensures { MergeOrderIsFree }
{}

/// A cursor translates queries that don't decrease as each by itself is translated.
pub fn cursor_gives_ranks()
    ensures { CursorGivesRanks }
{}

/// More deletions never increase a distance: a branch within range of its target remains so under
/// every merge.
#[tactic(auto, using(crate::proofs::Laws::merges_shorten))]
pub fn merges_shorten_distances()
    ensures { MergesShortenDistances }
{}

/// What `RelaxDeltaMap::get_mut` lends is of one section: those of the others are as before when it
/// is handed back.
#[tactic(auto, using(crate::proofs::Sections::others_stay))]
pub fn other_sections_stay()
    ensures { OtherSectionsStay }
{}
