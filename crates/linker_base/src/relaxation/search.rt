//! The search among deltas: by the heads of their blocks, and then in one block.

ghost use Rattle.std.specs.Prelude.{◌≡◌, ◌<◌, ◌≤◌, ◌+◌, ◌*◌, ◌^◌, ℕ, length, min, true};
ghost use Rattle.linker_base.specs.declared.relaxation.search.Level.TheVariants.{Heads, Deltas};
ghost use Rattle.linker_base.specs.Blocks.{blocks_of};
ghost use Rattle.linker_base.specs.Inner.Search.{Probed, size_of, read_at, passes_test, passing};
ghost use Rattle.linker_base.specs.Inner.Search.{OnlyProbes};
ghost use Rattle.linker_base.specs.Inner.Search.{IsPartitioned, IsNarrowed, IsPointOf, HeadsAgree};

use super::blocks::{BLOCK_LEN, BlockHead, count_blocks};

/// A test that the first deltas of a valid list pass, and the others fail.
#[derive(Clone, Copy)]
pub(super) enum Test {
    /// It begins strictly below an offset.
    BeginsBelow(u64),
    /// Its output offset, its offset less the bytes deleted before, is at most an offset.
    IsPlacedUpTo(u64),
}

impl Test {
    /// Whether a head passes; a delta passes where the head of a block that begins with it does.
    #[inline(always)]
    fn passes(self, head: BlockHead) -> bool
        ensures { result ≡ passes_test self head }
    {
        match self {
            Test::BeginsBelow(offset) => head.input_offset < offset,
            Test::IsPlacedUpTo(offset) => head.output_offset <= offset,
        }
    }
}

/// What is searched: the heads of blocks, or the deltas.
#[derive(Clone, Copy)]
pub(super) enum Level {
    Heads,
    Deltas,
}

/// Deltas and heads that are read one at a time. Their contents may be any.
pub(super) trait Probe {
    /// What is searched, and how many probes were taken.
    ghost state: { Self → Probed };

    /// How many deltas there are.
    fn len(&self) -> usize
        ensures { result ≡ length (state self.now).subject.deltas };

    /// A head, or a delta as the head of a block that begins with it. One probe.
    fn read(&mut self, level: Level, at: usize) -> BlockHead
        requires within { at < size_of (state self.old).subject level }
        requires room { (state self.old).probes < 2 ^ 63 }
        ensures value { result ≡ read_at (state self.old).subject level at }
        ensures probes { OnlyProbes 1 (state self.old) (state self.new) };
}

/// Of the first `2 * width` of `count` indexes from `last` on, one of which is the last that
/// passes, the first of those that are left, `width` at most. No probe is taken where no more are
/// there. Where the widths are constants, LLVM compiles a step to a comparison and a choice,
/// without a branch.
#[inline(always)]
fn halve<P: Probe>(
    probe: &mut P,
    level: Level,
    test: Test,
    last: usize,
    count: usize,
    width: usize,
) -> usize
    requires within { last + min count (2 * width) ≤ size_of (P.state probe.old).subject level }
    requires fits { last + min count (2 * width) ≤ 2 ^ 64 }
    requires some { 0 < width }
    requires small { width < 2 ^ 63 }
    requires room { (P.state probe.old).probes < 2 ^ 63 }
    ensures probes { OnlyProbes 1 (P.state probe.old) (P.state probe.new) }
    ensures none { count ≤ width → (P.state probe.new).probes ≤ (P.state probe.old).probes }
    ensures end { result + min count width ≤ last + min count (2 * width) }
    ensures narrowed { (many few : ℕ) → many ≡ min count (2 * width) → few ≡ min count width
        → IsNarrowed (P.state probe.old).subject level test (last + 1) many
        → IsNarrowed (P.state probe.new).subject level test (result + 1) few }
{
    if count > 2 * width {
        let middle = last + width;
        let passes = test.passes(probe.read(level, middle));
        return if passes { middle } else { last };
    }
    if count > width {
        let middle = last + (count - width);
        let passes = test.passes(probe.read(level, middle));
        return if passes { middle } else { last };
    }
    last
}

/// Six times `halve`, from the first `64 * width` on. The steps are written out, as LLVM makes a
/// branch of what a loop chooses, and that is mispredicted half the time.
#[inline(always)]
fn narrow<P: Probe>(
    probe: &mut P,
    level: Level,
    test: Test,
    last: usize,
    count: usize,
    width: usize,
) -> usize
    requires within { last + min count (64 * width) ≤ size_of (P.state probe.old).subject level }
    requires fits { last + min count (64 * width) ≤ 2 ^ 64 }
    requires some { 0 < width }
    requires small { width ≤ 64 }
    requires room { (P.state probe.old).probes < 2 ^ 62 }
    ensures probes { OnlyProbes 6 (P.state probe.old) (P.state probe.new) }
    ensures end { result + min count width ≤ last + min count (64 * width) }
    ensures narrowed { (many few : ℕ) → many ≡ min count (64 * width) → few ≡ min count width
        → IsNarrowed (P.state probe.old).subject level test (last + 1) many
        → IsNarrowed (P.state probe.new).subject level test (result + 1) few }
    ensures spent { (digits : ℕ) → count ≤ 2 ^ digits * width
        → (P.state probe.new).probes ≤ (P.state probe.old).probes + digits }
{
    if count <= width {
        return last;
    }
    let half = halve(probe, level, test, last, count, 32 * width);
    let fourth = halve(probe, level, test, half, count, 16 * width);
    let eighth = halve(probe, level, test, fourth, count, 8 * width);
    let sixteenth = halve(probe, level, test, eighth, count, 4 * width);
    let some = halve(probe, level, test, sixteenth, count, 2 * width);
    halve(probe, level, test, some, count, width)
}

/// Of `len` deltas, the first of which passes, the first of 64, one of which is the last that
/// passes. It takes at most as many probes as there are binary digits in the number of blocks.
#[inline(always)]
fn find_block<P: Probe>(probe: &mut P, test: Test, len: usize) -> usize
    requires all { len ≡ length (P.state probe.old).subject.deltas }
    requires many { 64 < len }
    requires room { (P.state probe.old).probes < 2 ^ 34 }
    ensures probes { OnlyProbes (2 ^ 59) (P.state probe.old) (P.state probe.new) }
    ensures within { result + 64 ≤ len }
    ensures narrowed { IsPartitioned (P.state probe.old).subject Deltas test
        → HeadsAgree (P.state probe.old).subject test
        → passing (P.state probe.old).subject Heads test 0 ≡ true
        → IsNarrowed (P.state probe.old).subject Deltas test (result + 1) 64 }
    ensures spent { (digits : ℕ) → blocks_of len < 2 ^ digits
        → (P.state probe.new).probes ≤ (P.state probe.old).probes + digits }
{
    let (mut last, mut count) = (0, count_blocks(len));
    // Of more heads, a branch that is mispredicted costs less than the wait for memory.
    while count > BLOCK_LEN * BLOCK_LEN {
        let width = count - count / 2;
        last = halve(probe, Level::Heads, test, last, count, width);
        count = width;
    }
    let some = narrow(probe, Level::Heads, test, last, count, BLOCK_LEN);
    let block = narrow(probe, Level::Heads, test, some, count, 1);
    // The last block may be shorter. Its search begins in the one before, so that all are alike.
    (BLOCK_LEN * block).min(len - BLOCK_LEN)
}

/// How many deltas pass. With B blocks it takes at most as many probes as B has binary digits, and
/// seven.
#[inline(always)]
pub(super) fn count_passing<P: Probe>(probe: &mut P, test: Test) -> usize
    requires room { (P.state probe.old).probes < 2 ^ 33 }
    ensures probes { OnlyProbes (2 ^ 60) (P.state probe.old) (P.state probe.new) }
    ensures within { result ≤ length (P.state probe.old).subject.deltas }
    ensures point { IsPartitioned (P.state probe.old).subject Deltas test
        → HeadsAgree (P.state probe.old).subject test
        → IsPointOf (P.state probe.old).subject Deltas test result }
    ensures spent { (digits : ℕ)
        → blocks_of (length (P.state probe.old).subject.deltas) < 2 ^ digits
        → (P.state probe.new).probes ≤ (P.state probe.old).probes + digits + 7 }
{
    let len = probe.len();
    if len > BLOCK_LEN {
        if !test.passes(probe.read(Level::Heads, 0)) {
            return 0;
        }
        let first = find_block(probe, test, len);
        return narrow(probe, Level::Deltas, test, first, BLOCK_LEN, 1) + 1;
    }
    if len == 0 || !test.passes(probe.read(Level::Heads, 0)) {
        return 0;
    }
    narrow(probe, Level::Deltas, test, 0, len, 1) + 1
}
