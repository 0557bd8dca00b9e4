//! How often calls allocate. Each test allocates as often as its name says:
//! `tools/test_refused_growth` counts.

use crate::refused_growth::batches_of;
use crate::rows::{copy_of, deltas_of, expect, expect_eq};
use linker_utils::relaxation::{
    RelaxDeltaMap, calls_apart, calls_shrinkable, pack_section, shrink_calls,
};

const FEW: [(u64, u32); 2] = [(8, 4), (16, 4)];

// none of no deletions, and else the deltas: so few have no heads of blocks
#[test]
fn lists_and_their_copies_take_2(rt: HostRuntime) {
    for raw in [[].as_slice(), &FEW] {
        let copy = copy_of(&rt, &deltas_of(&rt, rt.alloc(), raw));
        expect_eq(&rt, raw, copy.deltas().len(), raw.len());
    }
}

// the deltas, and a copy of pairs that don't ascend
#[test]
fn merges_take_3(rt: HostRuntime) {
    for more in [[].as_slice(), &FEW, &[(16, 4), (8, 4)]] {
        let mut deltas = deltas_of(&rt, rt.alloc(), &[]);
        expect(&rt, more, deltas.is_mergeable(more));
        let is_merged = deltas.merge_additional(more).is_ok();
        expect_eq(
            &rt,
            more,
            (is_merged, deltas.deltas().len()),
            (true, more.len()),
        );
    }
}

// the batches themselves, which are three; then none of empty ones, and the deltas and a copy
#[test]
fn batches_take_5(rt: HostRuntime) {
    let batches = batches_of(&rt, rt.alloc(), &FEW);
    expect(&rt, 3, batches.len() == 3);
    for (first, count) in [(&batches[..1], 0), (&batches[..], 2)] {
        let mut deltas = deltas_of(&rt, rt.alloc(), &[]);
        expect(&rt, count, deltas.are_mergeable(first));
        let is_merged = deltas.merge_all(first).is_ok();
        expect_eq(
            &rt,
            count,
            (is_merged, deltas.deltas().len()),
            (true, count),
        );
    }
}

// the deltas of a section and the map's entries, and the same of a copy
#[test]
fn maps_and_their_copies_take_4(rt: HostRuntime) {
    let mut map = RelaxDeltaMap::new(rt.alloc());
    let empty = map.clone().expect(&rt, "no memory");
    expect(&rt, 0, empty.is_empty());
    expect(&rt, 0, map.last_index().is_none());
    let is_inserted = map.insert(3, deltas_of(&rt, rt.alloc(), &FEW)).is_ok();
    let copy = map.clone().expect(&rt, "no memory");
    expect_eq(&rt, 3, (is_inserted, copy.last_index()), (true, Some(3)));
}

// both vectors of what each returns
#[test]
fn packing_and_choosing_take_2(rt: HostRuntime) {
    let (none, calls) = (deltas_of(&rt, rt.alloc(), &[]), [(0, 8)]);
    expect(&rt, calls, calls_apart(&calls));
    expect(&rt, calls, calls_shrinkable(&none, &calls));
    let packed = pack_section(
        rt.alloc(),
        &[0x97, 0, 0, 0, 0xe7, 0x80, 0, 0],
        &none,
        &calls,
    );
    let chosen = shrink_calls(rt.alloc(), &none, &calls).expect(&rt, "no memory");
    expect_eq(&rt, calls, (packed.is_ok(), chosen.len()), (true, 1));
}
