// A sum that leaves its type, told of the newest of three files that holds its group.
use crate::query::answering::{Asked, page_of, query_of};
use crate::query::inputs::{Source, own, source_of, three};
use crate::query::tables::table;
use crate::query::vectors::{AGAIN, APART, MORE, MOST, OTHER, VECTORS};
use mesa_delta::FileError;
use mesa_disk::{Damage, FileId, MemReader, Seen};
use mesa_key::KeyType;
use mesa_model::Page;
use std::alloc::Global;
use std::process::Abort;
use std::thread::Threads;

// A filter, the third file, and the id of the file of which the sum is told.
#[derive(Clone, Copy)]
struct Case {
    filter: &'static str,
    third: usize,
    told: u64,
}

// The first file has the greatest amount, and the second one more: with its row the sum leaves its type.
static SUMS: [Case; 4] = [
    // The third has a row of the group too.
    Case {
        filter: "",
        third: AGAIN,
        told: 3,
    },
    // Its row is of the group, with another key.
    Case {
        filter: "",
        third: OTHER,
        told: 3,
    },
    // Its row is of another group.
    Case {
        filter: "",
        third: APART,
        told: 2,
    },
    // Its row is of the group, and doesn't match.
    Case {
        filter: "b=1",
        third: OTHER,
        told: 2,
    },
];

// What the query by `a` is answered from the first two files and this one.
fn answered_of<T: Abort + Threads + Sync>(
    rt: &T,
    alloc: Global,
    filter: &str,
    third: Source<MemReader>,
) -> Result<Page, FileError> {
    let table = table(rt, alloc, &["a", "b"], KeyType::Int);
    let asked = Asked {
        filter,
        group: "a",
        resume: "",
    };
    let query = query_of(rt, alloc, &table, "t", asked);
    let first = source_of(rt, alloc, &VECTORS[MOST], None);
    let first = own(rt, alloc, first, &table);
    let second = source_of(rt, alloc, &VECTORS[MORE], None);
    let second = own(rt, alloc, second, &table);
    let third = own(rt, alloc, third, &table);
    let inputs = three(rt, alloc, first, second, third);
    page_of(rt, alloc, query, None, inputs)
}

fn damage_of<T: Abort + Threads + Sync>(
    rt: &T,
    alloc: Global,
    filter: &str,
    third: Source<MemReader>,
) -> Damage {
    match answered_of(rt, alloc, filter, third) {
        Err(FileError::Damaged(damage)) => damage,
        Err(error) => panic!(rt; "{error:?}"),
        Ok(_page) => panic!(rt; "a page"),
    }
}

fn expect_sum<T: Abort + Threads + Sync>(rt: &T, alloc: Global, case: Case) {
    assert!(rt; case.third < VECTORS.len());
    let third = source_of(rt, alloc, &VECTORS[case.third], None);
    let damage = damage_of(rt, alloc, case.filter, third);
    let want = Damage {
        file: FileId::of(case.told),
        place: 0,
        want: Seen::Fits,
        found: Seen::Misfit(0),
    };
    assert_eq!(rt; damage, want, "third {}", case.third);
}

#[test]
fn a_sum_is_told_of_the_newest_file_that_holds_its_group(rt: HostRuntime) {
    for case in &SUMS {
        expect_sum(&rt, rt.alloc(), *case);
    }
}

// The third file, which is read for the group's key, isn't the recorded one.
#[test]
fn damage_met_behind_a_sum_is_told_in_its_place(rt: HostRuntime) {
    let third = source_of(&rt, rt.alloc(), &VECTORS[AGAIN], Some(20));
    let damage = damage_of(&rt, rt.alloc(), "", third);
    assert_eq!(rt; (damage.file, damage.place), (FileId::of(3), 0));
    assert!(rt; damage.want != Seen::Fits, "{damage:?}");
}
