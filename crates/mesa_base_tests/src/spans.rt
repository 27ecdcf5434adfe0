// Ranges of versions: what is merged next, and what a reader opens.
use crate::expected::expect_same;
use mesa_list::{Items, TryCopy};
use mesa_span::{Ranges, Work, next_work, plan};

// The ranges after the works of a table of 93 versions whose oldest is 60, and its next works and
// plans; the same rows stand as theorems beside the definitions, in `mesa_span`.
#[test]
fn plans_and_works_of_ninety_three_versions(rt: HostRuntime) {
    let mut ranges = Ranges {
        base_to: Some(60),
        cumulatives: Items::new(rt.alloc()),
    };
    let next = Work::Cumulative { from: 61, to: 70 };
    expect_same(
        &rt,
        &next_work(&ranges, 60, Some(92)),
        &Some(next),
        &"next_work(&ranges, 60, Some(92))",
    );
    ranges.cumulatives = Items::from_vec(vec![in rt.alloc(); 70, 80, 90].expect(&rt, "memory"));
    let ranges = ranges.copy().expect(&rt, "memory");
    assert!(rt; next_work(&ranges, 60, Some(92)).is_none());
    let next = Work::Cumulative { from: 61, to: 100 };
    expect_same(
        &rt,
        &next_work(&ranges, 60, Some(100)),
        &Some(next),
        &"next_work(&ranges, 60, Some(100))",
    );
    expect_same(
        &rt,
        &next_work(&ranges, 75, Some(92)),
        &Some(Work::Base { to: 75 }),
        &"next_work(&ranges, 75, Some(92))",
    );
    assert!(rt; next_work(&ranges, 60, None).is_none());
    let spans = plan(rt.alloc(), &ranges, 91).expect(&rt, "memory");
    expect_same(
        &rt,
        &spans.as_slice(),
        &[(0, 60), (61, 90), (91, 91)].as_slice(),
        &"the spans",
    );
}
