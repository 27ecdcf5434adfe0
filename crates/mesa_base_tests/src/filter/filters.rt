// Texts that are filters, and those that are none.
use crate::expected::expect_same;
use crate::filter::places::schema;
use mesa_filter::{Filter, FilterError};
use mesa_schema::Schema;
use std::alloc::Global;
use std::process::Abort;

// Why a text is no filter.
fn fault_of(alloc: Global, schema: &Schema, text: &str) -> Option<FilterError> {
    Filter::parse(alloc, schema, text.as_bytes()).err()
}

// Texts, and why they are no filter.
static TEXTS: [(&str, Option<FilterError>); 35] = [
    ("", None),
    ("k=1", None),
    ("k=+1|-1|01", None),
    ("k=%31", None),
    ("k=", Some(FilterError::BadLiteral { term: 1 })),
    ("k=1|", Some(FilterError::BadLiteral { term: 1 })),
    ("k=9223372036854775807", None),
    (
        "k=9223372036854775808",
        Some(FilterError::BadLiteral { term: 1 }),
    ),
    ("k=x", Some(FilterError::BadLiteral { term: 1 })),
    ("name=", None),
    ("name=|", None),
    ("name=%2c%26%7c%25", None),
    ("name=%2C", Some(FilterError::BadForm { term: 1 })),
    ("name=a%", Some(FilterError::BadForm { term: 1 })),
    ("name=%2", Some(FilterError::BadForm { term: 1 })),
    ("name=%zz", Some(FilterError::BadForm { term: 1 })),
    ("name=%00", Some(FilterError::BadLiteral { term: 1 })),
    ("name=%ff", Some(FilterError::BadLiteral { term: 1 })),
    ("name", Some(FilterError::BadForm { term: 1 })),
    ("=1", Some(FilterError::BadForm { term: 1 })),
    ("K=1", Some(FilterError::BadForm { term: 1 })),
    ("k!1", Some(FilterError::BadForm { term: 1 })),
    ("&", Some(FilterError::BadForm { term: 1 })),
    ("k=1&", Some(FilterError::BadForm { term: 2 })),
    ("k=1&&k=2", Some(FilterError::BadForm { term: 2 })),
    ("kk=1", Some(FilterError::NoColumn { term: 1 })),
    ("k=1&kk=x", Some(FilterError::NoColumn { term: 2 })),
    ("kk=%", Some(FilterError::BadForm { term: 1 })),
    ("kk=1&k=%", Some(FilterError::NoColumn { term: 1 })),
    ("k>=1", None),
    ("k>%3d1", Some(FilterError::BadLiteral { term: 1 })),
    ("k==1", Some(FilterError::BadLiteral { term: 1 })),
    ("k=>1", Some(FilterError::BadLiteral { term: 1 })),
    ("k<1|2", Some(FilterError::BadLiteral { term: 1 })),
    ("name<a|b", None),
];

#[test]
fn texts_of_filters(rt: HostRuntime) {
    let schema = schema(&rt, rt.alloc());
    for (text, fault) in &TEXTS {
        expect_same(&rt, &fault_of(rt.alloc(), &schema, text), fault, text);
    }
}

// Parts that are repeated, with a separator between.
fn repeated(
    rt: &impl Abort,
    alloc: Global,
    front: &str,
    part: &str,
    separator: char,
    count: usize,
) -> String {
    let mut text = String::from_str(alloc, front).expect(rt, "memory");
    for i in 0..count {
        if i > 0 {
            text.push(separator).expect(rt, "memory");
        }
        text.push_str(part).expect(rt, "memory");
    }
    text
}

// What stands in front of a part, the part, its separator, how often it stands there, and why that is no filter.
type Counted = (&'static str, &'static str, char, usize, Option<FilterError>);

static COUNTS: [Counted; 6] = [
    ("", "k=1", '&', 64, None),
    ("", "k=1", '&', 65, Some(FilterError::BadForm { term: 65 })),
    ("", "k=1", '&', 70, Some(FilterError::BadForm { term: 65 })),
    ("k=", "1", '|', 64, None),
    ("k=", "1", '|', 65, Some(FilterError::BadForm { term: 1 })),
    ("name<", "1", '|', 65, None),
];

// Stops the test of a text with so many parts that is taken or refused otherwise.
fn expect_count(rt: &impl Abort, alloc: Global, schema: &Schema, case: &Counted) {
    let text = repeated(rt, alloc, case.0, case.1, case.2, case.3);
    expect_same(rt, &fault_of(alloc, schema, text.as_str()), &case.4, case);
}

#[test]
fn counts_of_terms_and_literals(rt: HostRuntime) {
    let schema = schema(&rt, rt.alloc());
    for case in &COUNTS {
        expect_count(&rt, rt.alloc(), &schema, case);
    }
}
