// The words `digest NAME`: what is printed of a relation's rows at the newest version, and of names that no relation
// has.
use crate::call::{Case, PLAIN};
use crate::cases::{expect_cases, expect_in_turn};

// A digest reads no source, and takes no turn.
const DIGEST: Case<'static> = Case {
    source_fails: &[0],
    turns: Some(0),
    ..PLAIN
};

static EMPTY: [Case<'static>; 2] = [
    Case {
        name: "a version without rows",
        script: b"table,t,k int,v sum\ncommit\n",
        text: "0.1@0 table t\n0.2@2 loaded version=0 rows=0\n",
        ..PLAIN
    },
    Case {
        name: "an empty digest",
        words: &["digest", "t"],
        text: "digest t version=0 rows=0 ordered=e3b0c44298fc1c149afbf4c8996fb92427ae41e4649b934ca495991b7852b855 set=00000000000000000000000000000000\n",
        ..DIGEST
    },
];

// Where there is no version, a name that no relation has is told first.
static NO_VERSION: [Case<'static>; 3] = [
    Case {
        name: "a table without a version",
        script: b"table,t,k int,v sum\n",
        text: "0.1@0 table t\n",
        ..PLAIN
    },
    Case {
        name: "a digest where there is no version",
        words: &["digest", "t"],
        status: 1,
        text: "digest refused future asked=latest newest=none\n",
        ..DIGEST
    },
    Case {
        name: "a digest of no relation where there is no version",
        words: &["digest", "u"],
        status: 1,
        text: "digest refused no_table\n",
        ..DIGEST
    },
];

#[test]
fn digests_of_nothing(rt: HostRuntime) {
    expect_in_turn(&rt, rt.alloc(), &EMPTY);
    expect_in_turn(&rt, rt.alloc(), &NO_VERSION);
}

// The digests were computed apart from this program.
static ONE_ROW: [Case<'static>; 6] = [
    Case {
        name: "one row",
        script: b"table,t,k int,v sum\nrow,t,1,5\ncommit\ncommit\nquery,t\n",
        text: "0.1@0 table t\n\
         0.2@2 loaded version=0 rows=1\n\
         0.3@4 loaded version=1 rows=0\n\
         0.4@5 rows 1 version=1\n\
         1,5\n",
        ..PLAIN
    },
    Case {
        name: "a digest of one row",
        words: &["digest", "t"],
        text: "digest t version=1 rows=1 ordered=cf3ba3b5be9f956c0f92d3a542c187656c0f285f2ff39e72bb6f1e801b640b9c set=ff659108c3a608fb01a21988985fd7f6\n",
        ..DIGEST
    },
    Case {
        name: "a digest of no relation",
        words: &["digest", "u"],
        status: 1,
        text: "digest refused no_table\n",
        ..DIGEST
    },
    Case {
        name: "a digest of a name that no relation can have",
        words: &["digest", "No name!"],
        status: 1,
        text: "digest refused no_table\n",
        ..DIGEST
    },
    Case {
        name: "a digest of an empty name",
        words: &["digest", ""],
        status: 1,
        text: "digest refused no_table\n",
        ..DIGEST
    },
    Case {
        name: "a digest onto a sink that fails",
        words: &["digest", "t"],
        sink_fails: &[0],
        status: 5,
        ..DIGEST
    },
];

#[test]
fn digests_of_one_row(rt: HostRuntime) {
    expect_in_turn(&rt, rt.alloc(), &ONE_ROW);
}

// A view of all columns in another order has its table's set digest. A key and a value have one name.
static ORDERS: [Case<'static>; 3] = [
    Case {
        name: "a table and a further order of it",
        script: b"table,t,k int;c text,v sum;k min\n\
         view,w,t,c;k,k;v\n\
         row,t,1,UK,5,-3\n\
         row,t,1,US,3,2\n\
         commit\n\
         row,t,1,US,4,8\n\
         row,t,-2,UK,0,9\n\
         commit\n",
        text: "0.1@0 table t\n\
         0.2@1 view w\n\
         0.3@3 loaded version=0 rows=2\n\
         0.4@5 loaded version=1 rows=2\n",
        ..PLAIN
    },
    Case {
        name: "a digest of the table",
        words: &["digest", "t"],
        text: "digest t version=1 rows=3 ordered=566f97c722552494248f3ac9b91a79e9458ce089529c25376eaddf5c32c0dd49 set=fd15de66332157a644b51fb3490ecd13\n",
        ..DIGEST
    },
    Case {
        name: "a digest of the further order",
        words: &["digest", "w"],
        text: "digest w version=1 rows=3 ordered=de4980f9dbda38bc05c4ec0767b83e8d29f3a83ad915824c479b405fad55042c set=fd15de66332157a644b51fb3490ecd13\n",
        ..DIGEST
    },
];

// A table and a view that turns its columns, whose plans a filter chooses between.
static CHOSEN: [Case<'static>; 3] = [
    Case {
        name: "two orders of the same columns",
        script: b"table,t,a int;b int,v sum\n\
         view,w,t,b;a,v\n\
         row,t,1,1,5\n\
         row,t,1,2,6\n\
         commit\n",
        text: "0.1@0 table t\n\
         0.2@1 view w\n\
         0.3@3 loaded version=0 rows=2\n",
        ..PLAIN
    },
    Case {
        name: "a digest of the one order",
        words: &["digest", "t"],
        text: "digest t version=0 rows=2 ordered=3b07fe535f39e8264fa353c2cf8bfa96fdc2f7ee938e603993bf90cf6043f3d7 set=3ec319acf9e66d7a1f28879c997f930c\n",
        ..DIGEST
    },
    Case {
        name: "a digest of the other order",
        words: &["digest", "w"],
        text: "digest w version=0 rows=2 ordered=5588a1a79748d10d171ad29ee75867fe7df42aa057f9a6d568ecf747da59d432 set=3ec319acf9e66d7a1f28879c997f930c\n",
        ..DIGEST
    },
];

#[test]
fn digests_of_orders(rt: HostRuntime) {
    expect_in_turn(&rt, rt.alloc(), &ORDERS);
    expect_in_turn(&rt, rt.alloc(), &CHOSEN);
}

// An empty store has no relation.
static EMPTY_STORE: [Case<'static>; 1] = [Case {
    name: "a digest over an empty store",
    words: &["digest", "t"],
    status: 1,
    text: "digest refused no_table\n",
    left: Some(""),
    ..DIGEST
}];

#[test]
fn digests_of_no_store(rt: HostRuntime) {
    expect_cases(&rt, rt.alloc(), &EMPTY_STORE);
}
