// What `check` answers of stores: as runs leave them, and with bytes changed and their digests, references and totals
// mended or not.
use crate::call::{Case, PLAIN, call_over, run};
use crate::cases::{expect_over, expect_store, expect_text};
use crate::expected::expect_same;
use crate::stores::shown::{shown, spelled};
use std::alloc::Global;
use std::process::Abort;
use std::sync::Wait;
use std::thread::Threads;

// The source fails in every call: a check asks it for nothing.
static CHECK: Case<'static> = Case {
    words: &["check"],
    source_fails: &[0],
    ..PLAIN
};

/// A store, and what a check of it prints.
struct Changed {
    name: &'static str,
    /// The run that leaves it.
    script: &'static str,
    /// Digits of it that are changed, and what is put in their place.
    changes: &'static [(&'static str, &'static str)],
    status: u8,
    text: &'static str,
}

// The file of the row 1,5 has one block, of 27 bytes.
const ONE_ROW: &str = "table,t,k int,v sum\n\
     row,t,1,5\n\
     commit\n\
     commit\n";

// The value of the row is 6, and the tail has the block's digest.
const SIX: (&str, &str) = (
    "000001800000000000000100000000000000000000000000000005",
    "000001800000000000000100000000000000000000000000000006",
);

const SIX_DIGEST: (&str, &str) = (
    "3b67a19d6e109f5699455c7b879e2aac9c239bc564a294d734174daebe20ca94",
    "7cd25b952bdbc6c3af3a1e911dad62e58114fdd0817c2f904ea83d3abf26cf32",
);

// Versions 0 and 1 have rows, versions 2 to 9 none; a cumulative of all is the rows 1,5 and 2,8.
const TEN_VERSIONS: &str = "table,t,k int,v sum\n\
     row,t,1,5\n\
     row,t,2,7\n\
     commit\n\
     row,t,2,1\n\
     commit\n\
     commit\n\
     commit\n\
     commit\n\
     commit\n\
     commit\n\
     commit\n\
     commit\n\
     commit\n\
     work,t\n";

// Versions 0, 1 and 10 have rows, the others to 19 none; one cumulative of versions 0 to 9 is the rows 1,5 and 2,8, and
// one of versions 0 to 19 these and 3,4.
const TWENTY_VERSIONS: &str = "table,t,k int,v sum\n\
     row,t,1,5\n\
     row,t,2,7\n\
     commit\n\
     row,t,2,1\n\
     commit\n\
     commit\n\
     commit\n\
     commit\n\
     commit\n\
     commit\n\
     commit\n\
     commit\n\
     commit\n\
     row,t,3,4\n\
     commit\n\
     commit\n\
     commit\n\
     commit\n\
     commit\n\
     commit\n\
     commit\n\
     commit\n\
     commit\n\
     commit\n\
     work,t\n\
     work,t\n";

// The row 2,8 of the first cumulative is 2,9, in the block, its digest, and the reference's sum and digest.
const FIRST_CUMULATIVE: [(&str, &str); 3] = [
    (
        "000002800000000000000180000000000000020000000000000000000000000000000500000000000000000000000000000008",
        "000002800000000000000180000000000000020000000000000000000000000000000500000000000000000000000000000009",
    ),
    (
        "a3f0d0735c3643741d470236e58af4f3172251ddbd4988c35121004f7ef0114a",
        "bc2713e8ae59fed2726d0b89093d84cb6684ea0e54183c39d28b8b9a0512b625",
    ),
    (
        "000000000000000d009ebe3d98cccb430f1c7c02671a8e1ccbe12fde6044537c62038d7c205aace0",
        "000000000000000e10fc2416eeec17d348bb12acf99672f9501b10069c23211ea05e6c75ce2fae19",
    ),
];

static CASES: [Changed; 20] = [
    Changed {
        name: "an empty store",
        script: "",
        changes: &[],
        status: 0,
        text: "sound\n",
    },
    Changed {
        name: "one row",
        script: ONE_ROW,
        changes: &[],
        status: 0,
        text: "sound\n",
    },
    Changed {
        name: "a block whose last byte is changed",
        script: ONE_ROW,
        changes: &[SIX],
        status: 1,
        text: "unsound table=t range=[0,0] key=-\n",
    },
    // The file is another one of the same grammar: the reference's digest is the tail's, the sum the old one's.
    Changed {
        name: "a reference with another sum",
        script: ONE_ROW,
        changes: &[
            SIX,
            SIX_DIGEST,
            (
                "c81c296f0f6edacf6039963d5def2a2dba052cfcdd802539023abf3c861cc736",
                "1fb97d36f8f5158936330a5cf401fc64abea0614bddb86b42ea91a56f510b4c0",
            ),
        ],
        status: 1,
        text: "unsound table=t range=[0,0] key=-\n",
    },
    // The reference has sum and digest of the file, but the version's totals are the old row's.
    Changed {
        name: "a version with another total",
        script: ONE_ROW,
        changes: &[
            SIX,
            SIX_DIGEST,
            (
                "0000000000000005c81c296f0f6edacf6039963d5def2a2dba052cfcdd802539023abf3c861cc736",
                "00000000000000061fb97d36f8f5158936330a5cf401fc64abea0614bddb86b42ea91a56f510b4c0",
            ),
        ],
        status: 1,
        text: "unsound table=t range=[0,0] key=-\n",
    },
    Changed {
        name: "a version with the greatest total",
        script: ONE_ROW,
        changes: &[(
            "c81c296f0f6edacf6039963d5def2a2dba052cfcdd802539023abf3c861cc736000100000000000000000000000000000005",
            "c81c296f0f6edacf6039963d5def2a2dba052cfcdd802539023abf3c861cc73600017fffffffffffffffffffffffffffffff",
        )],
        status: 1,
        text: "unsound table=t range=[0,0] key=-\n",
    },
    // The reference's least value is 2^64 and 5, which no value of such a column is.
    Changed {
        name: "a reference with a least value of more than 64 bits",
        script: "table,t,k int,v min\n\
         row,t,1,5\n\
         commit\n",
        changes: &[(
            "80000000000000010100000000000000000000000000000005",
            "80000000000000010100000000000000010000000000000005",
        )],
        status: 1,
        text: "unsound table=t range=[0,0] key=-\n",
    },
    // With the totals too it is the store of the row 1,6.
    Changed {
        name: "another row throughout",
        script: ONE_ROW,
        changes: &[
            SIX,
            SIX_DIGEST,
            (
                "0000000000000005c81c296f0f6edacf6039963d5def2a2dba052cfcdd802539023abf3c861cc736000100000000000000000000000000000005",
                "00000000000000061fb97d36f8f5158936330a5cf401fc64abea0614bddb86b42ea91a56f510b4c0000100000000000000000000000000000006",
            ),
        ],
        status: 0,
        text: "sound\n",
    },
    // Both values are the greatest of 128 bits. Their sum has 129, and the reference what is left of it in 128.
    Changed {
        name: "a file whose sum has more than 128 bits",
        script: "table,t,k int,v sum\n\
         row,t,1,5\n\
         row,t,2,7\n\
         commit\n",
        changes: &[
            (
                "000002800000000000000180000000000000020000000000000000000000000000000500000000000000000000000000000007",
                "000002800000000000000180000000000000027fffffffffffffffffffffffffffffff7fffffffffffffffffffffffffffffff",
            ),
            (
                "553e9955d5b5b69fb1ba78388c23902691d565247931fd96449516d5412d6af4",
                "7a5ef7115fcf7761b9979512d5fe0b6cb77fd1c9355c180a0032b11f9a2fb8a2",
            ),
            (
                "0000000000000000000000000000000c5cfe10ba0f27c2f632dd449b66e1f82e917fdfb4a1684859aef060443a1f21c9",
                "fffffffffffffffffffffffffffffffef1fee74b8d475ec400fe5a20fc3bfccc5554bb9fc5857c9780509ffb9ef59fd3",
            ),
        ],
        status: 1,
        text: "unsound table=t range=[0,0] key=-\n",
    },
    // A third value is the least but one, so the sum comes back, and the reference is true. The totals are the old rows'.
    Changed {
        name: "a file whose sum has more than 128 bits on the way",
        script: "table,t,k int,v sum\n\
         row,t,1,5\n\
         row,t,2,7\n\
         row,t,3,1\n\
         commit\n",
        changes: &[
            (
                "000003800000000000000180000000000000028000000000000003000000000000000000000000000000050000000000000000000000000000000700000000000000000000000000000001",
                "0000038000000000000001800000000000000280000000000000037fffffffffffffffffffffffffffffff7fffffffffffffffffffffffffffffff80000000000000000000000000000001",
            ),
            (
                "d677de6f94dcf3ceba71032e459c34d764bcaaf2b99110a17b1be280e9ddfe93",
                "c6fd5b2984f87a1c910defef41cda66fa68ee526249a751f875208bdde848771",
            ),
            (
                "0000000000000000000000000000000d2bea9a0b0bfad755a54749c4e5c28123c60cffbba2d85a1ba1229da1e834dcc8",
                "7ffffffffffffffffffffffffffffffffc315ab6c6c385a463810cd46c2d4ddcb6647b240d92179115ae5f8fdd9d42f3",
            ),
        ],
        status: 1,
        text: "unsound table=t range=[0,0] key=-\n",
    },
    Changed {
        name: "a cumulative with one value changed",
        script: TEN_VERSIONS,
        changes: &FIRST_CUMULATIVE,
        status: 1,
        text: "unsound table=t range=[0,9] key=8000000000000002\n",
    },
    // The second cumulative has what the versions brought, and the first hasn't.
    Changed {
        name: "the first of two cumulatives with one value changed",
        script: TWENTY_VERSIONS,
        changes: &FIRST_CUMULATIVE,
        status: 1,
        text: "unsound table=t range=[0,9] key=8000000000000002\n",
    },
    // Of the second the row 2,8 is 2,9, which version 10 and those behind it don't have.
    Changed {
        name: "the second of two cumulatives with a value changed that is of the first",
        script: TWENTY_VERSIONS,
        changes: &[
            (
                "000003800000000000000180000000000000028000000000000003000000000000000000000000000000050000000000000000000000000000000800000000000000000000000000000004",
                "000003800000000000000180000000000000028000000000000003000000000000000000000000000000050000000000000000000000000000000900000000000000000000000000000004",
            ),
            (
                "a54229013bcc6372f0ac104370b993ae9527bb5da32c96f490212fd0d220befd",
                "44b1d1aa66eaa255128d414d50f8b9c9585656176bfd7d2c357cfea50467a256",
            ),
            (
                "0000000000000011b27fe47a9fa80a90f8ff6ffcb9f083de7e6019ab345a7212bd04011019040bd2",
                "00000000000000126501187206a99489ddaeda2b1cc227a73d0d64536eaf1df321298b11fbcb865e",
            ),
        ],
        status: 1,
        text: "unsound table=t range=[0,19] key=8000000000000002\n",
    },
    // And of the second the row 3,4 is 3,6, which the first doesn't have.
    Changed {
        name: "the second of two cumulatives with a value changed that came since the first",
        script: TWENTY_VERSIONS,
        changes: &[
            (
                "000003800000000000000180000000000000028000000000000003000000000000000000000000000000050000000000000000000000000000000800000000000000000000000000000004",
                "000003800000000000000180000000000000028000000000000003000000000000000000000000000000050000000000000000000000000000000800000000000000000000000000000006",
            ),
            (
                "a54229013bcc6372f0ac104370b993ae9527bb5da32c96f490212fd0d220befd",
                "ecb77e68e7771ff36c33624a3d3209ad162ee878e4854356e46e05761c5ae34d",
            ),
            (
                "0000000000000011b27fe47a9fa80a90f8ff6ffcb9f083de7e6019ab345a7212bd04011019040bd2",
                "000000000000001329550e0829acd45db0b7ddbcbcaa6819074b94c84272fcf4c117cb970fb574b5",
            ),
        ],
        status: 1,
        text: "unsound table=t range=[0,19] key=8000000000000003\n",
    },
    // The view's rows are 1,5 and 2,7; the file that takes the place of theirs has the first alone, and so has the
    // reference.
    Changed {
        name: "a view's file with a row less",
        script: "table,t,a int;b int,v sum\n\
         view,w,t,a,v\n\
         row,t,1,1,5\n\
         row,t,2,1,7\n\
         commit\n",
        changes: &[
            (
                "00000280000000000000018000000000000002000000000000000000000000000000050000000000000000000000000000000780000000000000010000000000000000000000000000000000000033553e9955d5b5b69fb1ba78388c23902691d565247931fd96449516d5412d6af4000000000000000000020000000101014d455341444c5432",
                "0000018000000000000001000000000000000000000000000000058000000000000001000000000000000000000000000000000000001b3b67a19d6e109f5699455c7b879e2aac9c239bc564a294d734174daebe20ca94000000000000000000010000000101014d455341444c5432",
            ),
            (
                "000001000000000100000000000000870000000000000002000000010008800000000000000100088000000000000002010000000000000000000000000000000c5cfe10ba0f27c2f632dd449b66e1f82e917fdfb4a1684859aef060443a1f21c9",
                "0000010000000001000000000000006f00000000000000010000000100088000000000000001000880000000000000010100000000000000000000000000000005c81c296f0f6edacf6039963d5def2a2dba052cfcdd802539023abf3c861cc736",
            ),
        ],
        status: 1,
        text: "unsound table=t range=[0,0] key=8000000000000002\n",
    },
    // The base has the row 1,11, and the totals of the versions that it took the place of are 4 and 6.
    Changed {
        name: "totals that a base exceeds",
        script: "table,t,k int,v sum\n\
         row,t,1,5\n\
         commit\n\
         row,t,1,6\n\
         commit\n\
         expire,1\n\
         work,t\n",
        changes: &[(
            "c81c296f0f6edacf6039963d5def2a2dba052cfcdd802539023abf3c861cc736000100000000000000000000000000000005",
            "c81c296f0f6edacf6039963d5def2a2dba052cfcdd802539023abf3c861cc736000100000000000000000000000000000004",
        )],
        status: 1,
        text: "unsound table=t range=[0,1] key=-\n",
    },
    // Two changed blocks: the first table's is told, though it is of a later version.
    Changed {
        name: "the first of two tables' faults",
        script: "table,t,k int,v sum\n\
         table,u,k int,v sum\n\
         row,u,1,5\n\
         commit\n\
         row,t,1,8\n\
         commit\n",
        changes: &[
            SIX,
            (
                "000001800000000000000100000000000000000000000000000008",
                "000001800000000000000100000000000000000000000000000009",
            ),
        ],
        status: 1,
        text: "unsound table=t range=[1,1] key=-\n",
    },
    // A cumulative isn't compared with singletons that aren't the recorded ones: of this one it is told itself.
    Changed {
        name: "a changed version of a cumulative",
        script: TEN_VERSIONS,
        changes: &[(
            "000001800000000000000200000000000000000000000000000001",
            "000001800000000000000200000000000000000000000000000003",
        )],
        status: 1,
        text: "unsound table=t range=[1,1] key=-\n",
    },
    // Sums of more than 64 bits in versions, in a view, in a cumulative and in a base, up to the bound.
    Changed {
        name: "a store of wide sums",
        script: "table,t,a int;b int,v sum;m min\n\
         view,w,t,a,v\n\
         row,t,1,1,9223372036854775807,9223372036854775807\n\
         row,t,1,2,9223372036854775807,-9223372036854775808\n\
         commit\n\
         row,t,1,1,-100000000000000000000000000000000000000,5\n\
         row,t,2,1,-70141183460469231713240559642174554113,6\n\
         commit\n\
         commit\n\
         commit\n\
         commit\n\
         commit\n\
         commit\n\
         commit\n\
         commit\n\
         commit\n\
         work,t\n\
         expire,1\n\
         work,t\n",
        changes: &[],
        status: 0,
        text: "sound\n",
    },
    // Two tables with bases, cumulatives and a view that is made later, columns that come and go, and sums below 0.
    Changed {
        name: "a store of all kinds",
        script: "table,t,a int;b int,v sum;h max\n\
         table,u,k text,r replace\n\
         row,t,1,1,5,1\n\
         row,t,1,2,-7,2\n\
         row,u,x,3\n\
         commit\n\
         view,w,t,a,v\n\
         row,t,1,1,-2,9\n\
         row,t,2,1,4,0\n\
         commit\n\
         expire,1\n\
         work,t\n\
         alter,t,add_value,m min,7\n\
         alter,t,add_key,c text,US\n\
         alter,u,add_value,s sum,0\n\
         row,t,1,1,UK,-1,1,1\n\
         row,u,x,5,-2\n\
         row,u,y,1,4\n\
         commit\n\
         alter,t,drop_value,h\n\
         row,t,1,1,UK,3,8\n\
         commit\n\
         commit\n\
         commit\n\
         commit\n\
         commit\n\
         commit\n\
         commit\n\
         commit\n\
         commit\n\
         work,t\n\
         work,u\n\
         work,u\n\
         row,t,1,1,UK,3,8\n\
         commit\n",
        changes: &[],
        status: 0,
        text: "sound\n",
    },
];

// A text with some digits of it changed.
fn with_change(rt: &impl Abort, alloc: Global, text: &str, change: &(&str, &str)) -> String {
    let (before, behind) = text.split_once(change.0).expect(rt, "these digits");
    format!(in alloc; "{before}{}{behind}", change.1).expect(rt, "memory")
}

// What a run leaves, with all changes.
fn changed_store<R: Abort + Threads + Wait + Sync>(
    rt: &R,
    alloc: Global,
    case: &Changed,
) -> String {
    let mut left = run(rt, alloc, case.script);
    expect_same(rt, &left.status, &0, &case.name);
    let mut text = shown(rt, alloc, &mut left.disk);
    for change in case.changes {
        text = with_change(rt, alloc, text.as_str(), change);
    }
    text
}

// Stops the test where a check prints something else or changes the store.
fn expect_verdict<R: Abort + Threads + Wait + Sync>(rt: &R, alloc: Global, case: &Changed) {
    let store = changed_store(rt, alloc, case);
    let disk = spelled(rt, alloc, store.as_str(), &[]);
    let mut left = call_over(rt, alloc, disk, &CHECK);
    expect_text(rt, case.name, &left, case.status, case.text);
    expect_store(rt, alloc, &mut left.disk, store.as_str(), case.name);
}

#[test]
fn verdicts(rt: HostRuntime) {
    for case in &CASES {
        expect_verdict(&rt, rt.alloc(), case);
    }
}

static FAULT: Case<'static> = Case {
    name: "a check of which a call of the disk fails",
    words: &["check"],
    status: 6,
    text: "mesa: disk fault\n",
    turns: Some(0),
    ..PLAIN
};

// A call of the disk that fails in a check.
fn expect_fault<R: Abort + Threads + Wait + Sync>(rt: &R, alloc: Global, store: &str, call: u64) {
    let disk = spelled(rt, alloc, store, &[call]);
    let mut disk = expect_over(rt, alloc, disk, &FAULT);
    expect_store(rt, alloc, &mut disk, store, FAULT.name);
}

// An opening reads the journal and each of three files; a check opens each of them once more at least.
#[test]
fn calls_of_a_check_failing(rt: HostRuntime) {
    let mut left = run(&rt, rt.alloc(), TEN_VERSIONS);
    let store = shown(&rt, rt.alloc(), &mut left.disk);
    for call in 0..7u64 {
        expect_fault(&rt, rt.alloc(), store.as_str(), call);
    }
}
