// Stores that are damaged: what is told of a journal and of a file, and what goes on beside a damaged block.
use crate::call::{Case, PLAIN};
use crate::cases::expect_cases;

const CUT_RECORD: &str = "0100000005010000000101000000050100";

const NO_KIND: &str = "0100000005000000000100";

const BYTE_BEHIND: &str = "01000000050100000001010000000601000000020700";

const NO_PARTS: &str = "0100000005090000000100";

// The journal of a table of an int key and a sum, with the row 1,5 in version 0 and nothing in version 1, and its
// file without the last byte.
const CUT_FILE: &str =
    "01000000050100000001010000000b02017401016b0001017600010000008109000000000001000000000000020000010000000000000000000000006f00000000000000010000000100088000000000000001000880000000000000010100000000000000000000000000000005c81c296f0f6edacf6039963d5def2a2dba052cfcdd802539023abf3c861cc73600010000000000000000000000000000000501000000070900000001000000\n\
     0000010000000000 0000018000000000000001000000000000000000000000000000058000000000000001000000000000000000000000000000000000001b3b67a19d6e109f5699455c7b879e2aac9c239bc564a294d734174daebe20ca94000000000000000000010000000101014d455341444c54";

// The same of the store as it was written when a sum had 64 bits.
const OLD_CUT_FILE: &str =
    "01000000050100000001010000000b02017401016b000101760001000000700500000000000100000000000000000100000000000000000000000067000000000000000100000001000880000000000000010008800000000000000101000000000000000560845b21d56050bcccbfbef5313b8190744ac8bbd75fad7200d951fe1268d3930001000000000000000501000000070500000001000000\n\
     0000010000000000 0000018000000000000001000000000000000580000000000000010000000000000000000000000000000000000013cb43fefe3754e6c6547db5d4ef40d734649323eb54dab57d202f18edb41a1efe000000000000000000010000000101014d455341444c54";

const NO_FILE: &str =
    "01000000050100000001010000000b02017401016b000101760001000000700500000000000100000000000000000100000000000000000000000067000000000000000100000001000880000000000000010008800000000000000101000000000000000560845b21d56050bcccbfbef5313b8190744ac8bbd75fad7200d951fe1268d3930001000000000000000501000000070500000001000000";

// The file has another last byte.
const OTHER_TAIL: &str =
    "01000000050100000001010000000b02017401016b000101760001000000700500000000000100000000000000000100000000000000000000000067000000000000000100000001000880000000000000010008800000000000000101000000000000000560845b21d56050bcccbfbef5313b8190744ac8bbd75fad7200d951fe1268d3930001000000000000000501000000070500000001000000\n\
     0000010000000000 0000018000000000000001000000000000000580000000000000010000000000000000000000000000000000000013cb43fefe3754e6c6547db5d4ef40d734649323eb54dab57d202f18edb41a1efe000000000000000000010000000101014d455341444c5430";

// The file of that store under this one's journal, and the other way round.
const OLD_FILE: &str =
    "01000000050100000001010000000b02017401016b0001017600010000008109000000000001000000000000020000010000000000000000000000006f00000000000000010000000100088000000000000001000880000000000000010100000000000000000000000000000005c81c296f0f6edacf6039963d5def2a2dba052cfcdd802539023abf3c861cc73600010000000000000000000000000000000501000000070900000001000000\n\
     0000010000000000 0000018000000000000001000000000000000580000000000000010000000000000000000000000000000000000013cb43fefe3754e6c6547db5d4ef40d734649323eb54dab57d202f18edb41a1efe000000000000000000010000000101014d455341444c5431";

const NEW_FILE: &str =
    "01000000050100000001010000000b02017401016b000101760001000000700500000000000100000000000000000100000000000000000000000067000000000000000100000001000880000000000000010008800000000000000101000000000000000560845b21d56050bcccbfbef5313b8190744ac8bbd75fad7200d951fe1268d3930001000000000000000501000000070500000001000000\n\
     0000010000000000 0000018000000000000001000000000000000000000000000000058000000000000001000000000000000000000000000000000000001b3b67a19d6e109f5699455c7b879e2aac9c239bc564a294d734174daebe20ca94000000000000000000010000000101014d455341444c5432";

// The reference has format 3.
const NO_FORMAT: &str =
    "01000000050100000001010000000b02017401016b0001017600010000008109000000000001000000000000030000010000000000000000000000006f00000000000000010000000100088000000000000001000880000000000000010100000000000000000000000000000005c81c296f0f6edacf6039963d5def2a2dba052cfcdd802539023abf3c861cc73600010000000000000000000000000000000501000000070900000001000000\n\
     0000010000000000 0000018000000000000001000000000000000000000000000000058000000000000001000000000000000000000000000000000000001b3b67a19d6e109f5699455c7b879e2aac9c239bc564a294d734174daebe20ca94000000000000000000010000000101014d455341444c5432";

// The absolute total of the batch is 2^127.
const PAST_THE_BOUND: &str =
    "01000000050100000001010000000b02017401016b0001017600010000008109000000000001000000000000020000010000000000000000000000006f00000000000000010000000100088000000000000001000880000000000000010100000000000000000000000000000005c81c296f0f6edacf6039963d5def2a2dba052cfcdd802539023abf3c861cc73600018000000000000000000000000000000001000000070900000001000000\n\
     0000010000000000 0000018000000000000001000000000000000000000000000000058000000000000001000000000000000000000000000000000000001b3b67a19d6e109f5699455c7b879e2aac9c239bc564a294d734174daebe20ca94000000000000000000010000000101014d455341444c5432";

// A damaged store is left as it is.
static CASES: [Case<'static>; 13] = [
    Case {
        name: "a record cut short behind a shut gate",
        store: "0100000005010000000102000000050100",
        left: Some("010000000501000000010100000005010000000200"),
        ..PLAIN
    },
    Case {
        name: "a record cut short",
        store: CUT_RECORD,
        status: 7,
        text: "mesa: damaged journal=0 at=10 want=length:21 found=length:17\n",
        left: Some(CUT_RECORD),
        ..PLAIN
    },
    Case {
        name: "a record of no kind",
        store: NO_KIND,
        script: b"table,t,k int,v sum\n",
        status: 7,
        text: "mesa: damaged journal=0 at=0 want=fits found=misfit:0\n",
        left: Some(NO_KIND),
        ..PLAIN
    },
    Case {
        name: "a batch without a count of parts",
        store: NO_PARTS,
        status: 7,
        text: "mesa: damaged journal=0 at=0 want=fits found=misfit:5\n",
        left: Some(NO_PARTS),
        ..PLAIN
    },
    Case {
        name: "a byte behind a run",
        store: BYTE_BEHIND,
        status: 7,
        text: "mesa: damaged journal=0 at=10 want=fits found=misfit:5\n",
        left: Some(BYTE_BEHIND),
        ..PLAIN
    },
    Case {
        name: "a file cut by one byte",
        store: CUT_FILE,
        script: b"query,t\n",
        status: 7,
        text: "mesa: damaged file=0000010000000000 place=0 want=length:111 found=length:110\n",
        left: Some(CUT_FILE),
        ..PLAIN
    },
    Case {
        name: "a file of the first format cut by one byte",
        store: OLD_CUT_FILE,
        script: b"query,t\n",
        status: 7,
        text: "mesa: damaged file=0000010000000000 place=0 want=length:103 found=length:102\n",
        left: Some(OLD_CUT_FILE),
        ..PLAIN
    },
    Case {
        name: "a file of the first format in the place of one of the second",
        store: OLD_FILE,
        status: 7,
        text: "mesa: damaged file=0000010000000000 place=0 want=length:111 found=length:103\n",
        left: Some(OLD_FILE),
        ..PLAIN
    },
    Case {
        name: "a file of the second format in the place of one of the first",
        store: NEW_FILE,
        status: 7,
        text: "mesa: damaged file=0000010000000000 place=0 want=length:103 found=length:111\n",
        left: Some(NEW_FILE),
        ..PLAIN
    },
    Case {
        name: "a format that is none",
        store: NO_FORMAT,
        status: 7,
        text: "mesa: damaged journal=0 at=26 want=fits found=misfit:13\n",
        left: Some(NO_FORMAT),
        ..PLAIN
    },
    Case {
        name: "a total that passes the bound",
        store: PAST_THE_BOUND,
        status: 7,
        text: "mesa: damaged journal=0 at=26 want=fits found=misfit:0\n",
        left: Some(PAST_THE_BOUND),
        ..PLAIN
    },
    Case {
        name: "no file",
        store: NO_FILE,
        script: b"query,t\n",
        status: 7,
        text: "mesa: damaged file=0000010000000000 place=0 want=length:103 found=absent\n",
        left: Some(NO_FILE),
        ..PLAIN
    },
    Case {
        name: "a file with another tail",
        store: OTHER_TAIL,
        script: b"query,t\n",
        status: 7,
        text: "mesa: damaged file=0000010000000000 place=19 want=sha256:60845b21d56050bcccbfbef5313b8190744ac8bbd75fad7200d951fe1268d393 found=sha256:2c14d4b34f0bf42032041ac20e4ae43955abce42bc56fa121faee8a1931851b2\n",
        left: Some(OTHER_TAIL),
        ..PLAIN
    },
];

#[test]
fn damage_that_an_opening_tells(rt: HostRuntime) {
    expect_cases(&rt, rt.alloc(), &CASES);
}

// The file's block has the value 6 in place of 5. An opening doesn't read it, and neither does a query whose
// filter leaves it out; what reads it is refused with both digests, and nothing else is.
const OTHER_BLOCK: &str =
    "01000000050100000001010000000b02017401016b000101760001000000700500000000000100000000000000000100000000000000000000000067000000000000000100000001000880000000000000010008800000000000000101000000000000000560845b21d56050bcccbfbef5313b8190744ac8bbd75fad7200d951fe1268d3930001000000000000000501000000070500000001000000\n\
     0000010000000000 0000018000000000000001000000000000000680000000000000010000000000000000000000000000000000000013cb43fefe3754e6c6547db5d4ef40d734649323eb54dab57d202f18edb41a1efe000000000000000000010000000101014d455341444c5431";

static CHANGED: [Case<'static>; 2] = [
    Case {
        name: "a changed block",
        store: OTHER_BLOCK,
        script: b"query,t\n\
     query,t,,k=2\n\
     row,t,2,9\n\
     commit\n\
     query,t,,k=2\n\
     expire,1\n\
     work,t\n\
     query,t,1\n",
        status: 1,
        text: "0.1@0 refused damaged file=0000010000000000 place=0 want=sha256:cb43fefe3754e6c6547db5d4ef40d734649323eb54dab57d202f18edb41a1efe found=sha256:5840990f2ebfdd9ba2a937e8bec1f974c68436754df59e0eb650b7106a9a6ccb\n\
     0.2@2 rows 0 version=1\n\
     0.3@5 loaded version=2 rows=1\n\
     0.4@6 rows 1 version=2\n\
     2,9\n\
     0.5@8 expired oldest=1\n\
     0.6@10 refused damaged file=0000010000000000 place=0 want=sha256:cb43fefe3754e6c6547db5d4ef40d734649323eb54dab57d202f18edb41a1efe found=sha256:5840990f2ebfdd9ba2a937e8bec1f974c68436754df59e0eb650b7106a9a6ccb\n\
     0.7@11 refused damaged file=0000010000000000 place=0 want=sha256:cb43fefe3754e6c6547db5d4ef40d734649323eb54dab57d202f18edb41a1efe found=sha256:5840990f2ebfdd9ba2a937e8bec1f974c68436754df59e0eb650b7106a9a6ccb\n",
        ..PLAIN
    },
    Case {
        name: "a changed block, and works in parts",
        store: OTHER_BLOCK,
        script: b"row,t,2,9\n\
         commit\n\
         expire,1\n\
         work,t,4\n\
         work,t,8\n",
        status: 1,
        text: "0.1@1 loaded version=2 rows=1\n\
         0.2@2 expired oldest=1\n\
         0.3@4 refused damaged file=0000010000000000 place=0 want=sha256:cb43fefe3754e6c6547db5d4ef40d734649323eb54dab57d202f18edb41a1efe found=sha256:5840990f2ebfdd9ba2a937e8bec1f974c68436754df59e0eb650b7106a9a6ccb\n\
         0.4@6 refused damaged file=0000010000000000 place=0 want=sha256:cb43fefe3754e6c6547db5d4ef40d734649323eb54dab57d202f18edb41a1efe found=sha256:5840990f2ebfdd9ba2a937e8bec1f974c68436754df59e0eb650b7106a9a6ccb\n",
        ..PLAIN
    },
];

#[test]
fn a_changed_block(rt: HostRuntime) {
    expect_cases(&rt, rt.alloc(), &CHANGED);
}

// Each file under a reference with its own length and digest, and of the other format. An opening compares the tail's digest
// alone, and what reads the file finds another magic at its end.
const OLD_AS_NEW: &str =
    "01000000050100000001010000000b02017401016b000101760001000000810900000000000100000000000002000001000000000000000000000000670000000000000001000000010008800000000000000100088000000000000001010000000000000000000000000000000560845b21d56050bcccbfbef5313b8190744ac8bbd75fad7200d951fe1268d39300010000000000000000000000000000000501000000070900000001000000\n\
     0000010000000000 0000018000000000000001000000000000000580000000000000010000000000000000000000000000000000000013cb43fefe3754e6c6547db5d4ef40d734649323eb54dab57d202f18edb41a1efe000000000000000000010000000101014d455341444c5431";

const NEW_AS_OLD: &str =
    "01000000050100000001010000000b02017401016b00010176000100000070050000000000010000000000000000010000000000000000000000006f0000000000000001000000010008800000000000000100088000000000000001010000000000000005c81c296f0f6edacf6039963d5def2a2dba052cfcdd802539023abf3c861cc7360001000000000000000501000000070500000001000000\n\
     0000010000000000 0000018000000000000001000000000000000000000000000000058000000000000001000000000000000000000000000000000000001b3b67a19d6e109f5699455c7b879e2aac9c239bc564a294d734174daebe20ca94000000000000000000010000000101014d455341444c5432";

const TWO_AS_ONE: &str =
    "01000000050100000001010000000b02017401016b0001017600010000008109000000000001000000000000010000010000000000000000000000006f00000000000000010000000100088000000000000001000880000000000000010100000000000000000000000000000005c81c296f0f6edacf6039963d5def2a2dba052cfcdd802539023abf3c861cc73600010000000000000000000000000000000501000000070900000001000000\n\
     0000010000000000 0000018000000000000001000000000000000000000000000000058000000000000001000000000000000000000000000000000000001b3b67a19d6e109f5699455c7b879e2aac9c239bc564a294d734174daebe20ca94000000000000000000010000000101014d455341444c5432";

// What a query tells of a file of format 2.
const OTHER_FORMAT: Case<'static> = Case {
    script: b"query,t\n",
    status: 1,
    text: "0.1@0 refused damaged file=0000010000000000 place=27 want=fits found=misfit:0\n",
    ..PLAIN
};

const UNSOUND: Case<'static> = Case {
    words: &["check"],
    status: 1,
    text: "unsound table=t range=[0,0] key=-\n",
    ..PLAIN
};

static OTHER_FORMATS: [Case<'static>; 6] = [
    Case {
        name: "a reference of the second format to a file of the first",
        store: OLD_AS_NEW,
        text: "0.1@0 refused damaged file=0000010000000000 place=19 want=fits found=misfit:0\n",
        ..OTHER_FORMAT
    },
    Case {
        name: "a reference of the first edition to a file of the second format",
        store: NEW_AS_OLD,
        ..OTHER_FORMAT
    },
    Case {
        name: "a reference of the first format to a file of the second",
        store: TWO_AS_ONE,
        ..OTHER_FORMAT
    },
    Case {
        name: "a check of a reference of the second format to a file of the first",
        store: OLD_AS_NEW,
        ..UNSOUND
    },
    Case {
        name: "a check of a reference of the first edition to a file of the second format",
        store: NEW_AS_OLD,
        ..UNSOUND
    },
    Case {
        name: "a check of a reference of the first format to a file of the second",
        store: TWO_AS_ONE,
        ..UNSOUND
    },
];

#[test]
fn files_of_another_format(rt: HostRuntime) {
    expect_cases(&rt, rt.alloc(), &OTHER_FORMATS);
}

// A sum with eight bytes in a file of format 2, and a least value with sixteen, which is 2^63. The tails and their digests
// are right, so a query that reads the block tells that it is none.
const NARROW_SUM: &str =
    "01000000050100000001010000000b02017401016b00010176000100000081090000000000010000000000000200000100000000000000000000000067000000000000000100000001000880000000000000010008800000000000000101000000000000000000000000000000050d91d687f6e51dcd0fc3df04349706799e091abdd3722e06e5c2935f6aaa835300010000000000000000000000000000000501000000070900000001000000\n\
     0000010000000000 0000018000000000000001000000000000000580000000000000010000000000000000000000000000000000000013cb43fefe3754e6c6547db5d4ef40d734649323eb54dab57d202f18edb41a1efe000000000000000000010000000101014d455341444c5432";

const WIDE_LEAST: &str =
    "01000000050100000001010000000b02017401016b0001017601010000007109000000000001000000000000020000010000000000000000000000006f000000000000000100000001000880000000000000010008800000000000000101000000000000000080000000000000003ade6ce97a1d03e018e8457b61a583bd3a07c2bb2c27b78202acfb488b597b92000001000000070900000001000000\n\
     0000010000000000 0000018000000000000001000000000000000080000000000000008000000000000001000000000000000000000000000000000000001bde57bf7a42006d6cdae86f1235fd2258ce76a4ce200bc7b11dd2627a5f90686b000100000000000000010000000101014d455341444c5432";

const MISFIT: Case<'static> = Case {
    script: b"query,t,,k=2\n\
     query,t\n\
     expire,1\n\
     work,t\n",
    status: 1,
    text: "0.1@0 rows 0 version=1\n\
     0.2@2 refused damaged file=0000010000000000 place=0 want=fits found=misfit:0\n\
     0.3@4 expired oldest=1\n\
     0.4@6 refused damaged file=0000010000000000 place=0 want=fits found=misfit:0\n",
    ..PLAIN
};

static MISFITS: [Case<'static>; 4] = [
    Case {
        name: "a sum of eight bytes",
        store: NARROW_SUM,
        ..MISFIT
    },
    Case {
        name: "a least value of sixteen bytes",
        store: WIDE_LEAST,
        ..MISFIT
    },
    Case {
        name: "a check of a sum of eight bytes",
        store: NARROW_SUM,
        ..UNSOUND
    },
    Case {
        name: "a check of a least value of sixteen bytes",
        store: WIDE_LEAST,
        ..UNSOUND
    },
];

#[test]
fn values_of_another_width(rt: HostRuntime) {
    expect_cases(&rt, rt.alloc(), &MISFITS);
}

// What a digest tells of damage: an opening's is told whatever the name is, and a block's where the relation's rows are read.
const DIGEST: Case<'static> = Case {
    words: &["digest", "t"],
    source_fails: &[0],
    status: 7,
    turns: Some(0),
    ..PLAIN
};

static DIGESTS: [Case<'static>; 6] = [
    Case {
        name: "a digest where a record is cut short",
        store: CUT_RECORD,
        text: "mesa: damaged journal=0 at=10 want=length:21 found=length:17\n",
        left: Some(CUT_RECORD),
        ..DIGEST
    },
    Case {
        name: "a digest of a file cut short",
        store: CUT_FILE,
        text: "mesa: damaged file=0000010000000000 place=0 want=length:111 found=length:110\n",
        left: Some(CUT_FILE),
        ..DIGEST
    },
    Case {
        name: "a digest of a changed block",
        store: OTHER_BLOCK,
        text: "mesa: damaged file=0000010000000000 place=0 want=sha256:cb43fefe3754e6c6547db5d4ef40d734649323eb54dab57d202f18edb41a1efe found=sha256:5840990f2ebfdd9ba2a937e8bec1f974c68436754df59e0eb650b7106a9a6ccb\n",
        left: Some(OTHER_BLOCK),
        ..DIGEST
    },
    Case {
        name: "a digest of a sum of eight bytes",
        store: NARROW_SUM,
        text: "mesa: damaged file=0000010000000000 place=0 want=fits found=misfit:0\n",
        left: Some(NARROW_SUM),
        ..DIGEST
    },
    Case {
        name: "a digest of no relation in a store with a damaged file",
        words: &["digest", "u"],
        store: CUT_FILE,
        text: "mesa: damaged file=0000010000000000 place=0 want=length:111 found=length:110\n",
        ..DIGEST
    },
    Case {
        name: "a digest of a file that can't be read",
        store: NARROW_SUM,
        read_fails: Some((0x100_0000_0000, 0)),
        status: 6,
        text: "mesa: disk fault\n",
        ..DIGEST
    },
];

#[test]
fn digests_of_damaged_stores(rt: HostRuntime) {
    expect_cases(&rt, rt.alloc(), &DIGESTS);
}
