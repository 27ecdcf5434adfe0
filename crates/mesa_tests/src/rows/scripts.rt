// Scripts that are refused: nothing of them is run.
use crate::call::{Case, PLAIN};
use crate::cases::expect_cases;

const REFUSED: Case<'static> = Case {
    name: "a bad script",
    status: 3,
    turns: Some(0),
    left: Some(""),
    ..PLAIN
};

static BAD: [Case<'static>; 22] = [
    Case {
        script: b"tabel,t\n",
        text: "mesa: script place=1 reason=unknown\n",
        ..REFUSED
    },
    Case {
        script: b"tabel,t\npin,x,y\n",
        text: "mesa: script place=1 reason=unknown\n",
        ..REFUSED
    },
    Case {
        script: b"commit\ncommit,t\n",
        text: "mesa: script place=2 reason=fields\n",
        ..REFUSED
    },
    Case {
        script: b"row\n",
        text: "mesa: script place=1 reason=fields\n",
        ..REFUSED
    },
    Case {
        script: b"alter,t,add_value,m min\n",
        text: "mesa: script place=1 reason=fields\n",
        ..REFUSED
    },
    Case {
        script: b"row,t,1\nquery,t\n",
        text: "mesa: script place=2 reason=order\n",
        ..REFUSED
    },
    // Where only the last commit is missing, the place is the one after the last record.
    Case {
        script: b"row,t,1\nrow,t,2",
        text: "mesa: script place=3 reason=order\n",
        ..REFUSED
    },
    Case {
        script: b"row,t,1",
        text: "mesa: script place=2 reason=order\n",
        ..REFUSED
    },
    Case {
        script: b"table,t,k int,v sum\nlease,5\n",
        text: "mesa: script place=2 reason=order\n",
        ..REFUSED
    },
    Case {
        script: b"table,t,k integer,v sum\n",
        text: "mesa: script place=1 reason=word\n",
        ..REFUSED
    },
    Case {
        script: b"alter,t,swap_value,m min,7\n",
        text: "mesa: script place=1 reason=word\n",
        ..REFUSED
    },
    Case {
        script: b"query,t,x\n",
        text: "mesa: script place=1 reason=word\n",
        ..REFUSED
    },
    Case {
        script: b"query,t,pin:\n",
        text: "mesa: script place=1 reason=word\n",
        ..REFUSED
    },
    Case {
        script: b"pin,pin:1\n",
        text: "mesa: script place=1 reason=word\n",
        ..REFUSED
    },
    Case {
        script: b"commit\nexpire,one\n",
        text: "mesa: script place=2 reason=number\n",
        ..REFUSED
    },
    Case {
        script: b"expire,t,0\nexpire,t,0,0\n",
        text: "mesa: script place=2 reason=fields\n",
        ..REFUSED
    },
    Case {
        script: b"expire,t,\n",
        text: "mesa: script place=1 reason=number\n",
        ..REFUSED
    },
    Case {
        script: b"expire,0,t\n",
        text: "mesa: script place=1 reason=number\n",
        ..REFUSED
    },
    Case {
        script: b"lease,0\n",
        text: "mesa: script place=1 reason=number\n",
        ..REFUSED
    },
    Case {
        script: b"query,t,99999999999\n",
        text: "mesa: script place=1 reason=number\n",
        ..REFUSED
    },
    Case {
        script: b"query,t,0,,,,0\n",
        text: "mesa: script place=1 reason=number\n",
        ..REFUSED
    },
    Case {
        script: b"session\nsession\nsession\nsession\nsession\nsession\nsession\nsession\n",
        text: "mesa: script place=8 reason=sessions\n",
        ..REFUSED
    },
];

#[test]
fn bad_records(rt: HostRuntime) {
    expect_cases(&rt, rt.alloc(), &BAD);
}
