// Records as spreadsheets and other programs write them.
use crate::call::{Case, PLAIN};
use crate::cases::expect_cases;

static CASES: [Case<'static>; 2] = [
    // A byte order mark, lines that end with a carriage return, blank lines, quotes and doubled quotes.
    Case {
        name: "quotes and line ends",
        script: b"\xef\xbb\xbf\"table\",t,k text,v sum\r\n\r\n\
         row,t,\"a,\"\"b\"\"\",5\r\n\
         row,t,\"two\nlines\",\"6\"\r\n\
         commit\r\n\r\n\
         query,t",
        text: "0.1@0 table t\n\
         0.2@2 loaded version=0 rows=2\n\
         0.3@3 rows 2 version=0\n\
         \"a,\"\"b\"\"\",5\n\
         \"two\nlines\",6\n",
        ..PLAIN
    },
    Case {
        name: "no utf8",
        script: b"table,t,k text,v sum\n\
         row,t,\xff,5\n\
         commit\n\
         query,\xff\n\
         query,t\n",
        status: 1,
        text: "0.1@0 table t\n\
         0.2@2 refused bad_row row=1 column=1\n\
         0.3@3 refused no_table\n\
         0.4@4 refused future asked=latest newest=none\n",
        ..PLAIN
    },
];

#[test]
fn quotes_line_ends_and_bytes(rt: HostRuntime) {
    expect_cases(&rt, rt.alloc(), &CASES);
}
