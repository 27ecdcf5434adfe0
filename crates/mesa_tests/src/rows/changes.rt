// Changes of schemas.
use crate::call::{Case, PLAIN};
use crate::cases::expect_cases;

static CASES: [Case<'static>; 4] = [
    Case {
        name: "pin outlives change",
        script: b"table,t,k int,v sum;w max\n\
         row,t,1,5,8\n\
         commit\n\
         row,t,1,6,3\n\
         commit\n\
         pin,0\n\
         row,t,2,1,1\n\
         commit\n\
         expire,2\n\
         work,t\n\
         alter,t,drop_value,w\n\
         query,t,pin:1\n\
         query,t\n\
         release,1\n\
         query,t,pin:1\n",
        status: 1,
        turns: Some(19),
        text: "0.1@0 table t\n\
         0.2@2 loaded version=0 rows=1\n\
         0.3@4 loaded version=1 rows=1\n\
         0.4@5 pinned token=1 version=0\n\
         0.5@7 loaded version=2 rows=1\n\
         0.6@8 expired oldest=2\n\
         0.7@11 swapped 0 2\n\
         0.8@12 altered t epoch=1\n\
         0.9@13 rows 1 version=0\n\
         1,5,8\n\
         0.10@15 rows 2 version=2\n\
         1,11\n\
         2,1\n\
         0.11@17 released token=1\n\
         0.12@18 refused no_pin token=1\n",
        ..PLAIN
    },
    Case {
        name: "added values",
        script: b"table,t,k int,v sum\n\
         row,t,1,5\n\
         commit\n\
         row,t,1,6\n\
         commit\n\
         row,t,1,-4\n\
         commit\n\
         alter,t,add_value,m min,7\n\
         alter,t,add_value,s sum,7\n\
         alter,t,add_value,s sum,0\n\
         query,t\n\
         row,t,1,0,9,2\n\
         commit\n\
         query,t\n\
         row,t,1,0,3,0\n\
         commit\n\
         query,t\n",
        status: 1,
        turns: Some(20),
        text: "0.1@0 table t\n\
         0.2@2 loaded version=0 rows=1\n\
         0.3@4 loaded version=1 rows=1\n\
         0.4@6 loaded version=2 rows=1\n\
         0.5@7 altered t epoch=1\n\
         0.6@8 refused bad_default column=s\n\
         0.7@9 altered t epoch=2\n\
         0.8@10 rows 1 version=2\n\
         1,7,7,0\n\
         0.9@13 loaded version=3 rows=1\n\
         0.10@14 rows 1 version=3\n\
         1,7,7,2\n\
         0.11@17 loaded version=4 rows=1\n\
         0.12@18 rows 1 version=4\n\
         1,7,3,2\n",
        ..PLAIN
    },
    // The last query's row lies in a file that has no column c.
    Case {
        name: "added key",
        script: b"table,t,k int,v sum\n\
         row,t,1,5\n\
         commit\n\
         alter,t,add_key,c text,US\n\
         row,t,1,UK,3\n\
         commit\n\
         query,t\n\
         view,w,t,c,v\n\
         query,w\n\
         query,t,,c=US\n",
        status: 0,
        turns: Some(13),
        text: "0.1@0 table t\n\
         0.2@2 loaded version=0 rows=1\n\
         0.3@3 altered t epoch=1\n\
         0.4@5 loaded version=1 rows=1\n\
         0.5@6 rows 2 version=1\n\
         1,UK,3\n\
         1,US,5\n\
         0.6@8 view w\n\
         0.7@9 rows 2 version=1\n\
         UK,3\n\
         US,5\n\
         0.8@11 rows 1 version=1\n\
         1,US,5\n",
        ..PLAIN
    },
    Case {
        name: "views guard columns",
        script: b"table,t,k int;c text,v sum;r replace\n\
         view,w,t,c,v\n\
         view,x,t,c,r\n\
         view,t,t,c,v\n\
         alter,t,drop_value,v\n\
         alter,t,drop_value,z\n\
         query,t,,,c\n",
        status: 1,
        turns: Some(7),
        text: "0.1@0 table t\n\
         0.2@1 view w\n\
         0.3@2 refused replace_group column=r\n\
         0.4@3 refused table_exists\n\
         0.5@4 refused in_view view=w\n\
         0.6@5 refused no_column\n\
         0.7@6 refused replace_group column=r\n",
        ..PLAIN
    },
];

#[test]
fn changes_of_schemas(rt: HostRuntime) {
    expect_cases(&rt, rt.alloc(), &CASES);
}
