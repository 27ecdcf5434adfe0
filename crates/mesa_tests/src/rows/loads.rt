// Scripts of tables, views, loads, queries and expiries.
use crate::call::{Case, PLAIN};
use crate::cases::expect_cases;

static CASES: [Case<'static>; 14] = [
    Case {
        name: "sales and view",
        script: b"table,a,day int;pub int;country text,clicks sum;cost sum\n\
         table,b,day int;adv int;country text,clicks sum;cost sum\n\
         view,c,b,adv;country,clicks;cost\n\
         row,a,20131231,100,US,10,32\n\
         row,a,20140101,100,US,40,20\n\
         row,b,20131231,1,US,10,32\n\
         row,b,20140101,2,US,40,20\n\
         commit\n\
         row,a,20140101,100,US,150,80\n\
         row,a,20140101,200,UK,40,20\n\
         row,b,20140101,2,US,150,80\n\
         row,b,20140101,2,UK,40,20\n\
         commit\n\
         query,a,0\n\
         query,a\n\
         query,c,latest\n\
         query,a,1,pub=100&day>=20140101,country,clicks\n",
        status: 0,
        turns: Some(15),
        text: "0.1@0 table a\n\
         0.2@1 table b\n\
         0.3@2 view c\n\
         0.4@4 loaded version=0 rows=4\n\
         0.5@6 loaded version=1 rows=4\n\
         0.6@7 rows 2 version=0\n\
         20131231,100,US,10,32\n\
         20140101,100,US,40,20\n\
         0.7@9 rows 3 version=1\n\
         20131231,100,US,10,32\n\
         20140101,100,US,190,100\n\
         20140101,200,UK,40,20\n\
         0.8@11 rows 3 version=1\n\
         1,US,10,32\n\
         2,UK,40,20\n\
         2,US,190,100\n\
         0.9@13 rows 1 version=1\n\
         US,190\n",
        ..PLAIN
    },
    Case {
        name: "one row",
        script: b"table,t,k int,v sum\n\
         row,t,1,5\n\
         commit\n\
         commit\n\
         query,t\n",
        status: 0,
        turns: Some(7),
        text: "0.1@0 table t\n\
         0.2@2 loaded version=0 rows=1\n\
         0.3@4 loaded version=1 rows=0\n\
         0.4@5 rows 1 version=1\n\
         1,5\n",
        ..PLAIN
    },
    Case {
        name: "zero sum stays",
        script: b"table,t,k int,v sum\n\
         row,t,7,10\n\
         commit\n\
         row,t,7,-10\n\
         commit\n\
         query,t\n",
        status: 0,
        turns: Some(7),
        text: "0.1@0 table t\n\
         0.2@2 loaded version=0 rows=1\n\
         0.3@4 loaded version=1 rows=1\n\
         0.4@5 rows 1 version=1\n\
         7,0\n",
        ..PLAIN
    },
    Case {
        name: "duplicate key",
        script: b"table,t,k int,v sum\n\
         row,t,1,5\n\
         row,t,2,6\n\
         row,t,1,7\n\
         commit\n\
         row,t,1,7\n\
         commit\n",
        status: 1,
        turns: Some(5),
        text: "0.1@0 table t\n\
         0.2@2 refused duplicate_key first=1 second=3\n\
         0.3@4 loaded version=0 rows=1\n",
        ..PLAIN
    },
    Case {
        name: "sum bound",
        script: b"table,t,k int,v sum\n\
         row,t,1,9223372036854775807\n\
         commit\n\
         row,t,1,-1\n\
         commit\n\
         query,t\n",
        status: 0,
        turns: Some(7),
        text: "0.1@0 table t\n\
         0.2@2 loaded version=0 rows=1\n\
         0.3@4 loaded version=1 rows=1\n\
         0.4@5 rows 1 version=1\n\
         1,9223372036854775806\n",
        ..PLAIN
    },
    Case {
        name: "sum bound",
        script: b"table,t,k int,v sum\n\
         row,t,1,-9223372036854775808\n\
         commit\n",
        status: 0,
        turns: Some(3),
        text: "0.1@0 table t\n\
         0.2@2 loaded version=0 rows=1\n",
        ..PLAIN
    },
    // The least number of 128 bits is one of a sum column, and its absolute value passes the bound by one.
    Case {
        name: "sum bound",
        script: b"table,t,k int,v sum\n\
         row,t,1,-170141183460469231731687303715884105728\n\
         commit\n\
         row,t,1,-170141183460469231731687303715884105727\n\
         commit\n\
         query,t\n",
        status: 1,
        turns: Some(7),
        text: "0.1@0 table t\n\
         0.2@2 refused sum_bound table=t column=v\n\
         0.3@4 loaded version=0 rows=1\n\
         0.4@5 rows 1 version=0\n\
         1,-170141183460469231731687303715884105727\n",
        ..PLAIN
    },
    Case {
        name: "wide sums",
        script: b"table,t,k int,v sum\n\
         row,t,1,9223372036854775807\n\
         commit\n\
         row,t,1,1\n\
         commit\n\
         query,t\n\
         row,t,1,170141183460469231722463931679029329919\n\
         commit\n\
         row,t,1,1\n\
         commit\n\
         query,t\n",
        status: 1,
        turns: Some(13),
        text: "0.1@0 table t\n\
         0.2@2 loaded version=0 rows=1\n\
         0.3@4 loaded version=1 rows=1\n\
         0.4@5 rows 1 version=1\n\
         1,9223372036854775808\n\
         0.5@8 loaded version=2 rows=1\n\
         0.6@10 refused sum_bound table=t column=v\n\
         0.7@11 rows 1 version=2\n\
         1,170141183460469231731687303715884105727\n",
        ..PLAIN
    },
    // A value of a sum column has 128 bits, and every other value, a key and a default 64.
    Case {
        name: "values that are too wide",
        script: b"table,t,k int,v sum;m min;x max;r replace\n\
         row,t,1,170141183460469231731687303715884105728,0,0,0\n\
         commit\n\
         row,t,1,-170141183460469231731687303715884105729,0,0,0\n\
         commit\n\
         row,t,1,9223372036854775808,-9223372036854775809,0,0\n\
         commit\n\
         row,t,1,9223372036854775808,0,9223372036854775808,0\n\
         commit\n\
         row,t,1,9223372036854775808,0,0,9223372036854775808\n\
         commit\n\
         row,t,9223372036854775808,9223372036854775808,0,0,0\n\
         commit\n\
         row,t,1,9223372036854775808,-9223372036854775808,9223372036854775807,9223372036854775807\n\
         row,t,2,-9223372036854775809,0,0,0\n\
         commit\n\
         alter,t,add_value,n max,9223372036854775808\n\
         query,t\n\
         query,t,,,-,v\n\
         query,t,,k=9223372036854775808\n",
        status: 1,
        text: "0.1@0 table t\n\
         0.2@2 refused bad_row row=1 column=2\n\
         0.3@4 refused bad_row row=1 column=2\n\
         0.4@6 refused bad_row row=1 column=3\n\
         0.5@8 refused bad_row row=1 column=4\n\
         0.6@10 refused bad_row row=1 column=5\n\
         0.7@12 refused bad_row row=1 column=1\n\
         0.8@14 loaded version=0 rows=2\n\
         0.9@15 refused bad_default column=n\n\
         0.10@16 rows 2 version=0\n\
         1,9223372036854775808,-9223372036854775808,9223372036854775807,9223372036854775807\n\
         2,-9223372036854775809,0,0,0\n\
         0.11@18 rows 1 version=0\n\
         -1\n\
         0.12@20 refused bad_filter term=1\n",
        ..PLAIN
    },
    Case {
        name: "stale and future",
        script: b"table,t,k int,v sum\n\
         query,t\n\
         commit\n\
         commit\n\
         commit\n\
         expire,1\n\
         query,t,0\n\
         query,t,3\n\
         expire,0\n",
        status: 1,
        turns: Some(12),
        text: "0.1@0 table t\n\
         0.2@1 refused future asked=latest newest=none\n\
         0.3@3 loaded version=0 rows=0\n\
         0.4@5 loaded version=1 rows=0\n\
         0.5@7 loaded version=2 rows=0\n\
         0.6@8 expired oldest=1\n\
         0.7@9 refused stale asked=0 oldest=1\n\
         0.8@10 refused future asked=3 newest=2\n\
         0.9@11 refused stale asked=0 oldest=1\n",
        ..PLAIN
    },
    Case {
        name: "refusals by name",
        script: b"table,t,k int;name text,v sum\n\
         row,t,1,x,5\n\
         row,u,1,x,5\n\
         commit\n\
         row,t,1,x\n\
         commit\n\
         row,t,1,x,9223372036854775808\n\
         commit\n\
         table,t,k int,v sum\n\
         table,s,k int;k int,v sum\n\
         query,t,,kk=1\n\
         query,t,,k=x\n",
        status: 1,
        turns: Some(11),
        text: "0.1@0 table t\n\
         0.2@2 refused no_table row=2\n\
         0.3@4 refused bad_row row=1 column=3\n\
         0.4@6 loaded version=0 rows=1\n\
         0.5@7 refused table_exists\n\
         0.6@8 refused bad_schema reason=name_twice\n\
         0.7@9 refused no_column\n\
         0.8@10 refused bad_filter term=1\n",
        ..PLAIN
    },
    Case {
        name: "escaped filter",
        script: b"table,t,name text,v sum\n\
         row,t,\"x,y\",5\n\
         row,t,a&b,6\n\
         commit\n\
         query,t,,name=a%26b|x%2cy\n",
        status: 0,
        turns: Some(5),
        text: "0.1@0 table t\n\
         0.2@2 loaded version=0 rows=2\n\
         0.3@3 rows 2 version=0\n\
         a&b,6\n\
         \"x,y\",5\n",
        ..PLAIN
    },
    // All four aggregations, keys of two columns in the order of their numbers, and a query before
    // there is a version.
    Case {
        name: "four aggregations",
        script: b"table,m,day int;site int,hits sum;low min;high max;last replace\n\
         query,m\n\
         row,m,2,+1,5,5,5,5\n\
         row,m,-2,1,1,1,1,1\n\
         row,m,2,-1,7,7,7,7\n\
         commit\n\
         row,m,2,1,3,3,3,3\n\
         row,m,2,1000,0,0,0,0\n\
         commit\n\
         query,m\n",
        status: 1,
        text: "0.1@0 table m\n\
         0.2@1 refused future asked=latest newest=none\n\
         0.3@3 loaded version=0 rows=3\n\
         0.4@5 loaded version=1 rows=2\n\
         0.5@6 rows 4 version=1\n\
         -2,1,1,1,1,1\n\
         2,-1,7,7,7,7\n\
         2,1,8,3,5,3\n\
         2,1000,0,0,0,0\n",
        ..PLAIN
    },
    Case {
        name: "empty script",
        script: b"",
        status: 0,
        turns: Some(0),
        text: "",
        ..PLAIN
    },
];

#[test]
fn scripts_that_run(rt: HostRuntime) {
    expect_cases(&rt, rt.alloc(), &CASES);
}
