// Worked rows.
use crate::reference::trial::{Case, expect_all};

static CASES: [Case; 9] = [
    ("an empty script", "", ""),
    (
        "one row",
        "table,t,k int,v sum\n\
         row,t,1,5\n\
         commit\n\
         commit\n\
         query,t\n",
        "0.1@0 table t\n\
         0.2@0 loaded version=0 rows=1\n\
         0.3@0 loaded version=1 rows=0\n\
         0.4@0 rows 1 version=1\n\
         1,5\n",
    ),
    (
        "a sum of zero",
        "table,t,k int,v sum\n\
         row,t,7,10\n\
         commit\n\
         row,t,7,-10\n\
         commit\n\
         query,t\n",
        "0.1@0 table t\n\
         0.2@0 loaded version=0 rows=1\n\
         0.3@0 loaded version=1 rows=1\n\
         0.4@0 rows 1 version=1\n\
         7,0\n",
    ),
    (
        "wide sums",
        "table,t,k int,v sum\n\
         row,t,1,9223372036854775807\n\
         commit\n\
         row,t,1,1\n\
         commit\n\
         query,t\n\
         row,t,1,170141183460469231722463931679029329919\n\
         commit\n\
         row,t,1,1\n\
         commit\n\
         query,t\n",
        "0.1@0 table t\n\
         0.2@0 loaded version=0 rows=1\n\
         0.3@0 loaded version=1 rows=1\n\
         0.4@0 rows 1 version=1\n\
         1,9223372036854775808\n\
         0.5@0 loaded version=2 rows=1\n\
         0.6@0 refused sum_bound table=t column=v\n\
         0.7@0 rows 1 version=2\n\
         1,170141183460469231731687303715884105727\n",
    ),
    (
        "a sum bound",
        "table,t,k int,v sum\n\
         row,t,1,-170141183460469231731687303715884105728\n\
         commit\n\
         row,t,1,-9223372036854775808\n\
         commit\n\
         row,t,1,9223372036854775807\n\
         row,t,2,170141183460469231713240559642174554112\n\
         commit\n\
         row,t,2,1\n\
         commit\n\
         query,t\n",
        "0.1@0 table t\n\
         0.2@0 refused sum_bound table=t column=v\n\
         0.3@0 loaded version=0 rows=1\n\
         0.4@0 loaded version=1 rows=2\n\
         0.5@0 refused sum_bound table=t column=v\n\
         0.6@0 rows 2 version=1\n\
         1,-1\n\
         2,170141183460469231713240559642174554112\n",
    ),
    // A value of a sum column has 128 bits, and every other value 64.
    (
        "values that are too wide",
        "table,t,k int,v sum;m min;r replace\n\
         row,t,1,170141183460469231731687303715884105728,0,0\n\
         commit\n\
         row,t,1,9223372036854775808,9223372036854775808,0\n\
         commit\n\
         row,t,1,9223372036854775808,0,-9223372036854775809\n\
         commit\n\
         row,t,9223372036854775808,0,0,0\n\
         commit\n\
         row,t,1,-170141183460469231731687303715884105727,-9223372036854775808,9223372036854775807\n\
         commit\n\
         alter,t,add_value,x max,9223372036854775808\n\
         query,t\n",
        "0.1@0 table t\n\
         0.2@0 refused bad_row row=1 column=2\n\
         0.3@0 refused bad_row row=1 column=3\n\
         0.4@0 refused bad_row row=1 column=4\n\
         0.5@0 refused bad_row row=1 column=1\n\
         0.6@0 loaded version=0 rows=1\n\
         0.7@0 refused bad_default column=x\n\
         0.8@0 rows 1 version=0\n\
         1,-170141183460469231731687303715884105727,-9223372036854775808,9223372036854775807\n",
    ),
    (
        "sales and a view",
        "table,b,day int;adv int;country text,clicks sum;cost sum\n\
         view,c,b,adv;country,clicks;cost\n\
         row,b,20131231,1,US,10,32\n\
         row,b,20140101,2,US,40,20\n\
         commit\n\
         row,b,20140101,2,US,150,80\n\
         row,b,20140101,2,UK,40,20\n\
         commit\n\
         query,c,latest\n\
         query,b,0,adv=2,adv;country\n\
         expire,1\n\
         query,b,0\n",
        "0.1@0 table b\n\
         0.2@0 view c\n\
         0.3@0 loaded version=0 rows=2\n\
         0.4@0 loaded version=1 rows=2\n\
         0.5@0 rows 3 version=1\n\
         1,US,10,32\n\
         2,UK,40,20\n\
         2,US,190,100\n\
         0.6@0 rows 1 version=0\n\
         2,US,40,20\n\
         0.7@0 expired oldest=1\n\
         0.8@0 refused stale asked=0 oldest=1\n",
    ),
    // The row of this name, up to its works.
    (
        "expiry per table",
        "table,t,k int,v sum\n\
         table,u,k int,v sum\n\
         row,t,1,5\n\
         row,u,1,7\n\
         commit\n\
         row,t,1,1\n\
         commit\n\
         expire,t,1\n\
         query,t,0\n\
         query,u,0\n\
         pin,0\n\
         expire,0\n\
         expire,t,0\n",
        "0.1@0 table t\n\
         0.2@0 table u\n\
         0.3@0 loaded version=0 rows=2\n\
         0.4@0 loaded version=1 rows=1\n\
         0.5@0 expired t oldest=1\n\
         0.6@0 refused stale asked=0 oldest=1\n\
         0.7@0 rows 1 version=0\n\
         1,7\n\
         0.8@0 refused stale asked=0 oldest=1\n\
         0.9@0 expired oldest=0\n\
         0.10@0 refused stale asked=0 oldest=1\n",
    ),
    // A table that is made later begins at the floor. A pin outlives an expiry of its table, and what was let go
    // of one table is there of another until the floor passes it.
    (
        "expiries of one table and of all",
        "expire,t,0\n\
         table,t,k int,v sum\n\
         view,w,t,k,v\n\
         table,u,k int,v sum\n\
         expire,t,0\n\
         row,t,1,5\n\
         row,u,1,7\n\
         commit\n\
         row,t,1,1\n\
         commit\n\
         row,u,1,1\n\
         commit\n\
         pin,0\n\
         expire,t,2\n\
         query,w,1\n\
         query,u,1\n\
         query,t,pin:1\n\
         expire,w,2\n\
         expire,t,3\n\
         expire,t,1\n\
         expire,3\n\
         expire,1\n\
         table,x,k int,v sum\n\
         query,x,1\n\
         query,t,1\n\
         query,u,0\n\
         expire,0\n\
         query,t\n",
        "0.1@0 refused no_table\n\
         0.2@0 table t\n\
         0.3@0 view w\n\
         0.4@0 table u\n\
         0.5@0 refused future asked=0 newest=none\n\
         0.6@0 loaded version=0 rows=2\n\
         0.7@0 loaded version=1 rows=1\n\
         0.8@0 loaded version=2 rows=1\n\
         0.9@0 pinned token=1 version=0\n\
         0.10@0 expired t oldest=2\n\
         0.11@0 refused stale asked=1 oldest=2\n\
         0.12@0 rows 1 version=1\n\
         1,7\n\
         0.13@0 rows 1 version=0\n\
         1,5\n\
         0.14@0 refused no_table\n\
         0.15@0 refused future asked=3 newest=2\n\
         0.16@0 refused stale asked=1 oldest=2\n\
         0.17@0 refused future asked=3 newest=2\n\
         0.18@0 expired oldest=1\n\
         0.19@0 table x\n\
         0.20@0 rows 0 version=1\n\
         0.21@0 refused stale asked=1 oldest=2\n\
         0.22@0 refused stale asked=0 oldest=1\n\
         0.23@0 refused stale asked=0 oldest=1\n\
         0.24@0 rows 1 version=2\n\
         1,6\n",
    ),
];

#[test]
fn worked_rows(rt: HostRuntime) {
    expect_all(&rt, rt.alloc(), &CASES);
}
