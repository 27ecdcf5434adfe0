// Worked rows of schemas that change.
use crate::reference::trial::{Case, expect_all};

static CASES: [Case; 8] = [
    (
        "added values",
        "table,t,k int,v sum\n\
         row,t,1,5\n\
         commit\n\
         row,t,1,6\n\
         commit\n\
         row,t,1,-4\n\
         commit\n\
         alter,t,add_value,m min,7\n\
         alter,t,add_value,s sum,7\n\
         alter,t,add_value,s sum,0\n\
         query,t\n\
         row,t,1,0,9,2\n\
         commit\n\
         query,t\n\
         row,t,1,0,3,0\n\
         commit\n\
         query,t\n",
        "0.1@0 table t\n\
         0.2@0 loaded version=0 rows=1\n\
         0.3@0 loaded version=1 rows=1\n\
         0.4@0 loaded version=2 rows=1\n\
         0.5@0 altered t epoch=1\n\
         0.6@0 refused bad_default column=s\n\
         0.7@0 altered t epoch=2\n\
         0.8@0 rows 1 version=2\n\
         1,7,7,0\n\
         0.9@0 loaded version=3 rows=1\n\
         0.10@0 rows 1 version=3\n\
         1,7,7,2\n\
         0.11@0 loaded version=4 rows=1\n\
         0.12@0 rows 1 version=4\n\
         1,7,3,2\n",
    ),
    (
        "an added key",
        "table,t,k int,v sum\n\
         row,t,1,5\n\
         commit\n\
         alter,t,add_key,c text,US\n\
         row,t,1,UK,3\n\
         commit\n\
         query,t\n\
         view,w,t,c,v\n\
         query,w\n\
         query,t,,c=US\n",
        "0.1@0 table t\n\
         0.2@0 loaded version=0 rows=1\n\
         0.3@0 altered t epoch=1\n\
         0.4@0 loaded version=1 rows=1\n\
         0.5@0 rows 2 version=1\n\
         1,UK,3\n\
         1,US,5\n\
         0.6@0 view w\n\
         0.7@0 rows 2 version=1\n\
         UK,3\n\
         US,5\n\
         0.8@0 rows 1 version=1\n\
         1,US,5\n",
    ),
    (
        "views that guard columns",
        "table,t,k int;c text,v sum;r replace\n\
         view,w,t,c,v\n\
         view,x,t,c,r\n\
         view,t,t,c,v\n\
         alter,t,drop_value,v\n\
         alter,t,drop_value,z\n\
         query,t,,,c\n",
        "0.1@0 table t\n\
         0.2@0 view w\n\
         0.3@0 refused replace_group column=r\n\
         0.4@0 refused table_exists\n\
         0.5@0 refused in_view view=w\n\
         0.6@0 refused no_column\n\
         0.7@0 refused replace_group column=r\n",
    ),
    // Each refusal of a change, in the order in which they are looked at.
    (
        "changes that are refused",
        "table,t,k int,v sum\n\
         alter,u,add_value,w sum,0\n\
         alter,t,add_value,W sum,x\n\
         alter,t,add_value,v min,x\n\
         alter,t,add_value,w min,x\n\
         alter,t,add_value,w sum,1\n\
         alter,t,add_key,c int,x\n\
         alter,t,drop_value,w\n\
         alter,t,drop_value,v\n\
         alter,t,add_key,c int,-3\n",
        "0.1@0 table t\n\
         0.2@0 refused no_table\n\
         0.3@0 refused bad_schema reason=bad_name\n\
         0.4@0 refused bad_schema reason=name_twice\n\
         0.5@0 refused bad_default column=w\n\
         0.6@0 refused bad_default column=w\n\
         0.7@0 refused bad_default column=c\n\
         0.8@0 refused no_column\n\
         0.9@0 refused bad_schema reason=last_value\n\
         0.10@0 altered t epoch=1\n",
    ),
    // A sum column that is added may have as much as any other; once it is dropped its total is gone.
    (
        "totals through changes",
        "table,t,k int,v sum\n\
         row,t,1,170141183460469231731687303715884105727\n\
         commit\n\
         alter,t,add_value,w sum,0\n\
         row,t,2,0,170141183460469231731687303715884105727\n\
         commit\n\
         row,t,3,0,1\n\
         commit\n\
         alter,t,drop_value,v\n\
         row,t,3,1\n\
         commit\n\
         alter,t,drop_value,w\n\
         alter,t,add_value,v sum,0\n\
         alter,t,drop_value,w\n\
         row,t,3,170141183460469231731687303715884105727\n\
         commit\n\
         query,t\n",
        "0.1@0 table t\n\
         0.2@0 loaded version=0 rows=1\n\
         0.3@0 altered t epoch=1\n\
         0.4@0 loaded version=1 rows=1\n\
         0.5@0 refused sum_bound table=t column=w\n\
         0.6@0 altered t epoch=2\n\
         0.7@0 refused sum_bound table=t column=w\n\
         0.8@0 refused bad_schema reason=last_value\n\
         0.9@0 altered t epoch=3\n\
         0.10@0 altered t epoch=4\n\
         0.11@0 loaded version=2 rows=1\n\
         0.12@0 rows 3 version=2\n\
         1,0\n\
         2,0\n\
         3,170141183460469231731687303715884105727\n",
    ),
    // The row recast_regroups, and a pin that keeps what stood before.
    (
        "a recast",
        "table,t,a int;b int,v sum\n\
         row,t,1,2,5\n\
         row,t,2,1,7\n\
         row,t,3,1,1\n\
         commit\n\
         pin\n\
         recast,t,b,v\n\
         query,t\n\
         row,t,1,4\n\
         commit\n\
         query,t\n\
         query,t,pin:1\n",
        "0.1@0 table t\n\
         0.2@0 loaded version=0 rows=3\n\
         0.3@0 pinned token=1 version=0\n\
         0.4@0 recast t epoch=1\n\
         0.5@0 rows 2 version=0\n\
         1,8\n\
         2,5\n\
         0.6@0 loaded version=1 rows=1\n\
         0.7@0 rows 2 version=1\n\
         1,12\n\
         2,5\n\
         0.8@0 rows 3 version=0\n\
         1,2,5\n\
         2,1,7\n\
         3,1,1\n",
    ),
    // Each refusal of a recast, in the order in which they are looked at.
    (
        "recasts that are refused",
        "table,t,a int;b int,v sum;r replace\n\
         view,w,t,a,v\n\
         recast,u,a,v\n\
         recast,w,a,v\n\
         recast,t,x,v\n\
         recast,t,,v\n\
         recast,t,a;a,x\n\
         recast,t,a,x\n\
         recast,t,a,\n\
         recast,t,a,v;v\n\
         recast,t,a,v;r\n\
         recast,t,b;a,r;v\n\
         recast,t,b,v\n",
        "0.1@0 table t\n\
         0.2@0 view w\n\
         0.3@0 refused no_table\n\
         0.4@0 refused no_table\n\
         0.5@0 refused no_column\n\
         0.6@0 refused bad_schema reason=no_key\n\
         0.7@0 refused bad_schema reason=name_twice\n\
         0.8@0 refused no_column\n\
         0.9@0 refused bad_schema reason=no_value\n\
         0.10@0 refused bad_schema reason=name_twice\n\
         0.11@0 refused replace_group column=r\n\
         0.12@0 recast t epoch=1\n\
         0.13@0 refused in_view view=w\n",
    ),
    // A sum column that is kept keeps its total, wherever it stands.
    (
        "totals through a recast",
        "table,t,a int;b int,v sum;w sum\n\
         row,t,1,1,170141183460469231731687303715884105727,0\n\
         commit\n\
         recast,t,b,w;v\n\
         row,t,1,0,1\n\
         commit\n\
         row,t,1,1,0\n\
         commit\n\
         query,t\n",
        "0.1@0 table t\n\
         0.2@0 loaded version=0 rows=1\n\
         0.3@0 recast t epoch=1\n\
         0.4@0 refused sum_bound table=t column=v\n\
         0.5@0 loaded version=1 rows=1\n\
         0.6@0 rows 1 version=1\n\
         1,1,170141183460469231731687303715884105727\n",
    ),
];

#[test]
fn schemas_that_change(rt: HostRuntime) {
    expect_all(&rt, rt.alloc(), &CASES);
}
