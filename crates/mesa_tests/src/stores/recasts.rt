// A run with recasts that is stopped at any moment, each behind a change of columns, leaves a front of what it did.
use crate::call::{Case, PLAIN, run};
use crate::expected::expect_same;
use crate::stores::crashes::{Stopped, expect_moments};

static SCRIPT: &str = "table,t,a int;b int,v sum\n\
     view,w,t,b,v\n\
     row,t,1,1,5\n\
     row,t,1,2,7\n\
     commit\n\
     row,t,2,1,4\n\
     commit\n\
     alter,t,add_value,n sum,0\n\
     recast,t,b,v;n\n\
     row,t,2,1,3\n\
     commit\n\
     alter,t,add_key,c int,9\n\
     recast,t,c;b,n;v\n";

// What each image is asked: its table, its view, which deltas a query reads, and one load more.
static ASKED: Case<'static> = Case {
    script: b"query,t\n\
     query,w\n\
     explain,t\n\
     commit\n",
    ..PLAIN
};

// The answers behind so many of the script's commands.
static FRONTS: [&str; 10] = [
    "0.1@0 refused no_table\n\
     0.2@1 refused no_table\n\
     0.3@2 refused no_table\n\
     0.4@4 loaded version=0 rows=0\n",
    "0.1@0 refused future asked=latest newest=none\n\
     0.2@1 refused no_table\n\
     0.3@2 refused future asked=latest newest=none\n\
     0.4@4 loaded version=0 rows=0\n",
    "0.1@0 refused future asked=latest newest=none\n\
     0.2@1 refused future asked=latest newest=none\n\
     0.3@2 refused future asked=latest newest=none\n\
     0.4@4 loaded version=0 rows=0\n",
    "0.1@0 rows 2 version=0\n\
     1,1,5\n\
     1,2,7\n\
     0.2@2 rows 2 version=0\n\
     1,5\n\
     2,7\n\
     0.3@4 spans 1\n\
     [0,0]\n\
     0.4@6 loaded version=1 rows=0\n",
    "0.1@0 rows 3 version=1\n\
     1,1,5\n\
     1,2,7\n\
     2,1,4\n\
     0.2@2 rows 2 version=1\n\
     1,9\n\
     2,7\n\
     0.3@4 spans 2\n\
     [0,0]\n\
     [1,1]\n\
     0.4@6 loaded version=2 rows=0\n",
    "0.1@0 rows 3 version=1\n\
     1,1,5,0\n\
     1,2,7,0\n\
     2,1,4,0\n\
     0.2@2 rows 2 version=1\n\
     1,9\n\
     2,7\n\
     0.3@4 spans 2\n\
     [0,0]\n\
     [1,1]\n\
     0.4@6 loaded version=2 rows=0\n",
    "0.1@0 rows 2 version=1\n\
     1,9,0\n\
     2,7,0\n\
     0.2@2 rows 2 version=1\n\
     1,9\n\
     2,7\n\
     0.3@4 spans 2\n\
     [0,0]\n\
     [1,1]\n\
     0.4@6 loaded version=2 rows=0\n",
    "0.1@0 rows 2 version=2\n\
     1,9,0\n\
     2,8,3\n\
     0.2@2 rows 2 version=2\n\
     1,9\n\
     2,8\n\
     0.3@4 spans 3\n\
     [0,0]\n\
     [1,1]\n\
     [2,2]\n\
     0.4@6 loaded version=3 rows=0\n",
    "0.1@0 rows 2 version=2\n\
     1,9,9,0\n\
     2,9,8,3\n\
     0.2@2 rows 2 version=2\n\
     1,9\n\
     2,8\n\
     0.3@4 spans 3\n\
     [0,0]\n\
     [1,1]\n\
     [2,2]\n\
     0.4@6 loaded version=3 rows=0\n",
    "0.1@0 rows 2 version=2\n\
     9,1,0,9\n\
     9,2,3,8\n\
     0.2@2 rows 2 version=2\n\
     1,9\n\
     2,8\n\
     0.3@4 spans 3\n\
     [0,0]\n\
     [1,1]\n\
     [2,2]\n\
     0.4@6 loaded version=3 rows=0\n",
];

#[test]
fn recasts_stopped_at_each_moment(rt: HostRuntime) {
    let left = run(&rt, rt.alloc(), SCRIPT);
    expect_same(&rt, &left.status, &0, &"the run that is stopped");
    let stopped = Stopped {
        asked: &ASKED,
        fronts: &FRONTS,
    };
    expect_moments(&rt, rt.alloc(), stopped, &left);
}
