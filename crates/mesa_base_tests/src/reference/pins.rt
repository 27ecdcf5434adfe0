// Pins, and what they keep.
use crate::reference::trial::{Case, expect_all};

static CASES: [Case; 3] = [
    (
        "pins and releases",
        "table,t,k int,v sum\n\
         pin,latest\n\
         row,t,1,5\n\
         commit\n\
         row,t,1,6\n\
         commit\n\
         pin,0\n\
         pin,latest\n\
         pin,2\n\
         release,1\n\
         release,1\n\
         query,t,pin:1\n\
         query,t,pin:2\n\
         pin,0\n\
         query,t,pin:3\n\
         session\n\
         release,2\n\
         query,t,pin:2\n\
         pin,1\n\
         release,1\n\
         release,1\n",
        "0.1@0 table t\n\
         0.2@0 refused future asked=latest newest=none\n\
         0.3@0 loaded version=0 rows=1\n\
         0.4@0 loaded version=1 rows=1\n\
         0.5@0 pinned token=1 version=0\n\
         0.6@0 pinned token=2 version=1\n\
         0.7@0 refused future asked=2 newest=1\n\
         0.8@0 released token=1\n\
         0.9@0 refused no_pin token=1\n\
         0.10@0 refused no_pin token=1\n\
         0.11@0 rows 1 version=1\n\
         1,11\n\
         0.12@0 pinned token=3 version=0\n\
         0.13@0 rows 1 version=0\n\
         1,5\n\
         1.1@0 refused no_pin token=2\n\
         1.2@0 refused no_pin token=2\n\
         1.3@0 pinned token=1 version=1\n\
         1.4@0 released token=1\n\
         1.5@0 refused no_pin token=1\n",
    ),
    // But for the work record, which the warehouse leaves to the range machine.
    (
        "a pin that outlives a change",
        "table,t,k int,v sum;w max\n\
         row,t,1,5,8\n\
         commit\n\
         row,t,1,6,3\n\
         commit\n\
         pin,0\n\
         row,t,2,1,1\n\
         commit\n\
         expire,2\n\
         alter,t,drop_value,w\n\
         query,t,pin:1\n\
         query,t\n\
         release,1\n\
         query,t,pin:1\n",
        "0.1@0 table t\n\
         0.2@0 loaded version=0 rows=1\n\
         0.3@0 loaded version=1 rows=1\n\
         0.4@0 pinned token=1 version=0\n\
         0.5@0 loaded version=2 rows=1\n\
         0.6@0 expired oldest=2\n\
         0.7@0 altered t epoch=1\n\
         0.8@0 rows 1 version=0\n\
         1,5,8\n\
         0.9@0 rows 2 version=2\n\
         1,11\n\
         2,1\n\
         0.10@0 released token=1\n\
         0.11@0 refused no_pin token=1\n",
    ),
    // A view that is made later isn't there for a pin, and one that is there outlives its table's changes.
    (
        "views of a pin",
        "table,t,k int;c text,v sum;w max\n\
         view,a,t,c,v\n\
         row,t,1,US,5,8\n\
         row,t,2,US,6,3\n\
         commit\n\
         pin,latest\n\
         view,b,t,k,v\n\
         alter,t,drop_value,w\n\
         alter,t,add_key,d int,4\n\
         query,a,pin:1\n\
         query,b,pin:1\n\
         query,a\n\
         query,b\n\
         query,t\n",
        "0.1@0 table t\n\
         0.2@0 view a\n\
         0.3@0 loaded version=0 rows=2\n\
         0.4@0 pinned token=1 version=0\n\
         0.5@0 view b\n\
         0.6@0 altered t epoch=1\n\
         0.7@0 altered t epoch=2\n\
         0.8@0 rows 1 version=0\n\
         US,11\n\
         0.9@0 refused no_table\n\
         0.10@0 rows 1 version=0\n\
         US,11\n\
         0.11@0 rows 2 version=0\n\
         1,5\n\
         2,6\n\
         0.12@0 rows 2 version=0\n\
         1,US,4,5\n\
         2,US,4,6\n",
    ),
];

#[test]
fn pins_and_what_they_keep(rt: HostRuntime) {
    expect_all(&rt, rt.alloc(), &CASES);
}
