//! A recast's last turn: its table is recast, or it is told why it isn't. Passes on the turns of the crates below, so that who has the last turn has all of them.
#![tactic(auto)]

mod checking;
mod readying;
mod recasting;
mod resting;
mod unmade;

pub use mesa_work_turns::{
    alter, close_query, complete, expire, explain, give_back, give_back_query, give_back_recast,
    give_up, grant, grant_recast, look, pin, pin_query, publish, release, renew, renew_recast,
    table, tables_become, view,
};
pub use recasting::recast;
pub use resting::rest;
