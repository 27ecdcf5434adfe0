//! The turns of a work, and the first ones of a recast: the grant, the renewal, and a work's last turn, in which
//! its range is swapped in, or it is told why it isn't. Passes on the turns of the crates below, so that who has
//! these has all of them.
#![tactic(auto)]

mod claiming;
mod completing;
mod giving_back;
mod granting;
mod lease_checking;
mod readying;
mod recast_claiming;
mod recast_granting;
mod renewing;
mod unmerged;

pub use completing::complete;
pub use giving_back::{give_back, give_back_recast};
pub use granting::{failure_of, grant};
pub use lease_checking::check;
pub use mesa_read_turns::{
    close_query, explain, gather_more, give_back_query, look, pin, pin_query, release,
};
pub use mesa_write_turns::{
    Drops, Staged, Swapped, alter, commit, expire, publish, recast, table, tables_become, view,
};
pub use readying::make_room;
pub use recast_granting::grant_recast;
pub use renewing::{renew, renew_recast};
pub use unmerged::{fall, give_up, may_be_told};
