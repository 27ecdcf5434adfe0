//!
#![tactic(auto)]

#[cfg(test)]
mod delta;
#[cfg(test)]
mod expected;
#[cfg(test)]
mod load;
#[cfg(test)]
mod merge;
#[cfg(test)]
mod query;
