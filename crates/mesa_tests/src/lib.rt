//! Worked rows of the program, byte for byte, over devices in memory: scripts, stores and sessions.
#![tactic(auto)]

#[cfg(test)]
mod call;
#[cfg(test)]
mod cases;
#[cfg(test)]
mod devices;
#[cfg(test)]
mod expected;
#[cfg(test)]
mod rows;
#[cfg(test)]
mod sessions;
#[cfg(test)]
mod stores;
#[cfg(test)]
mod texts;
