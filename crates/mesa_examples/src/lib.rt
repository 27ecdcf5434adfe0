//! The worked rows: what scripts print, by the definitions alone, from the script's bytes to the
//! printed bytes.
#![tactic(auto)]
