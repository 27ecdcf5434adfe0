// Tests of records: a vector of each kind, and one of each refusal.
mod kinds;
mod refusals;
