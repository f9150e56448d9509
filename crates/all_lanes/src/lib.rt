#![tactic(auto)]
// The calls that go over every issued slot, and held, which reads a word.
pub mod all_lanes;
