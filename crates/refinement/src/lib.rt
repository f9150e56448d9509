#![tactic(auto)]
// No code: every inner call does what the rules say, and lists of calls on the stores meet the demands.
