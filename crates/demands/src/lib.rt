#![tactic(auto)]
// The theorems about the rules of crate `model`: the demands, the limits of 64, order kept, Disconnected. Nothing here runs.
