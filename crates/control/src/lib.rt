#![tactic(auto)]
// The receiver calls that hand nothing out, on a store in order.
pub mod lane_control;
