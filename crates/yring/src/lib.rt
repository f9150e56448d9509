#![tactic(auto)]
// The ring of one sender, over a lent store: its cursors, its places and its release batch.
pub mod release;
pub mod ring;
