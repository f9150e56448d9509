// The sender calls: src/mpsc/sender.rs.
ghost use Rattle.std.specs.Prelude.{◌≡◌};
ghost use Rattle.fanring.specs.Runs.{checked_words};
ghost use Rattle.model.specs.declared.SenderCall.TheVariants.{DropSender, TrySend, TrySendUnsignaled};
ghost use Rattle.model.specs.declared.Call.TheVariants.{Sender};

use model::{Answer, LaneKey};

// Stores one item and marks the lane; answers whether its signal went from idle to pending.
pub fn try_send(t: &mut [u64], r: &mut [u64], key: LaneKey, item: u64) -> Answer
    ensures { (result, t.new, r.new) ≡ checked_words t.old r.old (Sender (TrySend key item)) }
{
    checked!(t, r, sender::sender::try_send(t, r, key, item))
}

// Stores one item and marks nothing.
pub fn try_send_unsignaled(t: &mut [u64], r: &mut [u64], key: LaneKey, item: u64) -> Answer
    ensures { (result, t.new, r.new) ≡ checked_words t.old r.old (Sender (TrySendUnsignaled key item)) }
{
    checked!(t, r, sender::sender::try_send_unsignaled(t, r, key, item))
}

// Drops a sender: its lane is marked, so that a receive looks at it.
pub fn drop_sender(t: &mut [u64], r: &[u64], key: LaneKey) -> Answer
    ensures { (result, t.new, r.now) ≡ checked_words t.old r.now (Sender (DropSender key)) }
{
    checked!(t, r, sender::sender::drop_sender(t, r, key))
}
