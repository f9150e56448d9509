// The receives in turn, held, and the receiver's end: src/mpsc/receiver.rs.
ghost use Rattle.std.specs.Prelude.{◌≡◌};
ghost use Rattle.fanring.specs.Runs.{checked_words};
ghost use Rattle.model.specs.declared.ControlCall.TheVariants.{CloseReceiver, CountHeld};
ghost use Rattle.model.specs.declared.ReceiveCall.TheVariants.{TryRecv, TryRecvFair};
ghost use Rattle.model.specs.declared.Call.TheVariants.{Control, Receive};

use model::Answer;

// Receives one item, in bursts of at most 64 of a lane.
pub fn try_recv(t: &mut [u64], r: &[u64]) -> Answer
    ensures { (result, t.new, r.now) ≡ checked_words t.old r.now (Receive TryRecv) }
{
    checked!(t, r, receive::receiver::try_recv(t, r))
}

// Receives one item, with a look for ready lanes first and a rotation after.
pub fn try_recv_fair(t: &mut [u64], r: &[u64]) -> Answer
    ensures { (result, t.new, r.now) ≡ checked_words t.old r.now (Receive TryRecvFair) }
{
    checked!(t, r, receive::receiver::try_recv_fair(t, r))
}

// The number of items in the rings of registered lanes, also of a receiver that is closed.
pub fn held(t: &[u64], r: &[u64]) -> Answer
    ensures { (result, t.now, r.now) ≡ checked_words t.now r.now (Control CountHeld) }
{
    checked!(t, r, all_lanes::all_lanes::held(t, r))
}

// The receiver goes; its lanes stay as they are, and their senders find it closed.
pub fn close_receiver(t: &mut [u64], r: &[u64]) -> Answer
    ensures { (result, t.new, r.now) ≡ checked_words t.old r.now (Control CloseReceiver) }
{
    checked!(t, r, control::lane_control::close_receiver(t, r))
}
