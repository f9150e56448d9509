// The calls on one lane: src/mpsc/receiver/lane_control.rs.
ghost use Rattle.std.specs.Prelude.{◌≡◌};
ghost use Rattle.fanring.specs.Runs.{checked_words};
ghost use Rattle.model.specs.declared.ControlCall.TheVariants.{CloseLane, Pause, Resume};
ghost use Rattle.model.specs.declared.ReceiveCall.TheVariants.{TryRecvFrom};
ghost use Rattle.model.specs.declared.Call.TheVariants.{Control, Receive};

use model::{Answer, LaneId};

// Receives one item of this lane, paused or not.
pub fn try_recv_from(t: &mut [u64], r: &[u64], id: LaneId) -> Answer
    ensures { (result, t.new, r.now) ≡ checked_words t.old r.now (Receive (TryRecvFrom id)) }
{
    checked!(t, r, receive_from::target::try_recv_from(t, r, id))
}

// Takes a lane out of all receives but targeted ones.
pub fn pause(t: &mut [u64], r: &[u64], id: LaneId) -> Answer
    ensures { (result, t.new, r.now) ≡ checked_words t.old r.now (Control (Pause id)) }
{
    checked!(t, r, control::lane_control::pause(t, r, id))
}

// Brings a paused lane back; a lane that is not paused stays as it is.
pub fn resume(t: &mut [u64], r: &[u64], id: LaneId) -> Answer
    ensures { (result, t.new, r.now) ≡ checked_words t.old r.now (Control (Resume id)) }
{
    checked!(t, r, control::lane_control::resume(t, r, id))
}

// Retires a lane, with the items that it holds.
pub fn close_lane(t: &mut [u64], r: &[u64], id: LaneId) -> Answer
    ensures { (result, t.new, r.now) ≡ checked_words t.old r.now (Control (CloseLane id)) }
{
    checked!(t, r, control::lane_control::close_lane(t, r, id))
}
