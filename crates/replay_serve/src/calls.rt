// A record's call on the stores.
ghost use Rattle.std.specs.Prelude.{◌≡◌};

use fanring::{batch, lane_control, mpsc, recv, send};
use model::{Answer, Call, ControlCall, ReceiveCall, SenderCall};
use wire_record::record::Record;

// Document 01: "Stores: 2,048 and 4,096 words; output 64".
#[derive(Drop)]
pub struct Stores {
    pub table: [u64; 4096],
    pub rings: [u64; 2048],
    // What a batch is lent.
    pub out: [u64; 64],
}

#[tactic(auto, using(crate::proofs::CallLaws::either_way), unfolding(crate::specs::Calls::answered, fanring::specs::Runs::checked_output, refinement::specs::Runs::output_words))]
impl Stores {
    ghost use Rattle.replay_serve.specs.Calls.{answered};

    // Makes the record's call.
    pub fn answer(&mut self, asked: Record) -> Answer
        ensures { (result, self.new) ≡ answered asked self.old }
    {
        match asked {
            Record::Open { opening } => mpsc::open(opening, &mut self.table, &mut self.rings),
            Record::Call { call } => self.call(call),
        }
    }

    fn call(&mut self, asked: Call) -> Answer
        ensures { (result, self.new) ≡ answered (Record.Call asked) self.old }
    {
        match asked {
            Call::Sender(call) => self.sender_call(call),
            Call::Receive(call) => self.receive_call(call),
            Call::Control(call) => self.control_call(call),
        }
    }

    fn sender_call(&mut self, call: SenderCall) -> Answer
        ensures { (result, self.new) ≡ answered (Record.Call (Call.Sender call)) self.old }
    {
        let table = &mut self.table;
        let rings = &mut self.rings;
        match call {
            SenderCall::RegisterSender { most } => mpsc::register_sender(table, rings, most),
            SenderCall::TrySend { key, item } => send::try_send(table, rings, key, item),
            SenderCall::TrySendUnsignaled { key, item } => send::try_send_unsignaled(
                table, rings, key, item,
            ),
            SenderCall::DropSender { key } => send::drop_sender(table, rings, key),
        }
    }

    fn receive_call(&mut self, call: ReceiveCall) -> Answer
        ensures { (result, self.new) ≡ answered (Record.Call (Call.Receive call)) self.old }
    {
        let table = &mut self.table;
        let rings = &mut self.rings;
        let out = &mut self.out;
        match call {
            ReceiveCall::TryRecv => recv::try_recv(table, rings),
            ReceiveCall::TryRecvFair => recv::try_recv_fair(table, rings),
            ReceiveCall::TryRecvFrom { id } => lane_control::try_recv_from(table, rings, id),
            ReceiveCall::TryRecvBatchInto { limit, room: _ } => batch::try_recv_batch_into(
                table, rings, out, limit,
            ),
            ReceiveCall::TryRecvBatchIntoWhile {
                limit,
                bound,
                room: _,
            } => batch::try_recv_batch_into_while(table, rings, out, limit, bound),
        }
    }

    fn control_call(&mut self, call: ControlCall) -> Answer
        ensures { (result, self.new) ≡ answered (Record.Call (Call.Control call)) self.old }
    {
        let table = &mut self.table;
        let rings = &mut self.rings;
        match call {
            ControlCall::Pause { id } => lane_control::pause(table, rings, id),
            ControlCall::Resume { id } => lane_control::resume(table, rings, id),
            ControlCall::CloseLane { id } => lane_control::close_lane(table, rings, id),
            ControlCall::ReleaseConsumed => batch::release_consumed(table, rings),
            ControlCall::PollAllLanes => batch::poll_all_lanes(table, rings),
            ControlCall::CloseReceiver => recv::close_receiver(table, rings),
            ControlCall::CountHeld => recv::held(table, rings),
        }
    }
}
