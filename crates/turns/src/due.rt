// A look for ready lanes when the budget is used up: `try_recv_refill` and `refresh_active` of the receiver.
ghost use Rattle.std.specs.Prelude.{◌≡◌};
ghost use Rattle.turns.specs.Turn.{Turning};
ghost use Rattle.turns.specs.Due.{collect_if_due};

use queues::header::Header;
use ready::ready as marks;

// A look for ready lanes is due when the budget is used up.
pub fn collect_if_due(t: &mut [u64])
    requires { Turning t.old }
    ensures { t.new ≡ collect_if_due t.old }
{
    if t[Header::BUDGET] != 0 {
        return;
    }
    if t[Header::QUEUED] == 0 {
        return;
    }
    marks::collect_if_ready(t, false);
    t[Header::BUDGET] = Header::POLL_BUDGET;
}
