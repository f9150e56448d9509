// Opening and registering: src/mpsc.rs.
ghost use Rattle.std.specs.Prelude.{◌≡◌};
ghost use Rattle.fanring.specs.Runs.{checked_words};
ghost use Rattle.model.specs.declared.SenderCall.TheVariants.{RegisterSender};
ghost use Rattle.model.specs.declared.Call.TheVariants.{Sender};
ghost use Rattle.opening.specs.Opening.{open_store};

use model::{Answer, Opening};

// Opens a channel over two lent stores, whatever their words hold.
pub fn open(opening: Opening, t: &mut [u64], r: &[u64]) -> Answer
    ensures { (result, t.new, r.now) ≡ open_store opening t.old r.now }
{
    opening::mpsc::open(opening, t, r)
}

// Registers a sender: the slot freed last of those without a living older sender, or else the next unused
// one, gets a new lane.
pub fn register_sender(t: &mut [u64], r: &[u64], most: u64) -> Answer
    ensures { (result, t.new, r.now) ≡ checked_words t.old r.now (Sender (RegisterSender most)) }
{
    checked!(t, r, sender::sender::register_sender(t, r, most))
}
