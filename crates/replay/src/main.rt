// Document 01's replay program: reads records from standard input, and writes one line for each.
#![tactic(auto)]

mod failure;
mod input;
mod place;
mod round;

ghost use Rattle.std.specs.Prelude.{◌≡◌, ◌≤◌, ◌<◌, take, MatchResult, OnOk};
ghost use Rattle.std.specs.Io.KnownBytes.{Appends};
ghost use Rattle.replay_serve.specs.Calls.{started};
ghost use Rattle.replay.specs.Place.{Flushed};
ghost use Rattle.replay.specs.Ran.{Ran};

use failure::Failure;
use place::{Next, Place};
use replay_serve::calls::Stores;
use std::io::{Cursor, Read, Write};

// Writes what is due of the text. Nothing is due then.
fn flush<W: Write>(place: Place, output: &mut W, text: &[u8; 65536]) -> Result<Place, Failure>
    requires { place.end ≤ 65536 }
    ensures place { MatchResult result (λ q. Flushed place q) (λ e. (e ≡ Failure.WriteFailed) × (0 < place.end)) }
    ensures bytes { OnOk result (Appends (W.contents output.old) (W.contents output.new) (take place.end text.now)) }
{
    if place.end > 0 {
        output
            .write_all(&text[..place.end])
            .map_err(|_| Failure::WriteFailed)?;
    }
    Ok(Place {
        next: place.next,
        at: place.at,
        have: place.have,
        end: 0,
    })
}

// Reads, answers and writes until the input ends or is malformed. A proved loop has to end, and nothing says that the input does: the turns are counted, to a number that no run comes to.
fn run<R: Read, W: Write>(
    input: &mut R,
    output: &mut W,
    stores: &mut Stores,
    buffer: &mut [u8; 65536],
    text: &mut [u8; 65536],
) -> Result<(), Failure>
    requires { stores.old ≡ started }
    ensures { Ran result stores.new }
{
    let mut place = Place {
        next: Next::Read,
        at: 0,
        have: 0,
        end: 0,
    };
    for _turn in 0..u64::MAX {
        let fetched = input::fetch(place, input, buffer)?;
        let answered = round::round(fetched, buffer, stores, text);
        place = flush(answered, output, text)?;
        if place.next == Next::Stop {
            return Ok(());
        }
    }
    Err(Failure::TurnsOver)
}

// A line on standard error, in one write, so that no other program's line comes in between. That it cannot be written is passed over.
fn complain<W: Write>(errors: &mut W, failure: Failure) {
    let mut line = Cursor::new([0; 64]);
    let _ = writeln!(line, "replay: {failure}");
    let end = line.position().min(64) as usize;
    let _ = errors.write_all(&line.get_ref()[..end]);
}

fn main(rt: HostRuntime) {
    let mut stores = Stores {
        table: [0; 4096],
        rings: [0; 2048],
        out: [0; 64],
    };
    let mut buffer = [0u8; 65536];
    let mut text = [0u8; 65536];
    let mut input = rt.stdin();
    let mut output = rt.stdout();
    let mut errors = rt.stderr();
    if let Err(failure) = run(&mut input, &mut output, &mut stores, &mut buffer, &mut text) {
        complain(&mut errors, failure);
    }
}
