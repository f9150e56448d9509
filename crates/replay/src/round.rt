// A round of the program: what came is answered, and how the program goes on.
ghost use Rattle.std.specs.Prelude.{◌≡◌, ◌≤◌};
ghost use Rattle.wire_line.specs.Text.{Puts};
ghost use Rattle.replay.specs.Rounds.{cut_line};
ghost use Rattle.replay.specs.Place.{Finished, Rounded};

use crate::place::{Next, Place};
use model::{Answer, Refusal};
use replay_serve::calls::Stores;
use replay_serve::serve;
use wire_line::line;
use wire_record::record::Unread;

// Input that ends inside a record is malformed.
fn ending(text: &mut [u8; 65536], left: usize) -> usize
    ensures { Puts text.old 0 (cut_line left) text.new result × (result ≤ 65536) }
{
    if left == 0 {
        return 0;
    }
    let refused = Answer::Refused {
        why: Refusal::Malformed,
    };
    line::put_line(text, 0, refused, &[])
}

// The line that is due where the input has ended.
fn finish(place: Place, text: &mut [u8; 65536]) -> Place
    ensures { Finished place text.old text.new result }
{
    Place {
        next: Next::Stop,
        at: place.at,
        have: place.have,
        end: ending(text, place.have - place.at),
    }
}

// Answers records of the buffer. Where the program then reads, the bytes that are left go to the front.
fn answer_more(
    place: Place,
    buffer: &mut [u8; 65536],
    stores: &mut Stores,
    text: &mut [u8; 65536],
) -> Place
    ensures { Rounded Next.Answer place stores.old buffer.old stores.new buffer.new text.new result }
{
    let have = place.have;
    let reached = serve::serve(&buffer[..have], place.at, stores, text);
    let at = reached.at;
    let end = reached.end;
    match reached.found {
        Ok(()) => Place {
            next: Next::Answer,
            at,
            have,
            end,
        },
        Err(Unread::Incomplete) => {
            buffer.copy_within(at..have, 0);
            Place {
                next: Next::Read,
                at: 0,
                have: have - at,
                end,
            }
        }
        Err(Unread::Malformed) => Place {
            next: Next::Stop,
            at,
            have,
            end,
        },
    }
}

// One round. Nothing of the text may be due, as it is put anew.
pub fn round(
    place: Place,
    buffer: &mut [u8; 65536],
    stores: &mut Stores,
    text: &mut [u8; 65536],
) -> Place
    requires { place.end ≡ 0 }
    ensures { Rounded place.next place stores.old buffer.old stores.new buffer.new text.new result }
{
    if place.next == Next::End {
        return finish(place, text);
    }
    answer_more(place, buffer, stores, text)
}
