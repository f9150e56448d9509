// Answers the records of a buffer, each on a line of the text.
ghost use Rattle.std.specs.Prelude.{◌≡◌, ◌+◌, ◌<◌, ◌≤◌, length};
ghost use Rattle.wire_line.specs.Text.{longest};
ghost use Rattle.replay_serve.specs.Serve.{Turned, Served};

use crate::calls::Stores;
use model::{Answer, Refusal};
use wire_line::line;
use wire_record::record;
use wire_record::record::Unread;

// Past this place the text has no room for one more line, whatever it is.
const FULL: usize = 65536 - line::LONGEST;

// Where a turn, or a run of them, left the input and the text; and whether a record stood at the place reached, and was answered.
#[derive(Clone, Copy)]
pub struct Reached {
    pub found: Result<(), Unread>,
    pub at: usize,
    pub end: usize,
}

// Answers the record at a place of the input. The text is lent, and its place stands beside it, as in crate `wire_line`.
fn turn(input: &[u8], at: usize, stores: &mut Stores, text: &mut [u8; 65536], end: usize) -> Reached
    requires { (at ≤ length input.now) × (end + longest ≤ 65536) }
    ensures { Turned input.now at end stores.old stores.new text.old text.new result }
{
    match record::parse(&input[at..]) {
        Ok(whole) => {
            let answer = stores.answer(whole.record);
            Reached {
                found: Ok(()),
                at: at + whole.size,
                end: line::put_line(text, end, answer, &stores.out),
            }
        }
        Err(Unread::Incomplete) => Reached {
            found: Err(Unread::Incomplete),
            at,
            end,
        },
        Err(Unread::Malformed) => {
            let refused = Answer::Refused {
                why: Refusal::Malformed,
            };
            Reached {
                found: Err(Unread::Malformed),
                at,
                end: line::put_line(text, end, refused, &stores.out),
            }
        }
    }
}

// Answers the records of the input from a place on, until one is incomplete or malformed or the text is nearly full.
pub fn serve(input: &[u8], from: usize, stores: &mut Stores, text: &mut [u8; 65536]) -> Reached
    requires { from ≤ length input.now }
    ensures served { Served input.now from stores.old stores.new text.old text.new result }
    ensures at_le_len { (result.at ≤ length input.now) × (result.end ≤ 65536) }
{
    let mut at = from;
    let mut end = 0;
    loop {
        let reached = turn(input, at, stores, text, end);
        if reached.found.is_err() || reached.end > FULL {
            return reached;
        }
        at = reached.at;
        end = reached.end;
    }
}
