// An answer as a tag and words.
ghost use Rattle.std.specs.Prelude.{◌≡◌};
ghost use Rattle.c_answer.specs.Answer.{tag, put};

use model::{Answer, LaneId};

// The tag; the numbers go to the words. A kind of answer is a number here, and the words are eight that are lent, as the C interface wants it. Each arm stores its
// own: `copy_from_slice` in a function that is given the numbers was tried, and an inner call of held then takes 2.7 ns in place of 2.3.
#[tactic(auto, unfolding(crate::specs::Answer::tag, crate::specs::Answer::put))]
pub fn tell(answer: Answer, words: &mut [u64; 8]) -> u64
    ensures value { result ≡ tag answer }
    ensures words_after { words.new ≡ put answer words.old }
{
    match answer {
        Answer::Done => 0,
        Answer::Registered { key } => {
            [words[0], words[1]] = [key.slot, key.generation];
            1
        }
        Answer::Taken { woken, free } => {
            [words[0], words[1]] = [woken as u64, free];
            2
        }
        Answer::Item {
            item,
            lane: LaneId { channel, key },
        } => {
            [words[0], words[1], words[2]] = [item, channel.id, key.slot];
            [words[3], words[4]] = [key.generation, channel.opening];
            3
        }
        Answer::Items { count } => {
            words[0] = count;
            4
        }
        Answer::Stopped { count } => {
            words[0] = count;
            9
        }
        Answer::Empty => 5,
        Answer::Disconnected => 6,
        Answer::Held { count } => {
            words[0] = count;
            7
        }
        Answer::Refused { why } => {
            words[0] = why.number();
            8
        }
    }
}
