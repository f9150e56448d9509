// Writes document 01's line of an answer: its word, its numbers in decimal with a space before each, `stopped` of a batch that stopped, and a line end.
ghost use Rattle.std.specs.Prelude.{◌∷◌, [], ◌++◌, ◌≡◌, ◌+◌, ◌*◌, ◌<◌, ◌≤◌, length, take, drop};
ghost use Rattle.wire_line.specs.Text.{codes, last_digit, decimal, spaced, answer_text, longest, Puts};

use model::Answer;

// What the longest line takes: `longest`.
pub const LONGEST: usize = 5 + 65 * 21 + 8 + 1;

fn last_digit(n: u64) -> u8
    ensures { result ≡ last_digit n }
{
    b'0' + (n % 10) as u8
}

// Spells n in decimal at the end of the digits, and answers the place of the first.
fn spell(n: u64, digits: &mut [u8; 20]) -> usize
    requires { length digits.old ≡ 20 }
    ensures { (result < 20) × (length digits.new ≡ 20) × (drop result digits.new ≡ decimal n) }
{
    let mut at = 19;
    let mut left = n / 10;
    digits[19] = last_digit(n);
    while left > 0 {
        at -= 1;
        digits[at] = last_digit(left);
        left /= 10;
    }
    at
}

// Puts some bytes at a place, and answers the place after them. The text is lent and the place stands beside it, as a struct of both would hold a `&mut` (crate
// `queues`, module `header`).
fn put(text: &mut [u8], at: usize, bytes: &[u8]) -> usize
    requires { at + length bytes.now ≤ length text.old }
    ensures { Puts text.old at bytes.now text.new result }
{
    let end = at + bytes.len();
    text[at..end].copy_from_slice(bytes);
    end
}

// Puts a space and a number.
fn put_number(text: &mut [u8], at: usize, n: u64) -> usize
    requires { at + 21 ≤ length text.old }
    ensures puts { Puts text.old at (spaced (n ∷ [])) text.new result }
    ensures upper_bound { result ≤ at + 21 }
{
    let mut digits = [0u8; 20];
    let first = spell(n, &mut digits);
    let start = put(text, at, b" ");
    put(text, start, &digits[first..])
}

fn put_numbers(text: &mut [u8], at: usize, numbers: &[u64]) -> usize
    requires { at + 21 * length numbers.now ≤ length text.old }
    ensures puts { Puts text.old at (spaced numbers.now) text.new result }
    ensures upper_bound { result ≤ at + 21 * length numbers.now }
{
    let mut end = at;
    for n in numbers {
        end = put_number(text, end, *n);
    }
    end
}

// Puts a word, some numbers and a line end.
fn put_words(text: &mut [u8], at: usize, word: &[u8], numbers: &[u64]) -> usize
    requires { at + length word.now + 21 * length numbers.now + 1 ≤ length text.old }
    ensures puts { Puts text.old at (word.now ++ spaced numbers.now ++ codes "\n") text.new result }
    ensures upper_bound { result ≤ at + length word.now + 21 * length numbers.now + 1 }
{
    let start = put(text, at, word);
    let end = put_numbers(text, start, numbers);
    put(text, end, b"\n")
}

// Puts the line of a batch, which ends with a line end alone or with `stopped` before it.
fn put_items(text: &mut [u8], at: usize, count: u64, out: &[u64], ending: &[u8]) -> usize
    requires { (length out.now ≤ 64) × (length ending.now ≤ 9) × (at + longest ≤ length text.old) }
    ensures puts { Puts text.old at (codes "items" ++ spaced (count ∷ take count out.now) ++ ending.now) text.new result }
    ensures upper_bound { result ≤ at + longest }
{
    let start = put(text, at, b"items");
    let middle = put_number(text, start, count);
    let n = count.min(out.len() as u64) as usize;
    let end = put_numbers(text, middle, &out[..n]);
    put(text, end, ending)
}

// Puts the line of an answer at a place of the text, and answers the place after it.
#[tactic(auto, unfolding(model::specs::Answers::line, crate::specs::Text::spaced))]
pub fn put_line(text: &mut [u8], at: usize, answer: Answer, out: &[u64]) -> usize
    requires { (length out.now ≤ 64) × (at + longest ≤ length text.old) }
    ensures puts { Puts text.old at (answer_text answer out.now) text.new result }
    ensures upper_bound { result ≤ at + longest }
{
    match answer {
        Answer::Done => put(text, at, b"done\n"),
        Answer::Registered { key } => put_words(text, at, b"lane", &[key.slot, key.generation]),
        Answer::Taken { woken, free } => put_words(text, at, b"taken", &[woken as u64, free]),
        Answer::Item { item, lane } => put_words(
            text,
            at,
            b"item",
            &[item, lane.key.slot, lane.key.generation],
        ),
        Answer::Items { count } => put_items(text, at, count, out, b"\n"),
        Answer::Stopped { count } => put_items(text, at, count, out, b" stopped\n"),
        Answer::Empty => put(text, at, b"empty\n"),
        Answer::Disconnected => put(text, at, b"disconnected\n"),
        Answer::Held { count } => put_words(text, at, b"held", &[count]),
        Answer::Refused { why } => put_words(text, at, b"refused", &[why.number()]),
    }
}
