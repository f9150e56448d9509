// Standard input, in a buffer.
ghost use Rattle.std.specs.Prelude.{◌≡◌, IfOk, MatchResult};
ghost use Rattle.std.specs.Io.KnownBytes.{Consumes, Keeps, IsAtEnd};
ghost use Rattle.replay.specs.Place.{between, Fetched, Unfetched};

use crate::failure::Failure;
use crate::place::{Next, Place};
use std::io::Read;

// Reads, once, where the place asks for bytes: behind those that the buffer has.
pub fn fetch<R: Read>(
    place: Place,
    input: &mut R,
    buffer: &mut [u8; 65536],
) -> Result<Place, Failure>
    ensures fetched { MatchResult result (λ q. Fetched place buffer.old buffer.new q) (λ e. (e ≡ Failure.ReadFailed) × Unfetched place buffer.old buffer.new) }
    ensures bytes { MatchResult result
        (λ q. Consumes (R.remaining input.old) (R.remaining input.new) (between place.have q.have buffer.new))
        (λ _. Keeps (R.remaining input.old) (R.remaining input.new)) }
    ensures end { place.next ≡ Next.Read → IfOk result (λ q. q.next ≡ Next.End → IsAtEnd (R.remaining input.new)) }
{
    if place.next != Next::Read {
        return Ok(place);
    }
    let size = input
        .read(&mut buffer[place.have..])
        .map_err(|_| Failure::ReadFailed)?;
    let next = if size == 0 { Next::End } else { Next::Answer };
    Ok(Place {
        next,
        at: place.at,
        have: place.have + size,
        end: place.end,
    })
}
