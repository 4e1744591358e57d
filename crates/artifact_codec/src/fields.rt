ghost use Rattle.std.specs.Prelude.{◌≡◌, length};
ghost use Rattle.std.specs.Int.{w128, from_be_bytes};
ghost use Rattle.artifact_codec.specs.computed.Reading.{Reads, byte_at, number_at, signed_at, flag_at, entry_at, colour_at};

use crate::refusal::Malformed;
use sv_base::Colour;

// Each of these takes a value from the front of the bytes, and gives the bytes behind it.

pub(crate) fn byte_at(bytes: &[u8]) -> Result<(u8, &[u8]), Malformed>
    ensures { Reads (λ x. (x.0, x.1.now)) result (byte_at bytes.now) }
{
    match bytes {
        [] => Err(Malformed),
        [byte, rest @ ..] => Ok((*byte, rest)),
    }
}

#[tactic(auto, unfolding(crate::specs::computed::Reading::number_at))]
pub(crate) fn number_at(bytes: &[u8]) -> Result<(u32, &[u8]), Malformed>
    ensures { Reads (λ x. (x.0, x.1.now)) result (number_at bytes.now) }
{
    if bytes.len() < 4 {
        return Err(Malformed);
    }
    let (front, rest) = bytes.split_at(4);
    let number = u32::from_be_bytes([front[0], front[1], front[2], front[3]]);
    Ok((number, rest))
}

fn unsigned_of(front: &[u8]) -> u128
    requires { length front.now ≡ 16 }
    ensures { result ≡ from_be_bytes w128 front.now }
{
    let mut bytes = [0; 16];
    bytes.copy_from_slice(front);
    u128::from_be_bytes(bytes)
}

#[tactic(auto, unfolding(crate::specs::computed::Reading::signed_at))]
pub(crate) fn signed_at(bytes: &[u8]) -> Result<(i128, &[u8]), Malformed>
    ensures { Reads (λ x. (x.0, x.1.now)) result (signed_at bytes.now) }
{
    if bytes.len() < 16 {
        return Err(Malformed);
    }
    let (front, rest) = bytes.split_at(16);
    let number = unsigned_of(front).cast_signed();
    Ok((number, rest))
}

pub(crate) fn flag_at(bytes: &[u8]) -> Result<(bool, &[u8]), Malformed>
    ensures { Reads (λ x. (x.0, x.1.now)) result (flag_at bytes.now) }
{
    match bytes {
        [0, rest @ ..] => Ok((false, rest)),
        [1, rest @ ..] => Ok((true, rest)),
        _ => Err(Malformed),
    }
}

#[tactic(auto, unfolding(crate::specs::computed::Reading::entry_at))]
pub(crate) fn entry_at(bytes: &[u8]) -> Result<(Option<i128>, &[u8]), Malformed>
    ensures { Reads (λ x. (x.0, x.1.now)) result (entry_at bytes.now) }
{
    let (there, rest) = flag_at(bytes)?;
    if !there {
        return Ok((None, rest));
    }
    let (bound, rest) = signed_at(rest)?;
    Ok((Some(bound), rest))
}

pub(crate) fn colour_at(bytes: &[u8]) -> Result<(Colour, &[u8]), Malformed>
    ensures { Reads (λ x. (x.0, x.1.now)) result (colour_at bytes.now) }
{
    match bytes {
        [0, rest @ ..] => Ok((Colour::Unreachable, rest)),
        [1, rest @ ..] => Ok((Colour::Green, rest)),
        [2, rest @ ..] => Ok((Colour::Orange, rest)),
        [3, rest @ ..] => Ok((Colour::Red, rest)),
        _ => Err(Malformed),
    }
}
