// Reading a text off bits: its length, then its bytes.
ghost use Rattle.std.specs.Prelude.{◌≡◌, ◌+◌, ◌-◌, ◌*◌, ◌^◌, ◌<◌, ◌≤◌, true, length, take, drop, replicate, nat_le, IfOk};
ghost use Rattle.outputs.specs.TextReading.{Length, Octets, least_length};

use super::LONGEST;
use crate::source::{BitSource, Unread};

// The five bits of a length, at most 24.
pub fn read_length<B: BitSource>(source: &B, place: usize) -> Result<usize, Unread<B::Short>>
    ensures { Length (B.BitSource.all source.now) place (B.BitSource.lacks source.now place) result }
{
    match source.field(place, 5) {
        Ok(len) => {
            let len = len as usize;
            if len <= LONGEST {
                Ok(len)
            } else {
                Err(Unread::NoCode)
            }
        }
        Err(short) => {
            if begins_length(source, place) {
                Err(Unread::Cut(short))
            } else {
                Err(Unread::NoCode)
            }
        }
    }
}

// Whether the bits left, fewer than five, begin a length of at most 24, which is 11000.
fn begins_length<B: BitSource>(source: &B, place: usize) -> bool
    requires { length (B.BitSource.all source.now) < place + 5 }
    ensures { result ≡ nat_le (least_length (drop place (B.BitSource.all source.now))) 24 }
{
    match source.field(place, 4) {
        Ok(four) => four <= 12,
        Err(_) => match source.field(place, 3) {
            Ok(three) => three <= 6,
            Err(_) => true,
        },
    }
}

// So many bytes at a place, in front of zeros.
pub fn read_octets<B: BitSource>(source: &B, place: usize, len: usize) -> Result<[u8; 24], B::Short>
    requires { (len ≤ 24) × ((place ≤ length (B.BitSource.all source.now)) × (length (B.BitSource.all source.now) < 2 ^ 32)) }
    ensures read { Octets (B.BitSource.all source.now) place len (B.BitSource.lacks source.now place) result }
    ensures spare { IfOk result (λ bytes. drop len bytes ≡ replicate (24 - len) 0) }
{
    let mut bytes = [0; 24];
    for (i, byte) in bytes[..len].iter_mut().enumerate() {
        *byte = source.field(place + 8 * i, 8)? as u8;
    }
    Ok(bytes)
}
