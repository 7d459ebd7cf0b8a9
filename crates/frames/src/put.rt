// Putting the parts of a message at the front of an area, one after the other.
ghost use Rattle.std.specs.Prelude.{◌≡◌, Err, Ok, cond, length, nat_lt};
ghost use Rattle.frames.specs.Written.{answered, over, joined};
ghost use Rattle.frames.specs.declared.uplink.WriteFault.TheVariants.{NoRoom};

use crate::WriteFault;

// The octets of all parts, where there is room for them. Each part is taken from the room that is left, since a sum of
// lengths alone might not fit.
#[tactic(auto, using(crate::proofs::Chains::part_within))]
fn len_within(parts: &[&[u8]], room: usize) -> Result<usize, WriteFault>
    ensures value { result ≡ cond (nat_lt room (length (joined parts.now))) (Err NoRoom) (Ok (length (joined parts.now))) }
{
    let mut left = room;
    for part in parts {
        left = left.checked_sub(part.len()).ok_or(WriteFault::NoRoom)?;
    }
    Ok(room - left)
}

// Writes the parts and answers their length; every later octet stays as it was, and all do where there is no room.
#[tactic(auto, using(crate::proofs::Chains::part_within, crate::proofs::Chains::room_for))]
pub(crate) fn put(parts: &[&[u8]], area: &mut [u8]) -> Result<usize, WriteFault>
    ensures value { result ≡ answered (joined parts.now) area.old }
    ensures after { area.new ≡ over (joined parts.now) area.old }
{
    let len = len_within(parts, area.len())?;
    // Where a part stands is the sum of the lengths before it, which no index of the loop gives.
    let mut start = 0;
    for part in parts {
        let end = start + part.len();
        area[start..end].copy_from_slice(part);
        start = end;
    }
    Ok(len)
}
