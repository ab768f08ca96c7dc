// Numbers in keys.
ghost use Rattle.std.specs.Prelude.{◌≡◌, ◌++◌, ◌+◌, ◌-◌, length, map, OnErr, OnOk};
ghost use Rattle.aggregate.specs.Spelling.{NumbersInOrder, number_spelling};

use byteorder::{BigEndian, ByteOrder};
use std::alloc::AllocError;

/// Appends the spelling of a number in a key: 2^63 more, as 8 bytes, the greatest first, each byte
/// turned round where `down`. An `Err` changes nothing.
pub fn put_number(into: &mut Vec<u8>, v: i64, down: bool) -> Result<(), AllocError>
    ensures ok { OnOk result (into.new.items ≡ into.old.items ++ number_spelling v down) }
    ensures length { OnOk result (length into.new.items ≡ length into.old.items + 8) }
    ensures err { OnErr result (into.new.items ≡ into.old.items) }
{
    let mut bytes = [0; 8];
    write_spelling(&mut bytes, v, down);
    into.extend_from_slice(&bytes)
}

// Writes the 8 bytes of a number's spelling. With 2^63 more it is no longer below 0.
#[tactic(auto, unfolding(crate::specs::Spelling::number_spelling))]
fn write_spelling(into: &mut [u8], v: i64, down: bool)
    requires { length into.old ≡ 8 }
    ensures { into.new ≡ number_spelling v down }
{
    let raised = i128::from(v) + (1 << 63);
    BigEndian::write_u64(into, raised as u64);
    if down {
        turn_round(into);
    }
}

// Turns each byte round.
fn turn_round(bytes: &mut [u8])
    ensures { bytes.new ≡ map (λ b. 255 - b) bytes.old }
{
    for place in 0..bytes.len() {
        bytes[place] = 255 - bytes[place];
    }
}

/// Keys stand in the order of their numbers, turned round where these were put so.
pub fn numbers_in_order()
    ensures { NumbersInOrder }
{}
