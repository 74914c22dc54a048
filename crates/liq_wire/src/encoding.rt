//! A command written to its bytes.
ghost use Rattle.std.specs.Prelude.{◌≡◌, ◌≤◌, ◌<◌, ◌^◌, ◌+◌, ◌++◌, Ok, length, take, drop};
ghost use Rattle.byteorder.specs.Endian.{big_bytes};
ghost use Rattle.liq_wire.specs.Fields.{HasHints, Spells96, command_of, heard};

use crate::fields::fields_of;
use byteorder::{BigEndian, ByteOrder};
use liq_types::Command;

/// The 96 bytes of a command, which are read back as that command. But a hint that is the greatest
/// word is written as that word, which is read as no hint.
pub fn encode(command: &Command) -> [u8; 96]
    ensures spelled { Spells96 result command.now }
    ensures read { command_of result ≡ Ok (record command.now { call = heard command.now.call }) }
    ensures back { HasHints command.now.call → command_of result ≡ Ok command.now }
{
    let fields = fields_of(command);
    let mut bytes = [0; 96];
    bytes[0] = fields.kind;
    put_u32(&mut bytes, 4, fields.client);
    put_u64(&mut bytes, 8, fields.number);
    put_u32(&mut bytes, 16, fields.account);
    put_u32(&mut bytes, 20, fields.other);
    put_u64(&mut bytes, 24, fields.amounts[0]);
    put_u64(&mut bytes, 32, fields.amounts[1]);
    put_u64(&mut bytes, 40, fields.amounts[2]);
    put_u64(&mut bytes, 48, fields.amounts[3]);
    put_u64(&mut bytes, 56, fields.amounts[4]);
    put_u32(&mut bytes, 64, fields.before);
    put_u32(&mut bytes, 68, fields.after);
    bytes
}

fn put_u32(bytes: &mut [u8], at: usize, n: u32)
    requires { at + 4 ≤ length bytes.old }
    ensures put { bytes.new ≡ take at bytes.old ++ big_bytes 4 n ++ drop (at + 4) bytes.old }
    ensures fits { n < 2 ^ 32 }
{
    let mut field = [0; 4];
    BigEndian::write_u32(&mut field, n);
    bytes[at..at + 4].copy_from_slice(&field);
}

fn put_u64(bytes: &mut [u8], at: usize, n: u64)
    requires { at + 8 ≤ length bytes.old }
    ensures put { bytes.new ≡ take at bytes.old ++ big_bytes 8 n ++ drop (at + 8) bytes.old }
    ensures fits { n < 2 ^ 64 }
{
    let mut field = [0; 8];
    BigEndian::write_u64(&mut field, n);
    bytes[at..at + 8].copy_from_slice(&field);
}
