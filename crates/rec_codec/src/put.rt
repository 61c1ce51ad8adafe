//! The blocks of records as they are written: each is put behind what is there.
ghost use Rattle.std.specs.Prelude.{◌≡◌, ◌<◌, ◌^◌, ◌++◌, OnOk, length, None};
ghost use Rattle.byteorder.specs.Endian.{big_bytes};
ghost use Rattle.obj_model.specs.Names.{name_fault};
ghost use Rattle.rec_codec.specs.Spelling.{name, string};

use byteorder::{BigEndian, ByteOrder};
use obj_model::Name;
use std::alloc::AllocError;

/// Two bytes, the high one first.
pub fn put_u16(out: &mut Vec<u8>, number: u16) -> Result<(), AllocError>
    ensures { OnOk result (out.new.items ≡ out.old.items ++ big_bytes 2 number) }
{
    let mut bytes = [0u8; 2];
    BigEndian::write_u16(&mut bytes, number);
    out.extend_from_slice(&bytes)
}

/// Four bytes, the highest first.
pub fn put_u32(out: &mut Vec<u8>, number: u32) -> Result<(), AllocError>
    ensures { OnOk result (out.new.items ≡ out.old.items ++ big_bytes 4 number) }
{
    let mut bytes = [0u8; 4];
    BigEndian::write_u32(&mut bytes, number);
    out.extend_from_slice(&bytes)
}

/// Eight bytes, the highest first.
pub fn put_u64(out: &mut Vec<u8>, number: u64) -> Result<(), AllocError>
    ensures { OnOk result (out.new.items ≡ out.old.items ++ big_bytes 8 number) }
{
    let mut bytes = [0u8; 8];
    BigEndian::write_u64(&mut bytes, number);
    out.extend_from_slice(&bytes)
}

/// A name behind its length of one byte.
pub fn put_name(out: &mut Vec<u8>, text: &Name) -> Result<(), AllocError>
    ensures put { OnOk result (out.new.items ≡ out.old.items ++ name text.now) }
    ensures lawful { name_fault text.now ≡ None }
{
    let bytes = text.bytes();
    out.push(bytes.len() as u8)?;
    out.extend_from_slice(bytes)
}

/// Bytes behind their length of four bytes.
pub fn put_string(out: &mut Vec<u8>, bytes: &[u8]) -> Result<(), AllocError>
    requires { length bytes.now < 2 ^ 32 }
    ensures { OnOk result (out.new.items ≡ out.old.items ++ string bytes.now) }
{
    put_u32(out, bytes.len() as u32)?;
    out.extend_from_slice(bytes)
}
