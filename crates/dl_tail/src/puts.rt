//! Numbers put after other bytes, low byte first.
ghost use Rattle.std.specs.Prelude.{◌≡◌, ◌++◌, OnOk};
ghost use Rattle.spec_log.specs.Bytes.{u8 as one, u16 as two, u32 as four};

use dl_entry::OutOfMemory;

pub fn put_u8(number: u8, out: &mut Vec<u8>) -> Result<(), OutOfMemory>
    ensures { OnOk result (out.new.items ≡ out.old.items ++ one number) }
{
    out.extend_from_slice(&number.to_le_bytes())?;
    Ok(())
}

pub fn put_u16(number: u16, out: &mut Vec<u8>) -> Result<(), OutOfMemory>
    ensures { OnOk result (out.new.items ≡ out.old.items ++ two number) }
{
    out.extend_from_slice(&number.to_le_bytes())?;
    Ok(())
}

pub fn put_u32(number: u32, out: &mut Vec<u8>) -> Result<(), OutOfMemory>
    ensures { OnOk result (out.new.items ≡ out.old.items ++ four number) }
{
    out.extend_from_slice(&number.to_le_bytes())?;
    Ok(())
}
