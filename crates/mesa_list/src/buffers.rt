// Buffers that are filled anew.
ghost use Rattle.std.specs.Prelude.{◌≡◌, OnOk};

use std::alloc::AllocError;

/// Puts these bytes into a buffer, and takes out those that were there.
pub fn put_bytes(out: &mut Vec<u8>, bytes: &[u8]) -> Result<(), AllocError>
    ensures { OnOk result (out.new.items ≡ bytes.now) }
{
    out.clear();
    out.extend_from_slice(bytes)?;
    Ok(())
}
