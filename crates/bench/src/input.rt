// Slabs out of standard input.
ghost use Rattle.std.specs.Prelude.{◌≡◌, is_ok, if◌then◌else◌, vec_len};
ghost use Rattle.bench.specs.Slab.{padded};

use crate::slabs::Slab;
use std::alloc::AllocError;
use std::io;
use std::io::Read;

const SLAB_BYTES: usize = 28800;

// The next slab of standard input.
pub fn read_slab(rt: &HostRuntime) -> io::Result<Slab> {
    let mut bytes = Vec::new(rt.alloc());
    rt.stdin().take(SLAB_BYTES as u64).read_to_end(&mut bytes)?;
    pad(&mut bytes)?;
    Ok(Slab { bytes })
}

// Makes a slab of bytes: those that are missing count as 0, and those past its end are left out.
pub fn pad(bytes: &mut Vec<u8>) -> Result<(), AllocError>
    ensures items { bytes.new.items ≡ (if is_ok result then padded 28800 bytes.old.items else bytes.old.items) }
    ensures len { vec_len bytes.new ≡ (if is_ok result then 28800 else vec_len bytes.old) }
{
    bytes.resize(SLAB_BYTES, 0)?;
    Ok(())
}
