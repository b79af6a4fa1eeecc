// The memory of slabs.
ghost use Rattle.std.specs.Prelude.{◌≡◌, IfOk, vec_len, map};

use crate::input::read_slab;
use std::alloc::AllocError;
use std::io;

// The memory of one slab: 28,800 bytes.
#[derive(Drop)]
pub struct Slab {
    pub bytes: Vec<u8>,
    ghost full: { vec_len bytes ≡ 28800 },
}

// By hand, since a type with a ghost field derives `Clone` only together with `Copy`.
impl Clone for Slab {
    ghost is_clone = { λ s t. t.bytes.items ≡ s.bytes.items };

    fn clone(&self) -> Result<Slab, AllocError> {
        Ok(Slab {
            bytes: self.bytes.clone()?,
        })
    }
}

// The slabs of a picture, one for each stripe.
#[derive(Drop)]
pub struct Slabs {
    pub stripes: [Slab; 3],
}

// By hand, so that it says in our words what a copy is.
impl Clone for Slabs {
    ghost is_clone = { λ s t. map (λ x. x.bytes.items) t.stripes ≡ map (λ x. x.bytes.items) s.stripes };

    fn clone(&self) -> Result<Slabs, AllocError> {
        let [first, second, third] = &self.stripes;
        Ok(Slabs {
            stripes: [first.clone()?, second.clone()?, third.clone()?],
        })
    }
}

impl Slabs {
    // The slabs of standard input.
    pub fn read(rt: &HostRuntime) -> io::Result<Slabs> {
        Ok(Slabs {
            stripes: [read_slab(rt)?, read_slab(rt)?, read_slab(rt)?],
        })
    }
}

// Three buffers of any lengths, of which none need be a slab.
#[derive(Drop)]
pub struct Buffers {
    pub first: Vec<u8>,
    pub second: Vec<u8>,
    pub third: Vec<u8>,
}

impl Buffers {
    // The same bytes in memory of their own.
    pub fn copy(&self) -> Result<Buffers, AllocError>
        ensures items { IfOk result (λ b. (b.first.items ≡ self.now.first.items) × (b.second.items ≡ self.now.second.items) × (b.third.items ≡ self.now.third.items)) }
        ensures len { IfOk result (λ b. (vec_len b.first ≡ vec_len self.now.first) × (vec_len b.second ≡ vec_len self.now.second) × (vec_len b.third ≡ vec_len self.now.third)) }
    {
        let first = copy_of(&self.first)?;
        let second = copy_of(&self.second)?;
        let third = copy_of(&self.third)?;
        Ok(Buffers {
            first,
            second,
            third,
        })
    }
}

fn copy_of(bytes: &Vec<u8>) -> Result<Vec<u8>, AllocError>
    ensures items { IfOk result (λ v. v.items ≡ bytes.now.items) }
    ensures len { IfOk result (λ v. vec_len v ≡ vec_len bytes.now) }
{
    bytes.clone()
}
