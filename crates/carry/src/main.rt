// Carries blocks through a bench picture: writes them in three packed slabs, reads them back, and says what moved.
#![tactic(auto)]

use bench::{Stripe, read_slab};
use format::Format;
use std::{env, fs};
use stripe::carry_stripe;

mod content;
mod stripe;

fn main(rt: HostRuntime) -> anyhow::Result<()> {
    run(&rt)
}

// With a file name as its argument, the slabs are written there.
fn run(rt: &HostRuntime) -> anyhow::Result<()> {
    let mut picture = Vec::new(rt.alloc());
    for number in 0..Format::Bench.stripes() {
        let mut before = read_slab(rt)?;
        let mut after = before.clone()?;
        let line = carry_stripe(Stripe { number }, &mut before, &mut after)?;
        println!(rt; "{line}")?;
        picture.extend_from_slice(&after.bytes)?;
    }
    if let Some(name) = env::args(rt)?.nth(1) {
        fs::write(rt, name.as_str(), picture.as_slice())?;
    }
    Ok(())
}
