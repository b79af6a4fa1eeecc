// Carries records through a bench picture: places them in three packed slabs, reads them back, gathers them, and says what moved.
#![tactic(auto)]

use bench::{Slabs, StripeLine};
use gathering::gather_line;
use line::PictureLine;
use picture::carry_picture;
use std::{env, fs, io};

mod content;
mod gathering;
mod line;
mod picture;
mod placing;
mod reading;

fn main(rt: HostRuntime) -> anyhow::Result<()> {
    run(&rt)
}

fn run(rt: &HostRuntime) -> anyhow::Result<()> {
    let mut before = Slabs::read(rt)?;
    let mut after = before.clone()?;
    let carried = carry_picture(&mut before, &mut after)?;
    let picture = gather_line(&mut after)?;
    show(rt, &carried, picture)?;
    save(rt, &after)
}

fn show(rt: &HostRuntime, carried: &[StripeLine; 3], picture: PictureLine) -> io::Result<()> {
    for line in carried {
        rt.println(line)?;
    }
    rt.println(picture)
}

// With a file name as the argument, the slabs are written there.
fn save(rt: &HostRuntime, slabs: &Slabs) -> anyhow::Result<()> {
    if let Some(name) = env::args(rt)?.nth(1) {
        let mut bytes = Vec::new(rt.alloc());
        for slab in &slabs.stripes {
            bytes.extend_from_slice(&slab.bytes)?;
        }
        fs::write(rt, name.as_str(), bytes.as_slice())?;
    }
    Ok(())
}
