// Surveys a bench picture: gathers its three packed slabs, and says what became of each stripe and of the image.
#![tactic(auto)]

use bench::Slabs;
use damage::damage_stays_where_it_falls;
use picture::survey_picture;

mod picture;
mod report;

fn main(rt: HostRuntime) -> anyhow::Result<()> {
    run(&rt)
}

fn run(rt: &HostRuntime) -> anyhow::Result<()> {
    damage_stays_where_it_falls();
    let mut slabs = Slabs::read(rt)?;
    let survey = survey_picture(&mut slabs)?;
    println!(rt; "{survey}")?;
    Ok(())
}
