// Damage stays where it falls: the law over runs of the calls.
#![tactic(auto)]

ghost use Rattle.damage.specs.Damage.{DamageStaysWhereItFalls};
ghost use Rattle.damage.specs.Worked.{WorkedRuns};

mod ties;

pub use ties::{
    close_in_run, deliver_in_run, gather_in_run, image_in_run, leave_in_run, open_in_run,
    place_in_run, seal_in_run, start_in_run, steps_make_a_run,
};

// The law, and runs that meet its premises, as a program has them by calling this. Nothing runs.
pub fn damage_stays_where_it_falls()
    ensures law { DamageStaysWhereItFalls }
    ensures worked { WorkedRuns }
{}
