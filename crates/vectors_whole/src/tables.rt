// Answers about slots: a word for each step on a table of empty slots.
ghost use Rattle.std.specs.Prelude.{◌≡◌, length, nat_eq};
ghost use Rattle.slots.specs.Slots.{numbered, offered_at, same_state, state_of};
ghost use Rattle.vectors_whole.specs.States.{slots_in};

use crate::told::Told;
use anyhow::Context;
use cases::{Stop, Words, parsed};
use fault::Fault;
use slots::{Slot, State, Table, empty_slots};
use std::alloc::Global;
use std::fmt;
use std::fmt::Write;
use std::str::FromStr;

pub fn slots_case(heap: Global, case: &mut Words<'_>) -> Result<String, Stop> {
    let mut slots = empty_slots(heap, usize::from(case.take::<u16>()?))?;
    let mut table = Table::new(&mut slots);
    let mut line = String::from_str(heap, "slots")?;
    for word in case.rest() {
        let step: Step = parsed(word)?;
        let said = Told(step.on(&mut table));
        write!(line, " {said}")?;
    }
    Ok(line)
}

// An offer such as 5=70.
#[derive(Clone, Copy)]
pub struct Offer {
    at: usize,
    value: u32,
}

impl Offer {
    pub fn make(&self, table: &mut Table<'_, u32>) -> Result<(), Fault>
        ensures answer { result ≡ numbered (length table.old.slots.now) self.now.at tt }
        ensures slots { table.new.slots.now ≡ offered_at nat_eq table.old.slots.now self.now.at self.now.value }
        ensures name { table.new.slots.ghost_name ≡ table.old.slots.ghost_name }
    {
        table.offer(self.at, self.value)
    }
}

impl FromStr for Offer {
    type Err = anyhow::Error;

    fn from_str(word: &str) -> anyhow::Result<Offer> {
        let (at, value) = word.split_once('=').context("an offer of no value")?;
        Ok(Offer {
            at: parsed(at)?,
            value: parsed(value)?,
        })
    }
}

// What is printed of a value that a slot holds.
pub trait Shown {
    type Text: fmt::Display + Drop;

    fn shown(&self) -> Result<Self::Text, Fault>;
}

impl Shown for u32 {
    type Text = u32;

    fn shown(&self) -> Result<u32, Fault> {
        Ok(*self)
    }
}

// The slots that are not empty, each with its number.
pub fn add_slots<V: Shown>(line: &mut String, slots: &[Slot<V>]) -> Result<(), Stop> {
    for (at, slot) in slots.iter().enumerate() {
        match slot {
            Slot::Empty => {}
            Slot::Held(value) => {
                let text = value.shown()?;
                write!(line, " {at}={text}")?;
            }
            Slot::Disputed => write!(line, " {at}=*")?,
        }
    }
    Ok(())
}

// How many slots are held, disputed and empty.
#[derive(Clone, Copy)]
pub struct States {
    held: usize,
    disputed: usize,
    empty: usize,
}

impl States {
    pub fn of<V>(slots: &[Slot<V>]) -> States
        ensures held { result.held ≡ slots_in State.Held slots.now }
        ensures disputed { result.disputed ≡ slots_in State.Disputed slots.now }
        ensures empty { result.empty ≡ slots_in State.Empty slots.now }
    {
        States {
            held: count_in(slots, State::Held),
            disputed: count_in(slots, State::Disputed),
            empty: count_in(slots, State::Empty),
        }
    }
}

fn count_in<V>(slots: &[Slot<V>], state: State) -> usize
    ensures { result ≡ slots_in state slots.now }
{
    slots.iter().filter(|slot| is_in(slot, state)).count()
}

fn is_in<V>(slot: &Slot<V>, state: State) -> bool
    ensures { result ≡ same_state (state_of slot.now) state }
{
    slot.state() == state
}

impl fmt::Display for States {
    fn fmt<W: fmt::Write>(&self, f: &mut fmt::Formatter<W>) -> fmt::Result {
        let States {
            held,
            disputed,
            empty,
        } = self;
        write!(f, "{held} {disputed} {empty}")
    }
}

// What a word says to do with a table.
#[derive(Clone, Copy)]
enum Step {
    Clear,
    Search(State),
    Ask(usize),
    Offer(Offer),
}

impl FromStr for Step {
    type Err = anyhow::Error;

    fn from_str(word: &str) -> anyhow::Result<Step> {
        match word {
            "clear" => Ok(Step::Clear),
            "empty" => Ok(Step::Search(State::Empty)),
            "held" => Ok(Step::Search(State::Held)),
            "disputed" => Ok(Step::Search(State::Disputed)),
            _ if word.contains('=') => Ok(Step::Offer(parsed(word)?)),
            _ => Ok(Step::Ask(parsed(word)?)),
        }
    }
}

impl Step {
    fn on(&self, table: &mut Table<'_, u32>) -> Result<Said, Fault> {
        match self {
            Step::Clear => {
                table.clear();
                Ok(Said::Done)
            }
            Step::Search(state) => Ok(Said::Lowest(table.lowest(*state))),
            Step::Ask(at) => Ok(Said::Found(table.slot(*at)?)),
            Step::Offer(offer) => {
                offer.make(table)?;
                Ok(Said::Done)
            }
        }
    }
}

// What a step comes to.
#[derive(Drop)]
enum Said {
    Done,
    Lowest(Option<usize>),
    Found(Slot<u32>),
}

impl fmt::Display for Said {
    fn fmt<W: fmt::Write>(&self, f: &mut fmt::Formatter<W>) -> fmt::Result {
        match self {
            Said::Done => write!(f, "ok"),
            Said::Lowest(None) => write!(f, "none"),
            Said::Lowest(Some(at)) => write!(f, "{at}"),
            Said::Found(Slot::Empty) => write!(f, "-"),
            Said::Found(Slot::Held(value)) => write!(f, "{value}"),
            Said::Found(Slot::Disputed) => write!(f, "*"),
        }
    }
}
