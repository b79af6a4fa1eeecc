// The laws of the formats.
ghost use Rattle.format.specs.Carriers.{EachCarried, SomeNoMore, LeftOfSets, LeftOfLists, Samples};
ghost use Rattle.format.specs.Formats.{Listed, Used};

// Every element of an image has its carriers, and outlasts the loss of fewer. Nothing runs, callers learn it.
pub fn every_element_has_its_carriers()
    ensures carried { EachCarried }
    ensures least { SomeNoMore }
    ensures sets { LeftOfSets }
    ensures lists { LeftOfLists }
    ensures samples { Samples }
{}

// The table has each format once.
pub(crate) fn table_is_whole()
    ensures listed { Listed }
    ensures used { Used }
{}
