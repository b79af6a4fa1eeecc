// The laws of reading.
ghost use Rattle.extractor.specs.Undoing.{ReadingUndoesPlacing};

// Reading undoes placing, and so does gathering, over any raster. Nothing runs, callers learn it.
pub fn reading_undoes_placing()
    ensures { ReadingUndoesPlacing }
{}
