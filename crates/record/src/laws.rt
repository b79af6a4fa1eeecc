// The laws of the layout.
ghost use Rattle.record.specs.Laws.{RowsFilled, DecodingUndoesEncoding, EncodingUndoesDecoding, SpeltOnce, Samples};

// Nothing runs, callers learn the laws.
pub(crate) fn layout_stands()
    ensures filled { RowsFilled }
    ensures undone { DecodingUndoesEncoding }
    ensures redone { EncodingUndoesDecoding }
    ensures once { SpeltOnce }
    ensures samples { Samples }
{}
