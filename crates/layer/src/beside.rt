// Layers beside each other over one raster.
ghost use Rattle.layer.specs.Neighbours.{WindowsApart, FieldsApart};

// Windows that share no place, and the two fields, leave each other alone: what a window or a field keeps (see `kept`) is all that the other
// shows. So the stripes of a picture may be windows of one raster. Nothing runs, callers learn it.
pub fn layers_apart()
    ensures windows { WindowsApart }
    ensures fields { FieldsApart }
{}
