// The field layer: every second row of the raster below.
ghost use Rattle.std.specs.Prelude.{◌≡◌};
ghost use Rattle.layer.specs.Field.{first_row, field_rows, field_shown, field_spot, in_other_field, field_inside, field_apart};

use crate::Layer;
use crate::part::Part;
use raster::Extent;

pub type Field<R> = Layer<R, FieldKind>;

#[derive(Clone, Copy, Debug, PartialEq, Eq)]
pub enum FieldKind {
    Top,
    Bottom,
}

impl FieldKind {
    // The row below that the field begins with: 0 of the top field, 1 of the bottom field.
    pub fn first_row(self) -> usize
        ensures { result ≡ first_row self }
    {
        match self {
            FieldKind::Top => 0,
            FieldKind::Bottom => 1,
        }
    }

    // The rows of this field of a raster of so many rows.
    pub fn rows_of(self, rows: usize) -> usize
        ensures { result ≡ field_rows self rows }
    {
        match self {
            FieldKind::Top => rows - rows / 2,
            FieldKind::Bottom => rows / 2,
        }
    }
}

impl Part for FieldKind {
    ghost shown = { field_shown };

    ghost spot = { field_spot };

    ghost beside = { in_other_field };

    ghost inside = { field_inside };

    ghost apart = { field_apart };

    fn shown(self, whole: Extent) -> Extent {
        Extent {
            rows: self.rows_of(whole.rows),
            words: whole.words,
        }
    }

    fn spot(self, row: usize, place: usize) -> (usize, usize) {
        (2 * row + self.first_row(), place)
    }
}
