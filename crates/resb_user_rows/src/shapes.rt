//! Two records: a point, one of whose numbers has a default, and a shape, which has a point, parts
//! that are borrowed from the file, and a list of points that may be left out.
//! What is read of files as these is in `record_rows`.
ghost use Rattle.std.specs.Prelude.{codes, ◌∷◌, []};

use resb::binary::helpers::PairView;
use resb::fields::{Maybe, OrDefault, Record, Table};
use std::collections::BTreeMap;

/// A point, whose `y` is 0 where it is left out.
#[derive(Debug, Drop)]
pub(crate) struct Point {
    pub(crate) x: i32,
    pub(crate) y: i32,
}

/// The types of its fields.
pub(crate) type PointFields = (i32, OrDefault<i32>);

impl<'de> Record<'de, PointFields> for Point {
    ghost names = { codes "x" ∷ codes "y" ∷ [] };

    ghost made = { λ f. record { x = f.0; y = f.1.0 } };

    fn names() -> &'de [&'de str] {
        &["x", "y"]
    }

    fn made(fields: PointFields) -> Point {
        let (x, OrDefault(y)) = fields;
        Point { x, y }
    }
}

/// A shape.
#[derive(Drop)]
pub(crate) struct Shape<'a> {
    pub(crate) at: Point,
    pub(crate) pairs: PairView<'a>,
    pub(crate) sizes: BTreeMap<&'a str, i32>,
    pub(crate) more: Option<Vec<Table<Point, PointFields>>>,
}

/// The types of its fields.
pub(crate) type ShapeFields<'a> = (
    Table<Point, PointFields>,
    PairView<'a>,
    BTreeMap<&'a str, i32>,
    Maybe<Vec<Table<Point, PointFields>>>,
);

impl<'de> Record<'de, ShapeFields<'de>> for Shape<'de> {
    ghost names = { codes "at" ∷ codes "pairs" ∷ codes "sizes" ∷ codes "more" ∷ [] };

    ghost made = { λ f. record { at = f.0.0; pairs = f.1; sizes = f.2; more = f.3.0 } };

    fn names() -> &'de [&'de str] {
        &["at", "pairs", "sizes", "more"]
    }

    fn made(fields: ShapeFields<'de>) -> Shape<'de> {
        let (at, pairs, sizes, Maybe(more)) = fields;
        Shape {
            at: at.0,
            pairs,
            sizes,
            more,
        }
    }
}
