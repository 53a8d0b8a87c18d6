// What the runs of a selection hand on: the calls have checked it.
ghost use Rattle.halves.specs.Bounded.{Bounded};

use crate::Selection;

#[derive(Clone, Copy)]
pub struct BoundedSelection {
    pub selection: Selection,
    pub ghost bounded: { Bounded selection },
}
