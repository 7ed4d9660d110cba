// How far the records of a table have come.

// The part of a table that the next record belongs to, at the earliest.
#[derive(Clone, Copy, PartialEq, Eq, Debug)]
pub enum Stage {
    Head,
    Actions,
    Steps,
    Errors,
    Closed,
}
