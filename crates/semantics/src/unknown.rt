// Numbers that stand for nothing.

// A number that was to stand for one of several things, and stands for none.
#[derive(Clone, Copy, PartialEq, Eq, Debug)]
pub struct Unknown<N>(pub N);
