//! What the modules of an application depend on.
ghost use Rattle.std.specs.Prelude.{◌<◌};

#[derive(Clone, Copy)]
pub(crate) enum Shape {
    Free,
    /// Each on the next.
    Chain,
    /// Also the last on the first.
    Cycle,
    /// All the others on the first.
    Star,
}

impl Shape {
    pub(crate) fn name(self) -> &'static str {
        match self {
            Shape::Free => "free",
            Shape::Chain => "chain",
            Shape::Cycle => "cycle",
            Shape::Star => "star",
        }
    }

    /// The module on which the one with this number depends, of so many.
    pub(crate) fn dependency(self, number: usize, count: usize) -> Option<usize>
        requires { number < count }
    {
        let has_next = number < count - 1;
        match self {
            Shape::Free => None,
            Shape::Chain if has_next => Some(number + 1),
            Shape::Chain => None,
            Shape::Cycle if has_next => Some(number + 1),
            Shape::Cycle => Some(0),
            Shape::Star if number == 0 => None,
            Shape::Star => Some(0),
        }
    }
}
