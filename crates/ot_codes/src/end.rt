//! The end of a block of codes.

ghost use Rattle.std.specs.Prelude.{◌≡◌};
ghost use Rattle.ot_codes.specs.Ends.{MayMove, moved};

use crate::code::Sum;

/// How much the codes before the end of a block retain, delete and insert, and how many codes they are.
#[derive(Clone, Copy)]
pub(crate) struct End {
    pub sum: Sum,
    pub count: u32,
}

impl End {
    /// The end before which there is no code.
    pub(crate) const START: End = End {
        sum: Sum::ZERO,
        count: 0,
    };

    /// An end behind one, moved behind another.
    pub(crate) fn moved(self, from: End, to: End) -> End
        requires { MayMove from to self }
        ensures { result ≡ moved from to self }
    {
        End {
            sum: to.sum.plus(self.sum.minus(from.sum)),
            count: to.count + (self.count - from.count),
        }
    }
}
