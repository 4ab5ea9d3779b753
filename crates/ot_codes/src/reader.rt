//! Reading codes one after the other, and never many at once.

ghost use Rattle.std.specs.Prelude.{◌≡◌, ◌<◌, length};
ghost use Rattle.ot_operation.specs.Run.{IsNormal};
ghost use Rattle.ot_codes.specs.Codes.{HasFirst, head_of, others_of, runs_of, without};

use crate::code::Code;
use crate::packed::Packed;
use std::marker::Model;

/// What is left of codes that lie side by side: a contract sees a list of codes, of which the first one may be what is left of a longer one.
#[derive(Drop)]
pub(crate) struct Reader<'a> {
    // the code at hand, or what is left of it; a retain of no elements at the end
    head: Packed,
    // the codes behind it
    behind: &'a [Packed],
}

impl<'a> Model for Reader<'a> {
    ghost use Rattle.std.specs.Prelude.{List};
    ghost use Rattle.ot_codes.specs.declared.code.Code.{Code};

    ghost Value = { List Code };

    ghost use Rattle.ot_codes.specs.Codes.{read_from};

    ghost view = { λ r. read_from r.head r.behind.now };
}

impl<'a> Reader<'a> {
    /// These codes from the first one on.
    #[inline(always)]
    pub(crate) fn new(codes: &'a [Packed]) -> Reader<'a>
        requires { IsNormal (runs_of codes.now) }
        ensures { result ≡ codes.now }
    {
        match codes {
            [head, behind @ ..] => Reader {
                head: *head,
                behind,
            },
            [] => Reader {
                head: Packed::NONE,
                behind: codes,
            },
        }
    }

    /// The code at hand; a retain of no elements at the end.
    #[inline(always)]
    pub(crate) fn head(&self) -> Code
        ensures { result ≡ head_of self.now }
    {
        self.head.code()
    }

    /// Goes past the code at hand.
    #[inline(always)]
    pub(crate) fn next(&mut self)
        requires some { 0 < length self.old }
        requires normal { IsNormal (runs_of self.old) }
        ensures { self.new ≡ others_of self.old }
    {
        *self = Reader::new(self.behind);
    }

    /// Goes past the first `count` elements of the code at hand.
    #[inline(always)]
    pub(crate) fn take(&mut self, count: u32)
        requires some { HasFirst count self.old }
        requires normal { IsNormal (runs_of self.old) }
        ensures { self.new ≡ without count self.old }
    {
        self.head = self.head.without(count);
        if self.head.len() == 0 {
            *self = Reader::new(self.behind);
        }
    }
}
