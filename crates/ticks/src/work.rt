ghost use Rattle.std.specs.Prelude.{◌≡◌, ◌+◌};

use std::marker::Model;
use std::sync::ledger::{Blank, Book, Ledger, Share};

/// How much work was done: the samples that were given, the times that searches looked at, and the series that were
/// tested. It takes no bytes, counting takes no time, and no count ever falls.
#[derive(Drop)]
pub struct Work<W: Ledger> {
    book: Book<W>,
    fetched: Share<W>,
    probed: Share<W>,
    tested: Share<W>,
}

impl<W: Ledger> Model for Work<W> {
    ghost use Rattle.std.specs.Prelude.{◌<◌};
    ghost use Rattle.ticks.specs.Works.{Counts};

    ghost Value = { Counts };

    ghost view = { λ w. record { fetched = w.fetched.amount; probed = w.probed.amount; tested = w.tested.amount } };

    ghost invariant = { λ w. (0 < w.fetched.parts) × (0 < w.probed.parts) × (0 < w.tested.parts) };
}

impl<W: Ledger> Work<W> {
    /// No work, over a new ledger of three parts.
    pub fn new(blank: Blank) -> Work<W>
        requires name { blank.name ≡ W.name }
        requires parts { blank.parts ≡ W.parts }
        requires three { blank.parts ≡ 3 }
        ensures fetched { result.fetched ≡ 0 }
        ensures probed { result.probed ≡ 0 }
        ensures tested { result.tested ≡ 0 }
    {
        let (book, mut fetched) = blank.open::<W>();
        let probed = fetched.split_off(1, 0);
        let tested = fetched.split_off(1, 0);
        Work {
            book,
            fetched,
            probed,
            tested,
        }
    }

    /// Counts a sample that is given.
    pub fn fetch(&mut self)
        ensures fetched { self.new.fetched ≡ self.old.fetched + 1 }
        ensures probed { self.new.probed ≡ self.old.probed }
        ensures tested { self.new.tested ≡ self.old.tested }
    {
        self.book.add(&mut self.fetched, 1);
    }

    /// Counts a time that a search looks at.
    pub fn probe(&mut self)
        ensures fetched { self.new.fetched ≡ self.old.fetched }
        ensures probed { self.new.probed ≡ self.old.probed + 1 }
        ensures tested { self.new.tested ≡ self.old.tested }
    {
        self.book.add(&mut self.probed, 1);
    }

    /// Counts a series that is tested.
    pub fn test(&mut self)
        ensures fetched { self.new.fetched ≡ self.old.fetched }
        ensures probed { self.new.probed ≡ self.old.probed }
        ensures tested { self.new.tested ≡ self.old.tested + 1 }
    {
        self.book.add(&mut self.tested, 1);
    }
}
