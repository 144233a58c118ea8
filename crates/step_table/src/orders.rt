ghost use Rattle.std.specs.Prelude.{◌≡◌};
ghost use Rattle.step_table.specs.Orders.{mark_rank as rank_of_mark, note_rank as rank_of_note, number_cmp};
ghost use Rattle.xfrac.specs.Order.{rank};

use crate::marks::{Mark, Note};
use std::cmp::Ordering;
use xfrac::{XFrac, parts};

fn mark_rank(mark: &Mark) -> u8
    ensures { result ≡ rank_of_mark mark.now }
{
    match mark {
        Mark::Overflow => 0,
        Mark::Irrational => 1,
        Mark::SameLabelset(_) => 2,
        Mark::DuplicateOneSide(_) => 3,
        Mark::ImplicitManyToOne(_) => 4,
        Mark::DuplicateResult(_) => 5,
        Mark::OutOfCalendar => 6,
    }
}

fn note_rank(note: &Note) -> u8
    ensures { result ≡ rank_of_note note.now }
{
    match note {
        Note::QuantileRange(_) => 0,
        Note::BadBucket(_) => 1,
        Note::NotCounter(_) => 2,
        Note::FixedBuckets => 3,
    }
}

fn number_rank(number: &XFrac) -> u8
    ensures { result ≡ rank number.now }
{
    match number {
        XFrac::NegInf => 0,
        XFrac::Fin(_) => 1,
        XFrac::PosInf => 2,
        XFrac::NaN => 3,
    }
}

/// The order of numbers inside notes: by kind, fractions by numerator and then by denominator. It is not the order of
/// their values.
fn cmp_numbers(a: &XFrac, b: &XFrac) -> Ordering
    ensures { result ≡ number_cmp a.now b.now }
{
    match (a, b) {
        (XFrac::Fin(x), XFrac::Fin(y)) => {
            let (n, d) = parts(x);
            let (m, e) = parts(y);
            n.cmp(&m).then(d.cmp(&e))
        }
        _ => number_rank(a).cmp(&number_rank(b)),
    }
}

impl PartialEq for Mark {
    ghost use Rattle.std.specs.Cmp.{partial_equiv_from_equiv};
    ghost use Rattle.std.specs.Cmp.{eq_by_cmp_equiv};
    ghost use Rattle.std.specs.Ordering.{eq_by_cmp};
    ghost use Rattle.step_table.specs.OrderLaws.{mark_cmp_total};
    ghost use Rattle.step_table.specs.Orders.{mark_cmp};

    ghost eq = { eq_by_cmp mark_cmp };

    ghost laws = { partial_equiv_from_equiv (eq_by_cmp_equiv mark_cmp_total) };

    fn eq(&self, other: &Mark) -> bool {
        self.cmp(other).is_eq()
    }
}

impl Eq for Mark {
    ghost use Rattle.std.specs.Cmp.{eq_by_cmp_equiv};
    ghost use Rattle.step_table.specs.OrderLaws.{mark_cmp_total};

    ghost laws = { eq_by_cmp_equiv mark_cmp_total };
}

impl PartialOrd for Mark {
    ghost use Rattle.std.proofs.Common.{refl};
    ghost use Rattle.std.specs.Cmp.{partial_order_from_agreeing_total};
    ghost use Rattle.std.specs.Ordering.{as_partial_cmp};
    ghost use Rattle.step_table.specs.OrderLaws.{mark_cmp_total};
    ghost use Rattle.step_table.specs.Orders.{mark_cmp};

    ghost partial_cmp = { as_partial_cmp mark_cmp };

    ghost laws = { partial_order_from_agreeing_total mark_cmp mark_cmp_total (λ a b. refl) (λ a b. refl) };

    fn partial_cmp(&self, other: &Mark) -> Option<Ordering> {
        Some(self.cmp(other))
    }
}

impl Ord for Mark {
    ghost use Rattle.std.proofs.Common.{refl};
    ghost use Rattle.step_table.specs.OrderLaws.{mark_cmp_total};
    ghost use Rattle.step_table.specs.Orders.{mark_cmp};

    ghost cmp = { mark_cmp };

    ghost total = { mark_cmp_total };

    ghost matches_partial_cmp = { λ a b. refl };

    ghost matches_eq = { λ a b. refl };

    fn cmp(&self, other: &Mark) -> Ordering {
        match (self, other) {
            (Mark::SameLabelset(a), Mark::SameLabelset(b)) => a.cmp(b),
            (Mark::DuplicateOneSide(a), Mark::DuplicateOneSide(b)) => a.cmp(b),
            (Mark::ImplicitManyToOne(a), Mark::ImplicitManyToOne(b)) => a.cmp(b),
            (Mark::DuplicateResult(a), Mark::DuplicateResult(b)) => a.cmp(b),
            _ => mark_rank(self).cmp(&mark_rank(other)),
        }
    }
}

impl PartialEq for Note {
    ghost use Rattle.std.specs.Cmp.{partial_equiv_from_equiv};
    ghost use Rattle.std.specs.Cmp.{eq_by_cmp_equiv};
    ghost use Rattle.std.specs.Ordering.{eq_by_cmp};
    ghost use Rattle.step_table.specs.OrderLaws.{note_cmp_total};
    ghost use Rattle.step_table.specs.Orders.{note_cmp};

    ghost eq = { eq_by_cmp note_cmp };

    ghost laws = { partial_equiv_from_equiv (eq_by_cmp_equiv note_cmp_total) };

    fn eq(&self, other: &Note) -> bool {
        self.cmp(other).is_eq()
    }
}

impl Eq for Note {
    ghost use Rattle.std.specs.Cmp.{eq_by_cmp_equiv};
    ghost use Rattle.step_table.specs.OrderLaws.{note_cmp_total};

    ghost laws = { eq_by_cmp_equiv note_cmp_total };
}

impl PartialOrd for Note {
    ghost use Rattle.std.proofs.Common.{refl};
    ghost use Rattle.std.specs.Cmp.{partial_order_from_agreeing_total};
    ghost use Rattle.std.specs.Ordering.{as_partial_cmp};
    ghost use Rattle.step_table.specs.OrderLaws.{note_cmp_total};
    ghost use Rattle.step_table.specs.Orders.{note_cmp};

    ghost partial_cmp = { as_partial_cmp note_cmp };

    ghost laws = { partial_order_from_agreeing_total note_cmp note_cmp_total (λ a b. refl) (λ a b. refl) };

    fn partial_cmp(&self, other: &Note) -> Option<Ordering> {
        Some(self.cmp(other))
    }
}

impl Ord for Note {
    ghost use Rattle.std.proofs.Common.{refl};
    ghost use Rattle.step_table.specs.OrderLaws.{note_cmp_total};
    ghost use Rattle.step_table.specs.Orders.{note_cmp};

    ghost cmp = { note_cmp };

    ghost total = { note_cmp_total };

    ghost matches_partial_cmp = { λ a b. refl };

    ghost matches_eq = { λ a b. refl };

    fn cmp(&self, other: &Note) -> Ordering {
        match (self, other) {
            (Note::QuantileRange(a), Note::QuantileRange(b)) => cmp_numbers(a, b),
            (Note::BadBucket(a), Note::BadBucket(b)) => a.cmp(b),
            (Note::NotCounter(a), Note::NotCounter(b)) => a.cmp(b),
            _ => note_rank(self).cmp(&note_rank(other)),
        }
    }
}
