ghost use Rattle.frac_text.specs.Literals.{IsLiteral, IsScriptNumber};
ghost use Rattle.frac_text.specs.Readings.{literal_answer, script_answer};
ghost use Rattle.frac_text.specs.Spellings.{IsUnsigned, ends, is_plain, spelling};
ghost use Rattle.frac_text.specs.Times.{IsBeyond, IsNoTime, IsTaken, amount_of, is_negative, time_answer};
ghost use Rattle.std.specs.Prelude.{◌≡◌, ◌<◌, ◌≤◌, ◌*◌, ◌%◌, ◌^◌, ℕ, ◌↔◌, unsigned_abs, IsTrue, List, Ok, Err};
ghost use Rattle.ticks.specs.declared.Ms.{Ms};
ghost use Rattle.ticks.specs.Durations.{hundred_years};
ghost use Rattle.ticks.specs.Spellings.{spelling as duration_spelling};
ghost use Rattle.xfrac.specs.Fractions.{limit, with_sign};
ghost use Rattle.xfrac.specs.Laws.{IsNumber};
ghost use Rattle.xfrac.specs.declared.value.XFrac.{XFrac};

use crate::TimeRefusal;

/// A law, with nothing to run: a text is read as a time exactly where it spells that time, as one beyond the limits
/// exactly where it spells such a one, and as no time exactly where it spells none.
pub fn times_are_told()
    ensures taken { (text : List ℕ) (t : Ms) → (time_answer text ≡ Ok t) ↔ ((n : ℕ) × IsTaken (amount_of text) n × (t.0 ≡ with_sign (is_negative text) n)) }
    ensures beyond { (text : List ℕ) → (time_answer text ≡ Err TimeRefusal.OutOfRange) ↔ IsBeyond (amount_of text) }
    ensures bad { (text : List ℕ) → (time_answer text ≡ Err TimeRefusal.BadTime) ↔ IsNoTime (amount_of text) }
{}

/// A law, with nothing to run: a text is read as a number exactly where it spells that number, as a PromQL literal and in a
/// script.
pub fn numbers_are_told()
    ensures literal { (text : List ℕ) (v : XFrac) → (literal_answer text ≡ Ok v) ↔ IsLiteral text v }
    ensures script { (text : List ℕ) (v : XFrac) → (script_answer text ≡ Ok v) ↔ IsScriptNumber text v }
{}

/// A law, with nothing to run: the spelling of a duration of at most 100 years, of either sign, is read as that time.
pub fn durations_are_times()
    ensures { (d : Ms) → unsigned_abs d.0 ≤ hundred_years → time_answer (duration_spelling d.0) ≡ Ok d }
{}

/// A law, with nothing to run: a number whose spelling is no fraction is read as itself, in a script and, where it has no
/// sign, as a literal.
pub fn spellings_are_numbers()
    ensures script { (v : XFrac) → IsNumber v → IsTrue (is_plain v) → script_answer (spelling v) ≡ Ok v }
    ensures literal { (v : XFrac) → IsNumber v → IsTrue (is_plain v) → IsUnsigned v → literal_answer (spelling v) ≡ Ok v }
{}

/// A law, with nothing to run: where the long division of r by a denominator within the limit leaves nothing at any place, it
/// leaves nothing at the hundredth, so that a number is written as a decimal exactly where it is one.
pub fn decimals_end_by_the_hundredth()
    ensures { (r d k : ℕ) → 0 < d → d ≤ limit → r * 10 ^ k % d ≡ 0 → IsTrue (ends r d) }
{}
