//! Laws of the verdict that users rely on. The functions do nothing: each stands for what its contract says.
ghost use Rattle.promql_meaning.specs.declared.answer.Outcome.{Outcome};
ghost use Rattle.script_check.specs.Verdicts.{Holds, IsExpectedAnswer, IsUnmarked, KeepsPatterns, PatternList, verdict_of};
ghost use Rattle.script_check.specs.declared.verdict.Verdict.TheVariants.{Pass};
ghost use Rattle.script_read.specs.Outcomes.{GivesWith, then_give};
ghost use Rattle.script_read.specs.Reading.{reading};
ghost use Rattle.script_read.specs.Views.{script_seen};
ghost use Rattle.script_read.specs.declared.fault.ReadFault.{ReadFault};
ghost use Rattle.script_read.specs.declared.script.Expectations.{Expectations};
ghost use Rattle.script_read.specs.declared.script.Script.{Script};
ghost use Rattle.std.specs.Prelude.{◌≡◌, ◌↔◌, ℕ, Bool, false, List, Result, IfOk};

/// An evaluation passes exactly where each of its expectations holds.
pub fn passes_exactly_where_each_line_holds()
    ensures { (kept : PatternList) (e : Expectations) (instant : Bool) (o : Outcome) → (verdict_of kept e instant o ≡ Pass) ↔ Holds kept e instant o }
{}

/// An evaluation without lines `expect` passes exactly where its outcome is an answer, and that is a scalar that is near the
/// expected one, or has exactly the expected series, with near values at each step.
pub fn passes_exactly_where_series_agree()
    ensures { (kept : PatternList) (e : Expectations) (instant : Bool) (o : Outcome) → IsUnmarked e → (verdict_of kept e instant o ≡ Pass) ↔ IsExpectedAnswer instant e.result o }
{}

/// What passes in the order of the lines passes without that order.
pub fn ordered_pass_is_pass()
    ensures { (kept : PatternList) (e : Expectations) (instant : Bool) (o : Outcome) → verdict_of kept e instant o ≡ Pass → verdict_of kept (record e { ordered = false }) instant o ≡ Pass }
{}

/// Of a script that was read the patterns are kept that its lines name, which `judge` asks for.
pub fn scripts_keep_their_patterns()
    ensures { (r : Result Script ReadFault) (kept : PatternList) (bytes : List ℕ) → GivesWith (then_give r script_seen) kept (λ more. reading more bytes) → IfOk r (KeepsPatterns kept) }
{}
