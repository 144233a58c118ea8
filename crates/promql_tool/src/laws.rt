//! Laws of reports that users rely on. The functions do nothing: each stands for what its contract says.
ghost use Rattle.promql_tool.specs.Alike.{AskAlike};
ghost use Rattle.promql_tool.specs.Found.{Have};
ghost use Rattle.promql_tool.specs.Report.{IsReport};
ghost use Rattle.promql_tool.specs.Settled.{IsSettled};
ghost use Rattle.promql_tool.specs.Texts.{Report};
ghost use Rattle.std.specs.Prelude.{◌≡◌, ◌↔◌, ℕ, List, Option};
ghost use Rattle.tool_words.specs.Asked.{asked};

/// Words over files have one report, where each file that they name, the query, or the expression or plan that is printed comes to one
/// thing. It may come to two only because of a pattern of which it isn't told whether the crate `regex` takes it.
pub fn words_have_one_report()
    ensures { (boxes : ℕ) (words : List (List ℕ)) (files : List ℕ → Option (List ℕ)) → IsSettled (asked boxes words) files → (one other : Report) → IsReport boxes words (Have files) one → IsReport boxes words (Have files) other → one ≡ other }
{}

/// Words that ask for the same, but for batches of another size or other optimisers, have the same reports; only what `explain` prints
/// depends on the optimisers.
pub fn choices_leave_reports()
    ensures { (boxes : ℕ) (words others : List (List ℕ)) → AskAlike (asked boxes words) (asked boxes others) → (files : List ℕ → Option (List ℕ)) (report : Report) →
        IsReport boxes words (Have files) report ↔ IsReport boxes others (Have files) report }
{}
