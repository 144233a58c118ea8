//! Laws of rules that users rely on. The functions do nothing: each stands for what its contract says.
ghost use Rattle.step_rules.specs.NewLabels.{CountedLabelsAreWithin, JoinedLabelsAreWithin, ReplacedLabelsAreWithin, SetLabelsAreWithin};

/// Labels that label_replace, label_join and count_values make anew are those that they tell; there are none exactly where these
/// would pass a limit of labels.
pub fn new_labels_are_within()
    ensures set { SetLabelsAreWithin }
    ensures replaced { ReplacedLabelsAreWithin }
    ensures joined { JoinedLabelsAreWithin }
    ensures counted { CountedLabelsAreWithin }
{}
