//! What holds of every report. The function here does nothing: it is the place where the fact of
//! its contract is proved.

ghost use Rattle.std.specs.Prelude.{◌≡◌};
ghost use Rattle.liq_types.specs.State.{State};
ghost use Rattle.liq_types.specs.WellFormed.{IsWellFormed};
ghost use Rattle.liq_rule_step.specs.Image.{IsSameState};
ghost use Rattle.liq_report.specs.Report.{report_text};

/// States that the rules can reach have one report where their images and their counts of records
/// are equal, whatever led to them.
pub fn reports_follow_the_image()
    ensures { (s t : State) → IsWellFormed s → IsWellFormed t → IsSameState s t
        → report_text s ≡ report_text t }
{}
