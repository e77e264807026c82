//! What the passes of a shared table say of the report of all lanes.

ghost use Rattle.std.specs.Prelude.{ℕ, List};
ghost use Rattle.ov_model.specs.declared.line.Script.{Script};
ghost use Rattle.ov_model.specs.declared.report.Report.{Report};
ghost use Rattle.ov_model.specs.Legal.{Legal};
ghost use Rattle.ov_share.specs.Passings.{Passing};
ghost use Rattle.ov_lanes.specs.Threads.{LanesDone};

/// Where each lane answered all its lines by its pass's own steps alone, and the passes share one history, the report of all
/// lanes is legal for the script, in whatever order the lanes' steps fell.
pub fn together()
    ensures legal { (script : Script) (first : ℕ) (report : Report) (passes : List Passing) →
        LanesDone script first report passes → Legal script first report }
{}
