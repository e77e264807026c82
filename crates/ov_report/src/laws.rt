//! What follows from the definitions alone. Each law is the contract of a function that does nothing.

ghost use Rattle.std.specs.Prelude.{◌≡◌, ◌↔◌, true, codes, Some};
ghost use Rattle.serde_json.specs.Data.{boolean};
ghost use Rattle.ov_model.specs.declared.report.Report.{Report};
ghost use Rattle.ov_model.specs.Keys.{KeysDiffer};
ghost use Rattle.ov_report.specs.Summary.{summary_data, told};

/// The summary that a report's text ends with says `true` under `keys-differ` exactly where no two keys
/// of the report's journal have the same sealing key and nonce tail.
pub fn keys_told()
    ensures differ { (report : Report) → (told (codes "keys-differ") (summary_data report) ≡ Some (boolean true)) ↔ KeysDiffer report.journal }
{}
