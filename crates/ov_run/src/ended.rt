//! How a run of the program ended.

ghost use Rattle.std.specs.Prelude.{◌≡◌, None};

use ov_line::Why;
use ov_model::Report;
use ov_script::Limit;

/// Why a run ended.
#[derive(Clone, Copy, Debug, PartialEq, Eq)]
pub enum Cause {
    /// The whole report was written.
    Fine,
    /// The words aren't those of a run. Nothing was read or written.
    Usage,
    /// The line of this number, from 1, is outside the grammar. Nothing was run or written.
    BadLine(u64),
    /// The script passed a limit. Nothing was run or written.
    Limit(Limit),
    /// A read failed. Nothing was run or written.
    ReadFault,
    /// A write failed: a part of the report's text was written.
    WriteFault,
    /// Want of memory: nothing was written, or a part of the report's text, from its front.
    Memory,
}

/// What a run gives back.
#[derive(Debug, Drop)]
pub struct Ended {
    pub cause: Cause,
    /// How many whole lines were taken and found good.
    pub read_lines: u64,
    /// The report, where the script was run to its end.
    pub report: Option<Report>,
    /// Why a line is outside the grammar, where one stopped the run.
    pub why: Option<Why>,
}

impl Ended {
    ghost use Rattle.ov_run.specs.Status.{status_of};

    /// The end of a run that ended before anything was read.
    pub fn unrun(cause: Cause) -> Ended
        ensures { result ≡ record { cause = cause; read_lines = 0; report = None; why = None } }
    {
        Ended {
            cause,
            read_lines: 0,
            report: None,
            why: None,
        }
    }

    /// The exit status of the program.
    pub fn status(&self) -> u8
        ensures { result ≡ status_of self.now.cause }
    {
        match self.cause {
            Cause::Fine => 0,
            Cause::Usage => 1,
            Cause::BadLine(_) => 2,
            Cause::Limit(_) => 3,
            Cause::ReadFault => 4,
            Cause::WriteFault => 5,
            Cause::Memory => 6,
        }
    }
}
