//! The law of reports. Its function does nothing, and the contract of the function is the law.
ghost use Rattle.cli_report.specs.Laws.{RefusalsAreTold};

/// Does nothing. Its contract says that each refusal has a report with a sentence, and that the place in the report is
/// within the file.
pub fn refusals_are_told()
    ensures { RefusalsAreTold }
{}
