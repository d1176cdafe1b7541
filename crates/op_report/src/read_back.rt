ghost use Rattle.op_report.specs.ReadBack.{IsLastLine, IsReadBack};

/// Among the lines of reports with a JSON object's line behind them, those that begin with a
/// namespace and a TAB are what the reports say to that namespace.
pub fn reads_back()
    ensures { IsReadBack }
{}

/// The last line is the one behind the reports.
pub fn keeps_last_line()
    ensures { IsLastLine }
{}
