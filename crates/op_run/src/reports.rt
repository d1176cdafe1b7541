ghost use Rattle.std.specs.Prelude.{◌≡◌, ◌≤◌, ◌&&◌, true, IfSome, IfOk, IfErr, OnOk, OnErr};
ghost use Rattle.std.specs.Io.KnownBytes.{Appends};
ghost use Rattle.op_base.specs.Names.{is_namespace};
ghost use Rattle.op_edges.specs.Causes.{Rose};
ghost use Rattle.op_edges.specs.Streams.{AppendsPrefix};
ghost use Rattle.op_report.specs.Lines as lines;
ghost use Rattle.op_report.specs.ReadBack.{AreNamed, report_bytes};
ghost use Rattle.op_run.specs.WellAnswered.{is_well, all_well};
ghost use Rattle.op_run.specs.Stops.{IsWriting};

use crate::stop::Stop;
use op_base::NoMemory;
use op_edges::{Failed, Sink, put_all};
use op_report::{Report, answers_well, report_line};
use std::alloc::Global;

/// Writes the lines of the reports. Answers whether each has good answers alone.
pub fn write_reports<O: Sink>(alloc: Global, reports: &[Report], sink: &mut O) -> Result<bool, Stop>
    requires { AreNamed reports.now }
    ensures lines { OnOk result (Appends (O.taken sink.old) (O.taken sink.new)
        (report_bytes reports.now)) }
    ensures good { IfOk result (λ good. good ≡ all_well reports.now) }
    ensures prefix { OnErr result (AppendsPrefix (O.taken sink.old) (O.taken sink.new)
        (report_bytes reports.now)) }
    ensures later { O.faults sink.old ≤ O.faults sink.new }
    ensures failed { IfErr result (λ stop. stop ≡ Stop.Output
        → Rose (O.faults sink.old) (O.faults sink.new)) }
    ensures kinds { IfErr result IsWriting }
{
    let mut good = true;
    for report in reports {
        match write_report(alloc, report, sink) {
            Ok(well) => good = both(good, well),
            Err(stop) => return Err(stop),
        }
    }
    Ok(good)
}

/// Whether both hold.
pub fn both(first: bool, second: bool) -> bool
    ensures { result ≡ (first && second) }
{
    first && second
}

/// Writes the line of the report. Answers whether it has good answers alone.
pub fn write_report<O: Sink>(alloc: Global, report: &Report, sink: &mut O) -> Result<bool, Stop>
    requires { IfSome report.now.to (λ namespace. is_namespace namespace ≡ true) }
    ensures line { OnOk result (Appends (O.taken sink.old)
        (O.taken sink.new) (lines.report_line report.now)) }
    ensures good { IfOk result (λ good. good ≡ is_well report.now) }
    ensures prefix { OnErr result (AppendsPrefix (O.taken sink.old)
        (O.taken sink.new) (lines.report_line report.now)) }
    ensures later { O.faults sink.old ≤ O.faults sink.new }
    ensures failed { IfErr result (λ stop. stop ≡ Stop.Output
        → Rose (O.faults sink.old) (O.faults sink.new)) }
    ensures kinds { IfErr result IsWriting }
{
    let line = match report_line(alloc, report) {
        Ok(line) => line,
        Err(NoMemory) => return Err(Stop::Memory),
    };
    match put_all(sink, line.as_slice()) {
        Ok(()) => Ok(answers_well(&report.view)),
        Err(Failed) => Err(Stop::Output),
    }
}
