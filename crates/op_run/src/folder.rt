ghost use Rattle.std.specs.Prelude.{◌≡◌, ◌≤◌, IfOk, IfErr, OnOk, OnErr};
ghost use Rattle.std.specs.Io.KnownBytes.{Appends};
ghost use Rattle.op_edges.specs.Causes.{Rose};
ghost use Rattle.op_edges.specs.Streams.{AppendsPrefix};
ghost use Rattle.op_report.specs.ReadBack.{report_bytes};
ghost use Rattle.tenant_world.specs.Runs.{run, left_by, next, said};
ghost use Rattle.op_run.specs.Worlds.{world};
ghost use Rattle.op_run.specs.Inputs.{file_event, file_events};
ghost use Rattle.op_run.specs.WellAnswered.{all_well};
ghost use Rattle.op_run.specs.Stops.{IsWriting};

use crate::files::NamedFile;
use crate::manifest::take_file;
use crate::reports::{both, write_report};
use crate::stop::Stop;
use op_base::NoMemory;
use op_edges::Sink;
use op_thin::Objects;
use srv_run::Server;
use std::alloc::Global;

/// Runs the events of the files: writes a line for each and keeps the objects that are taken.
/// Answers whether each report has good answers alone.
pub fn report_files<O: Sink>(
    alloc: Global,
    files: &[NamedFile],
    objects: &mut Objects,
    server: &mut Server,
    sink: &mut O,
) -> Result<bool, Stop>
    ensures lines { OnOk result (Appends (O.taken sink.old) (O.taken sink.new)
        (report_bytes (run (world objects.old server.old.served) (file_events files.now)))) }
    ensures world { OnOk result (world objects.new server.new.served
        ≡ left_by (world objects.old server.old.served) (file_events files.now)) }
    ensures good { IfOk result (λ good. good
        ≡ all_well (run (world objects.old server.old.served) (file_events files.now))) }
    ensures prefix { OnErr result (AppendsPrefix (O.taken sink.old) (O.taken sink.new)
        (report_bytes (run (world objects.old server.old.served) (file_events files.now)))) }
    ensures later { O.faults sink.old ≤ O.faults sink.new }
    ensures failed { IfErr result (λ stop. stop ≡ Stop.Output
        → Rose (O.faults sink.old) (O.faults sink.new)) }
    ensures kinds { IfErr result IsWriting }
{
    let mut good = true;
    for file in files {
        match report_file(alloc, file, objects, server, sink) {
            Ok(well) => good = both(good, well),
            Err(stop) => return Err(stop),
        }
    }
    Ok(good)
}

fn report_file<O: Sink>(
    alloc: Global,
    file: &NamedFile,
    objects: &mut Objects,
    server: &mut Server,
    sink: &mut O,
) -> Result<bool, Stop>
    ensures line { OnOk result (Appends (O.taken sink.old) (O.taken sink.new)
        (report_bytes (said (world objects.old server.old.served) (file_event file.now)))) }
    ensures world { OnOk result (world objects.new server.new.served
        ≡ next (world objects.old server.old.served) (file_event file.now)) }
    ensures good { IfOk result (λ good. good
        ≡ all_well (said (world objects.old server.old.served) (file_event file.now))) }
    ensures prefix { OnErr result (AppendsPrefix (O.taken sink.old) (O.taken sink.new)
        (report_bytes (said (world objects.old server.old.served) (file_event file.now)))) }
    ensures later { O.faults sink.old ≤ O.faults sink.new }
    ensures failed { IfErr result (λ stop. stop ≡ Stop.Output
        → Rose (O.faults sink.old) (O.faults sink.new)) }
    ensures kinds { IfErr result IsWriting }
{
    match take_file(alloc, file, objects, server) {
        Ok(report) => write_report(alloc, &report, sink),
        Err(NoMemory) => Err(Stop::Memory),
    }
}
