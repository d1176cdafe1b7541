ghost use Rattle.std.specs.Prelude.{◌≡◌, ◌≤◌, ◌⊎◌, ◌++◌, ◌∷◌, [], IfOk, IfErr, OnOk, OnErr};
ghost use Rattle.std.specs.Io.KnownBytes.{Appends};
ghost use Rattle.op_edges.specs.Causes.{Rose};
ghost use Rattle.op_edges.specs.Streams.{AppendsPrefix};
ghost use Rattle.op_edges.specs.Lines.{newline};
ghost use Rattle.op_report.specs.ReadBack.{report_bytes};
ghost use Rattle.cfg_types.specs.Written.{config_text};
ghost use Rattle.op_thin.specs.Compiled.{config_of};
ghost use Rattle.tenant_world.specs.Runs.{run};
ghost use Rattle.op_run.specs.Inputs.{file_events};
ghost use Rattle.op_run.specs.Outputs.{reports_of, configuration_of, configuration_after};
ghost use Rattle.op_run.specs.Stops.{IsWriting};
ghost use Rattle.op_run.specs.WellAnswered.{all_well};
ghost use Rattle.op_run.specs.Worlds.{world};

use crate::configuration::configuration;
use crate::files::NamedFile;
use crate::folder::report_files;
use crate::stop::Stop;
use op_base::NoMemory;
use op_edges::{Failed, Sink, put_all};
use op_thin::Objects;
use srv_run::Server;
use std::alloc::Global;

/// Compiles the files: writes a line for each to `err`, and then the configuration of the objects
/// present with a newline to `out`. Answers whether each line has good answers alone.
pub fn compile_files<O: Sink, E: Sink>(
    alloc: Global,
    files: &[NamedFile],
    out: &mut O,
    err: &mut E,
) -> Result<bool, Stop>
    ensures lines { OnOk result (Appends (E.taken err.old) (E.taken err.new)
        (report_bytes (reports_of files.now))) }
    ensures configuration { OnOk result (Appends (O.taken out.old)
        (O.taken out.new) (configuration_of files.now)) }
    ensures good { IfOk result (λ good. good ≡ all_well (reports_of files.now)) }
    ensures stopped_lines { OnErr result (AppendsPrefix (E.taken err.old) (E.taken err.new)
        (report_bytes (reports_of files.now))) }
    ensures stopped_configuration { OnErr result (AppendsPrefix (O.taken out.old)
        (O.taken out.new) (configuration_of files.now)) }
    ensures order { (out.new ≡ out.old)
        ⊎ Appends (E.taken err.old) (E.taken err.new) (report_bytes (reports_of files.now)) }
    ensures failed { IfErr result (λ stop. stop ≡ Stop.Output
        → Rose (O.faults out.old) (O.faults out.new) ⊎ Rose (E.faults err.old) (E.faults err.new)) }
    ensures later { E.faults err.old ≤ E.faults err.new }
    ensures kinds { IfErr result IsWriting }
{
    match Server::new(alloc) {
        Ok(mut server) => {
            let objects = Objects::new(alloc);
            compile_after(alloc, files, objects, &mut server, out, err)
        }
        Err(NoMemory) => Err(Stop::Memory),
    }
}

// The same, over objects and a server that stand already.
fn compile_after<O: Sink, E: Sink>(
    alloc: Global,
    files: &[NamedFile],
    objects: Objects,
    server: &mut Server,
    out: &mut O,
    err: &mut E,
) -> Result<bool, Stop>
    ensures lines { OnOk result (Appends (E.taken err.old) (E.taken err.new)
        (report_bytes (run (world objects server.old.served) (file_events files.now)))) }
    ensures configuration { OnOk result (Appends (O.taken out.old) (O.taken out.new)
        (configuration_after (world objects server.old.served) files.now)) }
    ensures good { IfOk result (λ good. good
        ≡ all_well (run (world objects server.old.served) (file_events files.now))) }
    ensures stopped_lines { OnErr result (AppendsPrefix (E.taken err.old) (E.taken err.new)
        (report_bytes (run (world objects server.old.served) (file_events files.now)))) }
    ensures stopped_configuration { OnErr result (AppendsPrefix (O.taken out.old)
        (O.taken out.new) (configuration_after (world objects server.old.served) files.now)) }
    ensures order { (out.new ≡ out.old) ⊎ Appends (E.taken err.old) (E.taken err.new)
        (report_bytes (run (world objects server.old.served) (file_events files.now))) }
    ensures failed { IfErr result (λ stop. stop ≡ Stop.Output
        → Rose (O.faults out.old) (O.faults out.new) ⊎ Rose (E.faults err.old) (E.faults err.new)) }
    ensures later { E.faults err.old ≤ E.faults err.new }
    ensures kinds { IfErr result IsWriting }
{
    let mut objects = objects;
    match report_files(alloc, files, &mut objects, server, err) {
        Ok(good) => match write_configuration(alloc, objects, out) {
            Ok(()) => Ok(good),
            Err(stop) => Err(stop),
        },
        Err(stop) => Err(stop),
    }
}

fn write_configuration<O: Sink>(alloc: Global, objects: Objects, out: &mut O) -> Result<(), Stop>
    ensures ok { OnOk result (Appends (O.taken out.old) (O.taken out.new)
        (config_text (config_of objects) ++ newline ∷ [])) }
    ensures prefix { OnErr result (AppendsPrefix (O.taken out.old) (O.taken out.new)
        (config_text (config_of objects) ++ newline ∷ [])) }
    ensures failed { IfErr result (λ stop. stop ≡ Stop.Output
        → Rose (O.faults out.old) (O.faults out.new)) }
    ensures kinds { IfErr result IsWriting }
{
    match configuration(alloc, objects) {
        Ok((_, bytes)) => match put_all(out, bytes.as_slice()) {
            Ok(()) => Ok(()),
            Err(Failed) => Err(Stop::Output),
        },
        Err(NoMemory) => Err(Stop::Memory),
    }
}
