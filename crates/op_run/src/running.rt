ghost use Rattle.std.specs.Prelude.{◌≡◌, ◌<◌, ◌≤◌, ◌+◌, ◌++◌, ◌∷◌, [], length, IfOk, IfErr, OnOk, OnErr};
ghost use Rattle.std.specs.Io.KnownBytes.{Appends};
ghost use Rattle.op_edges.specs.Causes.{Rose};
ghost use Rattle.op_edges.specs.Told.{Told};
ghost use Rattle.op_edges.specs.Streams.{AppendsPrefix};
ghost use Rattle.op_edges.specs.Lines.{most_bytes, shown_lines, newline};
ghost use Rattle.op_report.specs.ReadBack.{report_bytes};
ghost use Rattle.cfg_types.specs.Written.{config_text};
ghost use Rattle.op_thin.specs.Compiled.{config_of};
ghost use Rattle.tenant_world.specs.Runs.{run};
ghost use Rattle.op_run.specs.Inputs.{events_of};
ghost use Rattle.op_run.specs.InputRuns.{InputRan, RunCauses};
ghost use Rattle.op_run.specs.Lines.{all_said};
ghost use Rattle.op_run.specs.Outputs.{run_reports, run_text, run_text_after};
ghost use Rattle.op_run.specs.WellAnswered.{all_well};
ghost use Rattle.op_run.specs.Worlds.{world};

use crate::configuration::configuration;
use crate::files::NamedFile;
use crate::folder::report_files;
use crate::lines::run_lines;
use crate::reports::both;
use crate::stop::Stop;
use op_base::{List, NoMemory};
use op_edges::{Failed, Sink, Source, put_all};
use op_thin::Objects;
use srv_run::Server;
use std::alloc::Global;

/// Runs the files, and then the lines of the input over what was compiled: writes a line for each file
/// and what each line says to `out` as it goes, and the configuration of the objects present with a
/// newline as the last line. Answers whether each line has good answers alone.
pub fn run_files<S: Source, O: Sink>(
    alloc: Global,
    files: &[NamedFile],
    input: &mut S,
    out: &mut O,
) -> Result<bool, Stop>
    ensures text { Told (S.left input.old) (S.left input.new) (λ bytes after.
        OnOk result (Appends (O.taken out.old) (O.taken out.new) (run_text files.now bytes))) }
    ensures good { Told (S.left input.old) (S.left input.new) (λ bytes after.
        IfOk result (λ good. good ≡ all_well (run_reports files.now bytes))) }
    ensures stopped { Told (S.left input.old) (S.left input.new) (λ bytes after.
        OnErr result (AppendsPrefix (O.taken out.old) (O.taken out.new)
        (run_text files.now bytes))) }
    ensures read { Told (S.left input.old) (S.left input.new)
        (λ bytes after. OnOk result (length bytes ≤ most_bytes)) }
    ensures whole { Told (S.left input.old) (S.left input.new)
        (λ bytes after. OnOk result (after ≡ [])) }
    ensures limit { Told (S.left input.old) (S.left input.new) (λ bytes after.
        IfErr result (λ stop. stop ≡ Stop.Limit → most_bytes + length after < length bytes)) }
    ensures input { IfErr result (λ stop. stop ≡ Stop.Input
        → Rose (S.faults input.old) (S.faults input.new)) }
    ensures output { IfErr result (λ stop. stop ≡ Stop.Output
        → Rose (O.faults out.old) (O.faults out.new)) }
{
    files_and_input(alloc, files, input, out)
}

// The files, and then the lines of the input, with what was written of both in one.
fn files_and_input<S: Source, O: Sink>(
    alloc: Global,
    files: &[NamedFile],
    input: &mut S,
    out: &mut O,
) -> Result<bool, Stop>
    ensures ran { Told (S.left input.old) (S.left input.new) (λ bytes after.
        InputRan result (run_text files.now bytes) (all_well (run_reports files.now bytes))
        (O.taken out.old) (O.taken out.new) bytes after) }
    ensures causes { RunCauses result (S.faults input.old) (S.faults input.new)
        (O.faults out.old) (O.faults out.new) }
{
    match Server::new(alloc) {
        Ok(mut server) => {
            let objects = Objects::new(alloc);
            run_after(alloc, files, objects, &mut server, input, out)
        }
        Err(NoMemory) => Err(Stop::Memory),
    }
}

// The same, over objects and a server that stand already.
fn run_after<S: Source, O: Sink>(
    alloc: Global,
    files: &[NamedFile],
    objects: Objects,
    server: &mut Server,
    input: &mut S,
    out: &mut O,
) -> Result<bool, Stop>
    ensures ran { Told (S.left input.old) (S.left input.new) (λ bytes after. InputRan result
        (run_text_after (world objects server.old.served) files.now bytes)
        (all_well (run (world objects server.old.served) (events_of files.now bytes)))
        (O.taken out.old) (O.taken out.new) bytes after) }
    ensures causes { RunCauses result (S.faults input.old) (S.faults input.new)
        (O.faults out.old) (O.faults out.new) }
{
    let mut objects = objects;
    match report_files(alloc, files, &mut objects, server, out) {
        Ok(good) => match run_configured(alloc, objects, server, input, out) {
            Ok(well) => Ok(both(good, well)),
            Err(stop) => Err(stop),
        },
        Err(stop) => Err(stop),
    }
}

// The input's lines over the configuration of the objects, and then the configuration itself.
fn run_configured<S: Source, O: Sink>(
    alloc: Global,
    objects: Objects,
    server: &mut Server,
    input: &mut S,
    out: &mut O,
) -> Result<bool, Stop>
    ensures ran { Told (S.left input.old) (S.left input.new) (λ bytes after. InputRan result
        (report_bytes (all_said (config_of objects) server.old.served 0 (shown_lines bytes)) ++
        (config_text (config_of objects) ++ newline ∷ []))
        (all_well (all_said (config_of objects) server.old.served 0 (shown_lines bytes)))
        (O.taken out.old) (O.taken out.new) bytes after) }
    ensures causes { RunCauses result (S.faults input.old) (S.faults input.new)
        (O.faults out.old) (O.faults out.new) }
{
    match load(alloc, objects, server) {
        Ok(text) => run_loaded(alloc, server, text.as_slice(), input, out),
        Err(NoMemory) => Err(Stop::Memory),
    }
}

// Loads the configuration of the objects. Answers its text with a newline.
fn load(alloc: Global, objects: Objects, server: &mut Server) -> Result<List<u8>, NoMemory>
    ensures server { OnOk result (server.new ≡ record server.old { config = config_of objects }) }
    ensures text { IfOk result (λ text. text ≡ config_text (config_of objects) ++ newline ∷ []) }
{
    let (config, text) = configuration(alloc, objects)?;
    server.load(config)?;
    Ok(text)
}

// The input's lines over the configuration that the server runs, and then the text.
fn run_loaded<S: Source, O: Sink>(
    alloc: Global,
    server: &mut Server,
    text: &[u8],
    input: &mut S,
    out: &mut O,
) -> Result<bool, Stop>
    ensures ran { Told (S.left input.old) (S.left input.new) (λ bytes after. InputRan result
        (report_bytes (all_said server.old.config server.old.served 0 (shown_lines bytes)) ++ text.now)
        (all_well (all_said server.old.config server.old.served 0 (shown_lines bytes)))
        (O.taken out.old) (O.taken out.new) bytes after) }
    ensures causes { RunCauses result (S.faults input.old) (S.faults input.new)
        (O.faults out.old) (O.faults out.new) }
{
    match run_lines(alloc, input, server, out) {
        Ok(good) => match put_all(out, text) {
            Ok(()) => Ok(good),
            Err(Failed) => Err(Stop::Output),
        },
        Err(stop) => Err(stop),
    }
}
