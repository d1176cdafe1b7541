ghost use Rattle.std.specs.Prelude.{◌≡◌, ◌+◌, ◌<◌, ◌^◌, true};
ghost use Rattle.op_edges.specs.Told.{Told};
ghost use Rattle.op_edges.specs.Lines.{shown_lines};
ghost use Rattle.op_report.specs.ReadBack.{report_bytes};
ghost use Rattle.op_run.specs.InputRuns.{InputRan, RunCauses};
ghost use Rattle.op_run.specs.LineRuns.{IfMore, LineRan, NextCauses, next_of_result};
ghost use Rattle.op_run.specs.Lines as spec;
ghost use Rattle.op_run.specs.WellAnswered.{all_well};

use crate::input::{say_long, say_whole};
use crate::reports::both;
use crate::stop::Stop;
use op_base::NoMemory;
use op_edges::{Line, LineReader, Sink, Source};
use srv_run::Server;
use std::alloc::Global;

/// Runs the lines of the source, writing what each says, to the source's end. Answers whether each
/// report has good answers alone.
pub fn run_lines<S: Source, O: Sink>(
    alloc: Global,
    source: &mut S,
    server: &mut Server,
    sink: &mut O,
) -> Result<bool, Stop>
    ensures ran { Told (S.left source.old) (S.left source.new) (λ before after.
        InputRan result
        (report_bytes (spec.all_said server.old.config server.old.served 0 (shown_lines before)))
        (all_well (spec.all_said server.old.config server.old.served 0 (shown_lines before)))
        (O.taken sink.old) (O.taken sink.new) before after) }
    ensures causes { RunCauses result (S.faults source.old) (S.faults source.new)
        (O.faults sink.old) (O.faults sink.new) }
{
    let mut reader = match LineReader::new(alloc) {
        Ok(reader) => reader,
        Err(NoMemory) => return Err(Stop::Memory),
    };
    let mut good = true;
    loop {
        match run_line(alloc, &mut reader, source, server, sink) {
            Next::More(well) => good = both(good, well),
            Next::Ends => return Ok(good),
            Next::Stops(stop) => return Err(stop),
        }
    }
}

/// What running one more line came to.
pub enum Next {
    /// The line was run; its reports have good answers alone, or not.
    More(bool),
    /// No line is left.
    Ends,
    Stops(Stop),
}

fn run_line<S: Source, O: Sink>(
    alloc: Global,
    reader: &mut LineReader,
    source: &mut S,
    server: &mut Server,
    sink: &mut O,
) -> Next
    requires { reader.old.going ≡ true }
    ensures ran { Told (S.left source.old) (S.left source.new) (λ before after.
        LineRan result server.old server.new reader.old reader.new
        (O.taken sink.old) (O.taken sink.new) before after) }
    ensures going { IfMore result (λ well. (reader.new.going ≡ true)
        × (server.new.config ≡ server.old.config)) }
    ensures counted { IfMore result (λ well. (reader.new.line ≡ reader.old.line + 1)
        × (reader.new.line < 2 ^ 64)) }
    ensures causes { NextCauses result (S.faults source.old) (S.faults source.new)
        (O.faults sink.old) (O.faults sink.new) }
{
    match reader.next(source) {
        Ok(Line::Whole(bytes)) => next_of(say_whole(
            alloc,
            reader.line(),
            bytes.as_slice(),
            server,
            sink,
        )),
        Ok(Line::Long) => next_of(say_long(alloc, reader.line(), sink)),
        Ok(Line::End) => Next::Ends,
        Ok(Line::Fault) => Next::Stops(Stop::Input),
        Ok(Line::Limit) => Next::Stops(Stop::Limit),
        Err(NoMemory) => Next::Stops(Stop::Memory),
    }
}

fn next_of(said: Result<bool, Stop>) -> Next
    ensures { result ≡ next_of_result said }
{
    match said {
        Ok(well) => Next::More(well),
        Err(stop) => Next::Stops(stop),
    }
}
