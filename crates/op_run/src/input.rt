ghost use Rattle.std.specs.Prelude.{◌≡◌, ◌≤◌, ◌∷◌, [], IfOk, IfErr, OnOk, OnErr};
ghost use Rattle.std.specs.Io.KnownBytes.{Appends};
ghost use Rattle.op_edges.specs.Causes.{Rose};
ghost use Rattle.op_edges.specs.Streams.{AppendsPrefix};
ghost use Rattle.op_base.specs.Moments.{IsTick};
ghost use Rattle.op_report.specs.ReadBack.{AreNamed, report_bytes};
ghost use Rattle.tenant_world.specs.Runs as world;
ghost use Rattle.op_input.specs.Lines.{IsWithin};
ghost use Rattle.op_manifest.specs.Shapes.{rule_text};
ghost use Rattle.srv_run.specs.Served.{late, page_report, with_page};
ghost use Rattle.op_run.specs.Lines as spec;
ghost use Rattle.op_run.specs.WellAnswered.{all_well};
ghost use Rattle.op_run.specs.Stops.{IsWriting};

use crate::reports::write_reports;
use crate::stop::Stop;
use op_base::{List, Moment, NoMemory, Text};
use op_edges::{Line, Sink};
use op_input::{InputLine, is_blank, read_line};
use op_manifest::Shape;
use op_report::{Report, View};
use srv_run::{Event, EventFault, Server};
use srv_scrape::Sample;
use std::alloc::Global;

/// Says what the whole line of that number gives.
pub fn say_whole<O: Sink>(
    alloc: Global,
    number: u64,
    bytes: &[u8],
    server: &mut Server,
    sink: &mut O,
) -> Result<bool, Stop>
    ensures lines { OnOk result (Appends (O.taken sink.old) (O.taken sink.new)
        (report_bytes (spec.said_by server.old.config server.old.served number (Line.Whole bytes.now)))) }
    ensures good { IfOk result (λ good. good ≡ all_well
        (spec.said_by server.old.config server.old.served number (Line.Whole bytes.now))) }
    ensures served { OnOk result (server.new.served
        ≡ spec.served_by server.old.config server.old.served (Line.Whole bytes.now)) }
    ensures config { OnOk result (server.new.config ≡ server.old.config) }
    ensures prefix { OnErr result (AppendsPrefix (O.taken sink.old) (O.taken sink.new)
        (report_bytes (spec.said_by server.old.config server.old.served number (Line.Whole bytes.now)))) }
    ensures later { O.faults sink.old ≤ O.faults sink.new }
    ensures failed { IfErr result (λ stop. stop ≡ Stop.Output
        → Rose (O.faults sink.old) (O.faults sink.new)) }
    ensures kinds { IfErr result IsWriting }
{
    match take_line(alloc, number, bytes, server) {
        Ok(reports) => write_reports(alloc, reports.as_slice(), sink),
        Err(NoMemory) => Err(Stop::Memory),
    }
}

/// Says that the line of that number was too long.
pub fn say_long<O: Sink>(alloc: Global, number: u64, sink: &mut O) -> Result<bool, Stop>
    ensures lines { OnOk result (Appends (O.taken sink.old) (O.taken sink.new)
        (report_bytes (world.to_all (View.Long number) ∷ []))) }
    ensures good { IfOk result (λ good. good ≡ all_well (world.to_all (View.Long number) ∷ [])) }
    ensures prefix { OnErr result (AppendsPrefix (O.taken sink.old) (O.taken sink.new)
        (report_bytes (world.to_all (View.Long number) ∷ []))) }
    ensures later { O.faults sink.old ≤ O.faults sink.new }
    ensures failed { IfErr result (λ stop. stop ≡ Stop.Output
        → Rose (O.faults sink.old) (O.faults sink.new)) }
    ensures kinds { IfErr result IsWriting }
{
    match to_all(alloc, View::Long { line: number }) {
        Ok(reports) => write_reports(alloc, reports.as_slice(), sink),
        Err(NoMemory) => Err(Stop::Memory),
    }
}

// What is reported of the whole line of that number.
fn take_line(
    alloc: Global,
    number: u64,
    bytes: &[u8],
    server: &mut Server,
) -> Result<List<Report>, NoMemory>
    ensures reports { IfOk result (λ reports. reports
        ≡ spec.said_by server.old.config server.old.served number (Line.Whole bytes.now)) }
    ensures served { OnOk result (server.new.served
        ≡ spec.served_by server.old.config server.old.served (Line.Whole bytes.now)) }
    ensures config { OnOk result (server.new.config ≡ server.old.config) }
    ensures named { IfOk result AreNamed }
{
    if is_blank(bytes) {
        return Ok(List::new(alloc));
    }
    let line = read_line(alloc, bytes)?;
    take_input(alloc, number, line, server)
}

fn take_input(
    alloc: Global,
    number: u64,
    line: InputLine,
    server: &mut Server,
) -> Result<List<Report>, NoMemory>
    requires { IsWithin line }
    ensures reports { IfOk result (λ reports. reports
        ≡ world.line_said server.old.config server.old.served number line) }
    ensures served { OnOk result (server.new.served
        ≡ world.line_served server.old.config server.old.served line) }
    ensures config { OnOk result (server.new.config ≡ server.old.config) }
    ensures named { IfOk result AreNamed }
{
    match line {
        InputLine::Page { url, samples } => take_page(url, samples, server),
        InputLine::Tick(t) => take_tick(alloc, number, t, server),
        InputLine::NotYet => to_all(alloc, View::NotYetLine { line: number }),
        InputLine::Bad(shape) => bad_line(alloc, number, shape),
    }
}

fn take_page(
    url: Text,
    samples: Option<List<Sample>>,
    server: &mut Server,
) -> Result<List<Report>, NoMemory>
    ensures reports { IfOk result (λ reports. reports ≡ page_report url ∷ []) }
    ensures served { OnOk result (server.new.served ≡ with_page server.old.served url samples) }
    ensures config { OnOk result (server.new.config ≡ server.old.config) }
    ensures named { IfOk result AreNamed }
{
    match server.take(Event::Page(url, samples)) {
        Ok(reports) => Ok(reports),
        Err(EventFault::NoMemory) => Err(NoMemory),
        Err(EventFault::LateTick(_)) => unreachable!(),
    }
}

fn take_tick(
    alloc: Global,
    number: u64,
    t: Moment,
    server: &mut Server,
) -> Result<List<Report>, NoMemory>
    requires { IsTick t }
    ensures reports { IfOk result (λ reports. reports
        ≡ world.tick_said server.old.config server.old.served number t (late server.old.served.last t)) }
    ensures served { OnOk result (server.new.served
        ≡ world.tick_served server.old.config server.old.served t (late server.old.served.last t)) }
    ensures config { OnOk result (server.new.config ≡ server.old.config) }
    ensures named { IfOk result AreNamed }
{
    match server.take(Event::Tick(t)) {
        Ok(reports) => Ok(reports),
        Err(EventFault::LateTick(last)) => to_all(alloc, View::LateTick { last, line: number }),
        Err(EventFault::NoMemory) => Err(NoMemory),
    }
}

fn bad_line(alloc: Global, number: u64, shape: Shape) -> Result<List<Report>, NoMemory>
    ensures reports { IfOk result (λ reports. reports
        ≡ world.to_all (View.Bad (rule_text shape.rule) number shape.path) ∷ []) }
    ensures named { IfOk result AreNamed }
{
    let rule = shape.rule.text(alloc)?;
    to_all(
        alloc,
        View::Bad {
            rule,
            line: number,
            path: shape.path,
        },
    )
}

fn to_all(alloc: Global, view: View) -> Result<List<Report>, NoMemory>
    ensures reports { IfOk result (λ reports. reports ≡ world.to_all view ∷ []) }
    ensures named { IfOk result AreNamed }
{
    let mut reports = List::new(alloc);
    reports.push(Report { to: None, view })?;
    Ok(reports)
}
