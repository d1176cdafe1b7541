//! Relabelling and scraping of one thing by itself: a run prepares a job's steps for many.

ghost use Rattle.std.specs.Prelude.{IfOk};
ghost use Rattle.op_relabel.specs.Checks.{AllPass};

use crate::things::{is_so, label, text};
use cfg_types::{Job, StaticConfig};
use op_base::{List, Moment, NoMemory, Span, Tags};
use op_relabel::{CheckedSteps, Step, StepFault, relabel};
use srv_scrape::{Pages, Target, scrape};
use std::alloc::Global;

fn copying(alloc: Global) -> Result<List<Step>, NoMemory>
    ensures { IfOk result AllPass }
{
    let mut steps = List::new(alloc);
    steps.push(Step::copy_label(alloc, "a", "b")?)?;
    Ok(steps)
}

fn is_copied(alloc: Global) -> Result<bool, NoMemory> {
    match relabel(alloc, &copying(alloc)?, &label(alloc, "a", "x")?)? {
        Some(left) => Ok(left.get("b") == Some("x")),
        None => Ok(false),
    }
}

// Whether a step with that pattern is taken.
fn is_taken(alloc: Global, pattern: &str) -> Result<bool, NoMemory> {
    let mut step = Step::copy_label(alloc, "a", "b")?;
    step.pattern = text(alloc, pattern)?;
    let mut steps = CheckedSteps::new(alloc);
    match steps.push(alloc, step) {
        Ok(()) => Ok(true),
        Err(StepFault::NoMemory) => Err(NoMemory),
        Err(_) => Ok(false),
    }
}

fn job(alloc: Global) -> Result<Job, NoMemory> {
    Ok(Job {
        honor_labels: false,
        job_name: text(alloc, "j")?,
        metric_relabel_configs: CheckedSteps::new(alloc),
        metrics_path: text(alloc, "/metrics")?,
        relabel_configs: CheckedSteps::new(alloc),
        sample_limit: None,
        scheme: text(alloc, "http")?,
        scrape_interval: Span(30_000),
        scrape_timeout: Span(10_000),
        static_configs: StaticConfig {
            labels: Tags::new(alloc),
            targets: List::new(alloc),
        },
    })
}

/// Whether a scrape without a page gives one entry.
fn gives_up_alone(alloc: Global) -> Result<bool, NoMemory> {
    let target = Target {
        labels: label(alloc, "job", "j")?,
        url: text(alloc, "u")?,
    };
    Ok(scrape(alloc, &job(alloc)?, &target, &Pages::new(alloc), Moment(0))?.len() == 1)
}

#[test]
fn one_thing_is_relabelled_and_scraped(rt: HostRuntime) {
    assert!(rt; is_so(is_copied(rt.alloc())));
    assert!(rt; is_so(is_taken(rt.alloc(), "x.*")));
    assert!(rt; !is_so(is_taken(rt.alloc(), "(")), "no pattern");
    assert!(rt; is_so(gives_up_alone(rt.alloc())));
}
