ghost use Rattle.std.specs.Prelude.{◌≡◌, ◌++◌, IfOk, OnOk};
ghost use Rattle.srv_scrape.specs.Pages.{page_at};
ghost use Rattle.srv_scrape.specs.Scraped.{scraped};
ghost use Rattle.srv_scrape.specs.Ticks as spec;

use crate::discovery::targets;
use crate::pages::Pages;
use crate::scraping::{Manner, manner_of, scrape_by};
use crate::target::Target;
use cfg_types::Job;
use op_base::{List, Moment, NoMemory};
use srv_store::Entry;
use std::alloc::Global;

/// The entries of all scrapes of a tick, job after job, and of each job target after target.
pub fn scrape_all(
    alloc: Global,
    jobs: &[Job],
    pages: &Pages,
    t: Moment,
) -> Result<List<Entry>, NoMemory>
    ensures { IfOk result (λ entries. entries ≡ spec.scraped_entries pages.now t jobs.now) }
{
    let mut entries = List::new(alloc);
    push_jobs(alloc, &mut entries, jobs, pages, t)?;
    Ok(entries)
}

fn push_jobs(
    alloc: Global,
    entries: &mut List<Entry>,
    jobs: &[Job],
    pages: &Pages,
    t: Moment,
) -> Result<(), NoMemory>
    ensures { OnOk result (entries.new ≡ entries.old ++ spec.scraped_entries pages.now t jobs.now) }
{
    for job in jobs {
        push_job(alloc, entries, job, pages, t)?;
    }
    Ok(())
}

fn push_job(
    alloc: Global,
    entries: &mut List<Entry>,
    job: &Job,
    pages: &Pages,
    t: Moment,
) -> Result<(), NoMemory>
    ensures { OnOk result (entries.new ≡ entries.old ++ spec.job_entries pages.now t job.now) }
{
    let targets = targets(alloc, job)?;
    let manner = manner_of(alloc, job)?;
    push_scrapes(alloc, entries, &manner, targets.as_slice(), pages, t)
}

fn push_scrapes(
    alloc: Global,
    entries: &mut List<Entry>,
    manner: &Manner,
    targets: &[Target],
    pages: &Pages,
    t: Moment,
) -> Result<(), NoMemory>
    ensures { OnOk result (entries.new ≡ entries.old ++ spec.target_entries pages.now t manner.now targets.now) }
{
    for target in targets {
        push_scrape(alloc, entries, manner, target, pages, t)?;
    }
    Ok(())
}

fn push_scrape(
    alloc: Global,
    entries: &mut List<Entry>,
    manner: &Manner,
    target: &Target,
    pages: &Pages,
    t: Moment,
) -> Result<(), NoMemory>
    ensures { OnOk result (entries.new ≡ entries.old
        ++ scraped manner.now target.now (page_at pages.now target.now.url) t) }
{
    let scraped = scrape_by(alloc, manner, target, pages, t)?;
    entries.append(scraped)
}
