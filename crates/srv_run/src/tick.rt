ghost use Rattle.std.specs.Prelude.{◌≡◌, ◌++◌, IfOk, OnOk, OnErr};
ghost use Rattle.cfg_types.specs.Jobs.{jobs_of};
ghost use Rattle.srv_store.specs.Stores.{AddsPrefix, with_all};
ghost use Rattle.srv_scrape.specs.Ticks as scrapes;
ghost use Rattle.srv_run.specs.Ticking.{left, ticked_as, tick_over};

use cfg_types::Config;
use op_base::{Labels, List, Moment, NoMemory};
use srv_rule::{FailedRule, RuleStates, next_round};
use srv_scrape::{Pages, scrape_all, tick_entries};
use srv_store::{Entry, Store};
use std::alloc::Global;

/// Scrapes everything at the moment and then runs all rules. Answers the label sets that the scrapes
/// gave, the states of rules that stand after it, the rules that failed, and the entries that were stored.
pub fn run_tick(
    alloc: Global,
    config: &Config,
    pages: &Pages,
    scraped: &List<Labels>,
    store: &mut Store,
    states: &RuleStates,
    t: Moment,
) -> Result<(List<Labels>, RuleStates, List<FailedRule>, List<Entry>), NoMemory>
    ensures ok { IfOk result (λ given. ticked_as store.old (left store.new given.0 given.1) given.2
        ≡ tick_over config.now pages.now (left store.old scraped.now states.now) t) }
    ensures added { IfOk result (λ given. store.new ≡ store.old ++ given.3) }
    ensures err { OnErr result (AddsPrefix store.old store.new
        (tick_over config.now pages.now (left store.old scraped.now states.now) t).memory.store) }
{
    let (given, mut added) = store_scrapes(alloc, config, pages, scraped, store, t)?;
    let (next, view, more) = next_round(alloc, &config.rules, store, states, t)?;
    added.append(more)?;
    Ok((given, next, view.failed, added))
}

// The entries of the scrapes of all jobs of the configuration.
fn scrape_jobs(
    alloc: Global,
    config: &Config,
    pages: &Pages,
    t: Moment,
) -> Result<List<Entry>, NoMemory>
    ensures { IfOk result (λ entries. entries ≡ scrapes.scraped_entries pages.now t (jobs_of config.now)) }
{
    scrape_all(alloc, config.jobs(), pages, t)
}

// Stores the entries of all scrapes with the staleness markers. Answers the label sets that are given now,
// and the entries that were stored.
fn store_scrapes(
    alloc: Global,
    config: &Config,
    pages: &Pages,
    before: &List<Labels>,
    store: &mut Store,
    t: Moment,
) -> Result<(List<Labels>, List<Entry>), NoMemory>
    ensures given { IfOk result (λ given. given.0
        ≡ scrapes.label_sets (scrapes.scraped_entries pages.now t (jobs_of config.now))) }
    ensures ok { OnOk result (store.new ≡ with_all store.old
        (scrapes.tick_entries t before.now (scrapes.scraped_entries pages.now t (jobs_of config.now)))) }
    ensures added { IfOk result (λ given. store.new ≡ store.old ++ given.1) }
    ensures err { OnErr result (AddsPrefix store.old store.new (with_all store.old
        (scrapes.tick_entries t before.now (scrapes.scraped_entries pages.now t (jobs_of config.now))))) }
{
    let scraped = scrape_jobs(alloc, config, pages, t)?;
    let (entries, given) = tick_entries(alloc, t, before, scraped)?;
    let added = store.add_all(entries)?;
    Ok((given, added))
}
