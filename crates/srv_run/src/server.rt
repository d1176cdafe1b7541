ghost use Rattle.std.specs.Prelude.{◌≡◌, [], ◌∷◌, true, Some, None, IfOk, IfErr, OnOk, OnErr};
ghost use Rattle.op_report.specs.ReadBack.{AreNamed};
ghost use Rattle.op_base.specs.Names.{is_namespace};
ghost use Rattle.op_base.specs.Moments.{IsTick};
ghost use Rattle.srv_run.specs.Served as spec;

use crate::event::{Event, EventFault};
use crate::loading::read_patterns;
use crate::reports::tick_reports;
use crate::tick::run_tick;
use cfg_types::Config;
use op_base::{Labels, List, Moment, NoMemory, Table, Text};
use op_report::{Report, View};
use srv_rule::RuleStates;
use srv_scrape::{Pages, Sample};
use srv_store::Store;
use std::alloc::Global;
use std::marker::Model;

/// A server: the configuration that was loaded last, and what it keeps of the events before.
/// Contracts see both. Each namespace that it knows is well formed, and its last tick is from 0 to
/// 2^53. It keeps its allocator.
#[derive(Drop)]
pub struct Server {
    alloc: Global,
    config: Config,
    pages: Pages,
    known: Table<()>,
    store: Store,
    scraped: List<Labels>,
    states: RuleStates,
    last: Option<Moment>,
}

impl Model for Server {
    ghost use Rattle.std.specs.Coded.{codes};
    ghost use Rattle.std.specs.Prelude.{IfSome};
    ghost use Rattle.ql_tree.specs.contracts.tree.Expr as expr;
    ghost use Rattle.op_base.specs.Moments.{IsTick};
    ghost use Rattle.srv_run.specs.Served.{Serving, AreKnown};

    ghost Value = { Serving };

    ghost coded = { Prim.hlevel (codes, expr.the_row.coded) };

    ghost view = { λ server. record {
      config = server.config;
      served = record {
        pages = server.pages;
        known = server.known;
        memory = record { store = server.store; scraped = server.scraped; states = server.states };
        last = server.last;
      };
    } };

    ghost invariant = { λ server. AreKnown server.known × IfSome server.last IsTick };
}

impl Server {
    /// A server that was told nothing, with a configuration of no jobs and no rules.
    pub fn new(alloc: Global) -> Result<Server, NoMemory>
        ensures { IfOk result (λ server. server ≡ spec.new_serving) }
    {
        Ok(Server {
            alloc,
            config: no_config(alloc),
            pages: Pages::new(alloc),
            known: Table::new(alloc),
            store: Store::new(alloc),
            scraped: List::new(alloc),
            states: RuleStates::new(alloc),
            last: None,
        })
    }

    /// Loads the configuration in place of the one before; all else stays. The patterns of its rules are
    /// read here, and not at each tick.
    pub fn load(&mut self, config: Config) -> Result<(), NoMemory>
        ensures ok { OnOk result (self.new ≡ record self.old { config = config }) }
        ensures err { OnErr result (self.new ≡ self.old) }
    {
        read_patterns(config.rules.as_slice(), &mut self.store)?;
        self.config = config;
        Ok(())
    }

    /// Takes an event, and says what it gives. A tick that isn't above the last one is late, and
    /// changes nothing. After want of memory a part of a tick's entries may be stored.
    pub fn take(&mut self, event: Event) -> Result<List<Report>, EventFault>
        requires { spec.IsFit event }
        ensures reports { IfOk result (λ reports. reports
            ≡ spec.reports_of self.old.config self.old.served event) }
        ensures served { OnOk result (self.new
            ≡ record self.old { served = spec.served_after self.old.config self.old.served event }) }
        ensures named { IfOk result AreNamed }
        ensures early { OnOk result (spec.late_event self.old.served event ≡ None) }
        ensures late { IfErr result (λ fault. (last : _) → fault ≡ EventFault.LateTick last
            → spec.late_event self.old.served event ≡ Some last) }
        ensures late_leaves { IfErr result (λ fault. (last : _) → fault ≡ EventFault.LateTick last
            → self.new ≡ self.old) }
        ensures cut_off { OnErr result (spec.IsCutOff self.old self.new
            (spec.served_after self.old.config self.old.served event)) }
    {
        match event {
            Event::Known(namespace) => Ok(self.know(namespace)?),
            Event::Page(url, samples) => Ok(self.take_page(url, samples)?),
            Event::Tick(t) => self.tick(t),
        }
    }

    /// As [`Server::take`], of a copy of the event.
    pub fn event(&mut self, event: &Event) -> Result<List<Report>, EventFault>
        requires { spec.IsFit event.now }
        ensures reports { IfOk result (λ reports. reports
            ≡ spec.reports_of self.old.config self.old.served event.now) }
        ensures served { OnOk result (self.new
            ≡ record self.old { served = spec.served_after self.old.config self.old.served event.now }) }
        ensures named { IfOk result AreNamed }
        ensures early { OnOk result (spec.late_event self.old.served event.now ≡ None) }
        ensures late { IfErr result (λ fault. (last : _) → fault ≡ EventFault.LateTick last
            → spec.late_event self.old.served event.now ≡ Some last) }
        ensures late_leaves { IfErr result (λ fault. (last : _) → fault ≡ EventFault.LateTick last
            → self.new ≡ self.old) }
        ensures cut_off { OnErr result (spec.IsCutOff self.old self.new
            (spec.served_after self.old.config self.old.served event.now)) }
    {
        match event {
            Event::Known(namespace) => Ok(self.know_copy(namespace)?),
            Event::Page(url, samples) => Ok(self.copy_page(url, samples)?),
            Event::Tick(t) => self.tick(*t),
        }
    }

    fn know(&mut self, namespace: Text) -> Result<List<Report>, NoMemory>
        requires { is_namespace namespace ≡ true }
        ensures reports { IfOk result (λ reports. reports ≡ []) }
        ensures served { OnOk result (self.new
            ≡ record self.old { served = spec.with_known self.old.served namespace }) }
        ensures err { OnErr result (self.new ≡ self.old) }
    {
        self.known.insert(namespace, ())?;
        Ok(List::new(self.alloc))
    }

    fn know_copy(&mut self, namespace: &Text) -> Result<List<Report>, NoMemory>
        requires { is_namespace namespace.now ≡ true }
        ensures reports { IfOk result (λ reports. reports ≡ []) }
        ensures served { OnOk result (self.new
            ≡ record self.old { served = spec.with_known self.old.served namespace.now }) }
        ensures err { OnErr result (self.new ≡ self.old) }
    {
        let namespace = namespace.clone()?;
        self.know(namespace)
    }

    fn take_page(
        &mut self,
        url: Text,
        samples: Option<List<Sample>>,
    ) -> Result<List<Report>, NoMemory>
        ensures reports { IfOk result (λ reports. reports ≡ spec.page_report url ∷ []) }
        ensures served { OnOk result (self.new
            ≡ record self.old { served = spec.with_page self.old.served url samples }) }
        ensures err { OnErr result (self.new ≡ self.old) }
    {
        let reports = page_reports(self.alloc, &url)?;
        self.pages.set(url.as_str(), samples)?;
        Ok(reports)
    }

    fn copy_page(
        &mut self,
        url: &Text,
        samples: &Option<List<Sample>>,
    ) -> Result<List<Report>, NoMemory>
        ensures reports { IfOk result (λ reports. reports ≡ spec.page_report url.now ∷ []) }
        ensures served { OnOk result (self.new
            ≡ record self.old { served = spec.with_page self.old.served url.now samples.now }) }
        ensures err { OnErr result (self.new ≡ self.old) }
    {
        let samples = samples_copied(self.alloc, samples)?;
        let url = url.clone()?;
        self.take_page(url, samples)
    }

    fn tick(&mut self, t: Moment) -> Result<List<Report>, EventFault>
        requires { IsTick t }
        ensures reports { IfOk result (λ reports. reports
            ≡ spec.reports_of self.old.config self.old.served (Event.Tick t)) }
        ensures served { OnOk result (self.new
            ≡ record self.old { served = spec.served_after self.old.config self.old.served (Event.Tick t) }) }
        ensures named { IfOk result AreNamed }
        ensures early { OnOk result (spec.late self.old.served.last t ≡ None) }
        ensures late { IfErr result (λ fault. (last : _) → fault ≡ EventFault.LateTick last
            → spec.late self.old.served.last t ≡ Some last) }
        ensures late_leaves { IfErr result (λ fault. (last : _) → fault ≡ EventFault.LateTick last
            → self.new ≡ self.old) }
        ensures cut_off { OnErr result (spec.IsCutOff self.old self.new
            (spec.served_after self.old.config self.old.served (Event.Tick t))) }
    {
        match late(self.last, t) {
            Some(last) => Err(EventFault::LateTick(last)),
            None => Ok(self.run(t)?),
        }
    }

    // A tick that isn't late. The lines are made of the entries that were stored.
    fn run(&mut self, t: Moment) -> Result<List<Report>, NoMemory>
        requires { IsTick t }
        ensures reports { IfOk result (λ reports. reports
            ≡ spec.reports_of self.old.config self.old.served (Event.Tick t)) }
        ensures served { OnOk result (self.new
            ≡ record self.old { served = spec.served_after self.old.config self.old.served (Event.Tick t) }) }
        ensures named { IfOk result AreNamed }
        ensures cut_off { OnErr result (spec.IsCutOff self.old self.new
            (spec.served_after self.old.config self.old.served (Event.Tick t))) }
    {
        let (scraped, states, failed, added) = run_tick(
            self.alloc,
            &self.config,
            &self.pages,
            &self.scraped,
            &mut self.store,
            &self.states,
            t,
        )?;
        let reports = tick_reports(self.alloc, &self.known, failed, added, t)?;
        self.scraped = scraped;
        self.states = states;
        self.last = Some(t);
        Ok(reports)
    }
}

fn late(last: Option<Moment>, t: Moment) -> Option<Moment>
    ensures { result ≡ spec.late last t }
{
    match last {
        Some(last) => at_most(t, last),
        None => None,
    }
}

// The last moment, where the other isn't above it.
fn at_most(t: Moment, last: Moment) -> Option<Moment>
    ensures { result ≡ spec.late (Some last) t }
{
    if t.0 <= last.0 { Some(last) } else { None }
}

fn page_reports(alloc: Global, url: &Text) -> Result<List<Report>, NoMemory>
    ensures { IfOk result (λ reports. reports ≡ spec.page_report url.now ∷ []) }
{
    let mut reports = List::new(alloc);
    reports.push(Report {
        to: None,
        view: View::Page { url: url.clone()? },
    })?;
    Ok(reports)
}

// An equal page.
fn samples_copied(
    alloc: Global,
    samples: &Option<List<Sample>>,
) -> Result<Option<List<Sample>>, NoMemory>
    ensures { IfOk result (λ copy. copy ≡ samples.now) }
{
    match samples {
        Some(samples) => Ok(Some(copy_samples(alloc, samples.as_slice())?)),
        None => Ok(None),
    }
}

fn copy_samples(alloc: Global, samples: &[Sample]) -> Result<List<Sample>, NoMemory>
    ensures { IfOk result (λ copy. copy ≡ samples.now) }
{
    let mut copy = List::new(alloc);
    for sample in samples {
        copy.push(Sample {
            labels: sample.labels.copy()?,
            value: sample.value,
        })?;
    }
    Ok(copy)
}

fn no_config(alloc: Global) -> Config
    ensures { result ≡ spec.no_config }
{
    Config {
        prometheus: None,
        rules: List::new(alloc),
    }
}
