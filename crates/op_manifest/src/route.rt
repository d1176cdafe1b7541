ghost use Rattle.std.specs.Prelude.{◌≡◌, OnOk};
ghost use Rattle.op_manifest.specs.Trees.{data_of, items_in};
ghost use Rattle.op_manifest.specs.Shapes.{Adds};
ghost use Rattle.op_manifest.specs.Shapes as shapes;
ghost use Rattle.op_manifest.specs.Checks as check;
ghost use Rattle.op_manifest.specs.Values as value;
ghost use Rattle.op_manifest.specs.Routes as spec;

use crate::fields::{given, noted_flag, noted_span, noted_text};
use crate::items::{noted_items, or_none};
use crate::shape::{Shape, ShapeRule, path_at, path_to, tell};
use crate::strays::noted_known;
use crate::tree::Tree;
use op_base::{List, Matcher, NoMemory, Span, Text};
use std::alloc::Global;

/// A route of notices, and the routes below it. A list without items is as one that isn't given.
#[derive(Debug, PartialEq, Eq, Drop)]
pub struct Route {
    pub receiver: Option<Text>,
    pub group_by: List<Text>,
    pub group_wait: Option<Span>,
    pub group_interval: Option<Span>,
    pub repeat_interval: Option<Span>,
    pub matchers: List<Matcher>,
    pub goes_on: bool,
    pub routes: List<Route>,
}

/// The route that the value is, with so many routes below one another.
#[cycle(routes)]
#[tactic(auto, using(crate::proofs::ShapeLemmas::later_none, crate::proofs::RouteLemmas::route_none, crate::proofs::RouteLemmas::value_none))]
pub fn read_route(
    found: &mut Option<Shape>,
    alloc: Global,
    tree: &Tree,
    path: &str,
    levels: usize,
) -> Result<Route, NoMemory>
    ensures { Adds (λ route. route) found.old found.new result
        (spec.route_within levels path.now (data_of tree.now)) (spec.route_of_within levels (data_of tree.now)) }
{
    if levels == 0 {
        Ok(no_route(alloc))
    } else {
        let route = read_fields(found, alloc, tree, path, levels - 1)?;
        Ok(route)
    }
}

#[cycle(routes)]
fn read_fields(
    found: &mut Option<Shape>,
    alloc: Global,
    tree: &Tree,
    path: &str,
    below: usize,
) -> Result<Route, NoMemory>
    ensures { Adds (λ route. route) found.old found.new result
        (check.table (spec.route_rows (spec.route_within below)) path.now (data_of tree.now))
        (spec.route_by (spec.route_of_within below) (data_of tree.now)) }
{
    note_unknown_fields(found, alloc, tree, path)?;
    let receiver = noted_text(found, alloc, tree, "receiver", path)?;
    let groups = noted_items::<Text>(found, alloc, tree, "groupBy", path)?;
    let group_wait = noted_span(found, alloc, tree, "groupWait", path)?;
    let group_interval = noted_span(found, alloc, tree, "groupInterval", path)?;
    let repeat_interval = noted_span(found, alloc, tree, "repeatInterval", path)?;
    let tests = noted_items::<Matcher>(found, alloc, tree, "matchers", path)?;
    let more = noted_flag(found, alloc, tree, "continue", path)?;
    let children = child_routes(found, alloc, tree, "routes", path, below)?;
    let group_by = or_none(alloc, groups);
    let matchers = or_none(alloc, tests);
    let goes_on = more.unwrap_or(false);
    let routes = or_none(alloc, children);
    Ok(Route {
        receiver,
        group_by,
        group_wait,
        group_interval,
        repeat_interval,
        matchers,
        goes_on,
        routes,
    })
}

#[cycle(routes)]
#[tactic(auto, using(crate::proofs::ShapeLemmas::later_none), unfolding(crate::specs::Checks::optional, crate::specs::Checks::list, crate::specs::Values::items_in))]
fn child_routes(
    found: &mut Option<Shape>,
    alloc: Global,
    tree: &Tree,
    name: &str,
    path: &str,
    levels: usize,
) -> Result<Option<List<Route>>, NoMemory>
    ensures { Adds (λ routes. routes) found.old found.new result
        (check.optional (check.list (spec.route_within levels)) name.now path.now (data_of tree.now))
        (value.items_in (spec.route_of_within levels) name.now (data_of tree.now)) }
{
    match given(tree, name) {
        Some(list) => {
            let path = path_to(alloc, path, name)?;
            match list.as_items() {
                Some(items) => Ok(Some(each_route(found, alloc, items, path.as_str(), levels)?)),
                None => {
                    tell(found, ShapeRule::WRONG_TYPE, path);
                    Ok(None)
                }
            }
        }
        None => Ok(None),
    }
}

#[cycle(routes)]
fn each_route(
    found: &mut Option<Shape>,
    alloc: Global,
    items: &[Tree],
    path: &str,
    levels: usize,
) -> Result<List<Route>, NoMemory>
    ensures { Adds (λ items. items) found.old found.new result
        (check.items_from (spec.route_within levels) path.now 0 (items_in items.now))
        (value.each_of (spec.route_of_within levels) (items_in items.now)) }
{
    let mut all = List::new(alloc);
    for index in 0..items.len() {
        let path = path_at(alloc, path, index)?;
        all.push(read_route(found, alloc, &items[index], path.as_str(), levels)?)?;
    }
    Ok(all)
}

fn note_unknown_fields(
    found: &mut Option<Shape>,
    alloc: Global,
    tree: &Tree,
    path: &str,
) -> Result<(), NoMemory>
    ensures { OnOk result (found.new ≡ shapes.later found.old (check.known spec.route_names path.now (data_of tree.now))) }
{
    noted_known(
        found,
        alloc,
        tree,
        &[
            "receiver",
            "groupBy",
            "groupWait",
            "groupInterval",
            "repeatInterval",
            "matchers",
            "continue",
            "routes",
        ],
        path,
    )
}

fn no_route(alloc: Global) -> Route
    ensures { result ≡ spec.no_route }
{
    Route {
        receiver: None,
        group_by: List::new(alloc),
        group_wait: None,
        group_interval: None,
        repeat_interval: None,
        matchers: List::new(alloc),
        goes_on: false,
        routes: List::new(alloc),
    }
}
