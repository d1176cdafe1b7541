ghost use Rattle.std.specs.Prelude.{◌≡◌, [], codes, IfOk};
ghost use Rattle.std.specs.Option.{option_map_or};
ghost use Rattle.op_manifest.specs.Trees.{data_of, items_in};
ghost use Rattle.op_manifest.specs.Shapes.{Adds};
ghost use Rattle.op_manifest.specs.Checks as check;
ghost use Rattle.op_manifest.specs.Values as value;
ghost use Rattle.op_input.specs.Lines.{IsWithin};
ghost use Rattle.op_input.specs.Samples.{sample, sample_of};
ghost use Rattle.op_input.specs.Events.{HasTime, event_of, page, bad};
ghost use Rattle.op_input.specs.InputLines as lines;
ghost use Rattle.op_input.specs.Pages as spec;

use crate::event::InputEvent;
use crate::line::InputLine;
use crate::sample::noted_sample;
use op_base::{List, NoMemory, Text};
use op_manifest::{Shape, ShapeRule, Tree, given, needed_text, noted_known, path_at, tell};
use srv_scrape::Sample;
use std::alloc::Global;

/// The page that the value is.
pub fn noted_page(
    found: &mut Option<Shape>,
    alloc: Global,
    tree: &Tree,
) -> Result<InputLine, NoMemory>
    ensures page { Adds (λ read. read) found.old found.new result
        (check.table spec.page_rows [] (data_of tree.now)) (spec.page_of (data_of tree.now)) }
    ensures within { IfOk result IsWithin }
{
    let (url, samples) = noted_parts(found, alloc, tree)?;
    Ok(InputLine::Page { url, samples })
}

/// The page that the value is, or its first breach.
#[tactic(auto, using(op_manifest::proofs::ShapeLemmas::later_first))]
pub fn read_page(alloc: Global, tree: &Tree) -> Result<InputEvent, NoMemory>
    ensures event { IfOk result (λ event. event_of event ≡ lines.page_event (data_of tree.now)) }
    ensures time { IfOk result HasTime }
{
    let mut found = None;
    let (url, samples) = noted_parts(&mut found, alloc, tree)?;
    Ok(page_or_breach(url, samples, found))
}

fn page_or_breach(url: Text, samples: Option<List<Sample>>, found: Option<Shape>) -> InputEvent
    ensures event { event_of result ≡ option_map_or bad found (page url samples) }
    ensures time { HasTime result }
{
    match found {
        Some(shape) => InputEvent::Bad(shape),
        None => InputEvent::Page(url, samples),
    }
}

// The URL and the samples.
fn noted_parts(
    found: &mut Option<Shape>,
    alloc: Global,
    tree: &Tree,
) -> Result<(Text, Option<List<Sample>>), NoMemory>
    ensures { Adds (λ parts. parts) found.old found.new result
        (check.table spec.page_rows [] (data_of tree.now)) (spec.url_of (data_of tree.now), spec.samples_of (data_of tree.now)) }
{
    noted_known(found, alloc, tree, &["url", "samples"], "")?;
    let url = needed_text(found, alloc, tree, "url", "")?;
    let samples = noted_samples(found, alloc, tree)?;
    Ok((url, samples))
}

#[tactic(auto, using(op_manifest::proofs::ShapeLemmas::later_none), unfolding(op_manifest::specs::Checks::optional, op_manifest::specs::Checks::list, op_manifest::specs::Values::items_in))]
fn noted_samples(
    found: &mut Option<Shape>,
    alloc: Global,
    tree: &Tree,
) -> Result<Option<List<Sample>>, NoMemory>
    ensures { Adds (λ samples. samples) found.old found.new result
        (check.optional (check.list sample) (codes "samples") [] (data_of tree.now))
        (value.items_in sample_of (codes "samples") (data_of tree.now)) }
{
    match given(tree, "samples") {
        Some(list) => match list.as_items() {
            Some(items) => Ok(Some(read_samples(found, alloc, items, "samples")?)),
            None => {
                tell(
                    found,
                    ShapeRule::WRONG_TYPE,
                    Text::from_str(alloc, "samples")?,
                );
                Ok(None)
            }
        },
        None => Ok(None),
    }
}

fn read_samples(
    found: &mut Option<Shape>,
    alloc: Global,
    items: &[Tree],
    path: &str,
) -> Result<List<Sample>, NoMemory>
    ensures { Adds (λ samples. samples) found.old found.new result
        (check.items_from sample path.now 0 (items_in items.now))
        (value.each_of sample_of (items_in items.now)) }
{
    let mut all = List::new(alloc);
    for index in 0..items.len() {
        let path = path_at(alloc, path, index)?;
        all.push(noted_sample(found, alloc, &items[index], path.as_str())?)?;
    }
    Ok(all)
}
