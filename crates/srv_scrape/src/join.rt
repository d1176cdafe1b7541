ghost use Rattle.std.specs.Prelude.{◌≡◌, ◌++◌, ◌∷◌, [], codes, filter, fold, IfOk, OnOk};
ghost use Rattle.op_base.specs.Labels.{labels_with_all};
ghost use Rattle.srv_scrape.specs.Joined as spec;

use crate::labels::has_name;
use crate::shorter::ShorterFirst;
use op_base::{Labels, NoMemory, Text};
use std::alloc::Global;
use std::collections::BTreeMap;

/// The labels of a sample joined with those of its target. With `honor` a scraped label wins, else
/// it is renamed where the target has its name.
pub fn joined(
    alloc: Global,
    honor: bool,
    target: &Labels,
    scraped: &Labels,
) -> Result<Labels, NoMemory>
    ensures { IfOk result (λ labels. labels ≡ spec.joined honor target.now scraped.now) }
{
    let mut labels = target.copy()?;
    if honor {
        labels.set_labels(scraped)?;
    } else {
        put_renamed(alloc, &mut labels, target, scraped)?;
    }
    Ok(labels)
}

fn put_renamed(
    alloc: Global,
    labels: &mut Labels,
    target: &Labels,
    scraped: &Labels,
) -> Result<(), NoMemory>
    ensures { OnOk result (labels.old ≡ target.now → labels.new ≡ spec.renamed target.now scraped.now) }
{
    put_apart(labels, target, scraped)?;
    let clashing = clashing(alloc, target, scraped)?;
    put_exported(alloc, labels, scraped, clashing)
}

// Puts the scraped labels whose names the target doesn't have.
fn put_apart(labels: &mut Labels, target: &Labels, scraped: &Labels) -> Result<(), NoMemory>
    ensures { OnOk result (labels.new ≡ labels_with_all labels.old (spec.apart target.now scraped.now)) }
{
    for place in 0..scraped.len() {
        put_if_apart(
            labels,
            target,
            scraped.name_at(place),
            scraped.value_at(place),
        )?;
    }
    Ok(())
}

fn put_if_apart(
    labels: &mut Labels,
    target: &Labels,
    name: &str,
    value: &str,
) -> Result<(), NoMemory>
    ensures { OnOk result (labels.new
        ≡ labels_with_all labels.old (spec.apart target.now ((name.now, value.now) ∷ []))) }
{
    if has_name(target, name) {
        return Ok(());
    }
    labels.set(name, value)
}

// The scraped labels whose names the target has.
fn clashing(
    alloc: Global,
    target: &Labels,
    scraped: &Labels,
) -> Result<BTreeMap<ShorterFirst, Text>, NoMemory>
    ensures { IfOk result (λ labels. labels.entries ≡ spec.clashing target.now scraped.now) }
{
    let mut placed = BTreeMap::new(alloc);
    for place in 0..scraped.len() {
        place_if_clashing(
            alloc,
            &mut placed,
            target,
            scraped.name_at(place),
            scraped.value_at(place),
        )?;
    }
    Ok(placed)
}

fn place_if_clashing(
    alloc: Global,
    placed: &mut BTreeMap<ShorterFirst, Text>,
    target: &Labels,
    name: &str,
    value: &str,
) -> Result<(), NoMemory>
    ensures { OnOk result (placed.new.entries
        ≡ fold spec.placed_with placed.old.entries (filter (λ label. spec.has_name target.now label.0) ((name.now, value.now) ∷ []))) }
{
    if has_name(target, name) {
        let name = ShorterFirst::new(Text::from_str(alloc, name)?);
        placed.insert(name, Text::from_str(alloc, value)?)?;
    }
    Ok(())
}

fn put_exported(
    alloc: Global,
    labels: &mut Labels,
    scraped: &Labels,
    clashing: BTreeMap<ShorterFirst, Text>,
) -> Result<(), NoMemory>
    ensures { OnOk result (labels.new ≡ spec.all_exported scraped.now labels.old clashing.entries) }
{
    for (name, value) in clashing {
        let name = exported(alloc, scraped, labels, name.as_str())?;
        labels.set(name.as_str(), value.as_str())?;
    }
    Ok(())
}

// The name behind `exported_`, repeated while the name is taken.
fn exported(alloc: Global, scraped: &Labels, given: &Labels, name: &str) -> Result<Text, NoMemory>
    ensures { IfOk result (λ text. text ≡ spec.new_name scraped.now given.now name.now) }
{
    let mut text = with_prefix(alloc, name)?;
    while is_taken(scraped, given, text.as_str()) {
        text = with_prefix(alloc, text.as_str())?;
    }
    Ok(text)
}

fn with_prefix(alloc: Global, name: &str) -> Result<Text, NoMemory>
    ensures { IfOk result (λ text. text ≡ codes "exported_" ++ name.now) }
{
    let mut text = Text::from_str(alloc, "exported_")?;
    text.push_str(name)?;
    Ok(text)
}

fn is_taken(scraped: &Labels, given: &Labels, name: &str) -> bool
    ensures { result ≡ spec.is_taken scraped.now given.now name.now }
{
    has_name(given, name) || has_name(scraped, name)
}
