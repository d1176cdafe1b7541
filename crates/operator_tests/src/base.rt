//! Values that no command makes.

use crate::things::{is_so, label, list_of, text};
use op_base::{NoMemory, Requirement, Selector, Spare, Table, Tags, Text, insert_with};
use std::alloc::Global;
use std::cmp::Ordering;

/// Whether a label with an empty name is held until it is removed.
fn holds_an_empty_name(alloc: Global) -> Result<bool, NoMemory> {
    let mut labels = label(alloc, "", "x")?;
    let is_held = labels.get("") == Some("x");
    labels.remove("");
    Ok(is_held && labels.get("") == None)
}

/// Whether the copy of a list is equal to it.
fn is_copied(alloc: Global) -> Result<bool, NoMemory> {
    let items = list_of(alloc, text(alloc, "a")?)?;
    let copy = items.clone()?;
    Ok(
        copy == items
            && copy.cmp(&items) == Ordering::Equal
            && copy.partial_cmp(&items) == Some(Ordering::Equal),
    )
}

/// Whether a list has nothing once its one thing is taken out.
fn is_emptied(alloc: Global) -> Result<bool, NoMemory> {
    let mut items = list_of(alloc, 4)?;
    Ok(items.pop() == Some(4) && items.is_empty())
}

/// Whether new things have nothing.
fn are_empty(alloc: Global) -> bool {
    Text::new(alloc).is_empty() && Table::<u8>::new(alloc).is_empty()
}

fn texts_have_an_order(alloc: Global) -> Result<bool, NoMemory> {
    Ok(text(alloc, "a")? < text(alloc, "b")?)
}

/// Whether labels that are put over others take their place, and leave a copy as it was.
fn are_put_over(alloc: Global) -> Result<bool, NoMemory> {
    let mut labels = label(alloc, "job", "own")?;
    labels.set("le", "1")?;
    let copy = labels.copy()?;
    labels.set_labels(&label(alloc, "job", "given")?)?;
    Ok(labels.value("job") == "given" && labels.value("le") == "1" && copy.value("job") == "own")
}

fn labels_have_an_order(alloc: Global) -> Result<bool, NoMemory> {
    Ok(label(alloc, "a", "x")? < label(alloc, "b", "x")?)
}

/// Whether a thing is put where there is just room for it.
fn is_put(alloc: Global) -> Result<bool, NoMemory> {
    let mut kept = vec![in alloc; 1, 3]?;
    let spare = Spare::new(alloc, 3)?;
    insert_with(&mut kept, 1, 2, spare);
    Ok(kept.as_slice() == [1, 2, 3].as_slice())
}

fn web(alloc: Global) -> Result<Tags, NoMemory> {
    let mut tags = Tags::new(alloc);
    tags.set("app", "web")?;
    tags.set("tier", "b")?;
    Ok(tags)
}

/// `app=web`.
fn app(alloc: Global) -> Result<Requirement, NoMemory> {
    Ok(Requirement::Is(text(alloc, "app")?, text(alloc, "web")?))
}

/// `tier in (a,b)`.
fn tier(alloc: Global) -> Result<Requirement, NoMemory> {
    let mut tiers = list_of(alloc, text(alloc, "a")?)?;
    tiers.push(text(alloc, "b")?)?;
    Ok(Requirement::In(text(alloc, "tier")?, tiers))
}

fn app_and_tier(alloc: Global) -> Result<Selector, NoMemory> {
    let mut all = list_of(alloc, app(alloc)?)?;
    all.push(tier(alloc)?)?;
    all.push(Requirement::Absent(text(alloc, "x")?))?;
    Ok(Selector { all })
}

fn is_written(alloc: Global) -> Result<bool, NoMemory> {
    let selector = app_and_tier(alloc)?;
    Ok(selector.text(alloc)?.as_str() == "app=web,tier in (a,b),!x")
}

/// Whether it chooses the tags, and not once they have an empty one of that name.
fn chooses(alloc: Global) -> Result<bool, NoMemory> {
    let tags = web(alloc)?;
    let selector = app_and_tier(alloc)?;
    let mut marked = tags.copy()?;
    marked.set("x", "")?;
    Ok(selector.holds(&tags) && !selector.holds(&marked) && marked != tags)
}

#[test]
fn what_no_command_calls_answers(rt: HostRuntime) {
    let alloc = rt.alloc();
    assert!(rt; is_so(holds_an_empty_name(alloc)));
    assert!(rt; is_so(is_copied(alloc)));
    assert!(rt; is_so(is_emptied(alloc)));
    assert!(rt; are_empty(alloc));
    assert!(rt; is_so(texts_have_an_order(alloc)));
    assert!(rt; is_so(labels_have_an_order(alloc)));
    assert!(rt; is_so(are_put_over(alloc)));
    assert!(rt; is_so(is_put(alloc)));
    assert!(rt; is_so(chooses(alloc)));
    assert!(rt; is_so(is_written(alloc)));
}
