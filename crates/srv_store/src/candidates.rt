// The label sets that the matchers ask for, found in the index.
ghost use Rattle.std.specs.Prelude.{◌≡◌, ◌<◌, ◌++◌, filter, length, map, nat_eq, IfOk, OnOk};
ghost use Rattle.std.specs.List.{All, flat_map, list_any, range_with_len};
ghost use Rattle.std.specs.List.Sorted.{IsNonDecreasing};
ghost use Rattle.srv_store.specs.Indexes as spec;

use crate::index::label_of;
use crate::map::LabelMap;
use indexmap::IndexSet;
use op_base::{Labels, List, MatchOp, Matcher, NoMemory};
use std::alloc::Global;

/// The numbers of the label sets on which all matchers hold that ask for a label, rising: those in the
/// shortest of the lists of these labels that stand in each other one.
pub(crate) fn candidates(
    alloc: Global,
    keys: &IndexSet<Labels>,
    index: &LabelMap<List<usize>>,
    matchers: &[Matcher],
) -> Result<List<usize>, NoMemory>
    requires { spec.IsIndex keys.now.keys index.now }
    ensures { IfOk result (λ numbers. numbers
        ≡ spec.numbers_where (spec.asked_hold matchers.now) keys.now.keys) }
{
    let asked = asked_lists(alloc, index, matchers)?;
    let lists = asked.as_slice();
    match lists.get(shortest(lists)) {
        Some(numbers) => in_all(alloc, numbers, lists),
        None => all_numbers(alloc, keys.len()),
    }
}

// The list of each label that a matcher asks for.
fn asked_lists<'a>(
    alloc: Global,
    index: &'a LabelMap<List<usize>>,
    matchers: &[Matcher],
) -> Result<List<&'a [usize]>, NoMemory>
    ensures { IfOk result (λ lists. map (λ list. list.now) lists
        ≡ flat_map (spec.asked_list index.now) matchers.now) }
{
    let mut lists = List::new(alloc);
    for matcher in matchers {
        push_asked(alloc, &mut lists, index, matcher)?;
    }
    Ok(lists)
}

fn push_asked<'a>(
    alloc: Global,
    lists: &mut List<&'a [usize]>,
    index: &'a LabelMap<List<usize>>,
    matcher: &Matcher,
) -> Result<(), NoMemory>
    ensures { OnOk result (map (λ list. list.now) lists.new
        ≡ map (λ list. list.now) lists.old ++ spec.asked_list index.now matcher.now) }
{
    if asks(matcher) {
        let label = label_of(alloc, matcher.name.as_str(), matcher.value.as_str())?;
        lists.push(index.members(&label))?;
    }
    Ok(())
}

fn asks(matcher: &Matcher) -> bool
    ensures { result ≡ spec.asks matcher.now }
{
    match matcher.op {
        MatchOp::Eq => !matcher.value.is_empty(),
        _ => false,
    }
}

// The place of the shortest list.
fn shortest(lists: &[&[usize]]) -> usize
    ensures { 0 < length lists.now → result < length lists.now }
{
    let mut best = 0;
    for place in 1..lists.len() {
        if lists[place].len() < lists[best].len() {
            best = place;
        }
    }
    best
}

// Those of the numbers that stand in all lists.
fn in_all(alloc: Global, numbers: &[usize], lists: &[&[usize]]) -> Result<List<usize>, NoMemory>
    requires { All (λ list. IsNonDecreasing list.now) lists.now }
    ensures { IfOk result (λ kept. kept
        ≡ filter (spec.stands_in_all (map (λ list. list.now) lists.now)) numbers.now) }
{
    let mut kept = List::new(alloc);
    for number in numbers {
        if stands_in_all(*number, lists) {
            kept.push(*number)?;
        }
    }
    Ok(kept)
}

fn stands_in_all(number: usize, lists: &[&[usize]]) -> bool
    requires { All (λ list. IsNonDecreasing list.now) lists.now }
    ensures { result ≡ spec.stands_in_all (map (λ list. list.now) lists.now) number }
{
    for list in lists {
        if !stands_in(number, list) {
            return false;
        }
    }
    true
}

fn stands_in(number: usize, list: &[usize]) -> bool
    requires { IsNonDecreasing list.now }
    ensures { result ≡ list_any (nat_eq number) list.now }
{
    list.binary_search(&number).is_ok()
}

fn all_numbers(alloc: Global, count: usize) -> Result<List<usize>, NoMemory>
    ensures { IfOk result (λ numbers. numbers ≡ range_with_len 0 count) }
{
    let mut numbers = List::new(alloc);
    for number in 0..count {
        numbers.push(number)?;
    }
    Ok(numbers)
}
