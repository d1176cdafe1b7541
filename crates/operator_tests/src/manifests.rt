//! The readers of manifests, each once: what stands in one object, under the name of what it is.

use op_manifest::{
    Form, ShapeFault, Tree, flag_at, items_at, key_of, known, map_at, number_at, read_am_spec,
    read_items, secret_at, selector_at, span_at, text_at, texts_at,
};
use std::alloc::Global;

const OBJECT: &str =
    "{\"flag\":true,\"items\":[{}],\"map\":{\"k\":\"v\"},\"number\":5,\"secret\":{\"name\":\"s\",\"key\":\"k\"},\"selector\":{\"matchLabels\":{\"app\":\"web\"}},\"span\":\"1m\",\"text\":\"x\",\"texts\":[\"t\"]}";

fn is_so(looked: Result<bool, ShapeFault>) -> bool {
    matches!(looked, Ok(true))
}

fn object(alloc: Global) -> Result<Tree, ShapeFault> {
    Tree::read(alloc, OBJECT.as_bytes())
}

fn has_simple_fields(alloc: Global) -> Result<bool, ShapeFault> {
    let tree = object(alloc)?;
    let flag = flag_at(alloc, &tree, "flag", "")?;
    let number = number_at(alloc, &tree, "number", "")?;
    let span = span_at(alloc, &tree, "span", "")?;
    Ok(flag == Some(true) && number == Some(5) && span.is_some())
}

fn has_texts(alloc: Global) -> Result<bool, ShapeFault> {
    let tree = object(alloc)?;
    let one = text_at(alloc, &tree, "text", "")?;
    let texts = texts_at(alloc, &tree, "texts", "")?;
    let map = map_at(alloc, &tree, "map", "")?;
    let absent = text_at(alloc, &tree, "none", "")?;
    Ok(one.is_some() && texts.is_some() && map.is_some() && absent.is_none())
}

fn has_parts(alloc: Global) -> Result<bool, ShapeFault> {
    let tree = object(alloc)?;
    let items = items_at(alloc, &tree, "items", "")?;
    let secret = secret_at(alloc, &tree, "secret", "")?;
    let selector = selector_at(alloc, &tree, "selector", "")?;
    Ok(items.is_some() && secret.is_some() && selector.is_some())
}

fn is_walked(alloc: Global) -> Result<bool, ShapeFault> {
    let tree = object(alloc)?.copy(alloc)?;
    let number = match tree.field("number") {
        Some(number) => number.whole() == 5,
        None => false,
    };
    let word = match tree.field("text") {
        Some(word) => word.text() == "x",
        None => false,
    };
    Ok(number && word && matches!(tree.form(), Form::Fields) && tree.len() == 9)
}

fn is_told(alloc: Global) -> Result<bool, ShapeFault> {
    let tree = object(alloc)?;
    match known(
        alloc,
        &tree,
        "flag items map number secret selector span text",
        "spec",
    ) {
        Ok(()) => Ok(false),
        Err(ShapeFault::Broken(shape)) => Ok(shape.path.as_str() == "spec.texts"),
        Err(ShapeFault::NoMemory) => Err(ShapeFault::NoMemory),
    }
}

fn is_named(alloc: Global) -> Result<bool, ShapeFault> {
    let items = read_items(
        alloc,
        b"{\"apiVersion\":\"v1\",\"kind\":\"List\",\"items\":[{\"apiVersion\":\"v1\",\"kind\":\"Secret\",\"metadata\":{\"name\":\"s\"}}]}",
    )?;
    match items.as_slice() {
        [item] => Ok(key_of(alloc, item)?.namespace.as_str() == "default"),
        _ => Ok(false),
    }
}

fn has_no_route(alloc: Global) -> Result<bool, ShapeFault> {
    let tree = Tree::read(alloc, b"{\"receivers\":[{\"name\":\"t\"}]}")?;
    let spec = read_am_spec(alloc, &tree, "spec", false)?;
    Ok(spec.route.is_none() && spec.receivers.len() == 1)
}

#[test]
fn what_stands_in_a_manifest_is_read(rt: HostRuntime) {
    assert!(rt; is_so(has_simple_fields(rt.alloc())), "flag, number, span");
    assert!(rt; is_so(has_texts(rt.alloc())), "texts");
    assert!(rt;
        is_so(has_parts(rt.alloc())),
        "items, references, selectors"
    );
    assert!(rt; is_so(is_walked(rt.alloc())), "trees");
    assert!(rt; is_so(is_told(rt.alloc())), "a field that isn't known");
    assert!(rt; is_so(is_named(rt.alloc())), "a List and its item's key");
    assert!(rt; is_so(has_no_route(rt.alloc())), "a spec without a route");
}
