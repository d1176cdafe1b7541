ghost use Rattle.std.specs.Prelude.{◌≡◌, true, false};
ghost use Rattle.op_manifest.specs.Trees.{data_of, items_in};
ghost use Rattle.op_manifest.specs.Shapes.{Adds};
ghost use Rattle.op_manifest.specs.Checks as check;
ghost use Rattle.op_manifest.specs.Values as value;
ghost use Rattle.op_manifest.specs.Routes as spec;

use crate::fields::{given, noted_flag, noted_number, noted_text};
use crate::items::or_none;
use crate::parts::required_item;
use crate::reference::{SecretRef, noted_reference, text_or_empty};
use crate::shape::{Shape, ShapeRule, path_at, path_to, tell};
use crate::strays::noted_known;
use crate::tree::Tree;
use op_base::{List, NoMemory, Text};
use std::alloc::Global;

/// A receiver of notices.
#[derive(Debug, PartialEq, Eq, Drop)]
pub struct Receiver {
    pub name: Text,
    pub webhook_configs: List<Webhook>,
}

/// A webhook, whose address is a text or stands in a Secret.
#[derive(Debug, PartialEq, Eq, Drop)]
pub struct Webhook {
    pub url: Option<Text>,
    pub url_secret: Option<SecretRef>,
    pub send_resolved: Option<bool>,
    pub max_alerts: Option<u64>,
}

/// The receivers of the field; those of the base configuration name no Secret.
#[tactic(auto, using(crate::proofs::ShapeLemmas::later_none), unfolding(crate::specs::Checks::optional, crate::specs::Checks::list, crate::specs::Values::items_in))]
pub fn noted_receivers(
    found: &mut Option<Shape>,
    alloc: Global,
    tree: &Tree,
    name: &str,
    path: &str,
    base: bool,
) -> Result<Option<List<Receiver>>, NoMemory>
    ensures { Adds (λ receivers. receivers) found.old found.new result
        (check.optional (check.list (spec.receiver base)) name.now path.now (data_of tree.now))
        (value.items_in (spec.receiver_of base) name.now (data_of tree.now)) }
{
    match given(tree, name) {
        Some(list) => {
            let path = path_to(alloc, path, name)?;
            match list.as_items() {
                Some(items) => Ok(Some(each_receiver(found, alloc, items, path.as_str(), base)?)),
                None => {
                    tell(found, ShapeRule::WRONG_TYPE, path);
                    Ok(None)
                }
            }
        }
        None => Ok(None),
    }
}

fn each_receiver(
    found: &mut Option<Shape>,
    alloc: Global,
    items: &[Tree],
    path: &str,
    base: bool,
) -> Result<List<Receiver>, NoMemory>
    ensures { Adds (λ items. items) found.old found.new result
        (check.items_from (spec.receiver base) path.now 0 (items_in items.now))
        (value.each_of (spec.receiver_of base) (items_in items.now)) }
{
    let mut all = List::new(alloc);
    for index in 0..items.len() {
        let path = path_at(alloc, path, index)?;
        all.push(read_receiver(found, alloc, &items[index], path.as_str(), base)?)?;
    }
    Ok(all)
}

fn read_receiver(
    found: &mut Option<Shape>,
    alloc: Global,
    tree: &Tree,
    path: &str,
    base: bool,
) -> Result<Receiver, NoMemory>
    ensures { Adds (λ receiver. receiver) found.old found.new result
        (spec.receiver base path.now (data_of tree.now)) (spec.receiver_of base (data_of tree.now)) }
{
    noted_known(found, alloc, tree, &["name", "webhookConfigs"], path)?;
    let given_name = required_item::<Text>(found, alloc, tree, "name", path)?;
    let webhooks = noted_webhooks(found, alloc, tree, "webhookConfigs", path, base)?;
    let name = text_or_empty(alloc, given_name);
    let webhook_configs = or_none(alloc, webhooks);
    Ok(Receiver {
        name,
        webhook_configs,
    })
}

#[tactic(auto, using(crate::proofs::ShapeLemmas::later_none), unfolding(crate::specs::Checks::optional, crate::specs::Checks::list, crate::specs::Values::items_in))]
fn noted_webhooks(
    found: &mut Option<Shape>,
    alloc: Global,
    tree: &Tree,
    name: &str,
    path: &str,
    base: bool,
) -> Result<Option<List<Webhook>>, NoMemory>
    ensures { Adds (λ webhooks. webhooks) found.old found.new result
        (check.optional (check.list (spec.webhook base)) name.now path.now (data_of tree.now))
        (value.items_in (spec.webhook_of base) name.now (data_of tree.now)) }
{
    match given(tree, name) {
        Some(list) => {
            let path = path_to(alloc, path, name)?;
            match list.as_items() {
                Some(items) => Ok(Some(each_webhook(found, alloc, items, path.as_str(), base)?)),
                None => {
                    tell(found, ShapeRule::WRONG_TYPE, path);
                    Ok(None)
                }
            }
        }
        None => Ok(None),
    }
}

fn each_webhook(
    found: &mut Option<Shape>,
    alloc: Global,
    items: &[Tree],
    path: &str,
    base: bool,
) -> Result<List<Webhook>, NoMemory>
    ensures { Adds (λ items. items) found.old found.new result
        (check.items_from (spec.webhook base) path.now 0 (items_in items.now))
        (value.each_of (spec.webhook_of base) (items_in items.now)) }
{
    let mut all = List::new(alloc);
    for index in 0..items.len() {
        let path = path_at(alloc, path, index)?;
        all.push(read_webhook(found, alloc, &items[index], path.as_str(), base)?)?;
    }
    Ok(all)
}

fn read_webhook(
    found: &mut Option<Shape>,
    alloc: Global,
    tree: &Tree,
    path: &str,
    base: bool,
) -> Result<Webhook, NoMemory>
    ensures { Adds (λ webhook. webhook) found.old found.new result
        (spec.webhook base path.now (data_of tree.now)) (spec.webhook_of base (data_of tree.now)) }
{
    if base {
        read_base_webhook(found, alloc, tree, path)
    } else {
        read_own_webhook(found, alloc, tree, path)
    }
}

fn read_own_webhook(
    found: &mut Option<Shape>,
    alloc: Global,
    tree: &Tree,
    path: &str,
) -> Result<Webhook, NoMemory>
    ensures { Adds (λ webhook. webhook) found.old found.new result
        (spec.webhook false path.now (data_of tree.now)) (spec.webhook_of false (data_of tree.now)) }
{
    noted_known(
        found,
        alloc,
        tree,
        &["url", "urlSecret", "sendResolved", "maxAlerts"],
        path,
    )?;
    let url = noted_text(found, alloc, tree, "url", path)?;
    let url_secret = noted_reference(found, alloc, tree, "urlSecret", path)?;
    let send_resolved = noted_flag(found, alloc, tree, "sendResolved", path)?;
    let max_alerts = noted_number(found, alloc, tree, "maxAlerts", path)?;
    Ok(Webhook {
        url,
        url_secret,
        send_resolved,
        max_alerts,
    })
}

fn read_base_webhook(
    found: &mut Option<Shape>,
    alloc: Global,
    tree: &Tree,
    path: &str,
) -> Result<Webhook, NoMemory>
    ensures { Adds (λ webhook. webhook) found.old found.new result
        (spec.webhook true path.now (data_of tree.now)) (spec.webhook_of true (data_of tree.now)) }
{
    noted_known(
        found,
        alloc,
        tree,
        &["url", "sendResolved", "maxAlerts"],
        path,
    )?;
    let url = noted_text(found, alloc, tree, "url", path)?;
    let send_resolved = noted_flag(found, alloc, tree, "sendResolved", path)?;
    let max_alerts = noted_number(found, alloc, tree, "maxAlerts", path)?;
    Ok(Webhook {
        url,
        url_secret: None,
        send_resolved,
        max_alerts,
    })
}
