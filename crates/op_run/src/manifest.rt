ghost use Rattle.std.specs.Prelude.{◌≡◌, [], true, false, option_map, IfSome, IfOk, OnOk};
ghost use Rattle.op_base.specs.Names.{is_namespace};
ghost use Rattle.op_thin.specs.Items.{IsThinProbe, item_of};
ghost use Rattle.op_thin.specs.Judged.{IsTyped};
ghost use Rattle.op_thin.specs.Objects.{is_taken};
ghost use Rattle.srv_run.specs.Served.{with_known};
ghost use Rattle.tenant_world.specs.Runs as spec;
ghost use Rattle.op_run.specs.Worlds.{world};
ghost use Rattle.op_run.specs.Inputs.{file_event};

use crate::files::NamedFile;
use op_base::{Key, Kind, List, NoMemory, Text};
use op_report::{Report, View};
use op_thin::{Item, Objects, ThinProbe, ThinRule, item_of};
use srv_run::{Event, EventFault, Server};
use std::alloc::Global;

/// Where a thin rule's expression stands.
const EXPR_PATH: &str = "spec.groups[0].rules[0].expr";

/// Takes the object that the file's bytes put, and says what is reported of it. The namespace of an object
/// that is taken is known from then on.
pub fn take_file(
    alloc: Global,
    file: &NamedFile,
    objects: &mut Objects,
    server: &mut Server,
) -> Result<Report, NoMemory>
    ensures report { IfOk result (λ report. report
        ≡ spec.item_report file.now.name (item_of file.now.bytes)
        (is_taken objects.old (item_of file.now.bytes))) }
    ensures world { OnOk result (world objects.new server.new.served
        ≡ spec.next (world objects.old server.old.served) (file_event file.now)) }
    ensures named { IfOk result (λ report. IfSome report.to
        (λ namespace. is_namespace namespace ≡ true)) }
{
    match item_of(alloc, file.bytes.as_slice())? {
        Item::Broken => not_json(alloc, &file.name),
        Item::NotYet => not_yet(&file.name),
        Item::Rule(rule) => take_rule(alloc, &file.name, rule, objects, server),
        Item::Probe(probe) => take_probe(alloc, &file.name, probe, objects, server),
    }
}

fn take_rule(
    alloc: Global,
    file: &Text,
    rule: ThinRule,
    objects: &mut Objects,
    server: &mut Server,
) -> Result<Report, NoMemory>
    requires named { is_namespace rule.namespace ≡ true }
    requires judged { IsTyped rule.judged }
    ensures report { IfOk result (λ report. report ≡ spec.item_report file.now (Item.Rule rule)
        (is_taken objects.old (Item.Rule rule))) }
    ensures world { OnOk result (world objects.new server.new.served
        ≡ spec.after_item (world objects.old server.old.served) (Item.Rule rule)
        (is_taken objects.old (Item.Rule rule))) }
    ensures named { IfOk result (λ report. IfSome report.to
        (λ namespace. is_namespace namespace ≡ true)) }
{
    let (namespace, key) = key_of(alloc, Kind::PrometheusRule, &rule.namespace, &rule.name)?;
    let broken = rule.judged.skip_rule();
    if objects.put_rule(rule)? {
        taken(alloc, namespace, key, broken, server)
    } else {
        not_yet(file)
    }
}

fn take_probe(
    alloc: Global,
    file: &Text,
    probe: ThinProbe,
    objects: &mut Objects,
    server: &mut Server,
) -> Result<Report, NoMemory>
    requires { IsThinProbe probe }
    ensures report { IfOk result (λ report. report ≡ spec.item_report file.now (Item.Probe probe)
        (is_taken objects.old (Item.Probe probe))) }
    ensures world { OnOk result (world objects.new server.new.served
        ≡ spec.after_item (world objects.old server.old.served) (Item.Probe probe)
        (is_taken objects.old (Item.Probe probe))) }
    ensures named { IfOk result (λ report. IfSome report.to
        (λ namespace. is_namespace namespace ≡ true)) }
{
    let (namespace, key) = key_of(alloc, Kind::Probe, &probe.namespace, &probe.name)?;
    if objects.put_probe(probe)? {
        taken(alloc, namespace, key, None, server)
    } else {
        not_yet(file)
    }
}

// What is said of an object that was taken, whose namespace is known from then on.
fn taken(
    alloc: Global,
    namespace: Text,
    key: Text,
    broken: Option<&str>,
    server: &mut Server,
) -> Result<Report, NoMemory>
    requires { is_namespace namespace ≡ true }
    ensures report { IfOk result (λ report. report
        ≡ spec.to_owner namespace (spec.answered key (option_map (λ rule. rule.now) broken.entry))) }
    ensures known { OnOk result (server.new.served ≡ with_known server.old.served namespace) }
{
    let report = answered(alloc, &namespace, key, broken)?;
    make_known(server, namespace)?;
    Ok(report)
}

fn make_known(server: &mut Server, namespace: Text) -> Result<(), NoMemory>
    requires { is_namespace namespace ≡ true }
    ensures { OnOk result (server.new.served ≡ with_known server.old.served namespace) }
{
    match server.take(Event::Known(namespace)) {
        Ok(_) => Ok(()),
        Err(EventFault::NoMemory) => Err(NoMemory),
        Err(EventFault::LateTick(_)) => unreachable!(),
    }
}

fn not_json(alloc: Global, file: &Text) -> Result<Report, NoMemory>
    ensures { IfOk result (λ report. report ≡ spec.item_report file.now Item.Broken false) }
{
    Ok(Report {
        to: None,
        view: View::BadFile {
            rule: Text::from_str(alloc, "S1")?,
            file: file.clone()?,
            item: 0,
            path: Text::new(alloc),
        },
    })
}

fn not_yet(file: &Text) -> Result<Report, NoMemory>
    ensures { IfOk result (λ report. report ≡ spec.not_yet file.now) }
{
    Ok(Report {
        to: None,
        view: View::NotYetFile {
            file: file.clone()?,
            item: 0,
        },
    })
}

// The namespace, and the text of the key.
fn key_of(
    alloc: Global,
    kind: Kind,
    namespace: &Text,
    name: &Text,
) -> Result<(Text, Text), NoMemory>
    ensures { IfOk result (λ parts. (parts.0 ≡ namespace.now)
        × (parts.1 ≡ spec.key_of kind namespace.now name.now)) }
{
    let key = key_text(alloc, kind, namespace, name)?;
    Ok((namespace.clone()?, key))
}

fn key_text(alloc: Global, kind: Kind, namespace: &Text, name: &Text) -> Result<Text, NoMemory>
    ensures { IfOk result (λ key. key ≡ spec.key_of kind namespace.now name.now) }
{
    let key = Key {
        kind,
        namespace: namespace.clone()?,
        name: name.clone()?,
    };
    key.text(alloc)
}

// What is said of an object that was taken: it is admitted, or the rule skips it.
fn answered(
    alloc: Global,
    namespace: &Text,
    key: Text,
    broken: Option<&str>,
) -> Result<Report, NoMemory>
    ensures { IfOk result (λ report. report
        ≡ spec.to_owner namespace.now (spec.answered key (option_map (λ rule. rule.now) broken.entry))) }
{
    match broken {
        None => own_report(alloc, namespace, key, "Admitted", None, None),
        Some(rule) => {
            let rule = Text::from_str(alloc, rule)?;
            let path = Text::from_str(alloc, EXPR_PATH)?;
            own_report(alloc, namespace, key, "Skipped", Some(rule), Some(path))
        }
    }
}

fn own_report(
    alloc: Global,
    namespace: &Text,
    key: Text,
    answer: &str,
    rule: Option<Text>,
    path: Option<Text>,
) -> Result<Report, NoMemory>
    ensures { IfOk result (λ report. report
        ≡ spec.to_owner namespace.now (View.Own false key answer.now rule path [])) }
{
    Ok(Report {
        to: Some(namespace.clone()?),
        view: View::Own {
            deleted: false,
            key,
            answer: Text::from_str(alloc, answer)?,
            rule,
            path,
            also: List::new(alloc),
        },
    })
}
