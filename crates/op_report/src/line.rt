ghost use Rattle.std.specs.Prelude.{◌≡◌, true, IfOk, IfSome};
ghost use Rattle.serde_json.specs.View as shown;
ghost use Rattle.op_base.specs.Names.{is_namespace};
ghost use Rattle.op_json.specs.Json.{data_of};
ghost use Rattle.op_report.specs.Lines as spec;
ghost use Rattle.op_report.specs.Lines.{IsOneLine};

use crate::change::{admin_value, change_value, own_value};
use crate::tick::tick_value;
use crate::view::{Report, View};
use op_base::{List, Moment, NoMemory, Text};
use op_json::text_of;
use serde_json::{Value, json};
use std::alloc::Global;

// What stands behind the addressee of a line.
const TAB: u8 = b'\t';

/// The line that says the view to a tenant.
pub fn tenant_line(alloc: Global, namespace: &str, view: &View) -> Result<List<u8>, NoMemory>
    requires { is_namespace namespace.now ≡ true }
    ensures line { IfOk result (λ line. line ≡ spec.tenant_line namespace.now view.now) }
    ensures one_line { IfOk result IsOneLine }
{
    line_of(alloc, namespace, view)
}

/// The line that says the view to everyone.
pub fn global_line(alloc: Global, view: &View) -> Result<List<u8>, NoMemory>
    ensures line { IfOk result (λ line. line ≡ spec.global_line view.now) }
    ensures one_line { IfOk result IsOneLine }
{
    line_of(alloc, "-", view)
}

/// The line of a report, to its namespace or to everyone.
pub fn report_line(alloc: Global, report: &Report) -> Result<List<u8>, NoMemory>
    requires { IfSome report.now.to (λ namespace. is_namespace namespace ≡ true) }
    ensures line { IfOk result (λ line. line ≡ spec.report_line report.now) }
    ensures one_line { IfOk result IsOneLine }
{
    match &report.to {
        Some(namespace) => tenant_line(alloc, namespace.as_str(), &report.view),
        None => global_line(alloc, &report.view),
    }
}

fn line_of(alloc: Global, to: &str, view: &View) -> Result<List<u8>, NoMemory>
    ensures { IfOk result (λ line. line ≡ spec.line_of to.now view.now) }
{
    let value = view_value(alloc, view)?;
    let text = text_of(alloc, &value)?;
    let mut line = Vec::from_slice(alloc, to.as_bytes())?;
    line.push(TAB)?;
    line.extend_from_slice(text.as_slice())?;
    line.push(b'\n')?;
    Ok(List::from_vec(line))
}

fn view_value(alloc: Global, view: &View) -> Result<Value, NoMemory>
    ensures { IfOk result (λ value. shown.view value ≡ data_of (spec.view_json view.now)) }
{
    match view {
        View::Own {
            deleted,
            key,
            answer,
            rule,
            path,
            also,
        } => own_value(alloc, *deleted, key, answer, rule, path, also),
        View::Admin {
            deleted,
            key,
            answer,
            rule,
            path,
            kept,
        } => admin_value(alloc, *deleted, key, answer, rule, path, kept),
        View::Change { key, also } => change_value(alloc, key, also),
        View::Targets { count } => targets_value(alloc, *count),
        View::TargetsRefused { rule, path } => targets_refused_value(alloc, rule, path),
        View::Page { url } => page_value(alloc, url),
        View::Bad { rule, line, path } => bad_value(alloc, rule, *line, path),
        View::BadFile {
            rule,
            file,
            item,
            path,
        } => bad_file_value(alloc, rule, file, *item, path),
        View::Long { line } => long_value(alloc, *line),
        View::LateTick { last, line } => late_tick_value(alloc, *last, *line),
        View::Tick {
            alerts,
            failed,
            stored,
            at,
        } => tick_value(alloc, alerts, failed, stored, *at),
        View::NotYetLine { line } => not_yet_line_value(alloc, *line),
        View::NotYetFile { file, item } => not_yet_value(alloc, file, *item),
    }
}

fn page_value(alloc: Global, url: &Text) -> Result<Value, NoMemory>
    ensures { IfOk result (λ value. shown.view value ≡ data_of (spec.view_json (View.Page url.now))) }
{
    let url = url.as_str();
    Ok(json!(in alloc; {"answer": "Admitted", "page": url})?)
}

fn targets_value(alloc: Global, count: u64) -> Result<Value, NoMemory>
    ensures { IfOk result (λ value. shown.view value ≡ data_of (spec.view_json (View.Targets count))) }
{
    Ok(json!(in alloc; {"answer": "Admitted", "targets": count})?)
}

fn targets_refused_value(alloc: Global, rule: &Text, path: &Text) -> Result<Value, NoMemory>
    ensures { IfOk result (λ value. shown.view value
        ≡ data_of (spec.view_json (View.TargetsRefused rule.now path.now))) }
{
    let (rule, path) = (rule.as_str(), path.as_str());
    Ok(json!(in alloc; {"answer": "Refused", "path": path, "rule": rule})?)
}

fn bad_value(alloc: Global, rule: &Text, line: u64, path: &Text) -> Result<Value, NoMemory>
    ensures { IfOk result (λ value. shown.view value ≡ data_of (spec.view_json (View.Bad rule.now line path.now))) }
{
    let (rule, path) = (rule.as_str(), path.as_str());
    Ok(json!(in alloc; {"bad": rule, "line": line, "path": path})?)
}

fn long_value(alloc: Global, line: u64) -> Result<Value, NoMemory>
    ensures { IfOk result (λ value. shown.view value ≡ data_of (spec.view_json (View.Long line))) }
{
    Ok(json!(in alloc; {"bad": "Long", "line": line})?)
}

fn late_tick_value(alloc: Global, last: Moment, line: u64) -> Result<Value, NoMemory>
    ensures { IfOk result (λ value. shown.view value ≡ data_of (spec.view_json (View.LateTick last line))) }
{
    let last = last.0;
    Ok(json!(in alloc; {"bad": "LateTick", "last": last, "line": line})?)
}

fn not_yet_line_value(alloc: Global, line: u64) -> Result<Value, NoMemory>
    ensures { IfOk result (λ value. shown.view value ≡ data_of (spec.view_json (View.NotYetLine line))) }
{
    Ok(json!(in alloc; {"bad": "NotYet", "line": line})?)
}

fn bad_file_value(
    alloc: Global,
    rule: &Text,
    file: &Text,
    item: u64,
    path: &Text,
) -> Result<Value, NoMemory>
    ensures { IfOk result (λ value. shown.view value
        ≡ data_of (spec.view_json (View.BadFile rule.now file.now item path.now))) }
{
    let (rule, file, path) = (rule.as_str(), file.as_str(), path.as_str());
    Ok(json!(in alloc; {"bad": rule, "file": file, "item": item, "path": path})?)
}

fn not_yet_value(alloc: Global, file: &Text, item: u64) -> Result<Value, NoMemory>
    ensures { IfOk result (λ value. shown.view value
        ≡ data_of (spec.view_json (View.NotYetFile file.now item))) }
{
    let file = file.as_str();
    Ok(json!(in alloc; {"bad": "NotYet", "file": file, "item": item})?)
}
