// The names of the Secrets that an object names.
ghost use Rattle.std.specs.Prelude.{◌≡◌, ◌∷◌, [], flat_map, map, IfOk, OnOk, option_to_list};
ghost use Rattle.op_admit.specs.SecretNames as spec;

use crate::object::Object;
use kind_rules::RuleObject;
use kind_scrape::{BasicAuth, Credentials, Endpoint, PodEndpoint, ScrapeObject};
use op_base::{List, NoMemory, Table, Text};
use op_manifest::{Receiver, SecretRef, Webhook};
use std::alloc::Global;

/// The names of the Secrets that the object's references name, in the order of their bytes, each once.
pub fn named_secrets(alloc: Global, object: &Object) -> Result<List<Text>, NoMemory>
    ensures { IfOk result (λ names. names ≡ spec.secret_names object.now) }
{
    let mut names = Table::new(alloc);
    match object {
        Object::Scrape(scrape) => put_scrape(&mut names, scrape)?,
        Object::Rules(RuleObject::Routes(routes)) => {
            put_receivers(&mut names, routes.receivers.as_slice())?
        }
        Object::Rules(RuleObject::Rules(_)) => {}
        Object::Admin(_) => {}
    }
    names.keys(alloc)
}

fn put_scrape(names: &mut Table<()>, object: &ScrapeObject) -> Result<(), NoMemory>
    ensures { OnOk result (names.new ≡ spec.with_names names.old (spec.scrape_refs object.now)) }
{
    match object {
        ScrapeObject::Service(monitor) => put_endpoints(names, monitor.spec.endpoints.as_slice()),
        ScrapeObject::Pod(monitor) => {
            put_pod_endpoints(names, monitor.spec.pod_metrics_endpoints.as_slice())
        }
        ScrapeObject::Probe(probe) => put_credentials(names, &probe.spec.credentials),
    }
}

#[tactic(auto, using(crate::proofs::NameLemmas::names_then))]
fn put_endpoints(names: &mut Table<()>, endpoints: &[Endpoint]) -> Result<(), NoMemory>
    ensures { OnOk result (names.new ≡ spec.with_names names.old
        (flat_map spec.endpoint_refs endpoints.now)) }
{
    for endpoint in endpoints {
        put_credentials(names, &endpoint.credentials)?;
    }
    Ok(())
}

#[tactic(auto, using(crate::proofs::NameLemmas::names_then))]
fn put_pod_endpoints(names: &mut Table<()>, endpoints: &[PodEndpoint]) -> Result<(), NoMemory>
    ensures { OnOk result (names.new ≡ spec.with_names names.old
        (flat_map spec.pod_endpoint_refs endpoints.now)) }
{
    for endpoint in endpoints {
        put_credentials(names, &endpoint.endpoint.credentials)?;
    }
    Ok(())
}

#[tactic(auto, using(crate::proofs::NameLemmas::names_then))]
fn put_receivers(names: &mut Table<()>, receivers: &[Receiver]) -> Result<(), NoMemory>
    ensures { OnOk result (names.new ≡ spec.with_names names.old
        (flat_map spec.receiver_refs receivers.now)) }
{
    for receiver in receivers {
        put_webhooks(names, receiver.webhook_configs.as_slice())?;
    }
    Ok(())
}

#[tactic(auto, using(crate::proofs::NameLemmas::names_then))]
fn put_webhooks(names: &mut Table<()>, webhooks: &[Webhook]) -> Result<(), NoMemory>
    ensures { OnOk result (names.new ≡ spec.with_names names.old
        (flat_map spec.webhook_refs webhooks.now)) }
{
    for webhook in webhooks {
        put_given(names, &webhook.url_secret)?;
    }
    Ok(())
}

fn put_credentials(names: &mut Table<()>, credentials: &Credentials) -> Result<(), NoMemory>
    ensures { OnOk result (names.new ≡ spec.with_names names.old (spec.credential_refs credentials.now)) }
{
    put_basic(names, &credentials.basic_auth)?;
    put_given(names, &credentials.bearer_token_secret)?;
    match &credentials.authorization {
        Some(header) => put_name(names, &header.credentials),
        None => Ok(()),
    }
}

fn put_basic(names: &mut Table<()>, auth: &Option<BasicAuth>) -> Result<(), NoMemory>
    ensures { OnOk result (names.new ≡ spec.with_names names.old (spec.basic_refs auth.now)) }
{
    match auth {
        Some(auth) => {
            put_name(names, &auth.username)?;
            put_name(names, &auth.password)
        }
        None => Ok(()),
    }
}

fn put_given(names: &mut Table<()>, reference: &Option<SecretRef>) -> Result<(), NoMemory>
    ensures { OnOk result (names.new ≡ spec.with_names names.old (option_to_list reference.now)) }
{
    match reference {
        Some(reference) => put_name(names, reference),
        None => Ok(()),
    }
}

fn put_name(names: &mut Table<()>, reference: &SecretRef) -> Result<(), NoMemory>
    ensures { OnOk result (names.new ≡ spec.with_names names.old (reference.now ∷ [])) }
{
    names.insert(reference.name.clone()?, ())
}
