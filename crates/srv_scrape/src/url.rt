ghost use Rattle.std.specs.Prelude.{◌≡◌, ◌++◌, ◌∷◌, [], map, option_map, IfOk, OnOk};
ghost use Rattle.std.specs.List.{filter_map};
ghost use Rattle.srv_scrape.specs.Targets as spec;

use form_urlencoded::Serializer;
use op_base::{Labels, NoMemory, Text};
use std::alloc::Global;

// The URL that is asked: SCHEME://ADDRESS and the path, by the labels, and the parameters.
pub(crate) fn url_of(alloc: Global, labels: &Labels) -> Result<Text, NoMemory>
    ensures { IfOk result (λ url. url ≡ spec.url_of labels.now) }
{
    let mut url = Text::from_str(alloc, labels.value("__scheme__"))?;
    url.push_str("://")?;
    url.push_str(labels.value("__address__"))?;
    url.push_str(labels.value("__metrics_path__"))?;
    let parameters = parameters_of(alloc, labels)?;
    push_query(alloc, &mut url, parameters.as_slice())?;
    Ok(url)
}

// The labels' parameters, in the order of their names.
fn parameters_of(alloc: Global, labels: &Labels) -> Result<Vec<(&str, &str)>, NoMemory>
    ensures { IfOk result (λ parameters. map (λ pair. (pair.0.now, pair.1.now)) parameters.items
        ≡ spec.parameters_of labels.now) }
{
    let mut parameters = Vec::new(alloc);
    for place in 0..labels.len() {
        push_parameter(
            &mut parameters,
            labels.name_at(place),
            labels.value_at(place),
        )?;
    }
    Ok(parameters)
}

fn push_parameter<'a>(
    parameters: &mut Vec<(&'a str, &'a str)>,
    label: &'a str,
    value: &'a str,
) -> Result<(), NoMemory>
    ensures { OnOk result (map (λ pair. (pair.0.now, pair.1.now)) parameters.new.items
        ≡ map (λ pair. (pair.0.now, pair.1.now)) parameters.old.items
        ++ filter_map spec.parameter_of ((label.now, value.now) ∷ [])) }
{
    if let Some(name) = parameter_name(label) {
        parameters.push((name, value))?;
    }
    Ok(())
}

// The name of the parameter that a label of this name gives.
fn parameter_name(label: &str) -> Option<&str>
    ensures { option_map (λ name. name.now) result ≡ spec.parameter_name label.now }
{
    label.strip_prefix("__param_")
}

fn push_query(alloc: Global, url: &mut Text, parameters: &[(&str, &str)]) -> Result<(), NoMemory>
    ensures { OnOk result (url.new
        ≡ url.old ++ spec.query_of (map (λ pair. (pair.0.now, pair.1.now)) parameters.now)) }
{
    if parameters.is_empty() {
        return Ok(());
    }
    let mut form = Serializer::new(String::new(alloc));
    form.extend_pairs(parameters)?;
    url.push_str("?")?;
    url.push_str(form.finish().as_str())
}
