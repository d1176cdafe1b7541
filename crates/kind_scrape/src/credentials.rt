ghost use Rattle.std.specs.Prelude.{ℕ, ◌≡◌, codes, is_some, List, Option, Some};
ghost use Rattle.op_manifest.specs.Trees.{data_of};
ghost use Rattle.op_manifest.specs.Shapes.{Adds};
ghost use Rattle.op_manifest.specs.Checks as check;
ghost use Rattle.op_manifest.specs.Parts as part;
ghost use Rattle.op_manifest.specs.References as references;
ghost use Rattle.op_manifest.specs.Values as value;
ghost use Rattle.kind_scrape.specs.Credentials as spec;

use crate::needed::{needed_reference, text_or};
use op_base::{NoMemory, Text};
use op_manifest::{
    Item, SecretRef, Shape, ShapeRule, Tree, given, noted_item, noted_known, noted_reference,
    noted_text, path_to, tell,
};
use std::alloc::Global;

/// A user and its password, both out of Secrets.
#[derive(Debug, PartialEq, Eq, Drop)]
pub struct BasicAuth {
    pub username: SecretRef,
    pub password: SecretRef,
}

/// The header `Authorization`: its type, and what it holds, out of a Secret.
#[derive(Debug, PartialEq, Eq, Drop)]
pub struct Authorization {
    pub sort: Text,
    pub credentials: SecretRef,
}

/// What a scrape shows to its targets: at most one of these. PodMonitors and Probes name no file.
#[derive(Debug, PartialEq, Eq, Drop)]
pub struct Credentials {
    pub basic_auth: Option<BasicAuth>,
    pub bearer_token_secret: Option<SecretRef>,
    pub bearer_token_file: Option<Text>,
    pub authorization: Option<Authorization>,
}

impl Item for BasicAuth {
    ghost use Rattle.op_manifest.specs.Checks.{table};
    ghost use Rattle.kind_scrape.specs.Credentials as spec;

    ghost wrongs = { table spec.basic_rows };

    ghost of = { spec.basic_of };

    fn read(
        found: &mut Option<Shape>,
        alloc: Global,
        tree: &Tree,
        path: &str,
    ) -> Result<BasicAuth, NoMemory> {
        noted_known(found, alloc, tree, &["username", "password"], path)?;
        let username = needed_reference(found, alloc, tree, "username", path)?;
        let password = needed_reference(found, alloc, tree, "password", path)?;
        Ok(BasicAuth { username, password })
    }
}

impl Item for Authorization {
    ghost use Rattle.op_manifest.specs.Checks.{table};
    ghost use Rattle.kind_scrape.specs.Credentials as spec;

    ghost wrongs = { table spec.authorization_rows };

    ghost of = { spec.authorization_of };

    fn read(
        found: &mut Option<Shape>,
        alloc: Global,
        tree: &Tree,
        path: &str,
    ) -> Result<Authorization, NoMemory> {
        noted_known(found, alloc, tree, &["type", "credentials"], path)?;
        let sort = text_or(found, alloc, tree, "type", path, "Bearer")?;
        let credentials = needed_reference(found, alloc, tree, "credentials", path)?;
        Ok(Authorization { sort, credentials })
    }
}

/// The credentials. One that stands behind another is a breach.
pub(crate) fn noted_credentials(
    found: &mut Option<Shape>,
    alloc: Global,
    tree: &Tree,
    path: &str,
) -> Result<Credentials, NoMemory>
    ensures { Adds (λ credentials. credentials) found.old found.new result
        (check.rows_wrongs spec.credential_rows path.now (data_of tree.now)) (spec.credentials_of (data_of tree.now)) }
{
    let basic_auth = noted_item(found, alloc, tree, "basicAuth", path)?;
    let bearer_token_secret = noted_token(found, alloc, tree, path)?;
    let bearer_token_file = noted_token_file(found, alloc, tree, path)?;
    let authorization = noted_last_header(found, alloc, tree, path)?;
    Ok(Credentials {
        basic_auth,
        bearer_token_secret,
        bearer_token_file,
        authorization,
    })
}

/// The credentials of a table without a token out of a file.
pub(crate) fn noted_secrets(
    found: &mut Option<Shape>,
    alloc: Global,
    tree: &Tree,
    path: &str,
) -> Result<Credentials, NoMemory>
    ensures { Adds (λ credentials. credentials) found.old found.new result
        (check.rows_wrongs spec.secret_rows path.now (data_of tree.now)) (spec.secrets_of (data_of tree.now)) }
{
    let basic_auth = noted_item(found, alloc, tree, "basicAuth", path)?;
    let bearer_token_secret = noted_token(found, alloc, tree, path)?;
    let authorization = noted_second_header(found, alloc, tree, path)?;
    Ok(Credentials {
        basic_auth,
        bearer_token_secret,
        bearer_token_file: None,
        authorization,
    })
}

#[tactic(auto, unfolding(crate::specs::Credentials::unless_second))]
fn noted_token(
    found: &mut Option<Shape>,
    alloc: Global,
    tree: &Tree,
    path: &str,
) -> Result<Option<SecretRef>, NoMemory>
    ensures { Adds (λ token. token) found.old found.new result
        (spec.unless_second (spec.is_second_token (data_of tree.now)) references.reference (codes "bearerTokenSecret") path.now (data_of tree.now))
        (references.reference_in (codes "bearerTokenSecret") (data_of tree.now)) }
{
    if is_second_token(tree) {
        tell(
            found,
            ShapeRule::UNKNOWN_FIELD,
            path_to(alloc, path, "bearerTokenSecret")?,
        );
        noted_reference(&mut None, alloc, tree, "bearerTokenSecret", path)
    } else {
        noted_reference(found, alloc, tree, "bearerTokenSecret", path)
    }
}

#[tactic(auto, unfolding(crate::specs::Credentials::unless_second))]
fn noted_token_file(
    found: &mut Option<Shape>,
    alloc: Global,
    tree: &Tree,
    path: &str,
) -> Result<Option<Text>, NoMemory>
    ensures { Adds (λ file. file) found.old found.new result
        (spec.unless_second (spec.is_second_file (data_of tree.now)) check.text (codes "bearerTokenFile") path.now (data_of tree.now))
        (value.text_in (codes "bearerTokenFile") (data_of tree.now)) }
{
    if is_second_file(tree) {
        tell(
            found,
            ShapeRule::UNKNOWN_FIELD,
            path_to(alloc, path, "bearerTokenFile")?,
        );
        noted_text(&mut None, alloc, tree, "bearerTokenFile", path)
    } else {
        noted_text(found, alloc, tree, "bearerTokenFile", path)
    }
}

fn noted_second_header(
    found: &mut Option<Shape>,
    alloc: Global,
    tree: &Tree,
    path: &str,
) -> Result<Option<Authorization>, NoMemory>
    ensures { Adds (λ header. header) found.old found.new result
        (spec.unless_second (spec.is_second_header (data_of tree.now)) (check.table spec.authorization_rows) (codes "authorization") path.now (data_of tree.now))
        (part.item_in spec.authorization_of (codes "authorization") (data_of tree.now)) }
{
    noted_header(found, alloc, tree, path, is_second_header(tree))
}

fn noted_last_header(
    found: &mut Option<Shape>,
    alloc: Global,
    tree: &Tree,
    path: &str,
) -> Result<Option<Authorization>, NoMemory>
    ensures { Adds (λ header. header) found.old found.new result
        (spec.unless_second (spec.is_last_header (data_of tree.now)) (check.table spec.authorization_rows) (codes "authorization") path.now (data_of tree.now))
        (part.item_in spec.authorization_of (codes "authorization") (data_of tree.now)) }
{
    noted_header(found, alloc, tree, path, is_last_header(tree))
}

#[tactic(auto, unfolding(crate::specs::Credentials::unless_second))]
fn noted_header(
    found: &mut Option<Shape>,
    alloc: Global,
    tree: &Tree,
    path: &str,
    is_second: bool,
) -> Result<Option<Authorization>, NoMemory>
    ensures { Adds (λ header. header) found.old found.new result
        (spec.unless_second is_second (check.table spec.authorization_rows) (codes "authorization") path.now (data_of tree.now))
        (part.item_in spec.authorization_of (codes "authorization") (data_of tree.now)) }
{
    if is_second {
        tell(
            found,
            ShapeRule::UNKNOWN_FIELD,
            path_to(alloc, path, "authorization")?,
        );
        noted_item(&mut None, alloc, tree, "authorization", path)
    } else {
        noted_item(found, alloc, tree, "authorization", path)
    }
}

fn is_second_token(tree: &Tree) -> bool
    ensures { result ≡ spec.is_second_token (data_of tree.now) }
{
    has_reference(tree, "bearerTokenSecret") && has_field(tree, "basicAuth")
}

fn is_second_file(tree: &Tree) -> bool
    ensures { result ≡ spec.is_second_file (data_of tree.now) }
{
    has_field(tree, "bearerTokenFile") && has_user_or_token(tree)
}

fn is_second_header(tree: &Tree) -> bool
    ensures { result ≡ spec.is_second_header (data_of tree.now) }
{
    has_field(tree, "authorization") && has_user_or_token(tree)
}

fn is_last_header(tree: &Tree) -> bool
    ensures { result ≡ spec.is_last_header (data_of tree.now) }
{
    has_field(tree, "authorization") && has_other_credential(tree)
}

fn has_other_credential(tree: &Tree) -> bool
    ensures { result ≡ spec.has_other_credential (data_of tree.now) }
{
    has_user_or_token(tree) || has_field(tree, "bearerTokenFile")
}

fn has_user_or_token(tree: &Tree) -> bool
    ensures { result ≡ spec.has_user_or_token (data_of tree.now) }
{
    has_field(tree, "basicAuth") || has_reference(tree, "bearerTokenSecret")
}

fn has_field(tree: &Tree, name: &str) -> bool
    ensures { result ≡ spec.has_field name.now (data_of tree.now) }
{
    match given(tree, name) {
        Some(_) => true,
        None => false,
    }
}

#[tactic(auto, unfolding(op_manifest::specs::References::reference_in))]
fn has_reference(tree: &Tree, name: &str) -> bool
    ensures { result ≡ spec.has_reference name.now (data_of tree.now) }
{
    match given(tree, name) {
        Some(reference) => is_named(reference),
        None => false,
    }
}

// Whether the reference has a name that isn't empty.
#[tactic(auto, unfolding(op_manifest::specs::References::reference_of, op_manifest::specs::Values::text_in))]
fn is_named(reference: &Tree) -> bool
    ensures { result ≡ is_some (references.reference_of (data_of reference.now)) }
{
    match given(reference, "name") {
        Some(name) => match name.as_text() {
            Some(name) => is_name_that_counts(name),
            None => false,
        },
        None => false,
    }
}

fn is_name_that_counts(name: &str) -> bool
    ensures { (key : Option (List ℕ)) → result ≡ is_some (references.named (Some name.now) key) }
{
    name.len() != 0
}
