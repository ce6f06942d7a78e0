//! The report on dependences as JSON.

ghost use Rattle.std.specs.Prelude.{◌≡◌, [], length, map, IfOk, if◌then◌else◌};
ghost use Rattle.std.specs.Str.{is_utf8};
ghost use Rattle.serde_json.specs.View.{view, items_of};
ghost use Rattle.dep_record.specs.DepsJson as json;

use crate::record_text::kind_word;
use crate::report_text::test_name;
use dep_graph::Detected;
use et_base::{NoMemory, Text};
use jvm_model::Names;
use order_law::{Edge, Place, Shown};
use serde_json::{Value, json};
use std::alloc::{AllocError, Global};
use std::str;

// Bytes as a text; an empty one where they are no UTF-8.
#[tactic(auto, using(crate::proofs::JsonLaws::utf8_tests))]
fn text_of(bytes: &[u8]) -> &str
    ensures { result.now ≡ (if is_utf8 bytes.now then bytes.now else []) }
{
    match str::from_utf8(bytes) {
        Ok(text) => text,
        Err(_) => "",
    }
}

fn text_value(alloc: Global, bytes: &[u8]) -> Result<Value, AllocError>
    ensures { IfOk result (λ v. view v ≡ json.text_data bytes.now) }
{
    json!(in alloc; text_of(bytes))
}

fn walk_values(alloc: Global, walk: &[Text]) -> Result<Vec<Value>, AllocError>
    ensures { IfOk result (λ vs. map view vs.items ≡ map json.text_data walk.now) }
{
    let mut values = Vec::new(alloc);
    for read in walk {
        values.push(text_value(alloc, read.as_slice())?)?;
    }
    Ok(values)
}

// A location.
fn place_value(alloc: Global, place: &Place) -> Result<Value, AllocError>
    ensures { IfOk result (λ v. view v ≡ json.place_data place.now) }
{
    let at = text_value(alloc, place.at.as_slice())?;
    let walk = Value::Array(walk_values(alloc, place.walk.as_slice())?);
    json!(in alloc; {"at": at, "walk": walk})
}

fn place_values(alloc: Global, places: &[Place]) -> Result<Vec<Value>, AllocError>
    ensures { IfOk result (λ vs. map view vs.items ≡ map json.place_data places.now) }
{
    let mut values = Vec::new(alloc);
    for place in places {
        values.push(place_value(alloc, place)?)?;
    }
    Ok(values)
}

// A conflict and what is shown of it.
fn edge_value(alloc: Global, names: &Names, edge: &Edge, shown: &Shown) -> Result<Value, AllocError>
    ensures { IfOk result (λ v. view v ≡ json.edge_data names.now edge.now shown.now) }
{
    let from = text_value(alloc, test_name(names, edge.earlier))?;
    let kind = text_value(alloc, kind_word(edge.kind))?;
    let to = text_value(alloc, test_name(names, edge.later))?;
    let locations = Value::Array(place_values(alloc, shown.places.as_slice())?);
    json!(in alloc; {"count": edge.count, "from": from, "kind": kind, "locations": locations, "to": to})
}

fn edge_values(
    alloc: Global,
    names: &Names,
    edges: &[Edge],
    shown: &[Shown],
) -> Result<Vec<Value>, AllocError>
    requires { length shown.now ≡ length edges.now }
    ensures { IfOk result (λ vs. map view vs.items ≡ json.all_edges names.now edges.now shown.now) }
{
    let mut values = Vec::new(alloc);
    for index in 0..edges.len() {
        values.push(edge_value(alloc, names, &edges[index], &shown[index])?)?;
    }
    Ok(values)
}

// The whole report.
fn report_value(alloc: Global, edges: Vec<Value>, tests: u64) -> Result<Value, AllocError>
    ensures { IfOk result (λ v. view v ≡ json.report_data (items_of (map view edges.items)) tests) }
{
    let edges = Value::Array(edges);
    json!(in alloc; {"edges": edges, "tests": tests})
}

/// The report on what a detection run found, as JSON: one object, in one line. A test whose name isn't there has the empty
/// name.
///
/// # Errors
///
/// `NoMemory` where an allocation is refused.
pub fn deps_json(alloc: Global, detected: &Detected, names: &Names) -> Result<Text, NoMemory>
    ensures { IfOk result (λ text. text ≡ json.deps_json names.now (length detected.now.kept.units) detected.now.kept.edges detected.now.shown) }
{
    let edges = edge_values(
        alloc,
        names,
        detected.kept.edges.as_slice(),
        detected.shown.as_slice(),
    )?;
    let report = report_value(alloc, edges, detected.kept.units.len() as u64)?;
    let mut out = Text::from_vec(report.to_vec(alloc)?);
    out.push(b'\n')?;
    Ok(out)
}
