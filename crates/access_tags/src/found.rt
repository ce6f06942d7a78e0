//! The edges of rows, and what is shown of them.

ghost use Rattle.std.specs.Prelude.{◌≡◌, ◌≤◌, ◌++◌, ◌+◌, ℕ, [], Bool, length, map, slice_get, true, Some, IfOk, OnOk};
ghost use Rattle.jvm_model.specs.Texts.{location_text};
ghost use Rattle.order_law.specs.{Histories.Touches, OwnForm.HasCodeUnits, Pairing.PairedList, RecordForm.is_place_text, Walk.IsShownIn};
ghost use Rattle.order_law.specs.OwnRecord as own;
ghost use Rattle.access_tags.specs.declared.ended.Ended.{Ended as Kept};
ghost use Rattle.access_tags.specs.{AreNames.AreNames, Ran.HaveWalks, Numbering.located, Rows.edge_by};
ghost use Rattle.access_tags.specs.FoundIn.{AreEnded, added, are_printed, edges_up_to};
ghost use Rattle.access_tags.specs.Places.{place_by, shown_parts, shown_rows};

use crate::conflict::LocationKey;
use crate::ended::Ended;
use crate::reads::walk_texts;
use crate::rows::Row;
use crate::shown_text::{place_text, program_units};
use crate::texts::push_location;
use et_base::{Items, NoMemory, Text};
use jvm_model::{Location, Program};
use order_law::{Edge, Place, Shown};
use std::alloc::Global;

/// The edge of a row of a test, where the tests made so many objects each.
pub fn edge_of(
    alloc: Global,
    p: &Program,
    made: &[u64],
    names: &[Location],
    later: u32,
    row: &Row,
) -> Result<Edge, NoMemory>
    requires { HasCodeUnits p.now }
    ensures edge { IfOk result (λ e. e ≡ edge_by p.now (own.owner_in made.now) names.now later row.now) }
    ensures form { IfOk result (λ e. is_place_text e.first ≡ true) }
{
    let first = match row.spots.as_slice() {
        [] => LocationKey::Static { field: 0 },
        [spot, ..] => *spot,
    };
    Ok(Edge {
        earlier: row.earlier,
        later,
        kind: row.kind,
        count: row.count,
        first: spot_text(alloc, p, made, names, first)?,
    })
}

/// The text of a part's location as a record has it, where the tests made so many objects each.
fn spot_text(
    alloc: Global,
    p: &Program,
    made: &[u64],
    names: &[Location],
    spot: LocationKey,
) -> Result<Text, NoMemory>
    requires { HasCodeUnits p.now }
    ensures text { IfOk result (λ t. t ≡ own.cut (location_text p.now (own.owner_in made.now) (located names.now spot))) }
    ensures form { IfOk result (λ t. is_place_text t ≡ true) }
{
    match spot {
        LocationKey::Static { field } => place_text(alloc, p, made, &Location::Static { field }),
        LocationKey::Init { class } => place_text(alloc, p, made, &Location::Init { class }),
        LocationKey::Head { object } => place_text(alloc, p, made, &Location::Head { object }),
        LocationKey::Field { object, field } => {
            place_text(alloc, p, made, &Location::Field { object, field })
        }
        LocationKey::Elem { object, index } => {
            place_text(alloc, p, made, &Location::Elem { object, index })
        }
        LocationKey::Text { object } => place_text(alloc, p, made, &Location::Text { object }),
        LocationKey::Named { name } => match names.get(name as usize) {
            None => place_text(alloc, p, made, &Location::Static { field: 0 }),
            Some(location) => place_text(alloc, p, made, location),
        },
    }
}

/// Parts with their walks, where the tests made so many objects each.
pub fn shown_of(
    alloc: Global,
    p: &Program,
    made: &[u64],
    names: &[Location],
    spots: &[LocationKey],
    walks: &[Items<LocationKey>],
) -> Result<Shown, NoMemory>
    ensures { IfOk result (λ shown. shown ≡ shown_parts p.now (own.owner_in made.now) names.now spots.now walks.now) }
{
    let mut places = Items::new(alloc);
    for i in 0..spots.len().min(walks.len()) {
        places.push(place_of(alloc, p, made, names, spots[i], walks[i].as_slice())?)?;
    }
    Ok(Shown { places })
}

/// A part with its walk.
fn place_of(
    alloc: Global,
    p: &Program,
    made: &[u64],
    names: &[Location],
    spot: LocationKey,
    walk: &[LocationKey],
) -> Result<Place, NoMemory>
    ensures { IfOk result (λ place. place ≡ place_by p.now (own.owner_in made.now) names.now spot walk.now) }
{
    let walk = walk_texts(alloc, p, walk)?;
    let mut at = Text::new(alloc);
    push_spot(&mut at, p, made, names, spot)?;
    Ok(Place { at, walk })
}

/// Appends the text of a part's location.
fn push_spot(
    out: &mut Text,
    p: &Program,
    made: &[u64],
    names: &[Location],
    spot: LocationKey,
) -> Result<(), NoMemory>
    ensures { OnOk result (out.new ≡ out.old ++ location_text p.now (own.owner_in made.now) (located names.now spot)) }
{
    match spot {
        LocationKey::Static { field } => push_location(out, p, made, &Location::Static { field }),
        LocationKey::Init { class } => push_location(out, p, made, &Location::Init { class }),
        LocationKey::Head { object } => push_location(out, p, made, &Location::Head { object }),
        LocationKey::Field { object, field } => {
            push_location(out, p, made, &Location::Field { object, field })
        }
        LocationKey::Elem { object, index } => {
            push_location(out, p, made, &Location::Elem { object, index })
        }
        LocationKey::Text { object } => push_location(out, p, made, &Location::Text { object }),
        LocationKey::Named { name } => match names.get(name as usize) {
            None => push_location(out, p, made, &Location::Static { field: 0 }),
            Some(location) => push_location(out, p, made, location),
        },
    }
}

/// Adds the edges of rows.
fn push_edges(
    alloc: Global,
    p: &Program,
    made: &[u64],
    names: &[Location],
    test: u32,
    rows: &[Row],
    edges: &mut Items<Edge>,
) -> Result<(), NoMemory>
    requires { HasCodeUnits p.now }
    ensures form { OnOk result (are_printed edges.old ≡ true → are_printed edges.new ≡ true) }
    ensures edges { OnOk result (edges.new ≡ edges.old ++ map (edge_by p.now (own.owner_in made.now) names.now test) rows.now) }
{
    for row in rows {
        edges.push(edge_of(alloc, p, made, names, test, row)?)?;
    }
    Ok(())
}

/// Adds what is shown of rows.
fn push_shown(
    alloc: Global,
    p: &Program,
    made: &[u64],
    names: &[Location],
    rows: &[Row],
    walks: &[Items<Items<LocationKey>>],
    shown: &mut Items<Shown>,
) -> Result<(), NoMemory>
    ensures { OnOk result (shown.new ≡ shown.old ++ shown_rows p.now (own.owner_in made.now) names.now rows.now walks.now) }
{
    for i in 0..rows.len().min(walks.len()) {
        let spots = rows[i].spots.as_slice();
        shown.push(shown_of(alloc, p, made, names, spots, walks[i].as_slice())?)?;
    }
    Ok(())
}

/// How many objects each test made, by how many there were when each test before the last ended and when that did.
pub fn made_of(alloc: Global, ended: &[Ended], last: u64) -> Result<Vec<u64>, NoMemory>
    ensures { IfOk result (λ made. (f : ℕ → ℕ) → f 0 ≡ 0 → ((i : ℕ) (x : Kept) → slice_get ended.now i ≡ Some x → x.size ≡ f (i + 1)) → last ≡ f (length ended.now + 1)
        → made.items ≡ added f (length ended.now + 1)) }
{
    let mut made = Vec::new(alloc);
    let mut before = 0;
    for test in ended {
        made.push(test.size.saturating_sub(before))?;
        before = test.size;
    }
    made.push(last.saturating_sub(before))?;
    Ok(made)
}

/// How many rows these tests have.
fn row_count(ended: &[Ended], last: &Ended) -> usize {
    let mut count = last.rows.len();
    for test in ended {
        count = count.saturating_add(test.rows.len());
    }
    count
}

/// The edges of a run of tests: of those before the last, and of that.
pub fn edges_of(
    alloc: Global,
    p: &Program,
    made: &[u64],
    names: &[Location],
    ended: &[Ended],
    last: &Ended,
) -> Result<Items<Edge>, NoMemory>
    ensures printed { IfOk result (λ edges. are_printed edges ≡ true) }
    ensures edges { IfOk result (λ edges. (kept : Bool) (T : Touches) → AreEnded kept T names.now ended.now last.now → edges ≡ edges_up_to p.now T (own.owner_in made.now) (length ended.now + 1)) }
{
    if ended.len() >= u32::MAX as usize {
        return Err(NoMemory {});
    }
    program_units(p);
    let mut edges = Items::with_capacity(alloc, row_count(ended, last))?;
    for i in 0..ended.len() {
        let rows = ended[i].rows.as_slice();
        push_edges(alloc, p, made, names, i as u32 + 1, rows, &mut edges)?;
    }
    let rows = last.rows.as_slice();
    push_edges(
        alloc,
        p,
        made,
        names,
        ended.len() as u32 + 1,
        rows,
        &mut edges,
    )?;
    Ok(edges)
}

/// What is shown of these edges, where walks were kept.
pub fn shown_of_edges(
    alloc: Global,
    p: &Program,
    made: &[u64],
    names: &[Location],
    ended: &[Ended],
    last: &Ended,
) -> Result<Items<Shown>, NoMemory>
    ensures { IfOk result (λ shown. (T : Touches) → AreEnded true T names.now ended.now last.now → AreNames names.now → HaveWalks p.now T → length ended.now + 1 ≤ length p.now.tests
        → PairedList (IsShownIn p.now T (own.owner_in made.now)) (edges_up_to p.now T (own.owner_in made.now) (length ended.now + 1)) shown) }
{
    let mut shown = Items::new(alloc);
    for test in ended {
        let rows = test.rows.as_slice();
        push_shown(
            alloc,
            p,
            made,
            names,
            rows,
            test.walks.as_slice(),
            &mut shown,
        )?;
    }
    let rows = last.rows.as_slice();
    push_shown(
        alloc,
        p,
        made,
        names,
        rows,
        last.walks.as_slice(),
        &mut shown,
    )?;
    Ok(shown)
}
