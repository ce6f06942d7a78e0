//! The report on dependences as text.
//!
//! Each `push_` function appends lines to a text; after a refusal part of them may stand there.

ghost use Rattle.std.specs.Prelude.{◌≡◌, ◌++◌, ◌∷◌, length, map, codes, decimal, OnOk, IfOk};
ghost use Rattle.dep_record.specs.DepsText as line;
ghost use Rattle.dep_record.specs.RecordText.{ended, text_of, kind_word};

use crate::record_text::kind_word;
use dep_graph::Detected;
use et_base::{NoMemory, Text, push_decimal};
use jvm_model::Names;
use order_law::{Edge, Place, Shown};
use std::alloc::Global;

/// The name of a test.
pub fn test_name(names: &Names, test: u32) -> &[u8]
    ensures { result.now ≡ line.test_name names.now test }
{
    match names.tests.get(test.saturating_sub(1) as usize) {
        Some(name) => name.as_slice(),
        None => b"",
    }
}

// Appends reads, with an arrow before each.
fn push_more_reads(out: &mut Text, reads: &[Text]) -> Result<(), NoMemory>
    ensures { OnOk result (out.new ≡ out.old ++ line.more_reads reads.now) }
{
    for read in reads {
        out.extend_from_slice(b" > ")?;
        out.extend_from_slice(read.as_slice())?;
    }
    Ok(())
}

// Appends the walk to an object, where there is one.
fn push_walk(out: &mut Text, walk: &[Text]) -> Result<(), NoMemory>
    ensures { OnOk result (out.new ≡ out.old ++ line.walk_text walk.now) }
{
    match walk {
        [] => Ok(()),
        [first, rest @ ..] => {
            out.extend_from_slice(b" walk ")?;
            out.extend_from_slice(first.as_slice())?;
            push_more_reads(out, rest)
        }
    }
}

// Appends the line of a location.
fn push_place(out: &mut Text, place: &Place) -> Result<(), NoMemory>
    ensures { OnOk result (out.new ≡ out.old ++ ended (line.place_line place.now)) }
{
    out.extend_from_slice(b"at ")?;
    out.extend_from_slice(place.at.as_slice())?;
    push_walk(out, place.walk.as_slice())?;
    out.push(b'\n')
}

fn push_places(out: &mut Text, places: &[Place]) -> Result<(), NoMemory>
    ensures { OnOk result (out.new ≡ out.old ++ text_of (map line.place_line places.now)) }
{
    for place in places {
        push_place(out, place)?;
    }
    Ok(())
}

// Appends the kind of a conflict and the earlier test.
fn push_earlier(out: &mut Text, names: &Names, edge: &Edge) -> Result<(), NoMemory>
    ensures { OnOk result (out.new ≡ out.old ++ (kind_word edge.now.kind ++ (32 ∷ line.test_name names.now edge.now.earlier))) }
{
    out.extend_from_slice(kind_word(edge.kind))?;
    out.push(b' ')?;
    out.extend_from_slice(test_name(names, edge.earlier))
}

// Appends the later test of a conflict and its count.
fn push_later(out: &mut Text, names: &Names, edge: &Edge) -> Result<(), NoMemory>
    ensures { OnOk result (out.new ≡ out.old ++ (codes " -> " ++ (line.test_name names.now edge.now.later ++ (codes " locations " ++ decimal edge.now.count)))) }
{
    out.extend_from_slice(b" -> ")?;
    out.extend_from_slice(test_name(names, edge.later))?;
    out.extend_from_slice(b" locations ")?;
    push_decimal(out, edge.count as u64)?;
    Ok(())
}

// Appends the line of a conflict.
fn push_conflict_line(out: &mut Text, names: &Names, edge: &Edge) -> Result<(), NoMemory>
    ensures { OnOk result (out.new ≡ out.old ++ ended (line.conflict_line names.now edge.now)) }
{
    push_earlier(out, names, edge)?;
    push_later(out, names, edge)?;
    out.push(b'\n')
}

// Appends a conflict and what is shown of it.
fn push_conflict(out: &mut Text, names: &Names, edge: &Edge, shown: &Shown) -> Result<(), NoMemory>
    ensures { OnOk result (out.new ≡ out.old ++ text_of (line.conflict_lines names.now edge.now shown.now)) }
{
    push_conflict_line(out, names, edge)?;
    push_places(out, shown.places.as_slice())
}

// Appends conflicts, each with what is shown of it.
fn push_conflicts(
    out: &mut Text,
    names: &Names,
    edges: &[Edge],
    shown: &[Shown],
) -> Result<(), NoMemory>
    requires { length shown.now ≡ length edges.now }
    ensures { OnOk result (out.new ≡ out.old ++ line.all_conflicts names.now edges.now shown.now) }
{
    for index in 0..edges.len() {
        push_conflict(out, names, &edges[index], &shown[index])?;
    }
    Ok(())
}

/// The report on what a detection run found, as text. A test whose name isn't there has the empty name.
///
/// # Errors
///
/// `NoMemory` where an allocation is refused.
#[tactic(auto, unfolding(crate::specs::DepsText::deps_text))]
pub fn deps_text(alloc: Global, detected: &Detected, names: &Names) -> Result<Text, NoMemory>
    ensures { IfOk result (λ text. text ≡ line.deps_text names.now detected.now.kept.edges detected.now.shown) }
{
    let mut out = Text::new(alloc);
    out.extend_from_slice(b"electric-deps 1\n")?;
    push_conflicts(
        &mut out,
        names,
        detected.kept.edges.as_slice(),
        detected.shown.as_slice(),
    )?;
    out.extend_from_slice(b"end\n")?;
    Ok(out)
}
