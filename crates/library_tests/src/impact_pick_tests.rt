ghost use Rattle.std.specs.Prelude.{◌≡◌};
ghost use Rattle.impact_pick.specs.Form.{fits_prints};

use crate::texts::names;
use class_link::{TestLines, link};
use dep_record::read_record;
use et_base::{Items, NoMemory, Text};
use impact_pick::impact_text;
use order_law::{Prints, Record};
use std::alloc::Global;
use type_checker::check;
use type_frames::Checked;

// Of two class files with the sums 1111.. and 2222..; the tests A.a and C.c may depend on others.
const EARLIER: &[u8] = b"electric-record 2
digest 0000000000000000000000000000000000000000000000000000000000000000
tests 4
suite 0000000000000000000000000000000000000000000000000000000000000000
classes 2
class 1 1111111111111111111111111111111111111111111111111111111111111111
class 2 2222222222222222222222222222222222222222222222222222222222222222
units 1 5
units 2 5
units 3 5
units 4 5
reach 1 open 1
reach 2 settled 1,2
reach 3 open 1
reach 4 settled 1
end
";

const FIRST: [u8; 32] = [17; 32];

const SECOND: [u8; 32] = [34; 32];

const OTHER: [u8; 32] = [51; 32];

fn sums(alloc: Global, first: [u8; 32], second: [u8; 32]) -> Result<Prints, NoMemory> {
    Ok(Prints {
        digest: [0; 32],
        suite: [0; 32],
        classes: Items::from_slice(alloc, &[first, second])?,
        eager: [0; 32],
    })
}

// The program of no class files: no code puts `System.out`.
fn bare(alloc: Global) -> Option<Checked> {
    let lines = TestLines {
        budget: 1,
        tests: Items::new(alloc),
        files: Items::new(alloc),
    };
    let program = link(alloc, &[], &lines).ok()?;
    check(alloc, program).ok()
}

fn fits(record: &Record, prints: &Prints) -> bool
    ensures { result ≡ fits_prints record.now.more prints.now }
{
    match &record.more {
        Some(more) => more.classes.len() == prints.classes.len(),
        None => false,
    }
}

// The text, where there are as many sums as the record has classes.
fn text(alloc: Global, record: &Record, prints: &Prints) -> Option<Text> {
    if !fits(record, prints) {
        return None;
    }
    let names = names(alloc, &[b"A.a", b"B.b", b"C.c", b"D.d"]).ok()?;
    let program = bare(alloc)?;
    impact_text(alloc, &names, record, &program, prints).ok()
}

// What is told of class files with these sums.
fn told(alloc: Global, first: [u8; 32], second: [u8; 32]) -> Option<Text> {
    let prints = sums(alloc, first, second).ok()?;
    let record = read_record(alloc, EARLIER).ok()?;
    text(alloc, &record, &prints)
}

fn is_told(told: Option<Text>, text: &[u8]) -> bool {
    match told {
        Some(told) => told.as_slice() == text,
        None => false,
    }
}

#[test]
fn a_changed_class_and_who_stands_behind(rt: HostRuntime) {
    let expected = b"electric-impact 1\nchanged 2\nagain B.b\nagain C.c\nend\n";
    assert!(rt; is_told(told(rt.alloc(), FIRST, OTHER), expected));
}

#[test]
fn nothing_changed(rt: HostRuntime) {
    let expected = b"electric-impact 1\nchanged -\nend\n";
    assert!(rt; is_told(told(rt.alloc(), FIRST, SECOND), expected));
}
