use crate::texts::{is_text, names};
use dep_graph::Detected;
use dep_record::{RecordRefusal, deps_json, deps_text, digest, prints, read_record, write_record};
use et_base::{Items, NoMemory, Text};
use order_law::{Place, Shown};
use std::alloc::Global;

const SUITE: &[u8] = b"electric-suite 1\nclass T.class\ntest T.t\nend\n";

const CLASS: &[u8] = b"\xca\xfe\xba\xbe";

const DIGEST: [u8; 32] = [
    171, 237, 209, 130, 10, 209, 45, 43, 221, 47, 197, 150, 56, 229, 67, 89, 61, 223, 15, 181, 111,
    210, 8, 72, 166, 82, 107, 168, 217, 157, 178, 157,
];

const EAGER: [u8; 32] = [
    3, 42, 171, 24, 235, 112, 149, 92, 15, 113, 14, 187, 242, 176, 127, 167, 16, 43, 232, 147, 160,
    108, 103, 19, 201, 32, 117, 151, 57, 88, 168, 157,
];

const NEWER: &[u8] = b"electric-record 2
digest abedd1820ad12d2bdd2fc59638e543593ddf0fb56fd20848a6526ba8d99db29d
tests 2
suite 7a5795c239c7c9018bd95b70ff92ff9a73fd0656c3aa299943ac59247f720c33
classes 1
class 1 65ab12a8ff3263fbc257e5ddf0aa563c64573d0bab1f1115b9b107834cfa6971
units 1 6
units 2 8
reach 1 settled 1
reach 2 open 1
raw 1 2 1 static Counter.n
end
";

const OLDER: &[u8] = b"electric-record 1
digest abedd1820ad12d2bdd2fc59638e543593ddf0fb56fd20848a6526ba8d99db29d
tests 2
units 1 6
units 2 8
raw 2 2 1 static Counter.n
end
";

// Whether the sums over the suite and one class file are those of another program.
fn are_sums(alloc: Global) -> Result<bool, NoMemory> {
    let mut classes = Vec::new(alloc);
    classes.push(Vec::from_slice(alloc, CLASS)?)?;
    let all = prints(alloc, SUITE, &classes)?;
    Ok(digest(SUITE, &classes) == DIGEST && all.eager == EAGER)
}

#[test]
fn sums_are_those_of_another_program(rt: HostRuntime) {
    assert!(rt; are_sums(rt.alloc()).unwrap_or(false));
}

// Whether what is read of these bytes has them as its text.
fn is_written_again(alloc: Global, bytes: &[u8]) -> bool {
    match read_record(alloc, bytes) {
        Ok(kept) => is_text(write_record(alloc, &kept), bytes),
        Err(_) => false,
    }
}

#[test]
fn a_record_is_written_as_it_was_read(rt: HostRuntime) {
    assert!(rt; is_written_again(rt.alloc(), NEWER));
}

#[test]
fn a_faulty_line_is_named(rt: HostRuntime) {
    let refusal = read_record(rt.alloc(), OLDER).err();
    assert!(rt; refusal == Some(RecordRefusal::RecordFault { line: 6 }));
}

const REPORT: &[u8] = b"electric-deps 1
raw Counter.set -> Counter.show locations 1
at static Counter.n
end
";

const JSON: &[u8] =
    b"{\"edges\":[{\"count\":1,\"from\":\"Counter.set\",\"kind\":\"raw\",\"locations\":[{\"at\":\"static Counter.n\",\"walk\":[]}],\"to\":\"Counter.show\"}],\"tests\":2}
";

// What is shown of the record's one edge.
fn shown(alloc: Global) -> Result<Items<Shown>, NoMemory> {
    let at = Text::from_slice(alloc, b"static Counter.n")?;
    let walk = Items::new(alloc);
    let mut places = Items::new(alloc);
    places.push(Place { at, walk })?;
    let mut shown = Items::new(alloc);
    shown.push(Shown { places })?;
    Ok(shown)
}

fn counter(alloc: Global) -> Option<Detected> {
    let shown = shown(alloc).ok()?;
    let kept = read_record(alloc, NEWER).ok()?;
    if shown.len() == kept.edges.len() {
        Some(Detected { kept, shown })
    } else {
        None
    }
}

// Whether both reports on what was detected are these.
fn are_reports(alloc: Global, detected: &Detected) -> Result<bool, NoMemory> {
    let names = names(alloc, &[b"Counter.set", b"Counter.show"])?;
    Ok(
        is_text(deps_text(alloc, detected, &names), REPORT)
            && is_text(deps_json(alloc, detected, &names), JSON),
    )
}

fn is_reported(alloc: Global) -> bool {
    match counter(alloc) {
        Some(detected) => are_reports(alloc, &detected).unwrap_or(false),
        None => false,
    }
}

#[test]
fn the_reports_on_a_counter(rt: HostRuntime) {
    assert!(rt; is_reported(rt.alloc()));
}
