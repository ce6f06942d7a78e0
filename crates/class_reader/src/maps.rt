//! Stack maps (JVMS 4.7.4).

ghost use Rattle.std.specs.Prelude.{◌≡◌, ◌==◌, ◌-◌, ◌%◌, [], take, length, IfOk, IfErr, List, Option};
ghost use Rattle.class_pool.specs.{Pool.entry_of, Reading.Gives};
ghost use Rattle.class_reader.specs.Indices.{index_at};
ghost use Rattle.class_reader.specs.Maps.{is_object, tagged_at, type_at, given_at, types_at, is_frame_tag, tells_delta, stack_given, frame_at, is_bad_length, has_bad_tag, kept_at, frames_at, map_at};

use crate::parts::{MapFrame, MapPart, MapType};
use crate::reading::{Reads, counted};
use class_pool::fault::wants;
use class_pool::fields::{run_at, u8_at, u16_at, u32_at};
use class_pool::lookup::names_class;
use class_pool::{Fault, Pool, ReadError};
use et_base::Items;
use std::alloc::Global;

// What reads types; classes that they name are looked at where that is checked. A tag that is none is a wrong
// length, left bytes before the end.
#[derive(Drop)]
struct Types<'p> {
    checked: bool,
    pool: &'p Pool,
    left: usize,
}

impl<'p> Types<'p> {
    #[tactic(auto, unfolding(crate::specs::Indices::index_at))]
    fn object_at<'a>(&self, bytes: &'a [u8]) -> Result<(u16, &'a [u8]), ReadError>
        ensures { Gives (λ x. (x.0, x.1.now)) result (index_at (is_object self.now.checked) self.now.pool.now bytes.now) }
    {
        let (index, rest) = u16_at(bytes)?;
        wants(
            !self.checked || names_class(self.pool.slots(), index),
            Fault::BadIndex(bytes.len()),
        )?;
        Ok((index, rest))
    }

    #[tactic(auto, unfolding(crate::specs::Maps::tagged_at))]
    fn tagged_of<'a>(&self, tag: u8, bytes: &'a [u8]) -> Result<(MapType, &'a [u8]), ReadError>
        ensures { Gives (λ x. (x.0, x.1.now)) result (tagged_at self.now.checked self.now.pool.now self.now.left tag bytes.now) }
    {
        match tag {
            0..=6 => Ok((MapType { tag, arg: 0 }, bytes)),
            7 => {
                let (arg, rest) = self.object_at(bytes)?;
                Ok((MapType { tag, arg }, rest))
            }
            8 => {
                let (arg, rest) = u16_at(bytes)?;
                Ok((MapType { tag, arg }, rest))
            }
            _ => Err(ReadError::Fault(Fault::BadLength(self.left))),
        }
    }

    // As many types as the tag of their entry gives, or as it tells before them.
    #[tactic(auto, unfolding(crate::specs::Maps::types_at))]
    fn types_of<'a>(
        &self,
        alloc: Global,
        told: bool,
        given: u16,
        bytes: &'a [u8],
    ) -> Result<(Items<MapType>, &'a [u8]), ReadError>
        ensures { Gives (λ x. (x.0, x.1.now)) result (types_at self.now.checked self.now.pool.now self.now.left told given bytes.now) }
    {
        let (count, rest) = given_of(told, given, bytes)?;
        counted(alloc, self, count, rest)
    }
}

impl<'p> Reads for Types<'p> {
    type Part = MapType;

    ghost reads = { λ types. type_at types.checked types.pool.now types.left };

    #[tactic(auto, unfolding(crate::specs::Maps::type_at))]
    fn read<'a>(&self, bytes: &'a [u8]) -> Result<(MapType, &'a [u8]), ReadError> {
        let (tag, rest) = u8_at(bytes)?;
        self.tagged_of(tag, rest)
    }
}

fn given_of(told: bool, given: u16, bytes: &[u8]) -> Result<(u16, &[u8]), ReadError>
    ensures { Gives (λ x. (x.0, x.1.now)) result (given_at told given bytes.now) }
{
    if told {
        u16_at(bytes)
    } else {
        Ok((given, bytes))
    }
}

fn is_frame_tag(tag: u8) -> bool
    ensures { result ≡ is_frame_tag tag }
{
    tag < 128 || 246 < tag
}

fn stack_given(tag: u8) -> u16
    ensures { result ≡ stack_given tag }
{
    if tag == 247 || 63 < tag && tag < 128 {
        1
    } else {
        0
    }
}

// An entry; a tag that is none is a wrong length, left bytes before the end.
#[tactic(auto, unfolding(crate::specs::Maps::frame_at))]
fn frame_of<'a>(
    alloc: Global,
    checked: bool,
    pool: &Pool,
    left: usize,
    bytes: &'a [u8],
) -> Result<(MapFrame, &'a [u8]), ReadError>
    ensures { Gives (λ x. (x.0, x.1.now)) result (frame_at checked pool.now left bytes.now) }
{
    let (tag, rest) = u8_at(bytes)?;
    wants(is_frame_tag(tag), Fault::BadLength(left))?;
    let (delta, rest) = given_of(127 < tag, tag as u16 % 64, rest)?;
    let full = tag == 255;
    let types = Types {
        checked,
        pool,
        left,
    };
    let (locals, rest) = types.types_of(alloc, full, (tag as u16).saturating_sub(251), rest)?;
    let (stack, rest) = types.types_of(alloc, full, stack_given(tag), rest)?;
    Ok((
        MapFrame {
            tag,
            delta,
            locals,
            stack,
        },
        rest,
    ))
}

// Whether the entry at the front has a tag that is none.
#[tactic(auto, unfolding(crate::specs::Maps::has_bad_tag))]
fn has_bad_tag(alloc: Global, pool: &Pool, bytes: &[u8]) -> Result<bool, ReadError>
    ensures found { IfOk result (λ b. b ≡ has_bad_tag pool.now bytes.now) }
    ensures err { IfErr result (λ e. e ≡ ReadError.Memory) }
{
    match frame_of(alloc, false, pool, 0, bytes) {
        Err(ReadError::Memory) => Err(ReadError::Memory),
        Err(ReadError::Fault(Fault::BadLength(_))) => Ok(true),
        _ => Ok(false),
    }
}

fn copied(alloc: Global, bytes: &[u8]) -> Result<Items<u8>, ReadError>
    ensures found { IfOk result (λ v. v ≡ bytes.now) }
    ensures err { IfErr result (λ e. e ≡ ReadError.Memory) }
{
    let mut copy = Vec::new(alloc);
    copy.extend_from_slice(bytes)?;
    Ok(Items::from_vec(copy))
}

#[tactic(auto, unfolding(crate::specs::Maps::kept_at))]
fn kept_of(
    alloc: Global,
    frames: Items<MapFrame>,
    n: usize,
    bytes: &[u8],
) -> Result<((Items<MapFrame>, Items<u8>), &[u8]), ReadError>
    ensures { Gives (λ x. ((x.0.0, x.0.1), x.1.now)) result (kept_at frames n bytes.now) }
{
    let (kept, rest) = run_at(n, bytes)?;
    Ok(((frames, copied(alloc, kept)?), rest))
}

fn front(n: usize, bytes: &[u8]) -> &[u8]
    ensures { result.now ≡ take n bytes.now }
{
    if n < bytes.len() { &bytes[..n] } else { bytes }
}

// The entries, up to the first with a bad tag; `total` bytes were left at the content, of `len` bytes.
fn frames_of<'a>(
    alloc: Global,
    pool: &Pool,
    left: usize,
    len: usize,
    total: usize,
    count: u16,
    bytes: &'a [u8],
) -> Result<((Items<MapFrame>, Items<u8>), &'a [u8]), ReadError>
    ensures { Gives (λ x. ((x.0.0, x.0.1), x.1.now)) result (frames_at pool.now left len total count [] bytes.now) }
{
    // Each entry takes a byte at least.
    let mut frames = Items::with_capacity(alloc, bytes.len().min(count as usize))?;
    let mut rest = bytes;
    for i in 0..count {
        let within = len.saturating_sub(total.saturating_sub(rest.len()));
        let bad = has_bad_tag(alloc, pool, front(within, rest))?;
        if bad {
            return kept_of(alloc, frames, within, rest);
        }
        let (frame, next) = frame_of(alloc, true, pool, left, rest)?;
        frames.push(frame)?;
        rest = next;
    }
    Ok(((frames, Items::new(alloc)), rest))
}

/// What reads a StackMapTable behind its name.
#[derive(Drop)]
pub struct Maps<'p> {
    pub alloc: Global,
    pub pool: &'p Pool,
}

impl<'p> Reads for Maps<'p> {
    type Part = MapPart;

    ghost reads = { λ maps. map_at maps.pool.now };

    #[tactic(auto, unfolding(crate::specs::Maps::map_at))]
    fn read<'a>(&self, bytes: &'a [u8]) -> Result<(MapPart, &'a [u8]), ReadError> {
        let (len, start) = u32_at(bytes)?;
        let (count, rest) = u16_at(start)?;
        let ((frames, kept), rest) = frames_of(
            self.alloc,
            self.pool,
            bytes.len(),
            len as usize,
            start.len(),
            count,
            rest,
        )?;
        wants(
            start.len().saturating_sub(rest.len()) == len as usize,
            Fault::BadLength(bytes.len()),
        )?;
        Ok((
            MapPart {
                count,
                frames,
                rest: kept,
            },
            rest,
        ))
    }
}
