//! Fields and methods (JVMS 4.5 and 4.6).

ghost use Rattle.std.specs.Prelude.{◌≡◌, ◌+◌, ◌<◌, length, [], ◌∷◌, ◌++◌, IfOk};
ghost use Rattle.class_pool.specs.{Reading.Gives, Loops.counted};
ghost use Rattle.class_reader.specs.{Texts.IsSeen, Class.field_at, Class.fields_at, Class.method_at, Class.methods_at};

use crate::attributes::{field_attributes, method_attributes};
use crate::names::{Form, fits_flags, form_at};
use crate::parts::MemberPart;
use crate::texts::Texts;
use class_pool::fault::wants;
use class_pool::fields::u16_at;
use class_pool::{Fault, ReadError};
use et_base::Items;
use std::alloc::Global;
use std::collections::BTreeSet;

// A kind of members: what reads one behind those before it, whose keys are kept beside them.
trait Kind {
    ghost use Rattle.std.specs.Prelude.{ℕ, List, Option, Result};
    ghost use Rattle.class_pool.specs.declared.fault.Fault.{Fault};
    ghost use Rattle.class_pool.specs.declared.pool.Entry.{Entry};
    ghost use Rattle.class_reader.specs.declared.parts.MemberPart.{MemberPart};

    ghost member_at: { List (Option Entry) → List MemberPart → List ℕ → Result (MemberPart × List ℕ) Fault };

    fn member_of<'a>(
        &self,
        texts: &Texts,
        before: &[MemberPart],
        keys: &mut BTreeSet<u32>,
        bytes: &'a [u8],
    ) -> Result<(MemberPart, &'a [u8]), ReadError>
        requires few { length before.now < 65535 }
        requires seen { IsSeen texts.now before.now keys.old }
        ensures gives { Gives (λ x. (x.0, x.1.now)) result (member_at texts.now before.now bytes.now) }
        ensures seen { IfOk result (λ x. IsSeen texts.now (before.now ++ x.0 ∷ []) keys.new) };
}

#[derive(Drop)]
struct Fields {}

impl Kind for Fields {
    ghost member_at = { field_at };

    #[tactic(auto, unfolding(crate::specs::Class::field_at))]
    fn member_of<'a>(
        &self,
        texts: &Texts,
        before: &[MemberPart],
        keys: &mut BTreeSet<u32>,
        bytes: &'a [u8],
    ) -> Result<(MemberPart, &'a [u8]), ReadError> {
        let (flags, rest) = u16_at(bytes)?;
        let (name, rest) = form_at(texts, Form::FieldName, rest)?;
        let left = rest.len();
        let (descriptor, rest) = form_at(texts, Form::FieldType, rest)?;
        texts.once(before, keys, name, descriptor, left)?;
        let (constant, rest) = field_attributes(texts.pool(), descriptor, rest)?;
        Ok((
            MemberPart {
                flags,
                name,
                descriptor,
                constant,
                code: None,
            },
            rest,
        ))
    }
}

#[derive(Drop)]
struct Methods {
    alloc: Global,
}

impl Kind for Methods {
    ghost member_at = { method_at };

    #[tactic(auto, unfolding(crate::specs::Class::method_at))]
    fn member_of<'a>(
        &self,
        texts: &Texts,
        before: &[MemberPart],
        keys: &mut BTreeSet<u32>,
        bytes: &'a [u8],
    ) -> Result<(MemberPart, &'a [u8]), ReadError> {
        let (flags, rest) = u16_at(bytes)?;
        let (name, rest) = form_at(texts, Form::MethodName, rest)?;
        let left = rest.len();
        let (descriptor, rest) = form_at(texts, Form::MethodType(flags), rest)?;
        texts.once(before, keys, name, descriptor, left)?;
        let number = before.len() as u32 + 1;
        let (code, rest) = method_attributes(self.alloc, number, texts.pool(), rest)?;
        wants(
            fits_flags(flags, code.is_some()),
            Fault::CodeKind(bytes.len()),
        )?;
        Ok((
            MemberPart {
                flags,
                name,
                descriptor,
                constant: None,
                code,
            },
            rest,
        ))
    }
}

fn members_counted<'a, K: Kind>(
    alloc: Global,
    kind: &K,
    texts: &Texts,
    count: u16,
    bytes: &'a [u8],
) -> Result<(Items<MemberPart>, &'a [u8]), ReadError>
    ensures { Gives (λ x. (x.0, x.1.now)) result (counted (λ before _ b. K.member_at texts.now before b) [] count bytes.now) }
{
    let mut members = Items::new(alloc);
    let mut keys = BTreeSet::new(alloc);
    let mut rest = bytes;
    for i in 0..count {
        let (member, next) = kind.member_of(texts, members.as_slice(), &mut keys, rest)?;
        members.push(member)?;
        rest = next;
    }
    Ok((members, rest))
}

/// The fields, behind the interfaces.
#[tactic(auto, unfolding(crate::specs::Class::fields_at))]
pub fn fields_of<'a>(
    alloc: Global,
    texts: &Texts,
    bytes: &'a [u8],
) -> Result<(Items<MemberPart>, &'a [u8]), ReadError>
    ensures { Gives (λ x. (x.0, x.1.now)) result (fields_at texts.now bytes.now) }
{
    let (count, rest) = u16_at(bytes)?;
    members_counted(alloc, &Fields {}, texts, count, rest)
}

/// The methods, behind the fields.
#[tactic(auto, unfolding(crate::specs::Class::methods_at))]
pub fn methods_of<'a>(
    alloc: Global,
    texts: &Texts,
    bytes: &'a [u8],
) -> Result<(Items<MemberPart>, &'a [u8]), ReadError>
    ensures { Gives (λ x. (x.0, x.1.now)) result (methods_at texts.now bytes.now) }
{
    let (count, rest) = u16_at(bytes)?;
    members_counted(alloc, &Methods { alloc }, texts, count, rest)
}
