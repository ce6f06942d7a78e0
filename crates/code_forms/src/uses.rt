//! How instructions use the entries of the pool (JVMS 6.5).

ghost use Rattle.std.specs.Prelude.{◌≡◌};
ghost use Rattle.code_forms.specs.Uses.{use_of};

use crate::references::Use;

/// How an instruction of this opcode uses the entry that it names; none where it names no class and no member.
#[tactic(auto, unfolding(crate::specs::Uses::use_of))]
pub fn use_of(opcode: u8) -> Option<Use>
    ensures { result ≡ use_of opcode }
{
    match opcode {
        178 | 179 => Some(Use::StaticField),
        180 | 181 => Some(Use::InstanceField),
        182 => Some(Use::Virtual),
        183 => Some(Use::Special),
        184 => Some(Use::StaticCall),
        185 => Some(Use::Interface),
        187 | 189 | 192 | 193 | 197 => Some(Use::Type),
        _ => None,
    }
}
