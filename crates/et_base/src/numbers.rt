//! The arithmetic of whole numbers in the instruction set (JVMS 6.5). Nothing here takes memory.

ghost use Rattle.std.specs.Prelude.{◌≡◌, ◌≢◌, pos};
ghost use Rattle.et_base.specs.Numbers as numbers;

/// The sum, wrapped (`iadd`).
#[tactic(auto, using(crate::proofs::NumberLaws::wrapping), unfolding(crate::specs::Numbers::add32))]
pub fn add32(a: i32, b: i32) -> i32
    ensures { result ≡ numbers.add32 a b }
{
    a.wrapping_add(b)
}

/// The difference, wrapped (`isub`).
#[tactic(auto, using(crate::proofs::NumberLaws::wrapping), unfolding(crate::specs::Numbers::sub32))]
pub fn sub32(a: i32, b: i32) -> i32
    ensures { result ≡ numbers.sub32 a b }
{
    a.wrapping_sub(b)
}

/// The product, wrapped (`imul`).
#[tactic(auto, unfolding(crate::specs::Numbers::mul32))]
pub fn mul32(a: i32, b: i32) -> i32
    ensures { result ≡ numbers.mul32 a b }
{
    a.wrapping_mul(b)
}

/// The negation, wrapped (`ineg`).
#[tactic(auto, using(crate::proofs::NumberLaws::wrapping), unfolding(crate::specs::Numbers::neg32))]
pub fn neg32(a: i32) -> i32
    ensures { result ≡ numbers.neg32 a }
{
    a.wrapping_neg()
}

/// The quotient, rounded toward zero; `MIN` by -1 gives `MIN` (`idiv`).
#[tactic(auto, using(crate::proofs::NumberLaws::wrapping), unfolding(crate::specs::Numbers::div32))]
pub fn div32(a: i32, b: i32) -> i32
    requires { b ≢ pos 0 }
    ensures { result ≡ numbers.div32 a b }
{
    a.wrapping_div(b)
}

/// What the quotient leaves, with the sign of `a`; `MIN` by -1 leaves 0 (`irem`).
#[tactic(auto, unfolding(crate::specs::Numbers::rem32))]
pub fn rem32(a: i32, b: i32) -> i32
    requires { b ≢ pos 0 }
    ensures { result ≡ numbers.rem32 a b }
{
    a.wrapping_rem(b)
}

/// `a` shifted left by the low five bits of `b` (`ishl`).
#[tactic(auto, using(crate::proofs::NumberLaws::wrapping), unfolding(crate::specs::Numbers::shl32))]
pub fn shl32(a: i32, b: i32) -> i32
    ensures { result ≡ numbers.shl32 a b }
{
    a.wrapping_shl(b.cast_unsigned())
}

/// `a` shifted right by the low five bits of `b`, with copies of its sign (`ishr`).
#[tactic(auto, unfolding(crate::specs::Numbers::shr32))]
pub fn shr32(a: i32, b: i32) -> i32
    ensures { result ≡ numbers.shr32 a b }
{
    a.wrapping_shr(b.cast_unsigned())
}

/// `a` shifted right by the low five bits of `b`, with zeros (`iushr`).
#[tactic(auto, unfolding(crate::specs::Numbers::ushr32))]
pub fn ushr32(a: i32, b: i32) -> i32
    ensures { result ≡ numbers.ushr32 a b }
{
    a.cast_unsigned()
        .wrapping_shr(b.cast_unsigned())
        .cast_signed()
}

/// The sum, wrapped (`ladd`).
#[tactic(auto, using(crate::proofs::NumberLaws::wrapping), unfolding(crate::specs::Numbers::add64))]
pub fn add64(a: i64, b: i64) -> i64
    ensures { result ≡ numbers.add64 a b }
{
    a.wrapping_add(b)
}

/// The difference, wrapped (`lsub`).
#[tactic(auto, using(crate::proofs::NumberLaws::wrapping), unfolding(crate::specs::Numbers::sub64))]
pub fn sub64(a: i64, b: i64) -> i64
    ensures { result ≡ numbers.sub64 a b }
{
    a.wrapping_sub(b)
}

/// The product, wrapped (`lmul`).
#[tactic(auto, unfolding(crate::specs::Numbers::mul64))]
pub fn mul64(a: i64, b: i64) -> i64
    ensures { result ≡ numbers.mul64 a b }
{
    a.wrapping_mul(b)
}

/// The negation, wrapped (`lneg`).
#[tactic(auto, using(crate::proofs::NumberLaws::wrapping), unfolding(crate::specs::Numbers::neg64))]
pub fn neg64(a: i64) -> i64
    ensures { result ≡ numbers.neg64 a }
{
    a.wrapping_neg()
}

/// The quotient, rounded toward zero; `MIN` by -1 gives `MIN` (`ldiv`).
#[tactic(auto, using(crate::proofs::NumberLaws::wrapping), unfolding(crate::specs::Numbers::div64))]
pub fn div64(a: i64, b: i64) -> i64
    requires { b ≢ pos 0 }
    ensures { result ≡ numbers.div64 a b }
{
    a.wrapping_div(b)
}

/// What the quotient leaves, with the sign of `a`; `MIN` by -1 leaves 0 (`lrem`).
#[tactic(auto, unfolding(crate::specs::Numbers::rem64))]
pub fn rem64(a: i64, b: i64) -> i64
    requires { b ≢ pos 0 }
    ensures { result ≡ numbers.rem64 a b }
{
    a.wrapping_rem(b)
}

/// `a` shifted left by the low six bits of `b` (`lshl`).
#[tactic(auto, using(crate::proofs::NumberLaws::wrapping), unfolding(crate::specs::Numbers::shl64))]
pub fn shl64(a: i64, b: i32) -> i64
    ensures { result ≡ numbers.shl64 a b }
{
    a.wrapping_shl(b.cast_unsigned())
}

/// `a` shifted right by the low six bits of `b`, with copies of its sign (`lshr`).
#[tactic(auto, unfolding(crate::specs::Numbers::shr64))]
pub fn shr64(a: i64, b: i32) -> i64
    ensures { result ≡ numbers.shr64 a b }
{
    a.wrapping_shr(b.cast_unsigned())
}

/// `a` shifted right by the low six bits of `b`, with zeros (`lushr`).
#[tactic(auto, unfolding(crate::specs::Numbers::ushr64))]
pub fn ushr64(a: i64, b: i32) -> i64
    ensures { result ≡ numbers.ushr64 a b }
{
    a.cast_unsigned()
        .wrapping_shr(b.cast_unsigned())
        .cast_signed()
}

/// The same number (`i2l`).
#[tactic(auto, unfolding(crate::specs::Numbers::i2l))]
pub fn i2l(a: i32) -> i64
    ensures { result ≡ numbers.i2l a }
{
    a as i64
}

/// The low 32 bits (`l2i`).
#[tactic(auto, using(crate::proofs::NumberLaws::wrapping), unfolding(crate::specs::Numbers::l2i))]
pub fn l2i(a: i64) -> i32
    ensures { result ≡ numbers.l2i a }
{
    ((a.cast_unsigned() % (1 << 32)) as u32).cast_signed()
}

/// The low 8 bits, with sign (`i2b`).
#[tactic(auto, using(crate::proofs::NumberLaws::wrapping), unfolding(crate::specs::Numbers::i2b))]
pub fn i2b(a: i32) -> i32
    ensures { result ≡ numbers.i2b a }
{
    ((a.cast_unsigned() % (1 << 8)) as u8).cast_signed() as i32
}

/// The low 16 bits, without sign (`i2c`).
#[tactic(auto, unfolding(crate::specs::Numbers::i2c))]
pub fn i2c(a: i32) -> i32
    ensures { result ≡ numbers.i2c a }
{
    a.rem_euclid(1 << 16)
}

/// The low 16 bits, with sign (`i2s`).
#[tactic(auto, using(crate::proofs::NumberLaws::wrapping), unfolding(crate::specs::Numbers::i2s))]
pub fn i2s(a: i32) -> i32
    ensures { result ≡ numbers.i2s a }
{
    ((a.cast_unsigned() % (1 << 16)) as u16).cast_signed() as i32
}

/// 1 where `a` is greater, 0 where both are equal, -1 where `b` is greater (`lcmp`).
#[tactic(auto, unfolding(crate::specs::Numbers::lcmp))]
pub fn lcmp(a: i64, b: i64) -> i32
    ensures { result ≡ numbers.lcmp a b }
{
    if a > b {
        1
    } else if a == b {
        0
    } else {
        -1
    }
}
