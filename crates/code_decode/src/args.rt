//! The operands of an instruction.

ghost use Rattle.std.specs.Prelude.{◌≡◌, [], ◌∷◌, IfOk, IfErr};
ghost use Rattle.class_pool.specs.declared.fault.ReadError.TheVariants.{Memory};

use class_pool::ReadError;
use et_base::Items;
use std::alloc::Global;
use std::marker::Model;

/// The operands of an instruction in order. Contracts see the list of them. Up to two take no memory of their own.
#[derive(Drop)]
pub struct Args {
    held: Held,
}

// One operand, laid out as a box is, so that instructions are copied in whole words.
#[derive(Drop)]
struct One {
    args: [i32; 1],
    aligned: [u64; 0],
}

// Two operands, laid out in the same way.
#[derive(Drop)]
struct Two {
    args: [i32; 2],
    aligned: [u64; 0],
}

#[derive(Drop)]
enum Held {
    None,
    One(One),
    Two(Two),
    Many(Box<Items<i32>>),
}

impl Model for Args {
    ghost use Rattle.std.specs.Prelude.{List, ℤ};
    ghost use Rattle.code_decode.specs.Held.{held_args};

    ghost Value = { List ℤ };

    ghost view = { λ args. held_args args.held };
}

impl Args {
    /// No operands.
    pub fn none() -> Args
        ensures { result ≡ [] }
    {
        Args { held: Held::None }
    }

    /// One operand.
    pub fn one(arg: i32) -> Args
        ensures { result ≡ arg ∷ [] }
    {
        Args {
            held: Held::One(One {
                args: [arg],
                aligned: [],
            }),
        }
    }

    /// Two operands.
    pub fn two(first: i32, second: i32) -> Args
        ensures { result ≡ first ∷ second ∷ [] }
    {
        Args {
            held: Held::Two(Two {
                args: [first, second],
                aligned: [],
            }),
        }
    }

    /// Any number of operands.
    pub fn many(alloc: Global, args: Items<i32>) -> Result<Args, ReadError>
        ensures gives { IfOk result (λ made. made ≡ args) }
        ensures err { IfErr result (λ e. e ≡ Memory) }
    {
        let args = Box::new(alloc, args)?;
        Ok(Args {
            held: Held::Many(args),
        })
    }

    /// The operands in order.
    pub fn as_slice(&self) -> &[i32]
        ensures { result.now ≡ self.now }
    {
        match &self.held {
            Held::None => &[],
            Held::One(one) => one.args.as_slice(),
            Held::Two(two) => two.args.as_slice(),
            Held::Many(args) => args.as_slice(),
        }
    }
}
