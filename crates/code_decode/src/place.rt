//! Where an instruction stands, and the faults that are named there.

ghost use Rattle.std.specs.Prelude.{◌≡◌, ◌+ℤ◌, pos};
ghost use Rattle.code_decode.specs.Place.{cut, wrong, foreign, place, target};

use class_pool::Fault;

/// Where an instruction stands: the number of its method, the length of the code, and its pc.
#[derive(Clone, Copy)]
pub struct Spot {
    pub method: u32,
    pub total: u16,
    pub pc: u16,
}

impl Spot {
    // The instruction isn't wholly inside the code.
    pub fn cut(&self) -> Fault
        ensures { result ≡ cut self.now }
    {
        Fault::CutCode {
            method: self.method,
            pc: self.pc as u32,
        }
    }

    // An operand is wrong.
    pub fn wrong(&self) -> Fault
        ensures { result ≡ wrong self.now }
    {
        Fault::BadOperand {
            method: self.method,
            pc: self.pc as u32,
        }
    }

    // The instruction is outside of the profile.
    pub fn foreign(&self, opcode: u8) -> Fault
        ensures { result ≡ foreign self.now opcode }
    {
        Fault::Unsupported {
            method: self.method,
            pc: self.pc as u32,
            opcode,
        }
    }

    // Where a branch by this offset leads, or -1 outside of the code.
    pub fn target(&self, offset: i32) -> i32
        ensures { result ≡ target self.now.total self.now.pc offset }
    {
        place(self.total, self.pc as i64 + offset as i64)
    }
}

fn place(total: u16, to: i64) -> i32
    ensures { result ≡ place total to }
{
    if to < 0 || total as i64 <= to {
        -1
    } else {
        to as i32
    }
}
