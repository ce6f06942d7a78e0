//! Which pool of machines it is.

use std::marker::Brand;

/// Which pool of machines it is, for contracts: the program that they run, and how many workers there are, each with a
/// machine of its own.
pub trait PoolName {
    ghost use Rattle.std.specs.Prelude.{ℕ};
    ghost use Rattle.jvm_model.specs.declared.program.Program.{Program};

    ghost program: { Program };

    ghost workers: { ℕ };
}

impl PoolName for Brand {
    ghost use Rattle.jvm_model.specs.Classes.{no_program};

    ghost program = { no_program };

    ghost workers = { 0 };
}
