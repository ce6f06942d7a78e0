//! The rules of the check.

ghost use Rattle.std.specs.Prelude.{◌≡◌};
ghost use Rattle.type_checker.specs.Steps.{number_of};

/// What the check asks of each instruction, in the order in which a broken rule is named (JVMS 4.10.1). `StackMap` comes
/// before all else of a method.
#[derive(Clone, Copy)]
pub(crate) enum Rule {
    /// The stack has the places that are taken, and stays within `max_stack` (JVMS 4.10.1.4).
    StackRoom,
    /// The operands are of the types needed (JVMS 4.10.1.4).
    Operands,
    /// The locals are there, and of the types needed (JVMS 4.10.1.7).
    Locals,
    /// What stands afterwards is assignable to what is given where control goes (JVMS 4.10.1.6).
    Targets,
    /// Control doesn't pass the end of the code (JVMS 4.10.1.6).
    End,
    /// A return fits the descriptor, and an `<init>` called another one before (JVMS 4.10.1.9).
    Return,
    /// An uninitialised object is used by its own `<init>` alone (JVMS 4.10.1.9).
    Initialised,
    /// The stack map isn't malformed (JVMS 4.7.4).
    StackMap,
    /// Handlers take what may be thrown (JVMS 4.10.1.6).
    Handlers,
    /// The arguments are within the locals (JVMS 4.10.1.6).
    Arguments,
    /// `<init>` and `<clinit>` aren't called as other methods are (JVMS 4.10.1.9).
    Calls,
}

impl Rule {
    /// The number that a fault says.
    pub fn number(self) -> u32
        ensures { result ≡ number_of self }
    {
        match self {
            Rule::StackRoom => 1,
            Rule::Operands => 2,
            Rule::Locals => 3,
            Rule::Targets => 4,
            Rule::End => 5,
            Rule::Return => 6,
            Rule::Initialised => 7,
            Rule::StackMap => 8,
            Rule::Handlers => 9,
            Rule::Arguments => 10,
            Rule::Calls => 11,
        }
    }
}
