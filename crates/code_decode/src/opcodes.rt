//! Which operands an opcode has.

ghost use Rattle.std.specs.Prelude.{◌≡◌};
ghost use Rattle.code_decode.specs.Opcodes.{takes_local, shape_of};

/// What a constant takes on the stack.
#[derive(Clone, Copy)]
pub enum Constant {
    /// One unit, as an int or a string: ldc and ldc_w.
    Single,
    /// Two units, as a long: ldc2_w.
    Double,
}

/// What an instruction wants of the pool entry that it names by two bytes.
#[derive(Clone, Copy)]
pub enum Named {
    /// A field: getstatic, putstatic, getfield, putfield.
    Field,
    /// A class's method: invokevirtual.
    Virtual,
    /// A method of a class or an interface: invokespecial, invokestatic.
    Direct,
    /// An interface's method: invokeinterface.
    Interface,
    /// A class to make an object of: new.
    Made,
    /// The type of an array's elements: anewarray.
    Element,
    /// A type to test: checkcast, instanceof.
    Tested,
    /// The type of an array of arrays: multianewarray.
    Nested,
}

/// The form of an instruction's operands (JVMS 6.5).
#[derive(Clone, Copy)]
pub enum Shape {
    /// None.
    Plain,
    /// A signed byte: bipush.
    Byte,
    /// A signed number of two bytes: sipush.
    Short,
    /// A local variable: loads and stores.
    Local,
    /// A local variable and a signed byte: iinc.
    Increment,
    /// A constant, by one byte: ldc.
    Near(Constant),
    /// A constant, by two bytes: ldc_w, ldc2_w.
    Far(Constant),
    /// An entry, by two bytes.
    Entry(Named),
    /// A method, a count and a zero: invokeinterface.
    Interface,
    /// The kind of an array of numbers: newarray.
    Kind,
    /// An array class and a number of dimensions: multianewarray.
    Dimensions,
    /// A branch by two bytes.
    Branch,
    /// A branch by four bytes: goto_w.
    FarBranch,
    /// tableswitch.
    Table,
    /// lookupswitch.
    Lookup,
}

/// Whether this is a load or a store that names its local variable, and so may stand behind wide (JVMS 6.5).
#[inline(always)]
pub fn takes_local(opcode: u8) -> bool
    ensures { result ≡ takes_local opcode }
{
    matches!(opcode, 21 | 22 | 25 | 54 | 55 | 58)
}

// The cells of the table below.
const NO: Option<Shape> = None;

const PLAIN: Option<Shape> = Some(Shape::Plain);

const BYTE: Option<Shape> = Some(Shape::Byte);

const SHORT: Option<Shape> = Some(Shape::Short);

const NEAR: Option<Shape> = Some(Shape::Near(Constant::Single));

const FAR: Option<Shape> = Some(Shape::Far(Constant::Single));

const LONG: Option<Shape> = Some(Shape::Far(Constant::Double));

const LOCAL: Option<Shape> = Some(Shape::Local);

const INC: Option<Shape> = Some(Shape::Increment);

const JUMP: Option<Shape> = Some(Shape::Branch);

const TABLE: Option<Shape> = Some(Shape::Table);

const LOOKUP: Option<Shape> = Some(Shape::Lookup);

const FIELD: Option<Shape> = Some(Shape::Entry(Named::Field));

const CLASS: Option<Shape> = Some(Shape::Entry(Named::Virtual));

const DIRECT: Option<Shape> = Some(Shape::Entry(Named::Direct));

const IFACE: Option<Shape> = Some(Shape::Interface);

const MADE: Option<Shape> = Some(Shape::Entry(Named::Made));

const KIND: Option<Shape> = Some(Shape::Kind);

const ELEM: Option<Shape> = Some(Shape::Entry(Named::Element));

const TESTED: Option<Shape> = Some(Shape::Entry(Named::Tested));

const DIMS: Option<Shape> = Some(Shape::Dimensions);

const GOTO_W: Option<Shape> = Some(Shape::FarBranch);

// The form of each opcode's operands, in rows of ten.
#[rattlefmt::skip]
static SHAPES: [Option<Shape>; 256] = [
    PLAIN,  PLAIN,  PLAIN,  PLAIN,  PLAIN,  PLAIN,  PLAIN,  PLAIN,  PLAIN,  PLAIN,
    PLAIN,  NO,     NO,     NO,     NO,     NO,     BYTE,   SHORT,  NEAR,   FAR,
    LONG,   LOCAL,  LOCAL,  NO,     NO,     LOCAL,  PLAIN,  PLAIN,  PLAIN,  PLAIN,
    PLAIN,  PLAIN,  PLAIN,  PLAIN,  NO,     NO,     NO,     NO,     NO,     NO,
    NO,     NO,     PLAIN,  PLAIN,  PLAIN,  PLAIN,  PLAIN,  PLAIN,  NO,     NO,
    PLAIN,  PLAIN,  PLAIN,  PLAIN,  LOCAL,  LOCAL,  NO,     NO,     LOCAL,  PLAIN,
    PLAIN,  PLAIN,  PLAIN,  PLAIN,  PLAIN,  PLAIN,  PLAIN,  NO,     NO,     NO,
    NO,     NO,     NO,     NO,     NO,     PLAIN,  PLAIN,  PLAIN,  PLAIN,  PLAIN,
    PLAIN,  NO,     NO,     PLAIN,  PLAIN,  PLAIN,  PLAIN,  PLAIN,  PLAIN,  PLAIN,
    PLAIN,  PLAIN,  PLAIN,  PLAIN,  PLAIN,  PLAIN,  PLAIN,  PLAIN,  NO,     NO,
    PLAIN,  PLAIN,  NO,     NO,     PLAIN,  PLAIN,  NO,     NO,     PLAIN,  PLAIN,
    NO,     NO,     PLAIN,  PLAIN,  NO,     NO,     PLAIN,  PLAIN,  NO,     NO,
    PLAIN,  PLAIN,  PLAIN,  PLAIN,  PLAIN,  PLAIN,  PLAIN,  PLAIN,  PLAIN,  PLAIN,
    PLAIN,  PLAIN,  INC,    PLAIN,  NO,     NO,     PLAIN,  NO,     NO,     NO,
    NO,     NO,     NO,     NO,     NO,     PLAIN,  PLAIN,  PLAIN,  PLAIN,  NO,
    NO,     NO,     NO,     JUMP,   JUMP,   JUMP,   JUMP,   JUMP,   JUMP,   JUMP,
    JUMP,   JUMP,   JUMP,   JUMP,   JUMP,   JUMP,   JUMP,   JUMP,   NO,     NO,
    TABLE,  LOOKUP, PLAIN,  PLAIN,  NO,     NO,     PLAIN,  PLAIN,  FIELD,  FIELD,
    FIELD,  FIELD,  CLASS,  DIRECT, DIRECT, IFACE,  NO,     MADE,   KIND,   ELEM,
    PLAIN,  PLAIN,  TESTED, TESTED, PLAIN,  PLAIN,  NO,     DIMS,   JUMP,   JUMP,
    GOTO_W, NO,     NO,     NO,     NO,     NO,     NO,     NO,     NO,     NO,
    NO,     NO,     NO,     NO,     NO,     NO,     NO,     NO,     NO,     NO,
    NO,     NO,     NO,     NO,     NO,     NO,     NO,     NO,     NO,     NO,
    NO,     NO,     NO,     NO,     NO,     NO,     NO,     NO,     NO,     NO,
    NO,     NO,     NO,     NO,     NO,     NO,     NO,     NO,     NO,     NO,
    NO,     NO,     NO,     NO,     NO,     NO,
];

/// The form of an opcode's operands (JVMS 6.5); none for wide and for opcodes outside of the profile.
#[inline(always)]
pub fn shape_of(opcode: u8) -> Option<Shape>
    ensures { result ≡ shape_of opcode }
{
    SHAPES[usize::from(opcode)]
}
