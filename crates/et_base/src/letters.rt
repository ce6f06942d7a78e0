//! The code units that names and descriptors are made of (JVMS 4.2 and 4.3), which all are ASCII.

pub const OPEN: u16 = 40;

pub const CLOSE: u16 = 41;

pub const DOT: u16 = 46;

pub const SLASH: u16 = 47;

pub const SEMICOLON: u16 = 59;

pub const LESS: u16 = 60;

pub const GREATER: u16 = 62;

/// `B`, a `byte`.
pub const BYTE: u16 = 66;

/// `C`, a `char`.
pub const CHAR: u16 = 67;

/// `D`, a `double`.
pub const DOUBLE: u16 = 68;

/// `F`, a `float`.
pub const FLOAT: u16 = 70;

/// `I`, an `int`.
pub const INT: u16 = 73;

/// `J`, a `long`.
pub const LONG: u16 = 74;

/// `L`, before the name of a class or interface and a semicolon.
pub const CLASS: u16 = 76;

/// `S`, a `short`.
pub const SHORT: u16 = 83;

/// `V`, of a method that returns nothing.
pub const VOID: u16 = 86;

/// `Z`, a `boolean`.
pub const BOOLEAN: u16 = 90;

/// `[`, before the type of an array's elements.
pub const ARRAY: u16 = 91;
