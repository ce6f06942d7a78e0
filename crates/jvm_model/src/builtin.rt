//! What the machine itself names of the built-in classes, which stand first in every program.

/// The class `java.lang.Object`.
pub const OBJECT: u32 = 0;

/// The class `java.lang.String`.
pub const STRING: u32 = 1;

/// The class `java.lang.StringBuilder`.
pub const STRING_BUILDER: u32 = 2;

/// The class `java.io.PrintStream`.
pub const PRINT_STREAM: u32 = 4;

/// The class `java.lang.Throwable`.
pub const THROWABLE: u32 = 7;

/// The class `java.lang.Error`.
pub const ERROR: u32 = 8;

/// The class `java.lang.AssertionError`.
pub const ASSERTION_ERROR: u32 = 10;

/// The class `java.lang.ExceptionInInitializerError`.
pub const EXCEPTION_IN_INITIALIZER_ERROR: u32 = 13;

/// The class `java.lang.NoClassDefFoundError`.
pub const NO_CLASS_DEF_FOUND_ERROR: u32 = 14;

/// The class `java.lang.IncompatibleClassChangeError`.
pub const INCOMPATIBLE_CLASS_CHANGE_ERROR: u32 = 15;

/// The class `java.lang.AbstractMethodError`.
pub const ABSTRACT_METHOD_ERROR: u32 = 16;

/// The class `java.lang.InstantiationError`.
pub const INSTANTIATION_ERROR: u32 = 17;

/// The class `java.lang.StackOverflowError`.
pub const STACK_OVERFLOW_ERROR: u32 = 18;

/// The class `java.lang.ArithmeticException`.
pub const ARITHMETIC_EXCEPTION: u32 = 20;

/// The class `java.lang.ArrayStoreException`.
pub const ARRAY_STORE_EXCEPTION: u32 = 21;

/// The class `java.lang.ClassCastException`.
pub const CLASS_CAST_EXCEPTION: u32 = 22;

/// The class `java.lang.NegativeArraySizeException`.
pub const NEGATIVE_ARRAY_SIZE_EXCEPTION: u32 = 23;

/// The class `java.lang.NullPointerException`.
pub const NULL_POINTER_EXCEPTION: u32 = 24;

/// The class `java.lang.ArrayIndexOutOfBoundsException`.
pub const ARRAY_INDEX_EXCEPTION: u32 = 29;

/// The class `java.lang.StringIndexOutOfBoundsException`.
pub const STRING_INDEX_EXCEPTION: u32 = 30;

/// The field `java.lang.Throwable.message`.
pub const MESSAGE: u32 = 1;

/// How many built-in classes there are; a given class J of the suite has the number 31 + J.
pub const BUILTIN_COUNT: u32 = 32;

/// The name of constructors (JVMS 2.9).
pub const INIT: [u16; 6] = [60, 105, 110, 105, 116, 62];

/// The name of class initialisers (JVMS 2.9).
pub const CLINIT: [u16; 8] = [60, 99, 108, 105, 110, 105, 116, 62];

/// The descriptor `()V` (JVMS 4.3.3).
pub const NO_ARGUMENTS: [u16; 3] = [40, 41, 86];
