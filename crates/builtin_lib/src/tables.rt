//! The built-in classes as tables.

ghost use Rattle.std.specs.Prelude.{◌≡◌, map};
ghost use Rattle.jvm_model.specs.Library.{builtin_defs};
ghost use Rattle.builtin_lib.specs.Rows.{class_of};

use crate::rows::{ClassRow, FieldRow, MethodRow};
use jvm_model::{Native, Value};

// Access flags (JVMS tables 4.1-B, 4.5-A and 4.6-A); public, which nothing here looks at, is left out.
const NONE: u16 = 0;

const PRIVATE: u16 = 0x0002;

const STATIC: u16 = 0x0008;

const ABSTRACT: u16 = 0x0400;

#[rattlefmt::skip]
const OBJECT_METHODS: [MethodRow; 3] = [
    MethodRow { name: b"<init>", descriptor: b"()V", flags: NONE, native: Native::ObjectInit },
    MethodRow { name: b"equals", descriptor: b"(Ljava/lang/Object;)Z", flags: NONE, native: Native::ObjectEquals },
    MethodRow { name: b"hashCode", descriptor: b"()I", flags: NONE, native: Native::ObjectHashCode },
];

#[rattlefmt::skip]
const STRING_METHODS: [MethodRow; 13] = [
    MethodRow { name: b"length", descriptor: b"()I", flags: NONE, native: Native::StringLength },
    MethodRow { name: b"isEmpty", descriptor: b"()Z", flags: NONE, native: Native::StringIsEmpty },
    MethodRow { name: b"charAt", descriptor: b"(I)C", flags: NONE, native: Native::StringCharAt },
    MethodRow { name: b"equals", descriptor: b"(Ljava/lang/Object;)Z", flags: NONE, native: Native::StringEquals },
    MethodRow { name: b"hashCode", descriptor: b"()I", flags: NONE, native: Native::StringHashCode },
    MethodRow { name: b"substring", descriptor: b"(I)Ljava/lang/String;", flags: NONE, native: Native::StringSubstringFrom },
    MethodRow { name: b"substring", descriptor: b"(II)Ljava/lang/String;", flags: NONE, native: Native::StringSubstring },
    MethodRow { name: b"concat", descriptor: b"(Ljava/lang/String;)Ljava/lang/String;", flags: NONE, native: Native::StringConcat },
    MethodRow { name: b"toString", descriptor: b"()Ljava/lang/String;", flags: NONE, native: Native::StringToString },
    MethodRow { name: b"valueOf", descriptor: b"(I)Ljava/lang/String;", flags: STATIC, native: Native::StringOfInt },
    MethodRow { name: b"valueOf", descriptor: b"(J)Ljava/lang/String;", flags: STATIC, native: Native::StringOfLong },
    MethodRow { name: b"valueOf", descriptor: b"(Z)Ljava/lang/String;", flags: STATIC, native: Native::StringOfBoolean },
    MethodRow { name: b"valueOf", descriptor: b"(C)Ljava/lang/String;", flags: STATIC, native: Native::StringOfChar },
];

#[rattlefmt::skip]
const STRING_BUILDER_METHODS: [MethodRow; 9] = [
    MethodRow { name: b"<init>", descriptor: b"()V", flags: NONE, native: Native::BuilderInit },
    MethodRow { name: b"<init>", descriptor: b"(Ljava/lang/String;)V", flags: NONE, native: Native::BuilderInitString },
    MethodRow { name: b"append", descriptor: b"(Ljava/lang/String;)Ljava/lang/StringBuilder;", flags: NONE, native: Native::BuilderAppendString },
    MethodRow { name: b"append", descriptor: b"(I)Ljava/lang/StringBuilder;", flags: NONE, native: Native::BuilderAppendInt },
    MethodRow { name: b"append", descriptor: b"(J)Ljava/lang/StringBuilder;", flags: NONE, native: Native::BuilderAppendLong },
    MethodRow { name: b"append", descriptor: b"(Z)Ljava/lang/StringBuilder;", flags: NONE, native: Native::BuilderAppendBoolean },
    MethodRow { name: b"append", descriptor: b"(C)Ljava/lang/StringBuilder;", flags: NONE, native: Native::BuilderAppendChar },
    MethodRow { name: b"length", descriptor: b"()I", flags: NONE, native: Native::BuilderLength },
    MethodRow { name: b"toString", descriptor: b"()Ljava/lang/String;", flags: NONE, native: Native::BuilderToString },
];

#[rattlefmt::skip]
const SYSTEM_METHODS: [MethodRow; 4] = [
    MethodRow { name: b"currentTimeMillis", descriptor: b"()J", flags: STATIC, native: Native::SystemClock },
    MethodRow { name: b"getProperty", descriptor: b"(Ljava/lang/String;)Ljava/lang/String;", flags: STATIC, native: Native::SystemGetProperty },
    MethodRow { name: b"setProperty", descriptor: b"(Ljava/lang/String;Ljava/lang/String;)Ljava/lang/String;", flags: STATIC, native: Native::SystemSetProperty },
    MethodRow { name: b"clearProperty", descriptor: b"(Ljava/lang/String;)Ljava/lang/String;", flags: STATIC, native: Native::SystemClearProperty },
];

#[rattlefmt::skip]
const PRINT_STREAM_METHODS: [MethodRow; 11] = [
    MethodRow { name: b"print", descriptor: b"(Ljava/lang/String;)V", flags: NONE, native: Native::PrintString },
    MethodRow { name: b"print", descriptor: b"(I)V", flags: NONE, native: Native::PrintInt },
    MethodRow { name: b"print", descriptor: b"(J)V", flags: NONE, native: Native::PrintLong },
    MethodRow { name: b"print", descriptor: b"(Z)V", flags: NONE, native: Native::PrintBoolean },
    MethodRow { name: b"print", descriptor: b"(C)V", flags: NONE, native: Native::PrintChar },
    MethodRow { name: b"println", descriptor: b"(Ljava/lang/String;)V", flags: NONE, native: Native::PrintlnString },
    MethodRow { name: b"println", descriptor: b"(I)V", flags: NONE, native: Native::PrintlnInt },
    MethodRow { name: b"println", descriptor: b"(J)V", flags: NONE, native: Native::PrintlnLong },
    MethodRow { name: b"println", descriptor: b"(Z)V", flags: NONE, native: Native::PrintlnBoolean },
    MethodRow { name: b"println", descriptor: b"(C)V", flags: NONE, native: Native::PrintlnChar },
    MethodRow { name: b"println", descriptor: b"()V", flags: NONE, native: Native::Println },
];

#[rattlefmt::skip]
const FILES_METHODS: [MethodRow; 5] = [
    MethodRow { name: b"read", descriptor: b"(Ljava/lang/String;)Ljava/lang/String;", flags: STATIC, native: Native::FilesRead },
    MethodRow { name: b"write", descriptor: b"(Ljava/lang/String;Ljava/lang/String;)V", flags: STATIC, native: Native::FilesWrite },
    MethodRow { name: b"append", descriptor: b"(Ljava/lang/String;Ljava/lang/String;)V", flags: STATIC, native: Native::FilesAppend },
    MethodRow { name: b"delete", descriptor: b"(Ljava/lang/String;)Z", flags: STATIC, native: Native::FilesDelete },
    MethodRow { name: b"exists", descriptor: b"(Ljava/lang/String;)Z", flags: STATIC, native: Native::FilesExists },
];

#[rattlefmt::skip]
const ENV_METHODS: [MethodRow; 2] = [
    MethodRow { name: b"print", descriptor: b"(I)V", flags: STATIC, native: Native::EnvPrint },
    MethodRow { name: b"random", descriptor: b"()I", flags: STATIC, native: Native::EnvRandom },
];

#[rattlefmt::skip]
const THROWABLE_METHODS: [MethodRow; 3] = [
    MethodRow { name: b"<init>", descriptor: b"()V", flags: NONE, native: Native::ThrowableInit },
    MethodRow { name: b"<init>", descriptor: b"(Ljava/lang/String;)V", flags: NONE, native: Native::ThrowableInitString },
    MethodRow { name: b"getMessage", descriptor: b"()Ljava/lang/String;", flags: NONE, native: Native::ThrowableGetMessage },
];

#[rattlefmt::skip]
const ASSERTION_ERROR_METHODS: [MethodRow; 6] = [
    MethodRow { name: b"<init>", descriptor: b"()V", flags: NONE, native: Native::ThrowableInit },
    MethodRow { name: b"<init>", descriptor: b"(Ljava/lang/Object;)V", flags: NONE, native: Native::AssertionInitObject },
    MethodRow { name: b"<init>", descriptor: b"(I)V", flags: NONE, native: Native::AssertionInitInt },
    MethodRow { name: b"<init>", descriptor: b"(J)V", flags: NONE, native: Native::AssertionInitLong },
    MethodRow { name: b"<init>", descriptor: b"(Z)V", flags: NONE, native: Native::AssertionInitBoolean },
    MethodRow { name: b"<init>", descriptor: b"(C)V", flags: NONE, native: Native::AssertionInitChar },
];

// The constructors of every throwable class but `AssertionError` and `Throwable`.
#[rattlefmt::skip]
const THROWABLE_CONSTRUCTORS: [MethodRow; 2] = [
    MethodRow { name: b"<init>", descriptor: b"()V", flags: NONE, native: Native::ThrowableInit },
    MethodRow { name: b"<init>", descriptor: b"(Ljava/lang/String;)V", flags: NONE, native: Native::ThrowableInitString },
];

#[rattlefmt::skip]
const SYSTEM_FIELDS: [FieldRow; 1] = [
    FieldRow { name: b"out", descriptor: b"Ljava/io/PrintStream;", flags: STATIC, opening: Value::Lit(0) },
];

#[rattlefmt::skip]
const THROWABLE_FIELDS: [FieldRow; 1] = [
    FieldRow { name: b"message", descriptor: b"Ljava/lang/String;", flags: PRIVATE, opening: Value::Null },
];

#[rattlefmt::skip]
static CLASSES: [ClassRow; 32] = [
    ClassRow { name: b"java/lang/Object", flags: NONE, superclass: None, fields: &[], methods: &OBJECT_METHODS },
    ClassRow { name: b"java/lang/String", flags: NONE, superclass: Some(b"java/lang/Object"), fields: &[], methods: &STRING_METHODS },
    ClassRow { name: b"java/lang/StringBuilder", flags: NONE, superclass: Some(b"java/lang/Object"), fields: &[], methods: &STRING_BUILDER_METHODS },
    ClassRow { name: b"java/lang/System", flags: NONE, superclass: Some(b"java/lang/Object"), fields: &SYSTEM_FIELDS, methods: &SYSTEM_METHODS },
    ClassRow { name: b"java/io/PrintStream", flags: NONE, superclass: Some(b"java/lang/Object"), fields: &[], methods: &PRINT_STREAM_METHODS },
    ClassRow { name: b"electric/Files", flags: NONE, superclass: Some(b"java/lang/Object"), fields: &[], methods: &FILES_METHODS },
    ClassRow { name: b"electric/Env", flags: NONE, superclass: Some(b"java/lang/Object"), fields: &[], methods: &ENV_METHODS },
    ClassRow { name: b"java/lang/Throwable", flags: NONE, superclass: Some(b"java/lang/Object"), fields: &THROWABLE_FIELDS, methods: &THROWABLE_METHODS },
    ClassRow { name: b"java/lang/Error", flags: NONE, superclass: Some(b"java/lang/Throwable"), fields: &[], methods: &THROWABLE_CONSTRUCTORS },
    ClassRow { name: b"java/lang/Exception", flags: NONE, superclass: Some(b"java/lang/Throwable"), fields: &[], methods: &THROWABLE_CONSTRUCTORS },
    ClassRow { name: b"java/lang/AssertionError", flags: NONE, superclass: Some(b"java/lang/Error"), fields: &[], methods: &ASSERTION_ERROR_METHODS },
    ClassRow { name: b"java/lang/LinkageError", flags: NONE, superclass: Some(b"java/lang/Error"), fields: &[], methods: &THROWABLE_CONSTRUCTORS },
    ClassRow { name: b"java/lang/VirtualMachineError", flags: ABSTRACT, superclass: Some(b"java/lang/Error"), fields: &[], methods: &THROWABLE_CONSTRUCTORS },
    ClassRow { name: b"java/lang/ExceptionInInitializerError", flags: NONE, superclass: Some(b"java/lang/LinkageError"), fields: &[], methods: &THROWABLE_CONSTRUCTORS },
    ClassRow { name: b"java/lang/NoClassDefFoundError", flags: NONE, superclass: Some(b"java/lang/LinkageError"), fields: &[], methods: &THROWABLE_CONSTRUCTORS },
    ClassRow { name: b"java/lang/IncompatibleClassChangeError", flags: NONE, superclass: Some(b"java/lang/LinkageError"), fields: &[], methods: &THROWABLE_CONSTRUCTORS },
    ClassRow { name: b"java/lang/AbstractMethodError", flags: NONE, superclass: Some(b"java/lang/IncompatibleClassChangeError"), fields: &[], methods: &THROWABLE_CONSTRUCTORS },
    ClassRow { name: b"java/lang/InstantiationError", flags: NONE, superclass: Some(b"java/lang/IncompatibleClassChangeError"), fields: &[], methods: &THROWABLE_CONSTRUCTORS },
    ClassRow { name: b"java/lang/StackOverflowError", flags: NONE, superclass: Some(b"java/lang/VirtualMachineError"), fields: &[], methods: &THROWABLE_CONSTRUCTORS },
    ClassRow { name: b"java/lang/RuntimeException", flags: NONE, superclass: Some(b"java/lang/Exception"), fields: &[], methods: &THROWABLE_CONSTRUCTORS },
    ClassRow { name: b"java/lang/ArithmeticException", flags: NONE, superclass: Some(b"java/lang/RuntimeException"), fields: &[], methods: &THROWABLE_CONSTRUCTORS },
    ClassRow { name: b"java/lang/ArrayStoreException", flags: NONE, superclass: Some(b"java/lang/RuntimeException"), fields: &[], methods: &THROWABLE_CONSTRUCTORS },
    ClassRow { name: b"java/lang/ClassCastException", flags: NONE, superclass: Some(b"java/lang/RuntimeException"), fields: &[], methods: &THROWABLE_CONSTRUCTORS },
    ClassRow { name: b"java/lang/NegativeArraySizeException", flags: NONE, superclass: Some(b"java/lang/RuntimeException"), fields: &[], methods: &THROWABLE_CONSTRUCTORS },
    ClassRow { name: b"java/lang/NullPointerException", flags: NONE, superclass: Some(b"java/lang/RuntimeException"), fields: &[], methods: &THROWABLE_CONSTRUCTORS },
    ClassRow { name: b"java/lang/IndexOutOfBoundsException", flags: NONE, superclass: Some(b"java/lang/RuntimeException"), fields: &[], methods: &THROWABLE_CONSTRUCTORS },
    ClassRow { name: b"java/lang/IllegalArgumentException", flags: NONE, superclass: Some(b"java/lang/RuntimeException"), fields: &[], methods: &THROWABLE_CONSTRUCTORS },
    ClassRow { name: b"java/lang/IllegalStateException", flags: NONE, superclass: Some(b"java/lang/RuntimeException"), fields: &[], methods: &THROWABLE_CONSTRUCTORS },
    ClassRow { name: b"java/lang/UnsupportedOperationException", flags: NONE, superclass: Some(b"java/lang/RuntimeException"), fields: &[], methods: &THROWABLE_CONSTRUCTORS },
    ClassRow { name: b"java/lang/ArrayIndexOutOfBoundsException", flags: NONE, superclass: Some(b"java/lang/IndexOutOfBoundsException"), fields: &[], methods: &THROWABLE_CONSTRUCTORS },
    ClassRow { name: b"java/lang/StringIndexOutOfBoundsException", flags: NONE, superclass: Some(b"java/lang/IndexOutOfBoundsException"), fields: &[], methods: &THROWABLE_CONSTRUCTORS },
    ClassRow { name: b"java/lang/NumberFormatException", flags: NONE, superclass: Some(b"java/lang/IllegalArgumentException"), fields: &[], methods: &THROWABLE_CONSTRUCTORS },
];

/// The built-in classes, each after its superclass.
pub fn class_rows() -> &'static [ClassRow]
    ensures { map class_of result.now ≡ builtin_defs }
{
    &CLASSES
}
