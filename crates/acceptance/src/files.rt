//! Class files and suite texts, and the reports on them.

// `public class T { public static void t() {} }`
pub const RETURN_CLASS: [u8; 97] = [
    202, 254, 186, 190, 0, 0, 0, 52, 0, 8, 1, 0, 1, 84, 7, 0, 1, 1, 0, 16, 106, 97, 118, 97, 47,
    108, 97, 110, 103, 47, 79, 98, 106, 101, 99, 116, 7, 0, 3, 1, 0, 1, 116, 1, 0, 3, 40, 41, 86,
    1, 0, 4, 67, 111, 100, 101, 0, 33, 0, 2, 0, 4, 0, 0, 0, 0, 0, 1, 0, 9, 0, 5, 0, 6, 0, 1, 0, 7,
    0, 0, 0, 13, 0, 0, 0, 0, 0, 0, 0, 1, 177, 0, 0, 0, 0, 0, 0,
];

pub const RETURN_SUITE: &[u8] = b"electric-suite 1
class T.class
test T.t
end
";

pub const RETURN_REPORT: &[u8] = b"electric-run 1
selected 1 executed 1 chains -
test 1 T.t passed units 3
passed 1 failed 0 error 0
";

// `class Counter { static int n; static void set() { n = 5; } static void show() { electric.Env.print(n); } }`
pub const COUNTER_CLASS: [u8; 218] = [
    202, 254, 186, 190, 0, 0, 0, 52, 0, 19, 1, 0, 7, 67, 111, 117, 110, 116, 101, 114, 7, 0, 1, 1,
    0, 16, 106, 97, 118, 97, 47, 108, 97, 110, 103, 47, 79, 98, 106, 101, 99, 116, 7, 0, 3, 1, 0,
    1, 110, 1, 0, 1, 73, 1, 0, 3, 115, 101, 116, 1, 0, 3, 40, 41, 86, 1, 0, 4, 67, 111, 100, 101,
    12, 0, 5, 0, 6, 9, 0, 2, 0, 10, 1, 0, 4, 115, 104, 111, 119, 1, 0, 12, 101, 108, 101, 99, 116,
    114, 105, 99, 47, 69, 110, 118, 7, 0, 13, 1, 0, 5, 112, 114, 105, 110, 116, 1, 0, 4, 40, 73,
    41, 86, 12, 0, 15, 0, 16, 10, 0, 14, 0, 17, 0, 33, 0, 2, 0, 4, 0, 0, 0, 1, 0, 8, 0, 5, 0, 6, 0,
    0, 0, 2, 0, 8, 0, 7, 0, 8, 0, 1, 0, 9, 0, 0, 0, 17, 0, 1, 0, 0, 0, 0, 0, 5, 8, 179, 0, 11, 177,
    0, 0, 0, 0, 0, 8, 0, 12, 0, 8, 0, 1, 0, 9, 0, 0, 0, 19, 0, 1, 0, 0, 0, 0, 0, 7, 178, 0, 11,
    184, 0, 18, 177, 0, 0, 0, 0, 0, 0,
];

pub const COUNTER_SUITE: &[u8] = b"electric-suite 1
class Counter.class
test Counter.set
test Counter.show
end
";

pub const COUNTER_REPORT: &[u8] = b"electric-run 1
selected 2 executed 2 chains -
test 1 Counter.set passed units 6
test 2 Counter.show passed units 8
out \"5\\n\"
passed 2 failed 0 error 0
";

// The record of the counter.
pub const COUNTER_RECORD: &[u8] = b"electric-record 2
digest b78444086ac54a61138702b78cec6730aebf8590544ed2136d5d79751d821df2
tests 2
suite 2adabde0346edae43d8626aac4533d07c2e550245bb825c566d173216f2a8fa3
classes 1
class 1 d392a7a8df5d35717efc4d5e5e4a5b079dd4f9a6792b4fcaa15e4bf72fa01528
units 1 6
units 2 8
reach 1 settled 1
reach 2 open 1
raw 1 2 1 static Counter.n
end
";

// The report on the counter's second test, which the record says needs the first.
pub const NEEDED_REPORT: &[u8] = b"electric-run 1
selected 1 executed 2 chains 1
test 1 Counter.set passed units 6
test 2 Counter.show passed units 8
out \"5\\n\"
passed 2 failed 0 error 0
";

// `class P { static int n; static void read() { electric.Env.print(n); } static void write() { n = 5; } }`
pub const P_CLASS: [u8; 214] = [
    202, 254, 186, 190, 0, 0, 0, 52, 0, 19, 1, 0, 1, 80, 7, 0, 1, 1, 0, 16, 106, 97, 118, 97, 47,
    108, 97, 110, 103, 47, 79, 98, 106, 101, 99, 116, 7, 0, 3, 1, 0, 1, 110, 1, 0, 1, 73, 1, 0, 4,
    114, 101, 97, 100, 1, 0, 3, 40, 41, 86, 1, 0, 4, 67, 111, 100, 101, 12, 0, 5, 0, 6, 9, 0, 2, 0,
    10, 1, 0, 12, 101, 108, 101, 99, 116, 114, 105, 99, 47, 69, 110, 118, 7, 0, 12, 1, 0, 5, 112,
    114, 105, 110, 116, 1, 0, 4, 40, 73, 41, 86, 12, 0, 14, 0, 15, 10, 0, 13, 0, 16, 1, 0, 5, 119,
    114, 105, 116, 101, 0, 33, 0, 2, 0, 4, 0, 0, 0, 1, 0, 8, 0, 5, 0, 6, 0, 0, 0, 2, 0, 8, 0, 7, 0,
    8, 0, 1, 0, 9, 0, 0, 0, 19, 0, 1, 0, 0, 0, 0, 0, 7, 178, 0, 11, 184, 0, 17, 177, 0, 0, 0, 0, 0,
    8, 0, 18, 0, 8, 0, 1, 0, 9, 0, 0, 0, 17, 0, 1, 0, 0, 0, 0, 0, 5, 8, 179, 0, 11, 177, 0, 0, 0,
    0, 0, 0,
];

// Two pairs of tests, where no test of one pair meets the other.
pub const PAIRS_SUITE: &[u8] = b"electric-suite 1
class Counter.class
class P.class
test Counter.set
test Counter.show
test P.read
test P.write
end
";

pub const PAIRS_RECORD: &[u8] = b"electric-record 1
digest 7656ed54609c8b1d16db9ec97c4040b9af1776b1f6827e94078a2e99680fc032
tests 4
units 1 6
units 2 8
units 3 8
units 4 6
raw 1 2 1 static Counter.n
war 3 4 1 static P.n
end
";
