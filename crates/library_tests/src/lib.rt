//! Tests of the libraries' public calls, a module for each library.
//!
//! Begin with the module of a library, say `class_reader_tests.rt`; `class_files.rt` has class
//! files as the usual compiler lays them out, and one made by hand, and `texts.rt` what several
//! modules make. A test asserts what a helper answers: one assertion that owns nothing is proved in
//! a fraction of the time.
//!
//! Tests show what no clause says, as that a call answers where memory is ample: want of memory is
//! a free answer, which a body that always gives up would meet too.
//!
//! A crate with tests is proved twice, so these stand in a crate of their own. It has no edit that
//! must fail: outside its tests it has no code, and edits are tried without tests.
#![tactic(auto)]

#[cfg(test)]
mod builtin_lib_tests;
#[cfg(test)]
mod cell_region_tests;
#[cfg(test)]
mod chain_deque_tests;
#[cfg(test)]
mod class_files;
#[cfg(test)]
mod class_pool_tests;
#[cfg(test)]
mod class_reader_tests;
#[cfg(test)]
mod class_write_tests;
#[cfg(test)]
mod code_decode_tests;
#[cfg(test)]
mod dep_record_tests;
#[cfg(test)]
mod et_base_tests;
#[cfg(test)]
mod impact_pick_tests;
#[cfg(test)]
mod member_lookup_tests;
#[cfg(test)]
mod outside_tests;
#[cfg(test)]
mod quiet_init_tests;
#[cfg(test)]
mod sim_store_tests;
#[cfg(test)]
mod suite_gen_tests;
#[cfg(test)]
mod texts;
#[cfg(test)]
mod vm_arith_tests;
#[cfg(test)]
mod vm_frames_tests;
