//! Tests that call each public item of the five libraries sbl_text, sbl_script, sbl_machine, sbl_bench and snowbench by its name, and use no
//! other library. So a program that is written against these five compiles, and gets what their pages promise. This crate has only tests.
#![tactic(auto)]

#[cfg(test)]
mod bench_items;
#[cfg(test)]
mod common;
#[cfg(test)]
mod device_items;
#[cfg(test)]
mod edit_items;
#[cfg(test)]
mod fault_items;
#[cfg(test)]
mod machine_items;
#[cfg(test)]
mod program_items;
#[cfg(test)]
mod script_items;
#[cfg(test)]
mod session_items;
#[cfg(test)]
mod token_items;
