//! What explains runs over a bench: the events of a word's run, its integer variables, and what no word of a vocabulary uses.
#![tactic(auto)]

mod bench_words;
mod counts;
mod event_rows;
mod integers;
mod kept_run;
mod kept_takes;
mod kept_words;
mod shared_takes;
mod take_counts;
mod takes;
mod touched_items;
mod unused;
mod uses;
mod why;

pub use integers::integers_text;
pub use kept_takes::KeptTakes;
pub use why::why_text;
