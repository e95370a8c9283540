//! Uses of laws that no other crate uses: each statement is written out again, so that a weaker law is no longer enough. Nothing but
//! tests is in this crate.
#![tactic(auto)]

pub mod amongs_replacement;
pub mod bench_break_laws;
pub mod bench_equal_scripts;
pub mod bench_undo;
pub mod changes_changes_are_sound;
pub mod changes_classes_are_sound;
pub mod changes_families_are_sound;
pub mod changes_largest_are_sound;
pub mod explain_uses;
pub mod filter_laws;
pub mod machine_built_from;
pub mod machine_frame;
pub mod machine_groupings;
pub mod machine_names_stand;
pub mod machine_searches;
pub mod machine_sound;
pub mod machine_why;
pub mod numbering_laws;
pub mod places_laws;
pub mod reports_list_lines;
pub mod reports_stems_are_read;
pub mod resolver_laws;
pub mod rows_classes_are_sound;
pub mod script_canonical_text;
pub mod script_only_the_item;
pub mod sessions_one_answer;
pub mod snowbench_whole_check;
pub mod tables_laws;
pub mod text_laws;
pub mod why_searches;
pub mod work_break_laws;
