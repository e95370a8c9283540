//! The limit of steps, with the rows, the changes and the count of runs after each change of it. Cases as in edits.rt.

/// `s` uses 16 steps, and `dog` 12. A run that was refused for its steps runs again at each change: `s` at the second step, which
/// changes nothing, and at 11, too. At 100,000 no word runs.
pub(crate) const SET: &str = "PLURALS
s,dog
limit 15||s 60 Steps;dog dog;|s ;s 60 Steps;|3
limit 15||s 60 Steps;dog dog;||4
limit 16||s ;dog dog;|s 60 Steps;s ;|5
limit 12||s 60 Steps;dog dog;|s ;s 60 Steps;|6
limit 11||s 60 Steps;dog 60 Steps;|dog dog;dog 60 Steps;|8
limit 0|51 BadLimit|s 60 Steps;dog 60 Steps;|dog dog;dog 60 Steps;|8
limit 10000001|51 BadLimit|s 60 Steps;dog 60 Steps;|dog dog;dog 60 Steps;|8
limit 18446744073709551615|51 BadLimit|s 60 Steps;dog 60 Steps;|dog dog;dog 60 Steps;|8
limit 10000000||s ;dog dog;|s 60 Steps;s ;dog 60 Steps;dog dog;|10
limit 100000||s ;dog dog;||10";

/// An edit of the script and a word that is added run at the limit that is set.
pub(crate) const LIMITS: &[&str] = &[
    "PLURALS
dog
limit 12||?|?|1
add s||?|?|2
routine tail true||dog dog;s s;|?|4",
];
