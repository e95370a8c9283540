//! Figures about rows.

use crate::tests::row_lists::{rows_in, view};
use sbl_rows::{Class, RowStats, stats};
use std::alloc::{AllocError, Global};
use std::test::Fail;
use test_support::letters;

/// Rows, their classes, each a stem and its words, and their figures.
const ROWS: [(&str, &[&str], RowStats); 2] = [
    (
        "",
        &[],
        RowStats {
            words: 0,
            refused: 0,
            classes: 0,
            alone: 0,
            largest: 0,
            unchanged: 0,
        },
    ),
    (
        "a=x x=x b!Steps c=y d=x yy=yy",
        &["x a d x", "y c", "yy yy"],
        RowStats {
            words: 6,
            refused: 1,
            classes: 3,
            alone: 2,
            largest: 3,
            unchanged: 2,
        },
    ),
];

/// The class of a text: its stem and its words, which are separated by spaces.
fn class_in(alloc: Global, text: &str) -> Result<Class, AllocError> {
    let (stem, members) = text.split_once(' ').unwrap_or((text, ""));
    let mut words = Vec::new(alloc);
    for word in members.split_whitespace() {
        words.push(letters(alloc, word)?)?;
    }
    Ok(Class {
        stem: letters(alloc, stem)?,
        words,
    })
}

#[test]
fn figures_about_rows(rt: HostRuntime) -> Result<(), Fail> {
    for (text, class_texts, figures) in ROWS {
        let rows = rows_in(rt.alloc(), text)?;
        let rows = view(rt.alloc(), &rows)?;
        let mut classes = Vec::new(rt.alloc());
        for class_text in class_texts {
            classes.push(class_in(rt.alloc(), class_text)?)?;
        }
        assert_eq!(rt; stats(&rows, &classes), figures, "{text}");
    }
    Ok(())
}
