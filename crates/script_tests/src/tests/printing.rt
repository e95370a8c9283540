//! Tests of the canonical texts of scripts.

use sbl_script::Script;
use sbl_script::laws::canonical_is_read;
use std::alloc::Global;
use test_support::{PLURALS, PORTER, PREFIXES};

/// Returns the canonical text of a script with the external `stem`.
fn canonical_text(alloc: Global, text: &str) -> Option<String> {
    let script = Script::parse(alloc, text.as_bytes(), "stem").ok()?;
    let printed = script.print(alloc).ok();
    script.discard();
    printed
}

const CLOSE: &str = "integers(x) groupings(v)externals(stem)// a comment
define v 'ab'+'c' define stem as($x=007 non-v [substring]among('s'(delete)))
";

const CLOSE_PRINTED: &str = "integers ( x )
groupings ( v )
externals ( stem )
define v 'ab' + 'c'
define stem as ( $ x = 7 non - v [ substring ] among ( 's' ( delete ) ) )
";

const ESCAPED: &str = "stringescapes{}stringdef e hex\t'E9'externals(stem)backwardmode()
backwardmode(routines(r)define r as(<+'{e}'insert'{U+e9}'))define stem as do(backwards r)";

const ESCAPED_PRINTED: &str = "stringescapes {}
stringdef e hex 'E9'
externals ( stem )
backwardmode (
)
backwardmode (
routines ( r )
define r as ( <+ '{e}' insert '{U+e9}' )
)
define stem as do ( backwards r )
";

/// A text, and its canonical text (empty: not asked).
const TEXTS: &[(&str, &str)] = &[
    (CLOSE, CLOSE_PRINTED),
    (ESCAPED, ESCAPED_PRINTED),
    (PREFIXES, ""),
    (PLURALS, ""),
    (PORTER, ""),
];

#[test]
fn an_item_is_a_line_of_its_tokens_and_a_canonical_text_its_own(rt: HostRuntime) {
    let alloc = rt.alloc();
    for (text, want) in TEXTS {
        let once = canonical_text(alloc, text).expect(&rt, "a script");
        assert!(rt; *want == "" || once.as_str() == *want, "{once}");
        let twice = canonical_text(alloc, once.as_str()).expect(&rt, "a script");
        assert_eq!(rt; once.as_str(), twice.as_str());
    }
}

#[test]
fn an_edit_is_printed_from_its_tokens(rt: HostRuntime) {
    let alloc = rt.alloc();
    let script = Script::parse(alloc, PREFIXES.as_bytes(), "stem").expect(&rt, "a script");
    let edited = script
        .with_among(alloc, "stem", 1, "among('dis'())")
        .expect(&rt, "an edit");
    script.discard();
    let text = edited.print(alloc).expect(&rt, "memory");
    canonical_is_read(&edited, text.as_str());
    edited.discard();
    let want = "externals ( stem )\ndefine stem as ( [ among ( 'dis' ( ) ) ] delete )\n";
    assert_eq!(rt; text.as_str(), want);
    let again = canonical_text(alloc, text.as_str()).expect(&rt, "a script");
    assert_eq!(rt; again.as_str(), want);
}
