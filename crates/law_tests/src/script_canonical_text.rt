//! Laws of sbl_script (specs/CanonicalText.antt), written out.

ghost use Rattle.std.specs.Prelude.{◌≡◌, ◌≤◌, length};
ghost use Rattle.sbl_ast.specs.Places.{AreShallow, places};
ghost use Rattle.sbl_print.specs.Canonical.{canonical};
ghost use Rattle.sbl_script.specs.ParsedScript.{source_of};
ghost use Rattle.sbl_script.specs.Reading.{IsScriptOf};

use sbl_script::Script;
use sbl_script::laws::{canonical_is_one, canonical_is_read, is_shallow};

/// Needs the whole of the law `canonical_is_read`.
pub fn needs_canonical_is_read(script: &Script, text: &str)
    ensures { text.now ≡ canonical (source_of script.now).items → length text.now ≤ 1048576
        → IsScriptOf text.now (source_of script.now).external (source_of script.now) }
{
    canonical_is_read(script, text);
}

/// Needs the whole of the law `canonical_is_one`.
pub fn needs_canonical_is_one(script: &Script, other: &Script)
    ensures { canonical (source_of script.now).items ≡ canonical (source_of other.now).items
        → (source_of script.now).items ≡ (source_of other.now).items }
{
    canonical_is_one(script, other);
}

/// Needs the whole of the law `is_shallow`.
pub fn needs_is_shallow(script: &Script)
    ensures { AreShallow (places (source_of script.now).items) }
{
    is_shallow(script);
}
