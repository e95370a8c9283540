//! Laws of sbl_machine (specs/BuiltFrom.antt), written out.

ghost use Rattle.sbl_resolver.specs.Checks.{WellDeclared};
ghost use Rattle.sbl_ast.specs.NamedParts.{Part'};
ghost use Rattle.sbl_ast.specs.Source.{Source};
ghost use Rattle.sbl_machine.specs.BuiltFrom.{IsClosed, is_affected_by};

use sbl_machine::laws::affected_is_closed;

/// Needs the whole of the law `affected_is_closed`.
pub fn needs_affected_is_closed()
    ensures { (s : Source) → WellDeclared s.items s.external → (x : Part') → IsClosed (is_affected_by s x) s }
{
    affected_is_closed();
}
