//! Laws of sbl_text (specs/Laws.antt), written out.

ghost use Rattle.std.specs.Prelude.{◌≡◌, ◌⊎◌, ℕ, List, [], ◌∷◌, Result, Ok, Err, Option, Some, None};
ghost use Rattle.sbl_text.specs.declared.fault.ScriptFault.{ScriptFault};
ghost use Rattle.sbl_token.specs.declared.signs.Sign.{Sign};
ghost use Rattle.sbl_token.specs.declared.token.Token.{Token};
ghost use Rattle.sbl_token.specs.declared.words.Word.{Word};
ghost use Rattle.sbl_token.specs.Signs.{sign_text};
ghost use Rattle.sbl_token.specs.Words.{word_of, word_text};
ghost use Rattle.sbl_token.specs.Lexemes.{Lexeme, lexeme_of};
ghost use Rattle.sbl_text.specs.Tokens.{AreTokensFrom, Reading, IsNext};
ghost use Rattle.sbl_text.specs.Escapes.{InForce};
ghost use Rattle.sbl_text.specs.Literals.{IsLiteral};
ghost use Rattle.sbl_text.specs.declared.fault.ScriptFault.TheVariants as fault;

use sbl_text::laws::{
    literal_is_one, nexts_are_tokens, same_fault_again, words_and_signs_are_read,
};

/// Needs the whole of the law `same_fault_again`.
pub fn needs_same_fault_again()
    ensures { (r s t : Reading) (f : ScriptFault) (next : Result (Option Token) ScriptFault) → IsNext r s (Err f) → IsNext s t next → (f ≡ fault.OutOfMemory) ⊎ ((next ≡ Err f) × (t ≡ s)) }
{
    same_fault_again();
}

/// Needs the whole of the law `words_and_signs_are_read`.
pub fn needs_words_and_signs_are_read()
    ensures words { (w : Word) → word_of (word_text w) ≡ Some w }
    ensures signs { (s t : Sign) → sign_text s ≡ sign_text t → s ≡ t }
{
    words_and_signs_are_read();
}

/// Needs the whole of the law `literal_is_one`.
pub fn needs_literal_is_one()
    ensures { (e : InForce) (spelling : List ℕ) (a b : Result (List ℕ) ScriptFault) → IsLiteral e spelling a → IsLiteral e spelling b → a ≡ b }
{
    literal_is_one();
}

/// Needs the whole of the law `nexts_are_tokens`.
pub fn needs_nexts_are_tokens()
    ensures next { (r t : Reading) (token : Token) (ls : List Lexeme) → IsNext r t (Ok (Some token)) → AreTokensFrom t.state t.rest ls → AreTokensFrom r.state r.rest (lexeme_of token ∷ ls) }
    ensures none { (r t : Reading) → IsNext r t (Ok None) → AreTokensFrom r.state r.rest [] }
{
    nexts_are_tokens();
}
