//! The insert characters and macros in force.

ghost use Rattle.std.specs.Prelude.{◌≡◌, IfOk, if◌then◌else◌, is_ok, map, option_map, List, ℕ};
ghost use Rattle.std.specs.Str.{chars};
ghost use Rattle.sbl_text.specs.Escapes as spec;
ghost use Rattle.sbl_text.specs.Escapes.{InForce, Definition};

use crate::macros::Macros;
use std::alloc::{AllocError, Global};
use std::marker::Model;

/// The characters that enclose a name inserted into a literal.
#[derive(Clone, Copy, Debug, PartialEq, Eq)]
pub struct Inserts {
    /// The character before the name.
    pub opening: char,
    /// The character after the name.
    pub closing: char,
}

/// Returns whether the character opens an insertion.
pub fn opens(inserts: Option<Inserts>, c: char) -> bool
    ensures { result ≡ spec.opens inserts c }
{
    match inserts {
        None => false,
        Some(pair) => c == pair.opening,
    }
}

/// Returns whether the character closes an insertion.
pub fn closes(inserts: Option<Inserts>, c: char) -> bool
    ensures { result ≡ spec.closes inserts c }
{
    match inserts {
        None => false,
        Some(pair) => c == pair.closing,
    }
}

/// The insert characters and macros that apply to a literal (Snowball manual, "stringescapes" and "stringdef").
#[derive(Drop)]
pub struct Escapes {
    alloc: Global,
    inserts: Option<Inserts>,
    macros: Macros,
}

impl Model for Escapes {
    ghost Value = { InForce };

    ghost view = { λ s. record { inserts = s.inserts; macros = s.macros } };
}

impl Escapes {
    /// Returns escapes with no insert characters and no macros. `alloc` is used for macros later.
    pub fn new(alloc: Global) -> Escapes
        ensures { result ≡ spec.nothing_set }
    {
        Escapes {
            alloc,
            inserts: None,
            macros: Macros::new(alloc),
        }
    }

    /// Sets the insert characters; the macros are unchanged. A quote never opens an insertion.
    pub fn set(&mut self, a: char, b: char)
        ensures { self.new ≡ spec.with_inserts self.old a b }
    {
        self.inserts = Some(Inserts {
            opening: a,
            closing: b,
        });
    }

    /// Defines a macro, which replaces an earlier macro of the same name. Returns `AllocError` if an allocation fails;
    /// then nothing is changed.
    pub fn define(&mut self, name: &str, value: &[char]) -> Result<(), AllocError>
        ensures { self.new ≡ (if is_ok result then spec.with_macro self.old (chars name.now) value.now else self.old) }
    {
        let letters: Vec<char> = name.chars().collect(self.alloc)?;
        self.macros.define(self.alloc, &letters, value)
    }

    /// Returns the insert characters.
    pub fn inserts(&self) -> Option<Inserts>
        ensures { result ≡ self.now.inserts }
    {
        self.inserts
    }

    /// Returns the characters that a macro stands for, or `None` if there is no macro of this name.
    pub fn find(&self, name: &[char]) -> Option<&[char]>
        ensures { option_map (λ v. v.now) result ≡ spec.find self.now.macros name.now }
    {
        self.macros.find(name)
    }

    /// Returns a copy with the same insert characters and macros. Returns `AllocError` if an allocation fails.
    pub fn copy(&self) -> Result<Escapes, AllocError>
        ensures { IfOk result (λ e. e ≡ self.now) }
    {
        Ok(Escapes {
            alloc: self.alloc,
            inserts: self.inserts,
            macros: self.macros.copy(self.alloc)?,
        })
    }
}
