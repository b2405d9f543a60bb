//! Laws of value texts.

ghost use Rattle.std.specs.Prelude.{◌≡◌, ◌<◌, ◌++◌, ◌∷◌, [], ℕ, List, drop};
ghost use Rattle.gib_types.specs.{declared.table.Ty.{Ty as Type_of}, Tree.{Datum, HasType}};
ghost use Rattle.gib_value.specs.{Text.{text}, Reading.{AreWords, AreApart, IsRefusedAt, IsTextOf, Cut, token_len, first_token}};

use gib_base::Texts;
use gib_types::TypeTable;

/// Values of one type have different texts, where constructors of one type have different names, which are words.
pub fn texts_differ(types: &TypeTable, names: &Texts)
    requires apart { AreApart types.now names.now.short }
    requires words { AreWords types.now names.now.short }
    ensures { (ty : Type_of) (v w : Datum) → HasType types.now v ty → HasType types.now w ty → text types.now names.now.short v ≡ text types.now names.now.short w → v ≡ w }
{}

/// Where bytes are refused there is no text of the type, and they are refused at one place. Where a token is
/// refused, no text of the type begins with the tokens up to it.
pub fn refusals_hold(types: &TypeTable, names: &Texts)
    requires apart { AreApart types.now names.now.short }
    requires words { AreWords types.now names.now.short }
    ensures no_text { (ty : Type_of) (bytes : List ℕ) (place : ℕ) (v : Datum) → IsRefusedAt types.now names.now.short ty bytes place → IsTextOf types.now names.now.short ty v bytes → ⊥ }
    ensures one_place { (ty : Type_of) (bytes : List ℕ) (p q : ℕ) → IsRefusedAt types.now names.now.short ty bytes p → IsRefusedAt types.now names.now.short ty bytes q → p ≡ q }
    ensures no_front { (ty : Type_of) (bytes : List ℕ) (place : ℕ) (r : IsRefusedAt types.now names.now.short ty bytes place) → 0 < token_len (drop place bytes)
        → (v : Datum) (rest : List ℕ) → HasType types.now v ty → Cut (text types.now names.now.short v) (r.tokens ++ first_token (drop place bytes) ∷ []) rest → ⊥ }
{}
