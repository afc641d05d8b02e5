//! What holds of every rule book of a kind, as calls that do nothing and promise the law.
ghost use Rattle.std.specs.Prelude.{ℕ, ◌↔◌};
ghost use Rattle.cls_base.specs.Terms.{Applicative, IsTermOver};
ghost use Rattle.cls_base.specs.Languages.{IsGenerated};
ghost use Rattle.cls_base.specs.Books.{omega_book};

/// The rule book of omega generates exactly the terms over its components.
pub fn omega_book_generates_all_terms()
    ensures { (n : ℕ) (e : Applicative) → IsGenerated (omega_book n) 0 e ↔ IsTermOver n e }
{}
