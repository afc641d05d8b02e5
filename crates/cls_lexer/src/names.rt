ghost use Rattle.std.specs.Prelude.{◌≡◌, ℕ, ◌-◌, ◌^◌, ◌<◌, ◌↔◌, List, [], ◌∷◌, ◌++◌, Some, None, length, take, map, Contains, IsTrue, IsNone, IfSome, IfOk, OnOk, OnErr, slice_get, slice_index_or};
ghost use Rattle.std.specs.List.{IsDistinct, position, remove};
ghost use Rattle.std.specs.Str.{bytes_eq};
ghost use Rattle.cls_lexer.specs.Names.{number_of, with_text};
ghost use Rattle.cls_lexer.specs.TextKeys.{IsKeyOf};
ghost use Rattle.cls_lexer.specs.declared.text_key.TextKey.TheVariants.{Short};

use crate::text_key::{ShortKey, TextKey, key_of};
use crate::texts::Texts;
use cls_base::{Name, OutOfMemory};
use indexmap::IndexSet;
use std::alloc::Global;
use std::marker::Model;

/// A table of texts, each of which has a number: 0 for the first, and so on in the order in which they first came.
///
/// It is seen as the list of the texts. None stands twice, and there are fewer than 2^32.
pub struct Names {
    keys: IndexSet<TextKey<String>>, // Of the texts, in the same order.
    texts: Texts,
}

// Not derived, for the prover: so a caller's proof has one step where a value is dropped, and not one for each part of it.
impl Drop for Names {
    fn drop(self) {
        let Names { keys: _, texts: _ } = self;
    }
}

impl Model for Names {
    ghost use Rattle.std.specs.Prelude.{ℕ, List};
    ghost use Rattle.cls_lexer.specs.Names.{IsTable};
    ghost use Rattle.cls_lexer.specs.TextKeys.{AreKeysOf};

    ghost Value = { List (List ℕ) };

    ghost view = { λ n. n.texts };

    ghost invariant = { λ n. IsTable n.texts × AreKeysOf n.keys.keys n.texts };
}

impl Names {
    /// The table with no text. It takes no memory.
    pub fn new(alloc: Global) -> Names
        ensures { result ≡ [] }
    {
        Names {
            keys: IndexSet::new(alloc),
            texts: Texts::new(alloc),
        }
    }

    /// How many texts there are.
    pub fn len(&self) -> u32
        ensures count { result ≡ length self.now }
        ensures distinct { IsDistinct bytes_eq self.now }
    {
        self.texts.len() as u32
    }

    /// Whether there is no text.
    pub fn is_empty(&self) -> bool
        ensures { IsTrue result ↔ (length self.now ≡ 0) }
    {
        self.texts.len() == 0
    }

    /// The number of the text. A text that is known keeps its number, and a new one goes last.
    ///
    /// The caller sees to it that there is a number left. After an error the table is as before.
    pub fn intern(&mut self, alloc: Global, text: &str) -> Result<Name, OutOfMemory>
        requires { length self.old < 2 ^ 32 - 1 }
        ensures number { IfOk result (λ name. name.0 ≡ number_of self.old text.now) }
        ensures table { OnOk result (self.new ≡ with_text self.old text.now) }
        ensures stands { IfOk result (λ name. slice_get self.new name.0 ≡ Some text.now) }
        ensures distinct { IsDistinct bytes_eq self.new }
        ensures err { OnErr result (self.new ≡ self.old) }
    {
        let key = key_of(text);
        if let Some(place) = self.place_of(key) {
            return Ok(Name(place));
        }
        Ok(self.add(alloc, key, text)?)
    }

    /// The next number, for a text that isn't held and has the key. Out of line for speed: most names are known.
    ///
    /// After an error the table is as before.
    #[inline(never)]
    fn add(&mut self, alloc: Global, key: TextKey<&str>, text: &str) -> Result<Name, OutOfMemory>
        requires room { length self.old < 2 ^ 32 - 1 }
        requires key { IsKeyOf (λ own. own.now) key text.now }
        requires absent { ¬ Contains self.old text.now }
        ensures number { IfOk result (λ name. name.0 ≡ length self.old) }
        ensures table { OnOk result (self.new ≡ self.old ++ text.now ∷ []) }
        ensures distinct { IsDistinct bytes_eq self.new }
        ensures err { OnErr result (self.new ≡ self.old) }
    {
        let name = Name(self.len());
        let own = key.into_owned(alloc)?;
        self.keys.reserve(1)?; // So that there is an error only while all is as before.
        self.texts.push(text)?;
        self.keys.insert_full(own)?;
        Ok(name)
    }

    /// The number of the text, or None if it isn't held.
    pub fn find(&self, text: &str) -> Option<Name>
        ensures absent { IsNone result ↔ ¬ Contains self.now text.now }
        ensures number { IfSome result (λ name. name.0 ≡ number_of self.now text.now) }
        ensures stands { IfSome result (λ name. slice_get self.now name.0 ≡ Some text.now) }
    {
        let place = self.place_of(key_of(text))?;
        Some(Name(place))
    }

    /// The place of the text that has the key.
    fn place_of(&self, key: TextKey<&str>) -> Option<u32>
        ensures distinct { IsDistinct bytes_eq self.now }
        ensures place { (text : List ℕ)
            → IsKeyOf (λ own. own.now) key.entry text → result ≡ position (bytes_eq text) self.now }
    {
        match key {
            TextKey::Short(number) => self.place_of_short(number),
            TextKey::Long(_) => self.place_of_long(key),
        }
    }

    /// The place of the short text that has the number.
    fn place_of_short(&self, number: u128) -> Option<u32>
        ensures distinct { IsDistinct bytes_eq self.now }
        ensures place { (text : List ℕ)
            → IsKeyOf {T = List ℕ} (λ own. own) (Short number) text → result ≡ position (bytes_eq text) self.now }
    {
        let place = self.keys.get_index_of(ShortKey(number))?;
        Some(place as u32)
    }

    /// The place of the text that has the key. Out of line for speed: few texts are long.
    #[inline(never)]
    fn place_of_long(&self, key: TextKey<&str>) -> Option<u32>
        ensures distinct { IsDistinct bytes_eq self.now }
        ensures place { (text : List ℕ)
            → IsKeyOf (λ own. own.now) key.entry text → result ≡ position (bytes_eq text) self.now }
    {
        let place = self.keys.get_index_of(key)?;
        Some(place as u32)
    }

    /// The number of the text, or the number of texts if it isn't held.
    #[tactic(auto, using(crate::proofs::TextTables::number_absent))]
    pub fn number(&self, text: &str) -> Name
        ensures { result.0 ≡ number_of self.now text.now }
    {
        match self.find(text) {
            Some(name) => name,
            None => Name(self.len()),
        }
    }

    /// Keeps the texts of the first `len` numbers. It takes no memory.
    pub fn cut(&mut self, len: u32)
        ensures kept { self.new ≡ take len self.old }
        ensures distinct { IsDistinct bytes_eq self.new }
    {
        self.keys.truncate(len as usize);
        self.texts.truncate(len as usize);
    }

    /// Takes the text of the number out: the texts behind it move down by one number. If no text has the number, nothing
    /// changes. It takes no memory.
    pub fn remove(&mut self, name: Name)
        ensures removed { self.new ≡ remove self.old name.0 }
        ensures distinct { IsDistinct bytes_eq self.new }
    {
        self.keys.shift_remove_index(name.0 as usize);
        self.texts.remove(name.0 as usize);
    }

    /// The text of the number. A number that no text has gives the empty text.
    pub fn text(&self, name: Name) -> &str
        ensures { result.now ≡ slice_index_or self.now name.0 [] }
    {
        self.texts.get(name.0 as usize)
    }
}
