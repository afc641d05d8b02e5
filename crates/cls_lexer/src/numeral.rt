ghost use Rattle.std.specs.Prelude.{◌≡◌, IsTrue};
ghost use Rattle.cls_lexer.specs.Numerals.{is_numeral};

/// A number as it is written.
#[derive(Clone, Copy, Debug)]
pub struct Numeral<'a> {
    /// Its digits.
    pub text: &'a str,
    // They are decimal digits, at least one.
    pub ghost digits: { IsTrue (is_numeral text.now) },
}

impl Numeral<'_> {
    ghost use Rattle.std.specs.Prelude.{◌<◌, ◌^◌};
    ghost use Rattle.std.specs.Option.{SomeIff};
    ghost use Rattle.cls_lexer.specs.Numerals.{number_value};

    /// The number that the digits spell, or None where it is 2^32 or more. Leading zeros are allowed.
    pub fn value(&self) -> Option<u32>
        ensures { SomeIff result (number_value self.now.text.now < 2 ^ 32) (number_value self.now.text.now) }
    {
        self.text.parse().ok()
    }
}
