ghost use Rattle.std.specs.Prelude.{◌≡◌, false, List, Ok};
ghost use Rattle.cls_lexer.specs.Words.{Word};
ghost use Rattle.cls_syntax.specs.Faults.{Exactly};
ghost use Rattle.cls_syntax.specs.Forms.{Form, Values, line_words, LineStands, type_parts, constructors_named, variables_named};
ghost use Rattle.cls_syntax.specs.GoodForms.{IsGood};
ghost use Rattle.cls_syntax.specs.LineReading.{line_read};
ghost use Rattle.cls_syntax.specs.LineGrammars.{Row, LineOf, row_words, RowStands, grammar_read, IsGoodGrammar};
ghost use Rattle.cls_syntax.specs.TypeTexts.{TypeText, type_words};
ghost use Rattle.cls_syntax.specs.TypeSchemas.{constructors_in, variables_in};
ghost use Rattle.cls_syntax.specs.RoundTrips.{PrintedTypesAreRead, ReadTypesAreReadAgain, DepthIsMostOpen};
ghost use Rattle.cls_syntax.specs.Fronts.{FrontsAreExact};

/// Law: the words begin with a name, a number or a sign if and only if the front of that kind gives it, and what
/// follows.
pub fn fronts_are_exact()
    ensures { FrontsAreExact }
{}

/// Law: exactly the lines of a form that can be read from the left are read, each as what it says, and a stop is at the
/// first word that can't follow.
pub fn forms_are_exact()
    ensures exact { (f : Form) → IsGood f → (ws : List Word)
        → Exactly (line_words f) (LineStands f) ws (line_read f ws) }
    ensures again { (f : Form) → IsGood f → (v : Values f) → LineStands f v → line_read f (line_words f v) ≡ Ok v }
{}

/// Law: the same for grammars of lines whose first words differ.
pub fn grammars_are_exact()
    ensures exact { (rows : List Row) → IsGoodGrammar rows → (ws : List Word)
        → Exactly (row_words rows) (RowStands rows) ws (grammar_read rows ws) }
    ensures again { (rows : List Row) → IsGoodGrammar rows → (v : LineOf rows) → RowStands rows v
        → grammar_read rows (row_words rows v) ≡ Ok v }
{}

/// Law: the text of a type is read as that type, where its names are names and it is within the limits.
pub fn printed_types_are_read()
    ensures { PrintedTypesAreRead }
{}

/// Law: what is read and then printed is read again as the same type, and no name is new.
pub fn read_types_are_read_again()
    ensures { ReadTypesAreReadAgain }
{}

/// Law: the depth of a type is the most parentheses that are open at once in its text.
pub fn depth_is_most_open()
    ensures { DepthIsMostOpen }
{}

/// Law: the names that a type numbers, told by its words, are those that its parts name.
pub fn parts_name_what_words_do()
    ensures constructors { (t : TypeText) → constructors_named (type_parts t) ≡ constructors_in false (type_words t) }
    ensures variables { (t : TypeText) → variables_named (type_parts t) ≡ variables_in false (type_words t) }
{}
