// Laws of the definitions: each is the contract of a function with an empty body.
ghost use Rattle.std.specs.Prelude.{◌≡◌, ℕ, List, Some};
ghost use Rattle.json.specs.Json.{Json};
ghost use Rattle.serde_json.specs.Data.{Data};
ghost use Rattle.serde_json.specs.Written.{outline};
ghost use Rattle.serde_json.specs.Written as written;
ghost use Rattle.comm_json.specs.Behind.{line_value};
ghost use Rattle.comm_json.specs.Numbers.{NumbersInRange};
ghost use Rattle.comm_json.specs.Text.{compact_text};

/// Each number of a line's value is the text of a JSON number (RFC 8259, 6) within a float's range.
pub fn lines_have_numbers_in_range()
    ensures { (line : List ℕ) (j : Json) → line_value line ≡ Some j → NumbersInRange j }
{}

/// The compact text of a value is the kit's. Neither has a text for a float.
pub fn compact_texts_are_the_same()
    ensures { (d : Data) → compact_text (outline d) ≡ written.compact_text d }
{}
