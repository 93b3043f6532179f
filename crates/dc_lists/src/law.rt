//! The laws that what is written is read back.

ghost use Rattle.std.specs.Prelude.{◌≡◌, true, ◌++◌, ◌∷◌, ℕ, ℤ, List, map, Ok};
ghost use Rattle.std.specs.List.{list_all};
ghost use Rattle.dc_int.specs.Sorts.{Sort};
ghost use Rattle.dc_lists.specs.Output.{Item, item_sort, item_value, item_fits, item_text, is_of_sort, written, line_of};
ghost use Rattle.dc_lists.specs.Input.{take_value, whole_read};

/// What a value writes at the end of a line is taken as the same value, and the line feed is left.
pub fn a_written_value_is_read_back()
    ensures { (sort : Sort) (z : ℤ) (left : List ℕ) → is_of_sort sort z ≡ true → take_value sort (written sort z ++ 10 ∷ left) ≡ Ok (z, 10 ∷ left) }
{}

/// A line that was written of some values is read back as the same values, by a READ of as many items of
/// the same sorts, and nothing behind the line is passed.
pub fn a_written_line_is_read_back()
    ensures { (items : List Item) (left : List ℕ) → list_all item_fits items ≡ true
        → whole_read (map item_sort items) (line_of (map item_text items) ++ left) ≡ Ok (map item_value items, left) }
{}
