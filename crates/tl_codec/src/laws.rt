//! Laws of the definitions that the reader's and the writer's contracts stand on.

ghost use Rattle.std.specs.Prelude.{◌≡◌, List, ℕ, ◌++◌, Ok, length};
ghost use Rattle.octets.specs.Bytes.{IsBytes};
ghost use Rattle.tl_codec.specs.Standard.{vector, bool_true, bool_false, bytes_max, longs_max};
ghost use Rattle.tl_codec.specs.Spelling.{Form, Of, Fits, Spells, Reads, spelling, size_of};
ghost use Rattle.tl_codec.specs.Reading.{Takes, read_at};

use crate::tags::{BOOL_FALSE, BOOL_TRUE, BYTES_MAX, LONGS_MAX, VECTOR};

/// The constants are the numbers and limits that the definitions stand on.
pub fn constants_of_the_standard()
    ensures vector { VECTOR ≡ vector }
    ensures bool_true { BOOL_TRUE ≡ bool_true }
    ensures bool_false { BOOL_FALSE ≡ bool_false }
    ensures bytes_max { BYTES_MAX ≡ bytes_max }
    ensures longs_max { LONGS_MAX ≡ longs_max }
{}

/// No front of a text reads as two values of a form.
pub fn one_reading()
    ensures { (form : Form) (v w : Of form) (x y r s : List ℕ) → Reads form v x → Reads form w y → x ++ r ≡ y ++ s → (v ≡ w) × (x ≡ y) }
{}

/// What a writer wrote is read again, whatever follows.
pub fn written_again()
    ensures reads { (form : Form) (value : Of form) (text : List ℕ) → Spells form value text → Reads form value text }
    ensures read { (form : Form) (value : Of form) (text rest : List ℕ) → Spells form value text → read_at form (text ++ rest) ≡ Ok (value, rest) }
{}

/// A read of a form gives a value and what follows exactly where a front of the text is that value.
pub fn exact_reading()
    ensures taken { (form : Form) (value : Of form) (text rest : List ℕ) → IsBytes text → read_at form text ≡ Ok (value, rest) → Takes form value text rest }
    ensures read { (form : Form) (value : Of form) (text rest : List ℕ) → Takes form value text rest → read_at form text ≡ Ok (value, rest) }
{}

/// How many bytes a spelling has.
pub fn sizes_of_spellings()
    ensures { (form : Form) (value : Of form) → Fits form value → length (spelling form value) ≡ size_of form value }
{}
