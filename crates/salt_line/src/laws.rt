//! Laws of salt lines, over the definitions alone.

ghost use Rattle.std.specs.Prelude.{◌≡◌, ◌≢◌, ◌++◌, ◌≤◌, ◌<◌, ℕ, List, map, AllPairs};
ghost use Rattle.draws.specs.Draws.{draw_after, next_words};
ghost use Rattle.salt_line.specs.Rows.{Row, HasEnded, IsValidAt};
ghost use Rattle.salt_line.specs.Needed.{needed_from};
ghost use Rattle.salt_line.specs.Line.{Line, IsValidSalt, current_salt, line_after};

use draws::Draw;

/// A row that has ended is valid at no later moment.
pub fn ended_rows_stay_ended()
    ensures { (start : ℕ) (row : Row) (now later : ℕ) → HasEnded start row now → now ≤ later → ¬ IsValidAt start row later }
{}

/// One word drawn is the salt of one period alone: no two rows have one period, and each word that was drawn is the
/// word of one row, in order.
pub fn words_have_one_period<D: Draw>()
    ensures apart { (period n : ℕ) (rows : List Row) (draw : D) → AllPairs (λ one other. one.period ≢ other.period) rows
        → AllPairs (λ one other. one.period ≢ other.period) (needed_from D.step period n (rows, draw)).0 }
    ensures drawn { (period n : ℕ) (rows : List Row) (draw : D) → ((count : ℕ)
        × (map (λ row. row.word) (needed_from D.step period n (rows, draw)).0 ≡ map (λ row. row.word) rows ++ next_words D.step count draw)
        × ((needed_from D.step period n (rows, draw)).1 ≡ draw_after D.step count draw)) }
{}

/// Once the row of the current period was needed, its word is valid, unless it is 0.
pub fn current_salts_are_valid<D: Draw>()
    ensures { (line : Line) (now n : ℕ) (draw : D) → line.start ≤ now → 0 < n
        → current_salt (line_after D.step now n line draw) now ≢ 0
        → IsValidSalt (line_after D.step now n line draw) now (current_salt (line_after D.step now n line draw) now) }
{}
