//! Laws of lists of bytes and of numbers, each the contract of a function that does nothing.

ghost use Rattle.std.specs.Prelude.{◌≡◌, ◌<◌, ◌≤◌, ◌+◌, ◌^◌, ℕ, suc, List, [], ◌∷◌, ◌++◌, length, take, drop, replicate, bit_xor, slice_index};
ghost use Rattle.octets.specs.Bytes.{IsBytes, HasBytes, AreLongs, xor_bytes};

/// What is made of lists of bytes is a list of bytes.
pub fn bytes_stay_bytes()
    ensures nil { IsBytes [] }
    ensures cons { (x : ℕ) (xs : List ℕ) → x < 256 → IsBytes xs → IsBytes (x ∷ xs) }
    ensures copies { (n x : ℕ) → x < 256 → IsBytes (replicate n x) }
    ensures append { (xs ys : List ℕ) → IsBytes xs → IsBytes ys → IsBytes (xs ++ ys) }
    ensures xor { (xs ys : List ℕ) → IsBytes xs → IsBytes ys → IsBytes (xor_bytes xs ys) }
{}

/// The parts of a list of bytes are lists of bytes.
pub fn parts_are_bytes()
    ensures front { (xs ys : List ℕ) → IsBytes (xs ++ ys) → IsBytes xs }
    ensures back { (xs ys : List ℕ) → IsBytes (xs ++ ys) → IsBytes ys }
    ensures take { (n : ℕ) (xs : List ℕ) → IsBytes xs → IsBytes (take n xs) }
    ensures drop { (n : ℕ) (xs : List ℕ) → IsBytes xs → IsBytes (drop n xs) }
{}

/// How many bytes a list has that is made of others.
pub fn counts_of_bytes()
    ensures nil { HasBytes 0 [] }
    ensures cons { (n x : ℕ) (xs : List ℕ) → x < 256 → HasBytes n xs → HasBytes (suc n) (x ∷ xs) }
    ensures append { (m n : ℕ) (xs ys : List ℕ) → HasBytes m xs → HasBytes n ys → HasBytes (m + n) (xs ++ ys) }
    ensures take { (n : ℕ) (xs : List ℕ) → n ≤ length xs → IsBytes xs → HasBytes n (take n xs) }
    ensures drop { (i n : ℕ) (xs : List ℕ) → length xs ≡ i + n → IsBytes xs → HasBytes n (drop i xs) }
    ensures part { (i n : ℕ) (xs : List ℕ) → i + n ≤ length xs → IsBytes xs → HasBytes n (take n (drop i xs)) }
    ensures xor { (n : ℕ) (xs ys : List ℕ) → HasBytes n xs → HasBytes n ys → HasBytes n (xor_bytes xs ys) }
{}

/// The exclusive or of lists, by places.
pub fn xor_by_places()
    ensures length { (xs ys : List ℕ) → length xs ≤ length ys → length (xor_bytes xs ys) ≡ length xs }
    ensures places { (xs ys : List ℕ) (k : ℕ) → k < length xs → k < length ys → slice_index (xor_bytes xs ys) k ≡ bit_xor (slice_index xs k) (slice_index ys k) }
    ensures exact { (xs ys zs : List ℕ) → length zs ≡ length xs → length xs ≤ length ys
        → ((k : ℕ) → k < length xs → slice_index zs k ≡ bit_xor (slice_index xs k) (slice_index ys k)) → zs ≡ xor_bytes xs ys }
    ensures append { (us vs xs ys : List ℕ) → length us ≡ length vs → xor_bytes (us ++ xs) (vs ++ ys) ≡ xor_bytes us vs ++ xor_bytes xs ys }
{}

/// The exclusive or of lists is a sum: in any order, and what is added twice is gone.
pub fn xor_is_a_sum()
    ensures commutes { (xs ys : List ℕ) → xor_bytes xs ys ≡ xor_bytes ys xs }
    ensures associates { (xs ys zs : List ℕ) → xor_bytes (xor_bytes xs ys) zs ≡ xor_bytes xs (xor_bytes ys zs) }
    ensures undone { (xs ys : List ℕ) → length xs ≤ length ys → xor_bytes (xor_bytes xs ys) ys ≡ xs }
{}

/// What is made of lists of numbers of 64 bits, and their parts, are such lists.
pub fn longs_stay_longs()
    ensures nil { AreLongs [] }
    ensures append { (xs ys : List ℕ) → AreLongs xs → AreLongs ys → AreLongs (xs ++ ys) }
    ensures take { (n : ℕ) (xs : List ℕ) → AreLongs xs → AreLongs (take n xs) }
    ensures drop { (n : ℕ) (xs : List ℕ) → AreLongs xs → AreLongs (drop n xs) }
{}
