//! Laws of the definitions, each the contract of a function that does nothing.

ghost use Rattle.std.specs.Prelude.{◌≡◌, ◌*◌, ℕ, List};
ghost use Rattle.std.specs.List.{concat};
ghost use Rattle.octets.specs.Bytes.{HasBytes};
ghost use Rattle.cipher_modes.specs.Ige.{ige, inverse_ige, MeetsIgeEquations};
ghost use Rattle.cipher_modes.specs.CounterMode.{CtrState, applied, applied_in_turn};

use crate::block::block_laws;

/// A text enciphered in infinite garble extension meets the equations of the mode.
pub fn ige_meets_its_equations()
    ensures { (key iv text : List ℕ) (n : ℕ) → HasBytes 32 key → HasBytes 32 iv → HasBytes (16 * n) text
        → MeetsIgeEquations key iv text (ige key iv text) }
{
    block_laws();
}

/// Deciphering in infinite garble extension undoes enciphering.
pub fn ige_deciphering_undoes_enciphering()
    ensures { (key iv text : List ℕ) (n : ℕ) → HasBytes 32 key → HasBytes 32 iv → HasBytes (16 * n) text
        → inverse_ige key iv (ige key iv text) ≡ text }
{
    block_laws();
}

/// Enciphering in infinite garble extension undoes deciphering.
pub fn ige_enciphering_undoes_deciphering()
    ensures { (key iv text : List ℕ) (n : ℕ) → HasBytes 32 key → HasBytes 32 iv → HasBytes (16 * n) text
        → ige key iv (inverse_ige key iv text) ≡ text }
{
    block_laws();
}

/// In counter mode, pieces in turn are the same as one call over all of them, whatever their lengths.
pub fn ctr_pieces_equal_the_whole()
    ensures { (stream : CtrState) (pieces : List (List ℕ))
        → applied_in_turn stream pieces ≡ applied stream (concat pieces) }
{}

/// Counter mode undoes itself from the same place.
pub fn ctr_undoes_itself()
    ensures { (stream : CtrState) (text : List ℕ) → applied stream (applied stream text) ≡ text }
{}
