//! What rows say for each choice of digits for the inputs, as words of 64 bits, a bit for each
//! choice. Begin with `rows_word`, which is one for bits, of which truth tables are made
//! (`truth_table.rt`), and for sets of bits, of which the words of constants are (`choices.rt`).

ghost use Rattle.std.specs.Prelude.{◌≡◌, ◌≤◌, ◌<◌, ◌+◌, ◌/◌, ◌^◌, ℕ, Bool, false, not, List, All, get_or, length};
ghost use Rattle.std.specs.Int.{bit_at};
ghost use Rattle.gate_sets.specs.declared.words.Digits.TheVariants.{Bits, Sets};
ghost use Rattle.gate_sets.specs.private.TruthTables.{in_table};
ghost use Rattle.gate_sets.specs.private.Words.{base_of, lit_bit, most_of, row_bit, rows_bit};

use net_core::{Lit, Row};

/// What the digits of a choice are: bits of the inputs, to the base 2, or sets of bits, to the base
/// 4.
#[derive(Clone, Copy, PartialEq, Eq, Drop)]
pub enum Digits {
    /// The bit of each input.
    Bits,
    /// The set of bits of each input: 1 where it has 0, and 2 more where it has 1.
    Sets,
}

/// The table of the choices in which the input at a place is 0.
pub fn zeros(place: usize) -> u64
    requires { place < 6 }
    ensures bits { (k : ℕ) → k < 64 → bit_at result k + bit_at k place ≡ 1 }
    ensures choices { (choice : List Bool) → length choice ≤ 6 → place < length choice
        → in_table result choice ≡ not (get_or choice place false) }
{
    if place == 0 {
        0x5555_5555_5555_5555
    } else if place == 1 {
        0x3333_3333_3333_3333
    } else if place == 2 {
        0x0F0F_0F0F_0F0F_0F0F
    } else if place == 3 {
        0x00FF_00FF_00FF_00FF
    } else if place == 4 {
        0x0000_FFFF_0000_FFFF
    } else {
        0x0000_0000_FFFF_FFFF
    }
}

/// The table of the choices in which the input at a place is 1.
pub fn ones(place: usize) -> u64
    requires { place < 6 }
    ensures bits { (k : ℕ) → k < 64 → bit_at result k ≡ bit_at k place }
    ensures choices { (choice : List Bool) → length choice ≤ 6 → place < length choice
        → in_table result choice ≡ get_or choice place false }
{
    if place == 0 {
        0xAAAA_AAAA_AAAA_AAAA
    } else if place == 1 {
        0xCCCC_CCCC_CCCC_CCCC
    } else if place == 2 {
        0xF0F0_F0F0_F0F0_F0F0
    } else if place == 3 {
        0xFF00_FF00_FF00_FF00
    } else if place == 4 {
        0xFFFF_0000_FFFF_0000
    } else {
        0xFFFF_FFFF_0000_0000
    }
}

/// The word of the choices in which the set at a place has 0.
fn zero_word(place: usize) -> u64
    requires { place < 3 }
    ensures { (choice : ℕ) → choice < 64
        → bit_at result choice ≡ bit_at (choice / 4 ^ place) 0 }
{
    if place == 0 {
        0xAAAA_AAAA_AAAA_AAAA
    } else if place == 1 {
        0xF0F0_F0F0_F0F0_F0F0
    } else {
        0xFFFF_0000_FFFF_0000
    }
}

/// The word of the choices in which the set at a place has 1.
fn one_word(place: usize) -> u64
    requires { place < 3 }
    ensures { (choice : ℕ) → choice < 64
        → bit_at result choice ≡ bit_at (choice / 4 ^ place) 1 }
{
    if place == 0 {
        0xCCCC_CCCC_CCCC_CCCC
    } else if place == 1 {
        0xFF00_FF00_FF00_FF00
    } else {
        0xFFFF_FFFF_0000_0000
    }
}

/// The word of the choices of bits in which a literal admits the one at its place.
fn bit_word(lit: Lit, place: usize) -> u64
    requires { place < 6 }
    ensures { (choice : ℕ) → choice < 64
        → bit_at result choice ≡ lit_bit Bits lit (choice / 2 ^ place) }
{
    match lit {
        Lit::Zero => zeros(place),
        Lit::One => ones(place),
        Lit::Any => u64::MAX,
    }
}

/// The word of the choices of sets in which a literal admits some bit of the one at its place.
fn set_word(lit: Lit, place: usize) -> u64
    requires { place < 3 }
    ensures { (choice : ℕ) → choice < 64
        → bit_at result choice ≡ lit_bit Sets lit (choice / 4 ^ place) }
{
    match lit {
        Lit::Zero => zero_word(place),
        Lit::One => one_word(place),
        Lit::Any => zero_word(place) | one_word(place),
    }
}

/// The word of the choices in which a literal admits the digit at its place.
fn lit_word(digits: Digits, lit: Lit, place: usize) -> u64
    requires { place < most_of digits }
    ensures { (choice : ℕ) → choice < 64
        → bit_at result choice ≡ lit_bit digits lit (choice / base_of digits ^ place) }
{
    match digits {
        Digits::Bits => bit_word(lit, place),
        Digits::Sets => set_word(lit, place),
    }
}

/// The word of the choices in which each literal of a row admits its digit.
fn row_word(digits: Digits, row: &[Lit]) -> u64
    requires { length row.now ≤ most_of digits }
    ensures { (choice : ℕ) → choice < 64 → bit_at result choice ≡ row_bit digits row.now choice }
{
    let mut word = u64::MAX;
    for place in 0..row.len() {
        word = word & lit_word(digits, row[place], place);
    }
    word
}

/// The word of the choices in which each literal of some row admits its digit.
pub fn rows_word(digits: Digits, rows: &[Row]) -> u64
    requires { All (λ row. length row ≤ most_of digits) rows.now }
    ensures { (choice : ℕ) → choice < 64
        → bit_at result choice ≡ rows_bit digits rows.now choice }
{
    let mut word = 0;
    for row in rows {
        word = word | row_word(digits, row.as_slice());
    }
    word
}
