// Rules 4 to 7 on a slice's body.
#![tactic(auto)]

ghost use Rattle.std.specs.Prelude.{◌≡◌, ◌<◌};
ghost use Rattle.slicefile.specs.Format.{HoldsSlice};
ghost use Rattle.rules.specs.Rules.{letter_choice, bad_choice, letter_combination, bad_combination, bad_driver, body_refusal};

use slicefile::{
    CARRY_DATA, CARRY_START, KIND, MAIN, MODE, MODE_D, MUX, NUMBER, PIN_COUNT, Reason, SECOND,
    SET_RESET_USED, SHIFT_DATA,
};

// A choice of a letter that is outside its list.
fn letter_choice(body: &[u8], l: usize) -> bool
    requires { HoldsSlice body.now × (l < 4) }
    ensures { result ≡ letter_choice body.now l }
{
    (2 < body[MODE + l])
        | (1 < body[SHIFT_DATA + l])
        | (1 < body[CARRY_DATA + l])
        | (4 < body[MUX + l])
        | (5 < body[MAIN + l])
        | (1 < body[SECOND + l])
}

// Rule 5 on a slice's body.
#[tactic(auto, using(slicefile::proofs::Tests::any_next), unfolding(slicefile::specs::Lists::any_below, crate::specs::Rules::bad_choice))]
fn bad_choice(body: &[u8]) -> bool
    requires { HoldsSlice body.now }
    ensures { result ≡ bad_choice body.now }
{
    let mut letters = false;
    for l in 0..4 {
        letters = letter_choice(body, l) | letters;
    }
    (1 < body[KIND]) | (3 < body[CARRY_START]) | (1 < body[SET_RESET_USED]) | letters
}

// A letter's share of rule 6.
fn letter_combination(body: &[u8], l: usize) -> bool
    requires { HoldsSlice body.now × (l < 4) }
    ensures { result ≡ letter_combination body.now l }
{
    let mode = body[MODE + l];
    let next = body[MODE + (l + 1)];
    let word = slicefile::contents_word(body, l);
    ((body[KIND] == 0) & (mode != 0))
        | ((mode == 1) & (body[MODE_D] != 1))
        | ((body[SHIFT_DATA + l] == 1) & ((l == 3) | (mode != 2) | (next != 2)))
        | ((mode == 2) & (4294967296 <= word))
}

// Rule 6 on the body of the slice of a number.
#[tactic(auto, using(slicefile::proofs::Tests::any_next), unfolding(slicefile::specs::Lists::any_below))]
fn bad_combination(number: usize, body: &[u8]) -> bool
    requires { HoldsSlice body.now }
    ensures { result ≡ bad_combination number body.now }
{
    let mut letters = false;
    let mut memory = false;
    let mut shift = false;
    for l in 0..4 {
        letters = letter_combination(body, l) | letters;
        memory = (body[MODE + l] == 1) | memory;
        shift = (body[MODE + l] == 2) | shift;
    }
    letters | (memory & shift) | ((number == 0) & (body[CARRY_START] == 3))
}

// Rule 7 on a slice's body.
#[tactic(auto, using(slicefile::proofs::Tests::any_next), unfolding(slicefile::specs::Lists::any_below))]
fn bad_driver(n: usize, m: usize, body: &[u8]) -> bool
    requires { HoldsSlice body.now }
    ensures { result ≡ bad_driver n m body.now }
{
    let mut found = false;
    for p in 0..PIN_COUNT {
        let code = slicefile::pin_code(body, p);
        found = slicefile::decode_driver(code, n, m).is_none() | found;
    }
    found
}

// Rules 4 to 7 on the body of the slice of a number.
#[tactic(auto, unfolding(crate::specs::Rules::body_refusal))]
pub fn body_refusal(n: usize, m: usize, number: usize, body: &[u8]) -> Result<(), Reason>
    requires { HoldsSlice body.now }
    ensures { result ≡ body_refusal n m number body.now }
{
    let told = usize::from(body[NUMBER]);
    if told != number % 256 {
        return Err(Reason::NotDue);
    }
    if bad_choice(body) {
        return Err(Reason::OutsideList);
    }
    if bad_combination(number, body) {
        return Err(Reason::Combination);
    }
    if bad_driver(n, m, body) {
        return Err(Reason::NoDriver);
    }
    Ok(())
}
