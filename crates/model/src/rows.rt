// Rows: sets of worlds, 64 to a word, lent by the caller.
ghost use Rattle.std.specs.Prelude.{◌≡◌, ℕ, ◌+◌, ◌*◌, ◌^◌, ◌<◌, ◌≤◌, bit_and, bit_or, bit_xor, slice_index};
ghost use Rattle.model.specs.Rows.{words, digit, bit, with_world, without_world, count, RowsAreSets};

// How many worlds a word of a row has.
pub const WORD: u16 = 64;

// How many words a row of so many worlds has.
pub fn words_for(width: u16) -> usize
    ensures rounds_up { result ≡ words width }
{
    (width as usize).div_ceil(WORD as usize)
}

// How many words a row of 4,096 worlds has, the most that a model can have.
pub const MAX_WORDS: usize = 64;

// The word at a place of a row, and 0 past its end.
fn word_at(row: &[u64], place: usize) -> u64
    ensures { result ≡ slice_index row.now place }
{
    row.get(place).copied().unwrap_or(0)
}

// Word and place stay two numbers here and below: a type for a place below 64 would be made anew at each of three calls.
fn has_digit(word: u64, place: u16) -> bool
    requires { place < 64 }
    ensures { result ≡ digit word place }
{
    (word >> place) & 1 == 1
}

fn with_digit(word: u64, place: u16) -> u64
    requires { place < 64 }
    ensures { result ≡ bit_or word (2 ^ place) }
{
    word | 1 << place
}

fn without_digit(word: u64, place: u16) -> u64
    requires { place < 64 }
    ensures { result ≡ bit_xor word (bit_and word (2 ^ place)) }
{
    word ^ (word & (1 << place))
}

// Whether the world is in the row.
pub fn has_world(row: &[u64], world: u16) -> bool
    ensures is_the_bit { result ≡ bit row.now world }
{
    has_digit(word_at(row, (world / WORD) as usize), world % WORD)
}

// Puts the world into the row; past the row's end it does nothing.
pub fn add_world(row: &mut [u64], world: u16)
    ensures sets_the_bit { row.new ≡ with_world row.old world }
{
    let place = (world / WORD) as usize;
    if place < row.len() {
        row[place] = with_digit(row[place], world % WORD);
    }
}

// Takes the world out of the row. It stands beside `add_world`: one function that takes the operation as a closure is longer than both.
pub fn remove_world(row: &mut [u64], world: u16)
    ensures clears_the_bit { row.new ≡ without_world row.old world }
{
    let place = (world / WORD) as usize;
    if place < row.len() {
        row[place] = without_digit(row[place], world % WORD);
    }
}

// The row in as many words as any model needs: 0 past the row's end, and no word past the 64th.
pub fn whole_row(row: &[u64]) -> [u64; MAX_WORDS]
    ensures has_the_same_worlds { (w : ℕ) → w < 4096 → bit result w ≡ bit row.now w }
{
    let mut whole = [0; MAX_WORDS];
    let kept = row.len().min(MAX_WORDS);
    whole[..kept].copy_from_slice(&row[..kept]);
    whole
}

// How many worlds the first words of a row have, and then the first digits of the next word.
fn count_front(row: &[u64], words: u16, digits: u16) -> u16
    requires few_words { 64 * words + digits < 65536 }
    requires few_digits { digits < 64 }
    ensures { (width : ℕ) → width ≡ 64 * words + digits → result ≡ count (bit row.now) width }
{
    let whole: u32 = row
        .iter()
        .take(words as usize)
        .map(|word| word.count_ones())
        .sum();
    let mask = (1 << digits) - 1;
    (whole + (word_at(row, words as usize) & mask).count_ones()) as u16
}

// How many worlds below the width the row has, counted word by word.
pub fn count_worlds(row: &[u64], width: u16) -> u16
    ensures counts_the_set_worlds { result ≡ count (bit row.now) width }
{
    count_front(row, width / WORD, width % WORD)
}

// A row is a set of worlds: adding or removing one alters no other.
pub fn rows_are_sets()
    ensures rows_are_sets { RowsAreSets }
{}
