// Lists of all number pairs within bounds. The bounds stay two numbers, as a line says them: any two may be asked for.
ghost use Rattle.std.specs.Prelude.{◌≡◌, ℕ, ◌+◌, ◌-◌, ◌*◌, ◌<◌, ◌≤◌, true, map, length, is_ok};
ghost use Rattle.settings.specs.Pairs.{row_from, pairs, fill_answer, filled, PairsListed};
ghost use Rattle.settings.specs.Readings.{numbers};

use crate::cases::MAX_CASES;
use crate::pairs::Pair;
use model::refusals::Refusal;

// The greatest number of a pair.
const MAX_NUMBER: u16 = 255;

// How many pairs there are of which x is the lower number.
fn row_len(x: u16, sum: u16) -> usize
    ensures counts { result ≡ sum - 2 * x }
{
    sum.saturating_sub(x).saturating_sub(x) as usize
}

// How many pairs there are.
fn count_pairs(low: u16, sum: u16) -> usize
    requires small_sum { sum ≤ 510 }
    ensures counts { result ≡ length (pairs low sum) }
{
    (low..sum).map(|x| row_len(x, sum)).sum()
}

// Writes the pairs of which x is the lower number, in order of the greater.
fn write_row(row: &mut [Pair], x: u16)
    requires small_greater { (k : ℕ) → k < length row.old → x + 1 + k ≤ 255 }
    ensures writes_the_row { map numbers row.new ≡ row_from x (x + 1) (length row.old) }
{
    for (place, pair) in row.iter_mut().enumerate() {
        *pair = Pair::new(x as u8, x as u8 + 1 + place as u8);
    }
}

// How many pairs go into a list of so many places, or why none do.
fn admit(places: usize, low: u16, sum: u16) -> Result<usize, Refusal>
    ensures answers_how_many { result ≡ fill_answer low sum places }
{
    let greatest = sum.saturating_sub(low);
    if low == 0 || greatest <= low || greatest > MAX_NUMBER {
        return Err(Refusal::PairBounds);
    }
    let count = count_pairs(low, sum);
    if count > MAX_CASES {
        return Err(Refusal::CaseCount);
    }
    if count > places {
        return Err(Refusal::ShortList);
    }
    Ok(count)
}

// Writes all pairs to the front of the list. The start of a row is carried on, since rows differ in length.
fn write_pairs(list: &mut [Pair], low: u16, sum: u16)
    requires is_admitted { is_ok (fill_answer low sum (length list.old)) ≡ true }
    ensures fills_the_front { map numbers list.new ≡ filled low sum (map numbers list.old) }
{
    let mut start = 0;
    for x in low..sum {
        let end = start + row_len(x, sum);
        write_row(&mut list[start..end], x);
        start = end;
    }
}

// Fills the front of the list with all pairs of a number from `low` on and a greater one that
// together make at most `sum`, ordered by the lower number and then by the greater, and returns
// how many they are. A refusal leaves the list as it was.
pub fn fill_pairs(list: &mut [Pair], low: u16, sum: u16) -> Result<usize, Refusal>
    ensures answers_how_many { result ≡ fill_answer low sum (length list.old) }
    ensures fills_the_front { map numbers list.new ≡ filled low sum (map numbers list.old) }
{
    let count = admit(list.len(), low, sum)?;
    write_pairs(list, low, sum);
    Ok(count)
}

// The pairs of `fill_pairs` are those within the bounds, each once and in order.
pub fn pairs_are_listed()
    ensures lists_the_pairs { PairsListed }
{}
