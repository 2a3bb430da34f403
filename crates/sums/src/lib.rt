// AFP's sums: octets added in eight bits with end-around carry (ones' complement), and the two forms in which a header holds them.
#![tactic(auto)]

ghost use Rattle.std.specs.Prelude.{◌≡◌, ◌+◌, ◌*◌, ◌%◌, ◌^◌, ◌<◌, ◌≤◌, length, sum};
ghost use Rattle.sums.specs.Sum.{end_around_add, sum_from, next_station_sum, header_sum};
ghost use Rattle.sums.specs.Total.{chunk, reduced, Totals};

// What octet 0 of a broadcast holds.
pub const BROADCAST_SUM: u8 = 0xFF;

// So many octets are totalled before their carries come round: with a sum, the total fits into 16 bits.
const CHUNK: usize = 256;

// Shorter slices are totalled by words of four octets instead.
const LONG: usize = 32;

// The sum of a slice's octets.
pub fn afp_sum(octets: &[u8]) -> u8
    ensures { result ≡ sum_from 0 octets.now }
{
    if octets.len() < LONG {
        sum_short(octets)
    } else {
        sum_chunks(octets)
    }
}

// The sum of the next station's field as octet 0 of a frame holds it: FF is what a broadcast has there, so FF is written as 0.
#[tactic(auto, unfolding(crate::specs::Sum::next_station_sum))]
pub fn next_station_sum(field: &[u8]) -> u8
    ensures { result ≡ next_station_sum field.now }
{
    let sum = afp_sum(field);
    if sum == BROADCAST_SUM { 0 } else { sum }
}

// The sum of a header's octets as the header holds it behind them: 0 there means "not calculated", so 0 is written as FF.
#[tactic(auto, unfolding(crate::specs::Sum::header_sum))]
pub fn header_sum(octets: &[u8]) -> u8
    ensures { result ≡ header_sum octets.now }
{
    let sum = afp_sum(octets);
    if sum == 0 { 0xFF } else { sum }
}

// Words of four octets, whose carries come round once, and then the octets that are left. Cut off first, the words are seen to be
// seven at most, and no loop is left of them.
fn sum_short(octets: &[u8]) -> u8
    requires { length octets.now < 32 }
    ensures { result ≡ sum_from 0 octets.now }
{
    let (words, left) = octets.split_at(octets.len() - octets.len() % 4);
    add_each(reduce(0, total_words(words)), left)
}

// Whole words, added without a carry. A word counts as its octets do: 256 is 1 modulo 255.
fn total_words(octets: &[u8]) -> u64
    requires { (length octets.now % 4 ≡ 0) × (length octets.now < 32) }
    ensures upper_bound { result < 2 ^ 35 }
    ensures totals { Totals octets.now result }
{
    let mut total: u64 = 0;
    for word in octets.chunks_exact(4) {
        total += u64::from(u32::from_le_bytes([word[0], word[1], word[2], word[3]]));
    }
    total
}

// A slice's octets added to a sum, one by one.
fn add_each(start: u8, octets: &[u8]) -> u8
    ensures { result ≡ sum_from start octets.now }
{
    let mut sum = start;
    for &x in octets {
        sum = end_around_add(sum, x);
    }
    sum
}

// One add. In octets alone: the add wraps, a result below an addend shows the carry, and the carry comes round.
fn end_around_add(sum: u8, x: u8) -> u8
    ensures { result ≡ end_around_add sum x }
{
    let t = sum.wrapping_add(x);
    if t < x { t + 1 } else { t }
}

// By chunks, whose carries come round once, at the end of each.
fn sum_chunks(octets: &[u8]) -> u8
    ensures { result ≡ sum_from 0 octets.now }
{
    let mut sum: u8 = 0;
    for chunk in octets.chunks(CHUNK) {
        sum = reduce(sum, u64::from(total(chunk)));
    }
    sum
}

// The octets of a chunk, added without a carry.
fn total(octets: &[u8]) -> u16
    requires { length octets.now ≤ chunk }
    ensures { Totals octets.now result }
{
    octets.iter().map(|&x| u16::from(x)).sum()
}

// All carries of a total at once: end-around carry counts modulo 255, and only nothing at all sums to 0.
fn reduce(sum: u8, t: u64) -> u8
    requires { t < 2 ^ 36 }
    ensures { result ≡ reduced (sum + t) }
{
    let v = u64::from(sum) + t;
    if v == 0 {
        return 0;
    }
    ((v - 1) % 255 + 1) as u8
}
