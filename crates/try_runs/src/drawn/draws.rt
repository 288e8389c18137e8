// Numbers drawn in a fixed order: each is found from its series and its place alone.
// The number of a series at a place: below 2^32.
pub fn number(series: u64, place: u64) -> u64 {
    let start = mixed(series) % 4294967296;
    mixed(mixed(start + place % 4294967296)) % 4294967296
}

// A coefficient, by the place of its size: 0, 1, -1, 2, -2, .. up to -6 at places 0 to 12.
pub fn coefficient(place: u64) -> i32 {
    let sizes = [0, 1, -1, 2, -2, 3, -3, 4, -4, 5, -5, 6, -6];
    sizes[(place % 13) as usize]
}

fn mixed(x: u64) -> u64 {
    let low = x % 4294967296;
    let spread = (low ^ (low / 65536)) % 4294967296;
    spread * 73244475 % 4294967296
}
