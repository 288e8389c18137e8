// Tables of numbers, read and written within their length. A tuple is a row of one.

// The entry at i, and 0 past the end.
pub fn at<T: Copy + Default>(table: &[T], i: usize) -> T {
    table.get(i).copied().unwrap_or_default()
}

// Writes the entry at i, and nothing past the end.
pub fn put<T: Copy>(table: &mut [T], i: usize, x: T) {
    if let Some(entry) = table.get_mut(i) {
        *entry = x;
    }
}

// The place of an entry in a table whose rows have `width` numbers; far past the end of every table here where one of the three is large.
pub fn place(row: usize, width: usize, column: usize) -> usize {
    if row < 65536 && width < 65536 && column < 65536 {
        return row * width + column;
    }
    1000000000000
}

// The first q numbers of a row, or none where the table ends before.
pub fn row(table: &[u32], k: usize, width: usize, q: usize) -> &[u32] {
    let start = place(k, width, 0);
    if start <= table.len() && q <= table.len() - start {
        return &table[start..start + q];
    }
    &[]
}

// The first n entries, or all where there are fewer.
pub fn first<T>(table: &[T], n: usize) -> &[T] {
    &table[..n.min(table.len())]
}

pub fn first_mut<T>(table: &mut [T], n: usize) -> &mut [T] {
    let all = table.len();
    &mut table[..n.min(all)]
}

// Whether a table's entries are those that another begins with.
pub fn same(table: &[u32], other: &[u32]) -> bool {
    table.iter().enumerate().all(|(i, x)| *x == at(other, i))
}

// Whether each number of a tuple is at most that of another.
pub fn at_or_below(a: &[u32], b: &[u32]) -> bool {
    a.iter().enumerate().all(|(i, x)| *x <= at(b, i))
}

// Whether one of the first n rows of a list is at or below a tuple.
pub fn any_at_or_below(list: &[u32], n: usize, q: usize, tuple: &[u32]) -> bool {
    (0..n).any(|i| at_or_below(row(list, i, q, q), tuple))
}

// Writes a table's entries over those of another from `first` on.
pub fn copy(from: &[u32], to: &mut [u32], first: usize) {
    for (i, x) in from.iter().enumerate() {
        put(to, first.wrapping_add(i), *x);
    }
}
