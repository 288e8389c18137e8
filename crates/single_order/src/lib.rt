// The circuits of single-file maps (document 02, job 12): the profile of their columns, and the order of a row's unknowns.
#![tactic(auto)]

ghost use Rattle.std.specs.Prelude.{◌≡◌, ◌+◌, ◌≤◌, ◌<◌, length};
ghost use Rattle.single_order.specs.Rows.{map_of};
ghost use Rattle.single_spec.specs.Graph as graph;
ghost use Rattle.single_spec.specs.Profile.{graph as graph_of};
ghost use Rattle.single_order.specs.Rows.{row_of, ones_of, place_below, Fits, OrderOf};

pub mod columns; // columns.rt: the profile, and where a column has its 1 and its -1

// Of a row that is a minimal solution of a single-file map: writes its unknowns in their order, and says how many.
pub fn order_of(
    p: usize,
    q: usize,
    coefs: &[i32],
    list: &[u32],
    base: usize,
    order: &mut [usize; 16],
) -> Option<usize>
    requires { (q ≤ 16) × Fits p q (length coefs.now) base (length list.now) × (length order.old ≡ 16) }
    ensures { OrderOf (map_of p q coefs.now) (row_of list.now base) order.new result }
{
    let size = ones(q, list, base)?;
    let first = lowest(q, list, base)?;
    order[0] = first;
    let mut at = first;
    for k in 1..size {
        at = next(p, q, coefs, list, base, at)?;
        if at == first {
            return None;
        }
        order[k] = at;
    }
    if next(p, q, coefs, list, base, at) == Some(first) {
        return Some(size);
    }
    None
}

// How many components of the row from place `base` are 1, where none is above 1.
fn ones(q: usize, list: &[u32], base: usize) -> Option<usize>
    requires { base + q ≤ length list.now }
    ensures { result ≡ ones_of q (row_of list.now base) }
{
    let mut n = 0;
    for j in 0..q {
        match list[base + j] {
            0 => {}
            1 => n += 1,
            _ => return None,
        }
    }
    Some(n)
}

// The lowest unknown of the row that is not 0.
fn lowest(q: usize, list: &[u32], base: usize) -> Option<usize>
    requires { base + q ≤ length list.now }
    ensures { result ≡ place_below q (graph.lowest q (row_of list.now base)) }
{
    (0..q).find(|j| list[base + *j] != 0)
}

// The unknown after `j`: the lowest of them whose column has its -1 where column `j` has its 1.
fn next(p: usize, q: usize, coefs: &[i32], list: &[u32], base: usize, j: usize) -> Option<usize>
    requires { (j < q) × Fits p q (length coefs.now) base (length list.now) }
    ensures { result ≡ place_below q (graph.next (graph_of (map_of p q coefs.now)) (row_of list.now base) j) }
{
    let head = columns::node(p, q, coefs, j, false);
    (0..q).find(|k| list[base + *k] != 0 && columns::node(p, q, coefs, *k, true) == head)
}
