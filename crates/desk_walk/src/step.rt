// One step of the second walk, the count of steps aside. Which generators make a child is found before anything is written.
ghost use Rattle.std.specs.Prelude.{◌≡◌, ◌&&◌, not, ◌+◌, ◌*◌, ◌≤◌, ◌<◌, pos, length};
ghost use Rattle.std.specs.Int.Signed.{lt_z};
ghost use Rattle.linear.specs.Systems.{inner};
ghost use Rattle.linear.specs.Tests.{count_to};
ghost use Rattle.definitions.specs.Tables.{frozen};
ghost use Rattle.table_rows.specs.Rows.{tuple};
ghost use Rattle.desk_rows.specs.Images.{Factors, entry};
ghost use Rattle.desk_walk.specs.Trying.{Trying, generators_tried};
ghost use Rattle.desk_walk.specs.Pushing.{Pushing, pushed};
ghost use Rattle.desk_walk.specs.Enlisting.{Enlisted};

use calls::Refusal;
use desk_rows::{images, marks, rows};

// What a step that was not refused came to: a solution listed, with the number of rows then listed; or children written up to a height.
#[derive(Clone, Copy)]
pub enum DeskStepped {
    Listed(usize),
    Grown(usize),
}

// Lists a solution where there is room, or where a sweep makes room, and returns the number of rows then listed.
pub fn enlist(list: &mut [u32], found: usize, q: usize, top: &[u32]) -> Result<usize, Refusal>
    requires { (0 < q) × (q ≤ length top.now) × (found * q ≤ length list.old) }
    ensures { Enlisted q found (tuple top.now) list.old list.new result }
{
    let capacity = list.len() / q;
    if found < capacity {
        table_rows::rows::write(list, found * q, q, top);
        return Ok(found + 1);
    }
    let left = table_rows::sweep::sweep(list, found, q);
    if capacity <= left {
        return Err(Refusal::ListFull);
    }
    table_rows::rows::write(list, left * q, q, top);
    Ok(left + 1)
}

// Which of the n generators make a child of the tuple `top`, whose image stands in row 64, as marks; what `child` holds is of no meaning. A child with a
// component above the limit is refused.
pub fn admitted_generators(
    p: usize,
    q: usize,
    generators: &[u32],
    n: usize,
    images: &[i64; 520],
    list: &[u32],
    found: usize,
    top: &[u32],
    child: &mut [u32],
    marks: u64,
) -> Result<u64, Refusal>
    requires { Trying p q generators.now n images.now list.now found top.now × (q ≤ length child.old) }
    ensures { result ≡ generators_tried p q generators.now n images.now list.now found (tuple top.now) marks }
{
    let mut made: u64 = 0;
    for j in 0..n {
        if !is_open(p, images, marks, j) {
            continue;
        }
        rows::add(top, generators, j * q, q, child);
        if table_rows::lists::covered(list, found, q, child) {
            continue;
        }
        if rows::is_large(child, q) {
            return Err(Refusal::ComponentLimit);
        }
        made += 1 << j;
    }
    Ok(made)
}

// Whether generator j is not marked, and the inner product below zero.
fn is_open(p: usize, images: &[i64; 520], marks: u64, j: usize) -> bool
    requires { Factors p images.now 64 j × (j < 64) }
    ensures { result ≡ (not (frozen marks j) && lt_z (inner p (entry images.now 64) (entry images.now j)) (pos 0)) }
{
    !marks::is_marked(marks, j) && images::is_below_zero(images::product(p, images, 64, j))
}

// Writes the children's rows from `level` up, and returns the height that they reach.
pub fn push(
    q: usize,
    generators: &[u32],
    n: usize,
    stack: &mut [u32],
    level: usize,
    top: &[u32],
    child: &mut [u32],
    marks: u64,
    made: u64,
) -> usize
    requires { Pushing q generators.now n stack.old level top.now marks made × (q ≤ length child.old) }
    ensures value { result ≡ level + count_to n (frozen made) }
    ensures stack_after { stack.new ≡ pushed n q generators.now stack.old level (tuple top.now) marks (frozen made) }
{
    let mut h = level;
    let mut frozen = marks;
    for j in 0..n {
        if marks::is_marked(made, j) {
            rows::add(top, generators, j * q, q, child);
            rows::write(stack, h, q, child, frozen);
            frozen += 1 << j;
            h += 1;
        }
    }
    h
}
