// A heap of pending cells, each slot with four below it, in the first 2n entries of a lent list: entry 2i is the key in the slot i, and entry 2i + 1 is
// the cell in the slot i plus 65,536 times the slot of the cell i. A cell is pending if its slot is below the size and holds it: nothing is ever cleared.
// The size is a number handed along. Only contracts read n.
#![tactic(auto)]

ghost use Rattle.std.specs.Prelude.{◌≡◌, ◌⊎◌, ℕ, ◌+◌, ◌*◌, ◌-◌, ◌≤◌, ◌<◌, min, length};
ghost use Rattle.queue.specs.Heap.{never, key, cell, place, keys, Heap, Put, Least};
ghost use Rattle.queue.specs.Mending.{Room, Seated, Found, Hole, Below, Moved, Rested, Chosen};

pub mod lists;

const NEVER: u32 = 4294967295;

fn cell_in(work: &[u32], n: usize, slot: usize) -> usize
    requires { (slot < n) × Room n work.now }
    ensures { result ≡ cell work.now slot }
{
    (work[2 * slot + 1] % 65536) as usize
}

fn place_of(work: &[u32], n: usize, c: usize) -> usize
    requires { (c < n) × Room n work.now }
    ensures { result ≡ place work.now c }
{
    (work[2 * c + 1] / 65536) as usize
}

// Puts the cell c with its key x into a slot.
fn seat(work: &mut [u32], n: usize, slot: usize, c: usize, x: u32)
    requires { (slot < n) × (c < n) × Room n work.old }
    ensures { Seated work.old n slot c x work.new }
{
    let top = 2 * slot;
    work[top] = x;
    let at = 2 * slot + 1;
    work[at] = work[at] / 65536 * 65536 + c as u32;
    let by = 2 * c + 1;
    work[by] = work[by] % 65536 + 65536 * slot as u32;
}

// The slot of the cell c, or the size where it is not pending.
fn slot_of(work: &[u32], size: usize, n: usize, c: usize) -> usize
    requires { (c < n) × (size ≤ n) × Room n work.now }
    ensures { Found work.now size c result }
{
    let at = place_of(work, n, c);
    if at < size {
        if cell_in(work, n, at) == c {
            return at;
        }
    }
    size
}

// Lets the hole rise until the key above it is not above x. The hole's slot is the answer. Only the contract reads c, the cell that is to be seated there.
fn rise(work: &mut [u32], size: usize, n: usize, hole: usize, c: usize, x: u32) -> usize
    requires { Room n work.old × Hole work.old size n hole c × Below work.old size hole x }
    ensures { Rested work.old size n hole c x work.new result }
{
    let mut i = hole;
    while i > 0 {
        let p = (i - 1) / 4;
        let y = work[2 * p];
        if y <= x {
            return i;
        }
        let e = cell_in(work, n, p);
        seat(work, n, i, e, y);
        i = p;
    }
    i
}

// Of two slots the one with the lesser key.
fn better(a: usize, x: u32, b: usize, y: u32) -> usize
    ensures { ((result ≡ a) × (x ≤ y)) ⊎ ((result ≡ b) × (y < x)) }
{
    if y < x { b } else { a }
}

// 1 where x is less than y, else 0: a sum in the place of a choice, of which a branch might be compiled.
fn less(x: u32, y: u32) -> usize
    ensures { ((result ≡ 0) × (y ≤ x)) ⊎ ((result ≡ 1) × (x < y)) }
{
    usize::from(x < y)
}

// A slot and its key.
#[derive(Clone, Copy)]
struct Child {
    slot: usize,
    x: u32,
}

// Of four slots in a row one with the least key.
fn least_of_row(work: &[u32], f: usize) -> Child
    requires { 2 * (f + 4) ≤ length work.now }
    ensures { (result.x ≡ key work.now result.slot) × Chosen work.now f (f + 3) result.slot }
{
    let p = work[2 * f];
    let q = work[2 * f + 2];
    let u = work[2 * f + 4];
    let v = work[2 * f + 6];
    let x = p.min(q);
    let y = u.min(v);
    let a = f + less(q, p);
    let b = f + 2 + less(v, u);
    Child {
        slot: better(a, x, b, y),
        x: x.min(y),
    }
}

// Of the slots from f on one with the least key, where there are at most three: the last stands for those that are missing.
fn least_of_few(work: &[u32], f: usize, last: usize) -> Child
    requires { (f ≤ last) × (last < f + 3) × (2 * (last + 1) ≤ length work.now) }
    ensures { (result.x ≡ key work.now result.slot) × Chosen work.now f last result.slot }
{
    let m = last.min(f + 1);
    let p = work[2 * f];
    let q = work[2 * m];
    let y = work[2 * last];
    let x = p.min(q);
    let a = better(f, p, m, q);
    Child {
        slot: better(a, x, last, y),
        x: x.min(y),
    }
}

// The slot with the least key below slot i.
fn least_child(work: &[u32], size: usize, i: usize) -> Child
    requires { (4 * i + 1 < size) × (2 * size ≤ length work.now) }
    ensures { (result.x ≡ key work.now result.slot) × Chosen work.now (4 * i + 1) (min (4 * i + 4) (size - 1)) result.slot }
{
    let f = 4 * i + 1;
    if f + 4 <= size {
        return least_of_row(work, f);
    }
    least_of_few(work, f, size - 1)
}

// Lets the hole sink from the first slot to one with none below it, the least key below it moving up each time. The hole's slot is the answer.
// To the end whatever the key is that comes there: as it comes from the last slot, it seldom stays higher, and the test would often be guessed wrong.
fn sink(work: &mut [u32], size: usize, n: usize, c: usize) -> usize
    requires { Room n work.old × Hole work.old size n 0 c }
    ensures { Moved work.old size n 0 c work.new result × (size ≤ 4 * result + 1) }
{
    let mut i = 0;
    while 4 * i + 1 < size {
        let below = least_child(work, size, i);
        let b = below.slot;
        let y = below.x;
        let e = cell_in(work, n, b);
        seat(work, n, i, e, y);
        i = b;
    }
    i
}

// The least of the keys, never where no cell is pending.
pub fn least_key(work: &[u32], size: usize, n: usize) -> u32
    requires { (2 * n ≤ length work.now) × Heap work.now size n }
    ensures { ((c : ℕ) → result ≤ keys work.now size c) × (result < never → (0 < size) × (result ≡ key work.now 0)) }
{
    if size > 0 { work[0] } else { NEVER }
}

// A pending cell whose key is the least: where there is one, it is in the first slot.
pub fn first(work: &[u32], size: usize, n: usize) -> usize
    requires { (0 < size) × (2 * n ≤ length work.now) × Heap work.now size n }
    ensures { Least work.now size n result }
{
    cell_in(work, n, 0)
}

// The cell c, which is not pending, becomes so with the key x. The new size is the answer.
pub fn insert(work: &mut [u32], size: usize, n: usize, c: usize, x: u32) -> usize
    requires { (c < n) × (2 * n ≤ length work.old) × Heap work.old size n × (keys work.old size c ≡ never) × (x < never) }
    ensures { Put work.old size n c x work.new result }
{
    let to = rise(work, size + 1, n, size, c, x);
    seat(work, n, to, c, x);
    size + 1
}

// The size once a slot is in use.
fn size_with(size: usize, slot: usize) -> usize
    requires { size ≤ 65536 }
    ensures { ((slot < size) × (result ≡ size)) ⊎ ((size ≤ slot) × (result ≡ size + 1)) }
{
    if slot < size { size } else { size + 1 }
}

// Lowers the key of the cell c, which need not be pending, to x. The new size is the answer.
pub fn lower(work: &mut [u32], size: usize, n: usize, c: usize, x: u32) -> usize
    requires { (c < n) × (2 * n ≤ length work.old) × Heap work.old size n × (x < keys work.old size c) }
    ensures { Put work.old size n c x work.new result }
{
    let at = slot_of(work, size, n, c);
    let next = size_with(size, at);
    let to = rise(work, next, n, at, c, x);
    seat(work, n, to, c, x);
    next
}

// Removes the cell in the first slot. The new size is the answer.
pub fn remove_first(work: &mut [u32], size: usize, n: usize) -> usize
    requires { (0 < size) × (2 * n ≤ length work.old) × Heap work.old size n }
    ensures { Put work.old size n (cell work.old 0) never work.new result }
{
    let last = size - 1;
    if last > 0 {
        let c = cell_in(work, n, last);
        let x = work[2 * last];
        let hole = sink(work, last, n, c);
        let to = rise(work, last, n, hole, c, x);
        seat(work, n, to, c, x);
    }
    last
}
